//! The verdict on a history and its journals for a program: the first flaw, or that they are a whole run. It goes through the entries:
//! the players tell who asks for an act and whether its task makes the entry, and an audit, which is a ledger with what is left of the
//! plan, whether the entry may follow. It stands on rx_control for the steps, on rx_ledger for the law of asking, on rx_finish for the
//! ledger, in which it is generic, and on rx_verdict for the events and the definitions. The layer above uses `verify`. That two
//! verdicts on one pair are the same, and that a pair is a whole run exactly where its verdict is `Run`, are the laws `verdict_is_one`,
//! `run_has_verdict` and `verdict_is_run` of rx_verdict. docs/semantics.md states the verdict in words. A player is a task that has
//! come somewhere in its run: it walks by local steps and by store calls that the next event of its place answers, up to a request to
//! the ledger, its end, or a store call that no event answers.
#![tactic(auto)]

mod admitting;
mod along;
mod answering;
mod audit;
mod granting;
pub mod laws;
mod marking;
mod players;
mod requests;
mod seat;
mod table;
mod verifying;
mod walk;

pub use along::Along;
pub use answering::{answers, event_tells_call};
pub use players::{Players, Slot};
pub use rx_verdict::Verdict;
pub use seat::{Seat, Stop};
pub use table::EventTable;
pub use verifying::verify;
