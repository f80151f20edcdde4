//! The ledger of counts. It promises what every ledger does, and keeps no task: of each scope that stands it keeps the kind, home
//! and parent, how many unstruck tasks are at each place and travel between each two, where tasks were lost, and the faults. The
//! nearest scope with a living home, from a scope itself along parents, counts the tasks that hang under it, and so adopts them
//! where the home dies. It stands on rx_base, on rx_rules, whose `Counts.antt` says what counts stand for, on rx_tree_laws, by whose
//! laws a scope's own numbers tell whether it is quiet, and on rx_finish, whose trait `FinishLedger` it implements. The layer above
//! is generic over that trait: it uses `CountLedger::open` and the calls of the trait. docs/semantics.md states the rules under
//! "Activities and scopes" and "Deaths and losses", and docs/architecture.md what each call costs.
#![tactic(auto)]

mod cells;
mod dying;
mod ledger;
mod pages;
mod places;
mod record;
mod removal;
mod table;
mod totals;

pub use ledger::{CountLedger, ScopeSeen, counts_stand};
