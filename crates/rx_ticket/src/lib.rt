//! Tickets: who may ask a keeper of a ledger, in typed states. A ticket can't be copied, and each move takes it and gives it back in
//! its next state, so none is used twice. A ticket in transit may be dropped, as what lies in a queue must be; one that is live or
//! waits has to be spent. It stands on rx_finish, whose `Caller` a ticket carries; contracts see a ticket as its caller. The layers
//! above use that the fields of a ticket are those of its caller, and that a state is entered by `issue` or a move alone.
//! docs/trust.md says under "Tickets" what of this the compiler checks and what the contracts say.
#![tactic(auto)]

mod states;
mod tickets;

pub use states::{InTransit, Live, State, Waiting};
pub use tickets::{AnyTicket, Ticket};
