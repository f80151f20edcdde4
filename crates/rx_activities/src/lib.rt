//! The activities of a run in parts: each has its control, its ticket, its pass of the ledger's book and its pass of its place's book,
//! and makes its turns by calls of these two books. It stands on the objects (rx_objects), on the control (rx_control) and on the
//! tickets and requests of the keeper (rx_ticket, rx_ledger). The layers above use that an activity which comes out of a queue knows
//! what its next call needs, and that every turn ends with such an activity or with its ticket spent.
#![tactic(auto)]

mod activity;
mod asking;
mod hand;
mod naming;
mod replies;
mod steps;
mod store;
mod traveller;
mod turn;

pub use activity::{Activity, Began, Turn};
pub use naming::{LedgerPass, Naming};
pub use traveller::Traveller;
pub use turn::Company;
