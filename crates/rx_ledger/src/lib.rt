//! The keeper of a ledger: it answers the requests of tasks, which hold tickets. It stands on rx_chronicle, which keeps the ledger with
//! its history and the deaths and joins that are not done, and it is generic in the ledger. The layers above use that the history of
//! a keeper has `Folds`, that its ledger stands for the tree to which the history folds, and that `apply` appends the deaths and
//! joins that are due first and then at most one entry more.
#![tactic(auto)]

mod answering;
mod asks;
mod due;
mod keeper;
pub mod laws;
mod moving;
mod opening;
mod refusing;
mod releasing;
mod tickets;
mod waiting;

pub use asks::{Reply, Request};
pub use keeper::Keeper;
pub use rx_counts::CountLedger;
pub use rx_finish::Totals;
