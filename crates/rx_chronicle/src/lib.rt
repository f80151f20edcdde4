//! A chronicle: a ledger with the history of what it has granted, the deaths and joins that are not done, and a note of each scope. A
//! request names its caller, and needs no ticket. The crate stands on rx_finish, and is generic in the ledger. The layers above see a
//! chronicle as its history: a request that is granted appends its entry, a request that is refused changes nothing, and the ledger
//! stands for the tree to which the history folds.
#![tactic(auto)]

mod chronicle;
mod due;
mod entry;
pub mod laws;
mod moving;
mod notes;
mod opening;
mod releasing;
mod waiting;

pub use chronicle::Chronicle;
pub use notes::Note;
