//! The stores of places. A `Store` is that of one place: blocks by reference, and a journal of all that was asked of it. `Stores` are
//! those of all places: each is opened, is called as the control of a task asks, and is closed by the death of its place; in the end
//! their journals are given out. It stands on rx_heap, rx_history and the rules. The layer above uses that a journal is a run of the
//! store's law, that each answer is the event that tells it and what the control is to be told, and that a call takes one of the spare
//! number and no memory. Who asks blocks without a journal (`Blocks`) uses that each call is the event that the law allows.
#![tactic(auto)]

mod asking;
mod blocks;
mod calls;
mod store;
mod stores;
mod table;

pub use asking::ask;
pub use blocks::Blocks;
pub use calls::{Mark, StoreFault};
pub use store::Store;
pub use stores::Stores;
