// What an operation mentions for its entry.
use rx_book::Pass;
use rx_parts::{EntryItem, EventItem};
use std::snapshot::Snapshot;

/// What an operation of the ledger's book mentions beside its entry, for contracts alone. It has no bytes.
#[derive(Drop)]
pub struct Mentions {
    /// The task's pass of its place's book, when its entry before was made.
    pub before: Snapshot<Pass<EventItem>>,
    /// The same pass now. The task made what is new of it.
    pub now: Snapshot<Pass<EventItem>>,
    /// The pass of the ledger's book of the task that the entry starts.
    pub child: Snapshot<Pass<EntryItem>>,
    /// The pass of its place's book of the task that the entry makes live.
    pub seat: Snapshot<Pass<EventItem>>,
}
