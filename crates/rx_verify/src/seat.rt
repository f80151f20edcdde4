// What is kept of one task that is at its place.
use rx_base::PlaceId;
use rx_control::{Control, Want};
use rx_finish::Caller;

/// A task at its place, or on its way: who it is to the ledger, what it has still to run, the position of its next event in the
/// journal of its place, or that journal's length, and one more than the number of its last entry, or of its birth.
#[derive(Drop)]
pub struct Seat {
    pub who: Caller,
    pub home: PlaceId,
    pub control: Control,
    pub position: usize,
    pub low: u32,
}

/// Where a walk stops.
#[derive(Clone, Copy, Debug, PartialEq, Eq)]
pub enum Stop {
    /// At a request to the ledger.
    Asks(Want),
    /// At the task's end.
    Ends,
    /// At a store call that the task's next event does not answer.
    Halts,
}
