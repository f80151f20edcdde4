// What a call answers where it could not do its work.
use std::alloc::{AllocError, AllocFailed};

/// There is no memory left. It is the one answer that no contract ties to a cause: a call that can give it may always give
/// it, and leaves its arguments and its state as they were unless it says otherwise.
#[derive(Clone, Copy, Debug, PartialEq, Eq)]
pub struct NoMemory;

impl From<AllocError> for NoMemory {
    fn from(_: AllocError) -> Self {
        NoMemory
    }
}

impl<T: Drop> From<AllocFailed<T>> for NoMemory {
    fn from(_: AllocFailed<T>) -> Self {
        NoMemory
    }
}

/// A call to the outside failed. It comes only where the count of faults of the source or sink rose in that call.
#[derive(Clone, Copy, Debug, PartialEq, Eq)]
pub struct Failed;
