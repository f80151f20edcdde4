// What the longest chain of a history is told as.
use rx_base::Batch;

/// The statements of a history: how many it tells, and the longest chain of them.
#[derive(Drop)]
pub struct Span {
    /// How many statements stand in the batches and the entries of the history.
    pub statements: u32,
    /// The longest list of them in which each is before the next. Of lists of one length it is the first, path by path.
    pub chain: Batch,
}
