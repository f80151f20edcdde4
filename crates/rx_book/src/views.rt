// What a seat at the word of a book knows. No value of these types is made when a program runs.
use std::collections::LinkedList;

/// An item of the history, with the number of the caller that appended it.
pub struct Stamped<I> {
    pub by: LinkedList<u64>,
    pub item: I,
}

/// What a seat had seen when it took part in a join.
pub struct Past<I> {
    pub marked: bool,
    pub seen: LinkedList<Stamped<I>>,
    pub reach: u64,
    pub dead: u64,
}

/// What one seat knows.
pub struct View<I> {
    /// Whether it is the seat that stands for the whole history.
    pub marked: bool,
    /// Whether it belongs to a caller with a number.
    pub numbered: bool,
    /// The caller's number.
    pub number: LinkedList<u64>,
    /// How many callers were split off from this one.
    pub splits: u64,
    /// A beginning of the history.
    pub seen: LinkedList<Stamped<I>>,
    /// The caller's own entries.
    pub mine: LinkedList<Stamped<I>>,
    /// The number of entries that were seen to stand in the history.
    pub reach: u64,
    /// The places whose deaths stand among these; bit p stands for place p.
    pub dead: u64,
    /// What the first seat of the last join had seen. A join tells nothing, so a later load tells of it.
    pub first: Past<I>,
    /// The same of the second seat.
    pub second: Past<I>,
}
