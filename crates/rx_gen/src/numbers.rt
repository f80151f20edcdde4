// The numbers of a history.

/// The numbers of a history.
#[derive(Clone, Copy, Debug, PartialEq, Eq)]
pub struct Counts {
    /// Entries.
    pub entries: u32,
    /// Tasks born, the first one among them.
    pub tasks: u32,
    /// Values printed.
    pub prints: u32,
    /// Deaths of places.
    pub deaths: u32,
    /// Releases, of scopes and of the root, that name a place that lost tasks.
    pub losses: u32,
}
