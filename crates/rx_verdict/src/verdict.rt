// The verdict on a history and its journals. docs/semantics.md states under "Verdicts" which applies.
use rx_base::PlaceId;

/// The first flaw of a history and its journals, or that they are a whole run.
#[derive(Clone, Copy, Debug, PartialEq, Eq)]
pub enum Verdict {
    /// No flaw: they are a whole run.
    Run,
    /// The entries before this one are a part of a run, and with it they are none.
    Entry {
        /// The number of the entry, from 0.
        number: u32,
    },
    /// All entries are a part of a run, and the last is not the release of the root, or there is none.
    End,
    /// The first event that is not good, by place and then by its position in the journal.
    Event {
        /// The place of the journal.
        place: PlaceId,
        /// The position in the journal, from 0.
        number: u32,
    },
    /// The first place that died and whose journal has no close.
    Open {
        /// The place.
        place: PlaceId,
    },
}
