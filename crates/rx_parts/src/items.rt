// The items of both kinds of book, as contracts see them. An item of a place's book carries a history of the ledger's book, whose
// items carry none, so no type holds itself. No value of these types is made when a program runs.
use rx_base::TaskId;
use rx_book::{Dies, Stamped};
use rx_rules::{Cell, Entry};
use std::collections::LinkedList;

/// An event of a task, as an entry of that task names it.
pub struct NamedEvent {
    /// A number of entries of the history.
    pub stamp: u64,
    pub cell: Cell,
    pub path: LinkedList<u64>,
}

/// An item of the ledger's book: an entry, and what its operation names beside it.
pub struct EntryItem {
    pub entry: Entry,
    /// The events that the entry's task made since its entry before.
    pub events: LinkedList<NamedEvent>,
    /// The caller number that holds the task which the entry starts.
    pub holder: LinkedList<u64>,
    /// The caller number, in its place's book, of the task which the entry makes live.
    pub seat: LinkedList<u64>,
}

/// An item of a place's book: an event of a task, and the history of the ledger's book that the place had seen.
pub struct EventItem {
    pub task: TaskId,
    /// A number of entries of the ledger's history.
    pub stamp: u64,
    pub cell: Cell,
    pub path: LinkedList<u64>,
    pub carried: LinkedList<Stamped<EntryItem>>,
}

impl Dies for EntryItem {
    ghost use Rattle.rx_parts.specs.Deaths.{place_shown};
    ghost use Rattle.rx_parts.specs.Inside.Small.{shows_small};

    ghost place = { λ x. place_shown x.entry };

    ghost small = { λ x. shows_small x.entry };
}

impl Dies for EventItem {
    ghost use Rattle.std.specs.Prelude.{None};
    ghost use Rattle.rx_parts.specs.Inside.Small.{nobody};

    ghost place = { λ x. None };

    ghost small = { λ x. nobody };
}
