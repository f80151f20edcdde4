// Who asks a store, what it may refuse, and how a call is told.
ghost use Rattle.std.specs.Prelude.{◌≡◌, ◌-◌, ◌<◌, [], ◌∷◌, ◌++◌, max, cond};
ghost use Rattle.rx_rules.specs.declared.events.PlaceEvent.TheVariants.{Done};

use rx_base::{Path, TaskId};
use rx_history::Journal;
use rx_rules::{Cell, PlaceEvent};

/// Who asks: the task, the length of the history, and the statement.
#[derive(Drop)]
pub struct Mark {
    pub task: TaskId,
    pub stamp: u32,
    pub path: Path,
}

/// What a store refuses.
#[derive(Clone, Copy, Debug, PartialEq, Eq)]
pub enum StoreFault {
    /// The place has died.
    Closed,
    /// No live block has that start and generation.
    Stale,
    /// The index is outside the block.
    Index,
    /// No hole has so many words.
    Full,
}

// Appends the event of a call. Its stamp is the greater of the mark's and the last.
pub(crate) fn tell(journal: &mut Journal, last: &mut u32, m: Mark, cell: Cell)
    requires { 0 < journal.old.spare }
    ensures last { last.new ≡ max m.stamp last.old }
    ensures journal { journal.new ≡ record {
      events = journal.old.events ++ Done m.task (max m.stamp last.old) cell m.path ∷ [];
      spare = journal.old.spare - 1;
    } }
{
    let Mark { task, stamp, path } = m;
    let stamp = stamp.max(*last);
    *last = stamp;
    journal.add(PlaceEvent::Done {
        task,
        stamp,
        cell,
        path,
    });
}

// The refusal of a call whose reference is stale, or whose block has no such index.
pub(crate) fn unlocated(stale: bool) -> StoreFault
    ensures { result ≡ cond stale StoreFault.Stale StoreFault.Index }
{
    if stale {
        StoreFault::Stale
    } else {
        StoreFault::Index
    }
}
