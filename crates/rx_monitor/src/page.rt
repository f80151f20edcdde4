// What `left_right` shows: a summary, with the one-shot that has a note of the list that it ends.
ghost use Rattle.std.specs.Prelude.{◌≡◌, ◌+◌, [], length, IfOk};
ghost use Rattle.std.specs.Arc.{arc_value};
ghost use Rattle.rx_monitor.specs.Inside.OneShots.{fresh};

use crate::one_shot::{Filler, Label, OneShot};
use crate::shown_list::ListSeat;
use crate::summary::Summary;
use atomic_table::{Join, Split};
use crossbeam_utils::rule::{Outcome, Protocol};
use left_right::Absorb;
use left_right::reader::Reader;
use left_right::writer::Writer;
use std::alloc::{AllocError, Global};
use std::snapshot::Snapshot;
use std::sync::Arc;

#[derive(Drop)]
pub struct Posted {
    pub last: Summary,
    pub count: u64,
    pub one_shot: OneShot,
    ghost named: { last ≡ one_shot.table.shared.key.summary },
    ghost counted: { count ≡ length one_shot.table.shared.key.before.value.me.0.seen + 1 },
}

impl Posted {
    /// The entry that is to come after all that the seat with the mark has seen.
    pub fn after(
        alloc: Global,
        mark: &ListSeat,
        summary: Summary,
        count: u64,
    ) -> Result<(Arc<Posted>, Filler), AllocError>
        requires { count ≡ length mark.now.me.0.seen + 1 }
        ensures label { IfOk result (λ t. ((arc_value t.0).one_shot.table.shared.key.before.value ≡ mark.now)
            × ((arc_value t.0).one_shot.table.shared.key.summary ≡ summary)) }
        ensures filler { IfOk result (λ t. (t.1.table_id ≡ (arc_value t.0).one_shot.table.shared.table_id)
            × (t.1.me ≡ (fresh (arc_value t.0).one_shot.table.shared.key, []))) }
    {
        let label = Label {
            before: Snapshot::of(mark),
            summary,
        };
        let (one_shot, filler) = OneShot::new(alloc, &label)?;
        let entry = Posted {
            last: summary,
            count,
            one_shot,
        };
        Ok((Arc::new(alloc, entry)?, filler))
    }
}

#[derive(Drop)]
pub struct Page {
    pub entry: Arc<Posted>,
}

impl Absorb<Arc<Posted>> for Page {
    type State = Label;

    ghost use Rattle.std.specs.Arc.{arc_value};

    ghost state = { λ p. (arc_value p.entry).one_shot.table.shared.key };

    ghost applied = { λ _ e. (arc_value e).one_shot.table.shared.key };

    fn absorb_first(&mut self, operation: &Arc<Posted>, _other: &Page) -> Result<(), AllocError> {
        self.entry = Arc::try_clone(operation)?;
        Ok(())
    }
}

/// What a handle knows: nothing yet, or of which board the page is. No value of it is made.
pub struct Tie {
    pub board: Option<Snapshot<ListSeat>>,
}

/// Each handle that knows a board knows the board of the page.
pub struct Ties;

impl Protocol<Page, Tie> for Ties {
    ghost use Rattle.rx_monitor.specs.Inside.Ties.{Tied, untied};

    ghost holds = { Tied };

    ghost first = { untied };
}

/// The board of the page becomes known.
pub struct Names;

impl Outcome<Page, Tie> for Names {
    ghost use Rattle.rx_monitor.specs.Inside.Ties.{IsOf, label_of};
    ghost use Rattle.rx_monitor.specs.Inside.Pages.{board_of};

    ghost then = { λ v x y w. IsOf (board_of (label_of y)) w };
}

/// The page is of the board that is known.
pub struct Sees;

impl Outcome<Page, Tie> for Sees {
    ghost use Rattle.rx_monitor.specs.Inside.Ties.{IsSeen};

    ghost then = { λ v x y w. IsSeen v x w };
}

/// What the writer knows, for a reader.
pub struct Tells;

impl Split<Tie> for Tells {
    ghost left = { λ v. v };

    ghost right = { λ v. v };
}

impl Join<Tie> for Tells {
    ghost use Rattle.rx_monitor.specs.Inside.Ties.{untied};

    ghost both = { λ v w. w };

    ghost spent = { untied };
}

pub type PageReader = Reader<Page, Tie, Ties>;

pub type PageWriter = Writer<Page, Arc<Posted>, Tie, Ties>;
