// What the tasks of a history have still to run.
ghost use Rattle.std.specs.Prelude.{◌≡◌, ◌≤◌, ◌^◌, List, length, IfOk};
ghost use Rattle.rx_rules.specs.declared.entries.Entry.{Entry};
ghost use Rattle.rx_rules.specs.Code.{Block};
ghost use Rattle.rx_rules.specs.Run.{Given};
ghost use Rattle.rx_syntax.specs.Shape.{Stands};
ghost use Rattle.rx_history.specs.Events.{events_of};
ghost use Rattle.rx_verify.specs.Players.{PlayersAre};

use crate::seat::Seat;
use crate::table::EventTable;
use rx_base::{NoMemory, PlaceId, ScopeId, TaskId};
use rx_check::{Program, checked};
use rx_control::Control;
use rx_finish::Caller;
use rx_history::Journals;
use rx_rules::Where;
use rx_verdict::Marks;
use std::alloc::Global;

/// What is kept of one task. A seat lies by itself in memory, which is given back when its task ends.
#[derive(Drop)]
pub enum Slot {
    /// It travels to its place, and has its start still to run.
    Away(Box<Seat>),
    /// It is at its place.
    Here(Box<Seat>),
    /// It has ended.
    Over,
}

/// A slot for each task born, by its number.
#[derive(Drop)]
pub struct Players {
    pub(crate) slots: Vec<Slot>,
    pub(crate) table: EventTable,
    pub(crate) marks: Marks,
    /// The parent of each scope opened, by its number; the root stands first, with itself.
    pub(crate) parents: Vec<ScopeId>,
}

impl Players {
    /// Before the first of so many entries: the main activity stands at place 0, and there are so many places, from 1 to 16.
    pub fn open(
        alloc: Global,
        p: &Program,
        journals: &Journals,
        places: u8,
        entries: usize,
    ) -> Result<Players, NoMemory>
        requires some { 1 ≤ places }
        requires few { places ≤ 16 }
        requires numbered { entries ≤ 2 ^ 32 }
        ensures { IfOk result (λ ps. (code : Block) (U : Given) (es : List Entry) → Stands p.now.script code → U.places ≡ places
            → length es ≡ entries → PlayersAre p.now.script code U es (events_of journals.now) 0 ps) }
    {
        checked(p);
        rx_verdict::seats_tell();
        rx_verdict::event_laws::marks_begin_empty();
        let table = EventTable::open(alloc, journals, entries + 1)?;
        let marks = Marks::open(alloc, journals)?;
        let control = Control::main(alloc, p, places)?;
        let seat = Seat {
            who: Caller {
                task: TaskId(0),
                scope: ScopeId(0),
                inner: ScopeId(0),
                place: Where::At(PlaceId(0)),
            },
            home: PlaceId(0),
            control,
            position: table.first(PlaceId(0), TaskId(0)),
            low: 0,
        };
        let mut slots = Vec::new(alloc);
        slots.push(Slot::Here(Box::new(alloc, seat)?))?;
        let mut parents = Vec::new(alloc);
        parents.push(ScopeId(0))?;
        Ok(Players {
            slots,
            table,
            marks,
            parents,
        })
    }
}
