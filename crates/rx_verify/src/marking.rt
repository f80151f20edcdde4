// Walks of tasks, with the marks on the events that they use.
ghost use Rattle.std.specs.Prelude.{◌↔◌, ◌+◌, ◌<◌, ◌≤◌, ℕ, List, Option, Some, length, IsTrue, IfOk};
ghost use Rattle.rx_rules.specs.declared.entries.Entry.{Entry};
ghost use Rattle.rx_rules.specs.Code.{Block};
ghost use Rattle.rx_rules.specs.Plays.{journal_at};
ghost use Rattle.rx_rules.specs.Run.{Given};
ghost use Rattle.rx_syntax.specs.Shape.{Stands};
ghost use Rattle.rx_history.specs.Events.{events_of};
ghost use Rattle.rx_verdict.specs.Marked.{HasShape};
ghost use Rattle.rx_verdict.specs.Judged.{MarksTell};
ghost use Rattle.rx_verify.specs.declared.players.Slot.TheVariants.{Here};
ghost use Rattle.rx_verify.specs.declared.seat.Seat.{Seat};
ghost use Rattle.rx_verify.specs.Events.{IsOf, IsFirst};
ghost use Rattle.rx_verify.specs.Marked.{InReach, MarksUsed};
ghost use Rattle.rx_verify.specs.Players.{PlayersAre};
ghost use Rattle.rx_verify.specs.Table.{TableIs};
ghost use Rattle.rx_verify.specs.Inside.Admitted.{CanWalk, HasWalked};

use crate::along::Along;
use crate::players::{Players, Slot};
use crate::seat::{Seat, Stop};
use crate::table::EventTable;
use rx_base::{Batch, NoMemory};
use rx_check::{Program, checked};
use rx_history::Journals;
use rx_rules::PlaceEvent;
use rx_verdict::Marks;
use std::alloc::Global;

impl Players {
    // Walks on with a task that is at its place, and marks the events that it uses and whose stamps lie between its last entry and
    // its next, whose number is `last`. It tells whether the statements that the task begins go along with a batch.
    pub(crate) fn walk(
        &mut self,
        alloc: Global,
        p: &Program,
        journals: &Journals,
        t: usize,
        last: Option<u32>,
        along: &mut Along<'_>,
    ) -> Result<Stop, NoMemory>
        requires { CanWalk p.now.script (events_of journals.now) self.old t }
        ensures { IfOk result (HasWalked p.now.script (events_of journals.now) self.old self.new t last along.old along.new) }
    {
        rx_verdict::seats_tell();
        rx_verdict::seats_walk();
        let Slot::Here(seat) = &mut self.slots[t] else {
            unreachable!()
        };
        let seat = &mut **seat;
        let from = seat.position;
        let stop = seat.advance(alloc, p, journals, &self.table, along)?;
        mark_used(&mut self.marks, journals, &self.table, seat, from, last);
        Ok(stop)
    }

    /// The marks on the events, after all entries.
    pub fn finish(
        mut self,
        alloc: Global,
        p: &Program,
        journals: &Journals,
    ) -> Result<Marks, NoMemory>
        requires { (code : Block) × (U : Given) × (es : List Entry) × Stands p.now.script code
            × PlayersAre p.now.script code U es (events_of journals.now) (length es) self }
        ensures shape { IfOk result (HasShape (events_of journals.now)) }
        ensures tell { IfOk result (λ marks. (code : Block) (U : Given) (es : List Entry) → Stands p.now.script code
            → PlayersAre p.now.script code U es (events_of journals.now) (length es) self
            → MarksTell code U es (events_of journals.now) marks) }
    {
        checked(p);
        rx_verdict::seats_tell();
        rx_verdict::entries_come();
        rx_verdict::travellers_tell_nothing();
        rx_verdict::event_laws::made_marks_tell();
        // What a task begins after its last entry stands in no batch.
        let none = Batch::open(alloc);
        for t in 0..self.slots.len() {
            if let Slot::Here(_) = &self.slots[t] {
                self.walk(alloc, p, journals, t, None, &mut Along::open(&none))?;
            }
        }
        Ok(self.marks)
    }
}

// Marks the events that a task has used from a position on, up to where its seat is now, if their stamps are in reach.
fn mark_used(
    marks: &mut Marks,
    journals: &Journals,
    table: &EventTable,
    seat: &Seat,
    from: usize,
    last: Option<u32>,
)
    requires shape { HasShape (events_of journals.now) marks.old }
    requires table { (tasks : ℕ) × TableIs (events_of journals.now) tasks table.now × (seat.now.who.task.0 < tasks) }
    requires begins { IsFirst seat.now.who.task.0 (journal_at (events_of journals.now) seat.now.home.0) from from }
    requires ends { IsFirst seat.now.who.task.0 (journal_at (events_of journals.now) seat.now.home.0) seat.now.position seat.now.position }
    requires onward { from ≤ seat.now.position }
    ensures { MarksUsed (events_of journals.now) marks.old marks.new seat.now.home.0 seat.now.who.task.0 from seat.now.position seat.now.low
        last }
{
    let mut at = from;
    while at < seat.position {
        mark_event(marks, journals, seat, at, last);
        at = table.after(seat.home, at);
    }
}

// Marks one event of a task, if its stamp is in reach.
fn mark_event(marks: &mut Marks, journals: &Journals, seat: &Seat, at: usize, last: Option<u32>)
    requires shape { HasShape (events_of journals.now) marks.old }
    requires own { IsOf seat.now.who.task.0 (journal_at (events_of journals.now) seat.now.home.0) at }
    ensures { MarksUsed (events_of journals.now) marks.old marks.new seat.now.home.0 seat.now.who.task.0 at (at + 1) seat.now.low last }
{
    match journals.item(seat.home.0 as usize).item(at) {
        PlaceEvent::Done { stamp, .. } => {
            if in_reach(*stamp, seat.low, last) {
                marks.mark(seat.home, at);
            }
        }
        PlaceEvent::Close { .. } => unreachable!(),
    }
}

// Whether a stamp is at least the one number and at most the other, if there is one.
fn in_reach(stamp: u32, low: u32, last: Option<u32>) -> bool
    ensures { IsTrue result ↔ InReach low last stamp }
{
    match last {
        Some(last) => low <= stamp && stamp <= last,
        None => low <= stamp,
    }
}
