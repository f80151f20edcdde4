// A walk: the local steps and store calls of a task up to where it stops.
ghost use Rattle.std.specs.Prelude.{◌≡◌, ◌<◌, ℕ, List, Some, None, true, false, IfOk, OnOk, Option};
ghost use Rattle.rx_rules.specs.Terms.{Term, does};
ghost use Rattle.rx_rules.specs.Picked.{Player};
ghost use Rattle.rx_rules.specs.Plays.{Cells, begun};
ghost use Rattle.rx_runs.specs.Steps.{steps};
ghost use Rattle.rx_history.specs.Events.{events_of};
ghost use Rattle.rx_history.specs.declared.step.Next.TheVariants.{Cell};
ghost use Rattle.rx_control.specs.Stands.{StandsFor, AfterLocalStep};
ghost use Rattle.rx_history.specs.Next.{next_of};
ghost use Rattle.rx_verdict.specs.Walks.{next_does};
ghost use Rattle.rx_verify.specs.Table.{TableIs};
ghost use Rattle.rx_verify.specs.Along.{GoesAlong};
ghost use Rattle.rx_verify.specs.Stood.{Stood};
ghost use Rattle.rx_verify.specs.Inside.Steps.{MayWalk, ForWalker, AfterWalk, AfterStep, AfterCall};

use crate::along::Along;
use crate::answering::{answers, told};
use crate::seat::{Seat, Stop};
use crate::table::EventTable;
use rx_base::NoMemory;
use rx_check::Program;
use rx_control::{CellOp, Next};
use rx_history::Journals;
use rx_rules::PlaceEvent;
use std::alloc::Global;

// More steps than a term can make of a script whose work is at most 100,000.
const LIMIT: u32 = 300_001;

impl Seat {
    /// Walks on up to a request to the ledger, the end, or a store call that the task's next event does not answer, and tells whether
    /// the statements that it begins go along with a batch. Where memory ran out the seat is of no more use.
    pub fn advance(
        &mut self,
        alloc: Global,
        p: &Program,
        journals: &Journals,
        table: &EventTable,
        along: &mut Along<'_>,
    ) -> Result<Stop, NoMemory>
        requires { MayWalk p.now.script (events_of journals.now) table.now self.old }
        ensures { IfOk result (λ stop. ForWalker p.now.script (events_of journals.now) table.now self.old (λ z left.
            AfterWalk p.now.script (events_of journals.now) self.old self.new along.old along.new z left stop)) }
    {
        for _made in 0..LIMIT {
            match self.step(alloc, p, journals, table, along)? {
                Some(stop) => return Ok(stop),
                None => {}
            }
        }
        unreachable!()
    }

    // Makes the next step, or tells where the walk stops.
    fn step(
        &mut self,
        alloc: Global,
        p: &Program,
        journals: &Journals,
        table: &EventTable,
        along: &mut Along<'_>,
    ) -> Result<Option<Stop>, NoMemory>
        requires { MayWalk p.now.script (events_of journals.now) table.now self.old }
        ensures { IfOk result (λ stop. ForWalker p.now.script (events_of journals.now) table.now self.old (λ z left.
            AfterStep p.now.script (events_of journals.now) self.old self.new along.old along.new z left stop)) }
    {
        rx_runs::terms_sink();
        rx_runs::local_steps_tell_no_places();
        match self.control.next(p, self.home) {
            Next::Local => {
                self.local(alloc, p, along)?;
                Ok(None)
            }
            Next::Cell(op) => {
                if self.call(alloc, p, journals, table, op, along)? {
                    Ok(None)
                } else {
                    Ok(Some(Stop::Halts))
                }
            }
            Next::Book(want) => Ok(Some(Stop::Asks(want))),
            Next::Done => Ok(Some(Stop::Ends)),
        }
    }

    // Makes the local step that is next.
    fn local(&mut self, alloc: Global, p: &Program, along: &mut Along<'_>) -> Result<(), NoMemory>
        requires { (t : Term) × StandsFor p.now.script self.old.control t }
        ensures { OnOk result ((t : Term) → StandsFor p.now.script self.old.control t
            → AfterLocalStep p.now.script self.new.control (does self.old.control.vars self.old.home.0 t)
            × (self.new ≡ record self.old { control = self.new.control })
            × ((batch so_far : List (List ℕ)) → GoesAlong batch along.old so_far → GoesAlong batch along.new (begun t so_far))) }
    {
        along.begin(alloc, p, &self.control)?;
        self.control.local(alloc, p, self.home)?;
        Ok(())
    }

    // Takes the task's next event as the answer to its store call, where it answers it.
    fn call(
        &mut self,
        alloc: Global,
        p: &Program,
        journals: &Journals,
        table: &EventTable,
        op: CellOp,
        along: &mut Along<'_>,
    ) -> Result<bool, NoMemory>
        requires { (tasks : ℕ) × TableIs (events_of journals.now) tasks table.now × (self.old.who.task.0 < tasks) × (z : Player)
            × (left : Cells) × Stood p.now.script (events_of journals.now) self.old z left
            × (next_of (next_does self.old.home z) ≡ Cell op) }
        ensures { IfOk result (λ b. ForWalker p.now.script (events_of journals.now) table.now self.old (λ z left.
            next_of (next_does self.old.home z) ≡ Cell op
            → AfterCall p.now.script (events_of journals.now) self.old self.new along.old along.new z left b)) }
    {
        rx_runs::terms_sink();
        let place = self.home.0 as usize;
        let at = self.position;
        if journals.len() <= place {
            return Ok(false);
        }
        let journal = journals.item(place);
        if journal.len() <= at {
            return Ok(false);
        }
        match journal.item(at) {
            PlaceEvent::Done { cell, path, .. } => {
                if !answers(&op, cell) {
                    return Ok(false);
                }
                if !self.control.begins(p, path) {
                    return Ok(false);
                }
                along.tell(path);
                self.control
                    .cell_done(alloc, p, told(self.home, op, *cell))?;
                self.position = table.after(self.home, at);
                Ok(true)
            }
            PlaceEvent::Close { .. } => unreachable!(),
        }
    }
}
