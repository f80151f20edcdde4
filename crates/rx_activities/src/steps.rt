// The local steps of an activity up to its next call of a book.
ghost use Rattle.std.specs.Prelude.{◌≡◌, ◌≢◌, Some, IfOk, OnOk};
ghost use Rattle.rx_rules.specs.Terms.{Term, does, begins};
ghost use Rattle.rx_rules.specs.Plays.{begun};
ghost use Rattle.rx_history.specs.declared.step.Next.{Next as Step};
ghost use Rattle.rx_control.specs.Stands.{StandsFor, AfterLocalStep};
ghost use Rattle.rx_activities.specs.Turning.{BelongsToRun, StaysKnown};
ghost use Rattle.rx_activities.specs.Inside.Stepping.{OnlySteps, IsNext};

use crate::hand::Hand;
use crate::turn::{Company, Pace};
use rx_base::{Batch, NoMemory, PlaceId};
use rx_check::{Program, checked};
use rx_control::{Control, Next};
use std::alloc::Global;
use std::sync::Wait;

// Notes the statement that the next step begins, where it begins one.
pub(crate) fn begin(
    alloc: Global,
    p: &Program,
    control: &Control,
    batch: &mut Batch,
) -> Result<(), NoMemory>
    ensures { OnOk result ((t : Term) → StandsFor p.now.script control.now t → batch.new ≡ begun t batch.old) }
{
    match control.path(alloc, p)? {
        Some(path) => {
            batch.push(path)?;
            Ok(())
        }
        None => Ok(()),
    }
}

// Makes the local step that is next.
fn local_step(
    alloc: Global,
    p: &Program,
    here: PlaceId,
    control: &mut Control,
    batch: &mut Batch,
) -> Result<(), NoMemory>
    requires { (t : Term) × StandsFor p.now.script control.old t }
    ensures { OnOk result ((t : Term) → StandsFor p.now.script control.old t
        → AfterLocalStep p.now.script control.new (does control.old.vars here.0 t) × (batch.new ≡ begun t batch.old)) }
{
    begin(alloc, p, control, batch)?;
    control.local(alloc, p, here)?;
    Ok(())
}

impl Hand {
    // Makes the local step that is next.
    fn local(&mut self, alloc: Global, p: &Program) -> Result<(), NoMemory>
        requires known { BelongsToRun p.now self.old }
        requires local { IsNext p.now self.old Step.Local }
        ensures same { OnlySteps self.old self.new }
        ensures known { OnOk result (StaysKnown p.now self.old self.new) }
    {
        checked(p);
        local_step(alloc, p, self.place, self.control.as_mut(), &mut self.batch)
    }

    /// Makes the local steps up to the next call of a book, and tells which that is. A refusal leaves the ticket and the passes.
    pub(crate) fn run_on<C: Company, R: Wait>(
        &mut self,
        rt: &R,
        alloc: Global,
        p: &Program,
        company: &C,
        pace: &mut Pace,
    ) -> Result<Next, NoMemory>
        requires known { BelongsToRun p.now self.old }
        ensures same { OnlySteps self.old self.new }
        ensures known { OnOk result (StaysKnown p.now self.old self.new) }
        ensures next { IfOk result (IsNext p.now self.new) }
        ensures calls { IfOk result (λ next. next ≢ Step.Local) }
    {
        checked(p);
        for _step in rt.forever() {
            match self.control.as_ref().next(p, self.place) {
                Next::Local => {
                    self.local(alloc, p)?;
                    pace.step(company);
                }
                next => return Ok(next),
            }
        }
        unreachable!()
    }
}
