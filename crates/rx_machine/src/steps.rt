// The local steps and store calls of a task up to its next entry.
ghost use Rattle.std.specs.Prelude.{◌≡◌, ℕ, List, [], ◌∷◌, ◌++◌, Some, None, IfOk, OnOk, OnErr};
ghost use Rattle.rx_rules.specs.Terms.{Term, begins, does};
ghost use Rattle.rx_rules.specs.Plays.{begun};
ghost use Rattle.rx_rules.specs.Picked.{Player};
ghost use Rattle.rx_history.specs.declared.step.Next.TheVariants.{Cell};
ghost use Rattle.rx_history.specs.Next.{next_of};
ghost use Rattle.rx_control.specs.Stands.{StandsFor, AfterLocalStep};
ghost use Rattle.rx_machine.specs.Holds.{Acting};
ghost use Rattle.rx_machine.specs.Refusals.{HasTold};
ghost use Rattle.rx_machine.specs.Inside.Requests.{IsRequest, OnlyStores, AfterStep};
ghost use Rattle.rx_machine.specs.Inside.Games.{SomeActing, SomeDoing, EachActing, EachStopped};

use crate::machine::Machine;
use crate::seat::{Mover, path_of};
use rx_base::{NoMemory, Path, PlaceId};
use rx_check::Program;
use rx_control::{CellOp, Next};
use rx_finish::FinishLedger;
use rx_store::Mark;
use std::alloc::Global;

// More steps than a term can make of a script whose work is at most 100,000.
const LIMIT: u32 = 300_001;

impl<L: FinishLedger> Machine<L> {
    /// Makes the local steps and store calls of a task up to its next entry, and tells which request that makes.
    pub(crate) fn run_on(
        &mut self,
        p: &Program,
        i: usize,
        mover: &mut Mover,
        here: PlaceId,
    ) -> Result<Next, NoMemory>
        requires game { SomeActing p.now.script self.old i here mover.old }
        ensures same { OnlyStores self.old self.new }
        ensures next { IfOk result (λ next. EachActing p.now.script self.old i here mover.old (λ code U k q G.
            (r : Player) × Acting p.now.script code U self.new k i here r mover.new G
            × IsRequest next (does r.vars here.0 r.term))) }
        ensures refused { OnErr result (EachStopped p.now.script self.old self.new i here mover.old) }
    {
        rx_runs::few_steps_are_left();
        rx_runs::going_sinks();
        for _made in 0..LIMIT {
            match self.step(p, i, mover, here)? {
                Some(next) => return Ok(next),
                None => {}
            }
        }
        unreachable!()
    }

    // Makes the next step of a task, or tells which request it makes.
    fn step(
        &mut self,
        p: &Program,
        i: usize,
        mover: &mut Mover,
        here: PlaceId,
    ) -> Result<Option<Next>, NoMemory>
        requires game { SomeActing p.now.script self.old i here mover.old }
        ensures same { OnlyStores self.old self.new }
        ensures next { IfOk result (λ next. EachActing p.now.script self.old i here mover.old (λ code U k q G.
            AfterStep p.now.script code U self.new k i here q mover.new G next)) }
        ensures refused { OnErr result (EachStopped p.now.script self.old self.new i here mover.old) }
    {
        rx_runs::terms_sink();
        match mover.control.next(p, here) {
            Next::Local => {
                local_step(self.alloc, p, mover, here)?;
                Ok(None)
            }
            Next::Cell(op) => {
                self.cell_step(p, i, mover, here, op)?;
                Ok(None)
            }
            Next::Book(want) => Ok(Some(Next::Book(want))),
            Next::Done => Ok(Some(Next::Done)),
        }
    }

    // Makes the store call that is next.
    fn cell_step(
        &mut self,
        p: &Program,
        i: usize,
        mover: &mut Mover,
        here: PlaceId,
        op: CellOp,
    ) -> Result<(), NoMemory>
        requires game { SomeDoing p.now.script self.old i here mover.old (λ d. next_of d ≡ Cell op) }
        ensures same { OnlyStores self.old self.new }
        ensures next { OnOk result (EachActing p.now.script self.old i here mover.old (λ code U k q G.
            next_of (does q.vars here.0 q.term) ≡ Cell op
            → AfterStep p.now.script code U self.new k i here q mover.new G None)) }
        ensures refused { OnErr result (EachActing p.now.script self.old i here mover.old (λ code U k q G.
            next_of (does q.vars here.0 q.term) ≡ Cell op → HasTold U k G self.new.stores.items)) }
    {
        rx_runs::games_come();
        rx_runs::few_events_are_told();
        rx_runs::going_tells();
        rx_runs::terms_sink();
        rx_runs::terms_make_some();
        rx_runs::going_makes_some();
        let path = begin_call(self.alloc, p, mover)?;
        let m = Mark {
            task: mover.who.task,
            stamp: self.chronicle.history().len() as u32,
            path,
        };
        let answer = self.stores.call(here, m, op)?;
        mover.control.cell_done(self.alloc, p, answer)?;
        Ok(())
    }
}

/// Makes the local step that is next, and notes the statement that it begins, where it begins one.
fn local_step(alloc: Global, p: &Program, mover: &mut Mover, here: PlaceId) -> Result<(), NoMemory>
    requires { (t : Term) × StandsFor p.now.script mover.old.control.value t }
    ensures { OnOk result ((t : Term) → StandsFor p.now.script mover.old.control.value t
        → AfterLocalStep p.now.script mover.new.control.value (does mover.old.control.value.vars here.0 t)
        × (mover.new.batch ≡ begun t mover.old.batch)
        × (mover.new.who ≡ mover.old.who) × (mover.new.waits ≡ mover.old.waits)) }
{
    begin(alloc, p, mover)?;
    mover.control.local(alloc, p, here)?;
    Ok(())
}

// Notes the statement that the next step begins, where it begins one.
fn begin(alloc: Global, p: &Program, mover: &mut Mover) -> Result<(), NoMemory>
    ensures { OnOk result ((t : Term) → StandsFor p.now.script mover.old.control.value t
        → mover.new ≡ record mover.old { batch = begun t mover.old.batch }) }
{
    if let Some(path) = mover.control.path(alloc, p)? {
        mover.batch.push(path)?;
    }
    Ok(())
}

/// Notes the statement that the next step begins, a store call, and gives its path.
fn begin_call(alloc: Global, p: &Program, mover: &mut Mover) -> Result<Path, NoMemory>
    requires { (t : Term) × (x : List ℕ) × StandsFor p.now.script mover.old.control.value t × (begins t ≡ Some x) }
    ensures { IfOk result (λ path. (t : Term) (x : List ℕ) → StandsFor p.now.script mover.old.control.value t → begins t ≡ Some x
        → (path ≡ x) × (mover.new ≡ record mover.old { batch = mover.old.batch ++ x ∷ [] })) }
{
    let path = path_of(alloc, p, &mover.control)?;
    let copy = path.copy(alloc)?;
    mover.batch.push(copy)?;
    Ok(path)
}
