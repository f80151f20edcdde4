// The turns that wait for a scope, release it, or end the task.
ghost use Rattle.std.specs.Prelude.{◌≡◌, ℕ, List, OnOk, OnErr};
ghost use Rattle.rx_base.specs.declared.values.Fault.{Fault};
ghost use Rattle.rx_rules.specs.Terms.{Waits, Releases, Done};
ghost use Rattle.rx_syntax.specs.Shape.{Shape};
ghost use Rattle.rx_chronicle.specs.Requests.{MayAskEntry};
ghost use Rattle.rx_machine.specs.Inside.Games.{SomeAsking, EachMore};
ghost use Rattle.rx_machine.specs.Inside.Acts.{HasAsked};

use crate::beginning::keep;
use crate::machine::Machine;
use crate::seat::{Mover, go_on, no_memory, seat_mover};
use rx_base::{Faults, NoMemory};
use rx_check::Program;
use rx_control::faults_raised;
use rx_finish::FinishLedger;

impl<L: FinishLedger> Machine<L> {
    /// Ends a turn by the wait for a finish whose body has ended.
    pub(crate) fn wait(&mut self, p: &Program, i: usize, mover: Mover) -> Result<(), NoMemory>
        requires ready { MayAskEntry self.old.chronicle }
        requires game { SomeAsking p.now.script self.old i mover (λ d. (faults : List Fault) × (d ≡ Waits faults)) }
        ensures made { OnOk result (HasAsked p.now.script self.old self.new i mover (λ d. (faults : List Fault) × (d ≡ Waits faults))) }
        ensures refused { OnErr result (self.new ≡ self.old) }
        ensures tasks { self.new.ready ≡ self.old.ready }
    {
        let Mover {
            who,
            mut control,
            mut batch,
            ..
        } = mover;
        let thrown = control.take_faults(self.alloc);
        go_on(&mut control, p, Faults::open(self.alloc))?;
        match self.chronicle.wait(who, thrown, &mut batch) {
            Ok(()) => {}
            Err((fault, _)) => return Err(no_memory(fault)),
        }
        seat_mover(&mut self.seats, i, who, true, control);
        Ok(())
    }

    /// Ends a turn by the release of the scope at which the task waits.
    pub(crate) fn release(&mut self, p: &Program, i: usize, mover: Mover) -> Result<(), NoMemory>
        requires ready { MayAskEntry self.old.chronicle }
        requires game { SomeAsking p.now.script self.old i mover (λ d. d ≡ Releases) }
        ensures made { OnOk result (HasAsked p.now.script self.old self.new i mover (λ d. d ≡ Releases)) }
        ensures refused { OnErr result (EachMore p.now.script self.old self.new i mover (λ d. d ≡ Releases)) }
        ensures setup { OnErr result (self.new.chronicle.setup ≡ self.old.chronicle.setup) }
        ensures tasks { self.new.ready ≡ self.old.ready }
    {
        rx_runs::games_come();
        rx_tree_laws::reached_is_sound();
        rx_tree_laws::release_keeps_others();
        rx_tree_laws::release_pops_newest();
        rx_chronicle::laws::release_uncovers_parent();
        let Mover {
            mut who,
            mut control,
            mut batch,
            ..
        } = mover;
        let parent = self.chronicle.note(who.inner).parent;
        let outcome = match self.chronicle.release(who, &mut batch) {
            Ok(outcome) => outcome,
            Err(fault) => return Err(no_memory(fault)),
        };
        let raised = faults_raised(self.alloc, outcome.lost, &outcome.thrown)?;
        go_on(&mut control, p, raised)?;
        who.inner = parent;
        seat_mover(&mut self.seats, i, who, false, control);
        Ok(())
    }

    /// Ends a turn by the end of the task, whose slot stays empty.
    pub(crate) fn end(&mut self, mover: Mover) -> Result<(), NoMemory>
        requires ready { MayAskEntry self.old.chronicle }
        requires game { (shape : Shape) × (i : ℕ)
            × SomeAsking shape self.old i mover (λ d. (faults : List Fault) × (d ≡ Done faults)) }
        ensures made { OnOk result ((shape : Shape) (i : ℕ)
            → HasAsked shape self.old self.new i mover (λ d. (faults : List Fault) × (d ≡ Done faults))) }
        ensures refused { OnErr result (self.new ≡ self.old) }
        ensures tasks { self.new.ready ≡ self.old.ready }
    {
        let Mover {
            who,
            mut control,
            mut batch,
            ..
        } = mover;
        let thrown = control.take_faults(self.alloc);
        match self.chronicle.end(who, thrown, &mut batch) {
            Ok(()) => {
                keep(&mut self.idle, control);
                Ok(())
            }
            Err((fault, _)) => Err(no_memory(fault)),
        }
    }
}
