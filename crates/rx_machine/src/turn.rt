// A turn: what is due of the plan is done, a death or a join, or else the pick's task moves, or the root is released.
ghost use Rattle.std.specs.Prelude.{◌≡◌, ◌<◌, ◌%◌, ℕ, suc, length, map, slice_get, Some, Ok, OnOk, OnErr, true, false};
ghost use Rattle.rx_rules.specs.Picked.{Turn as MadeTurn};
ghost use Rattle.rx_machine.specs.Holds.{Finished, LeadsTo};
ghost use Rattle.rx_machine.specs.Refusals.{HasBegun};
ghost use Rattle.rx_machine.specs.Runs.{WentOn, CanRun, HasGoneOn, HasEnded, WasRefused};
ghost use Rattle.rx_chronicle.specs.Requests.{MayAskEntry};
ghost use Rattle.rx_machine.specs.Inside.Games.{SomeCalm, EachCalm};

use crate::Picks;
use crate::machine::Machine;
use crate::seat::{no_memory, under_of};
use rx_base::NoMemory;
use rx_check::Program;
use rx_finish::FinishLedger;
use rx_rank::Ranks;

/// Whether a turn went on with the run or ended it.
#[derive(Clone, Copy, Debug, PartialEq, Eq)]
pub enum Turn {
    /// An enabled task has moved, or a place has died or joined.
    Moved,
    /// No task is enabled, and the root was released.
    Ended,
}

impl<L: FinishLedger> Machine<L> {
    /// Makes the next turn of the picked run, with the program that the machine was opened with; the run has not ended. `Ended`
    /// comes exactly with the release of the root, which uses no pick. After `NoMemory` the machine has failed, and every later turn
    /// answers `NoMemory`, changes nothing and uses no pick; the history and the journals begin with those of the turns before, and
    /// begin those that the refused turn leads to, and `enabled` tells what it told before that turn.
    pub fn turn<P: Picks>(&mut self, p: &Program, picks: &mut P) -> Result<Turn, NoMemory>
        requires game { self.old.failed ≡ false → CanRun p.now.script self.old }
        ensures moved { result ≡ Ok Turn.Moved
            → HasGoneOn p.now.script self.old self.new (P.number picks.old) (P.number picks.new) }
        ensures ended { result ≡ Ok Turn.Ended → HasEnded p.now.script self.old self.new (P.number picks.old 0) }
        ensures unused { result ≡ Ok Turn.Ended → picks.new ≡ picks.old }
        ensures failed { OnOk result (self.old.failed ≡ false) }
        ensures fails { OnErr result (self.new.failed ≡ true) }
        ensures refused { OnErr result (WasRefused p.now.script self.old self.new (P.number picks.old 0)) }
        ensures setup { OnErr result (self.new.chronicle.setup ≡ self.old.chronicle.setup) }
        ensures stays { self.old.failed ≡ true → (self.new ≡ self.old) × (picks.new ≡ picks.old) }
    {
        if self.failed {
            return Err(NoMemory);
        }
        match self.make_turn(p, picks) {
            Ok(true) => Ok(Turn::Moved),
            Ok(false) => Ok(Turn::Ended),
            Err(_) => {
                self.failed = true;
                Err(NoMemory)
            }
        }
    }

    /// Makes one turn: true where an enabled task has moved or a place has died or joined, false where the root is released.
    pub(crate) fn make_turn<P: Picks>(
        &mut self,
        p: &Program,
        picks: &mut P,
    ) -> Result<bool, NoMemory>
        requires game { CanRun p.now.script self.old }
        ensures moved { result ≡ Ok true
            → HasGoneOn p.now.script self.old self.new (P.number picks.old) (P.number picks.new) }
        ensures ended { result ≡ Ok false → HasEnded p.now.script self.old self.new (P.number picks.old 0) }
        ensures unused { result ≡ Ok false → picks.new ≡ picks.old }
        ensures refused { OnErr result (WasRefused p.now.script self.old self.new (P.number picks.old 0)) }
        ensures setup { OnErr result (self.new.chronicle.setup ≡ self.old.chronicle.setup) }
    {
        rx_runs::games_come();
        rx_runs::games_go_on();
        rx_tree_laws::fold_is_reached();
        rx_tree_laws::reached_is_sound();
        let at = self.chronicle.room()?;
        let tasks = self.seats.len() as u32 + 1;
        self.ready.room(tasks)?;
        match self.chronicle.due(at) {
            Some(due) => {
                self.pass(due, at);
                Ok(true)
            }
            None => self.take_pick(p, picks),
        }
    }

    // Makes the turn of a pick, nothing planned being due: true where an enabled task has moved, false where none is enabled and the
    // root is released.
    fn take_pick<P: Picks>(&mut self, p: &Program, picks: &mut P) -> Result<bool, NoMemory>
        requires ready { MayAskEntry self.old.chronicle }
        requires slots { length self.old.seats.items < self.old.ready.room }
        requires game { SomeCalm p.now.script self.old }
        ensures moved { result ≡ Ok true → EachCalm p.now.script self.old (λ code U G.
            WentOn p.now.script code U self.new (P.number picks.old 0) true G)
            × ((j : ℕ) → P.number picks.new j ≡ P.number picks.old (suc j)) }
        ensures ended { result ≡ Ok false → EachCalm p.now.script self.old (λ code U G.
            LeadsTo (MadeTurn U (P.number picks.old 0) G false) (Finished U self.new)) }
        ensures unused { result ≡ Ok false → picks.new ≡ picks.old }
        ensures refused { OnErr result (EachCalm p.now.script self.old (λ code U G.
            HasBegun U (P.number picks.old 0) G self.new.chronicle.entries (map (λ s. s.events) self.new.stores.items))) }
        ensures ready { OnErr result (self.new.ready.members ≡ self.old.ready.members) }
        ensures setup { OnErr result (self.new.chronicle.setup ≡ self.old.chronicle.setup) }
    {
        rx_runs::games_come();
        rx_runs::games_go_on();
        rx_tree_laws::reached_is_sound();
        rx_tree_laws::none_enabled_is_quiet();
        rx_tree_laws::fold_is_reached();
        if self.ready.len() == 0 {
            return match self.chronicle.root() {
                Ok(()) => Ok(false),
                Err(fault) => Err(no_memory(fault)),
            };
        }
        let i = chosen(&self.ready, picks);
        let under = under_of(&self.seats, i);
        let before = self.seats.len();
        self.move_task(p, i)?;
        self.note_tasks(i, under, before);
        Ok(true)
    }
}

/// The number that the next pick takes.
fn chosen<P: Picks>(tasks: &Ranks, picks: &mut P) -> usize
    requires { 0 < length tasks.now.members }
    ensures taken { slice_get tasks.now.members (P.number picks.old 0 % length tasks.now.members) ≡ Some result }
    ensures later { (j : ℕ) → P.number picks.new j ≡ P.number picks.old (suc j) }
{
    let k = picks.next() % tasks.len();
    tasks.nth(k) as usize
}
