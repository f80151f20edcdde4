// The picked run: every turn, and what is left at the end.
ghost use Rattle.std.specs.Prelude.{◌≡◌, ℕ, true, false, map, IfOk, OnOk};
ghost use Rattle.rx_rules.specs.Code.{Block};
ghost use Rattle.rx_rules.specs.Run.{Given};
ghost use Rattle.rx_rules.specs.Picked.{Game, IsPicked, start_game};
ghost use Rattle.rx_history.specs.Events.{events_of};
ghost use Rattle.rx_machine.specs.Holds.{MachineInvariant, Finished};
ghost use Rattle.rx_machine.specs.Refusals.{HasBegun, HasFailed};
ghost use Rattle.rx_machine.specs.Runs.{CanRun, RanFrom, Gives};
ghost use Rattle.rx_history.specs.Setups.{given, to_join};
ghost use Rattle.rx_syntax.specs.Shape.{Shape};
ghost use Rattle.rx_chronicle.specs.Requests.{tree_told};

use crate::Picks;
use crate::machine::Machine;
use rx_base::NoMemory;
use rx_check::Program;
use rx_finish::FinishLedger;
use rx_history::{History, Journals};

// More turns than a run can make of a script whose work is at most 100,000.
const LIMIT: u32 = 400_056;

impl<L: FinishLedger> Machine<L> {
    /// Makes the turns that are left of the picked run, up to the root's release, with the program that the machine was opened with;
    /// the run has not ended. It uses one pick for each entry of a task, and no other. With the turns that the machine had made they
    /// are at most `4 * work + 2 * places + 3 * joins + 8`. A machine of which a turn was refused answers `NoMemory` and uses no pick.
    pub fn run<P: Picks>(
        mut self,
        p: &Program,
        picks: &mut P,
    ) -> Result<(History, Journals, L), NoMemory>
        requires game { self.failed ≡ false → CanRun p.now.script self }
        ensures ran { IfOk result (λ r. (code : Block) (U : Given) (G : Game) → MachineInvariant p.now.script code U self G
            → RanFrom L.stands code U (P.number picks.old) (P.number picks.new) G r) }
        ensures picked { IfOk result (λ r. (code : Block) (U : Given) → MachineInvariant p.now.script code U self (start_game code U)
            → IsPicked code U (P.number picks.old) r.0.entries (events_of r.1)) }
        ensures failed { OnOk result (self.failed ≡ false) }
        ensures stays { self.failed ≡ true → picks.new ≡ picks.old }
    {
        if self.failed {
            return Err(NoMemory);
        }
        rx_runs::games_come();
        for _made in 0..LIMIT {
            if !self.make_turn(p, picks)? {
                return Ok(self.into_parts());
            }
        }
        unreachable!()
    }

    /// The history and the journals of the turns so far, and the ledger, which stands for the tree to which the history folds. It may
    /// be called between turns, after the end of the run and after a refusal. It takes no memory.
    pub fn into_parts(self) -> (History, Journals, L)
        ensures history { result.0 ≡ self.chronicle }
        ensures journals { events_of result.1 ≡ map (λ s. s.events) self.stores.items }
        ensures ledger { L.stands result.2 (to_join (given self.chronicle.setup) (tree_told self.chronicle)) (tree_told self.chronicle) }
        ensures holds { (shape : Shape) (code : Block) (U : Given) (G : Game) → MachineInvariant shape code U self G
            → Gives L.stands U G result }
        ensures finished { (U : Given) (G : Game) → Finished U self G → Gives L.stands U G result }
        ensures refused { (U : Given) (k : ℕ) (G : Game) → HasFailed U k self G
            → HasBegun U k G result.0.entries (events_of result.1) }
    {
        let Machine {
            chronicle,
            stores,
            ..
        } = self;
        let (history, ledger) = chronicle.into_parts();
        (history, stores.into_journals(), ledger)
    }
}
