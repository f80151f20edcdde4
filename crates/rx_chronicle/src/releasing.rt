// The releases.
ghost use Rattle.std.specs.Prelude.{◌≡◌, IfErr, OnOk, OnErr};
ghost use Rattle.rx_finish.specs.Callers.{MayAskRelease};
ghost use Rattle.rx_finish.specs.Calls.{IsHindered};
ghost use Rattle.rx_chronicle.specs.Requests.{tree_told, MayAskEntry, Replied, RootDone, IsRootRefused};

use crate::chronicle::Chronicle;
use crate::entry::add;
use crate::notes::faults_of;
use rx_base::{Batch, FaultRoom};
use rx_finish::{Caller, FinishLedger, LedgerFault, Outcome};
use rx_rules::{Act, Entry};

impl<L: FinishLedger> Chronicle<L> {
    /// Releases the scope at which the caller waits.
    pub fn release(&mut self, who: Caller, batch: &mut Batch) -> Result<Outcome, LedgerFault>
        requires ready { MayAskEntry self.old }
        requires asks { MayAskRelease (tree_told self.old) who }
        ensures answer { Replied self.old who (IsHindered (tree_told self.old) who.inner) batch.old
            (λ o. Act.Release who.inner o.lost o.masked o.thrown) result self.new }
        ensures back { OnErr result (batch.new ≡ batch.old) }
    {
        let scope = who.inner;
        let Ok(room) = FaultRoom::open(self.alloc, faults_of(&self.notes, scope) as usize) else {
            return Err(LedgerFault::NoMemory);
        };
        let outcome = self.ledger.release(who)?;
        let thrown = room.fill(&outcome.thrown);
        let act = Act::Release {
            scope,
            lost: outcome.lost,
            masked: outcome.masked,
            thrown,
        };
        add(&mut self.history, self.alloc, who.task, act, batch);
        Ok(outcome)
    }

    /// The host's release of the root. Once that is done, it changes nothing.
    pub fn root(&mut self) -> Result<(), LedgerFault>
        requires ready { MayAskEntry self.old }
        ensures done { OnOk result (RootDone self.old self.new) }
        ensures refused { IfErr result (IsRootRefused (tree_told self.old)) }
        ensures same { OnErr result (self.new ≡ self.old) }
    {
        rx_tree_laws::root_stands_until_released();
        if self.ended {
            return Ok(());
        }
        let outcome = self.ledger.release_root()?;
        self.history.add(Entry::Root {
            lost: outcome.lost,
            masked: outcome.masked,
            thrown: outcome.thrown,
        });
        self.ended = true;
        Ok(())
    }
}
