// The requests that hand faults to the ledger.
ghost use Rattle.std.specs.Prelude.{◌≡◌, IfErr};
ghost use Rattle.rx_finish.specs.Callers.{MayAskWait, MayAskEnd};
ghost use Rattle.rx_chronicle.specs.Requests.{tree_told, MayAskEntry, Replied, NoWait, fault_of};

use crate::chronicle::Chronicle;
use crate::entry::add;
use crate::notes::{raised, set_faults};
use rx_base::{Batch, Faults};
use rx_finish::{Caller, FinishLedger, LedgerFault};
use rx_rules::Act;

impl<L: FinishLedger> Chronicle<L> {
    /// Records the faults of the body of the caller's finish, and that the caller waits there. A refusal hands the faults back.
    pub fn wait(
        &mut self,
        who: Caller,
        thrown: Faults,
        batch: &mut Batch,
    ) -> Result<(), (LedgerFault, Faults)>
        requires ready { MayAskEntry self.old }
        requires asks { MayAskWait (tree_told self.old) who }
        ensures answer { Replied self.old who NoWait batch.old (λ _. Act.Wait who.inner thrown) (fault_of result) self.new }
        ensures back { IfErr result (λ r. (r.1 ≡ thrown) × (batch.new ≡ batch.old)) }
    {
        let scope = who.inner;
        let (Ok(told), Ok(faults)) = (
            thrown.copy(self.alloc),
            raised(&self.notes, scope, thrown.len()),
        ) else {
            return Err((LedgerFault::NoMemory, thrown));
        };
        self.ledger.wait(who, thrown)?;
        let act = Act::Wait {
            scope,
            thrown: told,
        };
        add(&mut self.history, self.alloc, who.task, act, batch);
        set_faults(&mut self.notes, scope, faults);
        Ok(())
    }

    /// Ends the caller: its faults join those of the scope that it hangs under. A refusal hands the faults back.
    pub fn end(
        &mut self,
        who: Caller,
        thrown: Faults,
        batch: &mut Batch,
    ) -> Result<(), (LedgerFault, Faults)>
        requires ready { MayAskEntry self.old }
        requires asks { MayAskEnd (tree_told self.old) who }
        ensures answer { Replied self.old who NoWait batch.old (λ _. Act.End thrown) (fault_of result) self.new }
        ensures back { IfErr result (λ r. (r.1 ≡ thrown) × (batch.new ≡ batch.old)) }
    {
        let (Ok(told), Ok(faults)) = (
            thrown.copy(self.alloc),
            raised(&self.notes, who.scope, thrown.len()),
        ) else {
            return Err((LedgerFault::NoMemory, thrown));
        };
        self.ledger.end(who, thrown)?;
        let act = Act::End { thrown: told };
        add(&mut self.history, self.alloc, who.task, act, batch);
        set_faults(&mut self.notes, who.scope, faults);
        Ok(())
    }
}
