// The requests that take no memory.
ghost use Rattle.std.specs.Prelude.{◌≡◌, OnErr};
ghost use Rattle.rx_finish.specs.Callers.{MayAskMoving, MayAskArrive};
ghost use Rattle.rx_finish.specs.Calls.{landing};
ghost use Rattle.rx_chronicle.specs.Requests.{tree_told, MayAskEntry, Replied, NoWait};

use crate::chronicle::Chronicle;
use crate::entry::{add, taken};
use rx_base::{Batch, Path};
use rx_finish::{Caller, FinishLedger, LedgerFault, landing_of};
use rx_rules::Act;

impl<L: FinishLedger> Chronicle<L> {
    /// Makes a travelling task live.
    pub fn arrive(&mut self, who: Caller, batch: &mut Batch) -> Result<(), LedgerFault>
        requires ready { MayAskEntry self.old }
        requires asks { MayAskArrive (tree_told self.old) who }
        ensures answer { Replied self.old who NoWait batch.old (λ _. Act.Arrive (landing who.place)) result self.new }
        ensures back { OnErr result (batch.new ≡ batch.old) }
    {
        self.ledger.arrive(who)?;
        let place = landing_of(who.place);
        let act = Act::Arrive { place };
        add(&mut self.history, self.alloc, who.task, act, batch);
        Ok(())
    }

    /// Prints.
    pub fn print(
        &mut self,
        who: Caller,
        value: i64,
        batch: &mut Batch,
        path: &mut Path,
    ) -> Result<(), LedgerFault>
        requires ready { MayAskEntry self.old }
        requires asks { MayAskMoving (tree_told self.old) who }
        ensures answer { Replied self.old who NoWait batch.old (λ _. Act.Print value path.old) result self.new }
        ensures back { OnErr result ((batch.new ≡ batch.old) × (path.new ≡ path.old)) }
    {
        self.ledger.print(who)?;
        let path = taken(path, self.alloc);
        let act = Act::Print { value, path };
        add(&mut self.history, self.alloc, who.task, act, batch);
        Ok(())
    }

    /// Tells how many places have joined, dead ones among them.
    pub fn census(
        &mut self,
        who: Caller,
        batch: &mut Batch,
        path: &mut Path,
    ) -> Result<u8, LedgerFault>
        requires ready { MayAskEntry self.old }
        requires asks { MayAskMoving (tree_told self.old) who }
        ensures answer { Replied self.old who NoWait batch.old (λ places. Act.Census places path.old) result self.new }
        ensures back { OnErr result ((batch.new ≡ batch.old) × (path.new ≡ path.old)) }
    {
        let places = self.ledger.census(who)?;
        let path = taken(path, self.alloc);
        let act = Act::Census { places, path };
        add(&mut self.history, self.alloc, who.task, act, batch);
        Ok(places)
    }
}
