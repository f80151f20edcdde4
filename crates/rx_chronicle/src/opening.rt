// The requests that open a scope or start a task.
ghost use Rattle.std.specs.Prelude.{◌≡◌, IfOk, OnErr, is_some};
ghost use Rattle.rx_rules.specs.Tree.{death_of};
ghost use Rattle.rx_rules.specs.Entries.{place_number};
ghost use Rattle.rx_finish.specs.Callers.{MayAskMoving, MayAskTo};
ghost use Rattle.rx_chronicle.specs.Requests.{tree_told, MayAskEntry, Replied, NoWait};

use crate::chronicle::Chronicle;
use crate::entry::{add, taken};
use crate::notes::{add_note, make_room};
use rx_base::{Batch, Path, PlaceId, ScopeId};
use rx_finish::{Born, Caller, FinishLedger, LedgerFault, place_of};
use rx_rules::Act;

impl<L: FinishLedger> Chronicle<L> {
    /// Opens a finish inside the caller's innermost scope.
    pub fn open_finish(
        &mut self,
        who: Caller,
        batch: &mut Batch,
        path: &mut Path,
    ) -> Result<ScopeId, LedgerFault>
        requires ready { MayAskEntry self.old }
        requires asks { MayAskMoving (tree_told self.old) who }
        ensures answer { Replied self.old who NoWait batch.old (λ scope. Act.Open scope who.inner path.old) result self.new }
        ensures back { OnErr result ((batch.new ≡ batch.old) × (path.new ≡ path.old)) }
    {
        make_room(&mut self.notes)?;
        let scope = self.ledger.open_finish(who)?;
        let parent = who.inner;
        let path = taken(path, self.alloc);
        let act = Act::Open {
            scope,
            parent,
            path,
        };
        add(&mut self.history, self.alloc, who.task, act, batch);
        add_note(&mut self.notes, who);
        Ok(scope)
    }

    /// Opens an `at` and starts its callee, which hangs under it; the caller waits.
    pub fn open_at(
        &mut self,
        who: Caller,
        to: PlaceId,
        batch: &mut Batch,
        path: &mut Path,
    ) -> Result<Born, LedgerFault>
        requires ready { MayAskEntry self.old }
        requires asks { MayAskTo (tree_told self.old) who to }
        ensures answer { Replied self.old who NoWait batch.old
            (λ born. Act.At (place_number who.place) to born.scope who.inner born.child path.old) result self.new }
        ensures lost { IfOk result (λ born. born.lost ≡ is_some (death_of (tree_told self.old) to)) }
        ensures back { OnErr result ((batch.new ≡ batch.old) × (path.new ≡ path.old)) }
    {
        make_room(&mut self.notes)?;
        let born = self.ledger.open_at(who, to)?;
        let path = taken(path, self.alloc);
        let act = Act::At {
            scope: born.scope,
            parent: who.inner,
            callee: born.child,
            from: place_of(who.place),
            to,
            path,
        };
        add(&mut self.history, self.alloc, who.task, act, batch);
        add_note(&mut self.notes, who);
        Ok(born)
    }

    /// Starts a task, which hangs under the nearest finish from the caller's innermost scope along parents.
    pub fn spawn(
        &mut self,
        who: Caller,
        to: PlaceId,
        batch: &mut Batch,
        path: &mut Path,
    ) -> Result<Born, LedgerFault>
        requires ready { MayAskEntry self.old }
        requires asks { MayAskTo (tree_told self.old) who to }
        ensures answer { Replied self.old who NoWait batch.old
            (λ born. Act.Spawn born.child born.scope (place_number who.place) to path.old) result self.new }
        ensures lost { IfOk result (λ born. born.lost ≡ is_some (death_of (tree_told self.old) to)) }
        ensures back { OnErr result ((batch.new ≡ batch.old) × (path.new ≡ path.old)) }
    {
        let born = self.ledger.spawn(who, to)?;
        let path = taken(path, self.alloc);
        let act = Act::Spawn {
            child: born.child,
            scope: born.scope,
            from: place_of(who.place),
            to,
            path,
        };
        add(&mut self.history, self.alloc, who.task, act, batch);
        Ok(born)
    }
}
