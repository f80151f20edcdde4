// Worked histories, call by call, through the bound of the trait, over both ledgers. And that ledgers may be moved between threads.
ghost use Rattle.std.specs.Prelude.{◌<◌, ℕ, pos, [], ◌∷◌, OnOk};
ghost use Rattle.rx_base.specs.declared.values.Fault.TheVariants.{Thrown};
ghost use Rattle.rx_rules.specs.declared.entries.Act.TheVariants.{Open, Spawn, Wait, End};
ghost use Rattle.rx_rules.specs.Tree.{Tree};
ghost use Rattle.rx_rules.specs.Entries.{made_act};
ghost use Rattle.rx_rules.specs.Fold.{opening};
ghost use Rattle.rx_finish.specs.Callers.{MayAskEnd};
ghost use Rattle.rx_tree.specs.Inside.Worked.{two_deep};

use crate::same::same;
use rx_base::{Fault, Faults, PlaceId, PlaceSet, ScopeId, TaskId};
use rx_counts::CountLedger;
use rx_tree::{Born, Caller, FinishLedger, LedgerFault, Outcome, TreeLedger, Where};
use std::alloc::Global;
use std::test::Fail;

/// Ends a task without faults.
fn ends<L: FinishLedger>(ledger: &mut L, who: Caller, alloc: Global) -> Result<(), LedgerFault>
    requires { (room : ℕ) × (T : Tree) × L.stands ledger.old room T × MayAskEnd T who }
    ensures { (room : ℕ) (T : Tree) → L.stands ledger.old room T → MayAskEnd T who
        → OnOk result (L.stands ledger.new room (made_act T who.task (End []))) }
{
    if let Err(refused) = ledger.end(who, Faults::open(alloc)) {
        return Err(refused.0);
    }
    Ok(())
}

/// Task 0 opens a finish, starts task 1 for place 1, and waits.
fn begins<L: FinishLedger>(
    ledger: &mut L,
    alloc: Global,
    places: u8,
) -> Result<(ScopeId, Born), LedgerFault>
    requires fresh { L.stands ledger.old 0 (opening places) }
    requires enough { 1 < places }
    ensures { OnOk result (L.stands ledger.new 0 (made_act (made_act (made_act (opening places) (record { 0 = 0 })
        (Open (record { 0 = 1 }) (record { 0 = 0 }) [])) (record { 0 = 0 })
        (Spawn (record { 0 = 1 }) (record { 0 = 1 }) (record { 0 = 0 }) (record { 0 = 1 }) [])) (record { 0 = 0 })
        (Wait (record { 0 = 1 }) []))) }
{
    let main = Caller {
        task: TaskId(0),
        scope: ScopeId(0),
        inner: ScopeId(0),
        place: Where::At(PlaceId(0)),
    };
    let inside = Caller {
        task: TaskId(0),
        scope: ScopeId(0),
        inner: ScopeId(1),
        place: Where::At(PlaceId(0)),
    };
    let scope = ledger.open_finish(main)?;
    let born = ledger.spawn(inside, PlaceId(1))?;
    if let Err(refused) = ledger.wait(inside, Faults::open(alloc)) {
        return Err(refused.0);
    }
    Ok((scope, born))
}

/// Task 1 arrives, prints and ends; task 0 releases the finish and ends; the host releases the root.
fn first_path<L: FinishLedger>(
    ledger: &mut L,
    alloc: Global,
) -> Result<(bool, Outcome, Outcome), LedgerFault>
    requires { L.stands ledger.old 0 (opening 2) }
{
    let main = Caller {
        task: TaskId(0),
        scope: ScopeId(0),
        inner: ScopeId(0),
        place: Where::At(PlaceId(0)),
    };
    let inside = Caller {
        task: TaskId(0),
        scope: ScopeId(0),
        inner: ScopeId(1),
        place: Where::At(PlaceId(0)),
    };
    let message = Caller {
        task: TaskId(1),
        scope: ScopeId(1),
        inner: ScopeId(1),
        place: Where::Travel {
            from: PlaceId(0),
            to: PlaceId(1),
        },
    };
    let there = Caller {
        task: TaskId(1),
        scope: ScopeId(1),
        inner: ScopeId(1),
        place: Where::At(PlaceId(1)),
    };
    let _begun = begins(ledger, alloc, 2)?;
    ledger.arrive(message)?;
    ledger.print(there)?;
    ends(ledger, there, alloc)?;
    let ready = ledger.ready(inside);
    let outcome = ledger.release(inside)?;
    ends(ledger, main, alloc)?;
    let root = ledger.release_root()?;
    Ok((ready, outcome, root))
}

/// Place 1 dies while task 1 travels to it: what its arrival is answered, and whether task 0 may release then.
fn in_transit<L: FinishLedger>(
    ledger: &mut L,
    alloc: Global,
) -> Result<(Result<(), LedgerFault>, bool), LedgerFault>
    requires { L.stands ledger.old 0 (opening 2) }
{
    let inside = Caller {
        task: TaskId(0),
        scope: ScopeId(0),
        inner: ScopeId(1),
        place: Where::At(PlaceId(0)),
    };
    let message = Caller {
        task: TaskId(1),
        scope: ScopeId(1),
        inner: ScopeId(1),
        place: Where::Travel {
            from: PlaceId(0),
            to: PlaceId(1),
        },
    };
    let _begun = begins(ledger, alloc, 2)?;
    ledger.death(PlaceId(1), 3);
    let ready = ledger.ready(inside);
    let arrival = ledger.arrive(message);
    Ok((arrival, ready))
}

/// Place 1 dies while task 2 travels from there.
fn source<L: FinishLedger>(
    ledger: &mut L,
    alloc: Global,
) -> Result<Result<(), LedgerFault>, LedgerFault>
    requires { L.stands ledger.old 0 (opening 3) }
{
    let message = Caller {
        task: TaskId(1),
        scope: ScopeId(1),
        inner: ScopeId(1),
        place: Where::Travel {
            from: PlaceId(0),
            to: PlaceId(1),
        },
    };
    let there = Caller {
        task: TaskId(1),
        scope: ScopeId(1),
        inner: ScopeId(1),
        place: Where::At(PlaceId(1)),
    };
    let second = Caller {
        task: TaskId(2),
        scope: ScopeId(1),
        inner: ScopeId(1),
        place: Where::Travel {
            from: PlaceId(1),
            to: PlaceId(2),
        },
    };
    let _begun = begins(ledger, alloc, 3)?;
    ledger.arrive(message)?;
    let _born = ledger.spawn(there, PlaceId(2))?;
    ends(ledger, there, alloc)?;
    ledger.death(PlaceId(1), 6);
    Ok(ledger.arrive(second))
}

/// Task 1 runs at place 1 inside the finish of task 0, and waits there for task 2, which is at place 2.
fn nests<L: FinishLedger>(ledger: &mut L, alloc: Global) -> Result<(), LedgerFault>
    requires { L.stands ledger.old 0 (opening 3) }
    ensures { OnOk result (L.stands ledger.new 0 two_deep) }
{
    let there = Caller {
        task: TaskId(1),
        scope: ScopeId(1),
        inner: ScopeId(1),
        place: Where::At(PlaceId(1)),
    };
    let inside = Caller {
        task: TaskId(1),
        scope: ScopeId(1),
        inner: ScopeId(2),
        place: Where::At(PlaceId(1)),
    };
    let _begun = begins(ledger, alloc, 3)?;
    ledger.arrive(Caller {
        task: TaskId(1),
        scope: ScopeId(1),
        inner: ScopeId(1),
        place: Where::Travel {
            from: PlaceId(0),
            to: PlaceId(1),
        },
    })?;
    let _scope = ledger.open_finish(there)?;
    let _born = ledger.spawn(inside, PlaceId(2))?;
    if let Err(refused) = ledger.wait(inside, Faults::open(alloc)) {
        return Err(refused.0);
    }
    ledger.arrive(Caller {
        task: TaskId(2),
        scope: ScopeId(2),
        inner: ScopeId(2),
        place: Where::Travel {
            from: PlaceId(1),
            to: PlaceId(2),
        },
    })
}

/// Ends a task with one fault.
fn throws<L: FinishLedger>(ledger: &mut L, who: Caller, alloc: Global) -> Result<(), LedgerFault>
    requires { (room : ℕ) × (T : Tree) × L.stands ledger.old room T × MayAskEnd T who }
    ensures { (room : ℕ) (T : Tree) → L.stands ledger.old room T → MayAskEnd T who
        → OnOk result (L.stands ledger.new room (made_act T who.task (End (Thrown (pos 5) ∷ [])))) }
{
    let mut thrown = Faults::open(alloc);
    if thrown.push(Fault::Thrown(5)).is_err() {
        return Err(LedgerFault::NoMemory);
    }
    if let Err(refused) = ledger.end(who, thrown) {
        return Err(refused.0);
    }
    Ok(())
}

/// Place 1 dies, and then task 2 ends with a fault; task 0 releases its finish and ends, and the host releases the root.
fn dropped<L: FinishLedger>(
    ledger: &mut L,
    alloc: Global,
) -> Result<(Outcome, Outcome), LedgerFault>
    requires { L.stands ledger.old 0 (opening 3) }
{
    let main = Caller {
        task: TaskId(0),
        scope: ScopeId(0),
        inner: ScopeId(0),
        place: Where::At(PlaceId(0)),
    };
    let inside = Caller {
        task: TaskId(0),
        scope: ScopeId(0),
        inner: ScopeId(1),
        place: Where::At(PlaceId(0)),
    };
    let last = Caller {
        task: TaskId(2),
        scope: ScopeId(2),
        inner: ScopeId(2),
        place: Where::At(PlaceId(2)),
    };
    nests(ledger, alloc)?;
    ledger.death(PlaceId(1), 8);
    throws(ledger, last, alloc)?;
    let outcome = ledger.release(inside)?;
    ends(ledger, main, alloc)?;
    let root = ledger.release_root()?;
    Ok((outcome, root))
}

// Whether a release names these places and so many masked faults, and raises nothing.
fn is_outcome(outcome: &Outcome, lost: PlaceSet, masked: u32) -> bool {
    outcome.lost == lost && outcome.masked == masked && outcome.thrown.len() == 0
}

#[test]
fn an_ordinary_run_over_the_tree(rt: HostRuntime) -> Result<(), Fail> {
    let mut ledger = TreeLedger::open(rt.alloc(), 2)?;
    let (ready, outcome, root) = first_path(&mut ledger, rt.alloc())?;
    assert!(rt; ready);
    assert!(rt; is_outcome(&outcome, PlaceSet(0), 0));
    assert!(rt; is_outcome(&root, PlaceSet(0), 0));
    Ok(())
}

#[test]
fn a_loss_in_transit_frees_the_opener_in_both_ledgers(rt: HostRuntime) -> Result<(), Fail> {
    let lost = Err(LedgerFault::Lost {
        place: PlaceId(1),
        at: 3,
    });
    let mut tree = TreeLedger::open(rt.alloc(), 2)?;
    same(&rt, in_transit(&mut tree, rt.alloc())?, (lost, true));
    let mut counts = CountLedger::open_for(rt.alloc(), 2, 0)?;
    same(&rt, in_transit(&mut counts, rt.alloc())?, (lost, true));
    Ok(())
}

#[test]
fn a_message_whose_source_dies_is_lost_in_both_ledgers(rt: HostRuntime) -> Result<(), Fail> {
    let lost = Err(LedgerFault::Lost {
        place: PlaceId(1),
        at: 6,
    });
    let mut tree = TreeLedger::open(rt.alloc(), 3)?;
    same(&rt, source(&mut tree, rt.alloc())?, lost);
    let mut counts = CountLedger::open_for(rt.alloc(), 3, 0)?;
    same(&rt, source(&mut counts, rt.alloc())?, lost);
    Ok(())
}

#[test]
fn a_dropped_fault_is_counted_in_both_ledgers(rt: HostRuntime) -> Result<(), Fail> {
    let mut tree = TreeLedger::open(rt.alloc(), 3)?;
    let (outcome, root) = dropped(&mut tree, rt.alloc())?;
    assert!(rt; is_outcome(&outcome, PlaceSet(2), 1));
    assert!(rt; is_outcome(&root, PlaceSet(0), 0));
    let mut counts = CountLedger::open_for(rt.alloc(), 3, 0)?;
    let (outcome, root) = dropped(&mut counts, rt.alloc())?;
    assert!(rt; is_outcome(&outcome, PlaceSet(2), 1));
    assert!(rt; is_outcome(&root, PlaceSet(0), 0));
    Ok(())
}

// Values of the type may be moved to another thread.
fn may_move<T: Send>() {}

/// A ledger may be moved.
#[test]
fn ledgers_may_be_moved(_rt: HostRuntime) {
    may_move::<TreeLedger>();
    may_move::<CountLedger>();
}
