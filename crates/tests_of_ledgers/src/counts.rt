// Worked runs, call by call: what the records tell after each.
ghost use Rattle.std.specs.Prelude.{◌<◌, ◌+◌, OnOk};
ghost use Rattle.rx_rules.specs.Tree.{Tree};
ghost use Rattle.rx_rules.specs.Fold.{opening};
ghost use Rattle.rx_counts.specs.Stands.{StandsFor};
ghost use Rattle.rx_counts.specs.Inside.Nesting.{CanNest, HasThree, nested, two_deep, three_deep};

use crate::same::same;
use rx_base::{Fault, Faults, PlaceId, PlaceSet, ScopeId, TaskId};
use rx_counts::CountLedger;
use rx_finish::{Born, Caller, FinishLedger, LedgerFault, Outcome, Where};
use std::alloc::Global;
use std::test::Fail;

/// Task n at place n opens scope n + 1, starts task n + 1 there for the next place, and waits.
fn nest(ledger: &mut CountLedger, alloc: Global, n: u8) -> Result<(), LedgerFault>
    requires few { n < 15 }
    requires stands { (T : Tree) × StandsFor ledger.old 0 T × CanNest T n }
    ensures { (T : Tree) → StandsFor ledger.old 0 T → CanNest T n → OnOk result (StandsFor ledger.new 0 (nested T n)) }
{
    let at = Caller {
        task: TaskId(n as u32),
        scope: ScopeId(n as u32),
        inner: ScopeId(n as u32),
        place: Where::At(PlaceId(n)),
    };
    let inside = Caller {
        task: TaskId(n as u32),
        scope: ScopeId(n as u32),
        inner: ScopeId(n as u32 + 1),
        place: Where::At(PlaceId(n)),
    };
    let _scope = ledger.open_finish(at)?;
    let _born = ledger.spawn(inside, PlaceId(n + 1))?;
    if let Err(refused) = ledger.wait(inside, Faults::open(alloc)) {
        return Err(refused.0);
    }
    Ok(())
}

/// Tasks 0 and 1 start the next at the next place, each inside a finish of its own, in a run of so many places.
fn nest_two(ledger: &mut CountLedger, alloc: Global, places: u8) -> Result<(), LedgerFault>
    requires { (2 < places) × StandsFor ledger.old 0 (opening places) }
    ensures { OnOk result (StandsFor ledger.new 0 (two_deep places)) }
{
    let _ = places;
    nest(ledger, alloc, 0)?;
    ledger.arrive(Caller {
        task: TaskId(1),
        scope: ScopeId(1),
        inner: ScopeId(1),
        place: Where::Travel {
            from: PlaceId(0),
            to: PlaceId(1),
        },
    })?;
    nest(ledger, alloc, 1)?;
    ledger.arrive(Caller {
        task: TaskId(2),
        scope: ScopeId(2),
        inner: ScopeId(2),
        place: Where::Travel {
            from: PlaceId(1),
            to: PlaceId(2),
        },
    })
}

/// And so does task 2.
fn nest_three(ledger: &mut CountLedger, alloc: Global) -> Result<(), LedgerFault>
    requires { StandsFor ledger.old 0 (opening 4) }
    ensures { OnOk result (StandsFor ledger.new 0 three_deep) }
{
    nest_two(ledger, alloc, 4)?;
    nest(ledger, alloc, 2)?;
    ledger.arrive(Caller {
        task: TaskId(3),
        scope: ScopeId(3),
        inner: ScopeId(3),
        place: Where::Travel {
            from: PlaceId(2),
            to: PlaceId(3),
        },
    })
}

/// What is told of three scopes: the adopter of the last, the counts of the second at places 3 and 2, where tasks of the second
/// were lost, and the count of the first at place 1.
fn told(ledger: &CountLedger) -> (ScopeId, u32, u32, PlaceSet, u32)
    requires { (T : Tree) × StandsFor ledger.now 0 T × HasThree T }
{
    (
        ledger.adopter_of(ScopeId(3)),
        ledger.live_at(ScopeId(2), PlaceId(3)),
        ledger.live_at(ScopeId(2), PlaceId(2)),
        ledger.lost_of(ScopeId(2)),
        ledger.live_at(ScopeId(1), PlaceId(1)),
    )
}

/// Place 2 dies; task 3 ends; task 1 releases its finish.
fn adopt(
    ledger: &mut CountLedger,
    alloc: Global,
) -> Result<((ScopeId, u32, u32, PlaceSet, u32), Outcome), LedgerFault>
    requires { StandsFor ledger.old 0 (opening 4) }
{
    nest_three(ledger, alloc)?;
    ledger.death(PlaceId(2), 12);
    let told = told(ledger);
    let last = Caller {
        task: TaskId(3),
        scope: ScopeId(3),
        inner: ScopeId(3),
        place: Where::At(PlaceId(3)),
    };
    if let Err(refused) = ledger.end(last, Faults::open(alloc)) {
        return Err(refused.0);
    }
    let waiting = Caller {
        task: TaskId(1),
        scope: ScopeId(1),
        inner: ScopeId(2),
        place: Where::At(PlaceId(1)),
    };
    let outcome = ledger.release(waiting)?;
    Ok((told, outcome))
}

/// Places 3 and 2 die, one after the other.
fn lose_two(
    ledger: &mut CountLedger,
    alloc: Global,
) -> Result<(ScopeId, u32, u32, PlaceSet, u32), LedgerFault>
    requires { StandsFor ledger.old 0 (opening 4) }
{
    nest_three(ledger, alloc)?;
    ledger.death(PlaceId(3), 12);
    ledger.death(PlaceId(2), 13);
    Ok(told(ledger))
}

/// Task 1 travels, arrives and ends in a run of so many places: the transit count as it travels, the live count when it is there,
/// both after its end, and whether task 0 may release then.
fn pass(
    ledger: &mut CountLedger,
    alloc: Global,
    places: u8,
) -> Result<(u32, u32, u32, u32, bool), LedgerFault>
    requires { (1 < places) × StandsFor ledger.old 0 (opening places) }
{
    let _ = places;
    nest(ledger, alloc, 0)?;
    let travels = ledger.transit_of(ScopeId(1), PlaceId(0), PlaceId(1));
    ledger.arrive(Caller {
        task: TaskId(1),
        scope: ScopeId(1),
        inner: ScopeId(1),
        place: Where::Travel {
            from: PlaceId(0),
            to: PlaceId(1),
        },
    })?;
    let landed = ledger.live_at(ScopeId(1), PlaceId(1));
    let there = Caller {
        task: TaskId(1),
        scope: ScopeId(1),
        inner: ScopeId(1),
        place: Where::At(PlaceId(1)),
    };
    if let Err(refused) = ledger.end(there, Faults::open(alloc)) {
        return Err(refused.0);
    }
    let waiting = Caller {
        task: TaskId(0),
        scope: ScopeId(0),
        inner: ScopeId(1),
        place: Where::At(PlaceId(0)),
    };
    Ok((
        travels,
        landed,
        ledger.transit_of(ScopeId(1), PlaceId(0), PlaceId(1)),
        ledger.live_at(ScopeId(1), PlaceId(1)),
        ledger.ready(waiting),
    ))
}

/// Task 0 asks to release while task 1 travels, in a run of so many places; then place 1 dies.
fn lose(
    ledger: &mut CountLedger,
    alloc: Global,
    places: u8,
) -> Result<(Result<Outcome, LedgerFault>, u32, PlaceSet, ScopeId), LedgerFault>
    requires { (1 < places) × StandsFor ledger.old 0 (opening places) }
{
    let _ = places;
    nest(ledger, alloc, 0)?;
    let waiting = Caller {
        task: TaskId(0),
        scope: ScopeId(0),
        inner: ScopeId(1),
        place: Where::At(PlaceId(0)),
    };
    let early = ledger.release(waiting);
    if early.is_ok() {
        return Err(LedgerFault::NoMemory);
    }
    ledger.death(PlaceId(1), 3);
    Ok((
        early,
        ledger.transit_of(ScopeId(1), PlaceId(0), PlaceId(1)),
        ledger.lost_of(ScopeId(1)),
        ledger.adopter_of(ScopeId(1)),
    ))
}

/// The faults of `throw 5`.
fn five(alloc: Global) -> Result<Faults, LedgerFault> {
    let mut faults = Faults::open(alloc);
    if faults.push(Fault::Thrown(5)).is_err() {
        return Err(LedgerFault::NoMemory);
    }
    Ok(faults)
}

/// Task 1 calls place 2, where the callee nests; task 3 ends with a fault; places 2 and 1 die, so that the finish at place 2 is adopted
/// by the call, and both by the finish of task 0, which is released.
fn adopt_twice(ledger: &mut CountLedger, alloc: Global) -> Result<Outcome, LedgerFault>
    requires { StandsFor ledger.old 0 (opening 4) }
{
    nest(ledger, alloc, 0)?;
    ledger.arrive(Caller {
        task: TaskId(1),
        scope: ScopeId(1),
        inner: ScopeId(1),
        place: Where::Travel {
            from: PlaceId(0),
            to: PlaceId(1),
        },
    })?;
    let calls = Caller {
        task: TaskId(1),
        scope: ScopeId(1),
        inner: ScopeId(1),
        place: Where::At(PlaceId(1)),
    };
    let _born = ledger.open_at(calls, PlaceId(2))?;
    ledger.arrive(Caller {
        task: TaskId(2),
        scope: ScopeId(2),
        inner: ScopeId(2),
        place: Where::Travel {
            from: PlaceId(1),
            to: PlaceId(2),
        },
    })?;
    nest(ledger, alloc, 2)?;
    ledger.arrive(Caller {
        task: TaskId(3),
        scope: ScopeId(3),
        inner: ScopeId(3),
        place: Where::Travel {
            from: PlaceId(2),
            to: PlaceId(3),
        },
    })?;
    let last = Caller {
        task: TaskId(3),
        scope: ScopeId(3),
        inner: ScopeId(3),
        place: Where::At(PlaceId(3)),
    };
    let thrown = five(alloc)?;
    if let Err(refused) = ledger.end(last, thrown) {
        return Err(refused.0);
    }
    ledger.death(PlaceId(2), 12);
    ledger.death(PlaceId(1), 13);
    ledger.release(Caller {
        task: TaskId(0),
        scope: ScopeId(0),
        inner: ScopeId(1),
        place: Where::At(PlaceId(0)),
    })
}

/// Task 0 calls place 1, and the host asks to release the root.
fn call(ledger: &mut CountLedger) -> Result<(Born, Result<Outcome, LedgerFault>), LedgerFault>
    requires { StandsFor ledger.old 0 (opening 4) }
{
    let main = Caller {
        task: TaskId(0),
        scope: ScopeId(0),
        inner: ScopeId(0),
        place: Where::At(PlaceId(0)),
    };
    let born = ledger.open_at(main, PlaceId(1))?;
    let early = ledger.release_root();
    Ok((born, early))
}

#[test]
fn nearest_living_scope_adopts(rt: HostRuntime) -> Result<(), Fail> {
    let mut ledger = CountLedger::open(rt.alloc(), 4)?;
    let (told, outcome) = adopt(&mut ledger, rt.alloc())?;
    same(&rt, told, (ScopeId(2), 1, 0, PlaceSet(4), 1));
    same(&rt, outcome.lost, PlaceSet(4));
    assert!(rt; outcome.thrown.len() == 0);
    let mut ledger = CountLedger::open(rt.alloc(), 4)?;
    let told = lose_two(&mut ledger, rt.alloc())?;
    same(&rt, told, (ScopeId(2), 0, 0, PlaceSet(12), 1));
    Ok(())
}

#[test]
fn second_adoption_keeps_what_is_masked(rt: HostRuntime) -> Result<(), Fail> {
    let mut ledger = CountLedger::open(rt.alloc(), 4)?;
    let outcome = adopt_twice(&mut ledger, rt.alloc())?;
    same(&rt, (outcome.lost, outcome.masked), (PlaceSet(6), 1));
    assert!(rt; outcome.thrown.len() == 0);
    Ok(())
}

#[test]
fn tasks_are_counted_where_they_are(rt: HostRuntime) -> Result<(), Fail> {
    let mut ledger = CountLedger::open(rt.alloc(), 2)?;
    let told = pass(&mut ledger, rt.alloc(), 2)?;
    same(&rt, told, (1, 1, 0, 0, true));
    let mut ledger = CountLedger::open(rt.alloc(), 2)?;
    let (early, transit, lost, adopter) = lose(&mut ledger, rt.alloc(), 2)?;
    assert!(rt; matches!(early, Err(LedgerFault::NotYet { place: PlaceId(1) })));
    same(&rt, (transit, lost, adopter), (0, PlaceSet(2), ScopeId(1)));
    let mut ledger = CountLedger::open(rt.alloc(), 4)?;
    let (born, early) = call(&mut ledger)?;
    same(
        &rt,
        born,
        Born {
            child: TaskId(1),
            scope: ScopeId(1),
            lost: false,
        },
    );
    assert!(rt; matches!(early, Err(LedgerFault::NotYet { place: PlaceId(0) })));
    Ok(())
}
