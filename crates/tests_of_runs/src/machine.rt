// Runs turn by turn: which tasks are enabled, what stands after each turn, and that a run may be stopped or run on from there.
ghost use Rattle.std.specs.Prelude.{◌≡◌, IsTrue, IfOk, length};
ghost use Rattle.rx_rules.specs.Fold.{opening};
ghost use Rattle.rx_rules.specs.Run.{Proper};
ghost use Rattle.rx_history.specs.Setups.{given};
ghost use Rattle.rx_machine.specs.Runs.{CanRun};

use crate::same::same;
use rx_base::{Kill, NoMemory, PlaceId};
use rx_check::{Program, check, checked};
use rx_counts::CountLedger;
use rx_finish::FinishLedger;
use rx_history::{JoinList, KillList, Setup};
use rx_machine::{ListPicks, Machine, Turn};
use rx_script::read_script;
use rx_tree::TreeLedger;
use std::alloc::Global;
use std::test::Fail;

// A checked script.
fn program(alloc: Global, bytes: &[u8]) -> Option<Program> {
    if bytes.len() > 65_536 {
        return None;
    }
    let Ok(script) = read_script(alloc, bytes) else {
        return None;
    };
    check(alloc, script).ok()
}

// Two places, of which the second dies at moment 3.
fn with_death(alloc: Global) -> Result<Setup, NoMemory>
    ensures { IfOk result (λ u. Proper (given u) × (u.places ≡ 2) × (length (given u).joins ≡ 0)) }
{
    let mut kills = KillList::open(alloc);
    kills.push(Kill {
        place: PlaceId(1),
        moment: 3,
    })?;
    Ok(Setup {
        places: 2,
        heap: 8,
        kills,
        joins: JoinList::open(alloc),
    })
}

// One place, and a second that joins at moment 0.
fn with_join(alloc: Global) -> Result<Setup, NoMemory>
    ensures { IfOk result (λ u. Proper (given u) × (u.places ≡ 1) × (length (given u).joins ≡ 1)) }
{
    let mut joins = JoinList::open(alloc);
    joins.push(0)?;
    Ok(Setup {
        places: 1,
        heap: 8,
        kills: KillList::open(alloc),
        joins,
    })
}

// A machine before its first turn.
fn opened<L: FinishLedger>(
    alloc: Global,
    p: &Program,
    setup: Setup,
    ledger: L,
) -> Result<Machine<L>, NoMemory>
    requires proper { Proper (given setup) }
    requires opened { L.stands ledger (length (given setup).joins) (opening (given setup).places) }
    ensures { IfOk result (λ m. CanRun p.now.script m) }
{
    checked(p);
    Machine::open(alloc, p, &setup, ledger)
}

// Whether a turn goes on, after which so many tasks are enabled.
fn goes_on<L: FinishLedger>(
    p: &Program,
    machine: &mut Machine<L>,
    picks: &mut ListPicks,
    enabled: u32,
) -> bool
    requires { CanRun p.now.script machine.old }
    ensures { IsTrue result → CanRun p.now.script machine.new }
{
    match machine.turn(p, picks) {
        Ok(Turn::Moved) => machine.enabled() == enabled,
        _ => false,
    }
}

// Whether turns go on, after each of which so many tasks are enabled.
fn all_go_on<L: FinishLedger>(
    p: &Program,
    machine: &mut Machine<L>,
    picks: &mut ListPicks,
    enabled: &[u32],
) -> bool
    requires { CanRun p.now.script machine.old }
    ensures { IsTrue result → CanRun p.now.script machine.new }
{
    for count in enabled {
        if !goes_on(p, machine, picks, *count) {
            return false;
        }
    }
    true
}

// How long the history is after these turns.
fn stops<L: FinishLedger>(
    p: &Program,
    mut machine: Machine<L>,
    picks: &mut ListPicks,
    enabled: &[u32],
) -> Option<usize>
    requires { CanRun p.now.script machine }
{
    if !all_go_on(p, &mut machine, picks, enabled) {
        return None;
    }
    let (history, _, _) = machine.into_parts();
    Some(history.len())
}

// How long it is where the run goes on by itself after these turns.
fn runs_on<L: FinishLedger>(
    p: &Program,
    mut machine: Machine<L>,
    picks: &mut ListPicks,
    enabled: &[u32],
) -> Result<Option<usize>, NoMemory>
    requires { CanRun p.now.script machine }
{
    if !all_go_on(p, &mut machine, picks, enabled) {
        return Ok(None);
    }
    let (history, _, _) = machine.run(p, picks)?;
    Ok(Some(history.len()))
}

// How long it is where one turn more ends the run.
fn ends<L: FinishLedger>(
    p: &Program,
    mut machine: Machine<L>,
    picks: &mut ListPicks,
    enabled: &[u32],
) -> Option<usize>
    requires { CanRun p.now.script machine }
{
    if !all_go_on(p, &mut machine, picks, enabled) {
        return None;
    }
    match machine.turn(p, picks) {
        Ok(Turn::Ended) => {
            let (history, _, _) = machine.into_parts();
            Some(history.len())
        }
        _ => None,
    }
}

// A machine over the ledger of counts whose second place dies.
fn dying(alloc: Global, p: &Program) -> Result<Machine<CountLedger>, NoMemory>
    ensures { IfOk result (λ m. CanRun p.now.script m) }
{
    let setup = with_death(alloc)?;
    let ledger = CountLedger::open_for(alloc, setup.places, setup.joins.len() as u8)?;
    opened(alloc, p, setup, ledger)
}

// The same over the plain ledger.
fn dying_tree(alloc: Global, p: &Program) -> Result<Machine<TreeLedger>, NoMemory>
    ensures { IfOk result (λ m. CanRun p.now.script m) }
{
    let setup = with_death(alloc)?;
    let ledger = TreeLedger::open(alloc, setup.places)?;
    opened(alloc, p, setup, ledger)
}

// A machine over the plain ledger whose second place joins.
fn joining(alloc: Global, p: &Program) -> Result<Machine<TreeLedger>, NoMemory>
    ensures { IfOk result (λ m. CanRun p.now.script m) }
{
    let setup = with_join(alloc)?;
    let ledger = TreeLedger::open(alloc, setup.places)?;
    opened(alloc, p, setup, ledger)
}

#[test]
fn a_loss_turn_by_turn_over_both_ledgers(rt: HostRuntime) -> Result<(), Fail> {
    let alloc = rt.alloc();
    let Some(p) = program(alloc, b"finish { at 1 async { print 7; } } print 8;") else {
        panic!(rt; "no program")
    };
    let mut picks = ListPicks::open(alloc, &[])?;
    same(
        &rt,
        stops(&p, dying(alloc, &p)?, &mut picks, &[1, 2, 1]),
        Some(3),
    );
    same(
        &rt,
        runs_on(&p, dying(alloc, &p)?, &mut picks, &[1, 2, 1, 1])?,
        Some(7),
    );
    same(
        &rt,
        ends(&p, dying(alloc, &p)?, &mut picks, &[1, 2, 1, 1, 1, 0]),
        Some(7),
    );
    same(
        &rt,
        stops(&p, dying_tree(alloc, &p)?, &mut picks, &[1, 2, 1]),
        Some(3),
    );
    same(
        &rt,
        runs_on(&p, dying_tree(alloc, &p)?, &mut picks, &[1, 2, 1, 1])?,
        Some(7),
    );
    Ok(())
}

#[test]
fn a_call_of_a_joined_place_over_the_tree(rt: HostRuntime) -> Result<(), Fail> {
    let alloc = rt.alloc();
    let Some(p) = program(alloc, b"census a; at 1 { print a; }") else {
        panic!(rt; "no program")
    };
    let mut picks = ListPicks::open(alloc, &[])?;
    same(
        &rt,
        runs_on(&p, joining(alloc, &p)?, &mut picks, &[1, 1, 1])?,
        Some(9),
    );
    Ok(())
}
