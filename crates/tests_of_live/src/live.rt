// That the calls can succeed, that two places are asked at one time, and that a reader makes its snapshots while workers are held.
ghost use Rattle.std.specs.Prelude.{◌≡◌, []};
ghost use Rattle.rx_rules.specs.Run.{Proper};
ghost use Rattle.rx_history.specs.Setups.{given};

use rx_base::{CellGate, MeetGate};
use rx_check::{Program, check};
use rx_counts::CountLedger;
use rx_history::{JoinList, KillList, Setup};
use rx_live::{run_live, run_watched};
use rx_script::read_script;
use std::alloc::Global;
use std::test::Fail;

// A checked script.
fn program(alloc: Global, bytes: &[u8]) -> Option<Program> {
    if bytes.len() > 65_536 {
        return None;
    }
    let Ok(script) = read_script(alloc, bytes) else {
        return None;
    };
    check(alloc, script).ok()
}

// Two places, and no kills and no joins.
fn calm(alloc: Global) -> Setup
    ensures proper { Proper (given result) }
    ensures calm { (result.places ≡ 2) × (result.joins ≡ []) }
{
    Setup {
        places: 2,
        heap: 256,
        kills: KillList::open(alloc),
        joins: JoinList::open(alloc),
    }
}

#[test]
fn two_places_are_asked_at_one_time(rt: HostRuntime) -> Result<(), Fail> {
    let alloc = rt.alloc();
    let Some(program) = program(alloc, b"finish { at 1 async { new a = 1; } new b = 1; }") else {
        panic!(rt; "no program")
    };
    let setup = calm(alloc);
    let Ok(ledger) = CountLedger::open_for(alloc, 2, 0) else {
        panic!(rt; "no memory")
    };
    let gate = CellGate::open(100_000_000);
    let Ok((history, journals, _)) = run_live(&rt, alloc, &program, &setup, 2, ledger, &gate) else {
        panic!(rt; "no memory")
    };
    assert!(rt; gate.met());
    assert!(rt; history.len() == 8);
    assert!(rt; journals.len() == 2);
    assert!(rt; journals.item(0).len() == 1);
    assert!(rt; journals.item(1).len() == 1);
    Ok(())
}

#[test]
fn a_reader_looks_while_workers_are_held(rt: HostRuntime) -> Result<(), Fail> {
    let alloc = rt.alloc();
    let Some(program) = program(alloc, b"finish { at 1 async { print 7; } } print 8;") else {
        panic!(rt; "no program")
    };
    for workers in [1u32, 2] {
        let setup = calm(alloc);
        let Ok(ledger) = CountLedger::open_for(alloc, 2, 0) else {
            panic!(rt; "no memory")
        };
        let gate = MeetGate::open(100_000_000);
        let Ok((history, _, _, watch)) = run_watched(
            &rt, alloc, &program, &setup, workers, 3, ledger, &gate,
        ) else {
            panic!(rt; "no memory")
        };
        assert!(rt; gate.met());
        assert!(rt; history.len() == 10);
        assert!(rt; watch.len() == 4);
        assert!(rt; watch.item(3).len == 10);
    }
    Ok(())
}
