// What no clause says of runs with several workers: that they come to an end, that two workers make turns at one time, and what
// faulty words and scripts give.
use crate::program::{CENSUS, SCRIPT, made, printed};
use crate::program_pair::is_run;
use crate::texts::{BETWEEN_CALLS, ORDINARY, REALISTIC};
use rx_base::{Gate, MeetGate, MemSink, MemSource, NoGate, NoMemory};
use rx_program::{Status, rx10};
use rx_text::put_natural;
use std::alloc::Global;
use std::sync::Wait;
use std::thread::Threads;

// What `rx10` answers and writes, with this gate.
fn lived<G: Gate + Sync, R: Threads + Wait + Sync>(
    rt: &R,
    alloc: Global,
    line: &[u8],
    script: &[u8],
    gate: &G,
) -> Result<(Status, Vec<u8>), NoMemory> {
    let words = made(alloc, line)?;
    let mut input = MemSource::open(alloc, script, &[])?;
    let mut out = MemSink::open(alloc, 65_536, &[])?;
    let answer = rx10(rt, alloc, &words, &mut input, &mut out, gate);
    Ok((answer, out.written().to_vec(alloc)?))
}

#[test]
fn two_workers_make_turns_at_one_time(rt: HostRuntime) -> Result<(), NoMemory> {
    for line in [
        b"live --workers 2".as_slice(),
        b"live --workers 2 --watch 1",
    ] {
        let gate = MeetGate::open(100_000_000);
        let (status, text) = lived(&rt, rt.alloc(), line, SCRIPT, &gate)?;
        assert!(rt; status == Status::Done);
        assert!(rt; printed(rt.alloc(), &text)?.as_slice() == b"7 8 ".as_slice());
        assert!(rt; gate.met());
    }
    Ok(())
}

// Words of `live`, a script, how the run ends, and what it prints.
const LIVE_RUNS: &[(&[u8], &[u8], Status, &[u8])] = &[
    // the place of the task dies
    (b"live --workers 2 --kill 1@3", SCRIPT, Status::Faulted, b""),
    // a store is called at each of two places
    (
        b"live --workers 2",
        b"finish { at 1 async { new a = 1; } new b = 1; }",
        Status::Done,
        b"",
    ),
    // a place joins
    (
        b"live --places 1 --join 1 --workers 2",
        CENSUS,
        Status::Done,
        b"0 1 ",
    ),
    // one place of eight is lost to four workers
    (
        b"live --places 8 --kill 3@5 --workers 4",
        REALISTIC,
        Status::Done,
        b"999 6 46 86 166 206 246 286 ",
    ),
];

#[test]
fn live_runs(rt: HostRuntime) -> Result<(), NoMemory> {
    for (line, script, want, prints) in LIVE_RUNS {
        let (status, text) = lived(&rt, rt.alloc(), line, script, &NoGate)?;
        assert!(rt; status == *want);
        assert!(rt; printed(rt.alloc(), &text)?.as_slice() == *prints);
        assert!(rt; is_run(rt.alloc(), script, &text)?);
    }
    let (status, text) = lived(&rt, rt.alloc(), b"step", SCRIPT, &NoGate)?;
    assert!(rt; status == Status::Done && text.as_slice() == ORDINARY);
    for (line, script, want) in [
        (
            b"live --workers 9".as_slice(),
            SCRIPT,
            Status::Usage { word: 2 },
        ),
        (b"live", b"print 7", Status::Syntax { at: 7 }),
        (b"live --watch 0", SCRIPT, Status::Usage { word: 2 }),
    ] {
        let (status, text) = lived(&rt, rt.alloc(), line, script, &NoGate)?;
        assert!(rt; status == want && text.is_empty());
    }
    Ok(())
}

// One task runs at a time, so every schedule gives one trace: place 1 dies between two calls of its store.
const TWO_CALLS: &[u8] = b"at 1 { new a = 1; print 5; print 6; put a[0] = 2; }";

// Whether a line of a text ends so.
fn has_line(text: &[u8], end: &[u8]) -> bool {
    text.split(|b| *b == b'\n').any(|line| line.ends_with(end))
}

#[test]
fn a_place_dies_while_an_activity_is_at_it(rt: HostRuntime) -> Result<(), NoMemory> {
    for line in [
        b"live --workers 1 --kill 1@4".as_slice(),
        b"live --workers 2 --kill 1@4",
    ] {
        let (status, text) = lived(&rt, rt.alloc(), line, SCRIPT, &NoGate)?;
        assert!(rt; status == Status::Faulted);
        assert!(rt; is_run(rt.alloc(), SCRIPT, &text)?);
        assert!(rt; has_line(&text, b"release t0 s1 lost 1"));
    }
    for line in [
        b"live --workers 1 --kill 1@3".as_slice(),
        b"live --workers 2 --kill 1@3",
    ] {
        let (status, text) = lived(&rt, rt.alloc(), line, TWO_CALLS, &NoGate)?;
        assert!(rt; status == Status::Faulted);
        assert!(rt; text.as_slice() == BETWEEN_CALLS);
    }
    Ok(())
}

// The lines of the snapshots in what was written.
fn seen(alloc: Global, text: &[u8]) -> Result<Vec<Vec<u8>>, NoMemory> {
    let mut lines = Vec::new(alloc);
    for line in text.split(|b| *b == b'\n') {
        if line.starts_with(b"seen ") {
            lines.push(line.to_vec(alloc)?)?;
        }
    }
    Ok(lines)
}

// How a snapshot of all entries of a trace begins.
fn seen_all(alloc: Global, text: &[u8]) -> Result<Vec<u8>, NoMemory> {
    let mut entries = 0u32;
    for line in text.split(|b| *b == b'\n').skip(5) {
        if line.starts_with(b"journal ") {
            break;
        }
        entries = entries.saturating_add(1);
    }
    let mut begins = b"seen ".to_vec(alloc)?;
    put_natural(&mut begins, entries)?;
    begins.push(b' ')?;
    Ok(begins)
}

#[test]
fn a_run_is_watched(rt: HostRuntime) -> Result<(), NoMemory> {
    let line = b"live --workers 1 --watch 1";
    let (status, text) = lived(&rt, rt.alloc(), line, b"", &NoGate)?;
    let lines = seen(rt.alloc(), &text)?;
    assert!(rt; status == Status::Done && lines.len() == 2);
    assert!(rt; lines[1].as_slice() == b"seen 2 scopes 0 live 0 travel 0".as_slice());
    let line = b"live --kill 1@3 --watch 3";
    let (status, text) = lived(&rt, rt.alloc(), line, SCRIPT, &NoGate)?;
    let lines = seen(rt.alloc(), &text)?;
    assert!(rt; status == Status::Faulted && lines.len() == 4);
    assert!(rt; lines[3].ends_with(b" scopes 0 live 0 travel 0 dead 1"));
    let begins = seen_all(rt.alloc(), &text)?;
    assert!(rt; lines[3].starts_with(begins.as_slice()));
    Ok(())
}
