// What no clause says: that scripts run to their end, with their whole text, and what faults and bad words give.
use crate::program_pair::is_run;
use crate::texts::{
    ADOPTION, AT_AND_ASYNC, AT_WAITS, BORN_STRUCK, BRIEF, CALL_THROWS, EMPTY, ENDED_FIRST,
    FAULTS_IN_ORDER, FULL_HEAP, HELD_THEN_MASKED, JOINED, JOINED_AND_DEAD, KILL_JUST_PAST_THE_END,
    KILL_PAST_THE_END, LOST_IN_TRANSIT, MASKED, NEVER_JOINED, NO_PLACE, NOT_KNOWN, ORDINARY,
    OVERFLOW, PICKED, REALISTIC, SOURCE_DIES, STALE, STARTED, TWO_AT_ONCE, TWO_LOSSES, WRONG_PLACE,
};
use rx_base::{MemSink, MemSource, NoMemory, RxWord};
use rx_program::{Status, rx10_step};
use rx_text::put_natural;
use std::alloc::Global;

// The words of a line, between which one blank stands.
pub(crate) fn made(alloc: Global, line: &[u8]) -> Result<Vec<RxWord>, NoMemory> {
    let mut words = Vec::new(alloc);
    if line.is_empty() {
        return Ok(words);
    }
    for word in line.split(|b| *b == b' ') {
        words.push(RxWord::from_bytes(alloc, word)?)?;
    }
    Ok(words)
}

// A command with its input, where the calls of these numbers fail and the sink has so much room.
#[derive(Clone, Copy)]
pub(crate) struct Outside<'a> {
    pub(crate) line: &'a [u8],
    pub(crate) script: &'a [u8],
    pub(crate) read_fails: &'a [u32],
    pub(crate) room: usize,
    pub(crate) write_fails: &'a [u32],
}

// These words and a script, where nothing fails.
pub(crate) fn plain<'a>(line: &'a [u8], script: &'a [u8]) -> Outside<'a> {
    Outside {
        line,
        script,
        read_fails: &[],
        room: 65_536,
        write_fails: &[],
    }
}

// What it answers, and what it writes.
fn outcome(alloc: Global, outside: &Outside<'_>) -> Result<(Status, Vec<u8>), NoMemory> {
    let words = made(alloc, outside.line)?;
    let mut input = MemSource::open(alloc, outside.script, outside.read_fails)?;
    let mut out = MemSink::open(alloc, outside.room, outside.write_fails)?;
    let answer = rx10_step(alloc, &words, &mut input, &mut out);
    Ok((answer, out.written().to_vec(alloc)?))
}

// Whether it answers and writes this.
pub(crate) fn gives(
    alloc: Global,
    outside: &Outside<'_>,
    status: Status,
    text: &[u8],
) -> Result<bool, NoMemory> {
    let (answer, written) = outcome(alloc, outside)?;
    Ok(answer == status && written.as_slice() == text)
}

pub(crate) const SCRIPT: &[u8] = b"finish { at 1 async { print 7; } } print 8;";

// Three finishes in one another, each at a place of its own.
const NESTED: &[u8] =
    b"try { finish { at 1 async { finish { at 2 async { finish { at 3 async { print 1;
    } } } } } } } catch dead { } print 2;";

// A scope at place 1 holds the fault of a task at place 2.
const FAULT_BELOW: &[u8] =
    b"try { finish { at 1 async { finish { at 2 async { throw 5; } } } } } catch dead { print 9; }";

pub(crate) const CENSUS: &[u8] = b"print here; census n; at (n - 1) async { print here; }";

// Words, a script, how the run ends, and its trace.
type Run = (&'static [u8], &'static [u8], Status, &'static [u8]);

const RUNS: &[Run] = &[
    // the ordinary case
    (b"step", SCRIPT, Status::Done, ORDINARY),
    // a task lost on its way
    (b"step --kill 1@3", SCRIPT, Status::Faulted, LOST_IN_TRANSIT),
    // kills past the end
    (b"step --kill 1@50", SCRIPT, Status::Done, KILL_PAST_THE_END),
    (
        b"step --kill 1@10",
        SCRIPT,
        Status::Done,
        KILL_JUST_PAST_THE_END,
    ),
    // a task that ended before the death
    (b"step --kill 1@6", SCRIPT, Status::Done, ENDED_FIRST),
    // a task born for a dead place
    (b"step --kill 1@1", SCRIPT, Status::Faulted, BORN_STRUCK),
    // two deaths at one moment
    (
        b"step --places 3 --kill 2@4 --kill 1@4",
        SCRIPT,
        Status::Faulted,
        TWO_AT_ONCE,
    ),
    // the nearest scope with a living home waits for the orphans
    (
        b"step --places 4 --kill 2@12",
        NESTED,
        Status::Done,
        ADOPTION,
    ),
    // two losses in one release
    (
        b"step --places 4 --kill 2@13 --kill 3@12",
        NESTED,
        Status::Done,
        TWO_LOSSES,
    ),
    // an `at` waits for the orphans
    (
        b"step --places 3 --kill 1@6",
        b"try { at 1 { finish { at 2 async { print 1; } } } } catch dead { print 9; } print 2;",
        Status::Done,
        AT_WAITS,
    ),
    // the source of a travel dies
    (
        b"step --places 3 --kill 1@6",
        b"try { finish { at 1 async { at 2 async { print 1; } } } } catch dead { print 9; }",
        Status::Done,
        SOURCE_DIES,
    ),
    // the scope dies before the fault comes
    (
        b"step --places 3 --kill 1@8",
        FAULT_BELOW,
        Status::Done,
        MASKED,
    ),
    // it dies while it holds the fault
    (
        b"step --places 3 --kill 1@9",
        FAULT_BELOW,
        Status::Done,
        HELD_THEN_MASKED,
    ),
    // a task counts the places and starts another at the one that joined
    (b"step --places 1 --join 1", CENSUS, Status::Done, JOINED),
    // the run ends before the join
    (
        b"step --places 1 --join 50",
        CENSUS,
        Status::Done,
        NEVER_JOINED,
    ),
    // without a count the task does not know of the place
    (
        b"step --places 1 --join 0",
        b"at 1 async { }",
        Status::Faulted,
        NOT_KNOWN,
    ),
    // a place joins and dies at one moment
    (
        b"step --places 2 --join 0 --kill 2@0",
        b"",
        Status::Done,
        BRIEF,
    ),
    // the same later in a run
    (
        b"step --places 2 --join 5 --kill 2@5",
        SCRIPT,
        Status::Done,
        JOINED_AND_DEAD,
    ),
    // a task starts another
    (
        b"step",
        b"async { print 1; } print 2;",
        Status::Done,
        STARTED,
    ),
    // a call at home throws
    (b"step", b"at 0 { throw 4; }", Status::Faulted, CALL_THROWS),
    // an `async` in the body of an `at`
    (
        b"step",
        b"finish { at 1 { async { print 5; } } print 6; }",
        Status::Done,
        AT_AND_ASYNC,
    ),
    // a stale reference
    (
        b"step",
        b"new r = 3; forget r; new q = 3; get x = r[0];",
        Status::Faulted,
        STALE,
    ),
    // a full heap
    (
        b"step --heap 8",
        b"new a = 4; new b = 4; forget a; try { new c = 5; } catch { print 1; } new d = 4;",
        Status::Done,
        FULL_HEAP,
    ),
    // a reference at a wrong place
    (
        b"step",
        b"new r = 1; try { at 1 { get x = r[0]; } } catch { print 5; }",
        Status::Done,
        WRONG_PLACE,
    ),
    // faults in their order
    (
        b"step",
        b"try { finish { async { throw 1; } async { throw 2; } throw 3; } } catch { print 4; }",
        Status::Done,
        FAULTS_IN_ORDER,
    ),
    // a number out of range
    (
        b"step",
        b"print (9223372036854775807 + 1);",
        Status::Faulted,
        OVERFLOW,
    ),
    // no such place
    (b"step", b"at 5 async { }", Status::Faulted, NO_PLACE),
    // the empty script
    (b"step", b"", Status::Done, EMPTY),
    // the second of two enabled tasks moves
    (
        b"step --pick 0,0,0,0,1",
        b"finish { async { print 1; } async { print 2; } }",
        Status::Done,
        PICKED,
    ),
];

#[test]
fn worked_runs(rt: HostRuntime) -> Result<(), NoMemory> {
    for (line, script, status, text) in RUNS {
        assert!(rt; gives(rt.alloc(), &plain(line, script), *status, text)?);
        assert!(rt; is_run(rt.alloc(), script, text)?);
    }
    Ok(())
}

// The values that a trace prints, a blank behind each.
pub(crate) fn printed(alloc: Global, trace: &[u8]) -> Result<Vec<u8>, NoMemory> {
    let mut values = Vec::new(alloc);
    for line in trace.split(|b| *b == b'\n') {
        let mut parts = line.split(|b| *b == b' ');
        let _ = parts.next();
        if parts.next() == Some(b"print".as_slice()) {
            let _ = parts.next();
            if let Some(value) = parts.next() {
                values.extend_from_slice(value)?;
                values.push(b' ')?;
            }
        }
    }
    Ok(values)
}

#[test]
fn one_place_of_eight_is_lost_under_a_seed(rt: HostRuntime) -> Result<(), NoMemory> {
    let command = plain(b"step --places 8 --kill 3@5 --seed 5", REALISTIC);
    let (status, text) = outcome(rt.alloc(), &command)?;
    assert!(rt; status == Status::Done);
    let values = printed(rt.alloc(), &text)?;
    assert!(rt; values.as_slice() == b"999 6 46 86 166 206 246 286 ".as_slice());
    assert!(rt; is_run(rt.alloc(), REALISTIC, &text)?);
    Ok(())
}

// Words of `gen` and `check`, the input, and what is written.
const ANSWERS: &[(&[u8], &[u8], &[u8])] = &[
    (b"check", b"repeat 9 { repeat 11109 { } }", b"work 100000\n"),
    (
        b"gen --size 1",
        b"no script",
        b"entries 11\ntasks 3\nprints 1\ndeaths 0\nlosses 0\n",
    ),
    (
        b"gen --size 2",
        b"no script",
        b"entries 21\ntasks 5\nprints 2\ndeaths 0\nlosses 0\n",
    ),
    (
        b"gen --kill 1@5 --size 2",
        b"no script",
        b"entries 13\ntasks 4\nprints 0\ndeaths 1\nlosses 2\n",
    ),
    (
        b"gen --size 10000",
        b"no script",
        b"entries 95002\ntasks 20001\nprints 10000\ndeaths 0\nlosses 0\n",
    ),
    (
        b"gen --size 10000 --seed 5",
        b"no script",
        b"entries 95002\ntasks 20001\nprints 10000\ndeaths 0\nlosses 0\n",
    ),
];

#[test]
fn work_and_generated_scripts(rt: HostRuntime) -> Result<(), NoMemory> {
    for (line, script, text) in ANSWERS {
        assert!(rt; gives(rt.alloc(), &plain(line, script), Status::Done, text)?);
    }
    Ok(())
}

// What `step` writes where place 2 of 4 dies at a moment, if nothing is lost at the root.
fn dying_at(alloc: Global, script: &[u8], moment: u32) -> Result<Option<Vec<u8>>, NoMemory> {
    let mut line = b"step --places 4 --kill 2@".to_vec(alloc)?;
    put_natural(&mut line, moment)?;
    match outcome(alloc, &plain(&line, script))? {
        (Status::Done, text) => Ok(Some(text)),
        _ => Ok(None),
    }
}

// Whether a release of the second scope names place 2.
fn is_named(text: &[u8]) -> bool {
    text.split(|b| *b == b'\n')
        .any(|line| line.ends_with(b"release t1 s2 lost 2"))
}

#[test]
fn a_death_at_every_moment(rt: HostRuntime) -> Result<(), NoMemory> {
    for (from, to, named, prints) in [
        (0u32, 12u32, true, b"2 ".as_slice()),
        (12, 16, true, b"1 2 "),
        (16, 23, false, b"1 2 "),
    ] {
        for moment in from..to {
            let Some(text) = dying_at(rt.alloc(), NESTED, moment)? else {
                panic!(rt; "something is lost at the root")
            };
            assert!(rt; is_run(rt.alloc(), NESTED, &text)?);
            assert!(rt; printed(rt.alloc(), &text)?.as_slice() == prints);
            assert!(rt; is_named(&text) == named);
        }
    }
    Ok(())
}

// Words, an input, and why it is refused.
const REFUSALS: &[(&[u8], &[u8], Status)] = &[
    (b"", SCRIPT, Status::Usage { word: 0 }),
    (b"step more", SCRIPT, Status::Usage { word: 1 }),
    (
        b"step --places 2 --join 5 --kill 2@4",
        SCRIPT,
        Status::Usage { word: 6 },
    ),
    (b"gen --size 1 --join 1", SCRIPT, Status::Usage { word: 3 }),
    (b"live", SCRIPT, Status::Usage { word: 0 }),
    (b"step", b"print 7; pri", Status::Syntax { at: 9 }),
    (b"check", b"print 7; pri", Status::Syntax { at: 9 }),
    (
        b"step",
        b"set x = 1; forget x;",
        Status::Bad { rule: 2, node: 1 },
    ),
    (
        b"check",
        b"set x = 1; forget x;",
        Status::Bad { rule: 2, node: 1 },
    ),
    (b"verify", b"", Status::Pair),
    (b"span", b"rx10 pair 9\nprint 7;", Status::Pair),
    (
        b"verify",
        b"rx10 pair 7\nprint 7rx10 trace 9\n",
        Status::Syntax { at: 7 },
    ),
    (
        b"span",
        b"rx10 pair 8\nprint x;rx10 trace 9\n",
        Status::Bad { rule: 1, node: 0 },
    ),
    (
        b"verify",
        b"rx10 pair 0\nrx10 trace 2\n",
        Status::BadTrace { number: 2 },
    ),
];

#[test]
fn refusals(rt: HostRuntime) -> Result<(), NoMemory> {
    for (line, input, status) in REFUSALS {
        assert!(rt; gives(rt.alloc(), &plain(line, input), *status, b"")?);
    }
    for line in [b"step".as_slice(), b"verify"] {
        let read = Outside {
            read_fails: &[0],
            ..plain(line, SCRIPT)
        };
        assert!(rt; gives(rt.alloc(), &read, Status::ReadFault, b"")?);
    }
    let write = Outside {
        write_fails: &[0],
        ..plain(b"step", SCRIPT)
    };
    assert!(rt; gives(rt.alloc(), &write, Status::WriteFault, b"")?);
    let short = Outside {
        room: 20,
        ..plain(b"step", SCRIPT)
    };
    assert!(rt;
        gives(
            rt.alloc(),
            &short,
            Status::WriteFault,
            b"rx10 trace 2\nplaces "
        )?
    );
    Ok(())
}

#[test]
fn too_long_by_one_blank(rt: HostRuntime) -> Result<(), NoMemory> {
    let mut bytes = Vec::new(rt.alloc());
    bytes.resize(65_536, b' ')?;
    assert!(rt; gives(rt.alloc(), &plain(b"step", &bytes), Status::Done, EMPTY)?);
    bytes.push(b' ')?;
    assert!(rt; gives(rt.alloc(), &plain(b"step", &bytes), Status::TooLong, b"")?);
    let mut pair = b"rx10 pair 0\n".to_vec(rt.alloc())?;
    pair.resize(16_777_216, b' ')?;
    let status = Status::BadTrace { number: 1 };
    assert!(rt; gives(rt.alloc(), &plain(b"verify", &pair), status, b"")?);
    pair.push(b' ')?;
    assert!(rt; gives(rt.alloc(), &plain(b"verify", &pair), Status::TooLong, b"")?);
    Ok(())
}
