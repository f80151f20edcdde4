// What no clause says: that bytes are answered at all, and by what.
use rx_answers::{CaseFault, Question, answer};
use rx_base::NoMemory;
use std::alloc::Global;

// The ordinary case.
const ORDINARY: &[u8] = b"rx10 pair 43
finish { at 1 async { print 7; } } print 8;rx10 trace 2
places 2 heap 256
kills
joins
history
0 open t0 s1 in s0 0
1 spawn t0 t1 in s1 0 1 0.0
2 wait t0 s1
3 arrive t1 1
4 print t1 7 0.0.0
5 end t1
6 release t0 s1
7 print t0 8 1
8 end t0
9 release host s0
journal 0
journal 1
done
";

// A task lost on its way.
const LOSS: &[u8] = b"rx10 pair 43
finish { at 1 async { print 7; } } print 8;rx10 trace 2
places 2 heap 256
kills 1@3
joins
history
0 open t0 s1 in s0 0
1 spawn t0 t1 in s1 0 1 0.0
2 wait t0 s1
3 death 1
4 release t0 s1 lost 1
5 end t0 thrown dead:1
6 release host s0 thrown dead:1
journal 0
journal 1
0 3 close
done
";

// A stale reference.
const STALE: &[u8] = b"rx10 pair 45
new r = 3; forget r; new q = 3; get x = r[0];rx10 trace 2
places 2 heap 256
kills
joins
history
0 end t0 thrown stale | 0 1 2 3
1 release host s0 thrown stale
journal 0
0 t0 0 make 3 at 0 1 0
1 t0 0 forget 0 1 ok 1
2 t0 0 make 3 at 0 2 2
3 t0 0 get 0 1 0 stale 3
journal 1
done
";

// A block.
const MADE: &[u8] = b"rx10 pair 10
new r = 3;rx10 trace 2
places 2 heap 256
kills
joins
history
0 end t0 | 0
1 release host s0
journal 0
0 t0 0 make 3 at 0 1 0
journal 1
done
";

// An `at` whose place dies, and which waits for the orphans.
const AT_WAITS: &[u8] = b"rx10 pair 84
try { at 1 { finish { at 2 async { print 1; } } } } catch dead { print 9; } print 2;rx10 trace 2
places 3 heap 256
kills 1@6
joins
history
0 at t0 s1 in s0 t1 0 1 0.0.0 | 0
1 arrive t1 1
2 open t1 s2 in s1 0.0.0.0
3 spawn t1 t2 in s2 1 2 0.0.0.0.0
4 wait t1 s2
5 arrive t2 2
6 death 1
7 print t2 1 0.0.0.0.0.0
8 end t2
9 release t0 s1 lost 1
10 print t0 9 0.1.0
11 print t0 2 1
12 end t0
13 release host s0
journal 0
journal 1
0 6 close
journal 2
done
";

// The younger of two tasks moves first.
const PICKED: &[u8] = b"rx10 pair 48
finish { async { print 1; } async { print 2; } }rx10 trace 2
places 2 heap 256
kills
joins
history
0 open t0 s1 in s0 0
1 spawn t0 t1 in s1 0 0 0.0
2 spawn t0 t2 in s1 0 0 0.1
3 wait t0 s1
4 print t2 2 0.1.0
5 print t1 1 0.0.0
6 end t1
7 end t2
8 release t0 s1
9 end t0
10 release host s0
journal 0
journal 1
done
";

// The empty script.
const EMPTY: &[u8] = b"rx10 pair 0
rx10 trace 2
places 2 heap 256
kills
joins
history
0 end t0
1 release host s0
journal 0
journal 1
done
";

// The bytes with these lines in place of those.
fn changed(alloc: Global, bytes: &[u8], lines: &[(&[u8], &[u8])]) -> Result<Vec<u8>, NoMemory> {
    let mut made = Vec::new(alloc);
    for line in bytes.split_inclusive(|b| *b == b'\n') {
        let mut other = line;
        for (old, new) in lines {
            if line == *old {
                other = new;
            }
        }
        made.extend_from_slice(other)?;
    }
    Ok(made)
}

// Whether the bytes are answered by this.
fn is_answered(alloc: Global, question: Question, bytes: &[u8], text: &[u8], is_yes: bool) -> bool {
    if bytes.len() > 65_536 {
        return false;
    }
    match answer(alloc, question, bytes) {
        Ok((written, yes)) => written.as_slice() == text && yes == is_yes,
        Err(_) => false,
    }
}

#[test]
fn whole_runs_and_their_longest_chains(rt: HostRuntime) {
    for (bytes, chain) in [
        (ORDINARY, b"statements 4\nchain 2\n0\n1\n".as_slice()),
        (AT_WAITS, b"statements 7\nchain 3\n0.0.0\n0.1.0\n1\n"),
        (PICKED, b"statements 5\nchain 1\n0\n"),
        (MADE, b"statements 1\nchain 1\n0\n"),
        (EMPTY, b"statements 0\nchain 0\n"),
    ] {
        assert!(rt; is_answered(rt.alloc(), Question::Verify, bytes, b"run\n", true));
        assert!(rt; is_answered(rt.alloc(), Question::Span, bytes, chain, true));
    }
}

#[test]
fn flaws_are_told(rt: HostRuntime) -> Result<(), NoMemory> {
    for (bytes, lines, text) in [
        // a release before the last task has ended
        (
            ORDINARY,
            [
                (b"5 end t1\n".as_slice(), b"5 release t0 s1\n".as_slice()),
                (b"6 release t0 s1\n", b"6 end t1\n"),
            ]
            .as_slice(),
            b"entry 5\n".as_slice(),
        ),
        // a death that nothing asks for
        (
            LOSS,
            [(b"kills 1@3\n".as_slice(), b"kills\n".as_slice())].as_slice(),
            b"entry 3\n",
        ),
        // a refusal with another cause
        (
            STALE,
            [(
                b"3 t0 0 get 0 1 0 stale 3\n".as_slice(),
                b"3 t0 0 get 0 1 0 index 3\n".as_slice(),
            )]
            .as_slice(),
            b"entry 0\n",
        ),
        // an answer to a call with another index
        (
            STALE,
            [(
                b"3 t0 0 get 0 1 0 stale 3\n".as_slice(),
                b"3 t0 0 get 0 1 1 stale 3\n".as_slice(),
            )]
            .as_slice(),
            b"entry 0\n",
        ),
        // no entries
        (
            EMPTY,
            [
                (b"0 end t0\n".as_slice(), b"".as_slice()),
                (b"1 release host s0\n", b""),
            ]
            .as_slice(),
            b"end\n",
        ),
        // no release of the root
        (
            EMPTY,
            [(b"1 release host s0\n".as_slice(), b"".as_slice())].as_slice(),
            b"end\n",
        ),
        // a heap that is too small
        (
            STALE,
            [(
                b"places 2 heap 256\n".as_slice(),
                b"places 2 heap 2\n".as_slice(),
            )]
            .as_slice(),
            b"event 0 0\n",
        ),
        // a stamp after the end of the task
        (
            STALE,
            [(
                b"3 t0 0 get 0 1 0 stale 3\n".as_slice(),
                b"3 t0 1 get 0 1 0 stale 3\n".as_slice(),
            )]
            .as_slice(),
            b"event 0 3\n",
        ),
        // an event whose stamp is past the entry that follows it
        (
            MADE,
            [(
                b"0 t0 0 make 3 at 0 1 0\n".as_slice(),
                b"0 t0 1 make 3 at 0 1 0\n".as_slice(),
            )]
            .as_slice(),
            b"event 0 0\n",
        ),
        // a close at another entry than the death
        (
            LOSS,
            [(b"0 3 close\n".as_slice(), b"0 4 close\n".as_slice())].as_slice(),
            b"event 1 0\n",
        ),
        // a dead place that is not closed
        (
            LOSS,
            [(b"0 3 close\n".as_slice(), b"".as_slice())].as_slice(),
            b"open 1\n",
        ),
    ] {
        let flawed = changed(rt.alloc(), bytes, lines)?;
        assert!(rt; is_answered(rt.alloc(), Question::Verify, &flawed, text, false));
        assert!(rt; is_answered(rt.alloc(), Question::Span, &flawed, text, false));
    }
    Ok(())
}

// Whether the bytes are refused for this cause.
fn is_refused(alloc: Global, bytes: &[u8], fault: CaseFault) -> bool {
    if bytes.len() > 65_536 {
        return false;
    }
    match answer(alloc, Question::Verify, bytes) {
        Ok(_) => false,
        Err(cause) => cause == fault,
    }
}

#[test]
fn what_can_not_be_judged(rt: HostRuntime) -> Result<(), NoMemory> {
    for (bytes, fault) in [
        (b"".as_slice(), CaseFault::Pair),
        (b"rx10 pair 07\nprint 7;", CaseFault::Pair),
        (b"rx10 pair 8\nprint 7", CaseFault::Pair),
        // of script and trace both bad, the script is told
        (
            b"rx10 pair 7\nprint 7rx10 trace 9\n",
            CaseFault::Syntax { at: 7 },
        ),
        (
            b"rx10 pair 8\nprint x;rx10 trace 9\n",
            CaseFault::Bad { rule: 1, node: 0 },
        ),
        (
            b"rx10 pair 8\nprint 7;rx10 trace 9\n",
            CaseFault::BadTrace { number: 1 },
        ),
        (b"rx10 pair 8\nprint 7;", CaseFault::BadTrace { number: 1 }),
    ] {
        assert!(rt; is_refused(rt.alloc(), bytes, fault));
    }
    let cut = changed(rt.alloc(), ORDINARY, &[(b"done\n", b"")])?;
    assert!(rt; is_refused(rt.alloc(), &cut, CaseFault::BadTrace { number: 18 }));
    Ok(())
}
