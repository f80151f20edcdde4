// What no clause says: that scripts are answered at all, that deep nesting costs no stack, and that programs may be moved and
// shared between threads.
use rx_check::{CheckCause, Program, check};
use rx_script::read_script;
use std::alloc::{AllocError, Global};

// So many times the front, then the inside, then as often the end.
fn nested(
    alloc: Global,
    front: &[u8],
    depth: u32,
    inside: &[u8],
    end: &[u8],
) -> Result<Vec<u8>, AllocError> {
    let mut bytes = Vec::new(alloc);
    for _ in 0..depth {
        bytes.extend_from_slice(front)?;
    }
    bytes.extend_from_slice(inside)?;
    for _ in 0..depth {
        bytes.extend_from_slice(end)?;
    }
    Ok(bytes)
}

// `set` of so many names.
fn names(alloc: Global, count: u8) -> Result<Vec<u8>, AllocError> {
    let mut bytes = Vec::new(alloc);
    for i in 0..count {
        bytes.extend_from_slice(&[
            b's',
            b'e',
            b't',
            b' ',
            b'n',
            b'0' + i / 10 % 10,
            b'0' + i % 10,
        ])?;
        bytes.extend_from_slice(b" = 1;")?;
    }
    Ok(bytes)
}

// What is told of a script: its work, or the rule that it breaks and the node.
#[derive(Clone, Copy, PartialEq, Eq)]
enum Told {
    Work(u64),
    Bad(u8, u32),
    Neither,
}

use Told::{Bad, Neither, Work};

fn told_of(alloc: Global, bytes: &[u8]) -> Told {
    if bytes.len() > 65_536 {
        return Neither;
    }
    let Ok(script) = read_script(alloc, bytes) else {
        return Neither;
    };
    match check(alloc, script) {
        Ok(program) => Work(program.work()),
        Err(fault) => match fault.cause {
            CheckCause::Bad { rule, node } => Bad(rule, node),
            CheckCause::NoMemory => Neither,
        },
    }
}

// Of a script that breaks several rules the least statement is told, and of its rules the least.
const SCRIPTS: &[(&[u8], Told)] = &[
    (b"finish { at 1 async { print 7; } } print 8;", Work(4)),
    (b"", Work(0)),
    (b"census n; at (n - 1) { print n; }", Work(3)),
    (b"if 1 { print 1; } else { }", Work(2)),
    (b"repeat 9 { repeat 11109 { } }", Work(100_000)),
    (b"repeat 9 { repeat 11109 { } } print 1;", Bad(5, 0)),
    (b"print x;", Bad(1, 0)),
    (b"set x = 1; forget x;", Bad(2, 1)),
    (b"new r = 1; print (r + x);", Bad(1, 1)),
    (b"new r = 1; print r; print x;", Bad(2, 1)),
    (b"if 1 { set x = 1; print x; } else { print x; }", Bad(1, 3)),
    (b"finish { set x = 1; } print x;", Bad(1, 2)),
    (b"finish { census x; } print x;", Bad(1, 2)),
    (b"set x = x;", Bad(1, 0)),
    (b"set x = 1; finish { new x = 2; }", Bad(2, 2)),
    (b"census x; forget x;", Bad(2, 1)),
    (b"census x; new x = 2;", Bad(2, 1)),
    (b"repeat 1000000 { print x; }", Bad(1, 1)),
];

// Values of the type may be moved to another thread.
fn may_move<T: Send>() {}

// Values of the type may be shared between threads.
fn may_share<T: Sync>() {}

#[test]
fn scripts_have_their_work_or_break_a_rule(rt: HostRuntime) {
    may_move::<Program>();
    may_share::<Program>();
    for (bytes, want) in SCRIPTS {
        assert!(rt; told_of(rt.alloc(), bytes) == *want);
    }
    for (depth, want) in [(32, Work(33)), (33, Bad(3, 33))] {
        let bytes = nested(rt.alloc(), b"finish {", depth, b"print 1;", b"}").expect(&rt, "memory");
        assert!(rt; told_of(rt.alloc(), &bytes) == want);
    }
    for (count, want) in [(32, Work(32)), (33, Bad(4, 32))] {
        let bytes = names(rt.alloc(), count).expect(&rt, "memory");
        assert!(rt; told_of(rt.alloc(), &bytes) == want);
    }
}

// Pairs of parentheses as deep as the bytes go: the unknown name in the innermost comes before the depth.
#[test]
fn deep_expressions_cost_no_stack(rt: HostRuntime) {
    for (inside, want) in [(b"1", Bad(3, 0)), (b"x", Bad(1, 0))] {
        let deep = nested(rt.alloc(), b"(", 13_000, inside, b"+1)").expect(&rt, "memory");
        let bytes = nested(rt.alloc(), b"print ", 1, &deep, b";").expect(&rt, "memory");
        assert!(rt; told_of(rt.alloc(), &bytes) == want);
    }
}
