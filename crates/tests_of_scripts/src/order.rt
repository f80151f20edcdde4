// What no clause says: the worked scripts, and paths that are in no order.
use crate::same::same;
use rx_base::{NoMemory, Path};
use rx_check::check;
use rx_order::before;
use rx_script::{ScriptFault, read_script};
use std::alloc::Global;
use std::test::Fail;

fn path(alloc: Global, numbers: &[u32]) -> Result<Path, NoMemory> {
    let mut path = Path::open(alloc);
    for number in numbers {
        path.push(*number)?;
    }
    Ok(path)
}

// Whether x is before y, and whether y is before x.
fn answers(
    alloc: Global,
    script: &[u8],
    x: &[u32],
    y: &[u32],
) -> Result<(bool, bool), ScriptFault> {
    // No script of the tests is as long.
    if script.len() > 1_000 {
        return Err(ScriptFault::NoMemory);
    }
    let Ok(program) = check(alloc, read_script(alloc, script)?) else {
        return Err(ScriptFault::NoMemory);
    };
    let x = path(alloc, x).map_err(|_| ScriptFault::NoMemory)?;
    let y = path(alloc, y).map_err(|_| ScriptFault::NoMemory)?;
    Ok((before(&program, &x, &y), before(&program, &y, &x)))
}

// A script, two paths, and whether the first is before the second and the second before the first.
type Row = (&'static [u8], &'static [u32], &'static [u32], (bool, bool));

const ROWS: &[Row] = &[
    (b"print 1; print 2;", &[0], &[1], (true, false)),
    (b"print 1; print 2;", &[0], &[0], (false, false)),
    (b"print 1; print 2;", &[2], &[3], (false, false)),
    (b"print 1; print 2;", &[], &[0], (false, false)),
    (
        b"async { print 1; } print 2;",
        &[0, 0],
        &[1],
        (false, false),
    ),
    (b"async { print 1; } print 2;", &[0], &[1], (false, false)),
    (
        b"at 1 async { print 1; } print 2;",
        &[0, 0],
        &[1],
        (false, false),
    ),
    (b"print 1; async { print 2; }", &[0], &[1, 0], (true, false)),
    (
        b"async { print 1; print 2; }",
        &[0, 0],
        &[0, 1],
        (true, false),
    ),
    (
        b"finish { async { print 1; } } print 2;",
        &[0, 0, 0],
        &[1],
        (true, false),
    ),
    (
        b"async { finish { print 1; } } print 2;",
        &[0, 0, 0],
        &[1],
        (false, false),
    ),
    (
        b"finish { print 1; } print 2;",
        &[0],
        &[0, 0],
        (false, false),
    ),
    (
        b"try { at 1 { finish { at 2 async { print 1; } } } } catch dead { print 9; } print 2;",
        &[0, 0, 0, 0, 0, 0],
        &[1],
        (true, false),
    ),
    (
        b"if 1 { print 1; } else { print 2; }",
        &[0, 0, 0],
        &[0, 1, 0],
        (false, false),
    ),
    (
        b"if 1 { print 1; print 2; } else { }",
        &[0, 0, 0],
        &[0, 0, 1],
        (true, false),
    ),
    (
        b"if 1 { } else { print 1; } print 2;",
        &[0, 1, 0],
        &[1],
        (true, false),
    ),
    (
        b"repeat 3 { print 1; }",
        &[0, 0, 0],
        &[0, 2, 0],
        (true, false),
    ),
    (
        b"repeat 3 { print 1; print 2; }",
        &[0, 1, 1],
        &[0, 2, 0],
        (true, false),
    ),
    (
        b"repeat 3 { async { print 1; } }",
        &[0, 0, 0, 0],
        &[0, 2, 0],
        (false, false),
    ),
    (
        b"try { print 1; } catch { print 2; }",
        &[0, 0, 0],
        &[0, 1, 0],
        (true, false),
    ),
    (
        b"try { async { print 1; } } catch { print 2; }",
        &[0, 0, 0, 0],
        &[0, 1, 0],
        (false, false),
    ),
    (
        b"try { } catch { print 1; } print 2;",
        &[0, 1, 0],
        &[1],
        (true, false),
    ),
    (b"at 1 { print 1; } print 2;", &[0], &[0, 0], (false, false)),
    (b"set x = 1; print x;", &[0], &[1], (true, false)),
    (b"census x; print x;", &[0], &[1], (true, false)),
    (b"census x;", &[0], &[0, 0], (false, false)),
];

#[test]
fn statements_stand_in_their_order(rt: HostRuntime) -> Result<(), Fail> {
    for (script, x, y, want) in ROWS {
        same(&rt, answers(rt.alloc(), script, x, y)?, *want);
    }
    Ok(())
}
