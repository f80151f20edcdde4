// The worked texts, and their fronts.
ghost use Rattle.std.specs.Prelude.{◌<◌, ◌^◌, length};

use crate::same::same;
use rx_trace::{TraceFault, read_trace, write_trace};
use std::alloc::Global;
use std::test::Fail;

const ORDINARY: &[u8] =
    b"rx10 trace 2\nplaces 2 heap 256\nkills\njoins\nhistory\n0 open t0 s1 in s0 0\n1 spawn t0 t1 in s1 0 1 0.0\n2 wait t0 s1\n\
        3 arrive t1 1\n4 print t1 7 0.0.0\n5 end t1\n6 release t0 s1\n7 print t0 8 1\n8 end t0\n9 release host s0\n\
        journal 0\njournal 1\ndone\n";

const LOSS: &[u8] =
    b"rx10 trace 2\nplaces 2 heap 256\nkills 1@3\njoins\nhistory\n0 open t0 s1 in s0 0\n1 spawn t0 t1 in s1 0 1 0.0\n\
        2 wait t0 s1\n3 death 1\n4 release t0 s1 lost 1\n5 end t0 thrown dead:1 | 0.1 2\n\
        6 release host s0 thrown dead:1 code:-5\njournal 0\n0 t0 1 make 4 at 0 1 0\n1 t0 1 get 0 1 -1 index 0\n\
        journal 1\n0 3 close\ndone\n";

const JOINED: &[u8] =
    b"rx10 trace 2\nplaces 1 heap 256\nkills 1@4\njoins 0 4\nhistory\n0 join 1\n1 census t0 2 0\n\
        2 open t0 s1 in s0 0\n3 wait t0 s1\n4 join 2\n5 death 1\n6 release t0 s1 lost 1 2 masked 4294967295 thrown noplace\n\
        7 release host s0 masked 10\njournal 0\njournal 1\n0 5 close\njournal 2\ndone\n";

// The number of the bad line, or 0 where there is none.
fn bad_line(alloc: Global, bytes: &[u8]) -> u32
    requires { length bytes.now < 2 ^ 31 }
{
    match read_trace(alloc, bytes) {
        Err(TraceFault::BadLine { number }) => number,
        _ => 0,
    }
}

// Whether a text is read, and written again as it was.
fn comes_back(alloc: Global, bytes: &[u8]) -> bool
    requires { length bytes.now < 2 ^ 31 }
{
    let Ok((history, journals)) = read_trace(alloc, bytes) else {
        return false;
    };
    let mut out = Vec::new(alloc);
    match write_trace(&history, &journals, &mut out) {
        Ok(()) => out.as_slice() == bytes,
        Err(_) => false,
    }
}

#[test]
fn texts_come_back_and_each_front_has_its_bad_line(rt: HostRuntime) {
    for text in [ORDINARY, LOSS, JOINED] {
        assert!(rt; comes_back(rt.alloc(), text));
    }
    let mut bad: u32 = 1;
    for i in 0..LOSS.len() {
        same(&rt, bad_line(rt.alloc(), &LOSS[..i]), bad);
        if LOSS[i] == b'\n' {
            bad = bad.saturating_add(1);
        }
    }
    same(&rt, bad, 19);
}

#[test]
fn bad_lines_are_counted_from_one(rt: HostRuntime) {
    for (text, want) in [
        (b"".as_slice(), 1),
        (b"rx10 trace 1\nplaces 1 heap 1\n", 1),
        (b"rx10 trace 2\nplaces 17 heap 1\n", 2),
        (b"rx10 trace 2\nplaces 1 heap 01\n", 2),
        (b"rx10 trace 2\nplaces 1 heap 1 \n", 2),
        (b"rx10 trace 2\nplaces 3 heap 1\nkills 2@4 1@4\n", 3),
        (b"rx10 trace 2\nplaces 3 heap 1\nkills 1@4 2@4 1@5\n", 3),
        (
            b"rx10 trace 2\nplaces 1 heap 1\nkills\njoins\nhistory\n0 print t0 -0 0\n",
            6,
        ),
        (
            b"rx10 trace 2\nplaces 1 heap 1\nkills\njoins\nhistory\n0 print t0 1 0\n2 end t0\n",
            7,
        ),
        (
            b"rx10 trace 2\nplaces 1 heap 1\nkills\njoins\nhistory\njournal 0\ndone\n\n",
            8,
        ),
        (
            b"rx10 trace 2\nplaces 1 heap 1\nkills\njoins\nhistory\n0 release host s0 masked 0\n",
            6,
        ),
        (
            b"rx10 trace 2\nplaces 1 heap 1\nkills\njoins 0\nhistory\njournal 0\ndone\n",
            7,
        ),
        (b"rx10 trace 2\nplaces 1 heap 1\nkills\nhistory\n", 4),
        (b"rx10 trace 2\nplaces 1 heap 1\nkills\njoins 3 2\n", 4),
        (b"rx10 trace 2\nplaces 15 heap 1\nkills\njoins 0 0\n", 4),
        (b"rx10 trace 2\nplaces 2 heap 1\nkills 2@4\njoins\n", 4),
        (b"rx10 trace 2\nplaces 2 heap 1\nkills 2@4\njoins 5\n", 4),
        (b"rx10 trace 2\nplaces 2 heap 1\nkills 2@5\njoins 5\n", 5),
    ] {
        same(&rt, bad_line(rt.alloc(), text), want);
    }
}
