// What no clause says: that scripts are read, where the worked faults are, and that deep nesting costs no stack.
use crate::same::same;
use rx_script::{ScriptFault, read_script, write_script};
use std::alloc::Global;

// So many blocks in one another, with these bytes at the end of each.
fn nested(alloc: Global, front: &[u8], depth: u32, end: &[u8]) -> Result<Vec<u8>, ScriptFault> {
    let mut bytes = Vec::new(alloc);
    for _ in 0..depth {
        bytes.extend_from_slice(front)?;
    }
    for _ in 0..depth {
        bytes.extend_from_slice(end)?;
    }
    Ok(bytes)
}

// How many statements the outermost block has.
fn statements(alloc: Global, bytes: &[u8]) -> Option<u32> {
    if bytes.len() >= 70_000 {
        return None;
    }
    let Ok(script) = read_script(alloc, bytes) else {
        return None;
    };
    Some(script.block_len(script.top()))
}

// Where the first token starts that can't go on.
fn fault(alloc: Global, bytes: &[u8]) -> Option<u32> {
    if bytes.len() >= 70_000 {
        return None;
    }
    match read_script(alloc, bytes) {
        Err(ScriptFault::Syntax { at }) => Some(at),
        _ => None,
    }
}

// Scripts that go wrong, and where.
const FAULTS: &[(&[u8], u32)] = &[
    (b"print 7", 7),
    (b"print 7; pri", 9),
    (b"print 9223372036854775808;", 6),
    (b"print 7 # a", 11),
    (b"print 007;", 6),
    (b"print 7a;", 6),
    (b"set abcdefghijklmnopq = 1;", 4),
    (b"print 7;,", 8),
    (b"print 7; $", 9),
    (b"census;", 6),
    (b"census n = 1;", 9),
    (b"x = 1;", 0),
    (b"set 7 = 1;", 4),
    (b"set if = 1;", 4),
    (b"set x == 1;", 6),
    (b"set x = );", 8),
    (b"new x = 0;", 8),
    (b"new x = 65537;", 8),
    (b"repeat 1000001 { }", 7),
    (b"get x = y z", 10),
    (b"get x = y[1;", 11),
    (b"print (1 2);", 9),
    (b"print (1 + 2;", 12),
    (b"at 0 finish { }", 5),
    (b"async print", 6),
    (b"async { } }", 10),
    (b"async { finish { }", 18),
    (b"if x { } print 7;", 9),
    (b"if x { }", 8),
    (b"if x { } else { } else { }", 18),
    (b"try { } else { }", 8),
    (b"try { } catch at { }", 14),
    (b"try { } catch dead }", 19),
];

const SCRIPT: &[u8] = b"finish { at 1 async { print 7; } } print 8;";

// For each length, where that much of the script goes wrong, if it does.
const CUTS: &[Option<u32>] = &[
    None,
    Some(0),
    Some(0),
    Some(0),
    Some(0),
    Some(0),
    Some(6),
    Some(7),
    Some(8),
    Some(9),
    Some(9),
    Some(11),
    Some(12),
    Some(13),
    Some(14),
    Some(14),
    Some(14),
    Some(14),
    Some(14),
    Some(19),
    Some(20),
    Some(21),
    Some(22),
    Some(22),
    Some(22),
    Some(22),
    Some(22),
    Some(27),
    Some(28),
    Some(29),
    Some(30),
    Some(31),
    Some(32),
    Some(33),
    None,
    None,
    Some(35),
    Some(35),
    Some(35),
    Some(35),
    Some(40),
    Some(41),
    Some(42),
    None,
];

#[test]
fn scripts_are_read(rt: HostRuntime) {
    let every =
        b"set x = (1 + here); new a = 65536; get y = a[0]; put a[(x - 1)] = (y * 2); forget a; census n; print (x < y); \
        throw (x == y); async { } at 0 async { } at 1 { } finish { } if x { } else { } repeat 1000000 { } \
        try { } catch { } try { } catch dead { }";
    for (bytes, count) in [
        (b"".as_slice(), 0),
        (b" \t\r\n# print x;".as_slice(), 0),
        (b"print#a\n7;".as_slice(), 1),
        (b"print 9223372036854775807;".as_slice(), 1),
        (b"repeat 0 { set x = 1; set y = x; } print x;".as_slice(), 2),
        (every.as_slice(), 16),
    ] {
        same(&rt, statements(rt.alloc(), bytes), Some(count));
    }
}

#[test]
fn faults_have_their_place_and_a_script_is_cut_at_every_length(rt: HostRuntime) {
    for (bytes, at) in FAULTS {
        same(&rt, fault(rt.alloc(), bytes), Some(*at));
    }
    for (len, at) in CUTS.iter().enumerate() {
        let front = SCRIPT.get(..len).expect(&rt, "a front");
        same(&rt, fault(rt.alloc(), front), *at);
    }
}

#[test]
fn deep_nesting_is_answered(rt: HostRuntime) {
    let whole = nested(rt.alloc(), b"async{", 9_362, b"}").expect(&rt, "memory");
    same(&rt, statements(rt.alloc(), &whole), Some(1));
    let open = nested(rt.alloc(), b"async{", 10_922, b"").expect(&rt, "memory");
    same(&rt, fault(rt.alloc(), &open), Some(65_532));
    let others = nested(rt.alloc(), b"if 1{}else{", 5_957, b"").expect(&rt, "memory");
    same(&rt, fault(rt.alloc(), &others), Some(65_527));
    let firsts = nested(rt.alloc(), b"if 1{", 4_681, b"}else{}").expect(&rt, "memory");
    same(&rt, statements(rt.alloc(), &firsts), Some(1));
}

#[test]
fn a_script_is_written_with_one_blank_between_two_tokens(
    rt: HostRuntime,
) -> Result<(), ScriptFault> {
    for (bytes, text) in [
        (
            b"finish{print 7;}".as_slice(),
            b"finish { print 7 ; }\n".as_slice(),
        ),
        (b"# nothing\n", b"\n"),
        (
            b"set x=(0-5);new r=2;put r[0]=x;get y=r[(x==here)];forget r;census n;",
            b"set x = ( 0 - 5 ) ; new r = 2 ; put r [ 0 ] = x ; get y = r [ ( x == here ) ] ; forget r ; census n ;\n",
        ),
        (
            b"if 1{throw 2;}else{try{async{}}catch dead{repeat 2{at 1 async{}at 0{}}}}try{}catch{}",
            b"if 1 { throw 2 ; } else { try { async { } } catch dead { repeat 2 { at 1 async { } at 0 { } } } } try { } catch { }\n",
        ),
    ] {
        let script = read_script(rt.alloc(), bytes)?;
        let mut out = Vec::new(rt.alloc());
        write_script(&script, &mut out)?;
        same(&rt, out.as_slice(), text);
    }
    Ok(())
}
