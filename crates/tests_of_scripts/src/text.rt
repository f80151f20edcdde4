// Whether the definitions say what is meant, by numbers and texts from outside.
use crate::same::same;
use rx_base::{NoMemory, Path};
use rx_text::{put_natural, put_num, put_path, scan_num};

// Numbers, and how each is written.
const NUMBERS: &[(i64, &[u8])] = &[
    (0, b"0"),
    (7, b"7"),
    (-1, b"-1"),
    (i64::MIN, b"-9223372036854775808"),
    (i64::MAX, b"9223372036854775807"),
];

// Writes one number alone.
fn put_alone(out: &mut Vec<u8>, n: i64) -> Result<(), NoMemory> {
    out.clear();
    put_num(out, n)
}

// Writes the empty path behind a word.
fn put_empty_path(out: &mut Vec<u8>, path: &Path) -> Result<(), NoMemory> {
    out.clear();
    out.extend_from_slice(b"print ")?;
    put_path(out, path)
}

// Lengthens the path by three numbers, writes it, and then one number more.
fn put_longer_path(out: &mut Vec<u8>, path: &mut Path) -> Result<(), NoMemory> {
    path.push(1)?;
    path.push(0)?;
    path.push(u32::MAX)?;
    put_path(out, path)?;
    put_natural(out, 10)
}

#[test]
fn numbers_are_decimal_and_paths_are_joined_by_dots(rt: HostRuntime) {
    let mut out = Vec::new(rt.alloc());
    for (n, text) in NUMBERS {
        assert!(rt; put_alone(&mut out, *n).is_ok());
        same(&rt, (*n, out.as_slice()), (*n, *text));
    }
    let mut path = Path::open(rt.alloc());
    assert!(rt; put_empty_path(&mut out, &path).is_ok());
    same(&rt, out.as_slice(), b"print ".as_slice());
    assert!(rt; put_longer_path(&mut out, &mut path).is_ok());
    same(&rt, out.as_slice(), b"print 1.0.429496729510".as_slice());
}

// Texts, and the number with which each begins and how many bytes it has.
const SCANNED: &[(&[u8], Option<(i64, usize)>)] = &[
    (b"0", Some((0, 1))),
    (b"7", Some((7, 1))),
    (b"-1", Some((-1, 2))),
    (b"12a", Some((12, 2))),
    (b"3.4", Some((3, 1))),
    (b"9223372036854775807", Some((i64::MAX, 19))),
    (b"-9223372036854775808", Some((i64::MIN, 20))),
    (b"9223372036854775808", None),
    (b"-9223372036854775809", None),
    (b"01", None),
    (b"00", None),
    (b"-0", None),
    (b"-07", None),
    (b"+7", None),
    (b"--7", None),
    (b" 7", None),
    (b"a", None),
    (b"-", None),
    (b"", None),
];

#[test]
fn only_the_one_spelling_is_scanned(rt: HostRuntime) {
    for (text, want) in SCANNED {
        same(&rt, scan_num(text, 0), *want);
    }
    same(&rt, scan_num(b"0@12 ", 2), Some((12, 4)));
    same(&rt, scan_num(b"0@12", 4), None);
}
