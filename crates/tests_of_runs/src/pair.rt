// What no clause shows: that pairs are cut at all, and that what is nearly a first line is none.
use rx_answers::split_pair;

#[test]
fn pairs_are_cut_behind_their_scripts(rt: HostRuntime) {
    for (bytes, parts) in [
        (
            b"rx10 pair 8\nprint 7;rx10".as_slice(),
            Some((b"print 7;".as_slice(), b"rx10".as_slice())),
        ),
        (b"rx10 pair 0\n", Some((b"", b""))),
        (b"rx10 pair 2\n\n\n\n", Some((b"\n\n", b"\n"))),
        (b"", None),
        (b"rx10 pair 1", None),
        (b"rx10 pair 1\n", None),
        (b"rx10 pair 07\nprint 7;rx10", None),
        (b"rx10 pair -0\n", None),
        (b"rx10 pair 65537\n", None),
        (b"rx10 pair  1\n\n", None),
        (b"rx10 pair 1 \n\n", None),
        (b"rx10 pair 1\r\n\n", None),
        (b" rx10 pair 1\n\n", None),
    ] {
        assert!(rt; split_pair(bytes) == parts);
    }
}
