// Worked words of each kind, and words that are nearly so.
use crate::same::same;
use rx_base::{Fault, GlobalRef, Kill, NoMemory, PlaceId, PlaceSet, ScopeId, TaskId};
use rx_fields::{
    Words, after_short, batch_part, below, block_field, count_field, first_line, is_number,
    is_same, keyword, kill, natural_field, nested_scope, next_task, number_field, outcome_part,
    path_field, place_field, scope_field, split_words, strip, task_field, thrown_part, way_field,
};
use std::alloc::Global;
use std::test::Fail;

// The words behind the first word of a line.
fn behind_first(line: &[u8]) -> Words<'_> {
    split_words(line).1
}

#[test]
fn numbers_have_one_spelling(rt: HostRuntime) {
    for (line, natural, signed, count) in [
        (b"n 0".as_slice(), Some(0), Some(0), None),
        (b"n 16", Some(16), Some(16), Some(16)),
        (b"n 17", Some(17), Some(17), None),
        (
            b"n 4294967295",
            Some(4_294_967_295),
            Some(4_294_967_295),
            None,
        ),
        (b"n 4294967296", None, Some(4_294_967_296), None),
        (b"n -5", None, Some(-5), None),
        (
            b"n -9223372036854775808",
            None,
            Some(-9_223_372_036_854_775_808),
            None,
        ),
        (b"n 9223372036854775808", None, None, None),
        (b"n 01", None, None, None),
        (b"n -0", None, None, None),
        (b"n +1", None, None, None),
        (b"n ", None, None, None),
        (b"n", None, None, None),
    ] {
        same(&rt, natural_field(&mut behind_first(line)), natural);
        same(&rt, number_field(&mut behind_first(line)), signed);
        same(&rt, count_field(&mut behind_first(line), 16), count);
    }
    same(&rt, below(b"1000000", 1_000_001), Some(1_000_000));
    same(&rt, below(b"1000001", 1_000_001), None);
    assert!(rt; is_number(b"4294967296", 4_294_967_296));
    assert!(rt; !is_number(b"00", 0));
    assert!(rt; after_short(b"12 end", 12).is_some());
    assert!(rt; after_short(b"12 end", 1).is_none());
}

#[test]
fn fields_have_their_kind(rt: HostRuntime) {
    same(
        &rt,
        place_field(&mut behind_first(b"n 2"), 3),
        Some(PlaceId(2)),
    );
    same(&rt, place_field(&mut behind_first(b"n 3"), 3), None);
    same(
        &rt,
        task_field(&mut behind_first(b"n t4294967295")),
        Some(TaskId(4_294_967_295)),
    );
    same(&rt, task_field(&mut behind_first(b"n s1")), None);
    same(
        &rt,
        scope_field(&mut behind_first(b"n s1")),
        Some(ScopeId(1)),
    );
    same(&rt, scope_field(&mut behind_first(b"n s")), None);
    let nested = Some((ScopeId(1), ScopeId(0)));
    assert!(rt; nested_scope(&mut behind_first(b"n s1 in s0")) == nested);
    assert!(rt; nested_scope(&mut behind_first(b"n s1 s0")).is_none());
    let way = Some((PlaceId(0), PlaceId(2)));
    assert!(rt; way_field(&mut behind_first(b"n 0 2"), 3) == way);
    assert!(rt; way_field(&mut behind_first(b"n 0 3"), 3).is_none());
    let block = GlobalRef {
        home: PlaceId(1),
        start: 4,
        generation: 7,
    };
    same(
        &rt,
        block_field(&mut behind_first(b"n 4 7"), 1),
        Some(block),
    );
    same(&rt, block_field(&mut behind_first(b"n 4"), 1), None);
    assert!(rt; strip(b"dead:1", b"dead:") == Some(b"1".as_slice()));
    assert!(rt; strip(b"dea", b"dead:").is_none());
}

#[test]
fn tasks_paths_and_kills_are_read(rt: HostRuntime) -> Result<(), Fail> {
    let mut words = behind_first(b"n t3 in");
    assert!(rt; !keyword(&mut words, b"in"));
    same(&rt, next_task(&mut words), Some(TaskId(3)));
    same(&rt, next_task(&mut words), None);
    assert!(rt; keyword(&mut words, b"in"));
    match path_field(rt.alloc(), &mut behind_first(b"n 0.10.4294967295"))? {
        Some(path) => {
            let mut short = [0; 7];
            let numbers = path.numbers(&mut short);
            assert!(rt; numbers == [0, 10, 4_294_967_295].as_slice());
        }
        None => assert!(rt; false),
    }
    assert!(rt; path_field(rt.alloc(), &mut behind_first(b"n 0..1"))?.is_none());
    let place = PlaceId(15);
    same(
        &rt,
        kill(b"15@1000000"),
        Some(Kill {
            place,
            moment: 1_000_000,
        }),
    );
    same(&rt, kill(b"16@0"), None);
    Ok(())
}

#[test]
fn lines_and_words_are_cut(rt: HostRuntime) {
    assert!(rt;
        first_line(b"0 end t0\n1 end") == Some((b"0 end t0".as_slice(), b"1 end".as_slice()))
    );
    assert!(rt; first_line(b"0 end t0").is_none());
    let (first, mut words) = split_words(b"end t0  ");
    assert!(rt; is_same(first, b"end"));
    assert!(rt; !is_same(first, b"and"));
    assert!(rt; words.next() == Some(b"t0".as_slice()));
    assert!(rt; words.next() == Some(b"".as_slice()));
    assert!(rt; !words.is_empty());
    assert!(rt; words.next() == Some(b"".as_slice()));
    assert!(rt; words.next().is_none());
    assert!(rt; words.is_empty());
}

// The sets of a `release` and how many faults it raises, of which the second is `code:-5` where there are three; none where it is bad.
fn outcome(
    alloc: Global,
    words: &mut Words<'_>,
) -> Result<Option<(PlaceSet, u32, usize)>, NoMemory> {
    match outcome_part(alloc, words, 3)? {
        Some((lost, masked, thrown)) if thrown.len() != 3 || thrown.item(1) == Fault::Thrown(-5) =>
            { Ok(Some((lost, masked, thrown.len()))) }
        _ => Ok(None),
    }
}

#[test]
fn parts_may_be_missing(rt: HostRuntime) -> Result<(), Fail> {
    let mut words = behind_first(b"n lost 1 2 masked 10 thrown dead:1 code:-5 stale | 0.1 2");
    same(
        &rt,
        outcome(rt.alloc(), &mut words)?,
        Some((PlaceSet(6), 10, 3)),
    );
    match batch_part(rt.alloc(), &mut words)? {
        Some(batch) => assert!(rt; batch.len() == 2),
        None => assert!(rt; false),
    }
    assert!(rt; words.is_empty());
    same(
        &rt,
        outcome(rt.alloc(), &mut words)?,
        Some((PlaceSet(0), 0, 0)),
    );
    for line in [
        b"n lost".as_slice(),
        b"n lost 2 1",
        b"n lost 3",
        b"n masked 0",
        b"n thrown",
        b"n thrown dead:3",
    ] {
        same(&rt, outcome(rt.alloc(), &mut behind_first(line))?, None);
    }
    assert!(rt; thrown_part(rt.alloc(), &mut behind_first(b"n thrown"), 3)?.is_none());
    assert!(rt; batch_part(rt.alloc(), &mut behind_first(b"n |"))?.is_none());
    Ok(())
}
