// A store by hand: a stale reference, a full heap, a closed store.
use crate::same::same;
use rx_base::{GlobalRef, Path, PlaceId, TaskId};
use rx_history::Journal;
use rx_rules::{Cell, PlaceEvent};
use rx_store::{Mark, Store, StoreFault};
use std::process::Abort;
use std::test::Fail;

const HERE: PlaceId = PlaceId(0);

fn mark(rt: &HostRuntime, stamp: u32) -> Mark {
    Mark {
        task: TaskId(0),
        stamp,
        path: Path::open(rt.alloc()),
    }
}

fn expect_cell(rt: &impl Abort, journal: &Journal, i: usize, expected: Cell) {
    assert!(rt; i < journal.len());
    match journal.item(i) {
        PlaceEvent::Done { cell, .. } => same(rt, *cell, expected),
        PlaceEvent::Close { .. } => panic!(rt; "a close"),
    }
}

#[test]
fn stale_reference(rt: HostRuntime) -> Result<(), Fail> {
    let mut store = Store::open(rt.alloc(), HERE, 256)?;
    store.reserve(4)?;
    let r = store.make(mark(&rt, 0), 3).expect(&rt, "room for 3");
    same(
        &rt,
        r,
        GlobalRef {
            home: HERE,
            start: 0,
            generation: 1,
        },
    );
    store.forget(mark(&rt, 0), r).expect(&rt, "a live block");
    let q = store.make(mark(&rt, 0), 3).expect(&rt, "room for 3");
    same(
        &rt,
        q,
        GlobalRef {
            home: HERE,
            start: 0,
            generation: 2,
        },
    );
    same(&rt, store.get(mark(&rt, 0), r, 0), Err(StoreFault::Stale));
    let journal = store.into_journal();
    assert!(rt; journal.len() == 4);
    expect_cell(&rt, &journal, 1, Cell::Forget { target: r });
    expect_cell(
        &rt,
        &journal,
        3,
        Cell::GetRefused {
            target: r,
            index: 0,
            stale: true,
        },
    );
    Ok(())
}

#[test]
fn full_heap(rt: HostRuntime) -> Result<(), Fail> {
    let mut store = Store::open(rt.alloc(), HERE, 8)?;
    store.reserve(5)?;
    let a = store.make(mark(&rt, 0), 4).expect(&rt, "room for 4");
    let b = store.make(mark(&rt, 0), 4).expect(&rt, "room for 4");
    same(
        &rt,
        b,
        GlobalRef {
            home: HERE,
            start: 4,
            generation: 2,
        },
    );
    store.forget(mark(&rt, 0), a).expect(&rt, "a live block");
    same(&rt, store.make(mark(&rt, 0), 5), Err(StoreFault::Full));
    let d = store.make(mark(&rt, 1), 4).expect(&rt, "room for 4");
    same(
        &rt,
        d,
        GlobalRef {
            home: HERE,
            start: 0,
            generation: 3,
        },
    );
    expect_cell(&rt, store.journal(), 3, Cell::MakeFull { words: 5 });
    Ok(())
}

#[test]
fn words_and_indexes(rt: HostRuntime) -> Result<(), Fail> {
    let mut store = Store::open(rt.alloc(), HERE, 8)?;
    store.reserve(4)?;
    let r = store.make(mark(&rt, 2), 2).expect(&rt, "room for 2");
    store.put(mark(&rt, 2), r, 1, 7).expect(&rt, "a word");
    same(&rt, store.get(mark(&rt, 1), r, 1), Ok(7));
    same(&rt, store.get(mark(&rt, 1), r, 2), Err(StoreFault::Index));
    assert!(rt; store.spare() == 0);
    Ok(())
}

#[test]
fn closed_store(rt: HostRuntime) -> Result<(), Fail> {
    let mut store = Store::open(rt.alloc(), HERE, 8)?;
    store.reserve(1)?;
    store.close(3);
    let r = GlobalRef {
        home: HERE,
        start: 0,
        generation: 1,
    };
    same(
        &rt,
        store.put(mark(&rt, 4), r, 0, 8),
        Err(StoreFault::Closed),
    );
    assert!(rt; store.journal().len() == 1);
    Ok(())
}
