// What no clause says: that numbers are written at all.
use crate::same::same;
use rx_base::{Batch, Faults, Path, PlaceId, PlaceSet, ScopeId, TaskId};
use rx_gen::{counts, put_counts};
use rx_history::{Act, Entry, History, JoinList, KillList, Setup};
use std::test::Fail;

// A release that names two places is one loss, and one that names none is no loss. A join and a census count as entries alone.
#[test]
fn numbers_of_a_history_are_written(rt: HostRuntime) -> Result<(), Fail> {
    let alloc = rt.alloc();
    let setup = Setup {
        places: 3,
        heap: 256,
        kills: KillList::open(alloc),
        joins: JoinList::open(alloc),
    };
    let mut h = History::open(alloc, setup);
    h.reserve(7)?;
    h.add(Entry::Step {
        task: TaskId(0),
        act: Act::Spawn {
            child: TaskId(1),
            scope: ScopeId(1),
            from: PlaceId(0),
            to: PlaceId(1),
            path: Path::open(alloc),
        },
        batch: Batch::open(alloc),
    });
    h.add(Entry::Step {
        task: TaskId(1),
        act: Act::Print {
            value: 7,
            path: Path::open(alloc),
        },
        batch: Batch::open(alloc),
    });
    h.add(Entry::Join { place: PlaceId(3) });
    h.add(Entry::Step {
        task: TaskId(0),
        act: Act::Census {
            places: 4,
            path: Path::open(alloc),
        },
        batch: Batch::open(alloc),
    });
    h.add(Entry::Death { place: PlaceId(1) });
    h.add(Entry::Step {
        task: TaskId(0),
        act: Act::Release {
            scope: ScopeId(1),
            lost: PlaceSet::empty().with(PlaceId(1)).with(PlaceId(2)),
            masked: 1,
            thrown: Faults::open(alloc),
        },
        batch: Batch::open(alloc),
    });
    h.add(Entry::Root {
        lost: PlaceSet::empty(),
        masked: 0,
        thrown: Faults::open(alloc),
    });
    let mut out = b"before\n".to_vec(alloc)?;
    put_counts(&counts(&h), &mut out)?;
    same(
        &rt,
        out.as_slice(),
        b"before\nentries 7\ntasks 2\nprints 1\ndeaths 1\nlosses 1\n".as_slice(),
    );
    Ok(())
}
