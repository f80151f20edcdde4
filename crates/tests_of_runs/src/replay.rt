// Journals by hand: how far they are lawful.
use crate::same::same;
use rx_base::{GlobalRef, NoMemory, Path, PlaceId, TaskId};
use rx_history::Journal;
use rx_rules::{Cell, PlaceEvent};
use rx_verdict::lawful_events;
use std::test::Fail;

fn told(rt: &HostRuntime, stamp: u32, cell: Cell) -> PlaceEvent {
    PlaceEvent::Done {
        task: TaskId(0),
        stamp,
        cell,
        path: Path::open(rt.alloc()),
    }
}

fn block(home: u8, generation: u32) -> GlobalRef {
    GlobalRef {
        home: PlaceId(home),
        start: 0,
        generation,
    }
}

// A block, written, read, forgotten and then stale; and a close.
fn journal(rt: &HostRuntime, value: i64, home: u8) -> Result<Journal, NoMemory> {
    let mut journal = Journal::open(rt.alloc());
    journal.reserve(6)?;
    journal.add(told(
        rt,
        0,
        Cell::Make {
            words: 2,
            start: 0,
            generation: 1,
        },
    ));
    journal.add(told(
        rt,
        0,
        Cell::Put {
            target: block(home, 1),
            index: 1,
            value: 7,
        },
    ));
    journal.add(told(
        rt,
        1,
        Cell::Get {
            target: block(home, 1),
            index: 1,
            value,
        },
    ));
    journal.add(told(
        rt,
        1,
        Cell::Forget {
            target: block(home, 1),
        },
    ));
    journal.add(told(
        rt,
        2,
        Cell::ForgetStale {
            target: block(home, 1),
        },
    ));
    journal.add(PlaceEvent::Close { stamp: 2 });
    Ok(journal)
}

#[test]
fn answers_are_compared(rt: HostRuntime) -> Result<(), Fail> {
    same(&rt, lawful_events(rt.alloc(), 8, &journal(&rt, 7, 0)?)?, 6);
    same(&rt, lawful_events(rt.alloc(), 8, &journal(&rt, 7, 3)?)?, 6);
    same(&rt, lawful_events(rt.alloc(), 8, &journal(&rt, 8, 0)?)?, 2);
    same(&rt, lawful_events(rt.alloc(), 1, &journal(&rt, 7, 0)?)?, 0);
    Ok(())
}
