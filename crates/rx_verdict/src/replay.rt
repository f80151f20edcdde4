// A journal, replayed on blocks.
ghost use Rattle.std.specs.Prelude.{◌≡◌, ◌↔◌, ◌-◌, ◌<◌, ◌≤◌, ◌^◌, IsTrue, IfOk};
ghost use Rattle.rx_rules.specs.Run.{stamp_of};
ghost use Rattle.rx_verdict.specs.Lawful.{CellAsksSome, IsLawfulCount};
ghost use Rattle.rx_verdict.specs.Inside.Next.{Follows, is_close};

use crate::asking::{ask, is_answer};
use rx_base::NoMemory;
use rx_history::Journal;
use rx_rules::{Cell, PlaceEvent};
use rx_store::Blocks;
use std::alloc::Global;

/// How many of the first events of a journal are those of a store of so many words: the law of stores allows each, no stamp falls,
/// and none asks for a block of no words, as no statement does. Where there are more events, this fails with the next one. Of a
/// reference its start and its generation are looked at, and not its place. It takes time in proportion to the journal, and memory
/// in proportion to the heap; 2^32 events and more it answers as out of memory.
pub fn lawful_events(alloc: Global, heap: u32, journal: &Journal) -> Result<u32, NoMemory>
    requires some { 0 < heap }
    requires most { heap ≤ 4096 }
    ensures { IfOk result (IsLawfulCount heap journal.now.events) }
{
    let Ok(count) = u32::try_from(journal.len()) else {
        return Err(NoMemory);
    };
    let mut blocks = Blocks::open(alloc, heap)?;
    let mut last = 0;
    let mut closed = false;
    for i in 0..count {
        let event = journal.item(i as usize);
        if closed {
            return Ok(i);
        }
        if !follows(&mut blocks, last, event) {
            return Ok(i);
        }
        last = stamp_of(event);
        closed = is_close(event);
    }
    Ok(count)
}

// Whether the event may stand next. If so, the blocks have done what it tells.
fn follows(blocks: &mut Blocks, last: u32, event: &PlaceEvent) -> bool
    requires few { blocks.old.made < 2 ^ 32 - 1 }
    ensures { Follows blocks.old blocks.new last event.now result }
{
    match event {
        PlaceEvent::Close { stamp } => last <= *stamp,
        PlaceEvent::Done { stamp, cell, .. } => {
            if *stamp < last || !asks_some(*cell) {
                return false;
            }
            is_answer(ask(blocks, *cell), *cell)
        }
    }
}

// Whether a make asks for one word or more.
fn asks_some(cell: Cell) -> bool
    ensures { IsTrue result ↔ CellAsksSome cell }
{
    match cell {
        Cell::Make { words, .. } => words > 0,
        Cell::MakeFull { words } => words > 0,
        _ => true,
    }
}

// The stamp of an event.
fn stamp_of(event: &PlaceEvent) -> u32
    ensures { result ≡ stamp_of event.now }
{
    match event {
        PlaceEvent::Done { stamp, .. } => *stamp,
        PlaceEvent::Close { stamp } => *stamp,
    }
}

// Whether an event is a close.
fn is_close(event: &PlaceEvent) -> bool
    ensures { result ≡ is_close event.now }
{
    match event {
        PlaceEvent::Done { .. } => false,
        PlaceEvent::Close { .. } => true,
    }
}
