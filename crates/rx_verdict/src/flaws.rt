// The first event that has no cause.
ghost use Rattle.std.specs.Prelude.{◌≡◌, ◌↔◌, ◌<◌, ◌≤◌, ◌^◌, length, IsTrue, IfOk};
ghost use Rattle.rx_history.specs.Events.{events_of};
ghost use Rattle.rx_kills.specs.Deaths.{AreDeaths};
ghost use Rattle.rx_verdict.specs.Lawful.{WantsSome};
ghost use Rattle.rx_verdict.specs.Marked.{row_at, HasShape};
ghost use Rattle.rx_verdict.specs.Flaws.{CauseBy, IsFirstIn, IsFirstFlaw};

use crate::{Marks, lawful_events};
use rx_base::{NoMemory, PlaceId};
use rx_history::{History, Journal, Journals};
use rx_rules::PlaceEvent;
use std::alloc::Global;

/// An event, by the place of its journal and its position there, from 0.
#[derive(Clone, Copy, Debug, PartialEq, Eq)]
pub struct EventAt {
    pub place: PlaceId,
    pub number: u32,
}

/// The first event, by place and then by position, that is not sound: up to it the journal is to be lawful, and it is to be marked,
/// or a close with the number of its place's death, of which these are those of the history. None comes exactly where all events are
/// sound. It takes time in proportion to the journals, and memory in proportion to the heap.
pub fn first_flaw(
    alloc: Global,
    history: &History,
    deaths: &[Option<u32>; 16],
    journals: &Journals,
    marks: &Marks,
) -> Result<Option<EventAt>, NoMemory>
    requires some { 0 < history.now.setup.heap }
    requires most { history.now.setup.heap ≤ 4096 }
    requires deaths { AreDeaths history.now.entries deaths.now }
    requires few { length journals.now.journals ≤ 16 }
    requires shape { HasShape (events_of journals.now) marks.now }
    ensures { IfOk result (IsFirstFlaw history.now.setup.heap history.now.entries (events_of journals.now) marks.now) }
{
    for p in 0..journals.len() {
        let place = PlaceId(p as u8);
        let found = first_in(
            alloc,
            history.setup.heap,
            place,
            deaths[p],
            journals.item(p),
            marks,
        )?;
        match found {
            Some(number) => return Ok(Some(EventAt { place, number })),
            None => {}
        }
    }
    Ok(None)
}

// The first event of one journal that is not sound.
fn first_in(
    alloc: Global,
    heap: u32,
    place: PlaceId,
    death: Option<u32>,
    journal: &Journal,
    marks: &Marks,
) -> Result<Option<u32>, NoMemory>
    requires some { 0 < heap }
    requires most { heap ≤ 4096 }
    requires row { place.0 < length marks.now }
    requires shape { length (row_at marks.now place.0) ≡ length journal.now.events }
    ensures { IfOk result (IsFirstIn heap death journal.now.events (row_at marks.now place.0)) }
{
    let lawful = lawful_events(alloc, heap, journal)?;
    for number in 0..lawful {
        let event = journal.item(number as usize);
        if !has_cause(death, marks.is_marked(place, number as usize), event) {
            return Ok(Some(number));
        }
    }
    if (lawful as usize) < journal.len() {
        Ok(Some(lawful))
    } else {
        Ok(None)
    }
}

// Whether an event is marked, or a close with the number of the place's death.
fn has_cause(death: Option<u32>, marked: bool, event: &PlaceEvent) -> bool
    requires { WantsSome event.now }
    ensures { IsTrue result ↔ CauseBy death marked event.now }
{
    match event {
        PlaceEvent::Done { .. } => marked,
        PlaceEvent::Close { stamp } => match death {
            Some(number) => number == *stamp,
            None => false,
        },
    }
}
