// The verdict of the events and the closes.
ghost use Rattle.std.specs.Prelude.{◌<◌, ◌≤◌, ◌^◌, length, IfOk};
ghost use Rattle.rx_history.specs.Events.{events_of};
ghost use Rattle.rx_kills.specs.Deaths.{AreDeaths};
ghost use Rattle.rx_verdict.specs.Marked.{HasShape};
ghost use Rattle.rx_verdict.specs.Judged.{IsEventsVerdict};

use crate::{Marks, Verdict, first_flaw, first_unclosed};
use rx_base::NoMemory;
use rx_history::{History, Journals};
use std::alloc::Global;

/// The verdict where all entries are a part of a run and the last is a release of the root: `Event` with the first event that is
/// not sound, or else `Open` with the least place that died and was not closed, or else `Run`. The deaths are those of the history. It
/// takes time in proportion to the journals, and memory in proportion to the heap.
pub fn judge_events(
    alloc: Global,
    history: &History,
    deaths: &[Option<u32>; 16],
    journals: &Journals,
    marks: &Marks,
) -> Result<Verdict, NoMemory>
    requires some { 0 < history.now.setup.heap }
    requires most { history.now.setup.heap ≤ 4096 }
    requires deaths { AreDeaths history.now.entries deaths.now }
    requires few { length journals.now.journals ≤ 16 }
    requires shape { HasShape (events_of journals.now) marks.now }
    ensures { IfOk result (IsEventsVerdict history.now.setup.heap history.now.entries (events_of journals.now) marks.now) }
{
    match first_flaw(alloc, history, deaths, journals, marks)? {
        Some(at) => Ok(Verdict::Event {
            place: at.place,
            number: at.number,
        }),
        None => match first_unclosed(history, deaths, journals) {
            Some(place) => Ok(Verdict::Open { place }),
            None => Ok(Verdict::Run),
        },
    }
}
