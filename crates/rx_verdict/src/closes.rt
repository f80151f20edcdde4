// Places that died and were not closed.
ghost use Rattle.std.specs.Prelude.{◌≡◌, ◌↔◌, ◌<◌, ◌≤◌, ◌^◌, [], false, length, IsTrue};
ghost use Rattle.std.specs.List.{filter_map};
ghost use Rattle.rx_rules.specs.Run.{close_in};
ghost use Rattle.rx_history.specs.Events.{events_of};
ghost use Rattle.rx_kills.specs.Deaths.{AreDeaths};
ghost use Rattle.rx_verdict.specs.Closes.{IsFirstUnclosed};

use rx_base::PlaceId;
use rx_history::{History, Journal, Journals};
use rx_rules::PlaceEvent;

/// The least place that dies in the history, of which these are the deaths, and whose journal has no close. None comes exactly where
/// there is no such place. No memory is taken.
pub fn first_unclosed(
    history: &History,
    deaths: &[Option<u32>; 16],
    journals: &Journals,
) -> Option<PlaceId>
    requires deaths { AreDeaths history.now.entries deaths.now }
    requires few { length journals.now.journals ≤ 16 }
    ensures { IsFirstUnclosed history.now.entries (events_of journals.now) result }
{
    for p in 0..journals.len() {
        if deaths[p].is_some() && !has_close(journals.item(p)) {
            return Some(PlaceId(p as u8));
        }
    }
    None
}

// Whether a journal has a close.
fn has_close(journal: &Journal) -> bool
    ensures some { IsTrue result → 0 < length (filter_map close_in journal.now.events) }
    ensures none { result ≡ false → filter_map close_in journal.now.events ≡ [] }
{
    for i in 0..journal.len() {
        match journal.item(i) {
            PlaceEvent::Close { .. } => return true,
            PlaceEvent::Done { .. } => {}
        }
    }
    false
}
