// At which entry each place died.
ghost use Rattle.std.specs.Prelude.{◌≡◌, ◌≤◌, ◌^◌, ◌++◌, List, [], ◌∷◌, length};
ghost use Rattle.rx_rules.specs.declared.entries.Entry.{Entry};
ghost use Rattle.rx_kills.specs.Deaths.{AreDeaths};
ghost use Rattle.rx_kills.specs.Inside.Noted.{with_death};

use rx_history::History;
use rx_rules::Entry;

/// For each place from 0 to 15 the number of its death, before the first entry.
pub fn no_deaths() -> [Option<u32>; 16]
    ensures { AreDeaths [] result }
{
    [None; 16]
}

/// For each place from 0 to 15 the number of its death in the history, if it dies. Of two deaths of one place it is the first. No
/// memory is taken.
pub fn deaths_of(history: &History) -> [Option<u32>; 16]
    requires { length history.now.entries ≤ 2 ^ 32 }
    ensures { AreDeaths history.now.entries result }
{
    let mut deaths = no_deaths();
    for i in 0..history.len() {
        note_death(&mut deaths, i as u32, history.item(i));
    }
    deaths
}

/// Notes entry n, the next after those whose deaths are noted, where it is the first death of a place.
pub fn note_death(deaths: &mut [Option<u32>; 16], n: u32, entry: &Entry)
    ensures { (es : List Entry) → length es ≡ n → AreDeaths es deaths.old → AreDeaths (es ++ entry.now ∷ []) deaths.new }
{
    note(deaths, n, entry);
}

// The deaths with entry n, where it is the first death of a place.
fn note(deaths: &mut [Option<u32>; 16], n: u32, entry: &Entry)
    ensures { deaths.new ≡ with_death deaths.old n entry.now }
{
    if let Entry::Death { place } = entry {
        let p = place.0 as usize;
        if p < 16 && deaths[p].is_none() {
            deaths[p] = Some(n);
        }
    }
}
