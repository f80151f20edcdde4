// Where a caller is, and what the deaths of places tell of it.
ghost use Rattle.std.specs.Prelude.{◌≡◌, is_none, cond, ◌==◌};
ghost use Rattle.rx_rules.specs.Entries.{place_number};
ghost use Rattle.rx_tree_laws.specs.Blows.{death_blow, earlier, blow_at};
ghost use Rattle.rx_finish.specs.Calls.{landing};
ghost use Rattle.rx_counts.specs.Stands.{row, column, table_size, slot};

use rx_base::PlaceId;
use rx_finish::LedgerFault;
use rx_rules::{Blow, Where};

/// The death of a place, as a blow.
pub fn death_at(dead: &[Option<u32>], place: PlaceId) -> Option<Blow>
    ensures { result ≡ death_blow dead.now place }
{
    match dead.get(place.0 as usize) {
        Some(Some(entry)) => Some(Blow {
            place,
            entry: *entry,
        }),
        _ => None,
    }
}

/// Whether a place lives.
pub fn lives(dead: &[Option<u32>], place: PlaceId) -> bool
    ensures { result ≡ is_none (death_blow dead.now place) }
{
    death_at(dead, place).is_none()
}

fn earlier_of(b: Option<Blow>, c: Option<Blow>) -> Option<Blow>
    ensures { result ≡ earlier b c }
{
    match b {
        None => c,
        Some(first) => match c {
            None => b,
            Some(second) => if first.entry < second.entry { b } else { c },
        },
    }
}

/// The death that struck whoever is there.
pub fn blow_there(dead: &[Option<u32>], place: Where) -> Option<Blow>
    ensures { result ≡ blow_at dead.now place }
{
    match place {
        Where::At(p) => death_at(dead, p),
        Where::Travel { from, to } => earlier_of(death_at(dead, from), death_at(dead, to)),
    }
}

/// The answer to a caller that the blow struck.
pub fn lost(blow: Blow) -> LedgerFault
    ensures { result ≡ LedgerFault.Lost blow.place blow.entry }
{
    LedgerFault::Lost {
        place: blow.place,
        at: blow.entry,
    }
}

/// How many cells the table of so many places has.
pub fn cells_of(places: u8) -> usize
    ensures { result ≡ table_size places }
{
    let n = places as usize;
    (n + 1) * n
}

/// The row of a place or of a pair: the first row is that of the places, and the others are those of the ways from each place.
fn row_of(place: Where) -> usize
    ensures { result ≡ row place }
{
    match place {
        Where::At(_) => 0,
        Where::Travel { from, to: _ } => from.0 as usize + 1,
    }
}

fn column_of(place: Where) -> usize
    ensures { result ≡ column place }
{
    match place {
        Where::At(p) => p.0 as usize,
        Where::Travel { from: _, to } => to.0 as usize,
    }
}

/// The cell of a place or of a pair in the table of so many places; past the table where it has no such cell.
pub fn slot_of(places: u8, place: Where) -> usize
    ensures { result ≡ slot places place }
{
    let n = places as usize;
    let row = row_of(place);
    let column = column_of(place);
    if row < n + 1 && column < n {
        row * n + column
    } else {
        cells_of(places)
    }
}
