// Where a caller is, and where a task is that it starts.
ghost use Rattle.std.specs.Prelude.{◌≡◌, cond, ◌==◌};
ghost use Rattle.rx_rules.specs.Entries.{place_number};
ghost use Rattle.rx_finish.specs.Calls.{landing};

use rx_base::PlaceId;
use rx_rules::Where;

/// The place at which one is, or from which one travels.
pub fn place_of(place: Where) -> PlaceId
    ensures { result ≡ place_number place }
{
    match place {
        Where::At(p) => p,
        Where::Travel { from, to: _ } => from,
    }
}

/// The place at which one is, or to which one travels.
pub fn landing_of(place: Where) -> PlaceId
    ensures { result ≡ landing place }
{
    match place {
        Where::At(p) => p,
        Where::Travel { from: _, to } => to,
    }
}

/// Where a task is that is started at one place for another.
pub fn travel(from: PlaceId, to: PlaceId) -> Where
    ensures { result ≡ cond (from.0 == to.0) (Where.At to) (Where.Travel from to) }
{
    if from == to {
        Where::At(to)
    } else {
        Where::Travel { from, to }
    }
}
