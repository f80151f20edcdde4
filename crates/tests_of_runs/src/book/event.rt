ghost use Rattle.std.specs.Prelude.{◌≡◌, ◌≤◌, ◌<◌, Some, None};
ghost use Rattle.std.specs.Option.{ForSome};

use rx_book::Dies;

/// A number that was added, or the death of a place. It is operation and entry alike.
#[derive(Drop)]
pub struct Event {
    pub number: u64,
    pub dead: Option<u8>,
    ghost small: { ForSome dead (λ p. p ≤ 15) },
}

impl Dies for Event {
    ghost place = { λ e. e.dead };

    ghost small = { λ e. e.small };
}

pub fn add(number: u64) -> Event
    ensures { result.dead ≡ None }
{
    Event { number, dead: None }
}

pub fn die(place: u8) -> Event
    requires { place < 16 }
    ensures { result.dead ≡ Some place }
{
    Event {
        number: 0,
        dead: Some(place),
    }
}
