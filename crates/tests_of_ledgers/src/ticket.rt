// Tickets that go to other threads and are lost there, and one that is let go in transit.
ghost use Rattle.std.specs.Prelude.{◌≡◌};
ghost use Rattle.rx_rules.specs.declared.tasks.Where.TheVariants.{At, Travel};

use rx_base::{PlaceId, ScopeId, TaskId};
use rx_finish::Caller;
use rx_rules::Where;
use rx_ticket::{AnyTicket, InTransit, Live, Ticket};
use std::test::Fail;

// Task 1 under scope 1.
fn child(place: Where) -> Caller
    ensures { result ≡ record { task = record { 0 = 1 }; scope = record { 0 = 1 }; inner = record { 0 = 1 }; place = place } }
{
    Caller {
        task: TaskId(1),
        scope: ScopeId(1),
        inner: ScopeId(1),
        place,
    }
}

fn travels() -> Where
    ensures { result ≡ Travel (record { 0 = 0 }) (record { 0 = 1 }) }
{
    Where::Travel {
        from: PlaceId(0),
        to: PlaceId(1),
    }
}

// What any thread may be given.
fn moved<T: Send>(x: T) -> T
    ensures { result ≡ x }
{
    x
}

// Ends a ticket of any state.
fn lost(t: AnyTicket) {
    match t {
        AnyTicket::Moving(t) => t.lost(PlaceId(1), 3),
        AnyTicket::Running(t) => t.lost(PlaceId(1), 3),
        AnyTicket::Held(t) => t.lost(PlaceId(1), 3),
        AnyTicket::Host => {}
    }
}

#[test]
fn a_ticket_of_each_state_may_be_moved_and_lost(rt: HostRuntime) -> Result<(), Fail> {
    let here = child(Where::At(PlaceId(1)));
    lost(moved(AnyTicket::Moving(Ticket::<InTransit>::issue(child(travels())))));
    lost(moved(AnyTicket::Running(Ticket::<Live>::issue(here))));
    lost(moved(AnyTicket::Held(Ticket::<Live>::issue(here).waits())));
    lost(AnyTicket::Host);
    // one in transit may be let go
    let mut letters = Vec::new(rt.alloc());
    letters.push(Ticket::<InTransit>::issue(child(travels())))?;
    assert!(rt; letters.len() == 1);
    Ok(())
}
