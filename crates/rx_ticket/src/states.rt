// The states of a ticket. docs/architecture.md says under "rx_ticket" which task has a ticket of which state.
ghost use Rattle.rx_rules.specs.declared.tasks.Where.{Where};
ghost use Rattle.rx_ticket.specs.Places.{IsTravel, IsPlace};

/// A state of a ticket.
pub trait State {
    // Where a task can be whose ticket is in this state.
    ghost fits: { Where → Type 0 };

    /// Ends the state with its ticket.
    fn end(self);
}

/// On its way to a place. Such a ticket may be dropped.
#[derive(Drop)]
pub struct InTransit;

/// At a place, and free to go on. Such a ticket has to be spent.
pub struct Live;

/// At a place, where it waits at a scope. Such a ticket has to be spent.
pub struct Waiting;

impl State for InTransit {
    ghost fits = { IsTravel };

    fn end(self) {}
}

impl State for Live {
    ghost fits = { IsPlace };

    fn end(self) {
        let Live = self;
    }
}

impl State for Waiting {
    ghost fits = { IsPlace };

    fn end(self) {
        let Waiting = self;
    }
}
