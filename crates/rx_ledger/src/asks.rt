// What a keeper is asked, and what it answers.
ghost use Rattle.std.specs.Prelude.{◌≡◌};
ghost use Rattle.rx_ledger.specs.Holding.{asking_in, started_in};

use rx_base::{Batch, Path, PlaceId, ScopeId};
use rx_finish::Outcome;
use rx_history::Ask;
use rx_ticket::{AnyTicket, Live, Ticket, Waiting};

/// A request: who asks for what, the statements begun since the task's previous entry, and the path of the entry's own statement,
/// where it has one.
pub struct Request {
    pub ticket: AnyTicket,
    pub ask: Ask,
    pub batch: Batch,
    pub path: Option<Path>,
}

/// The answer to a request. It holds one ticket of the caller's task or the request itself, or the ticket is spent.
pub enum Reply {
    Opened {
        ticket: Ticket<Live>,
        scope: ScopeId,
    },
    /// The callee's ticket, where it is not born struck.
    Called {
        ticket: Ticket<Waiting>,
        callee: Option<AnyTicket>,
    },
    /// The child's ticket, where it is not born struck.
    Spawned {
        ticket: Ticket<Live>,
        child: Option<AnyTicket>,
    },
    Landed {
        ticket: Ticket<Live>,
    },
    Waits {
        ticket: Ticket<Waiting>,
    },
    Released {
        ticket: Ticket<Live>,
        outcome: Outcome,
    },
    Ended,
    Printed {
        ticket: Ticket<Live>,
    },
    /// How many places have joined, dead ones among them.
    Census {
        ticket: Ticket<Live>,
        places: u8,
    },
    RootDone,
    /// An unstruck task is under the scope that is to be released; it is at this place or travels there.
    NotYet {
        place: PlaceId,
        request: Request,
    },
    /// Entry `at`, the death of the place, has struck the caller.
    Lost {
        place: PlaceId,
        at: u32,
    },
    NoMemory {
        request: Request,
    },
}

impl Reply {
    /// The ticket of the task that asked, and the ticket of the task that was started, where the reply holds them. Of a request that
    /// comes back the ticket alone is kept.
    pub fn into_tickets(self) -> (Option<AnyTicket>, Option<AnyTicket>)
        ensures asking { result.0 ≡ asking_in self }
        ensures started { result.1 ≡ started_in self }
    {
        match self {
            Reply::Opened { ticket, scope: _ } => (Some(AnyTicket::Running(ticket)), None),
            Reply::Called { ticket, callee } => (Some(AnyTicket::Held(ticket)), callee),
            Reply::Spawned { ticket, child } => (Some(AnyTicket::Running(ticket)), child),
            Reply::Landed { ticket } => (Some(AnyTicket::Running(ticket)), None),
            Reply::Waits { ticket } => (Some(AnyTicket::Held(ticket)), None),
            Reply::Released { ticket, outcome: _ } => (Some(AnyTicket::Running(ticket)), None),
            Reply::Ended => (None, None),
            Reply::Printed { ticket } => (Some(AnyTicket::Running(ticket)), None),
            Reply::Census { ticket, places: _ } => (Some(AnyTicket::Running(ticket)), None),
            Reply::RootDone => (None, None),
            Reply::NotYet { place: _, request } => (Some(request.into_ticket()), None),
            Reply::Lost { place: _, at: _ } => (None, None),
            Reply::NoMemory { request } => (Some(request.into_ticket()), None),
        }
    }
}

impl Request {
    /// Its ticket.
    pub fn into_ticket(self) -> AnyTicket
        ensures { result ≡ self.ticket }
    {
        let Request {
            ticket,
            ask: _,
            batch: _,
            path: _,
        } = self;
        ticket
    }
}
