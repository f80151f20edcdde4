// An activity on its way, up to its arrival.
ghost use Rattle.std.specs.Prelude.{◌≡◌};
ghost use Rattle.rx_activities.specs.Knowing.{IsOfRun, IsNewSeat};
ghost use Rattle.rx_activities.specs.Starting.{TravellerInvariant};

use crate::activity::{Turn, activity_with};
use crate::asking::ask;
use crate::hand::Hand;
use crate::naming::{LedgerPass, Naming};
use rx_base::{Batch, PlaceId};
use rx_book::Pass;
use rx_check::Program;
use rx_control::Control;
use rx_finish::landing_of;
use rx_history::Ask;
use rx_ledger::{Reply, Request};
use rx_objects::{Hint, LedgerBook, LedgerOp, Mentions};
use rx_parts::{EntryItem, EventItem};
use rx_ticket::{AnyTicket, InTransit, Ticket};
use std::alloc::Global;
use std::marker::{Model, PhantomData};
use std::snapshot::Snapshot;
use std::sync::Wait;

/// An activity on its way. Contracts see the place for which it is. It may be moved to another thread, and may be dropped.
#[derive(Drop)]
pub struct Traveller<N: Naming> {
    control: Box<Control>,
    ticket: Ticket<InTransit>,
    // Its pass of the ledger's book.
    pass: Pass<EntryItem>,
    of: PhantomData<N>,
}

impl<N: Naming> Model for Traveller<N> {
    ghost use Rattle.rx_base.specs.declared.ids.PlaceId.{PlaceId};
    ghost use Rattle.rx_finish.specs.Calls.{landing};
    ghost use Rattle.rx_activities.specs.Starting.{TravellerInvariant};

    ghost Value = { PlaceId };

    ghost view = { λ t. landing t.ticket.place };

    ghost invariant = { λ t. TravellerInvariant N.ledger t.control.value t.ticket t.pass };
}

/// The traveller with these.
pub(crate) fn traveller_of<N: Naming>(
    control: Box<Control>,
    ticket: Ticket<InTransit>,
    pass: Pass<EntryItem>,
) -> Traveller<N>
    requires { TravellerInvariant N.ledger control.value ticket pass }
{
    Traveller {
        control,
        ticket,
        pass,
        of: PhantomData,
    }
}

// What a traveller leaves for whose arrival there was no memory: its ticket is spent, and its pass is kept.
fn failed<N: Naming>(ticket: AnyTicket, pass: Pass<EntryItem>) -> LedgerPass<N>
    requires { IsOfRun N.ledger pass }
{
    ticket.spent();
    LedgerPass::of(pass)
}

impl<N: Naming> Traveller<N> {
    /// The place for which it is on its way.
    pub fn target(&self) -> PlaceId
        ensures { result ≡ self.now }
    {
        landing_of(self.ticket.caller().place)
    }

    /// Its ticket.
    pub fn ticket(&self) -> &Ticket<InTransit> {
        &self.ticket
    }

    /// Makes it arrive, with a new pass of its place's book: it asks the ledger, by which the task is live. `hint` is then whose release
    /// the call may have made possible.
    pub fn land<L: LedgerBook, R: Wait>(
        self,
        rt: &R,
        alloc: Global,
        p: &Program,
        ledger: &L,
        seat: Pass<EventItem>,
        hint: &mut Hint,
    ) -> Turn<N>
        requires ledger { L.name ledger.now ≡ N.ledger }
        requires program { (L.name ledger.now).fixed.program ≡ p.now }
        requires seat { IsNewSeat N.ledger self seat }
    {
        let place = self.target();
        let Traveller {
            control,
            ticket,
            mut pass,
            of: _,
        } = self;
        let mentions = Mentions {
            before: Snapshot::of(&seat),
            now: Snapshot::of(&seat),
            child: Snapshot::of(&pass),
            seat: Snapshot::of(&seat),
        };
        let request = Request {
            ticket: AnyTicket::Moving(ticket),
            ask: Ask::Arrive,
            batch: Batch::open(alloc),
            path: None,
        };
        let op = LedgerOp {
            request,
            note: None,
            mentions,
        };
        match ask(rt, p, ledger, &mut pass, op, hint) {
            Reply::Landed { ticket } => {
                let hand = Hand::fresh(alloc, control, ticket, place, pass, seat);
                match activity_with(hand, alloc) {
                    Ok(activity) => Turn::Goes {
                        activity,
                        began: None,
                    },
                    Err(pass) => Turn::Failed(pass),
                }
            }
            Reply::Lost { place: _, at: _ } => Turn::Over(LedgerPass::of(pass)),
            Reply::NoMemory { request } => Turn::Failed(failed(request.into_ticket(), pass)),
            _ => unreachable!(),
        }
    }
}
