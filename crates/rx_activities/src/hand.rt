// What an activity holds.
ghost use Rattle.std.specs.Prelude.{◌≡◌, [], IfErr, IfOk};
ghost use Rattle.rx_ticket.specs.declared.tickets.AnyTicket.TheVariants.{Running};
ghost use Rattle.rx_activities.specs.Inside.Births.{IsWith};

use rx_base::{Batch, PlaceId, ScopeId};
use rx_book::Pass;
use rx_control::Control;
use rx_parts::{EntryItem, EventItem};
use rx_ticket::{AnyTicket, Live, Ticket};
use std::alloc::{AllocFailed, Global};
use std::snapshot::Snapshot;

/// What an activity at a place holds.
pub struct Hand {
    pub control: Box<Control>,
    /// The statements that were begun since its entry before.
    pub batch: Batch,
    pub ticket: AnyTicket,
    pub place: PlaceId,
    /// Whether it may have made events since its entry before. Where it is false there are none.
    pub made: bool,
    /// Its pass of the ledger's book.
    pub pass: Pass<EntryItem>,
    /// Its pass of its place's book.
    pub seat: Pass<EventItem>,
    /// That pass when its entry before was made. It has no bytes.
    pub told: Snapshot<Pass<EventItem>>,
}

impl Hand {
    /// An activity with this ticket, which has begun no statement, and whose entries name all its events.
    pub(crate) fn fresh(
        alloc: Global,
        control: Box<Control>,
        ticket: Ticket<Live>,
        place: PlaceId,
        pass: Pass<EntryItem>,
        seat: Pass<EventItem>,
    ) -> Hand
        ensures { IsWith control.value place pass seat (Running ticket) [] result }
    {
        let told = Snapshot::of(&seat);
        Hand {
            control,
            batch: Batch::open(alloc),
            ticket: AnyTicket::Running(ticket),
            place,
            made: false,
            pass,
            seat,
            told,
        }
    }

    /// The scope at which the activity waits, if it waits.
    pub(crate) fn waits_at(&self) -> Option<ScopeId> {
        match &self.ticket {
            AnyTicket::Held(ticket) => Some(ticket.caller().inner),
            _ => None,
        }
    }

    /// Puts the activity into a block. Where there is no memory for it the activity is given up.
    pub(crate) fn boxed(self, alloc: Global) -> Result<Box<Hand>, Pass<EntryItem>>
        ensures hand { IfOk result (λ b. b.value ≡ self) }
        ensures pass { IfErr result (λ p. p ≡ self.pass) }
    {
        match Box::new(alloc, self) {
            Ok(hand) => Ok(hand),
            Err(AllocFailed { value }) => Err(value.give_up()),
        }
    }

    /// Gives the activity up for lack of memory, or since its place has died, and keeps what it has seen of the ledger.
    pub(crate) fn give_up(self) -> Pass<EntryItem>
        ensures { result ≡ self.pass }
    {
        let Hand {
            control: _,
            batch: _,
            ticket,
            place: _,
            made: _,
            pass,
            seat: _,
            told: _,
        } = self;
        ticket.spent();
        pass
    }
}
