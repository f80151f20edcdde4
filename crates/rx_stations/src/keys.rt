// What a worker has of its own to use a place.
use rx_activities::{Naming, Traveller};
use rx_base::PlaceId;
use rx_book::Pass;
use rx_mail::{Carried, MailPass};
use rx_parts::EventItem;
use rx_ticket::{InTransit, Ticket};
use std::marker::Model;

/// An activity on its way, as a mailbox carries it.
#[derive(Drop)]
pub(crate) struct Letter<N: Naming> {
    pub(crate) traveller: Traveller<N>,
}

impl<N: Naming> Carried for Letter<N> {
    fn ticket(&self) -> &Ticket<InTransit> {
        self.traveller.ticket()
    }
}

/// The keys of a place: a pass of its book, from which those of the activities that arrive are split, and a pass of its mailbox.
/// Contracts see the place and the mailbox. They have no bytes but the number.
#[derive(Drop)]
pub(crate) struct Keys<N: Naming> {
    pub(crate) place: PlaceId,
    pub(crate) seat: Pass<EventItem>,
    pub(crate) mail: MailPass<Letter<N>>,
}

impl<N: Naming> Model for Keys<N> {
    ghost use Rattle.rx_activities.specs.Knowing.{IsNewSeat};
    ghost use Rattle.rx_stations.specs.Stations.{PostName};

    ghost Value = { PostName };

    ghost view = { λ k. record { place = k.place; mail = k.mail.of } };

    ghost invariant = { λ k. IsNewSeat N.ledger k.place k.seat };
}
