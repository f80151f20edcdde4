// Activities, as queues and mailboxes hold them: what is known of one is known by its type.
ghost use Rattle.std.specs.Prelude.{◌≡◌, IfOk};
ghost use Rattle.rx_objects.specs.Opened.{PlaceIs};
ghost use Rattle.rx_activities.specs.Knowing.{IsOfRun, ActivityInvariant};
ghost use Rattle.rx_activities.specs.Starting.{IsOpening};

use crate::hand::Hand;
use crate::naming::{LedgerPass, Naming};
use crate::traveller::Traveller;
use crate::turn::{Company, make_turn};
use rx_base::{PlaceId, ScopeId};
use rx_book::Pass;
use rx_check::{Program, checked};
use rx_control::Control;
use rx_objects::{Hint, LedgerBook, PlaceBook};
use rx_parts::{EntryItem, EventItem};
use rx_ticket::{Live, Ticket};
use std::alloc::Global;
use std::marker::{Model, PhantomData};
use std::sync::Wait;

/// An activity that is live. Contracts see its place. It may be moved to another thread. It has to be brought to its end, or given
/// up.
pub struct Activity<N: Naming> {
    hand: Box<Hand>,
    of: PhantomData<N>,
}

impl<N: Naming> Model for Activity<N> {
    ghost use Rattle.rx_base.specs.declared.ids.PlaceId.{PlaceId};
    ghost use Rattle.rx_activities.specs.Knowing.{ActivityInvariant};

    ghost Value = { PlaceId };

    ghost view = { λ a. a.hand.value.place };

    ghost invariant = { λ a. ActivityInvariant N.ledger a.hand.value };
}

/// An activity that was started.
pub enum Began<N: Naming> {
    /// At its starter's place.
    Here(Activity<N>),
    /// For another place.
    Away(Traveller<N>),
}

/// What a turn or an arrival leaves.
pub enum Turn<N: Naming> {
    /// The activity goes on, and may have started another.
    Goes {
        activity: Activity<N>,
        began: Option<Began<N>>,
    },
    /// It gives way: it came to the ledger after a few steps, while another was there.
    Busy(Activity<N>),
    /// Its scope may not be released yet.
    Waits(Activity<N>),
    /// It has ended, or its place has died.
    Over(LedgerPass<N>),
    /// There was no memory. The activity is given up.
    Failed(LedgerPass<N>),
}

impl<N: Naming> Activity<N> {
    /// The main activity of a run, at place 0, by the first passes of the ledger's book and of the book of place 0. Where there is no
    /// memory for its block it is given up.
    pub fn main(
        alloc: Global,
        p: &Program,
        control: Box<Control>,
        ticket: Ticket<Live>,
        pass: Pass<EntryItem>,
        seat: Pass<EventItem>,
    ) -> Result<Activity<N>, LedgerPass<N>>
        requires program { N.ledger.fixed.program ≡ p.now }
        requires opening { IsOpening N.ledger control.value ticket pass seat }
        ensures { IfOk result (λ a. a ≡ record { 0 = 0 }) }
    {
        checked(p);
        rx_objects::objects_open();
        let hand = Hand::fresh(alloc, control, ticket, PlaceId(0), pass, seat);
        activity_with(hand, alloc)
    }

    /// Its place.
    pub fn place(&self) -> PlaceId
        ensures { result ≡ self.now }
    {
        self.hand.place
    }

    /// Gives the activity up, and keeps what it has seen of the ledger. Its ticket is spent.
    pub fn give_up(self) -> LedgerPass<N> {
        let Activity { hand, of: _ } = self;
        given_up(hand)
    }

    /// The scope at which it waits, if it waits.
    pub fn waits_at(&self) -> Option<ScopeId> {
        self.hand.waits_at()
    }

    /// Makes the local steps up to the next call of a book, and that call: of the place's book or of the ledger's. A long turn tells
    /// `company`; a short one may give way. Where it asks the ledger, `hint` is then whose release that may have made possible.
    pub fn turn<L: LedgerBook, P: PlaceBook, C: Company, R: Wait>(
        self,
        rt: &R,
        alloc: Global,
        p: &Program,
        ledger: &L,
        place_book: &P,
        company: &C,
        hint: &mut Hint,
    ) -> Turn<N>
        requires ledger { L.name ledger.now ≡ N.ledger }
        requires program { (L.name ledger.now).fixed.program ≡ p.now }
        requires place { PlaceIs N.ledger self (P.name place_book.now) }
    {
        let Activity { hand, of: _ } = self;
        make_turn(hand, rt, alloc, p, ledger, place_book, company, hint)
    }
}

/// What an activity leaves that is given up.
pub(crate) fn given_up<N: Naming>(hand: Box<Hand>) -> LedgerPass<N>
    requires { IsOfRun N.ledger hand.value.pass }
{
    LedgerPass::of(Box::into_inner(hand).give_up())
}

/// The activity that holds this, in a block. Where there is no memory for the block it is given up.
pub(crate) fn activity_with<N: Naming>(
    hand: Hand,
    alloc: Global,
) -> Result<Activity<N>, LedgerPass<N>>
    requires { ActivityInvariant N.ledger hand }
    ensures { IfOk result (λ a. a ≡ hand.place) }
{
    match hand.boxed(alloc) {
        Ok(hand) => Ok(activity_of(hand)),
        Err(pass) => Err(LedgerPass::of(pass)),
    }
}

/// The activity of a hand.
pub(crate) fn activity_of<N: Naming>(hand: Box<Hand>) -> Activity<N>
    requires { ActivityInvariant N.ledger hand.value }
    ensures { result ≡ hand.value.place }
{
    Activity {
        hand,
        of: PhantomData,
    }
}
