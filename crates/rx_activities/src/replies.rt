// What a call of a book leaves, and how an activity goes on by the ledger's answer.
ghost use Rattle.std.specs.Prelude.{◌≡◌};
ghost use Rattle.rx_book.specs.Passes.{view_of, word_of};
ghost use Rattle.rx_activities.specs.Turning.{LeavesHand};
ghost use Rattle.rx_activities.specs.Inside.Sending.{WasSent, WasGranted, WasCounted};
ghost use Rattle.rx_activities.specs.Inside.Births.{IsStarted, StartsKnowing, IsWith};

use crate::activity::{Began, activity_with};
use crate::hand::Hand;
use crate::naming::Naming;
use crate::traveller::traveller_of;
use rx_base::{Batch, Faults, NoMemory, PlaceId};
use rx_book::Pass;
use rx_check::{Program, checked};
use rx_control::{Control, faults_raised};
use rx_ledger::{Reply, Request};
use rx_objects::LedgerBook;
use rx_parts::{EntryItem, EventItem};
use rx_ticket::AnyTicket;
use std::alloc::Global;
use std::snapshot::Snapshot;

/// What a call of a book leaves, beside the hand.
pub enum Answer<N: Naming> {
    /// The activity goes on, and may have started another.
    Goes { began: Option<Began<N>> },
    /// Its scope may not be released yet.
    Waits,
    /// It has ended, or was lost with its place.
    Over,
    /// There was no memory.
    Failed,
}

/// What a task holds that is to be started: its pass of the place's book, where it begins at its starter's place.
#[derive(Drop)]
pub struct Child {
    pub control: Box<Control>,
    pub pass: Pass<EntryItem>,
    pub seat: Option<Pass<EventItem>>,
}

// Spends a ticket, where there is one.
fn spend_if(ticket: Option<AnyTicket>) {
    match ticket {
        Some(ticket) => ticket.spent(),
        None => {}
    }
}

impl Hand {
    // Keeps its ticket and what it has begun, where its entries name all its events.
    fn keep(&mut self, ticket: AnyTicket, batch: Batch)
        ensures { IsWith self.old.control.value self.old.place self.old.pass self.old.seat ticket batch self.new }
    {
        std::mem::replace(&mut self.ticket, ticket).spent();
        self.batch = batch;
        self.made = false;
        self.told = Snapshot::of(&self.seat);
    }

    // Goes on behind a granted request, which raises these faults, with the ticket of the task that it started.
    fn go_on<N: Naming, L: LedgerBook>(
        &mut self,
        alloc: Global,
        p: &Program,
        ledger: &L,
        ticket: AnyTicket,
        faults: Faults,
        started: Option<AnyTicket>,
        child: Option<Child>,
    ) -> Answer<N>
        requires ledger { L.name ledger.now ≡ N.ledger }
        requires program { (L.name ledger.now).fixed.program ≡ p.now }
        requires granted { WasGranted p.now.script (L.name ledger.now) self.old ticket faults started child }
        ensures { LeavesHand (L.name ledger.now) self.new result }
    {
        if self.control.as_mut().resume(p, faults).is_err() {
            ticket.spent();
            spend_if(started);
            return Answer::Failed;
        }
        let Ok(began) = start(alloc, ledger, self.place, &mut self.pass, started, child) else {
            ticket.spent();
            return Answer::Failed;
        };
        self.keep(ticket, Batch::open(alloc));
        Answer::Goes { began }
    }

    // Goes on behind a census.
    fn count<N: Naming, L: LedgerBook>(
        &mut self,
        alloc: Global,
        p: &Program,
        ledger: &L,
        ticket: AnyTicket,
        places: u8,
    ) -> Answer<N>
        requires program { (L.name ledger.now).fixed.program ≡ p.now }
        requires counted { WasCounted p.now.script (L.name ledger.now) self.old ticket places }
        ensures { LeavesHand (L.name ledger.now) self.new result }
    {
        let _ = ledger;
        if self.control.as_mut().census_done(p, places).is_err() {
            ticket.spent();
            return Answer::Failed;
        }
        self.keep(ticket, Batch::open(alloc));
        Answer::Goes { began: None }
    }

    /// Goes on by the ledger's answer.
    pub(crate) fn take<N: Naming, L: LedgerBook>(
        &mut self,
        alloc: Global,
        p: &Program,
        ledger: &L,
        reply: Reply,
        child: Option<Child>,
    ) -> Answer<N>
        requires ledger { L.name ledger.now ≡ N.ledger }
        requires program { (L.name ledger.now).fixed.program ≡ p.now }
        requires sent { WasSent p.now.script (L.name ledger.now) self.old reply child }
        ensures { LeavesHand (L.name ledger.now) self.new result }
    {
        checked(p);
        let none = Faults::open(alloc);
        match reply {
            Reply::Opened { ticket, scope: _ } => {
                self.go_on(
                    alloc,
                    p,
                    ledger,
                    AnyTicket::Running(ticket),
                    none,
                    None,
                    None,
                )
            }
            Reply::Called { ticket, callee } => {
                self.go_on(
                    alloc,
                    p,
                    ledger,
                    AnyTicket::Held(ticket),
                    none,
                    callee,
                    child,
                )
            }
            Reply::Spawned {
                ticket,
                child: started,
            } => self.go_on(
                alloc,
                p,
                ledger,
                AnyTicket::Running(ticket),
                none,
                started,
                child,
            ),
            Reply::Waits { ticket } => {
                self.go_on(alloc, p, ledger, AnyTicket::Held(ticket), none, None, None)
            }
            Reply::Printed { ticket } => {
                self.go_on(
                    alloc,
                    p,
                    ledger,
                    AnyTicket::Running(ticket),
                    none,
                    None,
                    None,
                )
            }
            Reply::Released { ticket, outcome } => {
                let ticket = AnyTicket::Running(ticket);
                match faults_raised(alloc, outcome.lost, &outcome.thrown) {
                    Ok(faults) => self.go_on(alloc, p, ledger, ticket, faults, None, None),
                    Err(_) => {
                        ticket.spent();
                        Answer::Failed
                    }
                }
            }
            Reply::Census { ticket, places } => {
                self.count(alloc, p, ledger, AnyTicket::Running(ticket), places)
            }
            Reply::NotYet { place: _, request } => {
                let Request {
                    ticket,
                    ask: _,
                    batch,
                    path: _,
                } = request;
                self.keep(ticket, batch);
                Answer::Waits
            }
            Reply::Ended => Answer::Over,
            Reply::Lost { place: _, at: _ } => Answer::Over,
            Reply::NoMemory { request } => {
                request.into_ticket().spent();
                Answer::Failed
            }
            Reply::Landed { ticket } => {
                ticket.spent();
                unreachable!()
            }
            Reply::RootDone => unreachable!(),
        }
    }
}

// The task that was started, where it is not born struck. Its pass of the ledger's book sees what its starter's has seen.
fn start<N: Naming, L: LedgerBook>(
    alloc: Global,
    ledger: &L,
    place: PlaceId,
    pass: &mut Pass<EntryItem>,
    ticket: Option<AnyTicket>,
    child: Option<Child>,
) -> Result<Option<Began<N>>, NoMemory>
    requires ledger { L.name ledger.now ≡ N.ledger }
    requires pass { word_of pass.old ≡ (L.name ledger.now).word }
    requires child { IsStarted (L.name ledger.now) place pass.old ticket child }
    ensures { (word_of pass.new ≡ word_of pass.old) × (view_of pass.new ≡ view_of pass.old) }
{
    match (ticket, child) {
        (None, _) => Ok(None),
        (Some(ticket), Some(child)) => {
            let Child {
                control,
                pass: mut own,
                seat,
            } = child;
            let Ok(note) = ledger.note(pass) else {
                unreachable!()
            };
            ledger.meet(&mut own, note);
            let began = begin(alloc, place, ticket, control, own, seat)?;
            Ok(Some(began))
        }
        (Some(_), None) => unreachable!(),
    }
}

// The task at its beginning.
fn begin<N: Naming>(
    alloc: Global,
    place: PlaceId,
    ticket: AnyTicket,
    control: Box<Control>,
    pass: Pass<EntryItem>,
    seat: Option<Pass<EventItem>>,
) -> Result<Began<N>, NoMemory>
    requires { StartsKnowing N.ledger place ticket control.value pass seat }
{
    match (ticket, seat) {
        (AnyTicket::Moving(ticket), _) => Ok(Began::Away(traveller_of(control, ticket, pass))),
        (AnyTicket::Running(ticket), Some(seat)) => {
            let hand = Hand::fresh(alloc, control, ticket, place, pass, seat);
            match activity_with(hand, alloc) {
                Ok(activity) => Ok(Began::Here(activity)),
                Err(_) => Err(NoMemory),
            }
        }
        _ => unreachable!(),
    }
}
