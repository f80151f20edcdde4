// The releases, the deaths and the joins.
ghost use Rattle.std.specs.Prelude.{ℕ, List};
ghost use Rattle.rx_rules.specs.declared.entries.Entry.{Entry};
ghost use Rattle.rx_coordinator.specs.declared.requests.Request.TheVariants.{Release, Death, Join, Root};
ghost use Rattle.rx_coordinator.specs.Stands.{StandsAfter, IsReplyTo};

use crate::coordinator::Coordinator;
use crate::requests::Answer;
use rx_base::{PlaceId, TaskId};
use rx_finish::{FinishLedger, LedgerFault};

impl Coordinator {
    /// Releases the scope at which a task waits.
    pub(crate) fn release(&mut self, task: TaskId) -> Answer
        requires { (p : ℕ) × (es : List Entry) × StandsAfter self.old p es }
        ensures { (p : ℕ) (es : List Entry) → StandsAfter self.old p es → IsReplyTo p es (Release task) result (StandsAfter self.new p) }
    {
        let Some(mut seat) = self.held(task) else {
            return Answer::Bad;
        };
        let parent = self.parent_of(seat.who.inner);
        if self.is_full() {
            return Answer::Full;
        }
        match self.ledger.release(seat.who) {
            Ok(outcome) => {
                seat.who.inner = parent;
                seat.waits = false;
                self.seats.change(task, seat);
                self.entries += 1;
                Answer::Released { outcome }
            }
            Err(LedgerFault::NoMemory) => Answer::NoMemory,
            Err(LedgerFault::NotYet { place }) => Answer::NotYet { place },
            Err(LedgerFault::Lost { .. }) => unreachable!(),
        }
    }

    /// Releases the root.
    pub(crate) fn release_root(&mut self) -> Answer
        requires { (p : ℕ) × (es : List Entry) × StandsAfter self.old p es }
        ensures { (p : ℕ) (es : List Entry) → StandsAfter self.old p es → IsReplyTo p es Root result (StandsAfter self.new p) }
    {
        if !self.has_root() {
            return Answer::Bad;
        }
        if self.is_full() {
            return Answer::Full;
        }
        match self.ledger.release_root() {
            Ok(outcome) => {
                self.entries += 1;
                Answer::RootDone { outcome }
            }
            Err(LedgerFault::NoMemory) => Answer::NoMemory,
            Err(LedgerFault::NotYet { place }) => Answer::NotYet { place },
            Err(LedgerFault::Lost { .. }) => unreachable!(),
        }
    }

    /// Lets a place die.
    pub(crate) fn die(&mut self, place: PlaceId) -> Answer
        requires { (p : ℕ) × (es : List Entry) × StandsAfter self.old p es }
        ensures { (p : ℕ) (es : List Entry) → StandsAfter self.old p es → IsReplyTo p es (Death place) result (StandsAfter self.new p) }
    {
        if !self.may_die(place) {
            return Answer::Bad;
        }
        if self.is_full() {
            return Answer::Full;
        }
        self.ledger.death(place, self.entries);
        self.seats.strike(place);
        self.entries += 1;
        Answer::Died
    }

    /// Lets the next place join.
    pub(crate) fn join(&mut self) -> Answer
        requires { (p : ℕ) × (es : List Entry) × StandsAfter self.old p es }
        ensures { (p : ℕ) (es : List Entry) → StandsAfter self.old p es → IsReplyTo p es Join result (StandsAfter self.new p) }
    {
        let places = self.ledger.places();
        if places >= 16 {
            return Answer::Bad;
        }
        if self.is_full() {
            return Answer::Full;
        }
        let place = PlaceId(places);
        self.ledger.join(place);
        self.entries += 1;
        Answer::Joined { place }
    }
}
