// The requests of a task that changes its own state.
ghost use Rattle.std.specs.Prelude.{◌≡◌, ◌<◌, ◌-◌, ◌^◌, ℕ, List, Some};
ghost use Rattle.rx_base.specs.declared.values.Fault.{Fault};
ghost use Rattle.rx_rules.specs.declared.entries.Entry.{Entry};
ghost use Rattle.rx_coordinator.specs.declared.requests.Request.TheVariants.{Open, Arrive, Wait, End};
ghost use Rattle.rx_coordinator.specs.declared.requests.Answer.TheVariants.{Landed};
ghost use Rattle.rx_coordinator.specs.Seats.{seat_at};
ghost use Rattle.rx_coordinator.specs.Stands.{StandsAfter, IsReplyTo};
ghost use Rattle.rx_coordinator.specs.Inside.Rows.{away_in};

use crate::coordinator::Coordinator;
use crate::requests::Answer;
use crate::seats::Seat;
use rx_base::{Faults, TaskId};
use rx_finish::{FinishLedger, LedgerFault, landing_of};
use rx_rules::Where;

impl Coordinator {
    /// Opens a finish.
    pub(crate) fn open_finish(&mut self, task: TaskId) -> Answer
        requires { (p : ℕ) × (es : List Entry) × StandsAfter self.old p es }
        ensures { (p : ℕ) (es : List Entry) → StandsAfter self.old p es → IsReplyTo p es (Open task) result (StandsAfter self.new p) }
    {
        let Some(mut seat) = self.live(task) else {
            return Answer::Bad;
        };
        if self.is_full() {
            return Answer::Full;
        }
        if self.wants_numbers() {
            return Answer::Full;
        }
        match self.ledger.open_finish(seat.who) {
            Ok(scope) => {
                seat.who.inner = scope;
                self.seats.change(task, seat);
                self.entries += 1;
                Answer::Opened { scope }
            }
            Err(LedgerFault::NoMemory) => Answer::NoMemory,
            Err(LedgerFault::NotYet { .. }) => unreachable!(),
            Err(LedgerFault::Lost { .. }) => unreachable!(),
        }
    }

    /// Makes a task that travels arrive.
    pub(crate) fn arrive(&mut self, task: TaskId) -> Answer
        requires { (p : ℕ) × (es : List Entry) × StandsAfter self.old p es }
        ensures { (p : ℕ) (es : List Entry) → StandsAfter self.old p es → IsReplyTo p es (Arrive task) result (StandsAfter self.new p) }
    {
        let Some(seat) = self.away(task) else {
            return Answer::Bad;
        };
        if self.is_full() {
            return Answer::Full;
        }
        self.land(task, seat);
        Answer::Landed
    }

    /// Lands a task that travels and whose row this is. It takes no memory. The condition is room for one more entry.
    pub(crate) fn land(&mut self, task: TaskId, seat: Seat)
        requires stands { (p : ℕ) × (es : List Entry) × StandsAfter self.old p es }
        requires away { away_in (seat_at self.old.seats task.0) ≡ Some seat }
        requires room { self.old.entries < 2 ^ 32 - 1 }
        ensures { (p : ℕ) (es : List Entry) → StandsAfter self.old p es → IsReplyTo p es (Arrive task) Landed (StandsAfter self.new p) }
    {
        match self.ledger.arrive(seat.who) {
            Ok(()) => {
                let mut there = seat;
                there.who.place = Where::At(landing_of(seat.who.place));
                self.seats.change(task, there);
                self.entries += 1;
            }
            Err(LedgerFault::NoMemory) => unreachable!(),
            Err(LedgerFault::NotYet { .. }) => unreachable!(),
            Err(LedgerFault::Lost { .. }) => unreachable!(),
        }
    }

    /// Lets a task wait at its innermost finish.
    pub(crate) fn wait(&mut self, task: TaskId, thrown: Faults) -> Answer
        requires { (p : ℕ) × (es : List Entry) × StandsAfter self.old p es }
        ensures { (p : ℕ) (es : List Entry) → StandsAfter self.old p es
            → IsReplyTo p es (Wait task thrown) result (StandsAfter self.new p) }
    {
        let Some(mut seat) = self.live(task) else {
            return Answer::Bad;
        };
        if seat.who.inner == seat.who.scope {
            return Answer::Bad;
        }
        if !self.is_finish(seat.who.inner) {
            return Answer::Bad;
        }
        if self.is_full() {
            return Answer::Full;
        }
        match self.ledger.wait(seat.who, thrown) {
            Ok(()) => {
                seat.waits = true;
                self.seats.change(task, seat);
                self.entries += 1;
                Answer::Waits
            }
            Err((LedgerFault::NoMemory, _)) => Answer::NoMemory,
            Err((LedgerFault::NotYet { .. }, _)) => unreachable!(),
            Err((LedgerFault::Lost { .. }, _)) => unreachable!(),
        }
    }

    /// Ends a task.
    pub(crate) fn end(&mut self, task: TaskId, thrown: Faults) -> Answer
        requires { (p : ℕ) × (es : List Entry) × StandsAfter self.old p es }
        ensures { (p : ℕ) (es : List Entry) → StandsAfter self.old p es → IsReplyTo p es (End task thrown) result (StandsAfter self.new p) }
    {
        let Some(seat) = self.live(task) else {
            return Answer::Bad;
        };
        if seat.who.inner != seat.who.scope {
            return Answer::Bad;
        }
        if self.is_full() {
            return Answer::Full;
        }
        match self.ledger.end(seat.who, thrown) {
            Ok(()) => {
                self.seats.leave(task);
                self.entries += 1;
                Answer::Ended
            }
            Err((LedgerFault::NoMemory, _)) => Answer::NoMemory,
            Err((LedgerFault::NotYet { .. }, _)) => unreachable!(),
            Err((LedgerFault::Lost { .. }, _)) => unreachable!(),
        }
    }
}
