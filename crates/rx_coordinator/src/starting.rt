// The requests of a task that starts another one.
ghost use Rattle.std.specs.Prelude.{◌<◌, ◌≤◌, ◌-◌, ◌^◌, ℕ, List};
ghost use Rattle.rx_rules.specs.declared.entries.Entry.{Entry};
ghost use Rattle.rx_coordinator.specs.declared.requests.Request.TheVariants.{At, Spawn, Send};
ghost use Rattle.rx_coordinator.specs.Stands.{StandsAfter, IsReplyTo, Landing};

use crate::coordinator::Coordinator;
use crate::requests::Answer;
use rx_base::{PlaceId, TaskId};
use rx_finish::{FinishLedger, LedgerFault, place_of};

impl Coordinator {
    /// Starts a callee, for which the task waits.
    pub(crate) fn call(&mut self, task: TaskId, to: PlaceId) -> Answer
        requires { (p : ℕ) × (es : List Entry) × StandsAfter self.old p es }
        ensures { (p : ℕ) (es : List Entry) → StandsAfter self.old p es → IsReplyTo p es (At task to) result (StandsAfter self.new p) }
    {
        let Some(mut seat) = self.live(task) else {
            return Answer::Bad;
        };
        if !self.has_place(to) {
            return Answer::Bad;
        }
        if self.is_full() {
            return Answer::Full;
        }
        if self.wants_numbers() {
            return Answer::Full;
        }
        let child = TaskId(self.ledger.next_task());
        let Ok(()) = self.seats.put(child, seat) else {
            return Answer::NoMemory;
        };
        match self.ledger.open_at(seat.who, to) {
            Ok(born) => {
                self.seats.settle(born, place_of(seat.who.place), to);
                seat.who.inner = born.scope;
                seat.waits = true;
                self.seats.change(task, seat);
                self.entries += 1;
                Answer::Called { born }
            }
            Err(LedgerFault::NoMemory) => {
                self.seats.leave(child);
                Answer::NoMemory
            }
            Err(LedgerFault::NotYet { .. }) => unreachable!(),
            Err(LedgerFault::Lost { .. }) => unreachable!(),
        }
    }

    /// Starts a task.
    pub(crate) fn spawn(&mut self, task: TaskId, to: PlaceId) -> Answer
        requires { (p : ℕ) × (es : List Entry) × StandsAfter self.old p es }
        ensures { (p : ℕ) (es : List Entry) → StandsAfter self.old p es → IsReplyTo p es (Spawn task to) result (StandsAfter self.new p) }
    {
        let Some(seat) = self.live(task) else {
            return Answer::Bad;
        };
        if !self.has_place(to) {
            return Answer::Bad;
        }
        if self.is_full() {
            return Answer::Full;
        }
        if self.wants_numbers() {
            return Answer::Full;
        }
        let child = TaskId(self.ledger.next_task());
        let Ok(()) = self.seats.put(child, seat) else {
            return Answer::NoMemory;
        };
        match self.ledger.spawn(seat.who, to) {
            Ok(born) => {
                self.seats.settle(born, place_of(seat.who.place), to);
                self.entries += 1;
                Answer::Spawned { born }
            }
            Err(LedgerFault::NoMemory) => {
                self.seats.leave(child);
                Answer::NoMemory
            }
            Err(LedgerFault::NotYet { .. }) => unreachable!(),
            Err(LedgerFault::Lost { .. }) => unreachable!(),
        }
    }

    /// Starts a task, and lands it where it travels.
    pub(crate) fn send(&mut self, task: TaskId, to: PlaceId) -> Answer
        requires { (p : ℕ) × (es : List Entry) × StandsAfter self.old p es }
        ensures { (p : ℕ) (es : List Entry) → StandsAfter self.old p es → IsReplyTo p es (Send task to) result (StandsAfter self.new p) }
    {
        if self.entries >= u32::MAX - 1 {
            return self.refuse_start(task, to);
        }
        match self.spawn(task, to) {
            Answer::Spawned { born } => {
                self.land_child(born.child);
                Answer::Sent { born }
            }
            Answer::Bad => Answer::Bad,
            Answer::Full => Answer::Full,
            Answer::NoMemory => Answer::NoMemory,
            _ => unreachable!(),
        }
    }

    /// The answer to a request to start a task for which there are no numbers left.
    fn refuse_start(&self, task: TaskId, to: PlaceId) -> Answer
        requires stands { (p : ℕ) × (es : List Entry) × StandsAfter self.now p es }
        requires full { 2 ^ 32 - 2 ≤ self.now.entries }
        ensures { (p : ℕ) (es : List Entry) → StandsAfter self.now p es → IsReplyTo p es (Send task to) result (StandsAfter self.now p) }
    {
        let Some(_seat) = self.live(task) else {
            return Answer::Bad;
        };
        if !self.has_place(to) {
            return Answer::Bad;
        }
        Answer::Full
    }

    /// Lands a task that has just started, where it travels. The condition is room for one more entry.
    fn land_child(&mut self, child: TaskId)
        requires stands { (p : ℕ) × (es : List Entry) × StandsAfter self.old p es }
        requires room { self.old.entries < 2 ^ 32 - 1 }
        ensures { (p : ℕ) (es : List Entry) → StandsAfter self.old p es → Landing p es child (StandsAfter self.new p) }
    {
        if let Some(seat) = self.away(child) {
            self.land(child, seat);
        }
    }
}
