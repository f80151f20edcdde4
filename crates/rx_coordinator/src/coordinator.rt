// The coordinator.
ghost use Rattle.std.specs.Prelude.{◌≡◌, ◌↔◌, ◌+◌, ◌<◌, ◌≤◌, ◌-◌, ◌^◌, ℕ, [], true, false, List, IfOk, IsTrue};
ghost use Rattle.rx_rules.specs.declared.entries.Entry.{Entry};
ghost use Rattle.rx_rules.specs.declared.entries.Entry.TheVariants.{Death};
ghost use Rattle.rx_rules.specs.Entries.{Allowed};
ghost use Rattle.rx_finish.specs.Callers.{HasRoot};
ghost use Rattle.rx_rules.specs.Tree.{scope_of};
ghost use Rattle.rx_rules.specs.Fold.{tree_of};
ghost use Rattle.rx_coordinator.specs.Seats.{seat_at};
ghost use Rattle.rx_coordinator.specs.Stands.{StandsAfter, HasMore};
ghost use Rattle.rx_coordinator.specs.Inside.Rows.{finish_in, parent_in, scope_in, live_in, away_in, held_in};

use crate::seats::{Seat, Seats};
use rx_base::{NoMemory, PlaceId, ScopeId, TaskId};
use rx_counts::CountLedger;
use rx_finish::Caller;
use rx_rules::{Kind, Where};
use std::alloc::Global;

/// The tree of tasks and scopes of jobs that run elsewhere: counts of its scopes, and a row for each of its unstruck tasks.
#[derive(Drop)]
pub struct Coordinator {
    pub(crate) ledger: CountLedger,
    pub(crate) seats: Seats,
    /// How many entries there are so far.
    pub(crate) entries: u32,
}

impl Coordinator {
    /// A coordinator of so many places, before the first entry: task 0 is at place 0 under the root.
    pub fn open(alloc: Global, places: u8) -> Result<Coordinator, NoMemory>
        requires { (1 ≤ places) × (places ≤ 16) }
        ensures { IfOk result (λ c. StandsAfter c places []) }
    {
        let ledger = CountLedger::open(alloc, places)?;
        let mut seats = Seats::none(alloc);
        let main = Seat {
            who: Caller {
                task: TaskId(0),
                scope: ScopeId(0),
                inner: ScopeId(0),
                place: Where::At(PlaceId(0)),
            },
            waits: false,
        };
        seats.put(TaskId(0), main)?;
        Ok(Coordinator {
            ledger,
            seats,
            entries: 0,
        })
    }

    /// Whether no entry may be added any more.
    pub(crate) fn is_full(&self) -> bool
        ensures { IsTrue result ↔ (2 ^ 32 - 1 ≤ self.now.entries) }
    {
        self.entries == u32::MAX
    }

    /// Whether no task or no scope may be numbered any more.
    pub(crate) fn wants_numbers(&self) -> bool
        requires { (p : ℕ) × (es : List Entry) × StandsAfter self.now p es }
        ensures more { (p : ℕ) (es : List Entry) → StandsAfter self.now p es → result ≡ false → HasMore (tree_of p es) }
        ensures none { (p : ℕ) (es : List Entry) → StandsAfter self.now p es → result ≡ true → HasMore (tree_of p es) → ⊥ }
    {
        let most = (1 << 31) - 1;
        self.ledger.next_task() >= most || self.ledger.next_scope() >= most
    }

    /// Whether a scope that stands is of a finish.
    pub(crate) fn is_finish(&self, s: ScopeId) -> bool
        requires { (p : ℕ) × (es : List Entry) × StandsAfter self.now p es }
        ensures { (p : ℕ) (es : List Entry) → StandsAfter self.now p es → result ≡ finish_in (scope_of (tree_of p es) s) }
    {
        match self.ledger.scope_seen(s) {
            Some(seen) => match seen.kind {
                Kind::Finish => true,
                Kind::Call => false,
            },
            None => false,
        }
    }

    /// The parent of a scope that stands.
    pub(crate) fn parent_of(&self, s: ScopeId) -> ScopeId
        requires { (p : ℕ) × (es : List Entry) × StandsAfter self.now p es }
        ensures { (p : ℕ) (es : List Entry) → StandsAfter self.now p es → result ≡ parent_in (scope_of (tree_of p es) s) }
    {
        match self.ledger.scope_seen(s) {
            Some(seen) => match seen.parent {
                Some(parent) => parent,
                None => ScopeId(0),
            },
            None => ScopeId(0),
        }
    }

    /// Whether there is such a place.
    pub(crate) fn has_place(&self, place: PlaceId) -> bool
        requires { (p : ℕ) × (es : List Entry) × StandsAfter self.now p es }
        ensures { (p : ℕ) (es : List Entry) → StandsAfter self.now p es → IsTrue result ↔ (place.0 < (tree_of p es).places) }
    {
        place.0 < self.ledger.places()
    }

    /// Whether a place may die.
    pub(crate) fn may_die(&self, place: PlaceId) -> bool
        requires { (p : ℕ) × (es : List Entry) × StandsAfter self.now p es }
        ensures { (p : ℕ) (es : List Entry) → StandsAfter self.now p es → IsTrue result ↔ Allowed (tree_of p es) (Death place) }
    {
        if !self.has_place(place) {
            return false;
        }
        if place.0 == 0 {
            return false;
        }
        !self.ledger.has_died(place)
    }

    /// Whether the root stands.
    pub(crate) fn has_root(&self) -> bool
        requires { (p : ℕ) × (es : List Entry) × StandsAfter self.now p es }
        ensures { (p : ℕ) (es : List Entry) → StandsAfter self.now p es → IsTrue result ↔ HasRoot (tree_of p es) }
    {
        self.ledger.scope_seen(ScopeId(0)).is_some()
    }

    /// The scope that a task hangs under, and else the root.
    pub(crate) fn under(&self, task: TaskId) -> ScopeId
        ensures { result ≡ scope_in (seat_at self.now.seats task.0) }
    {
        match self.seats.at(task) {
            Some(seat) => seat.who.scope,
            None => ScopeId(0),
        }
    }

    /// The row of a task that is at a place and does not wait.
    pub(crate) fn live(&self, task: TaskId) -> Option<Seat>
        ensures { result ≡ live_in (seat_at self.now.seats task.0) }
    {
        let seat = self.seats.at(task)?;
        match seat.who.place {
            Where::At(_) => (!seat.waits).then_some(seat),
            Where::Travel { .. } => None,
        }
    }

    /// The row of a task that travels.
    pub(crate) fn away(&self, task: TaskId) -> Option<Seat>
        ensures { result ≡ away_in (seat_at self.now.seats task.0) }
    {
        let seat = self.seats.at(task)?;
        match seat.who.place {
            Where::At(_) => None,
            Where::Travel { .. } => Some(seat),
        }
    }

    /// The row of a task that waits.
    pub(crate) fn held(&self, task: TaskId) -> Option<Seat>
        ensures { result ≡ held_in (seat_at self.now.seats task.0) }
    {
        let seat = self.seats.at(task)?;
        seat.waits.then_some(seat)
    }
}
