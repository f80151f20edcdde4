// The releases that wait for their scopes to be quiet.
ghost use Rattle.std.specs.Prelude.{◌≡◌, ◌⊎◌, ◌≤◌, ℕ, true, [], List, length, IfOk, IfSome, IfNone, Some};
ghost use Rattle.rx_rules.specs.declared.entries.Entry.{Entry};
ghost use Rattle.rx_rules.specs.Tree.{the_root, on_chain};
ghost use Rattle.rx_rules.specs.Fold.{tree_of};
ghost use Rattle.rx_coordinator.specs.declared.requests.Request.TheVariants.{Release, End, Death, Root};
ghost use Rattle.rx_coordinator.specs.declared.waiters.Waiter.TheVariants.{Root as Host};
ghost use Rattle.rx_coordinator.specs.declared.parking.Retried.TheVariants.{Passed};
ghost use Rattle.rx_coordinator.specs.Telling.{seat_told};
ghost use Rattle.rx_coordinator.specs.Stands.{StandsAfter, IsReplyTo};
ghost use Rattle.rx_coordinator.specs.Waiters.{waiter_at, ScopeIsDue};
ghost use Rattle.rx_coordinator.specs.Parking.{Parks, AskedBeside, FreedIs, request_of};
ghost use Rattle.rx_coordinator.specs.Inside.Walks.{Nearest, AllThere, AllDue, NextDue, RetriedIs, ParkedIs};

use crate::coordinator::Coordinator;
use crate::requests::{Answer, Request};
use crate::seats::Seat;
use crate::waiters::{Due, Waiter, Waiters};
use rx_base::{Faults, NoMemory, PlaceId, ScopeId, TaskId};
use rx_finish::Outcome;
use std::alloc::Global;

/// A coordinator with those who wait for releases.
#[derive(Drop)]
pub struct Parking {
    pub(crate) core: Coordinator,
    pub(crate) waiters: Waiters,
    /// Whom to ask next. Of all others that wait none can go on.
    pub(crate) due: Due,
}

/// What comes of the releases that wait.
#[derive(Drop)]
pub enum Freed {
    /// This one is answered: the release of the scope, for which the waiter has waited.
    One {
        scope: ScopeId,
        waiter: Waiter,
        outcome: Outcome,
    },
    /// None can be answered.
    NoOne,
    /// Memory or numbers are wanted for the next one. It is asked for again at the next call.
    Short,
}

/// What comes of a release that is asked for again.
#[derive(Drop)]
enum Retried {
    Freed { outcome: Outcome },
    /// It has to wait on, or a death has struck who waits.
    Passed,
    Short,
}

impl Parking {
    /// A coordinator of so many places, before the first entry. Nobody waits.
    pub fn open(alloc: Global, places: u8) -> Result<Parking, NoMemory>
        requires { (1 ≤ places) × (places ≤ 16) }
        ensures parks { IfOk result (λ k. Parks k places []) }
        ensures none { IfOk result (λ k. (n : ℕ) → waiter_at k.waiters n ≡ None) }
    {
        let core = Coordinator::open(alloc, places)?;
        let waiters = Waiters::none(alloc);
        Ok(Parking {
            core,
            waiters,
            due: Due::Nothing,
        })
    }

    /// How many entries there are so far.
    pub fn entries(&self) -> u32
        ensures { (p : ℕ) (es : List Entry) → Parks self.now p es → result ≡ length es }
    {
        self.core.entries
    }

    /// The row of a task, where it stands and no death has struck it.
    pub fn seat(&self, task: TaskId) -> Option<Seat>
        ensures { (p : ℕ) (es : List Entry) → Parks self.now p es → result ≡ seat_told (tree_of p es) task }
    {
        self.core.seats.at(task)
    }

    /// Answers a request. A release that is not possible yet waits from then on, and who waits already may not ask again.
    pub fn ask(&mut self, request: Request) -> Answer
        requires { (p : ℕ) × (es : List Entry) × Parks self.old p es }
        ensures { (p : ℕ) (es : List Entry) → Parks self.old p es
            → AskedBeside p es request self.old.waiters result (Parks self.new p) self.new.waiters }
    {
        match request {
            Request::Release { task } => self.ask_release(task),
            Request::Root => self.ask_root(),
            Request::End { task, thrown } => self.ask_end(task, thrown),
            Request::Death { place } => self.ask_death(place),
            _ => self.core.ask(request),
        }
    }

    /// Answers the release of a task.
    fn ask_release(&mut self, task: TaskId) -> Answer
        requires { (p : ℕ) × (es : List Entry) × Parks self.old p es }
        ensures { (p : ℕ) (es : List Entry) → Parks self.old p es
            → AskedBeside p es (Release task) self.old.waiters result (Parks self.new p) self.new.waiters }
    {
        let Some(seat) = self.core.held(task) else {
            return Answer::Bad;
        };
        if self.waiters.has(seat.who.inner, task) {
            return Answer::Bad;
        }
        match self.core.release(task) {
            Answer::NotYet { place } => self.park(seat.who.inner, Waiter::Task(task), place),
            answer => answer,
        }
    }

    /// Answers the release of the root.
    fn ask_root(&mut self) -> Answer
        requires { (p : ℕ) × (es : List Entry) × Parks self.old p es }
        ensures { (p : ℕ) (es : List Entry) → Parks self.old p es
            → AskedBeside p es Root self.old.waiters result (Parks self.new p) self.new.waiters }
    {
        if self.waiters.has_host() {
            return Answer::Bad;
        }
        match self.core.release_root() {
            Answer::NotYet { place } => self.park(ScopeId(0), Waiter::Root, place),
            answer => answer,
        }
    }

    /// Lets someone wait for a scope under which there is a task, at this place or on its way there.
    fn park(&mut self, scope: ScopeId, waiter: Waiter, place: PlaceId) -> Answer
        ensures same { self.new ≡ record self.old { waiters = self.new.waiters } }
        ensures parked { ParkedIs scope waiter place self.old.waiters result self.new.waiters }
    {
        match self.waiters.put(scope, waiter) {
            Ok(()) => Answer::NotYet { place },
            Err(_) => Answer::NoMemory,
        }
    }

    /// Answers the end of a task. Of those who wait it can let only one go on.
    fn ask_end(&mut self, task: TaskId, thrown: Faults) -> Answer
        requires { (p : ℕ) × (es : List Entry) × Parks self.old p es }
        ensures { (p : ℕ) (es : List Entry) → Parks self.old p es
            → AskedBeside p es (End task thrown) self.old.waiters result (Parks self.new p) self.new.waiters }
    {
        let under = self.core.under(task);
        match self.core.end(task, thrown) {
            Answer::Ended => {
                self.wake(under);
                Answer::Ended
            }
            answer => answer,
        }
    }

    /// Answers a death. It may let all who wait go on.
    fn ask_death(&mut self, place: PlaceId) -> Answer
        requires { (p : ℕ) × (es : List Entry) × Parks self.old p es }
        ensures { (p : ℕ) (es : List Entry) → Parks self.old p es
            → AskedBeside p es (Death place) self.old.waiters result (Parks self.new p) self.new.waiters }
    {
        match self.core.die(place) {
            Answer::Died => {
                self.due = Due::From(ScopeId(0));
                Answer::Died
            }
            answer => answer,
        }
    }

    /// Of the scopes from this one along parents, the first for which someone waits is due.
    fn wake(&mut self, from: ScopeId)
        requires { (p : ℕ) × (es : List Entry) × StandsAfter self.old.core p es × (on_chain (tree_of p es) the_root from ≡ true) }
        ensures same { self.new ≡ record self.old { due = self.new.due } }
        ensures kept { (n : ℕ) → ScopeIsDue self.old.due n → ScopeIsDue self.new.due n }
        ensures due { (p : ℕ) (es : List Entry) → StandsAfter self.old.core p es → on_chain (tree_of p es) the_root from ≡ true
            → AllThere (tree_of p es) self.old.waiters self.old.due → AllDue (tree_of p es) self.old.waiters from self.new.due }
    {
        if let Some(scope) = self.nearest(from) {
            self.due = self.due.with(scope);
        }
    }

    /// Of the scopes from this one along parents, the first for which someone waits.
    fn nearest(&self, from: ScopeId) -> Option<ScopeId>
        requires { (p : ℕ) × (es : List Entry) × StandsAfter self.now.core p es × (on_chain (tree_of p es) the_root from ≡ true) }
        ensures { (p : ℕ) (es : List Entry) → StandsAfter self.now.core p es → on_chain (tree_of p es) the_root from ≡ true
            → Nearest (tree_of p es) self.now.waiters from result }
    {
        let mut scope = from;
        'scopes: while self.waiters.at(scope).is_none() {
            if scope.0 == 0 {
                return None;
            }
            scope = self.core.parent_of(scope);
        }
        Some(scope)
    }

    /// Answers one release that waits and is possible now.
    pub fn free(&mut self) -> Freed
        requires { (p : ℕ) × (es : List Entry) × Parks self.old p es }
        ensures { (p : ℕ) (es : List Entry) → Parks self.old p es → FreedIs p es result self.old.waiters (Parks self.new p) self.new.waiters }
    {
        'turns: for _ in 0..u64::MAX {
            let Some((scope, waiter)) = self.next_due() else {
                self.due = Due::Nothing;
                return Freed::NoOne;
            };
            match self.retry(scope, waiter) {
                Retried::Freed { outcome } => {
                    return Freed::One {
                        scope,
                        waiter,
                        outcome,
                    };
                }
                Retried::Passed => {}
                Retried::Short => return Freed::Short,
            }
        }
        Freed::Short
    }

    /// The first scope that is due and for which someone waits.
    fn next_due(&self) -> Option<(ScopeId, Waiter)>
        ensures { NextDue self.now.waiters self.now.due result }
    {
        match self.due {
            Due::Nothing => None,
            Due::One(scope) => match self.waiters.at(scope) {
                Some(waiter) => Some((scope, waiter)),
                None => None,
            },
            Due::From(from) => self.waiters.next(from),
        }
    }

    /// Asks again for a release that waits, and is the first one that is due.
    fn retry(&mut self, scope: ScopeId, waiter: Waiter) -> Retried
        requires parks { (p : ℕ) × (es : List Entry) × Parks self.old p es }
        requires next { NextDue self.old.waiters self.old.due (Some (scope, waiter)) }
        ensures later { result ≡ Passed → (n : ℕ) → ScopeIsDue self.new.due n → scope.0 ≤ n }
        ensures parks { (p : ℕ) (es : List Entry) → Parks self.old p es
            → RetriedIs p es scope.0 waiter result self.old.waiters (Parks self.new p) self.new.waiters }
    {
        match self.ask_again(waiter) {
            Answer::Released { outcome } => {
                self.waiters.leave(scope);
                Retried::Freed { outcome }
            }
            Answer::RootDone { outcome } => {
                self.waiters.leave(scope);
                Retried::Freed { outcome }
            }
            Answer::NotYet { .. } => {
                self.due = self.due.past(scope);
                Retried::Passed
            }
            Answer::Bad => {
                self.waiters.leave(scope);
                self.due = self.due.past(scope);
                Retried::Passed
            }
            _ => Retried::Short,
        }
    }

    /// Asks for a release that waits.
    fn ask_again(&mut self, waiter: Waiter) -> Answer
        requires { (p : ℕ) × (es : List Entry) × StandsAfter self.old.core p es }
        ensures same { self.new ≡ record self.old { core = self.new.core } }
        ensures asked { (p : ℕ) (es : List Entry) → StandsAfter self.old.core p es → IsReplyTo p es (request_of waiter) result (StandsAfter self.new.core p) }
    {
        match waiter {
            Waiter::Task(task) => self.core.release(task),
            Waiter::Root => self.core.release_root(),
        }
    }
}
