// Who waits for the release of which scope, and of which scopes that may be possible.
ghost use Rattle.std.specs.Prelude.{◌≡◌, ◌==◌, ◌≤◌, ◌<◌, ◌↔◌, ℕ, cond, OnOk, OnErr, IsTrue, IfSome, IfNone, Some, None, is_some};
ghost use Rattle.rx_coordinator.specs.declared.waiters.Waiter.TheVariants.{Task, Root};
ghost use Rattle.rx_coordinator.specs.Waiters.{waiter_at, ScopeIsDue};

use rx_base::{NoMemory, ScopeId, TaskId};
use std::alloc::Global;
use std::collections::BTreeMap;

/// Who waits for a release.
#[derive(Clone, Copy, Debug, PartialEq, Eq)]
pub enum Waiter {
    /// A task, for that of its innermost scope.
    Task(TaskId),
    /// The host, for that of the root.
    Root,
}

/// Who waits for which scope.
#[derive(Drop)]
pub struct Waiters {
    pub(crate) rows: BTreeMap<u32, Waiter>,
}

impl Waiters {
    /// No one.
    pub fn none(alloc: Global) -> Waiters
        ensures { (q : ℕ) → waiter_at result q ≡ None }
    {
        Waiters {
            rows: BTreeMap::new(alloc),
        }
    }

    /// Who waits for this scope.
    pub fn at(&self, scope: ScopeId) -> Option<Waiter>
        ensures { result ≡ waiter_at self.now scope.0 }
    {
        match self.rows.get(&scope.0) {
            Some(waiter) => Some(*waiter),
            None => None,
        }
    }

    /// Whether this task waits for this scope.
    pub fn has(&self, scope: ScopeId, task: TaskId) -> bool
        ensures { IsTrue result ↔ (waiter_at self.now scope.0 ≡ Some (Task task)) }
    {
        match self.at(scope) {
            Some(Waiter::Task(waits)) => waits == task,
            Some(Waiter::Root) => false,
            None => false,
        }
    }

    /// Whether the host waits for the root.
    pub fn has_host(&self) -> bool
        ensures { IsTrue result ↔ (waiter_at self.now 0 ≡ Some Root) }
    {
        match self.at(ScopeId(0)) {
            Some(Waiter::Root) => true,
            Some(Waiter::Task(_)) => false,
            None => false,
        }
    }

    /// Puts who waits for a scope into its row.
    pub fn put(&mut self, scope: ScopeId, waiter: Waiter) -> Result<(), NoMemory>
        ensures put { OnOk result ((q : ℕ) → waiter_at self.new q ≡ cond (q == scope.0) (Some waiter) (waiter_at self.old q)) }
        ensures refused { OnErr result ((q : ℕ) → waiter_at self.new q ≡ waiter_at self.old q) }
    {
        match self.rows.insert(scope.0, waiter) {
            Ok(_) => Ok(()),
            Err(_) => Err(NoMemory),
        }
    }

    /// Takes the row of a scope away.
    pub fn leave(&mut self, scope: ScopeId)
        ensures { (q : ℕ) → waiter_at self.new q ≡ cond (q == scope.0) None (waiter_at self.old q) }
    {
        let _ = self.rows.remove(&scope.0);
    }

    /// The first row from this number on.
    pub fn next(&self, from: ScopeId) -> Option<(ScopeId, Waiter)>
        ensures some { IfSome result (λ x. (from.0 ≤ x.0.0) × (waiter_at self.now x.0.0 ≡ Some x.1)
            × ((q : ℕ) → from.0 ≤ q → q < x.0.0 → waiter_at self.now q ≡ None)) }
        ensures none { IfNone result ((q : ℕ) → from.0 ≤ q → waiter_at self.now q ≡ None) }
    {
        match self.rows.range(from.0..).next() {
            Some((scope, waiter)) => Some((ScopeId(*scope), *waiter)),
            None => None,
        }
    }
}

/// The scopes for which someone may wait whose release is possible now.
#[derive(Clone, Copy, Debug, PartialEq, Eq)]
pub enum Due {
    Nothing,
    One(ScopeId),
    From(ScopeId),
}

impl Due {
    /// One scope more.
    pub fn with(self, scope: ScopeId) -> Due
        ensures here { ScopeIsDue result scope.0 }
        ensures others { (q : ℕ) → ScopeIsDue self q → ScopeIsDue result q }
        ensures more { (q n : ℕ) → ScopeIsDue self q → ScopeIsDue result n }
    {
        match self {
            Due::Nothing => Due::One(scope),
            _ => Due::From(ScopeId(0)),
        }
    }

    /// Without this scope and those before it.
    pub fn past(self, scope: ScopeId) -> Due
        ensures kept { (n : ℕ) → ScopeIsDue self n → ScopeIsDue self scope.0 → scope.0 < n → ScopeIsDue result n }
        ensures later { (n : ℕ) → ScopeIsDue result n → scope.0 ≤ n }
    {
        match self {
            Due::From(_) => Due::From(ScopeId(scope.0.saturating_add(1))),
            _ => Due::Nothing,
        }
    }
}
