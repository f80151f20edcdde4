//! Laws of contracts. They do nothing when they run.
ghost use Rattle.rx_ledger.specs.Calling.{CallsGoOn, CallsKeepOthers, CallsOwn, CallsSpareScopes, StartedAreNew};
ghost use Rattle.rx_ledger.specs.GoingOn.{ChildrenBegin, TicketsGoOn};
ghost use Rattle.rx_ledger.specs.Owned.{MayEndNext, MayWaitNext, NumbersAreLeft, OwnedAsTold};
ghost use Rattle.rx_ledger.specs.Staying.{EntryKeepsTicket, TicketsStayGood};
ghost use Rattle.rx_ledger.specs.TermAsks.{LawOfAsking};

// So the ticket that comes with `Released` names the inner scope of its task.
pub use rx_chronicle::laws::release_uncovers_parent;

/// A law: the ticket that comes with `Opened`, `Spawned`, `Landed`, `Released` or `Printed` is of a task that may go on, and the one
/// that comes with `Called` or `Waits` of a task that may ask for its release, as long as numbers of tasks and scopes suffice. A
/// request that comes back may be made again.
pub fn tickets_go_on()
    ensures { TicketsGoOn }
{}

/// A law: the ticket of a task that was started is of a task that may go on where it is, or that may arrive.
pub fn children_begin()
    ensures { ChildrenBegin }
{}

/// A law: a request that may be applied may be applied after an entry of another task, after a death and after the root's release
/// too, as long as numbers of tasks and scopes suffice.
pub fn entry_keeps_ticket()
    ensures { EntryKeepsTicket }
{}

/// A law: a request that may be applied at the end of a history may be applied at the end of each longer one to which its task
/// has added nothing, as long as numbers of tasks and scopes suffice. So a ticket stays good while other tasks act.
pub fn tickets_stay_good()
    ensures { TicketsStayGood }
{}

/// A law: a task that stands in the tree, struck or not, has opened and not released the scopes that its own entries tell.
pub fn owned_as_told()
    ensures { OwnedAsTold }
{}

/// A law: a task that may go on and whose newest scope, as its entries tell, is a finish may wait.
pub fn may_wait_next()
    ensures { MayWaitNext }
{}

/// A law: a task that may go on and has no scope, as its entries tell, may end.
pub fn may_end_next()
    ensures { MayEndNext }
{}

/// A law: what the term of a task does next, the ledger may be asked. The task waits where its term waits, and its open scopes are
/// those of its term.
pub fn law_of_asking()
    ensures { LawOfAsking }
{}

/// A law: a history of fewer than 2^31 - 1 entries leaves numbers for more tasks and scopes.
pub fn numbers_are_left()
    ensures { NumbersAreLeft }
{}

/// A law: after a call the caller's ticket that the reply holds serves what `tickets_go_on` says, the tickets of tasks that were
/// started serve what `children_begin` says, and a request that came back may be made again. It is said of what is seen.
pub fn calls_go_on()
    ensures { CallsGoOn }
{}

/// A law: what another task may ask before a call it may ask after it.
pub fn calls_keep_others()
    ensures { CallsKeepOthers }
{}

/// A law: the reply tells which scopes the caller has opened and not released: `Opened` adds a finish, `Called` an `at`, `Released`
/// takes the newest away, and all others leave them.
pub fn calls_own()
    ensures { CallsOwn }
{}

/// A law: a call leaves the scopes of all tasks but its caller, as their entries tell them.
pub fn calls_spare_scopes()
    ensures { CallsSpareScopes }
{}

/// A law: a task that is started has a number that no task has which might ask for something before the call, and no scopes.
pub fn started_are_new()
    ensures { StartedAreNew }
{}
