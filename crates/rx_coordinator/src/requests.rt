// What a coordinator is asked, and what it answers.
use rx_base::{Faults, PlaceId, ScopeId, TaskId};
use rx_finish::{Born, Outcome};

/// A request. Nothing is known of it: the task may be unknown, in another state, or not the asker's.
#[derive(Drop)]
pub enum Request {
    /// The task begins a finish.
    Open { task: TaskId },
    /// The task starts a callee at a place, and waits for it and all that it starts.
    At { task: TaskId, to: PlaceId },
    /// The task starts another one for a place.
    Spawn { task: TaskId, to: PlaceId },
    /// The task starts another one for a place, and that one arrives there at once.
    Send { task: TaskId, to: PlaceId },
    /// The task has arrived where it travels to.
    Arrive { task: TaskId },
    /// The body of the task's innermost finish has ended with these faults, and the task waits.
    Wait { task: TaskId, thrown: Faults },
    /// The task releases the scope at which it waits.
    Release { task: TaskId },
    /// The task has ended with these faults.
    End { task: TaskId, thrown: Faults },
    /// A place has died.
    Death { place: PlaceId },
    /// A place joins.
    Join,
    /// The host releases the root.
    Root,
}

/// An answer. `Bad`, `Full`, `NoMemory` and `NotYet` change nothing.
#[derive(Drop)]
pub enum Answer {
    /// There is no such task, or it, the place or the host may not ask for this now.
    Bad,
    /// The request is allowed, but numbers of tasks, scopes or entries are used up. They never come back.
    Full,
    /// The request is allowed, but memory ran out. The same may be asked again.
    NoMemory,
    /// An unstruck task is under the scope that is to be released; it is at this place or travels there.
    NotYet { place: PlaceId },
    Opened { scope: ScopeId },
    Called { born: Born },
    Spawned { born: Born },
    /// The task has started. It has arrived, too, where it travelled.
    Sent { born: Born },
    Landed,
    Waits,
    Released { outcome: Outcome },
    Ended,
    Died,
    Joined { place: PlaceId },
    RootDone { outcome: Outcome },
}
