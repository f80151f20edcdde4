// Sessions of a coordinator, request by request.
ghost use Rattle.std.specs.Prelude.{◌≤◌, ℕ, List};
ghost use Rattle.rx_rules.specs.declared.entries.Entry.{Entry};
ghost use Rattle.rx_coordinator.specs.Parking.{Parks};

use crate::same::same;
use rx_base::{Fault, Faults, NoMemory, PlaceId, TaskId};
use rx_coordinator::{Answer, Freed, Parking, Request, Waiter};
use rx_finish::{Born, Outcome};
use std::alloc::Global;
use std::process::Abort;
use std::test::Fail;

// What is asked, by the numbers of tasks and places. Who throws ends with a fault, and has none else.
#[derive(Clone, Copy)]
enum Ask {
    Opens(u32),
    Calls(u32, u8),
    Spawns(u32, u8),
    Sends(u32, u8),
    Arrives(u32),
    Waits(u32),
    Releases(u32),
    Ends(u32),
    Throws(u32, i64),
    Dies(u8),
    Joins,
    Root,
    // The next of the releases that wait.
    Frees,
}

// What is told. A release tells the places that lost tasks, as bits, how many faults are masked, and the first fault. Where a request is
// not possible yet, the place that is told is left out, since any that hinders it may be told.
#[derive(Clone, Copy, Debug, PartialEq, Eq)]
enum Told {
    Bad,
    Short,
    Parked,
    Opened(u32),
    // A task and its scope.
    Started(u32, u32),
    // The same for a dead place.
    Lost(u32, u32),
    Landed,
    Waiting,
    Released(u16, u32, Option<i64>),
    Ended,
    Died,
    Joined(u8),
    FreedTask(u32, u16, u32, Option<i64>),
    FreedRoot(u16, u32, Option<i64>),
    FreedNone,
}

use Ask::{
    Arrives, Calls, Dies, Ends, Frees, Joins, Opens, Releases, Root, Sends, Spawns, Throws, Waits,
};
use Told::{
    Bad, Died, Ended, FreedNone, FreedRoot, FreedTask, Joined, Landed, Lost, Opened, Parked,
    Released, Short, Started, Waiting,
};

// What is asked, what is told, and how many entries there are then.
type Row = (Ask, Told, u32);

// The session of docs/coordinator.md. It opens with one place.
const WORKED: &[Row] = &[
    (Joins, Joined(1), 1),
    (Joins, Joined(2), 2),
    (Opens(0), Opened(1), 3),
    (Spawns(0, 1), Started(1, 1), 4),
    (Sends(0, 2), Started(2, 1), 6),
    (Arrives(1), Landed, 7),
    (Calls(2, 0), Started(3, 2), 8),
    (Arrives(3), Landed, 9),
    (Waits(0), Waiting, 10),
    (Releases(0), Parked, 10),
    (Throws(3, 7), Ended, 11),
    (Frees, FreedNone, 11),
    (Releases(2), Released(0, 0, Some(7)), 12),
    (Dies(2), Died, 13),
    (Frees, FreedNone, 13),
    (Ends(2), Bad, 13),
    (Throws(1, 5), Ended, 14),
    (Frees, FreedTask(0, 0b100, 0, Some(5)), 15),
    (Frees, FreedNone, 15),
    (Sends(0, 2), Lost(4, 0), 16),
    (Ends(0), Ended, 17),
    (Root, Released(0b100, 0, None), 18),
];

// A release that waits is freed by a death. Until then its task may ask for nothing, and refusals change nothing. Three places.
const FREED_BY_A_DEATH: &[Row] = &[
    (Opens(0), Opened(1), 1),
    (Sends(0, 1), Started(1, 1), 3),
    (Sends(0, 2), Started(2, 1), 5),
    (Waits(0), Waiting, 6),
    (Releases(0), Parked, 6),
    (Opens(0), Bad, 6),
    (Calls(0, 1), Bad, 6),
    (Spawns(0, 1), Bad, 6),
    (Sends(0, 1), Bad, 6),
    (Arrives(0), Bad, 6),
    (Waits(0), Bad, 6),
    (Releases(0), Bad, 6),
    (Ends(0), Bad, 6),
    (Frees, FreedNone, 6),
    (Ends(1), Ended, 7),
    (Frees, FreedNone, 7),
    (Dies(2), Died, 8),
    (Frees, FreedTask(0, 0b100, 0, None), 9),
    (Frees, FreedNone, 9),
    (Ends(0), Ended, 10),
    (Root, Released(0, 0, None), 11),
];

// A death strikes a task whose release waits: it is told of no release, and the fault of its child is masked. Three places.
const STRUCK_WHILE_IT_WAITS: &[Row] = &[
    (Opens(0), Opened(1), 1),
    (Sends(0, 1), Started(1, 1), 3),
    (Opens(1), Opened(2), 4),
    (Sends(1, 2), Started(2, 2), 6),
    (Waits(1), Waiting, 7),
    (Releases(1), Parked, 7),
    (Waits(0), Waiting, 8),
    (Releases(0), Parked, 8),
    (Dies(1), Died, 9),
    (Frees, FreedNone, 9),
    (Releases(1), Bad, 9),
    (Throws(2, 9), Ended, 10),
    (Frees, FreedTask(0, 0b10, 1, None), 11),
    (Frees, FreedNone, 11),
];

// The release of the root waits for the last task. Two places.
const ROOT_WAITS: &[Row] = &[
    (Sends(0, 1), Started(1, 0), 2),
    (Root, Parked, 2),
    (Root, Bad, 2),
    (Ends(0), Ended, 3),
    (Frees, FreedNone, 3),
    (Throws(1, 4), Ended, 4),
    (Frees, FreedRoot(0, 0, Some(4)), 5),
    (Frees, FreedNone, 5),
    (Root, Bad, 5),
    (Joins, Joined(2), 6),
];

// A place that joins has a new number, and tasks for the dead one are lost at once. Two places.
const DEATH_AND_JOIN: &[Row] = &[
    (Dies(0), Bad, 0),
    (Dies(2), Bad, 0),
    (Dies(1), Died, 1),
    (Dies(1), Bad, 1),
    (Joins, Joined(2), 2),
    (Sends(0, 1), Lost(1, 0), 3),
    (Arrives(1), Bad, 3),
    (Ends(1), Bad, 3),
    (Spawns(0, 2), Started(2, 0), 4),
    (Opens(2), Bad, 4),
    (Ends(2), Bad, 4),
    (Arrives(2), Landed, 5),
    (Arrives(2), Bad, 5),
    (Sends(0, 3), Bad, 5),
    (Calls(0, 1), Lost(3, 1), 6),
    (Releases(0), Released(0b10, 0, None), 7),
    (Ends(2), Ended, 8),
    (Ends(0), Ended, 9),
    (Ends(0), Bad, 9),
    (Root, Released(0b10, 0, None), 10),
];

// There are 16 places at most. Fifteen to begin with.
const LAST_PLACE: &[Row] = &[
    (Joins, Joined(15), 1),
    (Joins, Bad, 1),
    (Sends(0, 15), Started(1, 0), 3),
    (Sends(0, 16), Bad, 3),
];

// Faults, of which there is this one.
fn one_fault(alloc: Global, value: i64) -> Result<Faults, NoMemory> {
    let mut thrown = Faults::open(alloc);
    thrown.push(Fault::Thrown(value))?;
    Ok(thrown)
}

// The request, or none where the next of those that wait is to be freed.
fn request_of(alloc: Global, ask: Ask) -> Result<Option<Request>, NoMemory> {
    match ask {
        Opens(t) => Ok(Some(Request::Open { task: TaskId(t) })),
        Calls(t, p) => Ok(Some(Request::At {
            task: TaskId(t),
            to: PlaceId(p),
        })),
        Spawns(t, p) => Ok(Some(Request::Spawn {
            task: TaskId(t),
            to: PlaceId(p),
        })),
        Sends(t, p) => Ok(Some(Request::Send {
            task: TaskId(t),
            to: PlaceId(p),
        })),
        Arrives(t) => Ok(Some(Request::Arrive { task: TaskId(t) })),
        Waits(t) => Ok(Some(Request::Wait {
            task: TaskId(t),
            thrown: Faults::open(alloc),
        })),
        Releases(t) => Ok(Some(Request::Release { task: TaskId(t) })),
        Ends(t) => Ok(Some(Request::End {
            task: TaskId(t),
            thrown: Faults::open(alloc),
        })),
        Throws(t, value) => Ok(Some(Request::End {
            task: TaskId(t),
            thrown: one_fault(alloc, value)?,
        })),
        Dies(p) => Ok(Some(Request::Death { place: PlaceId(p) })),
        Joins => Ok(Some(Request::Join)),
        Root => Ok(Some(Request::Root)),
        Frees => Ok(None),
    }
}

// The value of the first fault, if there is one.
fn first_thrown(faults: &Faults) -> Option<i64> {
    if faults.len() == 0 {
        return None;
    }
    match faults.item(0) {
        Fault::Thrown(value) => Some(value),
        _ => None,
    }
}

// What is told of a task that was started.
fn born_told(born: Born) -> Told {
    if born.lost {
        return Lost(born.child.0, born.scope.0);
    }
    Started(born.child.0, born.scope.0)
}

// What a release tells.
fn outcome_told(outcome: &Outcome) -> Told {
    Released(
        outcome.lost.0,
        outcome.masked,
        first_thrown(&outcome.thrown),
    )
}

// What an answer tells.
fn told_of(answer: &Answer) -> Told {
    match answer {
        Answer::Bad => Bad,
        Answer::Full => Short,
        Answer::NoMemory => Short,
        Answer::NotYet { .. } => Parked,
        Answer::Opened { scope } => Opened(scope.0),
        Answer::Called { born } => born_told(*born),
        Answer::Spawned { born } => born_told(*born),
        Answer::Sent { born } => born_told(*born),
        Answer::Landed => Landed,
        Answer::Waits => Waiting,
        Answer::Released { outcome } => outcome_told(outcome),
        Answer::Ended => Ended,
        Answer::Died => Died,
        Answer::Joined { place } => Joined(place.0),
        Answer::RootDone { outcome } => outcome_told(outcome),
    }
}

// What is told of a release that has waited.
fn told_freed(freed: &Freed) -> Told {
    match freed {
        Freed::One {
            waiter,
            outcome,
            ..
        } => {
            let thrown = first_thrown(&outcome.thrown);
            match waiter {
                Waiter::Task(task) => FreedTask(task.0, outcome.lost.0, outcome.masked, thrown),
                Waiter::Root => FreedRoot(outcome.lost.0, outcome.masked, thrown),
            }
        }
        Freed::NoOne => FreedNone,
        Freed::Short => Short,
    }
}

// Makes a request.
fn answered(parking: &mut Parking, request: Request) -> Told
    requires { (p : ℕ) × (es : List Entry) × Parks parking.old p es }
    ensures { (p : ℕ) × (es : List Entry) × Parks parking.new p es }
{
    let answer = parking.ask(request);
    told_of(&answer)
}

// Lets the next of those that wait go on.
fn next_freed(parking: &mut Parking) -> Told
    requires { (p : ℕ) × (es : List Entry) × Parks parking.old p es }
    ensures { (p : ℕ) × (es : List Entry) × Parks parking.new p es }
{
    let freed = parking.free();
    told_freed(&freed)
}

// What is heard of what is asked.
fn heard(parking: &mut Parking, alloc: Global, ask: Ask) -> Result<Told, NoMemory>
    requires { (p : ℕ) × (es : List Entry) × Parks parking.old p es }
    ensures { (p : ℕ) × (es : List Entry) × Parks parking.new p es }
{
    match request_of(alloc, ask)? {
        Some(request) => Ok(answered(parking, request)),
        None => Ok(next_freed(parking)),
    }
}

// Asks row by row.
fn plays<R: Abort>(
    rt: &R,
    alloc: Global,
    parking: &mut Parking,
    rows: &[Row],
) -> Result<(), NoMemory>
    requires { (p : ℕ) × (es : List Entry) × Parks parking.old p es }
{
    'rows: for (ask, want, entries) in rows {
        let answer = heard(parking, alloc, *ask)?;
        same(rt, (answer, parking.entries()), (*want, *entries));
    }
    Ok(())
}

// A session that opens with so many places.
fn session<R: Abort>(rt: &R, alloc: Global, places: u8, rows: &[Row]) -> Result<(), NoMemory>
    requires { (1 ≤ places) × (places ≤ 16) }
{
    let mut parking = Parking::open(alloc, places)?;
    plays(rt, alloc, &mut parking, rows)
}

#[test]
fn sessions_answer_as_the_rules_have_it(rt: HostRuntime) -> Result<(), Fail> {
    session(&rt, rt.alloc(), 1, WORKED)?;
    session(&rt, rt.alloc(), 3, FREED_BY_A_DEATH)?;
    session(&rt, rt.alloc(), 3, STRUCK_WHILE_IT_WAITS)?;
    session(&rt, rt.alloc(), 2, ROOT_WAITS)?;
    session(&rt, rt.alloc(), 2, DEATH_AND_JOIN)?;
    session(&rt, rt.alloc(), 15, LAST_PLACE)?;
    Ok(())
}

// So many tasks wait at once, each for a child of its own: task 2 n + 1 for task 2 n + 2, in scope n + 1.
const MANY: u32 = 10_000;

// What is heard of the last of several.
fn last_heard(parking: &mut Parking, alloc: Global, asks: &[Ask]) -> Result<Told, NoMemory>
    requires { (p : ℕ) × (es : List Entry) × Parks parking.old p es }
    ensures { (p : ℕ) × (es : List Entry) × Parks parking.new p es }
{
    let mut last = FreedNone;
    'asks: for ask in asks {
        last = heard(parking, alloc, *ask)?;
    }
    Ok(last)
}

// All begin to wait.
fn many_wait<R: Abort>(rt: &R, alloc: Global, parking: &mut Parking) -> Result<(), NoMemory>
    requires { (p : ℕ) × (es : List Entry) × Parks parking.old p es }
    ensures { (p : ℕ) × (es : List Entry) × Parks parking.new p es }
{
    'tasks: for n in 0..MANY {
        let task = 2 * n + 1;
        let asks = [
            Sends(0, 0),
            Opens(task),
            Sends(task, 1),
            Waits(task),
            Releases(task),
        ];
        same(rt, last_heard(parking, alloc, &asks)?, Parked);
    }
    Ok(())
}

// The first half is freed, each by the end of its child.
fn ends_free<R: Abort>(rt: &R, alloc: Global, parking: &mut Parking) -> Result<(), NoMemory>
    requires { (p : ℕ) × (es : List Entry) × Parks parking.old p es }
    ensures { (p : ℕ) × (es : List Entry) × Parks parking.new p es }
{
    'tasks: for n in 0..MANY / 2 {
        let asks = [Ends(2 * n + 2), Frees];
        let want = FreedTask(2 * n + 1, 0, 0, None);
        same(rt, last_heard(parking, alloc, &asks)?, want);
    }
    Ok(())
}

// And the second half by the death of the place at which the children are.
fn death_frees<R: Abort>(rt: &R, alloc: Global, parking: &mut Parking) -> Result<(), NoMemory>
    requires { (p : ℕ) × (es : List Entry) × Parks parking.old p es }
    ensures { (p : ℕ) × (es : List Entry) × Parks parking.new p es }
{
    same(rt, heard(parking, alloc, Dies(1))?, Died);
    'tasks: for n in MANY / 2..MANY {
        let want = FreedTask(2 * n + 1, 0b10, 0, None);
        same(rt, next_freed(parking), want);
    }
    same(rt, next_freed(parking), FreedNone);
    Ok(())
}

#[test]
fn many_that_wait_are_freed_one_by_one(rt: HostRuntime) -> Result<(), Fail> {
    let mut parking = Parking::open(rt.alloc(), 2)?;
    many_wait(&rt, rt.alloc(), &mut parking)?;
    ends_free(&rt, rt.alloc(), &mut parking)?;
    death_frees(&rt, rt.alloc(), &mut parking)?;
    assert!(rt; parking.seat(TaskId(2 * MANY - 1)).is_some());
    assert!(rt; parking.seat(TaskId(2 * MANY)).is_none());
    Ok(())
}
