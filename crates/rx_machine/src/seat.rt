// What a run on one thread holds of one task that no death has struck, and the slots in which it lies.
ghost use Rattle.std.specs.Prelude.{◌≡◌, ◌+◌, ◌≤◌, ◌<◌, ℕ, List, length, Some, None, is_none, IfSome, IfOk, OnOk, slice_set};
ghost use Rattle.std.specs.Prelude.{vec_len, vec_capacity};
ghost use Rattle.rx_rules.specs.Terms.{Term, begins, child, granted};
ghost use Rattle.rx_rules.specs.Tree.{Tree, death_of};
ghost use Rattle.rx_rules.specs.Entries.{born};
ghost use Rattle.rx_finish.specs.declared.ledger.LedgerFault.{LedgerFault};
ghost use Rattle.rx_control.specs.Stands.{StandsFor};
ghost use Rattle.rx_control.specs.Seeds.{IsSeedOf};
ghost use Rattle.rx_machine.specs.Slots.{row_of, seat_at};

use rx_base::{Batch, Faults, NoMemory, Path, PlaceId, ScopeId};
use rx_check::Program;
use rx_control::{Control, Seed};
use rx_finish::{Born, Caller, LedgerFault, travel};
use std::alloc::Global;

/// A task with what it has still to run.
#[derive(Drop)]
pub struct Seat {
    /// Who asks for this task.
    pub who: Caller,
    /// Whether it waits at its innermost scope.
    pub waits: bool,
    pub work: Work,
}

/// What a task has still to run.
#[derive(Drop)]
pub enum Work {
    /// It has not begun. The entry of this number started it, and tells its path.
    // The number stands first, where it fills the word of the tag. So a slot has 80 bytes and not 88.
    Seed { entry: u32, seed: Seed },
    /// It has begun. Its control lies by itself in memory, so that a seat is short.
    Control(Box<Control>),
}

/// The task that moves, with the paths of the statements that it has begun since its last entry, in their order.
#[derive(Drop)]
pub struct Mover {
    pub who: Caller,
    pub waits: bool,
    pub control: Box<Control>,
    pub batch: Batch,
}

/// The scope that the task of a slot hangs under; a seat lies in the slot.
pub(crate) fn under_of(seats: &[Option<Seat>], i: usize) -> ScopeId
    requires { (seat : Seat) × (seat_at seats.now i ≡ Some seat) }
    ensures { (seat : Seat) → seat_at seats.now i ≡ Some seat → result ≡ seat.who.scope }
{
    match &seats[i] {
        Some(seat) => seat.who.scope,
        None => unreachable!(),
    }
}

/// Takes the seat out of a slot, which is empty then.
pub(crate) fn take_seat(seats: &mut Vec<Option<Seat>>, i: usize) -> Option<Seat>
    requires { i < length seats.old.items }
    ensures taken { result ≡ seat_at seats.old.items i }
    ensures left { seats.new.items ≡ slice_set seats.old.items i None }
{
    seats[i].take()
}

/// Puts a seat into a slot, whatever lies there.
pub(crate) fn put_back(seats: &mut Vec<Option<Seat>>, i: usize, seat: Seat)
    requires { i < length seats.old.items }
    ensures { seats.new.items ≡ slice_set seats.old.items i (Some seat) }
{
    seats[i] = Some(seat);
}

/// Puts a task that has moved into a slot, whatever lies there.
pub(crate) fn seat_mover(
    seats: &mut Vec<Option<Seat>>,
    i: usize,
    who: Caller,
    waits: bool,
    control: Box<Control>,
)
    requires { i < length seats.old.items }
    ensures { seats.new.items ≡ slice_set seats.old.items i (Some (record { who = who; waits = waits; work = Work.Control control })) }
{
    let work = Work::Control(control);
    put_back(seats, i, Seat { who, waits, work });
}

/// The path of the statement that the next step begins; it begins one.
pub(crate) fn path_of(alloc: Global, p: &Program, control: &Box<Control>) -> Result<Path, NoMemory>
    requires { (t : Term) × (x : List ℕ) × StandsFor p.now.script control.now.value t × (begins t ≡ Some x) }
    ensures { IfOk result (λ path. (t : Term) (x : List ℕ) → StandsFor p.now.script control.now.value t → begins t ≡ Some x → path ≡ x) }
{
    Ok(control.path(alloc, p)?.unwrap())
}

/// Lets a control go on whose request is granted; what is granted raises these faults.
pub(crate) fn go_on(control: &mut Box<Control>, p: &Program, faults: Faults) -> Result<(), NoMemory>
    requires { (t : Term) × StandsFor p.now.script control.old.value t }
    ensures ok { OnOk result ((t : Term) → StandsFor p.now.script control.old.value t
        → StandsFor p.now.script control.new.value (granted faults t)) }
    ensures vars { OnOk result (control.new.value.vars ≡ control.old.value.vars) }
{
    match control.resume(p, faults) {
        Ok(()) => Ok(()),
        Err(_) => Err(NoMemory),
    }
}

/// The path of the statement that starts a task, which is next, and the seed of the task. The slots get room for its seat.
pub(crate) fn prepare(
    alloc: Global,
    p: &Program,
    control: &Box<Control>,
    seats: &mut Vec<Option<Seat>>,
) -> Result<(Path, Seed), NoMemory>
    requires { (t : Term) × (x : List ℕ) × StandsFor p.now.script control.now.value t × (begins t ≡ Some x) }
    ensures path { IfOk result (λ r. (t : Term) (x : List ℕ) → StandsFor p.now.script control.now.value t → begins t ≡ Some x → r.0 ≡ x) }
    ensures seed { IfOk result (λ r. (t : Term) → StandsFor p.now.script control.now.value t → (x : List ℕ) → begins t ≡ Some x
        → IsSeedOf p.now.script r.1 x (child t) × (r.1.vars ≡ control.now.value.vars)) }
    ensures items { seats.new.items ≡ seats.old.items }
    ensures room { OnOk result (vec_len seats.new + 1 ≤ vec_capacity seats.new) }
{
    let path = path_of(alloc, p, control)?;
    let seed = control.seed(alloc, p)?;
    seats.reserve(1)?;
    Ok((path, seed))
}

/// The seat of a task that an entry has just started with a seed, at the place or on its way there; none where it is born struck.
pub(crate) fn new_seat(
    task: Born,
    from: PlaceId,
    to: PlaceId,
    seed: Seed,
    entry: u32,
) -> Option<Seat>
    ensures lost { is_none result ≡ task.lost }
    ensures row { IfSome result (λ seat. (T : Tree) → death_of T to ≡ None → row_of seat ≡ born T task.child task.scope from to) }
    ensures seat { IfSome result (λ seat. (seat.who.inner ≡ task.scope) × (seat.work ≡ Work.Seed entry seed)) }
{
    if task.lost {
        return None;
    }
    Some(Seat {
        who: Caller {
            task: task.child,
            scope: task.scope,
            inner: task.scope,
            place: travel(from, to),
        },
        waits: false,
        work: Work::Seed { entry, seed },
    })
}

/// The error of a refusal: an enabled task is refused for want of memory alone.
pub(crate) fn no_memory(fault: LedgerFault) -> NoMemory
    requires { fault ≡ LedgerFault.NoMemory }
{
    match fault {
        LedgerFault::NoMemory => NoMemory,
        _ => unreachable!(),
    }
}
