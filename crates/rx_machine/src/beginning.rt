// How the task that a pick moves begins, and what is kept of one that has ended.
ghost use Rattle.std.specs.Prelude.{◌≡◌, ℕ, List, IfOk};
ghost use Rattle.rx_rules.specs.Picked.{Player};
ghost use Rattle.rx_machine.specs.Slots.{StartsBy, IsWork};
ghost use Rattle.rx_machine.specs.Inside.Acts.{IsRoused};

use crate::seat::{Mover, Seat, Work};
use rx_base::{Batch, NoMemory, Path};
use rx_check::Program;
use rx_control::Control;
use rx_history::{Act, Entry, History};
use std::alloc::Global;

/// Takes the task of a seat to move; it has begun no statement since its last entry.
pub(crate) fn rouse(
    alloc: Global,
    p: &Program,
    history: &History,
    idle: &mut Vec<Box<Control>>,
    seat: Seat,
) -> Result<Mover, NoMemory>
    requires { (q : Player) × IsWork p.now.script history.now.entries q seat.work }
    ensures { IfOk result (λ mover. IsRoused p.now.script history.now.entries seat mover) }
{
    let Seat { who, waits, work } = seat;
    let control = at_work(alloc, p, history, idle, work)?;
    let batch = Batch::open(alloc);
    Ok(Mover {
        who,
        waits,
        control,
        batch,
    })
}

/// The control of a task; one that has not begun gets it now.
fn at_work(
    alloc: Global,
    p: &Program,
    history: &History,
    idle: &mut Vec<Box<Control>>,
    work: Work,
) -> Result<Box<Control>, NoMemory>
    requires { (q : Player) × IsWork p.now.script history.now.entries q work }
    ensures { IfOk result (λ control. (q : Player) → IsWork p.now.script history.now.entries q work
        → IsWork p.now.script history.now.entries q (Work.Control control)) }
{
    match work {
        Work::Control(control) => Ok(control),
        Work::Seed { entry, seed } => {
            let path = path_started(alloc, history, entry)?;
            let mut control = any_control(alloc, idle)?;
            control.begin(p, seed, path)?;
            Ok(control)
        }
    }
}

/// A copy of the path of the statement by which the entry of a number started a task.
fn path_started(alloc: Global, history: &History, entry: u32) -> Result<Path, NoMemory>
    requires { (x : List ℕ) × StartsBy history.now.entries entry x }
    ensures { IfOk result (λ path. (x : List ℕ) → StartsBy history.now.entries entry x → path ≡ x) }
{
    match history.item(entry as usize) {
        Entry::Step { act, .. } => match act {
            Act::Spawn { path, .. } => Ok(path.copy(alloc)?),
            Act::At { path, .. } => Ok(path.copy(alloc)?),
            _ => unreachable!(),
        },
        _ => unreachable!(),
    }
}

/// A control, whatever it has to run: that of a task that has ended, or a new one.
fn any_control(alloc: Global, idle: &mut Vec<Box<Control>>) -> Result<Box<Control>, NoMemory> {
    match idle.pop() {
        Some(control) => Ok(control),
        None => Ok(Box::new(alloc, Control::idle(alloc))?),
    }
}

/// Keeps the control of a task that has ended for one that begins, where there is memory for it.
pub(crate) fn keep(idle: &mut Vec<Box<Control>>, control: Box<Control>) {
    if idle.reserve(1).is_ok() {
        idle.push_reserved(control);
    }
}
