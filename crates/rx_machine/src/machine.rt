// The machine.
ghost use Rattle.std.specs.Prelude.{◌≡◌, ◌≤◌, [], ◌∷◌, Some, length, IfOk};
ghost use Rattle.rx_rules.specs.Code.{Block};
ghost use Rattle.rx_rules.specs.Terms.{Empty, no_vars, items};
ghost use Rattle.rx_rules.specs.Tree.{the_root};
ghost use Rattle.rx_rules.specs.Fold.{opening};
ghost use Rattle.rx_rules.specs.Run.{in_all, Proper};
ghost use Rattle.rx_rules.specs.Picked.{start_game};
ghost use Rattle.rx_history.specs.Setups.{given};
ghost use Rattle.rx_syntax.specs.Shape.{Stands};
ghost use Rattle.rx_machine.specs.Slots.{row_of, root_row, IsWork};
ghost use Rattle.rx_machine.specs.Holds.{MachineInvariant};

use crate::seat::{Seat, Work};
use rx_base::{NoMemory, PlaceId, ScopeId, TaskId};
use rx_check::{Program, checked};
use rx_chronicle::Chronicle;
use rx_control::Control;
use rx_finish::{Caller, FinishLedger};
use rx_history::Setup;
use rx_rank::Ranks;
use rx_rules::Where;
use rx_store::Stores;
use std::alloc::Global;

/// A run with its ledger.
#[derive(Drop)]
pub struct Machine<L: FinishLedger> {
    pub(crate) chronicle: Chronicle<L>,
    /// The seat of each task that no death has struck, by the task's number; none for a task that was struck or has ended.
    pub(crate) seats: Vec<Option<Seat>>,
    /// The numbers of the enabled tasks.
    pub(crate) ready: Ranks,
    pub(crate) stores: Stores,
    /// Controls of tasks that have ended, for tasks that begin.
    pub(crate) idle: Vec<Box<Control>>,
    /// Whether memory was refused, after which nothing goes on.
    pub(crate) failed: bool,
    pub(crate) alloc: Global,
}

impl<L: FinishLedger> Machine<L> {
    /// Before the first turn of a program under a setup, over a ledger that stands for the opening tree and has
    /// room for the places that are to join.
    pub fn open(
        alloc: Global,
        p: &Program,
        setup: &Setup,
        ledger: L,
    ) -> Result<Machine<L>, NoMemory>
        requires proper { Proper (given setup.now) }
        requires opened { L.stands ledger (length (given setup.now).joins) (opening (given setup.now).places) }
        ensures { IfOk result (λ m. (code : Block) → Stands p.now.script code
            → MachineInvariant p.now.script code (given setup.now) m (start_game code (given setup.now))) }
    {
        checked(p);
        let copy = setup.copy(alloc)?;
        let stores = Stores::open(alloc, all_places(setup), setup.heap)?;
        let seats = root_alone(alloc, root_seat(alloc, p, setup.places)?)?;
        let ready = root_ready(alloc)?;
        match Chronicle::open(alloc, ledger, copy) {
            Ok(chronicle) => Ok(Machine {
                chronicle,
                seats,
                ready,
                stores,
                idle: Vec::new(alloc),
                failed: false,
                alloc,
            }),
            Err((_, out)) => Err(out),
        }
    }
}

/// How many places there are or may join.
fn all_places(setup: &Setup) -> u8
    requires { in_all (given setup.now) ≤ 16 }
    ensures { result ≡ in_all (given setup.now) }
{
    setup.places + setup.joins.len() as u8
}

/// The seat of the main activity, which is at place 0 under the root and knows so many places.
fn root_seat(alloc: Global, p: &Program, places: u8) -> Result<Seat, NoMemory>
    ensures row { IfOk result (λ seat. (row_of seat ≡ root_row) × (seat.who.inner ≡ the_root)) }
    ensures work { IfOk result (λ seat. (b : Block) → Stands p.now.script b
        → IsWork p.now.script [] (record { term = items b [] Empty; vars = no_vars places; batch = [] }) seat.work) }
{
    let main = Control::main(alloc, p, places)?;
    let control = Box::new(alloc, main)?;
    Ok(Seat {
        who: Caller {
            task: TaskId(0),
            scope: ScopeId(0),
            inner: ScopeId(0),
            place: Where::At(PlaceId(0)),
        },
        waits: false,
        work: Work::Control(control),
    })
}

/// The slots of one task.
fn root_alone(alloc: Global, seat: Seat) -> Result<Vec<Option<Seat>>, NoMemory>
    ensures { IfOk result (λ seats. seats.items ≡ Some seat ∷ []) }
{
    let mut seats = Vec::new(alloc);
    seats.push(Some(seat))?;
    Ok(seats)
}

/// The main activity alone is enabled.
fn root_ready(alloc: Global) -> Result<Ranks, NoMemory>
    ensures { IfOk result (λ ready. ready.members ≡ 0 ∷ []) }
{
    let mut ready = Ranks::open(alloc);
    ready.room(1)?;
    ready.insert(0);
    Ok(ready)
}
