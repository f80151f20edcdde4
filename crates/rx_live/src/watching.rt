// A run that is watched: a reader makes snapshots of its history beside the workers, without the ledger's lock.
ghost use Rattle.std.specs.Prelude.{◌≡◌, ◌≤◌, ◌<◌, ◌+◌, false, [], ◌∷◌, length, Some, IfOk, slice_get};
ghost use Rattle.rx_rules.specs.Code.{Block};
ghost use Rattle.rx_rules.specs.Fold.{opening, tree_of};
ghost use Rattle.rx_rules.specs.Run.{Proper, IsRun};
ghost use Rattle.rx_syntax.specs.Shape.{Stands};
ghost use Rattle.rx_history.specs.Events.{events_of};
ghost use Rattle.rx_history.specs.Setups.{given, to_join};
ghost use Rattle.rx_objects.specs.Shown.{board_of, BoardShows};
ghost use Rattle.rx_stations.specs.Stations.{IsHall};
ghost use Rattle.rx_live.specs.Watching.{IsWatchOf};
ghost use Rattle.rx_live.specs.Inside.Looking.{HasLooked, HaveLooked, EndsLooked};

use crate::live::{Ran, run_with, spread};
use rx_activities::{LedgerPass, Naming};
use rx_base::{Gate, NoMemory};
use rx_check::Program;
use rx_counts::CountLedger;
use rx_finish::FinishLedger;
use rx_history::{History, Journals, Setup};
use rx_monitor::{Board, BoardReader, BoardWriter, Summary, finish, watch_tells};
use rx_objects::{LedgerBook, PlaceBook, opening_summary};
use rx_stations::Hall;
use std::alloc::{AllocError, Global};
use std::marker::Model;
use std::sync::Wait;
use std::thread;
use std::thread::Threads;

/// The snapshots of a run. Contracts see them as a list.
#[derive(Drop)]
pub struct Watch {
    items: Vec<Summary>,
}

impl Model for Watch {
    ghost use Rattle.std.specs.Prelude.{List};
    ghost use Rattle.rx_monitor.specs.declared.summary.Summary.{Summary};

    ghost Value = { List Summary };

    ghost view = { λ w. w.items.items };
}

impl Watch {
    /// How many there are.
    pub fn len(&self) -> usize
        ensures { result ≡ length self.now }
    {
        self.items.len()
    }

    /// The snapshot of this number, from 0.
    pub fn item(&self, n: usize) -> Summary
        requires { n < length self.now }
        ensures { slice_get self.now n ≡ Some result }
    {
        self.items[n]
    }

    /// All of them.
    pub fn as_slice(&self) -> &[Summary]
        ensures { result.now ≡ self.now }
    {
        self.items.as_slice()
    }
}

/// What a reader is to do: so many snapshots.
#[derive(Drop)]
pub(crate) struct Looker {
    reader: BoardReader,
    count: u32,
}

/// What it has done.
#[derive(Drop)]
pub(crate) struct Looked {
    reader: BoardReader,
    items: Result<Vec<Summary>, NoMemory>,
}

/// Runs as `run_live` does, and makes snapshots of the history as it grows, `watch` of them in a thread of their own where one can be
/// made, and one more of the whole history. Each is the summary of as many entries as it says, and none is of fewer than the one
/// before. The reader takes no lock of the ledger, and comes by the gate before each of its snapshots as the worker behind the last.
/// `Err` means out of memory.
pub fn run_watched<G: Gate + Sync, R: Threads + Wait + Sync>(
    rt: &R,
    alloc: Global,
    p: &Program,
    setup: &Setup,
    workers: u32,
    watch: u32,
    ledger: CountLedger,
    gate: &G,
) -> Result<(History, Journals, CountLedger, Watch), NoMemory>
    requires proper { Proper (given setup.now) }
    requires workers { (1 ≤ workers) × (workers ≤ 8) }
    requires watch { (1 ≤ watch) × (watch ≤ 1000) }
    requires opened { ⟦<CountLedger as FinishLedger>⟧.stands ledger (length setup.now.joins) (opening setup.now.places) }
    ensures run { IfOk result (λ r. (code : Block) → Stands p.now.script code → IsRun code (given setup.now) r.0.entries (events_of r.1)) }
    ensures setup { IfOk result (λ r. given r.0.setup ≡ given setup.now) }
    ensures ledger { IfOk result (λ r. ⟦<CountLedger as FinishLedger>⟧.stands r.2
        (to_join (given setup.now) (tree_of setup.now.places r.0.entries)) (tree_of setup.now.places r.0.entries)) }
    ensures watch { IfOk result (λ r. IsWatchOf watch setup.now.places r.0.entries r.3) }
{
    let (writer, reader) = Board::open(rt, alloc, opening_summary())?;
    let looker = Looker {
        reader,
        count: watch,
    };
    let Ran {
        history,
        journals,
        ledger,
        board,
        looked,
    } = run_with(
        rt,
        alloc,
        p,
        setup,
        workers,
        ledger,
        gate,
        Some(writer),
        Some(looker),
    )?;
    let watch = conclude(rt, &history, board, looked, watch)?;
    Ok((history, journals, ledger, watch))
}

/// What the workers have kept, and beside them, in a thread of its own where one can be made, the snapshots of a reader, if there is one.
pub(crate) fn beside<
    'a,
    N: Naming + Send + Sync,
    L: LedgerBook + Sync,
    P: PlaceBook + Sync,
    G: Gate + Sync,
    R: Threads + Wait + Sync,
>(
    rt: &R,
    alloc: Global,
    hall: &Hall<'a, N, L, P>,
    gate: &G,
    workers: u32,
    looker: Option<Looker>,
) -> (
    Result<Vec<Option<LedgerPass<N>>>, AllocError>,
    Option<Looked>,
)
    requires workers { workers ≤ 8 }
    requires hall { IsHall N.ledger (L.name hall.now.ledger.now) hall.now.program.now hall.now.stations.items }
    requires some { 0 < length hall.now.stations.items }
    ensures { HaveLooked looker result.1 }
{
    let Some(looker) = looker else {
        return (spread(rt, alloc, hall, gate, workers), None);
    };
    let (looked, kept) = thread::join(
        rt,
        move || -> Looked
            ensures { HasLooked looker result }
        { look(alloc, looker, gate, workers) },
        || -> Result<Vec<Option<LedgerPass<N>>>, AllocError>
            requires { (workers ≤ 8) × IsHall N.ledger (L.name hall.now.ledger.now) hall.now.program.now hall.now.stations.items
                × (0 < length hall.now.stations.items) }
        { spread(rt, alloc, hall, gate, workers) },
    );
    (kept, Some(looked))
}

// So many snapshots, with a stop at the gate before each.
fn look<G: Gate>(alloc: Global, looker: Looker, gate: &G, number: u32) -> Looked
    ensures { HasLooked looker result }
{
    let Looker { mut reader, count } = looker;
    let mut items = Vec::new(alloc);
    for n in 0..count {
        gate.turn(number, u64::from(n));
        if reader.snap_behind(&mut items).is_err() {
            return Looked {
                reader,
                items: Err(NoMemory),
            };
        }
    }
    Looked {
        reader,
        items: Ok(items),
    }
}

// One snapshot more, of the whole history. The board is closed.
fn conclude<R: Wait>(
    rt: &R,
    history: &History,
    board: Option<BoardWriter>,
    looked: Option<Looked>,
    watch: u32,
) -> Result<Watch, NoMemory>
    requires looked { EndsLooked (board_of board) watch looked }
    requires shown { BoardShows history.now.setup.places history.now.entries false board }
    ensures { IfOk result (IsWatchOf watch history.now.setup.places history.now.entries) }
{
    let Some(mut writer) = board else {
        unreachable!()
    };
    let Some(Looked { mut reader, items }) = looked else {
        unreachable!()
    };
    let Ok(items) = items else {
        writer.close(rt);
        return Err(NoMemory);
    };
    let finished = finish(&mut writer, &mut reader, items);
    writer.close(rt);
    watch_tells();
    let items = finished?;
    Ok(Watch { items })
}
