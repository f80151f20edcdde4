// A run by several workers, from its opening to its end.
ghost use Rattle.std.specs.Prelude.{◌≡◌, ◌≤◌, ◌<◌, ◌+◌, ◌^◌, false, [], length, IfOk, IfSome};
ghost use Rattle.rx_rules.specs.Code.{Block};
ghost use Rattle.rx_rules.specs.Fold.{opening, tree_of};
ghost use Rattle.rx_rules.specs.Run.{Proper, IsRun, in_all};
ghost use Rattle.rx_rules.specs.Terms.{Empty, items, no_vars};
ghost use Rattle.rx_syntax.specs.Shape.{Stands};
ghost use Rattle.rx_control.specs.Stands.{StandsFor};
ghost use Rattle.rx_book.specs.Passes.{view_of, word_of};
ghost use Rattle.rx_objects.specs.Ledger.{LedgerIsLegal};
ghost use Rattle.rx_objects.specs.Ending.{RootIsTold, SeesEnd};
ghost use Rattle.rx_objects.specs.Shown.{board_of, BoardShows};
ghost use Rattle.rx_history.specs.Events.{events_of};
ghost use Rattle.rx_history.specs.Setups.{given, to_join};
ghost use Rattle.rx_live.specs.Inside.Looking.{HaveLooked};
ghost use Rattle.rx_stations.specs.Stations.{IsHall};
ghost use Rattle.rx_live.specs.Inside.Ending.{IsMain, MayRelease, RunEnds, SeatsFrom};

use crate::ending::{
    Released, close_places, close_stores, meet_notes, meet_worker, meet_workers, release,
};
use crate::opening::{Places, open_places};
use crate::watching::{Looked, Looker, beside};
use rx_activities::{Activity, LedgerPass, Naming};
use rx_base::{Gate, NoGate, NoMemory, PlaceId};
use rx_book::{BareBook, Book, Note, Pass};
use rx_check::{Program, checked};
use rx_control::Control;
use rx_counts::CountLedger;
use rx_finish::FinishLedger;
use rx_history::{History, Journals, Setup};
use rx_monitor::BoardWriter;
use rx_objects::{
    ClosedLedger, LedgerBook, LedgerObject, PlaceBook, abandon_ledger, close_ledger, end_board,
    open_ledger, open_words,
};
use rx_parts::{EntryItem, EventItem};
use rx_stations::{Hall, Worker, abandon_all, work};
use rx_store::Store;
use rx_ticket::{Live, Ticket};
use std::alloc::{AllocError, Global};
use std::marker::Brand;
use std::sync::Wait;
use std::thread;
use std::thread::Threads;

/// Runs a program under a setup with so many workers, each in a thread of its own where one can be made, over a ledger that stands
/// for the opening tree and has room for the places that are to join. What comes is a whole run, and the ledger, which stands for
/// the tree to which its history folds. `Err` means out of memory, after which the ledger is gone. Worker k comes by the gate before
/// each of its turns, and each place before each call of its store.
pub fn run_live<G: Gate + Sync, R: Threads + Wait + Sync>(
    rt: &R,
    alloc: Global,
    p: &Program,
    setup: &Setup,
    workers: u32,
    ledger: CountLedger,
    gate: &G,
) -> Result<(History, Journals, CountLedger), NoMemory>
    requires proper { Proper (given setup.now) }
    requires workers { (1 ≤ workers) × (workers ≤ 8) }
    requires opened { ⟦<CountLedger as FinishLedger>⟧.stands ledger (length setup.now.joins) (opening setup.now.places) }
    ensures run { IfOk result (λ r. (code : Block) → Stands p.now.script code → IsRun code (given setup.now) r.0.entries (events_of r.1)) }
    ensures setup { IfOk result (λ r. given r.0.setup ≡ given setup.now) }
    ensures ledger { IfOk result (λ r. ⟦<CountLedger as FinishLedger>⟧.stands r.2
        (to_join (given setup.now) (tree_of setup.now.places r.0.entries)) (tree_of setup.now.places r.0.entries)) }
{
    let Ran {
        history,
        journals,
        ledger,
        board,
        looked: _,
    } = run_with(rt, alloc, p, setup, workers, ledger, gate, None, None)?;
    end_board(rt, board);
    Ok((history, journals, ledger))
}

/// A run, the board on which it was shown, if it was, and what its reader has done.
pub(crate) struct Ran {
    pub(crate) history: History,
    pub(crate) journals: Journals,
    pub(crate) ledger: CountLedger,
    pub(crate) board: Option<BoardWriter>,
    pub(crate) looked: Option<Looked>,
}

/// The same with a board, if there is one, that shows the history as it grows, and with a reader beside the workers. After an `Err` the
/// board is closed.
pub(crate) fn run_with<G: Gate + Sync, R: Threads + Wait + Sync>(
    rt: &R,
    alloc: Global,
    p: &Program,
    setup: &Setup,
    workers: u32,
    ledger: CountLedger,
    gate: &G,
    board: Option<BoardWriter>,
    looker: Option<Looker>,
) -> Result<Ran, NoMemory>
    requires proper { Proper (given setup.now) }
    requires workers { (1 ≤ workers) × (workers ≤ 8) }
    requires opened { ⟦<CountLedger as FinishLedger>⟧.stands ledger (length setup.now.joins) (opening setup.now.places) }
    requires board { BoardShows setup.now.places [] false board }
    ensures run { IfOk result (λ r. (code : Block) → Stands p.now.script code
        → IsRun code (given setup.now) r.history.entries (events_of r.journals)) }
    ensures setup { IfOk result (λ r. given r.history.setup ≡ given setup.now) }
    ensures ledger { IfOk result (λ r. ⟦<CountLedger as FinishLedger>⟧.stands r.ledger
        (to_join (given setup.now) (tree_of setup.now.places r.history.entries)) (tree_of setup.now.places r.history.entries)) }
    ensures board { IfOk result (λ r. (board_of r.board ≡ board_of board)
        × BoardShows setup.now.places r.history.entries false r.board) }
    ensures looked { IfOk result (λ r. HaveLooked looker r.looked) }
{
    checked(p);
    rx_objects::stamps_before_death();
    rx_objects::books_make_run();
    let Ok((control, words)) = prepare(alloc, p, setup) else {
        end_board(rt, board);
        return Err(NoMemory);
    };
    let (book, mut pass, ticket) = open_ledger(rt, alloc, p, setup, ledger, &words, board)?;
    let Ok(mut host) = book.split(&mut pass) else {
        unreachable!()
    };
    let main = Main {
        control,
        ticket,
        pass,
        words,
    };
    let done = run_named::<Brand, Book<LedgerObject>, G, R>(
        rt, alloc, p, workers, gate, setup.heap, &book, &mut host, main, looker,
    );
    let Some(Ends { stores, looked }) = done else {
        abandon_ledger(rt, book);
        return Err(NoMemory);
    };
    let Some(closed) = close_ledger(rt, p, book, host) else {
        return Err(NoMemory);
    };
    let ClosedLedger {
        history,
        ledger,
        board,
    } = closed;
    let Ok(journals) = close_stores(alloc, &history, stores) else {
        end_board(rt, board);
        return Err(NoMemory);
    };
    Ok(Ran {
        history,
        journals,
        ledger,
        board,
        looked,
    })
}

// The main activity's control, and the words of the places' books.
fn prepare(
    alloc: Global,
    p: &Program,
    setup: &Setup,
) -> Result<(Box<Control>, Vec<BareBook<EventItem>>), NoMemory>
    requires few { length setup.now.joins < 2 ^ 32 }
    ensures control { IfOk result (λ t. (code : Block) → Stands p.now.script code
        → StandsFor p.now.script t.0.value (items code [] Empty) × (t.0.value.vars ≡ no_vars setup.now.places)) }
    ensures words { IfOk result (λ t. length t.1.items ≡ setup.now.places + length setup.now.joins) }
{
    let places = setup.places as usize + setup.joins.len();
    let words = open_words(alloc, places)?;
    let control = Control::main(alloc, p, setup.places)?;
    let boxed = Box::new(alloc, control)?;
    Ok((boxed, words))
}

// What a run begins with beside the books: the main activity's control, ticket and pass of the ledger's book, and the words of the
// places' books.
pub(crate) struct Main {
    control: Box<Control>,
    ticket: Ticket<Live>,
    pass: Pass<EntryItem>,
    words: Vec<BareBook<EventItem>>,
}

/// What is left of a run beside the ledger's book: the stores of all places, and what its reader has done.
struct Ends {
    stores: Vec<Store>,
    looked: Option<Looked>,
}

// The run between the opening and the closing of the ledger's book. `None` means out of memory.
fn run_named<
    'a,
    N: Naming + Send + Sync,
    L: LedgerBook + Sync,
    G: Gate + Sync,
    R: Threads + Wait + Sync,
>(
    rt: &R,
    alloc: Global,
    p: &'a Program,
    workers: u32,
    gate: &'a G,
    heap: u32,
    ledger: &'a L,
    host: &mut Pass<EntryItem>,
    main: Main,
    looker: Option<Looker>,
) -> Option<Ends>
    requires workers { workers ≤ 8 }
    requires ledger { L.name ledger.now ≡ N.ledger }
    requires program { (L.name ledger.now).fixed.program ≡ p.now }
    requires proper { Proper (given N.ledger.fixed.setup) }
    requires heap { heap ≡ N.ledger.fixed.setup.heap }
    requires host { MayRelease N.ledger host.old × ((view_of host.old).seen ≡ []) × ((view_of host.old).dead ≡ 0) }
    requires main { IsMain N.ledger main.control.value main.ticket main.pass main.words.items }
    ensures own { word_of host.new ≡ N.ledger.word }
    ensures ends { IfSome result (λ e. RunEnds N.ledger host.new e.stores.items) }
    ensures looked { IfSome result (λ e. HaveLooked looker e.looked) }
{
    let Main {
        control,
        ticket,
        pass,
        words,
    } = main;
    let opened = open_places::<N, L, G, R>(rt, alloc, ledger, host, words, heap, gate);
    let Some(places) = opened else {
        ticket.spent();
        return None;
    };
    let Places {
        stations,
        seats,
        first,
    } = places;
    let Some(first) = first else { unreachable!() };
    let Ok(activity) = Activity::<N>::main(alloc, p, control, ticket, pass, first) else {
        abandon_all(rt, stations);
        return None;
    };
    let hall = Hall::open(p, ledger, stations);
    hall.put(rt, activity);
    run_all(rt, alloc, hall, gate, workers, host, seats, looker)
}

// The run from its first turn to the closing of the places' books.
fn run_all<
    'a,
    N: Naming + Send + Sync,
    L: LedgerBook + Sync,
    P: PlaceBook + Sync,
    G: Gate + Sync,
    R: Threads + Wait + Sync,
>(
    rt: &R,
    alloc: Global,
    hall: Hall<'a, N, L, P>,
    gate: &G,
    workers: u32,
    host: &mut Pass<EntryItem>,
    seats: Vec<Pass<EventItem>>,
    looker: Option<Looker>,
) -> Option<Ends>
    requires workers { workers ≤ 8 }
    requires hall { IsHall N.ledger (L.name hall.ledger.now) hall.program.now hall.stations.items }
    requires some { 0 < length hall.stations.items }
    requires seats { SeatsFrom N.ledger 0 seats.items × (length seats.items ≡ length hall.stations.items) }
    requires all { length hall.stations.items ≡ in_all (given N.ledger.fixed.setup) }
    requires host { MayRelease N.ledger host.old }
    ensures own { word_of host.new ≡ N.ledger.word }
    ensures ends { IfSome result (λ e. RunEnds N.ledger host.new e.stores.items) }
    ensures looked { IfSome result (λ e. HaveLooked looker e.looked) }
{
    let (kept, looked) = beside(rt, alloc, &hall, gate, workers, looker);
    let ended = go_on_alone(rt, alloc, &hall, host, &seats);
    let Some(ended) = ended else {
        hall.abandon(rt);
        return None;
    };
    let Ok(kept) = kept else {
        hall.abandon(rt);
        return None;
    };
    let stores = end_all(rt, alloc, hall, host, seats, kept, ended)?;
    Some(Ends { stores, looked })
}

// The run from the root's release to the closing of the places' books.
fn end_all<'a, N: Naming, L: LedgerBook, P: PlaceBook, R: Wait>(
    rt: &R,
    alloc: Global,
    hall: Hall<'a, N, L, P>,
    host: &mut Pass<EntryItem>,
    seats: Vec<Pass<EventItem>>,
    kept: Vec<Option<LedgerPass<N>>>,
    ended: Ended<N>,
) -> Option<Vec<Store>>
    requires hall { IsHall N.ledger (L.name hall.ledger.now) hall.program.now hall.stations.items }
    requires seats { SeatsFrom N.ledger 0 seats.items × (length seats.items ≡ length hall.stations.items) }
    requires all { length hall.stations.items ≡ in_all (given N.ledger.fixed.setup) }
    requires host { SeesEnd N.ledger host.old }
    requires told { RootIsTold N.ledger.fixed ended.notes.items (view_of host.old).seen }
    ensures own { word_of host.new ≡ N.ledger.word }
    ensures ends { IfSome result (λ stores. RunEnds N.ledger host.new stores.items) }
{
    let Ended { notes, own } = ended;
    let mut seats = seats;
    let p = hall.program;
    let ledger = hall.ledger;
    meet_notes(&hall.stations, &mut seats, notes);
    let stations = hall.into_stations();
    let Some(stores) = close_places(rt, alloc, p, ledger, host, stations, seats) else {
        return None;
    };
    meet_workers(p, ledger, host, kept);
    meet_worker(p, ledger, host, own);
    Some(stores)
}

/// The workers, each on a thread of its own where one can be made, and what each has kept.
pub(crate) fn spread<
    'a,
    N: Naming + Send + Sync,
    L: LedgerBook + Sync,
    P: PlaceBook + Sync,
    G: Gate + Sync,
    R: Threads + Wait + Sync,
>(
    rt: &R,
    alloc: Global,
    hall: &Hall<'a, N, L, P>,
    gate: &G,
    workers: u32,
) -> Result<Vec<Option<LedgerPass<N>>>, AllocError>
    requires workers { workers ≤ 8 }
    requires hall { IsHall N.ledger (L.name hall.now.ledger.now) hall.now.program.now hall.now.stations.items }
    requires some { 0 < length hall.now.stations.items }
{
    thread::map_indices(
        rt,
        alloc,
        workers as usize,
        &|k| -> Option<LedgerPass<N>>
            requires { IsHall N.ledger (L.name hall.now.ledger.now) hall.now.program.now hall.now.stations.items
                × (0 < length hall.now.stations.items) × (k < 8) }
        { work(rt, alloc, hall, gate, k as u32) },
    )
}

// What the last request leaves: the notes that came with the root's release, and what the caller has kept as a worker.
#[derive(Drop)]
struct Ended<N: Naming> {
    notes: Vec<(PlaceId, Note<EventItem>)>,
    own: Option<LedgerPass<N>>,
}

// The caller goes on alone until no activity is left and the root is released. `None` means out of memory.
fn go_on_alone<'a, N: Naming, L: LedgerBook, P: PlaceBook, R: Wait>(
    rt: &R,
    alloc: Global,
    hall: &Hall<'a, N, L, P>,
    host: &mut Pass<EntryItem>,
    seats: &Vec<Pass<EventItem>>,
) -> Option<Ended<N>>
    requires hall { IsHall N.ledger (L.name hall.now.ledger.now) hall.now.program.now hall.now.stations.items }
    requires some { (0 < length hall.now.stations.items) × (0 < length seats.now.items) }
    requires host { MayRelease N.ledger host.old }
    ensures own { word_of host.new ≡ N.ledger.word }
    ensures lawful { LedgerIsLegal N.ledger.fixed (view_of host.new).seen }
    ensures told { IfSome result (λ e. RootIsTold N.ledger.fixed e.notes.items (view_of host.new).seen) }
{
    let mut worker = Worker::open(rt, alloc, hall, 0)?;
    let notes = until_released(rt, alloc, hall, &mut worker, host, &seats[0])?;
    let own = worker.into_kept();
    Some(Ended { notes, own })
}

// The worker works, and the host asks for the root's release, until that is answered: the notes that came with it. `None` means out of
// memory.
fn until_released<'a, N: Naming, L: LedgerBook, P: PlaceBook, R: Wait>(
    rt: &R,
    alloc: Global,
    hall: &Hall<'a, N, L, P>,
    worker: &mut Worker<N>,
    host: &mut Pass<EntryItem>,
    seat: &Pass<EventItem>,
) -> Option<Vec<(PlaceId, Note<EventItem>)>>
    requires hall { IsHall N.ledger (L.name hall.now.ledger.now) hall.now.program.now hall.now.stations.items }
    requires some { 0 < length hall.now.stations.items }
    requires keys { worker.old ≡ hall.now.stations.items }
    requires host { MayRelease N.ledger host.old }
    ensures own { word_of host.new ≡ N.ledger.word }
    ensures lawful { LedgerIsLegal N.ledger.fixed (view_of host.new).seen }
    ensures told { IfSome result (λ notes. RootIsTold N.ledger.fixed notes.items (view_of host.new).seen) }
{
    for _request in rt.forever() {
        worker.work(rt, alloc, hall, &NoGate);
        if hall.is_refused() {
            return None;
        }
        match release(rt, alloc, hall.program, hall.ledger, host, seat) {
            Released::Done(notes) => return Some(notes),
            Released::NotYet => thread::yield_now(),
            Released::NoMemory => return None,
        }
    }
    unreachable!()
}
