// The end of a run, in its steps.
ghost use Rattle.std.specs.Prelude.{◌≡◌, ℕ, ◌≤◌, ◌<◌, ◌^◌, All, Some, IfOk, IfSome, length, slice_get};
ghost use Rattle.rx_rules.specs.Store.{IsStoreRun, opening_state};
ghost use Rattle.rx_history.specs.Events.{events_of};
ghost use Rattle.rx_book.specs.Passes.{view_of, word_of, note_view, note_word};
ghost use Rattle.rx_objects.specs.Ledger.{LedgerIsLegal};
ghost use Rattle.rx_objects.specs.Noted.{AreOfPlaces};
ghost use Rattle.rx_objects.specs.Ending.{HostKnows, IsMet, IsHeard, IsShut, EachShut, SeesEnd};
ghost use Rattle.rx_stations.specs.Stations.{AreFrom};
ghost use Rattle.rx_live.specs.Inside.Ending.{SeatsFrom, views_of, IsAnswered, IsReleased, MeetsAt};
ghost use Rattle.rx_live.specs.Inside.Ending.{StaysAt, HasSeen, HaveWords, PlacesEnded, ShutsAt, MayBeShut};

use rx_activities::{LedgerPass, Naming};
use rx_base::{Batch, NoMemory, PlaceId};
use rx_book::{Note, Pass};
use rx_check::{Program, checked};
use rx_history::{Ask, History, Journal, Journals};
use rx_kills::deaths_of;
use rx_ledger::{Reply, Request};
use rx_objects::{
    LedgerBook, LedgerOp, LedgerReply, Mentions, PlaceBook, host_is_told, host_may_ask,
    ledger_op_fits,
};
use rx_parts::{EntryItem, EventItem};
use rx_stations::{Station, abandon_all};
use rx_store::Store;
use rx_ticket::AnyTicket;
use std::alloc::Global;
use std::snapshot::Snapshot;
use std::sync::Wait;

/// The answer to the host's request for the root's release.
pub(crate) enum Released {
    /// It is released, and the ledger hands out the notes that it kept.
    Done(Vec<(PlaceId, Note<EventItem>)>),
    /// A task is still to end.
    NotYet,
    NoMemory,
}

/// The first step: the host asks for the root's release.
pub(crate) fn release<L: LedgerBook, R: Wait>(
    rt: &R,
    alloc: Global,
    p: &Program,
    ledger: &L,
    host: &mut Pass<EntryItem>,
    seat: &Pass<EventItem>,
) -> Released
    requires program { (L.name ledger.now).fixed.program ≡ p.now }
    requires own { word_of host.old ≡ (L.name ledger.now).word }
    requires host { HostKnows (view_of host.old) }
    requires lawful { LedgerIsLegal (L.name ledger.now).fixed (view_of host.old).seen }
    ensures own { word_of host.new ≡ word_of host.old }
    ensures lawful { LedgerIsLegal (L.name ledger.now).fixed (view_of host.new).seen }
    ensures answered { IsAnswered (L.name ledger.now).fixed (view_of host.new) result }
{
    checked(p);
    ledger_op_fits();
    host_may_ask();
    host_is_told();
    let mentions = Mentions {
        before: Snapshot::of(seat),
        now: Snapshot::of(seat),
        child: Snapshot::of(host),
        seat: Snapshot::of(seat),
    };
    let request = Request {
        ticket: AnyTicket::Host,
        ask: Ask::Root,
        batch: Batch::open(alloc),
        path: None,
    };
    let note = None;
    let op = LedgerOp {
        request,
        note,
        mentions,
    };
    let LedgerReply {
        reply,
        notes,
        shown: _,
        hint: _,
    } = ledger.call(rt, host, op);
    answer_of(reply, notes)
}

// What the host goes on with. It has no ticket, so none comes back that is to be used.
fn answer_of(reply: Reply, notes: Vec<(PlaceId, Note<EventItem>)>) -> Released
    ensures { IsReleased reply notes.items result }
{
    let answer = match &reply {
        Reply::RootDone => Released::Done(notes),
        Reply::NotYet { .. } => Released::NotYet,
        _ => Released::NoMemory,
    };
    let (asking, started) = reply.into_tickets();
    let_go(asking);
    let_go(started);
    answer
}

// Lets a ticket go, where there is one.
fn let_go(ticket: Option<AnyTicket>) {
    match ticket {
        Some(ticket) => ticket.spent(),
        None => {}
    }
}

/// The second step: the host's pass of each place's book meets the notes of that place.
pub(crate) fn meet_notes<N: Naming, P: PlaceBook>(
    stations: &Vec<Station<N, P>>,
    seats: &mut Vec<Pass<EventItem>>,
    notes: Vec<(PlaceId, Note<EventItem>)>,
)
    requires stations { AreFrom 0 stations.now.items × (length stations.now.items ≡ length N.ledger.fixed.places) }
    requires seats { SeatsFrom N.ledger 0 seats.old.items × (length seats.old.items ≡ length stations.now.items) }
    requires notes { AreOfPlaces N.ledger.fixed.places notes.items }
    ensures seats { SeatsFrom N.ledger 0 seats.new.items × (length seats.new.items ≡ length seats.old.items) }
    ensures met { All (IsMet (views_of seats.new.items)) notes.items }
{
    rx_objects::meeting_shows();
    let mut notes = notes;
    'note: while let Some((place, note)) = notes.pop() {
        let at = place.0 as usize;
        meet_at(stations, seats, at, note);
    }
}

// The host's pass of the book of one place meets a note of that book.
fn meet_at<N: Naming, P: PlaceBook>(
    stations: &Vec<Station<N, P>>,
    seats: &mut Vec<Pass<EventItem>>,
    at: usize,
    note: Note<EventItem>,
)
    requires stations { AreFrom 0 stations.now.items }
    requires seats { SeatsFrom N.ledger 0 seats.old.items }
    requires inside { (at < length stations.now.items) × (at < length seats.old.items) }
    requires note { slice_get N.ledger.fixed.places at ≡ Some (note_word note) }
    ensures { MeetsAt seats.old.items at (note_view note) seats.new.items }
{
    stations[at].book().meet(&mut seats[at], note);
}

/// The third and the fourth step: the books of the places are closed, and the host's pass of the ledger's book meets the note that each
/// place kept. `None` means out of memory.
pub(crate) fn close_places<N: Naming, L: LedgerBook, P: PlaceBook, R: Wait>(
    rt: &R,
    alloc: Global,
    p: &Program,
    ledger: &L,
    host: &mut Pass<EntryItem>,
    stations: Vec<Station<N, P>>,
    seats: Vec<Pass<EventItem>>,
) -> Option<Vec<Store>>
    requires ledger { L.name ledger.now ≡ N.ledger }
    requires program { (L.name ledger.now).fixed.program ≡ p.now }
    requires host { SeesEnd N.ledger host.old }
    requires stations { AreFrom 0 stations.items }
    requires seats { SeatsFrom N.ledger 0 seats.items × (length seats.items ≡ length stations.items) }
    ensures host { SeesEnd N.ledger host.new × StaysAt host.old host.new }
    ensures ended { IfSome result (λ stores. PlacesEnded N.ledger (view_of host.new) (views_of seats.items) stores.items) }
{
    let mut stations = stations;
    let mut seats = seats;
    let mut stores = Vec::new(alloc);
    'place: while let Some(station) = stations.pop() {
        let Some(seat) = seats.pop() else {
            unreachable!()
        };
        let (store, note) = station.close(rt, seat);
        let Some(note) = note else {
            abandon_all(rt, stations);
            return None;
        };
        hear::<N, L>(p, ledger, host, note);
        if stores.insert(0, store).is_err() {
            abandon_all(rt, stations);
            return None;
        }
    }
    stations.destroy_empty();
    Some(stores)
}

// The host's pass of the ledger's book meets a note of that book.
fn hear<N: Naming, L: LedgerBook>(
    p: &Program,
    ledger: &L,
    host: &mut Pass<EntryItem>,
    note: Note<EntryItem>,
)
    requires ledger { L.name ledger.now ≡ N.ledger }
    requires program { (L.name ledger.now).fixed.program ≡ p.now }
    requires host { SeesEnd N.ledger host.old }
    requires note { (note_word note ≡ N.ledger.word) × LedgerIsLegal N.ledger.fixed (note_view note).seen }
    ensures host { SeesEnd N.ledger host.new × StaysAt host.old host.new }
    ensures heard { IsHeard (view_of host.old).seen (view_of host.new).reach (note_view note) }
{
    checked(p);
    rx_objects::meeting_hears();
    ledger.meet(host, note);
}

/// The fifth step: the host's pass of the ledger's book meets what the workers gave back.
pub(crate) fn meet_workers<N: Naming, L: LedgerBook>(
    p: &Program,
    ledger: &L,
    host: &mut Pass<EntryItem>,
    kept: Vec<Option<LedgerPass<N>>>,
)
    requires ledger { L.name ledger.now ≡ N.ledger }
    requires program { (L.name ledger.now).fixed.program ≡ p.now }
    requires host { SeesEnd N.ledger host.old }
    ensures { SeesEnd N.ledger host.new × StaysAt host.old host.new × All (HasSeen host.new) kept.items }
{
    let mut kept = kept;
    'worker: while let Some(one) = kept.pop() {
        meet_worker(p, ledger, host, one);
    }
}

/// The same of one of them.
pub(crate) fn meet_worker<N: Naming, L: LedgerBook>(
    p: &Program,
    ledger: &L,
    host: &mut Pass<EntryItem>,
    kept: Option<LedgerPass<N>>,
)
    requires ledger { L.name ledger.now ≡ N.ledger }
    requires program { (L.name ledger.now).fixed.program ≡ p.now }
    requires host { SeesEnd N.ledger host.old }
    ensures { SeesEnd N.ledger host.new × StaysAt host.old host.new × HasSeen host.new kept }
{
    match kept {
        Some(pass) => hear::<N, L>(p, ledger, host, pass.into_pass().into_note()),
        None => {}
    }
}

/// The seventh step, after `close_ledger`: the stores of the places that died are closed with the numbers of their deaths.
pub(crate) fn close_stores(
    alloc: Global,
    history: &History,
    stores: Vec<Store>,
) -> Result<Journals, NoMemory>
    requires few { length history.now.entries ≤ 2 ^ 32 }
    requires most { length stores.items ≤ 16 }
    requires stores { MayBeShut history.now.entries 0 stores.items }
    ensures { IfOk result (λ js. (heap : ℕ) → HaveWords heap stores.items
        → EachShut history.now.entries heap 0 stores.items (events_of js)) }
{
    let deaths = deaths_of(history);
    let mut stores = stores;
    stores.reverse();
    let mut journals = Journals::open(alloc);
    let mut place = 0usize;
    'store: while let Some(store) = stores.pop() {
        let journal = shut(store, deaths[place]);
        journals.push(journal)?;
        place += 1;
    }
    Ok(journals)
}

// Closes the store of a place with the number of its death, where it has died, and gives its journal.
fn shut(store: Store, death: Option<u32>) -> Journal
    requires { ShutsAt death store }
    ensures shut { IsShut death store.events result.events }
    ensures run { IsStoreRun store.words opening_state result.events }
{
    let mut store = store;
    if let Some(at) = death {
        store.close(at);
    }
    store.into_journal()
}
