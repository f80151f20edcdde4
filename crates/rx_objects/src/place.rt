// A place's object: its store, and a note of the longest history of the ledger that its callers had seen.
ghost use Rattle.std.specs.Prelude.{◌≡◌, ◌<◌, ◌^◌, ◌++◌, ◌∷◌, [], false, true, length, List};
ghost use Rattle.rx_base.specs.Sets.{has_bit};
ghost use Rattle.rx_rules.specs.declared.events.PlaceEvent.{PlaceEvent as Event};
ghost use Rattle.rx_book.specs.Passes.{note_view, note_word};
ghost use Rattle.rx_objects.specs.Ledger.{LedgerIsLegal};
ghost use Rattle.rx_objects.specs.Place.{PlaceKeeps};

use crate::ledger::LedgerName;
use crate::surroundings::Surroundings;
use crate::trail::Trail;
use rx_base::{Fault, PlaceId, PlaceSet, Value};
use rx_book::{Note, Object, Pass};
use rx_control::CellOp;
use rx_parts::{EntryItem, EventItem};
use rx_rules::PlaceEvent;
use rx_store::{Mark, Store, ask};
use std::marker::Model;
use std::snapshot::Snapshot;
use std::sync::Wait;

/// An operation of a place's book: who asks, what, and the asker's pass of the ledger's book.
#[derive(Drop)]
pub struct PlaceOp {
    pub mark: Mark,
    pub op: CellOp,
    pub pass: Pass<EntryItem>,
}

/// An answer, and the pass, which has met the place's note.
#[derive(Drop)]
pub enum PlaceReply {
    Cell {
        answer: Result<Option<Value>, Fault>,
        pass: Pass<EntryItem>,
    },
    /// There was no memory, and the place has failed.
    NoMemory {
        pass: Pass<EntryItem>,
    },
}

/// One call: the event that it added to the journal, and the asker's pass then. It has no bytes.
#[derive(Drop)]
pub struct PlaceCall {
    pub event: Snapshot<PlaceEvent>,
    pub pass: Snapshot<Pass<EntryItem>>,
}

/// What is fixed of a place's object: its number, the words of its heap, and the ledger's book. No value of it is made.
pub struct PlaceFixed {
    pub place: PlaceId,
    pub words: u32,
    pub ledger: LedgerName,
}

/// A place. The note is None only after the place has failed.
#[derive(Drop)]
pub struct PlaceObject<S: Surroundings> {
    pub place: PlaceId,
    pub store: Store,
    pub note: Option<Note<EntryItem>>,
    pub surroundings: S,
    calls: Trail<PlaceCall>,
}

impl<S: Surroundings> Model for PlaceObject<S> {
    ghost use Rattle.rx_objects.specs.Place.{events_called, PlaceView, PlaceKeeps};

    ghost Value = { PlaceView };

    ghost view = { λ s. record {
      entries = events_called s.calls;
      place = s.place;
      words = s.store.words;
      ledger = S.ledger s.surroundings;
    } };

    ghost invariant = { λ s. PlaceKeeps s.place s.store (S.ledger s.surroundings) s.note (events_called s.calls) };
}

// Room for one event more, where the journal may grow.
fn has_room(store: &mut Store) -> bool
    ensures same { store.new ≡ record store.old { spare = store.new.spare } }
    ensures room { result ≡ true → (0 < store.new.spare) × (length store.new.events < 2 ^ 31) }
{
    store.reserve(1).is_ok() && store.journal().len() < 2147483648
}

// The last event of the journal.
fn last_event(store: &Store) -> Snapshot<PlaceEvent>
    requires { 0 < length store.now.events }
    ensures { (es : List Event) (e : Event) → store.now.events ≡ es ++ e ∷ [] → result.value ≡ e }
{
    let journal = store.journal();
    Snapshot::of(journal.item(journal.len() - 1))
}

impl<S: Surroundings> PlaceObject<S> {
    /// A place without events. The note is of the ledger's book, and knows of no death of the place.
    pub fn open(place: PlaceId, store: Store, note: Note<EntryItem>, surroundings: S) -> Self
        requires own { note_word note ≡ (S.ledger surroundings).word }
        requires lawful { LedgerIsLegal (S.ledger surroundings).fixed (note_view note).seen }
        requires alive { has_bit (note_view note).dead place.0 ≡ false }
        requires store { (store.events ≡ []) × (store.place ≡ place) }
        ensures { result ≡ record { entries = []; place = place; words = store.words; ledger = S.ledger surroundings } }
    {
        PlaceObject {
            place,
            store,
            note: Some(note),
            surroundings,
            calls: Trail::Empty,
        }
    }

    /// The store and the note at the end. It takes no memory.
    pub fn into_parts(self) -> (Store, Option<Note<EntryItem>>)
        ensures kept { PlaceKeeps self.place result.0 self.ledger result.1 self.entries }
        ensures words { result.0.words ≡ self.words }
    {
        let PlaceObject {
            place: _,
            store,
            note,
            surroundings: _,
            calls: _,
        } = self;
        (store, note)
    }
}

impl<S: Surroundings> Object for PlaceObject<S> {
    type Op = PlaceOp;

    type Reply = PlaceReply;

    type Item = EventItem;

    type Fixed = PlaceFixed;

    ghost use Rattle.rx_objects.specs.Place.{PlaceDoes, PlaceIsLegal, PlaceFits};

    ghost fixed = { λ s. record { place = s.place; words = s.words; ledger = s.ledger } };

    ghost entries = { λ s. s.entries };

    ghost step = { PlaceDoes };

    ghost legal = { PlaceIsLegal };

    ghost fits = { PlaceFits };

    fn apply<R: Wait>(&mut self, _rt: &R, op: PlaceOp) -> PlaceReply {
        let PlaceOp { mark, op, mut pass } = op;
        let Some(note) = self.note.take() else {
            return PlaceReply::NoMemory { pass };
        };
        let note = self.surroundings.exchange(&mut pass, note);
        if !has_room(&mut self.store) {
            return PlaceReply::NoMemory { pass };
        }
        self.surroundings.cell(self.place);
        let answer = ask(&mut self.store, mark, op);
        let call = PlaceCall {
            event: last_event(&self.store),
            pass: Snapshot::of(&pass),
        };
        self.note = Some(note);
        self.calls = Trail::After(Snapshot::of(&self.calls), call);
        PlaceReply::Cell { answer, pass }
    }

    fn len(&self) -> u32 {
        self.store.journal().len() as u32
    }

    fn deaths(&self) -> PlaceSet {
        PlaceSet(0)
    }

    fn stays() {}
}
