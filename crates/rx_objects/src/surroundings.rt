// What a place has round it.
ghost use Rattle.std.specs.Prelude.{◌≡◌};
ghost use Rattle.rx_book.specs.Calls.{Met};
ghost use Rattle.rx_book.specs.Named.{BookName};
ghost use Rattle.rx_book.specs.Passes.{view_of, word_of, note_view, note_word, IsAsSeen};
ghost use Rattle.rx_objects.specs.declared.ledger.LedgerFixed.{LedgerFixed};
ghost use Rattle.rx_objects.specs.Place.{shown};

use crate::ledger_book::LedgerBook;
use rx_base::{Gate, PlaceId};
use rx_book::{Note, Pass};
use rx_parts::EntryItem;

/// What a place has round it: the ledger's book of its run, and what it comes by before its store calls. Contracts see the book.
pub trait Surroundings: Drop {
    // The ledger's book, as contracts see it.
    ghost ledger: { Self → BookName LedgerFixed };

    /// The pass meets the note, and a new note is made of what it has seen then.
    fn exchange(&self, pass: &mut Pass<EntryItem>, note: Note<EntryItem>) -> Note<EntryItem>
        requires own { word_of pass.old ≡ (ledger self.now).word }
        requires note { note_word note ≡ (ledger self.now).word }
        ensures own { (word_of pass.new ≡ (ledger self.now).word) × (note_word result ≡ (ledger self.now).word) }
        ensures met { Met shown (view_of pass.old) (note_view note) (view_of pass.new) }
        ensures seen { IsAsSeen (view_of pass.new) (note_view result) };

    /// Comes before a store call at a place, under the place's lock. It answers nothing and changes no meaning: it may only take its
    /// time.
    fn cell(&self, place: PlaceId);
}

/// The ledger's book and the gate of a run, which keeps both for as long as its places last.
#[derive(Drop)]
pub struct LedgerAndGate<'a, L: LedgerBook, G: Gate> {
    pub ledger: &'a L,
    pub gate: &'a G,
}

impl<'a, L: LedgerBook, G: Gate> Surroundings for LedgerAndGate<'a, L, G> {
    ghost ledger = { λ s. L.name s.ledger.now };

    fn exchange(&self, pass: &mut Pass<EntryItem>, note: Note<EntryItem>) -> Note<EntryItem> {
        self.ledger.meet(pass, note);
        match self.ledger.note(pass) {
            Ok(note) => note,
            Err(_) => unreachable!(),
        }
    }

    fn cell(&self, place: PlaceId) {
        self.gate.cell(place);
    }
}
