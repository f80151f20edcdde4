// The ledger's book, as those see it who ask the ledger.
ghost use Rattle.std.specs.Prelude.{◌≡◌, IsOk, IfOk, List};
ghost use Rattle.rx_book.specs.declared.views.Stamped.{Stamped};
ghost use Rattle.rx_book.specs.Kept.{parent_left, born};
ghost use Rattle.rx_book.specs.Calls.{BeginsWithSeen, Called, Met, Looked};
ghost use Rattle.rx_book.specs.Passes.{view_of, word_of, note_view, note_word, IsAsSeen};
ghost use Rattle.rx_book.specs.Named.{BookName};
ghost use Rattle.rx_parts.specs.declared.items.EntryItem.{EntryItem as Item};
ghost use Rattle.rx_objects.specs.declared.ledger.LedgerFixed.{LedgerFixed};
ghost use Rattle.rx_objects.specs.Ledger.{LedgerIsLegal, LedgerFits, LedgerDoes};
ghost use Rattle.rx_objects.specs.Place.{shown};

use crate::ledger::{LedgerObject, LedgerOp, LedgerReply};
use rx_base::{NoMemory, PlaceSet};
use rx_book::{Book, Note, Pass};
use rx_parts::EntryItem;
use std::sync::Wait;

/// The ledger's book, for those who need not know what lies in it. Contracts see its name. Its calls are those of `Book`.
pub trait LedgerBook {
    // Its word, and what is fixed of the ledger's object.
    ghost name: { Self → BookName LedgerFixed };

    /// As `Book::call`.
    fn call<R: Wait>(&self, rt: &R, pass: &mut Pass<EntryItem>, op: LedgerOp) -> LedgerReply
        requires own { word_of pass.old ≡ (name self.now).word }
        requires fits { (h : List (Stamped Item)) → LedgerIsLegal (name self.now).fixed h → BeginsWithSeen shown (view_of pass.old) h
            → LedgerFits (name self.now).fixed h (view_of pass.old).number op }
        ensures own { word_of pass.new ≡ word_of pass.old }
        ensures called { Called shown (LedgerDoes (name self.now).fixed) (LedgerIsLegal (name self.now).fixed) (view_of pass.old) op
            result (view_of pass.new) };

    /// As `Book::is_busy`.
    fn is_busy(&self) -> bool;

    /// As `Book::split`.
    fn split(&self, pass: &mut Pass<EntryItem>) -> Result<Pass<EntryItem>, NoMemory>
        requires { word_of pass.old ≡ (name self.now).word }
        ensures same { (word_of pass.new ≡ word_of pass.old) × (view_of pass.new ≡ parent_left (view_of pass.old)) }
        ensures always { IsOk result }
        ensures own { IfOk result (λ p. word_of p ≡ word_of pass.old) }
        ensures new { IfOk result (λ p. view_of p ≡ born (view_of pass.old)) };

    /// As `Book::note`.
    fn note(&self, pass: &mut Pass<EntryItem>) -> Result<Note<EntryItem>, NoMemory>
        requires { word_of pass.old ≡ (name self.now).word }
        ensures same { (word_of pass.new ≡ word_of pass.old) × (view_of pass.new ≡ view_of pass.old) }
        ensures always { IsOk result }
        ensures own { IfOk result (λ n. note_word n ≡ word_of pass.old) }
        ensures seen { IfOk result (λ n. IsAsSeen (view_of pass.old) (note_view n)) };

    /// As `Book::meet`.
    fn meet(&self, pass: &mut Pass<EntryItem>, note: Note<EntryItem>)
        requires own { word_of pass.old ≡ (name self.now).word }
        requires note { note_word note ≡ (name self.now).word }
        ensures own { word_of pass.new ≡ word_of pass.old }
        ensures met { Met shown (view_of pass.old) (note_view note) (view_of pass.new) };

    /// As `Book::seen_len`.
    fn seen_len(&self, pass: &mut Pass<EntryItem>) -> u32
        requires { word_of pass.old ≡ (name self.now).word }
        ensures own { word_of pass.new ≡ word_of pass.old }
        ensures answer { result ≡ (view_of pass.new).reach }
        ensures later { Looked (view_of pass.old) (view_of pass.new) };

    /// As `Book::peek_deaths`.
    fn peek_deaths(&self, pass: &mut Pass<EntryItem>) -> PlaceSet
        requires { word_of pass.old ≡ (name self.now).word }
        ensures own { word_of pass.new ≡ word_of pass.old }
        ensures answer { result.0 ≡ (view_of pass.new).dead }
        ensures later { Looked (view_of pass.old) (view_of pass.new) };
}

impl LedgerBook for Book<LedgerObject> {
    ghost name = { λ b. b };

    #[inline(always)]
    fn call<R: Wait>(&self, rt: &R, pass: &mut Pass<EntryItem>, op: LedgerOp) -> LedgerReply {
        Book::call(self, rt, pass, op)
    }

    fn is_busy(&self) -> bool {
        Book::is_busy(self)
    }

    fn split(&self, pass: &mut Pass<EntryItem>) -> Result<Pass<EntryItem>, NoMemory> {
        Book::split(self, pass)
    }

    fn note(&self, pass: &mut Pass<EntryItem>) -> Result<Note<EntryItem>, NoMemory> {
        Book::note(self, pass)
    }

    fn meet(&self, pass: &mut Pass<EntryItem>, note: Note<EntryItem>) {
        Book::meet(self, pass, note)
    }

    fn seen_len(&self, pass: &mut Pass<EntryItem>) -> u32 {
        Book::seen_len(self, pass)
    }

    fn peek_deaths(&self, pass: &mut Pass<EntryItem>) -> PlaceSet {
        Book::peek_deaths(self, pass)
    }
}
