// A place's book, as those see it who make calls of its store.
ghost use Rattle.std.specs.Prelude.{◌≡◌, IsOk, IfOk, List};
ghost use Rattle.rx_book.specs.declared.views.Stamped.{Stamped};
ghost use Rattle.rx_book.specs.Kept.{parent_left, born};
ghost use Rattle.rx_book.specs.Calls.{BeginsWithSeen, Called, Met};
ghost use Rattle.rx_book.specs.Passes.{view_of, word_of, note_view, note_word, IsAsSeen};
ghost use Rattle.rx_book.specs.Named.{BookName};
ghost use Rattle.rx_parts.specs.declared.items.EventItem.{EventItem as Item};
ghost use Rattle.rx_objects.specs.declared.place.PlaceFixed.{PlaceFixed};
ghost use Rattle.rx_objects.specs.Place.{unshown, PlaceIsLegal, PlaceFits, PlaceDoes, PlaceCloses};

use crate::place::{PlaceObject, PlaceOp, PlaceReply};
use crate::surroundings::Surroundings;
use rx_base::NoMemory;
use rx_book::{Book, Note, Pass};
use rx_parts::{EntryItem, EventItem};
use rx_store::Store;
use std::sync::Wait;

/// A place's book, for those who need not know what lies in it. Contracts see its name. Its calls are those of `Book`. It can't be
/// dropped.
pub trait PlaceBook {
    // Its word, and what is fixed of the place's object.
    ghost name: { Self → BookName PlaceFixed };

    /// As `Book::call`.
    fn call<R: Wait>(&self, rt: &R, seat: &mut Pass<EventItem>, op: PlaceOp) -> PlaceReply
        requires own { word_of seat.old ≡ (name self.now).word }
        requires fits { (h : List (Stamped Item)) → PlaceIsLegal (name self.now).fixed h → BeginsWithSeen unshown (view_of seat.old) h
            → PlaceFits (name self.now).fixed h (view_of seat.old).number op }
        ensures own { word_of seat.new ≡ word_of seat.old }
        ensures called { Called unshown (PlaceDoes (name self.now).fixed) (PlaceIsLegal (name self.now).fixed) (view_of seat.old) op
            result (view_of seat.new) };

    /// As `Book::split`.
    fn split(&self, seat: &mut Pass<EventItem>) -> Result<Pass<EventItem>, NoMemory>
        requires { word_of seat.old ≡ (name self.now).word }
        ensures same { (word_of seat.new ≡ word_of seat.old) × (view_of seat.new ≡ parent_left (view_of seat.old)) }
        ensures always { IsOk result }
        ensures own { IfOk result (λ p. word_of p ≡ word_of seat.old) }
        ensures new { IfOk result (λ p. view_of p ≡ born (view_of seat.old)) };

    /// As `Book::note`.
    fn note(&self, seat: &mut Pass<EventItem>) -> Result<Note<EventItem>, NoMemory>
        requires { word_of seat.old ≡ (name self.now).word }
        ensures same { (word_of seat.new ≡ word_of seat.old) × (view_of seat.new ≡ view_of seat.old) }
        ensures always { IsOk result }
        ensures own { IfOk result (λ n. note_word n ≡ word_of seat.old) }
        ensures seen { IfOk result (λ n. IsAsSeen (view_of seat.old) (note_view n)) };

    /// As `Book::meet`.
    fn meet(&self, seat: &mut Pass<EventItem>, note: Note<EventItem>)
        requires own { word_of seat.old ≡ (name self.now).word }
        requires note { note_word note ≡ (name self.now).word }
        ensures own { word_of seat.new ≡ word_of seat.old }
        ensures met { Met unshown (view_of seat.old) (note_view note) (view_of seat.new) };

    /// Closes the book as `Book::close` does, and gives the store and the note that the place kept.
    fn close<R: Wait>(self, rt: &R, seat: Pass<EventItem>) -> (Store, Option<Note<EntryItem>>)
        requires { word_of seat ≡ (name self).word }
        ensures { PlaceCloses (name self).fixed (view_of seat).seen result.0 result.1 };

    /// Ends the book as `Book::abandon` does, and drops what lay in it.
    fn abandon<R: Wait>(self, rt: &R);
}

impl<S: Surroundings> PlaceBook for Book<PlaceObject<S>> {
    ghost name = { λ b. b };

    #[inline(always)]
    fn call<R: Wait>(&self, rt: &R, seat: &mut Pass<EventItem>, op: PlaceOp) -> PlaceReply {
        Book::call(self, rt, seat, op)
    }

    fn split(&self, seat: &mut Pass<EventItem>) -> Result<Pass<EventItem>, NoMemory> {
        Book::split(self, seat)
    }

    fn note(&self, seat: &mut Pass<EventItem>) -> Result<Note<EventItem>, NoMemory> {
        Book::note(self, seat)
    }

    fn meet(&self, seat: &mut Pass<EventItem>, note: Note<EventItem>) {
        Book::meet(self, seat, note)
    }

    fn close<R: Wait>(self, rt: &R, seat: Pass<EventItem>) -> (Store, Option<Note<EntryItem>>) {
        match Book::close(self, rt, seat) {
            Ok(object) => object.into_parts(),
            Err(refused) => {
                let (_book, _pass, _) = refused;
                unreachable!()
            }
        }
    }

    fn abandon<R: Wait>(self, rt: &R) {
        let _object = Book::abandon(self, rt);
    }
}
