// What lies in a book, and what its history is made of.
ghost use Rattle.std.specs.Prelude.{◌≡◌, ℕ, ◌≤◌, ◌<◌, Option, List, ◌++◌, length};
ghost use Rattle.std.specs.Option.{ForSome};
ghost use Rattle.rx_base.specs.Sets.{has_bit};
ghost use Rattle.rx_book.specs.declared.views.Stamped.{Stamped};
ghost use Rattle.rx_book.specs.History.{items_of, stamp_all, has_death, deaths_in};

use rx_base::PlaceSet;
use std::marker::Brand;
use std::sync::Wait;

/// An item of a history, which may be the death of a place.
pub trait Dies {
    // The place whose death it is, or none.
    ghost place: { Self → Option ℕ };

    // No place is above 15.
    ghost small: { (x : Self) → ForSome (place x) (λ p. p ≤ 15) };
}

/// An object whose calls stand in one history. The history is a list of items, each with the number of its caller.
pub trait Object {
    /// What a caller asks for.
    type Op;

    /// What it is answered.
    type Reply;

    /// An entry of the history, as contracts see it. No value of it is made when a program runs.
    type Item: Dies;

    /// What stays the same of an object for as long as its book lasts, as contracts see it.
    type Fixed;

    // What no call changes.
    ghost fixed: { Self → Self.Fixed };

    // The object's entries.
    ghost entries: { Self → List Self.Item };

    // Of what is fixed, the entries before a call, its operation, its reply and the entries that it appends.
    ghost step: { Self.Fixed → List Self.Item → Self.Op → Self.Reply → List Self.Item → Type 0 };

    // Of what is fixed and a history.
    ghost legal: { Self.Fixed → List (Stamped Self.Item) → Type 0 };

    // Of what is fixed, a legal history, the number of a caller and an operation.
    ghost fits: { Self.Fixed → List (Stamped Self.Item) → List ℕ → Self.Op → Type 0 };

    /// Does an operation, which for some caller fits a legal history of the object's entries. It appends and answers by the step,
    /// changes no earlier entry, and keeps what is fixed.
    fn apply<R: Wait>(&mut self, rt: &R, op: Self::Op) -> Self::Reply
        requires { (log : List (Stamped Self.Item)) × (caller : List ℕ) × legal (fixed self.old) log
            × (entries self.old ≡ items_of log) × fits (fixed self.old) log caller op }
        ensures fixed { fixed self.new ≡ fixed self.old }
        ensures did { (added : List Self.Item) × (entries self.new ≡ entries self.old ++ added)
            × step (fixed self.old) (entries self.old) op result added };

    /// The number of entries.
    fn len(&self) -> u32
        ensures { result ≡ length (entries self.now) };

    /// The places of those entries that are deaths.
    fn deaths(&self) -> PlaceSet
        ensures { (p : ℕ) → p < 16 → has_bit result.0 p ≡ has_death Self.Item.place p (entries self.now) };

    /// A law of contracts: where an operation fits a legal history for a caller, the history stays legal with what the step
    /// appends.
    fn stays()
        ensures { (f : Self.Fixed) (log : List (Stamped Self.Item)) (caller : List ℕ) (op : Self.Op) (reply : Self.Reply)
            (added : List Self.Item) → legal f log → fits f log caller op → step f (items_of log) op reply added
            → legal f (log ++ stamp_all caller added) };
}

/// A law of contracts: bit p of the set of the deaths of some items tells whether the death of the place p stands among them.
pub fn deaths_are_a_set<I: Dies>()
    ensures { (items : List I) (p : ℕ) → has_bit (deaths_in I.place items) p ≡ has_death I.place p items }
{}

/// The items that one step appends, for contracts alone. Each call picks them.
pub trait Added<I> {
    ghost added: { List I };
}

impl<I> Added<I> for Brand {
    ghost use Rattle.std.specs.Prelude.{[]};

    ghost added = { [] };
}
