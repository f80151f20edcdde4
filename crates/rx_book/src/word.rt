// The word of a book, its rule, and the steps on it.
ghost use Rattle.std.specs.Prelude.{◌≡◌, ℕ, ◌/◌, ◌%◌, ◌≤◌, ◌<◌, true, [], ◌∷◌, IfOk, bit_or, ◌+◌, ◌*◌, ◌++◌, length};
ghost use Rattle.rx_book.specs.History.{deaths_of, entries_by, stamp_all};
ghost use Rattle.rx_book.specs.Calls.{Looked};
ghost use Rattle.rx_book.specs.Kept.{opening_view, looked, parent_left, born, noted, unmarked, mark_only, both, grown, Told};

use crate::objects::{Added, Dies};
use crate::views::View;
use atomic_table::{Join, Play, Seat, Split, Table, TableRule};
use std::alloc::{AllocError, Global};
use std::marker::PhantomData;

// The rule of the word.
pub struct Law<I> {
    item: PhantomData<I>,
}

impl<I: Dies> TableRule<(), View<I>, ()> for Law<I> {
    ghost use Rattle.rx_book.specs.Kept.{Kept, opening_view};

    ghost holds = { λ _. Kept I.place };

    ghost first = { λ _. opening_view };
}

// A load, by which a seat sees more.
pub struct Look;

impl<I> Play<(), View<I>> for Look {
    ghost use Rattle.rx_book.specs.Kept.{Looks};

    ghost then = { Looks };
}

// A load that only tells what is so.
pub struct Tell;

impl<I: Dies> Play<(), View<I>> for Tell {
    ghost use Rattle.rx_book.specs.Kept.{OnlyTells};

    ghost then = { OnlyTells I.place };
}

// An append of the items that E names.
pub struct Grow<E> {
    added: PhantomData<E>,
}

impl<I: Dies, E: Added<I>> Play<(), View<I>> for Grow<E> {
    ghost use Rattle.rx_book.specs.Kept.{Grows};

    ghost then = { Grows I.place E.added };
}

// A split of a new caller.
pub struct Born;

impl<I> Split<View<I>> for Born {
    ghost use Rattle.rx_book.specs.Kept.{parent_left, born};

    ghost left = { parent_left };

    ghost right = { born };
}

// A split of a note.
pub struct Noted;

impl<I> Split<View<I>> for Noted {
    ghost use Rattle.rx_book.specs.Kept.{noted};

    ghost left = { λ v. v };

    ghost right = { noted };
}

// A split of the mark.
pub struct MarkOff;

impl<I> Split<View<I>> for MarkOff {
    ghost use Rattle.rx_book.specs.Kept.{unmarked, mark_only};

    ghost left = { unmarked };

    ghost right = { mark_only };
}

// A join.
pub struct Meets;

impl<I> Join<View<I>> for Meets {
    ghost use Rattle.rx_book.specs.Kept.{both, blank};

    ghost both = { both };

    ghost spent = { blank };
}

/// One seat at the word of a book. It has no bytes.
pub type Spot<I> = Seat<(), View<I>>;

/// The word of a book: `65536 * n + m`, where n is the number of entries and m is the mask of deaths, in which bit p stands for
/// place p.
#[derive(Drop)]
pub struct Word<I: Dies> {
    table: Table<(), View<I>, (), Law<I>, Global>,
    ghost one_word: { table.shared.table_id.words ≡ 1 },
}

impl<I: Dies> Word<I> {
    /// A word at zero, and the seat of the caller with the empty number, which has the mark.
    pub fn open(alloc: Global) -> Result<(Word<I>, Spot<I>), AllocError>
        ensures { IfOk result (λ t. (t.1.table_id ≡ t.0.table.shared.table_id) × (t.1.me ≡ (opening_view, []))) }
    {
        let (table, seat) = Table::of_words(alloc, &[0], &())?;
        Ok((Word { table }, seat))
    }

    /// One load: the number of entries and the mask of deaths.
    pub fn look(&self, seat: &mut Spot<I>) -> u64
        requires { seat.old.table_id ≡ self.now.table.shared.table_id }
        ensures kept { (seat.new.table_id ≡ seat.old.table_id) × (seat.new.id ≡ seat.old.id) }
        ensures seen { seat.new.me ≡ (looked seat.old.me.0 result, seat.old.me.1) }
        ensures short { result / 65536 < 4294967296 }
        ensures later { Looked seat.old.me.0 seat.new.me.0 }
    {
        self.table.shared.load::<Look>(seat, 0)
    }

    /// One load that changes nothing, and tells what is so of the seat's own view.
    pub fn tell(&self, seat: &mut Spot<I>)
        requires { seat.old.table_id ≡ self.now.table.shared.table_id }
        ensures same { (seat.new.table_id ≡ seat.old.table_id) × (seat.new.id ≡ seat.old.id) × (seat.new.me ≡ seat.old.me) }
        ensures told { Told I.place seat.old.me.0 }
    {
        self.table.shared.load::<Tell>(seat, 0);
    }

    /// A new caller, who has seen as much.
    pub fn bear(&self, seat: &mut Spot<I>) -> Spot<I>
        requires { (seat.old.table_id ≡ self.now.table.shared.table_id) × (seat.old.me.0.numbered ≡ true) }
        ensures parent { (seat.new.table_id ≡ seat.old.table_id) × (seat.new.id ≡ seat.old.id)
            × (seat.new.me ≡ (parent_left seat.old.me.0, seat.old.me.1)) }
        ensures born { (result.table_id ≡ seat.old.table_id) × (result.me ≡ (born seat.old.me.0, [])) }
        ensures low { length result.me.0.seen ≤ result.me.0.reach }
        ensures own { result.me.0.mine ≡ entries_by result.me.0.number result.me.0.seen }
    {
        let mut child = self.table.shared.split_seat::<Born>(seat);
        self.tell(&mut child);
        child
    }

    /// A note of what the seat has seen.
    pub fn note(&self, seat: &mut Spot<I>) -> Spot<I>
        requires { seat.old.table_id ≡ self.now.table.shared.table_id }
        ensures same { (seat.new.table_id ≡ seat.old.table_id) × (seat.new.id ≡ seat.old.id) × (seat.new.me ≡ seat.old.me) }
        ensures note { (result.table_id ≡ seat.old.table_id) × (result.me ≡ (noted seat.old.me.0, [])) }
    {
        self.table.shared.split_seat::<Noted>(seat)
    }

    /// Splits the mark off.
    pub fn mark_off(&self, seat: &mut Spot<I>) -> Spot<I>
        requires { (seat.old.table_id ≡ self.now.table.shared.table_id) × (seat.old.me.0.marked ≡ true) }
        ensures same { (seat.new.table_id ≡ seat.old.table_id) × (seat.new.id ≡ seat.old.id)
            × (seat.new.me ≡ (unmarked seat.old.me.0, seat.old.me.1)) }
        ensures mark { (result.table_id ≡ seat.old.table_id) × (result.me ≡ (mark_only seat.old.me.0, [])) }
    {
        self.table.shared.split_seat::<MarkOff>(seat)
    }

    /// The seat sees what the other had seen, and has its mark.
    pub fn meet(&self, seat: &mut Spot<I>, other: Spot<I>)
        requires { (seat.old.table_id ≡ self.now.table.shared.table_id) × (other.table_id ≡ self.now.table.shared.table_id)
            × (other.me.1 ≡ []) }
        ensures { (seat.new.table_id ≡ seat.old.table_id) × (seat.new.id ≡ seat.old.id)
            × (seat.new.me ≡ (both seat.old.me.0 other.me.0, seat.old.me.1)) }
    {
        self.table.shared.join_seat::<Meets>(seat, other);
    }
}

impl<I: Dies> Word<I> {
    /// One fetch_add: the items join what the seat with the mark has seen.
    pub fn append<E: Added<I>>(&self, seat: &mut Spot<I>, by: u64)
        requires own { seat.old.table_id ≡ self.now.table.shared.table_id }
        requires mark { (seat.old.me.0.marked ≡ true) × (seat.old.me.0.numbered ≡ true) }
        requires room { length seat.old.me.0.seen + length E.added < 4294967296 }
        requires small { deaths_of I.place (seat.old.me.0.seen ++ stamp_all seat.old.me.0.number E.added) < 65536 }
        requires by { by + deaths_of I.place seat.old.me.0.seen
            ≡ 65536 * length E.added + deaths_of I.place (seat.old.me.0.seen ++ stamp_all seat.old.me.0.number E.added) }
        ensures { (seat.new.table_id ≡ seat.old.table_id) × (seat.new.id ≡ seat.old.id)
            × (seat.new.me ≡ (grown I.place seat.old.me.0 E.added, seat.old.me.1)) }
    {
        self.table.shared.fetch_add::<Grow<E>>(seat, 0, by);
    }
}
