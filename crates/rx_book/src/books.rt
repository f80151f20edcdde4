// The book: an object under a lock, beside the word that shows how long its history is.
ghost use Rattle.std.specs.Prelude.{◌≡◌, ℕ, ◌<◌, ◌≤◌, ◌+◌, ◌*◌, ◌++◌, true, false, [], length, List, IsOk, IfOk, IfErr, drop};
ghost use Rattle.rx_base.specs.Sets.{has_bit};
ghost use Rattle.rx_book.specs.declared.views.Stamped.{Stamped};
ghost use Rattle.rx_book.specs.History.{items_of, stamp_all, has_death, deaths_of};
ghost use Rattle.rx_book.specs.Kept.{opening_view, parent_left, born, grown, settled};
ghost use Rattle.rx_book.specs.Calls.{IsFresh, BeginsWithSeen, Called, Met, Looked, Closed, Ended};
ghost use Rattle.rx_book.specs.Passes.{view_of, word_of, note_view, note_word, IsAsSeen};

use crate::objects::{Added, Dies, Object};
use crate::passes::{Note, Pass};
use crate::word::{Spot, Word};
use crate::{Fact, Lock};
use rx_base::{NoMemory, PlaceSet};
use std::alloc::Global;
use std::marker::{Brand, Model, PhantomData};
use std::snapshot::Snapshot;
use std::sync::Wait;

// What lies under the lock: the object, boxed so that who takes and puts it back moves a word, and the seat that stands for its
// whole history.
pub struct Locked<O, I> {
    pub object: Box<O>,
    pub mark: Spot<I>,
}

// What is true of it whenever no one has the lock.
pub struct Ties<O> {
    object: PhantomData<O>,
}

impl<O: Object> Fact<Locked<O, O::Item>, Snapshot<Locked<O, O::Item>>> for Ties<O> {
    ghost use Rattle.rx_book.specs.Ties.{Tied};

    ghost holds = { Tied O.fixed O.entries O.step O.legal };
}

/// A book. Contracts see its word, by which a pass or a note is of this book, and what is fixed of its object. It may be shared
/// between threads.
pub struct Book<O: Object> {
    word: Word<O::Item>,
    // The key is what first lay under the lock.
    lock: Lock<Locked<O, O::Item>, Snapshot<Locked<O, O::Item>>, Ties<O>>,
}

impl<O: Object> Model for Book<O> {
    ghost use Rattle.std.specs.Prelude.{◌≡◌};
    ghost use Rattle.rx_book.specs.Named.{BookName};

    ghost Value = { BookName O.Fixed };

    ghost view = { λ b. record { word = b.word.table.shared.table_id; fixed = O.fixed b.lock.key.value.object.value } };

    ghost invariant = { λ b. b.lock.key.value.mark.table_id ≡ b.word.table.shared.table_id };
}

/// The word of a book with its first seat, and no object yet. Objects that are made later may name the word. Contracts see it
/// as the word.
#[derive(Drop)]
pub struct BareBook<I: Dies> {
    word: Word<I>,
    seat: Spot<I>,
}

impl<I: Dies> Model for BareBook<I> {
    ghost use Rattle.std.specs.Prelude.{◌≡◌, []};
    ghost use Rattle.rx_book.specs.Kept.{opening_view};
    ghost use Rattle.atomic_table.specs.Seated.{TableId};

    ghost Value = { TableId };

    ghost view = { λ b. b.word.table.shared.table_id };

    ghost invariant = { λ b. (b.seat.table_id ≡ b.word.table.shared.table_id) × (b.seat.me.0 ≡ opening_view) × (b.seat.me.1 ≡ []) };
}

impl<I: Dies> BareBook<I> {
    /// The first of two steps of opening. `Err` means out of memory.
    pub fn open(alloc: Global) -> Result<BareBook<I>, NoMemory> {
        let (word, seat) = Word::open(alloc)?;
        Ok(BareBook { word, seat })
    }
}

// One fetch_add, for what an operation appended to the object.
fn grow<O: Object, E: Added<O::Item>>(
    word: &Word<O::Item>,
    seat: &mut Spot<O::Item>,
    by: u64,
    _before: &Snapshot<O>,
    _object: &O,
)
    requires own { seat.old.table_id ≡ word.now.table.shared.table_id }
    requires mark { (seat.old.me.0.marked ≡ true) × (seat.old.me.0.numbered ≡ true) }
    requires room { length seat.old.me.0.seen + length E.added < 4294967296 }
    requires small { deaths_of O.Item.place (seat.old.me.0.seen ++ stamp_all seat.old.me.0.number E.added) < 65536 }
    requires by { by + deaths_of O.Item.place seat.old.me.0.seen
        ≡ 65536 * length E.added + deaths_of O.Item.place (seat.old.me.0.seen ++ stamp_all seat.old.me.0.number E.added) }
    ensures { (seat.new.table_id ≡ seat.old.table_id) × (seat.new.id ≡ seat.old.id)
        × (seat.new.me ≡ (grown O.Item.place seat.old.me.0 E.added, seat.old.me.1)) }
{
    word.append::<E>(seat, by);
}

// Shows on the word what an operation appended, where it appended something.
fn record_new<O: Object>(
    word: &Word<O::Item>,
    seat: &mut Spot<O::Item>,
    before: &Snapshot<O>,
    object: &O,
    old: (u32, PlaceSet),
)
    requires own { seat.old.table_id ≡ word.now.table.shared.table_id }
    requires mark { (seat.old.me.0.marked ≡ true) × (seat.old.me.0.numbered ≡ true) }
    requires whole { O.entries before.now.value ≡ items_of seat.old.me.0.seen }
    requires grew { (added : List O.Item) × (O.entries object.now ≡ O.entries before.now.value ++ added) }
    requires tight { (seat.old.me.0.reach ≡ length seat.old.me.0.seen) × (seat.old.me.0.dead ≡ deaths_of O.Item.place seat.old.me.0.seen) }
    requires len { old.0 ≡ length (O.entries before.now.value) }
    requires deaths { (p : ℕ) → p < 16 → has_bit old.1.0 p ≡ has_death O.Item.place p (O.entries before.now.value) }
    ensures own { (seat.new.table_id ≡ seat.old.table_id) × (seat.new.me.1 ≡ seat.old.me.1) }
    ensures grown { settled seat.new.me.0 ≡ grown O.Item.place seat.old.me.0 (drop (length (O.entries before.now.value))
        (O.entries object.now)) }
{
    let len = object.len();
    if len > old.0 {
        let by = 65536 * u64::from(len - old.0) + u64::from(object.deaths().0 - old.1.0);
        grow::<O, Brand>(word, seat, by, before, object);
    }
}

impl<O: Object> Book<O> {
    /// A book round an object that has no entries, and the pass of its first caller, whose number is the empty list. `Err` is want
    /// of memory and hands the object back.
    pub fn open<R: Wait>(
        _rt: &R,
        alloc: Global,
        object: O,
    ) -> Result<(Book<O>, Pass<O::Item>), (O, NoMemory)>
        requires empty { O.entries object ≡ [] }
        requires lawful { O.legal (O.fixed object) [] }
        ensures fixed { IfOk result (λ t. t.0.fixed ≡ O.fixed object) }
        ensures own { IfOk result (λ t. word_of t.1 ≡ t.0.word) }
        ensures fresh { IfOk result (λ t. IsFresh (view_of t.1)) }
        ensures err { IfErr result (λ e. e.0 ≡ object) }
    {
        match BareBook::open(alloc) {
            Ok(bare) => Book::over(alloc, bare, object),
            Err(refused) => Err((object, refused)),
        }
    }

    /// The second of two steps of opening: the book of a word that was opened before. Else as `open`.
    pub fn over(
        alloc: Global,
        bare: BareBook<O::Item>,
        object: O,
    ) -> Result<(Book<O>, Pass<O::Item>), (O, NoMemory)>
        requires empty { O.entries object ≡ [] }
        requires lawful { O.legal (O.fixed object) [] }
        ensures same { IfOk result (λ t. t.0.word ≡ bare) }
        ensures fixed { IfOk result (λ t. t.0.fixed ≡ O.fixed object) }
        ensures own { IfOk result (λ t. word_of t.1 ≡ t.0.word) }
        ensures fresh { IfOk result (λ t. IsFresh (view_of t.1)) }
        ensures err { IfErr result (λ e. e.0 ≡ object) }
    {
        let object = match Box::new(alloc, object) {
            Ok(object) => object,
            Err(failed) => return Err((failed.value, NoMemory)),
        };
        let BareBook { word, mut seat } = bare;
        let mark = word.mark_off(&mut seat);
        let locked = Locked { object, mark };
        let key = Snapshot::of(&locked);
        match Lock::new(alloc, locked, &key) {
            Ok(lock) => Ok((Book { word, lock }, Pass { seat })),
            Err((locked, refused)) => {
                let Locked { object, mark: _ } = locked;
                Err((Box::into_inner(object), refused))
            }
        }
    }

    // A call on the bare seat of a pass.
    fn run<R: Wait>(&self, rt: &R, seat: &mut Spot<O::Item>, op: O::Op) -> O::Reply
        requires own { seat.old.table_id ≡ self.now.word }
        requires plain { (seat.old.me.0.marked ≡ false) × (seat.old.me.0.numbered ≡ true) × (seat.old.me.1 ≡ []) }
        requires fits { (h : List (Stamped O.Item)) → O.legal self.now.fixed h → BeginsWithSeen O.Item.place seat.old.me.0 h
            → O.fits self.now.fixed h seat.old.me.0.number op }
        ensures own { seat.new.table_id ≡ seat.old.table_id }
        ensures plain { (seat.new.me.0.marked ≡ false) × (seat.new.me.0.numbered ≡ true) × (seat.new.me.1 ≡ []) }
        ensures called { Called O.Item.place (O.step self.now.fixed) (O.legal self.now.fixed) seat.old.me.0 op result seat.new.me.0 }
    {
        let (locked, turn) = self.lock.lock(rt);
        let Locked {
            object: mut home,
            mark,
        } = locked;
        self.word.meet(seat, mark);
        self.word.tell(seat);
        let object = home.as_mut();
        let before = Snapshot::of(&*object);
        let old = (object.len(), object.deaths());
        O::stays();
        let reply = object.apply(rt, op);
        record_new(&self.word, seat, &before, object, old);
        let mark = self.word.mark_off(seat);
        self.lock.unlock(turn, Locked { object: home, mark });
        reply
    }

    /// Whether somebody calls just now. The answer may be out of date at once. One load: no lock.
    pub fn is_busy(&self) -> bool {
        self.lock.is_taken()
    }

    /// Waits for the lock, and does an operation at one point of the history, which is then legal and wholly seen by the pass. The
    /// operation has to fit, for this caller, every legal history that begins with what the pass has seen and has just the
    /// caller's own entries. The book itself takes no memory.
    #[inline(always)]
    pub fn call<R: Wait>(&self, rt: &R, pass: &mut Pass<O::Item>, op: O::Op) -> O::Reply
        requires own { word_of pass.old ≡ self.now.word }
        requires fits { (h : List (Stamped O.Item)) → O.legal self.now.fixed h → BeginsWithSeen O.Item.place (view_of pass.old) h
            → O.fits self.now.fixed h (view_of pass.old).number op }
        ensures own { word_of pass.new ≡ word_of pass.old }
        ensures called { Called O.Item.place (O.step self.now.fixed) (O.legal self.now.fixed) (view_of pass.old) op result
            (view_of pass.new) }
    {
        self.run(rt, &mut pass.seat, op)
    }

    /// A pass of a new caller, who has seen as much. Its number is that of this pass followed by the count of passes that were
    /// split from this one before. No memory.
    pub fn split(&self, pass: &mut Pass<O::Item>) -> Result<Pass<O::Item>, NoMemory>
        requires { word_of pass.old ≡ self.now.word }
        ensures same { (word_of pass.new ≡ word_of pass.old) × (view_of pass.new ≡ parent_left (view_of pass.old)) }
        ensures always { IsOk result }
        ensures own { IfOk result (λ p. word_of p ≡ word_of pass.old) }
        ensures new { IfOk result (λ p. view_of p ≡ born (view_of pass.old)) }
    {
        let seat = self.word.bear(&mut pass.seat);
        Ok(Pass { seat })
    }

    /// A note of what the pass has seen. No memory.
    pub fn note(&self, pass: &mut Pass<O::Item>) -> Result<Note<O::Item>, NoMemory>
        requires { word_of pass.old ≡ self.now.word }
        ensures same { (word_of pass.new ≡ word_of pass.old) × (view_of pass.new ≡ view_of pass.old) }
        ensures always { IsOk result }
        ensures own { IfOk result (λ n. note_word n ≡ word_of pass.old) }
        ensures seen { IfOk result (λ n. IsAsSeen (view_of pass.old) (note_view n)) }
    {
        let seat = self.word.note(&mut pass.seat);
        Ok(Note { seat })
    }

    // A join of the bare seats of a pass and a note.
    fn meet_seat(&self, seat: &mut Spot<O::Item>, other: Spot<O::Item>)
        requires own { (seat.old.table_id ≡ self.now.word) × (other.table_id ≡ seat.old.table_id) }
        requires plain { (seat.old.me.0.marked ≡ false) × (seat.old.me.0.numbered ≡ true) × (seat.old.me.1 ≡ []) }
        requires other { (other.me.0.marked ≡ false) × (other.me.1 ≡ []) }
        ensures own { seat.new.table_id ≡ seat.old.table_id }
        ensures plain { (seat.new.me.0.marked ≡ false) × (seat.new.me.0.numbered ≡ true) × (seat.new.me.1 ≡ []) }
        ensures low { length seat.new.me.0.seen ≤ seat.new.me.0.reach }
        ensures met { Met O.Item.place seat.old.me.0 other.me.0 seat.new.me.0 }
    {
        self.word.meet(seat, other);
        self.word.tell(seat);
    }

    /// The pass sees the longer of what it and the note had seen. No memory.
    pub fn meet(&self, pass: &mut Pass<O::Item>, note: Note<O::Item>)
        requires own { word_of pass.old ≡ self.now.word }
        requires note { note_word note ≡ self.now.word }
        ensures own { word_of pass.new ≡ word_of pass.old }
        ensures met { Met O.Item.place (view_of pass.old) (note_view note) (view_of pass.new) }
    {
        let Note { seat } = note;
        self.meet_seat(&mut pass.seat, seat);
    }

    /// The number of entries of a beginning of the history, which the pass has seen afterwards. One load: no lock, no memory.
    pub fn seen_len(&self, pass: &mut Pass<O::Item>) -> u32
        requires { word_of pass.old ≡ self.now.word }
        ensures own { word_of pass.new ≡ word_of pass.old }
        ensures answer { result ≡ (view_of pass.new).reach }
        ensures later { Looked (view_of pass.old) (view_of pass.new) }
    {
        (self.word.look(&mut pass.seat) / 65536) as u32
    }

    /// The places whose deaths stand in a beginning of the history, which the pass has seen afterwards. One load: no lock, no
    /// memory.
    pub fn peek_deaths(&self, pass: &mut Pass<O::Item>) -> PlaceSet
        requires { word_of pass.old ≡ self.now.word }
        ensures own { word_of pass.new ≡ word_of pass.old }
        ensures answer { result.0 ≡ (view_of pass.new).dead }
        ensures later { Looked (view_of pass.old) (view_of pass.new) }
    {
        PlaceSet((self.word.look(&mut pass.seat) % 65536) as u16)
    }

    /// Waits for the lock, and gives the object, whose history begins with all that the pass had seen. No memory.
    pub fn close<R: Wait>(
        self,
        rt: &R,
        pass: Pass<O::Item>,
    ) -> Result<O, (Book<O>, Pass<O::Item>, NoMemory)>
        requires { word_of pass ≡ self.word }
        ensures always { IsOk result }
        ensures fixed { IfOk result (λ o. O.fixed o ≡ self.fixed) }
        ensures closed { IfOk result (Closed O.Item.place O.entries (O.step self.fixed) (O.legal self.fixed) (view_of pass)) }
    {
        let Pass { seat } = pass;
        Ok(self.finish(rt, seat))
    }

    // The object, by the bare seat of a pass.
    fn finish<R: Wait>(self, rt: &R, seat: Spot<O::Item>) -> O
        requires own { seat.table_id ≡ self.word }
        requires plain { (seat.me.0.numbered ≡ true) × (seat.me.1 ≡ []) }
        ensures fixed { O.fixed result ≡ self.fixed }
        ensures closed { Closed O.Item.place O.entries (O.step self.fixed) (O.legal self.fixed) seat.me.0 result }
    {
        let (locked, turn) = self.lock.lock(rt);
        let Locked { object, mark } = locked;
        let mut seat = seat;
        self.word.meet(&mut seat, mark);
        self.word.tell(&mut seat);
        let Book { word: _, lock } = self;
        lock.close(turn);
        Box::into_inner(object)
    }

    /// Waits for the lock, and gives the object without a pass. No memory.
    pub fn abandon<R: Wait>(self, rt: &R) -> O
        ensures fixed { O.fixed result ≡ self.fixed }
        ensures ended { Ended O.entries (O.step self.fixed) (O.legal self.fixed) result }
    {
        let (locked, turn) = self.lock.lock(rt);
        let Locked { object, mark: _ } = locked;
        let Book { word: _, lock } = self;
        lock.close(turn);
        Box::into_inner(object)
    }
}
