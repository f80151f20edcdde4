ghost use Rattle.std.specs.Prelude.{◌≡◌, ◌≤◌, ◌<◌, ℕ, ◌++◌, ◌∷◌, [], length, MatchBool, ◌||◌};
ghost use Rattle.std.specs.Option.{ForSome};
ghost use Rattle.rx_base.specs.Sets.{has_bit};
ghost use Rattle.tests_of_runs.specs.declared.book.event.Event.{Event};
ghost use Rattle.rx_book.specs.History.{has_death, is_place};
ghost use Rattle.rx_book.specs.Passes.{word_of, note_word};

mod event;

use crate::same::same;
use event::{Event, add, die};
use rx_base::{PlaceId, PlaceSet};
use rx_book::{BareBook, Book, Note, Object, Pass};
use std::alloc::Global;
use std::sync::Wait;
use std::test::Fail;
use std::thread;

/// A list of events. A call answers whether the event was appended.
#[derive(Drop)]
pub struct Events {
    all: Vec<Event>,
    dead: PlaceSet,
    ghost short: { length all.items < 4294967296 },
    ghost marks: { (p : ℕ) → p < 16 → has_bit dead.0 p ≡ has_death (λ (e : Event). e.dead) p all.items },
}

// The set with one place more, or the same.
#[tactic(auto, using(rx_book::proofs::Masks::or_nothing))]
fn with_death(dead: PlaceSet, place: Option<u8>) -> PlaceSet
    requires { ForSome place (λ p. p ≤ 15) }
    ensures { (p : ℕ) → p < 16 → has_bit result.0 p ≡ (has_bit dead.0 p || is_place p place) }
{
    match place {
        Some(place) => dead.with(PlaceId(place)),
        None => dead,
    }
}

impl Events {
    fn open(alloc: Global) -> Events
        ensures { result.all.items ≡ [] }
    {
        Events {
            all: Vec::new(alloc),
            dead: PlaceSet::empty(),
        }
    }

    fn add(&mut self, event: Event) -> bool
        ensures { MatchBool result (self.new.all.items ≡ self.old.all.items ++ event ∷ []) (self.new.all.items ≡ self.old.all.items) }
    {
        if self.all.len() >= 4294967295 {
            return false;
        }
        let dead = with_death(self.dead, event.dead);
        if self.all.push(event).is_err() {
            return false;
        }
        self.dead = dead;
        true
    }
}

impl Object for Events {
    type Op = Event;

    type Reply = bool;

    type Item = Event;

    type Fixed = ();

    ghost fixed = { λ s. tt };

    ghost entries = { λ s. s.all.items };

    ghost step = { λ f before op reply added. MatchBool reply (added ≡ op ∷ []) (added ≡ []) };

    ghost legal = { λ f log. Unit {0} };

    ghost fits = { λ f log caller op. Unit {0} };

    fn apply<R: Wait>(&mut self, _rt: &R, op: Event) -> bool {
        self.add(op)
    }

    fn len(&self) -> u32 {
        self.all.len() as u32
    }

    fn deaths(&self) -> PlaceSet {
        self.dead
    }

    fn stays() {}
}

// The object of a book at its end.
fn close<R: Wait>(rt: &R, book: Book<Events>, pass: Pass<Event>) -> Events
    requires { word_of pass ≡ book.word }
{
    match book.close(rt, pass) {
        Ok(events) => events,
        Err((book, _, _)) => book.abandon(rt),
    }
}

#[test]
fn the_word_shows_length_and_deaths(rt: HostRuntime) -> Result<(), Fail> {
    let Ok((book, mut a)) = Book::open(&rt, rt.alloc(), Events::open(rt.alloc())) else {
        panic!(rt; "no memory")
    };
    same(&rt, book.seen_len(&mut a), 0);
    assert!(rt; book.peek_deaths(&mut a) == PlaceSet(0));
    assert!(rt; book.call(&rt, &mut a, add(7)));
    same(&rt, book.seen_len(&mut a), 1);
    let Ok(mut b) = book.split(&mut a) else {
        unreachable!()
    };
    assert!(rt; book.call(&rt, &mut b, die(3)));
    same(&rt, book.seen_len(&mut a), 2);
    assert!(rt; book.peek_deaths(&mut a) == PlaceSet(8));
    assert!(rt; book.call(&rt, &mut b, die(5)));
    assert!(rt; book.peek_deaths(&mut a) == PlaceSet(40));
    let events = close(&rt, book, a);
    assert!(rt; events.all.len() == 3);
    Ok(())
}

#[test]
fn a_note_tells_another_caller(rt: HostRuntime) -> Result<(), Fail> {
    let Ok(bare) = BareBook::open(rt.alloc()) else {
        panic!(rt; "no memory")
    };
    let Ok((book, mut a)) = Book::over(rt.alloc(), bare, Events::open(rt.alloc())) else {
        panic!(rt; "no memory")
    };
    let Ok(mut c) = book.split(&mut a) else {
        unreachable!()
    };
    assert!(rt; book.call(&rt, &mut a, add(7)));
    let Ok(note) = book.note(&mut a) else {
        unreachable!()
    };
    book.meet(&mut c, note);
    let events = close(&rt, book, c);
    assert!(rt; events.all.len() == 1);
    assert!(rt; events.all[0].number == 7 && events.all[0].dead.is_none());
    Ok(())
}

// A caller of its own thread. Its pass ends as a note.
fn add_all<R: Wait>(
    rt: &R,
    book: &Book<Events>,
    mut pass: Pass<Event>,
    from: u64,
) -> (u32, Note<Event>)
    requires { (word_of pass ≡ book.now.word) × (from ≤ 1000) }
    ensures { note_word result.1 ≡ book.now.word }
{
    let mut made = 0;
    for i in 0..100 {
        if book.call(rt, &mut pass, add(from + i)) && made < 100 {
            made += 1;
        }
    }
    (made, pass.into_note())
}

// Whether the numbers are 100 from 0 on and 100 from 1000 on, each in ascending order.
fn are_in_order(events: &Events) -> bool {
    let mut low = 0u64;
    let mut high = 1000u64;
    for event in events.all.iter() {
        if event.number == low {
            low = low.wrapping_add(1);
        } else if event.number == high {
            high = high.wrapping_add(1);
        } else {
            return false;
        }
    }
    low == 100 && high == 1100
}

#[test]
fn two_threads_add_a_hundred_each(rt: HostRuntime) -> Result<(), Fail> {
    let Ok((book, mut a)) = Book::open(&rt, rt.alloc(), Events::open(rt.alloc())) else {
        panic!(rt; "no memory")
    };
    let Ok(b) = book.split(&mut a) else {
        unreachable!()
    };
    let Ok(c) = book.split(&mut a) else {
        unreachable!()
    };
    let shared = &book;
    let (x, y) = thread::join(
        &rt,
        || add_all(&rt, shared, b, 0),
        || add_all(&rt, shared, c, 1000),
    );
    assert!(rt; x.0 == 100 && y.0 == 100);
    book.meet(&mut a, x.1);
    book.meet(&mut a, y.1);
    same(&rt, book.seen_len(&mut a), 200);
    let events = close(&rt, book, a);
    assert!(rt; events.all.len() == 200);
    assert!(rt; are_in_order(&events));
    Ok(())
}
