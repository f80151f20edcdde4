// A place, as the workers share it.
ghost use Rattle.std.specs.Prelude.{◌≡◌, Some, IfOk, IfSome, slice_get};
ghost use Rattle.rx_book.specs.Passes.{view_of, word_of};
ghost use Rattle.rx_objects.specs.Opened.{PlaceIs, IsPlaceBook};
ghost use Rattle.rx_activities.specs.Knowing.{IsNewSeat};
ghost use Rattle.rx_stations.specs.Closed.{IsClosed};

use crate::bed::Bed;
use crate::keys::{Keys, Letter};
use crate::queue::Queue;
use rx_activities::{Activity, Naming, Traveller};
use rx_base::PlaceId;
use rx_book::{Fact, Lock, Note, Pass};
use rx_mail::Mail;
use rx_objects::PlaceBook;
use rx_parts::{EntryItem, EventItem};
use rx_store::Store;
use std::alloc::Global;
use std::marker::Model;
use std::snapshot::Snapshot;
use std::sync::{Mutex, MutexGuard, Wait};

// The keys under the lock are those of the place and the mailbox for which the lock was made.
pub(crate) struct AreOf;

impl<N: Naming> Fact<Keys<N>, Snapshot<Keys<N>>> for AreOf {
    ghost use Rattle.std.specs.Prelude.{◌≡◌};

    ghost holds = { λ first keys. keys ≡ first.value };
}

/// A place with its book, the activities that are there, and the mailbox of those that are on their way to it. Contracts see the
/// place and the mailbox. It can't be dropped.
pub struct Station<N: Naming, P: PlaceBook> {
    place: PlaceId,
    book: P,
    mail: Mail<Letter<N>>,
    // The first keys. Those of the workers are made from them.
    keys: Lock<Keys<N>, Snapshot<Keys<N>>, AreOf>,
    queue: Mutex<Queue<N>>,
}

impl<N: Naming, P: PlaceBook> Model for Station<N, P> {
    ghost use Rattle.std.specs.Prelude.{◌≡◌};
    ghost use Rattle.rx_objects.specs.Opened.{IsPlaceBook};
    ghost use Rattle.rx_stations.specs.Stations.{PostName};

    ghost Value = { PostName };

    ghost view = { λ s. record { place = s.place; mail = s.mail } };

    ghost invariant = { λ s. IsPlaceBook N.ledger s.place (P.name s.book) × (s.keys.key.value ≡ record { place = s.place; mail = s.mail }) };
}

/// What a worker may do.
pub(crate) enum Job<N: Naming> {
    /// A turn of an activity.
    Move(Activity<N>),
    /// The arrival of one.
    Land(Letter<N>),
}

impl<N: Naming, P: PlaceBook> Station<N, P> {
    /// A place without activities, by a first pass of its book that has seen nothing. `Err` means out of memory, and hands the book
    /// back.
    pub fn open(
        alloc: Global,
        place: PlaceId,
        book: P,
        seat: Pass<EventItem>,
    ) -> Result<Station<N, P>, P>
        requires place { IsPlaceBook N.ledger place (P.name book) }
        requires seat { IsNewSeat N.ledger place seat }
        ensures { IfOk result (λ s. s.place ≡ place) }
    {
        let Ok((mail, pass)) = Mail::open(alloc) else {
            return Err(book);
        };
        let first = Keys {
            place,
            seat,
            mail: pass,
        };
        let key = Snapshot::of(&first);
        let made: Result<Lock<_, _, AreOf>, _> = Lock::new(alloc, first, &key);
        let Ok(keys) = made else {
            mail.end();
            return Err(book);
        };
        Ok(Station {
            place,
            book,
            mail,
            keys,
            queue: Mutex::new(Queue::new(alloc)),
        })
    }

    /// Its book.
    pub fn book(&self) -> &P
        ensures { PlaceIs N.ledger self.now.place (P.name result.now) }
    {
        &self.book
    }

    /// Keys of its own for a worker. `None` means out of memory.
    pub(crate) fn new_keys<R: Wait>(&self, rt: &R) -> Option<Keys<N>>
        ensures { IfSome result (λ k. k ≡ self.now) }
    {
        let (mut first, turn) = self.keys.lock(rt);
        let made = self.split_keys(&mut first);
        self.keys.unlock(turn, first);
        made
    }

    // Keys from other keys of this place.
    fn split_keys(&self, first: &mut Keys<N>) -> Option<Keys<N>>
        requires { first.old ≡ self.now }
        ensures same { first.new ≡ first.old }
        ensures made { IfSome result (λ k. k ≡ self.now) }
    {
        let seat = self.new_seat(first);
        let Ok(mail) = self.mail.split(&mut first.mail) else {
            return None;
        };
        Some(Keys {
            place: self.place,
            seat,
            mail,
        })
    }

    /// A pass of the place's book for an activity that arrives.
    pub(crate) fn new_seat(&self, keys: &mut Keys<N>) -> Pass<EventItem>
        requires { keys.old ≡ self.now }
        ensures same { keys.new ≡ keys.old }
        ensures seat { IsNewSeat N.ledger self.now.place result }
    {
        match self.book.split(&mut keys.seat) {
            Ok(seat) => seat,
            Err(_) => unreachable!(),
        }
    }

    /// Sends an activity to this place. False means out of memory, and then it is gone.
    pub(crate) fn send<R: Wait>(
        &self,
        rt: &R,
        bed: &Bed,
        keys: &mut Keys<N>,
        traveller: Traveller<N>,
    ) -> bool
        requires { keys.old ≡ self.now }
        ensures { keys.new ≡ keys.old }
    {
        bed.puts();
        self.mail
            .send_as(rt, &mut keys.mail, Letter { traveller })
            .is_ok()
    }

    /// Its queue, once nobody else has it.
    pub(crate) fn queue<R: Wait>(&self, rt: &R) -> MutexGuard<'_, Queue<N>> {
        self.queue.lock(rt)
    }

    /// What may be made here next, where there is something.
    pub(crate) fn next_job<R: Wait>(&self, rt: &R, bed: &Bed, keys: &mut Keys<N>) -> Option<Job<N>>
        requires { keys.old ≡ self.now }
        ensures { keys.new ≡ keys.old }
    {
        let job = match self.mail.take_as(rt, &mut keys.mail) {
            Some(letter) => Some(Job::Land(letter)),
            None => match self.queue.lock(rt).next() {
                Some(activity) => Some(Job::Move(activity)),
                None => None,
            },
        };
        if job.is_some() {
            bed.took();
        }
        job
    }

    // The book alone. What else is here is given up.
    fn into_book<R: Wait>(self, rt: &R) -> P
        ensures { IsPlaceBook N.ledger self.place (P.name result) }
    {
        let Station {
            place: _,
            book,
            mail,
            keys,
            queue,
        } = self;
        queue.into_inner().end();
        mail.end();
        let (_first, turn) = keys.lock(rt);
        keys.close(turn);
        book
    }

    /// Gives up what is here.
    pub fn abandon<R: Wait>(self, rt: &R) {
        self.into_book(rt).abandon(rt);
    }

    /// Closes the book by the host's pass, and gives the store and the note that the place kept.
    pub fn close<R: Wait>(self, rt: &R, seat: Pass<EventItem>) -> (Store, Option<Note<EntryItem>>)
        requires { slice_get N.ledger.fixed.places self.place.0 ≡ Some (word_of seat) }
        ensures { IsClosed N.ledger self.place.0 (view_of seat).seen result.0 result.1 }
    {
        self.into_book(rt).close(rt, seat)
    }
}
