// The answer to a line.
ghost use Rattle.std.specs.Prelude.{◌≡◌, ◌⊎◌, ◌≤◌, ℕ, List, Option, Some, [], ◌++◌, length, true, false, not, IfOk};
ghost use Rattle.rx_rules.specs.declared.entries.Entry.{Entry};
ghost use Rattle.rx_rules.specs.Fold.{tree_of};
ghost use Rattle.rx_finish.specs.declared.ledger.Outcome.{Outcome as Told};
ghost use Rattle.rx_coordinator.specs.declared.requests.Answer.{Answer as Said};
ghost use Rattle.rx_coordinator.specs.declared.waiters.Waiter.{Waiter};
ghost use Rattle.rx_coordinator.specs.Telling.{seat_told};
ghost use Rattle.rx_coordinator.specs.Parking.{Parks};
ghost use Rattle.rx_lines.specs.Replies.{answer_line};
ghost use Rattle.rx_lines.specs.Session.{Between, IsOpen, RequestIsAnswered, FreesAll, LineAnswered, request_in, freed_lines, greeting};
ghost use Rattle.rx_lines.specs.Inside.Telling.{Puts};
ghost use Rattle.rx_lines.specs.Inside.Noting.{asker as asks, note_of, entries_of};
ghost use Rattle.rx10_coordinator.specs.Inside.Logging.{IsLogged, IsTorn, OrElse};
ghost use Rattle.rx10_coordinator.specs.Inside.Desk.{DeskInvariant, IsLine};

use crate::log::Log;
use crate::received::Received;
use rx_base::{Failed, NoMemory, Sink};
use rx_coordinator::{Answer, Freed, Parking, Request};
use rx_lines::{Note, Pending, asker, put_answer, put_freed};
use std::alloc::Global;

/// A coordinator, its replies that are not written yet, and the log.
#[derive(Drop)]
pub(crate) struct Desk {
    alloc: Global,
    parking: Parking,
    pending: Pending,
    log: Log,
}

impl Desk {
    /// A desk of so many places. Nothing was asked, and nothing is told.
    pub(crate) fn open(alloc: Global, places: u8, log: Log) -> Result<Desk, NoMemory>
        requires { (1 ≤ places) × (places ≤ 16) }
        ensures open { IfOk result (λ d. (b : Between) × IsOpen b × DeskInvariant places b d.parking) }
        ensures text { IfOk result (λ d. d.pending.text.items ≡ []) }
        ensures whole { IfOk result (λ d. d.pending.is_failed ≡ false) }
        ensures log { IfOk result (λ d. d.log ≡ log) }
    {
        let parking = Parking::open(alloc, places)?;
        Ok(Desk {
            alloc,
            parking,
            pending: Pending::none(alloc),
            log,
        })
    }

    /// Tells the greeting.
    pub(crate) fn greet<K: Sink>(&mut self, out: &mut K, places: u8)
        ensures same { self.new.parking ≡ self.old.parking }
        ensures log { self.new.log ≡ self.old.log }
        ensures told { Puts K.written K.faults out.old self.old.pending out.new self.new.pending (greeting places) }
    {
        self.pending.put(out, b"coordinator 1 places ");
        self.pending.put_natural(out, u32::from(places));
        self.pending.put(out, b" most 16 line 4096 main t0\n");
    }

    /// Answers a line. Where a write to the log fails, its entry is not answered, and the desk is of no more use.
    pub(crate) fn answer<K: Sink, L: Sink>(
        &mut self,
        out: &mut K,
        log: &mut L,
        line: &Received,
    ) -> Result<(), Failed>
        requires { (p : ℕ) × (b : Between) × DeskInvariant p b self.old.parking }
        ensures { (p : ℕ) (b : Between) (bytes : List ℕ) (x : Option (List ℕ)) (h : ℕ)
            → DeskInvariant p b self.old.parking → IsLine line.now bytes
            → IsLogged x h (L.written log.old) (L.faults log.old) self.old.log b.entries
            → OrElse result
            ((c : Between) × (text : List ℕ) × LineAnswered p b bytes text c × DeskInvariant p c self.new.parking
            × IsLogged x h (L.written log.new) (L.faults log.new) self.new.log c.entries
            × Puts K.written K.faults out.old self.old.pending out.new self.new.pending text)
            ((IsTorn x h (L.written log.new) (L.faults log.new) b.entries
            × Puts K.written K.faults out.old self.old.pending out.new self.new.pending [])
            ⊎ ((c : Between) × (text : List ℕ) × LineAnswered p b bytes text c
            × IsTorn x h (L.written log.new) (L.faults log.new) c.entries
            × Puts K.written K.faults out.old self.old.pending out.new self.new.pending text)) }
    {
        match line.request() {
            Ok(Some(request)) => self.ask(out, log, request),
            Ok(None) => {
                self.pending.put(out, b"malformed\n");
                Ok(())
            }
            Err(NoMemory) => {
                self.pending.put(out, b"no memory\n");
                Ok(())
            }
        }
    }

    // Answers the request that a line is. Where memory runs out for what the log takes of it, nothing is asked.
    fn ask<K: Sink, L: Sink>(
        &mut self,
        out: &mut K,
        log: &mut L,
        request: Request,
    ) -> Result<(), Failed>
        requires { (p : ℕ) × (b : Between) × DeskInvariant p b self.old.parking }
        ensures { (p : ℕ) (b : Between) (bytes : List ℕ) (x : Option (List ℕ)) (h : ℕ) → DeskInvariant p b self.old.parking
            → request_in bytes ≡ Some request → IsLogged x h (L.written log.old) (L.faults log.old) self.old.log b.entries
            → OrElse result
            ((c : Between) × (text : List ℕ) × LineAnswered p b bytes text c × DeskInvariant p c self.new.parking
            × IsLogged x h (L.written log.new) (L.faults log.new) self.new.log c.entries
            × Puts K.written K.faults out.old self.old.pending out.new self.new.pending text)
            ((IsTorn x h (L.written log.new) (L.faults log.new) b.entries
            × Puts K.written K.faults out.old self.old.pending out.new self.new.pending [])
            ⊎ ((c : Between) × (text : List ℕ) × LineAnswered p b bytes text c
            × IsTorn x h (L.written log.new) (L.faults log.new) c.entries
            × Puts K.written K.faults out.old self.old.pending out.new self.new.pending text)) }
    {
        match self.noted(&request) {
            Ok(note) => self.reply(out, log, request, &note),
            Err(NoMemory) => {
                self.pending.put(out, b"no memory\n");
                Ok(())
            }
        }
    }

    // What the log takes of a request before it is asked. Without a log it is nothing.
    fn noted(&self, request: &Request) -> Result<Note, NoMemory>
        ensures { (p : ℕ) (es : List Entry) → Parks self.now.parking p es → self.now.log.is_kept ≡ true
            → IfOk result (λ n. n ≡ note_of (seat_told (tree_of p es) (asks request.now)) request.now) }
    {
        if !self.log.is_kept() {
            return Ok(Note::none(self.alloc));
        }
        let row = self.parking.seat(asker(request));
        Note::of(self.alloc, row, request)
    }

    // Answers a request, and then the releases that it makes possible. The lines of its entries are written before.
    fn reply<K: Sink, L: Sink>(
        &mut self,
        out: &mut K,
        log: &mut L,
        request: Request,
        note: &Note,
    ) -> Result<(), Failed>
        requires { (p : ℕ) × (b : Between) × DeskInvariant p b self.old.parking }
        ensures { (p : ℕ) (b : Between) (x : Option (List ℕ)) (h : ℕ) → DeskInvariant p b self.old.parking
            → (self.old.log.is_kept ≡ true → note.now ≡ note_of (seat_told (tree_of p b.entries) (asks request)) request)
            → IsLogged x h (L.written log.old) (L.faults log.old) self.old.log b.entries
            → OrElse result
            ((a : Said) × (m : Between) × (xs : List (Waiter × Told)) × (c : Between) × RequestIsAnswered p b request a m
            × FreesAll p m xs c
            × DeskInvariant p c self.new.parking × IsLogged x h (L.written log.new) (L.faults log.new) self.new.log c.entries
            × Puts K.written K.faults out.old self.old.pending out.new self.new.pending (answer_line a ++ freed_lines xs))
            ((IsTorn x h (L.written log.new) (L.faults log.new) b.entries
            × Puts K.written K.faults out.old self.old.pending out.new self.new.pending [])
            ⊎ ((a : Said) × (m : Between) × (xs : List (Waiter × Told)) × (c : Between) × RequestIsAnswered p b request a m
            × FreesAll p m xs c
            × IsTorn x h (L.written log.new) (L.faults log.new) c.entries
            × Puts K.written K.faults out.old self.old.pending out.new self.new.pending (answer_line a ++ freed_lines xs))) }
    {
        let n = self.parking.entries();
        let answer = self.parking.ask(request);
        self.tell(out, log, n, note, &answer)
    }

    // Writes the lines of the entries for which an answer stands, tells it, and answers the releases that are possible then.
    fn tell<K: Sink, L: Sink>(
        &mut self,
        out: &mut K,
        log: &mut L,
        n: u32,
        note: &Note,
        answer: &Answer,
    ) -> Result<(), Failed>
        requires { (p : ℕ) × (m : Between) × DeskInvariant p m self.old.parking }
        ensures { (p : ℕ) (es : List Entry) (m : Between) (x : Option (List ℕ)) (h : ℕ)
            → DeskInvariant p m self.old.parking → n ≡ length es
            → (self.old.log.is_kept ≡ true → es ++ entries_of note.now answer.now ≡ m.entries)
            → IsLogged x h (L.written log.old) (L.faults log.old) self.old.log es
            → OrElse result
            ((xs : List (Waiter × Told)) × (c : Between) × FreesAll p m xs c
            × DeskInvariant p c self.new.parking × IsLogged x h (L.written log.new) (L.faults log.new) self.new.log c.entries
            × Puts K.written K.faults out.old self.old.pending out.new self.new.pending (answer_line answer.now ++ freed_lines xs))
            ((IsTorn x h (L.written log.new) (L.faults log.new) es
            × Puts K.written K.faults out.old self.old.pending out.new self.new.pending [])
            ⊎ ((xs : List (Waiter × Told)) × (c : Between) × FreesAll p m xs c
            × IsTorn x h (L.written log.new) (L.faults log.new) c.entries
            × Puts K.written K.faults out.old self.old.pending out.new self.new.pending (answer_line answer.now ++ freed_lines xs))) }
    {
        match self.log.note(log, n, note, answer) {
            Ok(()) => {
                put_answer(&mut self.pending, out, answer);
                self.free(out, log)
            }
            Err(Failed) => Err(Failed),
        }
    }

    // Answers the releases that wait and are possible now, each after the line of its entry was written.
    fn free<K: Sink, L: Sink>(&mut self, out: &mut K, log: &mut L) -> Result<(), Failed>
        requires { (p : ℕ) × (b : Between) × DeskInvariant p b self.old.parking }
        ensures { (p : ℕ) (b : Between) (x : Option (List ℕ)) (h : ℕ) → DeskInvariant p b self.old.parking
            → IsLogged x h (L.written log.old) (L.faults log.old) self.old.log b.entries
            → (xs : List (Waiter × Told)) × (c : Between) × FreesAll p b xs c
            × OrElse result
            (DeskInvariant p c self.new.parking × IsLogged x h (L.written log.new) (L.faults log.new) self.new.log c.entries)
            (IsTorn x h (L.written log.new) (L.faults log.new) c.entries)
            × Puts K.written K.faults out.old self.old.pending out.new self.new.pending (freed_lines xs) }
    {
        'freed: for _ in 0..u64::MAX {
            let n = self.parking.entries();
            match self.parking.free() {
                Freed::One {
                    scope,
                    waiter,
                    outcome,
                } => {
                    match self.log.note_freed(log, n, scope, waiter, &outcome) {
                        Ok(()) => {}
                        Err(Failed) => return Err(Failed),
                    }
                    put_freed(&mut self.pending, out, waiter, &outcome);
                }
                Freed::NoOne => return Ok(()),
                Freed::Short => return Ok(()),
            }
        }
        Ok(())
    }

    /// Writes what is told, and says whether no write has failed so far.
    pub(crate) fn write<K: Sink>(&mut self, out: &mut K) -> bool
        ensures same { self.new.parking ≡ self.old.parking }
        ensures log { self.new.log ≡ self.old.log }
        ensures told { Puts K.written K.faults out.old self.old.pending out.new self.new.pending [] }
        ensures none { self.new.pending.text.items ≡ [] }
        ensures whole { self.new.pending.is_failed ≡ not result }
    {
        self.pending.write(out);
        !self.pending.has_failed()
    }
}
