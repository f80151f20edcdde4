// The log of a session.
ghost use Rattle.std.specs.Prelude.{◌≡◌, ◌++◌, ◌∷◌, [], None, ℕ, List, Option, length, true, false};
ghost use Rattle.rx_rules.specs.declared.entries.Entry.{Entry};
ghost use Rattle.rx_lines.specs.Inside.Telling.{TextIsTold};
ghost use Rattle.rx_lines.specs.Inside.Noting.{entries_of, freed_entry};
ghost use Rattle.rx10_coordinator.specs.Inside.Logging.{IsLogged, IsTorn, IsWritten, IsCut, OrElse};

use rx_base::{Failed, ScopeId, Sink};
use rx_coordinator::{Answer, Waiter};
use rx_finish::Outcome;
use rx_lines::{Note, Pending, put_entries, put_freed_entry};
use std::alloc::Global;

/// The log of a session, or that none is kept. The lines of a request's entries are written at once, before its reply is told.
#[derive(Drop)]
pub(crate) struct Log {
    is_kept: bool,
    pending: Pending,
}

impl Log {
    /// No log.
    pub(crate) fn none(alloc: Global) -> Log
        ensures silent { result.is_kept ≡ false }
        ensures text { result.pending.text.items ≡ [] }
        ensures whole { result.pending.is_failed ≡ false }
    {
        Log {
            is_kept: false,
            pending: Pending::none(alloc),
        }
    }

    /// A log that has no entry yet.
    pub(crate) fn kept(alloc: Global) -> Log
        ensures kept { result.is_kept ≡ true }
        ensures text { result.pending.text.items ≡ [] }
        ensures whole { result.pending.is_failed ≡ false }
    {
        Log {
            is_kept: true,
            pending: Pending::none(alloc),
        }
    }

    /// Whether there is a log.
    pub(crate) fn is_kept(&self) -> bool
        ensures { result ≡ self.now.is_kept }
    {
        self.is_kept
    }

    /// Writes the lines of the entries for which an answer stands. The first of them has this number. After a write that failed the log
    /// is of no more use.
    pub(crate) fn note<L: Sink>(
        &mut self,
        log: &mut L,
        n: u32,
        note: &Note,
        answer: &Answer,
    ) -> Result<(), Failed>
        ensures same { self.new.is_kept ≡ self.old.is_kept }
        ensures logged { (x : Option (List ℕ)) (h : ℕ) (es : List Entry) → n ≡ length es
            → IsLogged x h (L.written log.old) (L.faults log.old) self.old es
            → OrElse result (IsLogged x h (L.written log.new) (L.faults log.new) self.new (es ++ entries_of note.now answer.now))
            (IsTorn x h (L.written log.new) (L.faults log.new) es) }
    {
        if !self.is_kept {
            return Ok(());
        }
        put_entries(&mut self.pending, log, u64::from(n), note, answer);
        self.write(log)
    }

    /// The same for a release that has waited.
    pub(crate) fn note_freed<L: Sink>(
        &mut self,
        log: &mut L,
        n: u32,
        scope: ScopeId,
        waiter: Waiter,
        outcome: &Outcome,
    ) -> Result<(), Failed>
        ensures same { self.new.is_kept ≡ self.old.is_kept }
        ensures logged { (x : Option (List ℕ)) (h : ℕ) (es : List Entry) → n ≡ length es
            → IsLogged x h (L.written log.old) (L.faults log.old) self.old es
            → OrElse result
            (IsLogged x h (L.written log.new) (L.faults log.new) self.new (es ++ freed_entry scope waiter outcome.now ∷ []))
            (IsTorn x h (L.written log.new) (L.faults log.new) es) }
    {
        if !self.is_kept {
            return Ok(());
        }
        put_freed_entry(&mut self.pending, log, u64::from(n), scope, waiter, outcome);
        self.write(log)
    }

    // Writes what is told.
    fn write<L: Sink>(&mut self, log: &mut L) -> Result<(), Failed>
        ensures same { self.new.is_kept ≡ self.old.is_kept }
        ensures written { (w : Option (List ℕ)) (f : ℕ) (text : List ℕ)
            → TextIsTold w f (L.written log.old) (L.faults log.old) self.old.pending text
            → OrElse result (IsWritten w f (L.written log.new) (L.faults log.new) self.new text)
            (IsCut w f (L.written log.new) (L.faults log.new) text) }
    {
        self.pending.write(log);
        if self.pending.has_failed() {
            return Err(Failed);
        }
        Ok(())
    }
}

/// A sink for a session without a log.
#[derive(Drop)]
pub(crate) struct NoLog;

impl Sink for NoLog {
    ghost written = { λ s. None };

    ghost faults = { λ s. 0 };

    fn write(&mut self, bytes: &[u8]) -> Result<usize, Failed> {
        Ok(bytes.len())
    }
}
