// The store.
ghost use Rattle.std.specs.Prelude.{◌≡◌, ◌+◌, ◌-◌, ◌^◌, ◌<◌, ◌≤◌, false, [], ◌∷◌, ◌++◌, IfOk, OnOk, OnErr, length};
ghost use Rattle.rx_rules.specs.declared.events.PlaceEvent.TheVariants.{Close};
ghost use Rattle.rx_rules.specs.Store.{IsStoreRun, opening_state};
ghost use Rattle.rx_store.specs.Kept.{ends_closed, last_stamp};
ghost use Rattle.rx_store.specs.Answers.{MakeAnswers, GetAnswers, PutAnswers, ForgetAnswers};

use crate::calls::{tell, unlocated};
use crate::{Blocks, Mark, StoreFault};
use rx_base::{GlobalRef, NoMemory, PlaceId};
use rx_history::Journal;
use rx_rules::{Cell, PlaceEvent};
use std::alloc::Global;
use std::marker::Model;

/// The blocks of a place, and the journal of what was asked of them. It may be dropped: its blocks go back to its heap.
#[derive(Drop)]
pub struct Store {
    place: PlaceId,
    words: u32,
    // None once the store is closed.
    blocks: Option<Blocks>,
    journal: Journal,
    // The stamp of the journal's last event.
    last: u32,
}

impl Model for Store {
    ghost use Rattle.rx_store.specs.Kept.{StoreView};
    ghost use Rattle.rx_store.specs.Table.{IsSteady, room_of};

    ghost Value = { StoreView };

    ghost view = { λ s. record {
      place = s.place;
      words = s.words;
      events = s.journal.events;
      spare = room_of s.blocks s.journal.spare;
    } };

    ghost invariant = { λ s. IsSteady s.words s.blocks s.journal.events s.journal.spare s.last };
}

impl Store {
    /// An open store of a place with so many words, without blocks and events, and with room for its close.
    pub fn open(alloc: Global, place: PlaceId, words: u32) -> Result<Store, NoMemory>
        requires some { 0 < words }
        requires most { words ≤ 4096 }
        ensures { IfOk result (λ s. s ≡ record { place = place; words = words; events = []; spare = s.spare }) }
    {
        let mut journal = Journal::open(alloc);
        journal.reserve(1)?;
        Ok(Store {
            place,
            words,
            blocks: Some(Blocks::open(alloc, words)?),
            journal,
            last: 0,
        })
    }

    /// Makes room for at least n more cell calls.
    pub fn reserve(&mut self, n: u32) -> Result<(), NoMemory>
        ensures ok { OnOk result (n ≤ self.new.spare) }
        ensures more { self.old.spare ≤ self.new.spare }
        ensures same { self.new ≡ record self.old { spare = self.new.spare } }
        ensures err { OnErr result (self.new ≡ self.old) }
    {
        let Some(events) = n.checked_add(1) else {
            return Err(NoMemory);
        };
        self.journal.reserve(events)?;
        Ok(())
    }

    /// For how many more cell calls there is room.
    pub fn spare(&self) -> u32
        ensures { result ≡ self.now.spare }
    {
        match &self.blocks {
            Some(_) => self.journal.spare() - 1,
            None => self.journal.spare(),
        }
    }

    /// Makes a block of n words, all 0, at the least start where they are free. It refuses by `Closed` and `Full`, and takes no
    /// memory.
    pub fn make(&mut self, m: Mark, n: u32) -> Result<GlobalRef, StoreFault>
        requires some { 0 < n }
        requires room { 0 < self.old.spare }
        requires events { length self.old.events < 2 ^ 31 }
        ensures answer { MakeAnswers self.old self.new m n result }
        ensures run { IsStoreRun self.new.words opening_state self.new.events }
    {
        let Some(blocks) = &mut self.blocks else {
            return Err(StoreFault::Closed);
        };
        let cell = blocks.make(n);
        tell(&mut self.journal, &mut self.last, m, cell);
        match cell {
            Cell::Make {
                start,
                generation,
                ..
            } => Ok(GlobalRef {
                home: self.place,
                start,
                generation,
            }),
            Cell::MakeFull { .. } => Err(StoreFault::Full),
            _ => unreachable!(),
        }
    }

    /// The word at an index of a block. It refuses by `Closed`, `Stale` and `Index`, and takes no memory.
    pub fn get(&mut self, m: Mark, r: GlobalRef, i: i64) -> Result<i64, StoreFault>
        requires home { r.home ≡ self.old.place }
        requires room { 0 < self.old.spare }
        requires events { length self.old.events < 2 ^ 31 }
        ensures answer { GetAnswers self.old self.new m r i result }
        ensures run { IsStoreRun self.new.words opening_state self.new.events }
    {
        let Some(blocks) = &mut self.blocks else {
            return Err(StoreFault::Closed);
        };
        let cell = blocks.get(r, i);
        tell(&mut self.journal, &mut self.last, m, cell);
        match cell {
            Cell::Get { value, .. } => Ok(value),
            Cell::GetRefused { stale, .. } => Err(unlocated(stale)),
            _ => unreachable!(),
        }
    }

    /// Makes a number the word at an index of a block. It refuses by `Closed`, `Stale` and `Index`, and takes no memory.
    pub fn put(&mut self, m: Mark, r: GlobalRef, i: i64, v: i64) -> Result<(), StoreFault>
        requires home { r.home ≡ self.old.place }
        requires room { 0 < self.old.spare }
        requires events { length self.old.events < 2 ^ 31 }
        ensures answer { PutAnswers self.old self.new m r i v result }
        ensures run { IsStoreRun self.new.words opening_state self.new.events }
    {
        let Some(blocks) = &mut self.blocks else {
            return Err(StoreFault::Closed);
        };
        let cell = blocks.put(r, i, v);
        tell(&mut self.journal, &mut self.last, m, cell);
        match cell {
            Cell::Put { .. } => Ok(()),
            Cell::PutRefused { stale, .. } => Err(unlocated(stale)),
            _ => unreachable!(),
        }
    }

    /// Forgets a block. It refuses by `Closed` and `Stale`, and takes no memory.
    pub fn forget(&mut self, m: Mark, r: GlobalRef) -> Result<(), StoreFault>
        requires home { r.home ≡ self.old.place }
        requires room { 0 < self.old.spare }
        requires events { length self.old.events < 2 ^ 31 }
        ensures answer { ForgetAnswers self.old self.new m r result }
        ensures run { IsStoreRun self.new.words opening_state self.new.events }
    {
        let Some(blocks) = &mut self.blocks else {
            return Err(StoreFault::Closed);
        };
        let cell = blocks.forget(r);
        tell(&mut self.journal, &mut self.last, m, cell);
        match cell {
            Cell::Forget { .. } => Ok(()),
            Cell::ForgetStale { .. } => Err(StoreFault::Stale),
            _ => unreachable!(),
        }
    }

    /// Closes the store of a place that died at this entry, and gives every block back. It takes no memory.
    pub fn close(&mut self, at: u32)
        requires open { ends_closed self.old.events ≡ false }
        requires stamps { last_stamp self.old.events ≤ at }
        ensures event { self.new.events ≡ self.old.events ++ Close at ∷ [] }
        ensures same { self.new ≡ record self.old { events = self.new.events } }
        ensures run { IsStoreRun self.new.words opening_state self.new.events }
    {
        self.blocks = None;
        self.journal.add(PlaceEvent::Close { stamp: at });
        self.last = at;
    }

    /// The journal.
    pub fn journal(&self) -> &Journal
        ensures events { result.now.events ≡ self.now.events }
        ensures run { IsStoreRun self.now.words opening_state self.now.events }
    {
        &self.journal
    }

    /// The journal, with every block given back.
    pub fn into_journal(self) -> Journal
        ensures events { result.events ≡ self.events }
        ensures run { IsStoreRun self.words opening_state self.events }
    {
        self.journal
    }
}
