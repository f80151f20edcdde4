// The blocks of a place, and what the law of stores answers of them.
ghost use Rattle.std.specs.Prelude.{◌≡◌, ◌-◌, ◌^◌, ◌<◌, ◌≤◌, IfOk};
ghost use Rattle.rx_rules.specs.Store.{opening_state};
ghost use Rattle.rx_store.specs.Asks.{ask_of};
ghost use Rattle.rx_store.specs.Asks.Ask.{makes, gets, puts, forgets};
ghost use Rattle.rx_store.specs.Table.{TableStands, EventFits};

use crate::table::{Held, empty_table, give_all, keep, located, take_out};
use rx_base::{GlobalRef, NoMemory};
use rx_heap::{Full, Heap};
use rx_rules::Cell;
use std::alloc::Global;
use std::marker::Model;

/// The blocks of a place, without a journal. Each call takes no memory and gives the event that tells of it: the law of stores allows
/// that event in the state that the blocks stood for, and they then stand for the state after it. They may be dropped: they go back to
/// their heap.
pub struct Blocks {
    heap: Heap,
    // For each word of the heap the live block that begins there.
    slots: Vec<Option<Held>>,
    // How many blocks were made.
    made: u32,
}

impl Model for Blocks {
    ghost use Rattle.rx_store.specs.Table.{Table, IsTable};

    ghost Value = { Table };

    ghost view = { λ b. record { region = b.heap; slots = b.slots.items; made = b.made } };

    ghost invariant = { λ b. IsTable (record { region = b.heap; slots = b.slots.items; made = b.made }) };
}

impl Blocks {
    /// No blocks, in a heap of so many words.
    pub fn open(alloc: Global, words: u32) -> Result<Blocks, NoMemory>
        requires some { 0 < words }
        requires most { words ≤ 4096 }
        ensures { IfOk result (λ b. TableStands words b opening_state) }
    {
        let heap = Heap::open(alloc, words)?;
        let slots = empty_table(alloc, words as usize)?;
        Ok(Blocks {
            heap,
            slots,
            made: 0,
        })
    }

    /// Makes a block of n words, all 0, at the least start where they are free.
    pub fn make(&mut self, n: u32) -> Cell
        requires some { 0 < n }
        requires few { self.old.made < 2 ^ 32 - 1 }
        ensures asked { ask_of result ≡ makes n }
        ensures told { EventFits self.old self.new result }
    {
        match self.heap.take(n) {
            Ok(block) => {
                let start = block.start();
                let generation = self.made + 1;
                self.made = generation;
                keep(&mut self.slots, Held { generation, block });
                Cell::Make {
                    words: n,
                    start,
                    generation,
                }
            }
            Err(Full) => Cell::MakeFull { words: n },
        }
    }

    /// Reads the word at an index of a block.
    pub fn get(&self, r: GlobalRef, i: i64) -> Cell
        ensures asked { ask_of result ≡ gets r i }
        ensures told { EventFits self.now self.now result }
    {
        match located(&self.slots, r, i) {
            Ok((held, at)) => Cell::Get {
                target: r,
                index: i,
                value: self.heap.read(&held.block, at),
            },
            Err(stale) => Cell::GetRefused {
                target: r,
                index: i,
                stale,
            },
        }
    }

    /// Makes a number the word at an index of a block.
    pub fn put(&mut self, r: GlobalRef, i: i64, v: i64) -> Cell
        ensures asked { ask_of result ≡ puts r i v }
        ensures told { EventFits self.old self.new result }
    {
        match located(&self.slots, r, i) {
            Ok((held, word)) => {
                self.heap.write(&held.block, word, v);
                Cell::Put {
                    target: r,
                    index: i,
                    value: v,
                }
            }
            Err(stale) => Cell::PutRefused {
                target: r,
                index: i,
                value: v,
                stale,
            },
        }
    }

    /// Forgets a block.
    pub fn forget(&mut self, r: GlobalRef) -> Cell
        ensures asked { ask_of result ≡ forgets r }
        ensures told { EventFits self.old self.new result }
    {
        let Some(held) = take_out(&mut self.slots, r) else {
            return Cell::ForgetStale { target: r };
        };
        let Held {
            generation: _,
            block,
        } = held;
        self.heap.give(block);
        Cell::Forget { target: r }
    }
}

impl Drop for Blocks {
    fn drop(self) {
        let Blocks {
            mut heap,
            mut slots,
            made: _,
        } = self;
        give_all(&mut heap, &mut slots);
        slots.destroy_empty();
    }
}
