// A history: its setup and its entries.
ghost use Rattle.std.specs.Prelude.{◌≡◌, ◌<◌, ◌≤◌, ◌+◌, ◌-◌, [], ◌∷◌, ◌++◌, Some, length, slice_get, OnOk, OnErr};

use crate::{Entry, Setup};
use rx_base::NoMemory;
use std::alloc::Global;
use std::marker::Model;

/// The entries of a run, numbered from 0, with what the run was given.
#[derive(Drop)]
pub struct History {
    pub setup: Setup,
    entries: Vec<Entry>,
    // For so many more entries there is room.
    spare: u32,
}

impl Model for History {
    ghost use Rattle.std.specs.Prelude.{◌+◌, ◌≤◌, length, vec_capacity};
    ghost use Rattle.rx_history.specs.Logs.{Log};

    ghost Value = { Log };

    ghost view = { λ a. record { setup = a.setup; entries = a.entries.items; spare = a.spare } };

    ghost invariant = { λ a. length a.entries.items + a.spare ≤ vec_capacity a.entries };
}

impl History {
    /// A history without entries.
    pub fn open(alloc: Global, setup: Setup) -> Self
        ensures { result ≡ record { setup = setup; entries = []; spare = 0 } }
    {
        History {
            setup,
            entries: Vec::new(alloc),
            spare: 0,
        }
    }

    /// How many entries there are.
    pub fn len(&self) -> usize
        ensures { result ≡ length self.now.entries }
    {
        self.entries.len()
    }

    /// The entry of a number.
    pub fn item(&self, i: usize) -> &Entry
        requires { i < length self.now.entries }
        ensures { slice_get self.now.entries i ≡ Some result.now }
    {
        &self.entries[i]
    }

    /// Makes room for at least n entries more.
    pub fn reserve(&mut self, n: u32) -> Result<(), NoMemory>
        ensures ok { OnOk result (n ≤ self.new.spare) }
        ensures same { (self.new.entries ≡ self.old.entries) × (self.new.setup ≡ self.old.setup) × (self.old.spare ≤ self.new.spare) }
        ensures err { OnErr result (self.new ≡ self.old) }
    {
        if self.spare < n {
            self.entries.reserve(n as usize)?;
            self.spare = n;
        }
        Ok(())
    }

    /// For how many more entries there is room.
    pub fn spare(&self) -> u32
        ensures { result ≡ self.now.spare }
    {
        self.spare
    }

    /// Appends an entry, for which there is room. It takes no memory.
    pub fn add(&mut self, item: Entry)
        requires { 0 < self.old.spare }
        ensures { self.new ≡ record { setup = self.old.setup; entries = self.old.entries ++ item ∷ []; spare = self.old.spare - 1 } }
    {
        self.entries.push_reserved(item);
        self.spare -= 1;
    }
}
