// The set of numbers.
ghost use Rattle.std.specs.Prelude.{◌≡◌, ℕ, ◌*◌, ◌/◌, ◌^◌, ◌<◌, ◌≤◌, List, [], Some, IfOk, OnOk, OnErr, length};
ghost use Rattle.std.specs.Prelude.{slice_get};
ghost use Rattle.rx_rank.specs.Numbers.{inserted, removed, marked, Ascends};
ghost use Rattle.rx_rank.specs.Counts.{numbers, leaves, IsTree};

use crate::counts::{grown, mark, nth};
use rx_base::NoMemory;
use std::alloc::Global;
use std::marker::Model;

// The most that there can be room for.
const MOST_ROOM: u32 = 1 << 31;

/// A set of numbers, seen as the ascending list of its numbers, and its room: the numbers below the room may stand in it.
#[derive(Drop)]
pub struct Ranks {
    alloc: Global,
    // A tree of counts of this height, or nothing where the room is 0.
    counts: Vec<u32>,
    height: u32,
    // The least number of the set.
    least: Option<u32>,
}

impl Model for Ranks {
    ghost use Rattle.std.specs.Prelude.{◌/◌, length};
    ghost use Rattle.rx_rank.specs.Numbers.{Numbers};
    ghost use Rattle.rx_rank.specs.Counts.{numbers, leaves, IsSet};

    ghost Value = { Numbers };

    ghost view = { λ r. record { members = numbers 0 (leaves r.counts.items); room = length r.counts.items / 2 } };

    ghost invariant = { λ r. IsSet r.height r.counts.items r.least };
}

impl Ranks {
    /// The empty set, with room 0. It takes no memory.
    pub fn open(alloc: Global) -> Ranks
        ensures { result ≡ record { members = []; room = 0 } }
    {
        Ranks {
            alloc,
            counts: Vec::new(alloc),
            height: 0,
            least: None,
        }
    }

    /// Makes room for the numbers below n. Where the room grows it at least doubles, in a time linear in the new room. A
    /// refusal changes nothing. It always comes where n is above 2 ^ 31.
    pub fn room(&mut self, n: u32) -> Result<(), NoMemory>
        ensures room { OnOk result (n ≤ self.new.room) }
        ensures members { self.new.members ≡ self.old.members }
        ensures stays { n ≤ self.old.room → self.new ≡ self.old }
        ensures doubles { OnOk result (self.old.room < n → 2 * self.old.room ≤ self.new.room) }
        ensures most { OnOk result (self.old.room < n → self.new.room ≤ 2 * n) }
        ensures err { OnErr result (self.new ≡ self.old) }
    {
        if n as usize <= self.counts.len() / 2 {
            return Ok(());
        }
        self.grow(n)
    }

    // Makes room for the numbers below n, for which there is none. A refusal changes nothing.
    fn grow(&mut self, n: u32) -> Result<(), NoMemory>
        requires { self.old.room < n }
        ensures room { OnOk result (n ≤ self.new.room) }
        ensures members { self.new.members ≡ self.old.members }
        ensures doubles { OnOk result (2 * self.old.room ≤ self.new.room) }
        ensures most { OnOk result (self.new.room ≤ 2 * n) }
        ensures err { OnErr result (self.new ≡ self.old) }
    {
        if n > MOST_ROOM {
            return Err(NoMemory);
        }
        let height = height_for(n);
        self.counts = grown(self.alloc, &self.counts, height)?;
        self.height = height;
        Ok(())
    }

    /// Puts a number below the room into the set. It changes nothing where the number is there already.
    pub fn insert(&mut self, x: u32)
        requires { x < self.old.room }
        ensures members { self.new.members ≡ inserted x self.old.members }
        ensures room { self.new.room ≡ self.old.room }
    {
        mark(&mut self.counts, x, true);
        self.least = Some(lesser(self.least, x));
    }

    /// Puts a number below the room into the set, or takes it out.
    pub fn set(&mut self, x: u32, stands: bool)
        requires { x < self.old.room }
        ensures members { self.new.members ≡ marked stands x self.old.members }
        ensures room { self.new.room ≡ self.old.room }
    {
        if stands {
            self.insert(x);
        } else {
            self.remove(x);
        }
    }

    /// Takes a number out of the set. It changes nothing where the number is not there.
    pub fn remove(&mut self, x: u32)
        ensures members { self.new.members ≡ removed x self.old.members }
        ensures room { self.new.room ≡ self.old.room }
    {
        if (x as usize) < self.counts.len() / 2 {
            mark(&mut self.counts, x, false);
            if self.least == Some(x) {
                self.least = first(&self.counts, self.height);
            }
        }
    }

    /// How many numbers are in the set, each of which stands in the list once.
    pub fn len(&self) -> u32
        ensures len { result ≡ length self.now.members }
        ensures once { Ascends 0 self.now.members }
        ensures most { result ≤ self.now.room }
    {
        match self.counts.get(1) {
            Some(count) => *count,
            None => 0,
        }
    }

    /// The k-th number in ascending order, from 0. The least is at hand.
    pub fn nth(&self, k: u32) -> u32
        requires { k < length self.now.members }
        ensures at { slice_get self.now.members k ≡ Some result }
        ensures below { result < self.now.room }
    {
        match self.least {
            Some(least) if k == 0 => least,
            _ => nth(&self.counts, self.height, k),
        }
    }
}

// The least number of a set once a number is put into it, by the least before.
fn lesser(least: Option<u32>, x: u32) -> u32
    ensures { (ns : List ℕ) → least ≡ slice_get ns 0 → Some result ≡ slice_get (inserted x ns) 0 }
{
    match least {
        Some(before) if before < x => before,
        _ => x,
    }
}

// The least number of a tree of this height, if it has any.
fn first(counts: &[u32], height: u32) -> Option<u32>
    requires height { height < 32 }
    requires tree { IsTree (2 ^ height) counts.now }
    ensures { result ≡ slice_get (numbers 0 (leaves counts.now)) 0 }
{
    if counts[1] == 0 {
        return None;
    }
    Some(nth(counts, height, 0))
}

// The least height of a tree that has room for the numbers below n.
fn height_for(n: u32) -> u32
    requires some { 0 < n }
    requires few { n ≤ 2 ^ 31 }
    ensures height { result < 32 }
    ensures room { n ≤ 2 ^ result }
    ensures most { 2 ^ result < 2 * n }
{
    let mut height = 0;
    'heights: while 1 << height < n {
        height += 1;
    }
    height
}
