// What a run is given.
ghost use Rattle.std.specs.Prelude.{◌≡◌, ◌<◌, ◌++◌, [], ◌∷◌, Some, length, slice_get, IfOk, OnOk, OnErr};
ghost use Rattle.rx_history.specs.KillOrder.{ComesLast, IsAscending};
ghost use Rattle.rx_history.specs.JoinOrder.{IsAtLeastLast, NeverFalls};

use rx_base::{Kill, NoMemory};
use std::alloc::Global;
use std::marker::Model;

/// Kills in ascending order of their moments, and of their places at one moment. No two are equal.
#[derive(Drop)]
pub struct KillList {
    kills: Vec<Kill>,
}

impl Model for KillList {
    ghost use Rattle.std.specs.Prelude.{List};
    ghost use Rattle.rx_base.specs.declared.ids.Kill.{Kill};
    ghost use Rattle.rx_history.specs.KillOrder.{IsAscending};

    ghost Value = { List Kill };

    ghost view = { λ a. a.kills.items };

    ghost invariant = { λ a. IsAscending a.kills.items };
}

impl KillList {
    /// The empty list.
    pub fn open(alloc: Global) -> Self
        ensures { result ≡ [] }
    {
        KillList {
            kills: Vec::new(alloc),
        }
    }

    /// Adds a kill that comes after the last one.
    pub fn push(&mut self, item: Kill) -> Result<(), NoMemory>
        requires { ComesLast self.old item }
        ensures ok { OnOk result (self.new ≡ self.old ++ item ∷ []) }
        ensures err { OnErr result (self.new ≡ self.old) }
    {
        self.kills.push(item)?;
        Ok(())
    }

    /// A copy.
    pub fn copy(&self, alloc: Global) -> Result<Self, NoMemory>
        ensures { IfOk result (λ copy. copy ≡ self.now) }
    {
        Ok(KillList {
            kills: self.kills.to_vec(alloc)?,
        })
    }

    /// How many there are.
    pub fn len(&self) -> usize
        ensures { result ≡ length self.now }
    {
        self.kills.len()
    }

    /// The kill at a position in the list, from 0.
    pub fn item(&self, i: usize) -> Kill
        requires { i < length self.now }
        ensures { slice_get self.now i ≡ Some result }
    {
        self.kills[i]
    }
}

/// A law: the kills of a list come in ascending order.
pub fn kills_ascend(list: &KillList)
    ensures { IsAscending list.now }
{
    let _ = &list.kills;
}

/// The moments at which places join, none below the one before it.
#[derive(Drop)]
pub struct JoinList {
    moments: Vec<u32>,
}

impl Model for JoinList {
    ghost use Rattle.std.specs.Prelude.{List, ℕ};
    ghost use Rattle.rx_history.specs.JoinOrder.{NeverFalls};

    ghost Value = { List ℕ };

    ghost view = { λ a. a.moments.items };

    ghost invariant = { λ a. NeverFalls a.moments.items };
}

impl JoinList {
    /// The empty list.
    pub fn open(alloc: Global) -> Self
        ensures { result ≡ [] }
    {
        JoinList {
            moments: Vec::new(alloc),
        }
    }

    /// Adds a moment that is at least the last one.
    pub fn push(&mut self, item: u32) -> Result<(), NoMemory>
        requires { IsAtLeastLast self.old item }
        ensures ok { OnOk result (self.new ≡ self.old ++ item ∷ []) }
        ensures err { OnErr result (self.new ≡ self.old) }
    {
        self.moments.push(item)?;
        Ok(())
    }

    /// A copy.
    pub fn copy(&self, alloc: Global) -> Result<Self, NoMemory>
        ensures { IfOk result (λ copy. copy ≡ self.now) }
    {
        Ok(JoinList {
            moments: self.moments.to_vec(alloc)?,
        })
    }

    /// How many there are.
    pub fn len(&self) -> usize
        ensures { result ≡ length self.now }
    {
        self.moments.len()
    }

    /// The moment at a position in the list, from 0.
    pub fn item(&self, i: usize) -> u32
        requires { i < length self.now }
        ensures { slice_get self.now i ≡ Some result }
    {
        self.moments[i]
    }
}

/// A law: no moment of a list is below the one before it.
pub fn joins_never_fall(list: &JoinList)
    ensures { NeverFalls list.now }
{
    let _ = &list.moments;
}

/// What a run is given: the number of places at the opening (1 to 16), the words of each place's heap (1 to 4,096), the kills, and
/// the moments at which places join: the k-th of them, from 0, makes the place `places` + k. It is proper where it keeps these
/// ranges, places and joins are 16 together at most, and its kills name places that are there or join, none of them 0 and none
/// twice, and none before it joins.
#[derive(Drop)]
pub struct Setup {
    pub places: u8,
    pub heap: u32,
    pub kills: KillList,
    pub joins: JoinList,
}

impl Setup {
    /// A copy.
    pub fn copy(&self, alloc: Global) -> Result<Setup, NoMemory>
        ensures { IfOk result (λ copy. copy ≡ self.now) }
    {
        Ok(Setup {
            places: self.places,
            heap: self.heap,
            kills: self.kills.copy(alloc)?,
            joins: self.joins.copy(alloc)?,
        })
    }
}
