// What is kept of a scope.
ghost use Rattle.std.specs.Prelude.{◌≡◌, min, ◌+◌, ◌-◌, ◌<◌, ◌≤◌, ◌^◌, [], true, false, ◌||◌, ◌==◌, ℕ, length};
ghost use Rattle.std.specs.Prelude.{slice_index_or, slice_set, IfOk};
ghost use Rattle.rx_base.specs.Sets.{has_bit};
ghost use Rattle.rx_counts.specs.Stands.{more, less, masking, with_lost, count_in, MayJoin, MayLeave};
ghost use Rattle.rx_counts.specs.Inside.Opening.{IsZero, IsFresh};

use crate::cells::Cells;
use crate::places::{cells_of, slot_of};
use rx_base::{Faults, NoMemory, PlaceId, PlaceSet, ScopeId};
use rx_rules::{Kind, Where};
use std::alloc::Global;

/// What a scope counts.
#[derive(Drop)]
pub struct Sums {
    /// How many places it has columns for: all that there may come to be, or none once it has given its counts away.
    pub places: u8,
    /// A table with a column for each place: the live counts, and then for each place the transit counts from there.
    pub counts: Cells,
    /// The sum of the counts.
    pub total: u32,
    /// How many scopes with a dead home it has adopted.
    pub orphans: u32,
    /// The places at which tasks that count here were lost.
    pub lost: PlaceSet,
    /// How many faults the scopes that it has adopted held; the count stops at 4,294,967,295.
    pub masked: u32,
}

/// What is kept of a scope.
#[derive(Drop)]
pub struct Record {
    pub kind: Kind,
    pub home: PlaceId,
    pub parent: Option<ScopeId>,
    /// The nearest finish from the scope itself along parents.
    pub finish: ScopeId,
    pub sums: Sums,
    pub body: Faults,
    pub ends: Faults,
}

/// The sums of a scope that counts at no place. They take no memory.
pub fn nothing(alloc: Global) -> Sums
    ensures { IsZero 0 result }
{
    Sums {
        places: 0,
        counts: Cells::none(alloc),
        total: 0,
        orphans: 0,
        lost: PlaceSet(0),
        masked: 0,
    }
}

/// The sums of a new scope, which counts at so many places.
fn zeros(alloc: Global, places: u8) -> Result<Sums, NoMemory>
    ensures { IfOk result (IsZero places) }
{
    Ok(Sums {
        places,
        counts: Cells::open(alloc, cells_of(places))?,
        total: 0,
        orphans: 0,
        lost: PlaceSet(0),
        masked: 0,
    })
}

/// A sum that stops at the greatest number of 32 bits.
pub fn stopped(count: u32, more: usize) -> u32
    ensures { result ≡ min 4294967295 (count + more) }
{
    (count as usize).saturating_add(more).min(u32::MAX as usize) as u32
}

fn raise(counts: &mut Cells, cell: usize)
    requires { (cell < length counts.old) × (slice_index_or counts.old cell 0 + 1 < 2 ^ 32) }
    ensures { counts.new ≡ slice_set counts.old cell (slice_index_or counts.old cell 0 + 1) }
{
    counts.put(cell, counts.at(cell) + 1);
}

fn lower(counts: &mut Cells, cell: usize)
    requires { (cell < length counts.old) × (1 ≤ slice_index_or counts.old cell 0) }
    ensures { counts.new ≡ slice_set counts.old cell (slice_index_or counts.old cell 0 - 1) }
{
    counts.put(cell, counts.at(cell) - 1);
}

impl Sums {
    /// How many tasks it counts at a place or on a way; none where it does not count there.
    pub fn count(&self, place: Where) -> u32
        ensures { result ≡ count_in self.now place }
    {
        self.counts.at(slot_of(self.places, place))
    }

    /// One task more.
    pub fn join(&mut self, place: Where)
        requires { MayJoin place self.old }
        ensures { self.new ≡ more place self.old }
    {
        let cell = slot_of(self.places, place);
        raise(&mut self.counts, cell);
        self.total += 1;
    }

    /// A task that is born: for a dead place, or else where it is counted.
    pub fn bear(&mut self, is_lost: bool, place: Where, to: PlaceId)
        requires { (to.0 < 16) × MayJoin place self.old }
        ensures lost { is_lost ≡ true → (self.new ≡ with_lost self.new.lost self.old) × ((i : ℕ) → i < 16
            → has_bit self.new.lost.0 i ≡ (has_bit self.old.lost.0 i || (to.0 == i))) }
        ensures joins { is_lost ≡ false → self.new ≡ more place self.old }
    {
        if is_lost {
            self.lost = self.lost.with(to);
        } else {
            self.join(place);
        }
    }

    /// One task less.
    pub fn leave(&mut self, place: Where)
        requires { MayLeave place self.old }
        ensures { self.new ≡ less place self.old }
    {
        let cell = slot_of(self.places, place);
        lower(&mut self.counts, cell);
        self.total -= 1;
    }

    /// So many faults more that nobody is told.
    pub fn mask(&mut self, many: usize)
        ensures { self.new ≡ masking many self.old }
    {
        self.masked = stopped(self.masked, many);
    }
}

/// The record of a new scope, which counts nothing yet, at so many places.
pub fn fresh(
    alloc: Global,
    places: u8,
    kind: Kind,
    home: PlaceId,
    parent: Option<ScopeId>,
    finish: ScopeId,
) -> Result<Record, NoMemory>
    ensures { IfOk result (IsFresh places kind home parent finish) }
{
    Ok(Record {
        kind,
        home,
        parent,
        finish,
        sums: zeros(alloc, places)?,
        body: Faults::open(alloc),
        ends: Faults::open(alloc),
    })
}
