// What a death does to the records.
ghost use Rattle.std.specs.Prelude.{◌≡◌, ◌<◌, ◌≤◌, ◌^◌, ◌+◌, ◌||◌, ◌&&◌, ◌==◌, ℕ, Bool, ltb, cond, length, slice_index_or, IfSome};
ghost use Rattle.std.specs.Prelude.{Some, None, option_map, box_value};
ghost use Rattle.rx_base.specs.Sets.{has_bit};
ghost use Rattle.rx_rules.specs.Tree.{Tree};
ghost use Rattle.rx_rules.specs.declared.tasks.Scope.{Scope};
ghost use Rattle.rx_counts.specs.Stands.{record_at, Pairs, ChangedBy};
ghost use Rattle.rx_counts.specs.Inside.Dying.{hits_cell, hits, Strikes, StrikesRecord, CanHit, MayHit, Emptied, Gained, MayGain};
ghost use Rattle.rx_counts.specs.Inside.Totalling.{toll_of, toll_in, toll_below, IsSmall};
ghost use Rattle.rx_counts.specs.Inside.Dying.{CanGain, Gains, Passing, given_by, parent_there};

use crate::cells::Cells;
use crate::pages::Pages;
use crate::record::{Record, Sums, nothing, stopped};
use crate::table::keeper_of;
use rx_base::{Faults, PlaceId, PlaceSet, ScopeId};
use rx_rules::Where;
use std::alloc::Global;

/// Whether the death of a place hits the place or the pair of a cell in the table of so many places.
fn is_hit_cell(places: u8, d: PlaceId, cell: usize) -> bool
    requires { 0 < places }
    ensures { result ≡ hits_cell places d.0 cell }
{
    let n = places as usize;
    let place = d.0 as usize;
    cell / n == place + 1 || cell % n == place
}

/// Makes the cell 0 where the death hits it, and answers what it had.
fn clear_one(counts: &mut Cells, places: u8, cell: usize, d: PlaceId) -> u32
    requires { (cell < length counts.old) × (0 < places) }
    ensures had { result ≡ cond (hits_cell places d.0 cell) (slice_index_or counts.old cell 0) 0 }
    ensures len { length counts.new ≡ length counts.old }
    ensures cleared { (k : ℕ) → slice_index_or counts.new k 0
        ≡ cond (hits_cell places d.0 k && (k == cell)) 0 (slice_index_or counts.old k 0) }
{
    if !is_hit_cell(places, d, cell) {
        return 0;
    }
    let had = counts.at(cell);
    counts.put(cell, 0);
    had
}

/// Makes each cell 0 that the death hits, and answers what they had.
fn clear_hit(counts: &mut Cells, places: u8, d: PlaceId) -> u32
    requires { (hits places d.0 counts.old < 2 ^ 32) × (0 < length counts.old → 0 < places) }
    ensures sum { result ≡ hits places d.0 counts.old }
    ensures len { length counts.new ≡ length counts.old }
    ensures cleared { (k : ℕ) → k < length counts.old
        → slice_index_or counts.new k 0 ≡ cond (hits_cell places d.0 k) 0 (slice_index_or counts.old k 0) }
{
    let mut sum = 0;
    for cell in 0..counts.len() {
        sum += clear_one(counts, places, cell, d);
    }
    sum
}

fn lost_if(lost: PlaceSet, d: PlaceId, hurt: u32) -> PlaceSet
    requires { d.0 < 16 }
    ensures { (p : ℕ) → p < 16 → has_bit result.0 p ≡ (has_bit lost.0 p || (ltb 0 hurt && (d.0 == p))) }
{
    if 0 < hurt { lost.with(d) } else { lost }
}

/// How many tasks a death strikes.
#[derive(Clone, Copy)]
pub struct Toll {
    /// Those at the place, and those that travel from or to it.
    pub all: u32,
    /// Those at the place.
    pub there: u32,
}

impl Toll {
    fn and(self, more: Toll) -> Toll
        requires { (self.all + more.all < 2 ^ 32) × (self.there + more.there < 2 ^ 32) }
        ensures { result ≡ record { all = self.all + more.all; there = self.there + more.there } }
    {
        Toll {
            all: self.all + more.all,
            there: self.there + more.there,
        }
    }
}

impl Sums {
    /// The death of a place.
    pub fn strike(&mut self, d: PlaceId) -> Toll
        requires { (d.0 < 16) × CanHit d self.old }
        ensures strikes { Strikes d self.old self.new }
        ensures toll { result ≡ toll_of d self.old }
    {
        let total = self.total;
        let there = self.count(Where::At(d));
        let hurt = clear_hit(&mut self.counts, self.places, d);
        self.total = total - hurt;
        self.lost = lost_if(self.lost, d, hurt);
        Toll { all: hurt, there }
    }
}

fn strike_entry(entry: &mut Option<Box<Record>>, d: PlaceId) -> Toll
    requires { (d.0 < 16) × IfSome (option_map box_value entry.old) (MayHit d) }
    ensures strikes { Pairs (StrikesRecord d) (option_map box_value entry.old) (option_map box_value entry.new) }
    ensures toll { result ≡ toll_in d (option_map box_value entry.old) }
{
    match entry {
        Some(kept) => kept.sums.strike(d),
        None => Toll { all: 0, there: 0 },
    }
}

fn strike_at(scopes: &mut Pages, i: usize, d: PlaceId) -> Toll
    requires { (d.0 < 16) × IfSome (record_at scopes.old i) (MayHit d) }
    ensures strikes { ChangedBy (StrikesRecord d) i scopes.old scopes.new }
    ensures toll { result ≡ toll_in d (record_at scopes.old i) }
{
    match scopes.get_mut(i) {
        Some(entry) => strike_entry(entry, d),
        None => Toll { all: 0, there: 0 },
    }
}

/// The death of a place strikes each record. How many tasks it strikes is answered.
pub fn strike_all(scopes: &mut Pages, d: PlaceId) -> Toll
    requires hit { (d.0 < 16) × ((n : ℕ) → IfSome (record_at scopes.old n) (MayHit d)) }
    requires few { IsSmall (toll_below d scopes.old (length scopes.old)) }
    ensures len { length scopes.new ≡ length scopes.old }
    ensures struck { (n : ℕ) → Pairs (StrikesRecord d) (record_at scopes.old n) (record_at scopes.new n) }
    ensures toll { result ≡ toll_below d scopes.old (length scopes.old) }
{
    let mut toll = Toll { all: 0, there: 0 };
    for i in 0..scopes.len() {
        toll = toll.and(strike_at(scopes, i, d));
    }
    toll
}

impl Record {
    /// Gives the sums away, and drops the faults, which are masked from now on. The memory of the counts goes with them.
    fn give(&mut self, alloc: Global) -> Sums
        ensures given { result ≡ given_by self.old }
        ensures left { Emptied self.old self.new }
    {
        let mut given = std::mem::replace(&mut self.sums, nothing(alloc));
        given.mask(self.body.len());
        given.mask(self.ends.len());
        self.body = Faults::open(alloc);
        self.ends = Faults::open(alloc);
        given
    }
}

/// The sums of the record, which has none afterwards, and no faults.
fn take_entry(entry: &mut Option<Box<Record>>, alloc: Global) -> Sums
    ensures taken { IfSome (option_map box_value entry.old) (λ r. result ≡ given_by r) }
    ensures left { Pairs Emptied (option_map box_value entry.old) (option_map box_value entry.new) }
{
    match entry {
        Some(kept) => kept.give(alloc),
        None => nothing(alloc),
    }
}

fn take_at(scopes: &mut Pages, i: usize, alloc: Global) -> Sums
    requires { i < length scopes.old }
    ensures taken { IfSome (record_at scopes.old i) (λ r. result ≡ given_by r) }
    ensures left { ChangedBy Emptied i scopes.old scopes.new }
{
    match scopes.get_mut(i) {
        Some(entry) => take_entry(entry, alloc),
        None => nothing(alloc),
    }
}

/// Adds the counts of another scope.
fn add_counts(counts: &mut Cells, given: &Cells)
    requires { (length given.now ≡ length counts.old) × ((k : ℕ) → k < length counts.old
        → slice_index_or counts.old k 0 + slice_index_or given.now k 0 < 2 ^ 32) }
    ensures len { length counts.new ≡ length counts.old }
    ensures added { (k : ℕ) → k < length counts.old
        → slice_index_or counts.new k 0 ≡ slice_index_or counts.old k 0 + slice_index_or given.now k 0 }
{
    for cell in 0..counts.len() {
        counts.put(cell, counts.at(cell) + given.at(cell));
    }
}

/// The places of both sets.
fn either(a: PlaceSet, b: PlaceSet) -> PlaceSet
    ensures { (p : ℕ) → p < 16 → has_bit result.0 p ≡ (has_bit a.0 p || has_bit b.0 p) }
{
    PlaceSet(a.0 | b.0)
}

impl Sums {
    /// Takes the sums of another scope, and that scope as an orphan.
    fn gain(&mut self, given: &Sums)
        requires { CanGain given.now self.old }
        ensures { Gains self.old given.now self.new }
    {
        add_counts(&mut self.counts, &given.counts);
        self.total += given.total;
        self.orphans += given.orphans + 1;
        self.lost = either(self.lost, given.lost);
        self.masked = stopped(self.masked, given.masked as usize);
    }
}

fn pour_entry(entry: &mut Option<Box<Record>>, given: &Sums)
    requires { IfSome (option_map box_value entry.old) (MayGain given.now) }
    ensures { Pairs (Gained given.now) (option_map box_value entry.old) (option_map box_value entry.new) }
{
    if let Some(kept) = entry {
        kept.sums.gain(given);
    }
}

fn pour_at(scopes: &mut Pages, a: ScopeId, given: &Sums)
    requires { (a.0 < length scopes.old) × IfSome (record_at scopes.old a.0) (MayGain given.now) }
    ensures { ChangedBy (Gained given.now) a.0 scopes.old scopes.new }
{
    if let Some(entry) = scopes.get_mut(a.0 as usize) {
        pour_entry(entry, given);
    }
}

/// The parent of the scope of a number, where that stands and its home is the place.
fn parent_at(scopes: &Pages, i: usize, d: PlaceId) -> Option<ScopeId>
    ensures { result ≡ parent_there d (record_at scopes.now i) }
{
    match scopes.get(i) {
        Some(kept) => if kept.home == d { kept.parent } else { None },
        None => None,
    }
}

/// Where the home of the scope of this number died, its sums go to the first scope above it with a living home.
fn hand_over(scopes: &mut Pages, dead: &[Option<u32>], d: PlaceId, i: usize, alloc: Global)
    requires { (i < length scopes.old) × (size : ℕ) × (T : Tree) × (keeps : (Scope → Bool))
        × Passing size T keeps dead.now d i scopes.old }
    ensures len { length scopes.new ≡ length scopes.old }
    ensures passes { (size : ℕ) (T : Tree) (keeps : Scope → Bool) → Passing size T keeps dead.now d i scopes.old
        → Passing size T keeps dead.now d (i + 1) scopes.new }
{
    if let Some(parent) = parent_at(scopes, i, d) {
        if let Some(heir) = keeper_of(scopes, dead, parent) {
            let given = take_at(scopes, i, alloc);
            pour_at(scopes, heir, &given);
        }
    }
}

/// The same of each scope, from the oldest on.
pub fn hand_over_all(scopes: &mut Pages, dead: &[Option<u32>], d: PlaceId, alloc: Global)
    requires { (size : ℕ) × (T : Tree) × (keeps : (Scope → Bool)) × Passing size T keeps dead.now d 0 scopes.old }
    ensures len { length scopes.new ≡ length scopes.old }
    ensures passes { (size : ℕ) (T : Tree) (keeps : Scope → Bool) → Passing size T keeps dead.now d 0 scopes.old
        → Passing size T keeps dead.now d (length scopes.old) scopes.new }
{
    for i in 0..scopes.len() {
        hand_over(scopes, dead, d, i, alloc);
    }
}
