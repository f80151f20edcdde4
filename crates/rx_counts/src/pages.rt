// The slots of all numbers, in pages. A page whose numbers are over gives its memory back.
ghost use Rattle.std.specs.Prelude.{◌≡◌, ◌≢◌, ℕ, ◌+◌, ◌<◌, ◌≤◌, ◌++◌, ◌∷◌, ◌==◌, [], length, cond, false, slice_index_or, slice_set};
ghost use Rattle.std.specs.Prelude.{None, Some, is_some, IsSome, MatchOption, OnOk, OnErr};
ghost use Rattle.std.specs.Borrow.{sem};
ghost use Rattle.rx_counts.specs.Stands.{record_at};
ghost use Rattle.rx_counts.specs.Inside.Paging.{lists};
ghost use Rattle.rx_counts.specs.Inside.Lending.{LendsSlot, LendsSlotIf};

use crate::record::Record;
use std::alloc::{AllocError, Global};
use std::marker::Model;

/// How many numbers a page is for.
const PAGE: usize = 1024;

/// The slots of a page. Where it is shorter than a page, the slots past its end are empty.
type Page = Vec<Option<Box<Record>>>;

/// The slots of all numbers below a count, each with a record or empty.
#[derive(Drop)]
pub struct Pages {
    pages: Vec<Page>,
    count: usize,
}

impl Model for Pages {
    ghost use Rattle.std.specs.Prelude.{List, Option};
    ghost use Rattle.std.specs.Global.{Box};
    ghost use Rattle.rx_counts.specs.declared.record.Record.{Record};

    ghost Value = { List (Option (Box Record)) };

    ghost use Rattle.rx_counts.specs.Inside.Slots.{slots, AreFilled};

    ghost view = { slots };

    ghost invariant = { AreFilled };
}

/// The record in a slot of a page.
fn read(page: &[Option<Box<Record>>], slot: usize) -> Option<&Record>
    ensures { MatchOption result (record_at page.now slot ≡ None) (λ r. record_at page.now slot ≡ Some r.now) }
{
    match page.get(slot) {
        Some(Some(kept)) => Some(&**kept),
        _ => None,
    }
}

/// Takes the empty slots off the end.
fn shorten(page: &mut Page)
    ensures { (k : ℕ) → slice_index_or page.new.items k None ≡ slice_index_or page.old.items k None }
{
    while let Some(None) = page.last() {
        page.pop();
    }
}

/// The same, and gives the memory back where no slot is left.
fn trim(page: &mut Page)
    ensures { (k : ℕ) → slice_index_or page.new.items k None ≡ slice_index_or page.old.items k None }
{
    shorten(page);
    if page.is_empty() {
        page.shrink_to_fit();
    }
}

/// Empties a slot.
fn empty(page: &mut Page, slot: usize)
    ensures here { slice_index_or page.new.items slot None ≡ None }
    ensures others { (k : ℕ) → k ≢ slot → slice_index_or page.new.items k None ≡ slice_index_or page.old.items k None }
    ensures len { length page.new.items ≡ length page.old.items }
{
    if let Some(entry) = page.get_mut(slot) {
        *entry = None;
    }
}

/// Empties a slot, and trims the page if all its numbers were given.
fn clear_slot(page: &mut Page, slot: usize, is_full: bool)
    ensures here { slice_index_or page.new.items slot None ≡ None }
    ensures others { (k : ℕ) → k ≢ slot → slice_index_or page.new.items k None ≡ slice_index_or page.old.items k None }
    ensures len { is_full ≡ false → length page.new.items ≡ length page.old.items }
{
    empty(page, slot);
    if is_full {
        trim(page);
    }
}

/// Begins a page where it is the next.
fn begin(pages: &mut Vec<Page>, page: usize, alloc: Global) -> Result<(), AllocError>
    requires { page ≤ length pages.old.items }
    ensures begun { OnOk result (page < length pages.new.items) }
    ensures same { lists pages.new.items
        ≡ cond (length pages.new.items == length pages.old.items) (lists pages.old.items) (lists pages.old.items ++ [] ∷ []) }
    ensures few { length pages.old.items ≤ page + 1 → length pages.new.items ≤ page + 1 }
{
    if page == pages.len() {
        pages.push(Vec::new(alloc))?;
    }
    Ok(())
}

impl Pages {
    /// No slots. It takes no memory.
    pub fn new(alloc: Global) -> Self
        ensures { result ≡ [] }
    {
        Pages {
            pages: Vec::new(alloc),
            count: 0,
        }
    }

    /// How many slots there are.
    pub fn len(&self) -> usize
        ensures { result ≡ length self.now }
    {
        self.count
    }

    /// The record of a number.
    pub fn get(&self, n: usize) -> Option<&Record>
        ensures { MatchOption result (record_at self.now n ≡ None) (λ r. record_at self.now n ≡ Some r.now) }
    {
        match self.pages.get(n / PAGE) {
            Some(page) => read(page, n % PAGE),
            None => None,
        }
    }

    fn has(&self, n: usize) -> bool
        ensures { result ≡ is_some (record_at self.now n) }
    {
        self.get(n).is_some()
    }

    fn slot_mut(&mut self, n: usize) -> &mut Option<Box<Record>>
        requires { IsSome (record_at self.old n) }
        ensures* writes_back { sem 𝓛 (LendsSlot self.entry n result) }
        ensures value { result.now ≡ slice_index_or self.old n None }
    {
        &mut self.pages[n / PAGE][n % PAGE]
    }

    /// The slot of a number, where it has a record.
    pub fn get_mut(&mut self, n: usize) -> Option<&mut Option<Box<Record>>>
        ensures* writes_back { sem 𝓛 (LendsSlotIf self.entry n result) }
        ensures value { MatchOption result (record_at self.old n ≡ None) (λ e. e.now ≡ slice_index_or self.old n None) }
    {
        if self.has(n) {
            Some(self.slot_mut(n))
        } else {
            None
        }
    }

    /// Adds a slot with a record.
    pub fn push(&mut self, kept: Box<Record>, alloc: Global) -> Result<(), AllocError>
        ensures pushed { OnOk result (self.new ≡ self.old ++ Some kept ∷ []) }
        ensures refused { OnErr result (self.new ≡ self.old) }
    {
        let page = self.count / PAGE;
        let Some(count) = self.count.checked_add(1) else {
            return Err(AllocError);
        };
        begin(&mut self.pages, page, alloc)?;
        match self.pages[page].push(Some(kept)) {
            Ok(_) => {}
            Err(_) => return Err(AllocError),
        }
        self.count = count;
        Ok(())
    }

    /// Empties the slot of a number.
    pub fn clear(&mut self, n: usize)
        ensures { self.new ≡ slice_set self.old n None }
    {
        let page = n / PAGE;
        let is_full = page < self.count / PAGE;
        let Some(slots) = self.pages.get_mut(page) else {
            return;
        };
        clear_slot(slots, n % PAGE, is_full);
    }
}
