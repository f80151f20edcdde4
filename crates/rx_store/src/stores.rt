// The stores of all places.
ghost use Rattle.std.specs.Prelude.{◌≡◌, ◌<◌, ◌≤◌, ◌^◌, false, map, replicate, length, slice_get, slice_set, [], ◌∷◌, ◌++◌, Some};
ghost use Rattle.std.specs.Prelude.{Option, Result, IfOk, OnErr};
ghost use Rattle.rx_rules.specs.declared.events.PlaceEvent.TheVariants.{Close};
ghost use Rattle.rx_store.specs.Kept.{StoreView, ends_closed, last_stamp};
ghost use Rattle.rx_history.specs.Events.{events_of};
ghost use Rattle.rx_store.specs.Kepts.{StoresAre};
ghost use Rattle.rx_store.specs.Asked.{CallMade, MayAskStore};

use crate::asking::call_store;
use crate::{Mark, Store};
use rx_base::{Fault, NoMemory, PlaceId, Value};
use rx_history::{CellOp, Journals};
use std::alloc::Global;
use std::marker::Model;

/// The store of each place, in the order of the places, and room for the list of their journals.
#[derive(Drop)]
pub struct Stores {
    items: Vec<Store>,
    // No journal as yet.
    journals: Journals,
}

impl Model for Stores {
    ghost use Rattle.std.specs.Prelude.{◌≡◌, ◌≤◌, [], length};
    ghost use Rattle.rx_store.specs.Kepts.{Kepts};

    ghost Value = { Kepts };

    ghost view = { λ s. record { items = s.items.items } };

    ghost invariant = { λ s. (s.journals.journals ≡ []) × (length s.items.items ≤ s.journals.spare) };
}

impl Stores {
    /// An open store of so many words for each place.
    pub fn open(alloc: Global, places: u8, words: u32) -> Result<Stores, NoMemory>
        requires some { 0 < words }
        requires most { words ≤ 4096 }
        ensures { IfOk result (λ stores. StoresAre words 0 stores.items (replicate places [])) }
    {
        let mut journals = Journals::open(alloc);
        journals.reserve(u32::from(places))?;
        let items = open_stores(alloc, places, words)?;
        Ok(Stores { items, journals })
    }

    /// Makes a call of the store of a place, which is open.
    pub fn call(
        &mut self,
        here: PlaceId,
        m: Mark,
        op: CellOp,
    ) -> Result<Result<Option<Value>, Fault>, NoMemory>
        requires { (s : StoreView) × (slice_get self.old.items here.0 ≡ Some s) × (ends_closed s.events ≡ false) × MayAskStore s.place op
            × (length s.events < 2 ^ 31) }
        ensures answer { IfOk result (λ answer. (s : StoreView) → slice_get self.old.items here.0 ≡ Some s
            → (new : StoreView) × (self.new.items ≡ slice_set self.old.items here.0 new) × CallMade s new m op answer) }
        ensures refused { OnErr result (self.new ≡ self.old) }
    {
        let store = &mut self.items[here.0 as usize];
        call_store(store, m, op)
    }

    /// Closes the store of a place that died at this entry. It takes no memory.
    pub fn close(&mut self, place: PlaceId, at: u32)
        requires { (s : StoreView) × (slice_get self.old.items place.0 ≡ Some s) × (ends_closed s.events ≡ false)
            × (last_stamp s.events ≤ at) }
        ensures { (s : StoreView) → slice_get self.old.items place.0 ≡ Some s
            → self.new.items ≡ slice_set self.old.items place.0 (record s { events = s.events ++ Close at ∷ [] }) }
    {
        self.items[place.0 as usize].close(at);
    }

    /// The journals of the stores, in their order. It takes no memory.
    pub fn into_journals(self) -> Journals
        ensures { events_of result ≡ map (λ s. s.events) self.items }
    {
        let Stores { items, journals } = self;
        journals_of(items, journals)
    }
}

// An open store for each place, in the order of the places.
fn open_stores(alloc: Global, places: u8, words: u32) -> Result<Vec<Store>, NoMemory>
    requires some { 0 < words }
    requires most { words ≤ 4096 }
    ensures { IfOk result (λ stores. StoresAre words 0 stores.items (replicate places [])) }
{
    let mut stores = Vec::new(alloc);
    for place in 0..places {
        stores.push(Store::open(alloc, PlaceId(place), words)?)?;
    }
    Ok(stores)
}

// The journals of the stores, for which there is room.
fn journals_of(stores: Vec<Store>, none: Journals) -> Journals
    requires none { none.journals ≡ [] }
    requires room { length stores.items ≤ none.spare }
    ensures { events_of result ≡ map (λ s. s.events) stores.items }
{
    let mut journals = none;
    let mut left = stores;
    left.reverse();
    while let Some(store) = left.pop() {
        journals.add(store.into_journal());
    }
    journals
}
