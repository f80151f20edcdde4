// The journal of a place, and the journals of all places.
ghost use Rattle.std.specs.Prelude.{◌≡◌, ◌<◌, ◌≤◌, ◌-◌, [], ◌∷◌, ◌++◌, Some, length, slice_get, OnOk, OnErr};

use rx_base::NoMemory;
use rx_rules::PlaceEvent;
use std::alloc::Global;
use std::marker::Model;

/// The events of a place, in their order.
#[derive(Drop)]
pub struct Journal {
    events: Vec<PlaceEvent>,
    spare: u32,
}

impl Model for Journal {
    ghost use Rattle.std.specs.Prelude.{◌+◌, ◌≤◌, length, vec_capacity};
    ghost use Rattle.rx_history.specs.Events.{Events};

    ghost Value = { Events };

    ghost view = { λ a. record { events = a.events.items; spare = a.spare } };

    ghost invariant = { λ a. length a.events.items + a.spare ≤ vec_capacity a.events };
}

impl Journal {
    /// A journal without events, and with room for none.
    pub fn open(alloc: Global) -> Journal
        ensures { result ≡ record { events = []; spare = 0 } }
    {
        Journal {
            events: Vec::new(alloc),
            spare: 0,
        }
    }

    /// How many events there are.
    pub fn len(&self) -> usize
        ensures { result ≡ length self.now.events }
    {
        self.events.len()
    }

    /// The event at a place in the list.
    pub fn item(&self, i: usize) -> &PlaceEvent
        requires { i < length self.now.events }
        ensures { slice_get self.now.events i ≡ Some result.now }
    {
        &self.events[i]
    }

    /// Makes room for at least n more events.
    pub fn reserve(&mut self, n: u32) -> Result<(), NoMemory>
        ensures ok { OnOk result (n ≤ self.new.spare) }
        ensures more { self.old.spare ≤ self.new.spare }
        ensures events { self.new.events ≡ self.old.events }
        ensures err { OnErr result (self.new ≡ self.old) }
    {
        if self.spare < n {
            self.events.reserve(n as usize)?;
            self.spare = n;
        }
        Ok(())
    }

    /// For how many more events there is room.
    pub fn spare(&self) -> u32
        ensures { result ≡ self.now.spare }
    {
        self.spare
    }

    /// Appends an event, for which there is room. It takes no memory.
    pub fn add(&mut self, item: PlaceEvent)
        requires { 0 < self.old.spare }
        ensures { self.new ≡ record { events = self.old.events ++ item ∷ []; spare = self.old.spare - 1 } }
    {
        self.events.push_reserved(item);
        self.spare -= 1;
    }
}

/// The journals of all places, in the order of the places.
#[derive(Drop)]
pub struct Journals {
    journals: Vec<Journal>,
    // For so many more journals there is room.
    spare: u32,
}

impl Model for Journals {
    ghost use Rattle.std.specs.Prelude.{◌+◌, ◌≤◌, length, vec_capacity};
    ghost use Rattle.rx_history.specs.Events.{AllEvents};

    ghost Value = { AllEvents };

    ghost view = { λ a. record { journals = a.journals.items; spare = a.spare } };

    ghost invariant = { λ a. length a.journals.items + a.spare ≤ vec_capacity a.journals };
}

impl Journals {
    /// No journals, and room for none.
    pub fn open(alloc: Global) -> Journals
        ensures { result ≡ record { journals = []; spare = 0 } }
    {
        Journals {
            journals: Vec::new(alloc),
            spare: 0,
        }
    }

    /// How many journals there are.
    pub fn len(&self) -> usize
        ensures { result ≡ length self.now.journals }
    {
        self.journals.len()
    }

    /// The journal of a place.
    pub fn item(&self, i: usize) -> &Journal
        requires { i < length self.now.journals }
        ensures { slice_get self.now.journals i ≡ Some result.now }
    {
        &self.journals[i]
    }

    /// Makes room for at least n more journals.
    pub fn reserve(&mut self, n: u32) -> Result<(), NoMemory>
        ensures ok { OnOk result (n ≤ self.new.spare) }
        ensures more { self.old.spare ≤ self.new.spare }
        ensures journals { self.new.journals ≡ self.old.journals }
        ensures err { OnErr result (self.new ≡ self.old) }
    {
        if self.spare < n {
            self.journals.reserve(n as usize)?;
            self.spare = n;
        }
        Ok(())
    }

    /// For how many more journals there is room.
    pub fn spare(&self) -> u32
        ensures { result ≡ self.now.spare }
    {
        self.spare
    }

    /// Appends the journal of the next place, for which there is room. It takes no memory.
    pub fn add(&mut self, item: Journal)
        requires { 0 < self.old.spare }
        ensures { self.new ≡ record { journals = self.old.journals ++ item ∷ []; spare = self.old.spare - 1 } }
    {
        self.journals.push_reserved(item);
        self.spare -= 1;
    }

    /// Appends the journal of the next place. It uses one of the spare number where there is one.
    pub fn push(&mut self, item: Journal) -> Result<(), NoMemory>
        ensures ok { OnOk result (self.new ≡ record { journals = self.old.journals ++ item ∷ []; spare = self.old.spare - 1 }) }
        ensures err { OnErr result (self.new ≡ self.old) }
    {
        self.journals.push(item)?;
        self.spare = self.spare.saturating_sub(1);
        Ok(())
    }
}
