// What one activity knows: its variables and the number of places.
ghost use Rattle.std.specs.Prelude.{◌≡◌, ◌<◌, Some, IfOk, OnOk, OnErr, length, slice_set};
ghost use Rattle.rx_rules.specs.Terms.{no_vars, bound, value_of};
ghost use Rattle.rx_plan.specs.Inside.Kept.{padded, IsShort};

use rx_base::{NoMemory, Value};
use rx_syntax::NameId;
use std::alloc::Global;
use std::marker::Model;

/// The value of each name, by its number, and how many places the activity knows. A script has at most 32 names; one of a greater
/// number never has a value. Kept are the slots up to the greatest name that was given a value, so one that has none takes no memory.
#[derive(Drop)]
pub struct Variables {
    values: Vec<Option<Value>>,
    places: u8,
}

impl Model for Variables {
    ghost use Rattle.rx_rules.specs.Terms.{Vars};
    ghost use Rattle.rx_plan.specs.Inside.Kept.{padded, IsShort};

    ghost Value = { Vars };

    ghost view = { λ a. record { values = padded a.values.items; places = a.places } };

    ghost invariant = { λ a. IsShort a.values.items };
}

impl Variables {
    /// No name has a value, and so many places are known. No memory is taken.
    pub fn none(alloc: Global, places: u8) -> Self
        ensures { result ≡ no_vars places }
    {
        Variables {
            values: Vec::new(alloc),
            places,
        }
    }

    /// A copy. It takes memory only where a name has a value.
    pub fn copy(&self, alloc: Global) -> Result<Self, NoMemory>
        ensures { IfOk result (λ copy. copy ≡ self.now) }
    {
        let mut values = Vec::with_capacity(alloc, self.values.len())?;
        values.extend_from_slice(&self.values)?;
        Ok(Variables {
            values,
            places: self.places,
        })
    }

    /// The value of a name, where it has one.
    pub fn get(&self, name: NameId) -> Option<Value>
        ensures { result ≡ value_of self.now name.0 }
    {
        match self.values.get(name.0 as usize) {
            Some(v) => *v,
            None => None,
        }
    }

    /// Gives a name a value. A refusal changes nothing.
    pub fn set(&mut self, name: NameId, v: Value) -> Result<(), NoMemory>
        ensures ok { OnOk result (self.new ≡ bound name.0 v self.old) }
        ensures err { OnErr result (self.new ≡ self.old) }
    {
        write(&mut self.values, name.0 as usize, v)
    }

    /// How many places are known.
    pub fn places(&self) -> u8
        ensures { result ≡ self.now.places }
    {
        self.places
    }

    /// So many places are known from now on.
    pub fn tell(&mut self, places: u8)
        ensures { self.new ≡ record self.old { places = places } }
    {
        self.places = places;
    }
}

// Writes at a position of 32. A refusal changes nothing.
fn write(values: &mut Vec<Option<Value>>, i: usize, v: Value) -> Result<(), NoMemory>
    requires { IsShort values.old.items }
    ensures short { IsShort values.new.items }
    ensures ok { OnOk result (padded values.new.items ≡ slice_set (padded values.old.items) i (Some v)) }
    ensures err { OnErr result (values.new.items ≡ values.old.items) }
{
    if 32 <= i {
        return Ok(());
    }
    if values.len() <= i {
        values.resize(i + 1, None)?;
    }
    values[i] = Some(v);
    Ok(())
}
