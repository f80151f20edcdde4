// Faults that are raised and caught.
ghost use Rattle.std.specs.Prelude.{◌≡◌, [], ◌∷◌, IfOk};
ghost use Rattle.std.specs.List.{list_all};
ghost use Rattle.rx_rules.specs.Terms.{catches, is_dead};
ghost use Rattle.rx_rules.specs.Plays.{raised_by};

use rx_base::{Fault, Faults, NoMemory, PlaceId, PlaceSet};
use std::alloc::Global;

/// Whether a `catch` takes the faults.
pub(crate) fn is_caught(dead_only: bool, faults: &Faults) -> bool
    ensures { result ≡ catches dead_only faults.now }
{
    if dead_only { all_dead(faults) } else { true }
}

// Whether each fault tells a death.
fn all_dead(faults: &Faults) -> bool
    ensures { result ≡ list_all is_dead faults.now }
{
    for i in 0..faults.len() {
        if !dead(faults.item(i)) {
            return false;
        }
    }
    true
}

// Whether a fault tells a death.
fn dead(fault: Fault) -> bool
    ensures { result ≡ is_dead fault }
{
    match fault {
        Fault::Dead(_) => true,
        Fault::Thrown(_) => false,
        Fault::Overflow => false,
        Fault::NoPlace => false,
        Fault::WrongPlace => false,
        Fault::Stale => false,
        Fault::Index => false,
        Fault::HeapFull => false,
    }
}

/// The list of one fault.
pub(crate) fn one_fault(alloc: Global, fault: Fault) -> Result<Faults, NoMemory>
    ensures { IfOk result (λ faults. faults ≡ fault ∷ []) }
{
    let mut faults = Faults::open(alloc);
    faults.push(fault)?;
    Ok(faults)
}

/// What a release raises: one fault for each place that lost tasks, in ascending order, and then those thrown.
pub fn faults_raised(alloc: Global, lost: PlaceSet, thrown: &Faults) -> Result<Faults, NoMemory>
    ensures { IfOk result (λ faults. faults ≡ raised_by lost thrown.now) }
{
    let mut faults = Faults::open(alloc);
    // Most releases raise nothing.
    if lost == PlaceSet::empty() && thrown.len() == 0 {
        return Ok(faults);
    }
    for place in 0..16u8 {
        if lost.contains(PlaceId(place)) {
            faults.push(Fault::Dead(PlaceId(place)))?;
        }
    }
    faults.joined(alloc, thrown)
}
