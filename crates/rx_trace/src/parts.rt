// The parts of a line that are there only where their list is not empty, or their number not 0.
ghost use Rattle.std.specs.Prelude.{◌≡◌, ◌<◌, [], ◌∷◌, ◌++◌, filter, OnOk};
ghost use Rattle.std.specs.List.{flat_map};
ghost use Rattle.rx_base.specs.Sets.{has_bit, members};
ghost use Rattle.rx_trace.specs.Fields.{natural_field, path_field, fault_field};
ghost use Rattle.rx_trace.specs.Parts.{lost_part, masked_part, thrown_part, release_parts, batch_part};

use crate::fields::{put_fault_field, put_natural_field, put_path_field, put_place_field};
use rx_base::{Batch, Faults, NoMemory, PlaceId, PlaceSet};
use rx_text::put_text;

// What a release names: the places that lost tasks, how many faults are masked, and then the faults.
#[tactic(auto, using(std::proofs::Common::append_assoc))]
pub(crate) fn put_release_parts(
    out: &mut Vec<u8>,
    lost: PlaceSet,
    masked: u32,
    thrown: &Faults,
) -> Result<(), NoMemory>
    ensures { OnOk result (out.new.items ≡ out.old.items ++ release_parts lost masked thrown.now) }
{
    put_lost(out, lost)?;
    put_masked(out, masked)?;
    put_thrown(out, thrown)
}

// The places that lost tasks.
#[tactic(auto, using(std::proofs::Common::append_assoc))]
fn put_lost(out: &mut Vec<u8>, lost: PlaceSet) -> Result<(), NoMemory>
    ensures { OnOk result (out.new.items ≡ out.old.items ++ lost_part lost) }
{
    if lost.0 == 0 {
        return Ok(());
    }
    put_text(out, b" lost")?;
    put_places(out, lost)
}

// How many faults are masked.
#[tactic(auto, using(std::proofs::Common::append_assoc), unfolding(crate::specs::Parts::masked_part))]
fn put_masked(out: &mut Vec<u8>, masked: u32) -> Result<(), NoMemory>
    ensures { OnOk result (out.new.items ≡ out.old.items ++ masked_part masked) }
{
    if masked == 0 {
        return Ok(());
    }
    put_text(out, b" masked")?;
    put_natural_field(out, masked)
}

// The places of a set, in ascending order.
fn put_places(out: &mut Vec<u8>, set: PlaceSet) -> Result<(), NoMemory>
    ensures { OnOk result (out.new.items ≡ out.old.items ++ flat_map natural_field (members set)) }
{
    for p in 0..16 {
        put_place_if_member(out, set, PlaceId(p))?;
    }
    Ok(())
}

// The place if it is in the set, and else nothing.
fn put_place_if_member(out: &mut Vec<u8>, set: PlaceSet, place: PlaceId) -> Result<(), NoMemory>
    requires { place.0 < 16 }
    ensures { OnOk result (out.new.items ≡ out.old.items ++ flat_map natural_field (filter (has_bit set.0) (place.0 ∷ []))) }
{
    if set.contains(place) {
        put_place_field(out, place)
    } else {
        Ok(())
    }
}

// The faults with which a body or a task ended.
#[tactic(auto, using(std::proofs::Common::append_assoc))]
pub(crate) fn put_thrown(out: &mut Vec<u8>, thrown: &Faults) -> Result<(), NoMemory>
    ensures { OnOk result (out.new.items ≡ out.old.items ++ thrown_part thrown.now) }
{
    if thrown.len() == 0 {
        return Ok(());
    }
    put_text(out, b" thrown")?;
    put_faults(out, thrown)
}

// Faults in their order.
fn put_faults(out: &mut Vec<u8>, faults: &Faults) -> Result<(), NoMemory>
    ensures { OnOk result (out.new.items ≡ out.old.items ++ flat_map fault_field faults.now) }
{
    for i in 0..faults.len() {
        put_fault_field(out, faults.item(i))?;
    }
    Ok(())
}

// The paths of the statements that a task has begun.
#[tactic(auto, using(std::proofs::Common::append_assoc))]
pub(crate) fn put_batch(out: &mut Vec<u8>, batch: &Batch) -> Result<(), NoMemory>
    ensures { OnOk result (out.new.items ≡ out.old.items ++ batch_part batch.now) }
{
    if batch.len() == 0 {
        return Ok(());
    }
    put_text(out, b" |")?;
    put_paths(out, batch)
}

// Paths in their order.
fn put_paths(out: &mut Vec<u8>, batch: &Batch) -> Result<(), NoMemory>
    ensures { OnOk result (out.new.items ≡ out.old.items ++ flat_map path_field batch.now) }
{
    for i in 0..batch.len() {
        put_path_field(out, batch.item(i))?;
    }
    Ok(())
}
