// The lines of a watch.
ghost use Rattle.std.specs.Prelude.{◌≡◌, ◌<◌, [], ◌∷◌, ◌++◌, filter, OnOk, OnErr};
ghost use Rattle.std.specs.List.{flat_map};
ghost use Rattle.rx_base.specs.Sets.{has_bit, members};
ghost use Rattle.rx_monitor.specs.Text.{field, dead_part, line, watch_text};

use crate::Summary;
use rx_base::{NoMemory, PlaceId, PlaceSet};
use rx_text::{put_natural, put_text};

/// Appends a line for each summary, in their order. A refusal leaves `out` as it was. It takes time and memory in proportion to the
/// text.
pub fn put_watch(out: &mut Vec<u8>, items: &[Summary]) -> Result<(), NoMemory>
    ensures ok { OnOk result (out.new.items ≡ out.old.items ++ watch_text items.now) }
    ensures err { OnErr result (out.new.items ≡ out.old.items) }
{
    let mut text = Vec::new(*out.allocator());
    put_lines(&mut text, items)?;
    out.extend_from_slice(&text)?;
    Ok(())
}

fn put_lines(out: &mut Vec<u8>, items: &[Summary]) -> Result<(), NoMemory>
    ensures { OnOk result (out.new.items ≡ out.old.items ++ watch_text items.now) }
{
    for i in 0..items.len() {
        put_line(out, &items[i])?;
    }
    Ok(())
}

#[tactic(auto, using(std::proofs::Common::append_assoc))]
fn put_line(out: &mut Vec<u8>, seen: &Summary) -> Result<(), NoMemory>
    ensures { OnOk result (out.new.items ≡ out.old.items ++ line seen.now) }
{
    put_text(out, b"seen")?;
    put_field(out, seen.len)?;
    put_text(out, b" scopes")?;
    put_field(out, seen.scopes)?;
    put_text(out, b" live")?;
    put_field(out, seen.live)?;
    put_text(out, b" travel")?;
    put_field(out, seen.travel)?;
    put_dead(out, seen.dead)?;
    put_text(out, b"\n")
}

// A number after a blank.
#[tactic(auto, using(std::proofs::Common::append_assoc))]
fn put_field(out: &mut Vec<u8>, n: u32) -> Result<(), NoMemory>
    ensures { OnOk result (out.new.items ≡ out.old.items ++ field n) }
{
    put_text(out, b" ")?;
    put_natural(out, n)
}

// The dead places, where there are some.
fn put_dead(out: &mut Vec<u8>, dead: PlaceSet) -> Result<(), NoMemory>
    ensures { OnOk result (out.new.items ≡ out.old.items ++ dead_part dead) }
{
    if dead.0 == 0 {
        return Ok(());
    }
    put_text(out, b" dead")?;
    put_places(out, dead)
}

// The places of a set, in ascending order.
fn put_places(out: &mut Vec<u8>, set: PlaceSet) -> Result<(), NoMemory>
    ensures { OnOk result (out.new.items ≡ out.old.items ++ flat_map field (members set)) }
{
    for p in 0..16 {
        put_place_if_member(out, set, PlaceId(p))?;
    }
    Ok(())
}

// The place if it is in the set, and else nothing.
fn put_place_if_member(out: &mut Vec<u8>, set: PlaceSet, place: PlaceId) -> Result<(), NoMemory>
    requires { place.0 < 16 }
    ensures { OnOk result (out.new.items ≡ out.old.items ++ flat_map field (filter (has_bit set.0) (place.0 ∷ []))) }
{
    if set.contains(place) {
        put_field(out, u32::from(place.0))
    } else {
        Ok(())
    }
}
