// The text of a trace.
ghost use Rattle.std.specs.Prelude.{◌≡◌, ◌++◌, OnOk, OnErr};
ghost use Rattle.std.specs.List.{flat_map};
ghost use Rattle.rx_history.specs.Events.{events_of};
ghost use Rattle.rx_trace.specs.Fields.{natural_field, kill_field};
ghost use Rattle.rx_history.specs.Setups.{given};
ghost use Rattle.rx_trace.specs.Text.{sizes_line, kills_line, joins_line, setup_lines, trace_text};

use crate::entry_lines::put_entries;
use crate::event_lines::put_journals;
use crate::fields::{put_kill_field, put_natural_field};
use crate::{History, JoinList, Journals, KillList, Setup};
use rx_base::NoMemory;
use rx_text::put_text;

/// Appends the text of a trace, of which docs/trace.md tells the lines. It asks nothing of the history and the journals. A refusal
/// leaves `out` as it was. It takes time and memory in proportion to the text.
pub fn write_trace(h: &History, j: &Journals, out: &mut Vec<u8>) -> Result<(), NoMemory>
    ensures ok { OnOk result (out.new.items ≡ out.old.items ++ trace_text (given h.now.setup) h.now.entries (events_of j.now)) }
    ensures err { OnErr result (out.new.items ≡ out.old.items) }
{
    let mut text = Vec::new(*out.allocator());
    put_trace(&mut text, h, j)?;
    // An empty text takes the new one over, without a copy.
    if out.is_empty() {
        *out = text;
    } else {
        out.extend_from_slice(&text)?;
    }
    Ok(())
}

#[tactic(auto, using(std::proofs::Common::append_assoc))]
fn put_trace(out: &mut Vec<u8>, h: &History, j: &Journals) -> Result<(), NoMemory>
    ensures { OnOk result (out.new.items ≡ out.old.items ++ trace_text (given h.now.setup) h.now.entries (events_of j.now)) }
{
    put_text(out, b"rx10 trace 2\n")?;
    put_setup(out, &h.setup)?;
    put_text(out, b"history\n")?;
    put_entries(out, h)?;
    put_journals(out, j)?;
    put_text(out, b"done\n")
}

// The line of the places and their heaps, that of the kills, and that of the joins.
#[tactic(auto, using(std::proofs::Common::append_assoc), unfolding(crate::specs::Text::setup_lines))]
fn put_setup(out: &mut Vec<u8>, setup: &Setup) -> Result<(), NoMemory>
    ensures { OnOk result (out.new.items ≡ out.old.items ++ setup_lines (given setup.now)) }
{
    put_sizes(out, setup.places, setup.heap)?;
    put_kills(out, &setup.kills)?;
    put_joins(out, &setup.joins)
}

// The line of the places and their heaps.
#[tactic(auto, using(std::proofs::Common::append_assoc))]
fn put_sizes(out: &mut Vec<u8>, places: u8, heap: u32) -> Result<(), NoMemory>
    ensures { OnOk result (out.new.items ≡ out.old.items ++ sizes_line places heap) }
{
    put_text(out, b"places")?;
    put_natural_field(out, u32::from(places))?;
    put_text(out, b" heap")?;
    put_natural_field(out, heap)?;
    out.push(b'\n')?;
    Ok(())
}

// The line of the kills.
#[tactic(auto, using(std::proofs::Common::append_assoc))]
fn put_kills(out: &mut Vec<u8>, kills: &KillList) -> Result<(), NoMemory>
    ensures { OnOk result (out.new.items ≡ out.old.items ++ kills_line kills.now) }
{
    put_text(out, b"kills")?;
    put_kill_fields(out, kills)?;
    out.push(b'\n')?;
    Ok(())
}

// The kills in their order.
fn put_kill_fields(out: &mut Vec<u8>, kills: &KillList) -> Result<(), NoMemory>
    ensures { OnOk result (out.new.items ≡ out.old.items ++ flat_map kill_field kills.now) }
{
    for i in 0..kills.len() {
        put_kill_field(out, kills.item(i))?;
    }
    Ok(())
}

// The line of the joins.
#[tactic(auto, using(std::proofs::Common::append_assoc))]
fn put_joins(out: &mut Vec<u8>, joins: &JoinList) -> Result<(), NoMemory>
    ensures { OnOk result (out.new.items ≡ out.old.items ++ joins_line joins.now) }
{
    put_text(out, b"joins")?;
    put_moments(out, joins)?;
    out.push(b'\n')?;
    Ok(())
}

// The moments of the joins in their order.
fn put_moments(out: &mut Vec<u8>, joins: &JoinList) -> Result<(), NoMemory>
    ensures { OnOk result (out.new.items ≡ out.old.items ++ flat_map natural_field joins.now) }
{
    for i in 0..joins.len() {
        put_natural_field(out, joins.item(i))?;
    }
    Ok(())
}
