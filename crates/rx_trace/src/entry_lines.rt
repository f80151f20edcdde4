// The lines of entries.
ghost use Rattle.std.specs.Prelude.{◌≡◌, ◌+◌, ◌≤◌, ◌++◌, codes, length, OnOk, vec_len, vec_capacity};
ghost use Rattle.rx_trace.specs.EntryLines.{way, act_word, act_fields, entry_text, entry_line, entry_lines};
ghost use Rattle.rx_trace.specs.Fields.{scope_field};

use crate::fields::{
    push_natural_field, push_number_field, push_place_field, push_scope_field, push_task_field,
    put_line_number, put_path_field, put_place_field,
};
use crate::parts::{put_batch, put_release_parts, put_thrown};
use crate::{Act, Entry, History};
use rx_base::{NoMemory, Path, PlaceId, ScopeId};
use rx_text::{push_bytes, push_natural, put_text};

// The lines of all entries.
pub(crate) fn put_entries(out: &mut Vec<u8>, h: &History) -> Result<(), NoMemory>
    ensures { OnOk result (out.new.items ≡ out.old.items ++ entry_lines 0 h.now.entries) }
{
    for i in 0..h.len() {
        put_entry(out, i, h.item(i))?;
    }
    Ok(())
}

#[tactic(auto, using(std::proofs::Common::append_assoc))]
fn put_entry(out: &mut Vec<u8>, n: usize, entry: &Entry) -> Result<(), NoMemory>
    ensures { OnOk result (out.new.items ≡ out.old.items ++ entry_line n entry.now) }
{
    put_line_number(out, n)?;
    put_entry_text(out, entry)?;
    out.push(b'\n')?;
    Ok(())
}

// What stands after the number.
#[tactic(auto, using(std::proofs::Common::append_assoc))]
fn put_entry_text(out: &mut Vec<u8>, entry: &Entry) -> Result<(), NoMemory>
    ensures { OnOk result (out.new.items ≡ out.old.items ++ entry_text entry.now) }
{
    match entry {
        Entry::Step { task, act, batch } => {
            // Room for the word, the task and the numbers of the act, but not for its lists.
            out.reserve(96)?;
            push_bytes(out, word_of(act));
            push_task_field(out, *task);
            put_act_fields(out, act)?;
            put_batch(out, batch)
        }
        Entry::Root {
            lost,
            masked,
            thrown,
        } => {
            put_text(out, b" release host s0")?;
            put_release_parts(out, *lost, *masked, thrown)
        }
        Entry::Death { place } => {
            put_text(out, b" death")?;
            put_place_field(out, *place)
        }
        Entry::Join { place } => {
            put_text(out, b" join")?;
            put_place_field(out, *place)
        }
    }
}

// The word of an act, after a blank.
fn word_of(act: &Act) -> &'static [u8]
    ensures word { result.now ≡ act_word act.now }
    ensures short { length result.now ≤ 8 }
{
    match act {
        Act::Open { .. } => b" open",
        Act::At { .. } => b" at",
        Act::Spawn { .. } => b" spawn",
        Act::Arrive { .. } => b" arrive",
        Act::Wait { .. } => b" wait",
        Act::Release { .. } => b" release",
        Act::End { .. } => b" end",
        Act::Print { .. } => b" print",
        Act::Census { .. } => b" census",
    }
}

// What stands after the task.
#[tactic(auto, using(std::proofs::Common::append_assoc))]
fn put_act_fields(out: &mut Vec<u8>, act: &Act) -> Result<(), NoMemory>
    requires room { vec_len out.old + 71 ≤ vec_capacity out.old }
    ensures { OnOk result (out.new.items ≡ out.old.items ++ act_fields act.now) }
{
    match act {
        Act::Open {
            scope,
            parent,
            path,
        } => {
            push_scope_field(out, *scope);
            push_in(out, *parent);
            put_path_field(out, path)
        }
        Act::At {
            scope,
            parent,
            callee,
            from,
            to,
            path,
        } => {
            push_scope_field(out, *scope);
            push_in(out, *parent);
            push_task_field(out, *callee);
            push_way(out, *from, *to);
            put_path_field(out, path)
        }
        Act::Spawn {
            child,
            scope,
            from,
            to,
            path,
        } => {
            push_task_field(out, *child);
            push_in(out, *scope);
            push_way(out, *from, *to);
            put_path_field(out, path)
        }
        Act::Arrive { place } => put_place_field(out, *place),
        Act::Wait { scope, thrown } => {
            push_scope_field(out, *scope);
            put_thrown(out, thrown)
        }
        Act::Release {
            scope,
            lost,
            masked,
            thrown,
        } => {
            push_scope_field(out, *scope);
            put_release_parts(out, *lost, *masked, thrown)
        }
        Act::End { thrown } => put_thrown(out, thrown),
        Act::Print { value, path } => {
            push_number_field(out, *value);
            put_path_field(out, path)
        }
        Act::Census { places, path } => {
            push_natural_field(out, u32::from(*places));
            put_path_field(out, path)
        }
    }
}

// The scope in which another scope or a task stands.
#[tactic(auto, using(std::proofs::Common::append_assoc))]
fn push_in(out: &mut Vec<u8>, scope: ScopeId)
    requires room { vec_len out.old + 17 ≤ vec_capacity out.old }
    ensures items { out.new.items ≡ out.old.items ++ (codes " in" ++ scope_field scope) }
    ensures len { vec_len out.new ≤ vec_len out.old + 17 }
    ensures capacity { vec_capacity out.new ≡ vec_capacity out.old }
{
    push_bytes(out, b" in s");
    push_natural(out, scope.0);
}

// Where a new task begins its way and where that ends.
#[tactic(auto, using(std::proofs::Common::append_assoc))]
fn push_way(out: &mut Vec<u8>, from: PlaceId, to: PlaceId)
    requires room { vec_len out.old + 26 ≤ vec_capacity out.old }
    ensures items { out.new.items ≡ out.old.items ++ way from to }
    ensures len { vec_len out.new ≤ vec_len out.old + 26 }
    ensures capacity { vec_capacity out.new ≡ vec_capacity out.old }
{
    push_place_field(out, from);
    push_place_field(out, to);
}
