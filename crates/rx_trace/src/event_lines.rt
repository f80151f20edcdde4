// The lines of journals and of their events.
ghost use Rattle.std.specs.Prelude.{◌≡◌, ◌+◌, ◌≤◌, ◌++◌, OnOk, vec_len, vec_capacity};
ghost use Rattle.rx_history.specs.Events.{events_of};
ghost use Rattle.rx_trace.specs.EventLines.{reading_text, writing_text, call_text, cause_text, answer_text, event_text, event_line};
ghost use Rattle.rx_trace.specs.EventLines.{event_lines, journal_lines, journals_lines};

use crate::fields::{
    push_block_field, push_natural_field, push_number_field, push_task_field, put_line_number,
    put_natural_field, put_path_field,
};
use crate::{Cell, Journal, Journals, PlaceEvent};
use rx_base::{GlobalRef, NoMemory};
use rx_text::{push_bytes, put_text};

// The lines of all journals.
pub(crate) fn put_journals(out: &mut Vec<u8>, j: &Journals) -> Result<(), NoMemory>
    ensures { OnOk result (out.new.items ≡ out.old.items ++ journals_lines 0 (events_of j.now)) }
{
    for p in 0..j.len() {
        put_journal(out, p, j.item(p))?;
    }
    Ok(())
}

// The line that begins a journal, and those of its events.
#[tactic(auto, using(std::proofs::Common::append_assoc))]
fn put_journal(out: &mut Vec<u8>, place: usize, journal: &Journal) -> Result<(), NoMemory>
    ensures { OnOk result (out.new.items ≡ out.old.items ++ journal_lines place journal.now.events) }
{
    put_text(out, b"journal ")?;
    put_line_number(out, place)?;
    out.push(b'\n')?;
    put_events(out, journal)
}

fn put_events(out: &mut Vec<u8>, journal: &Journal) -> Result<(), NoMemory>
    ensures { OnOk result (out.new.items ≡ out.old.items ++ event_lines 0 journal.now.events) }
{
    for i in 0..journal.len() {
        put_event(out, i, journal.item(i))?;
    }
    Ok(())
}

#[tactic(auto, using(std::proofs::Common::append_assoc))]
fn put_event(out: &mut Vec<u8>, n: usize, event: &PlaceEvent) -> Result<(), NoMemory>
    ensures { OnOk result (out.new.items ≡ out.old.items ++ event_line n event.now) }
{
    put_line_number(out, n)?;
    put_event_text(out, event)?;
    out.push(b'\n')?;
    Ok(())
}

// What stands after the number.
#[tactic(auto, using(std::proofs::Common::append_assoc))]
fn put_event_text(out: &mut Vec<u8>, event: &PlaceEvent) -> Result<(), NoMemory>
    ensures { OnOk result (out.new.items ≡ out.old.items ++ event_text event.now) }
{
    match event {
        PlaceEvent::Done {
            task,
            stamp,
            cell,
            path,
        } => {
            // Room for all but the path.
            out.reserve(128)?;
            push_task_field(out, *task);
            push_natural_field(out, *stamp);
            push_call(out, *cell);
            push_answer(out, *cell);
            put_path_field(out, path)
        }
        PlaceEvent::Close { stamp } => {
            put_natural_field(out, *stamp)?;
            put_text(out, b" close")
        }
    }
}

// A store call.
#[tactic(auto, using(std::proofs::Common::append_assoc))]
fn push_call(out: &mut Vec<u8>, cell: Cell)
    requires room { vec_len out.old + 72 ≤ vec_capacity out.old }
    ensures items { out.new.items ≡ out.old.items ++ call_text cell }
    ensures len { vec_len out.new ≤ vec_len out.old + 72 }
    ensures capacity { vec_capacity out.new ≡ vec_capacity out.old }
{
    match cell {
        Cell::Make { words, .. } | Cell::MakeFull { words } => {
            push_bytes(out, b" make");
            push_natural_field(out, words);
        }
        Cell::Get { target, index, .. } => push_reading(out, target, index),
        Cell::GetRefused { target, index, .. } => push_reading(out, target, index),
        Cell::Put {
            target,
            index,
            value,
        } => push_writing(out, target, index, value),
        Cell::PutRefused {
            target,
            index,
            value,
            ..
        } => push_writing(out, target, index, value),
        Cell::Forget { target } | Cell::ForgetStale { target } => {
            push_bytes(out, b" forget");
            push_block_field(out, target);
        }
    }
}

// The call that reads a word.
#[tactic(auto, using(std::proofs::Common::append_assoc))]
fn push_reading(out: &mut Vec<u8>, target: GlobalRef, index: i64)
    requires room { vec_len out.old + 51 ≤ vec_capacity out.old }
    ensures items { out.new.items ≡ out.old.items ++ reading_text target index }
    ensures len { vec_len out.new ≤ vec_len out.old + 51 }
    ensures capacity { vec_capacity out.new ≡ vec_capacity out.old }
{
    push_bytes(out, b" get");
    push_block_field(out, target);
    push_number_field(out, index);
}

// The call that writes a word.
#[tactic(auto, using(std::proofs::Common::append_assoc))]
fn push_writing(out: &mut Vec<u8>, target: GlobalRef, index: i64, value: i64)
    requires room { vec_len out.old + 72 ≤ vec_capacity out.old }
    ensures items { out.new.items ≡ out.old.items ++ writing_text target index value }
    ensures len { vec_len out.new ≤ vec_len out.old + 72 }
    ensures capacity { vec_capacity out.new ≡ vec_capacity out.old }
{
    push_bytes(out, b" put");
    push_block_field(out, target);
    push_number_field(out, index);
    push_number_field(out, value);
}

// The answer of a store call.
#[tactic(auto, using(std::proofs::Common::append_assoc))]
fn push_answer(out: &mut Vec<u8>, cell: Cell)
    requires room { vec_len out.old + 29 ≤ vec_capacity out.old }
    ensures items { out.new.items ≡ out.old.items ++ answer_text cell }
    ensures len { vec_len out.new ≤ vec_len out.old + 29 }
    ensures capacity { vec_capacity out.new ≡ vec_capacity out.old }
{
    match cell {
        Cell::Make {
            start,
            generation,
            ..
        } => {
            push_bytes(out, b" at");
            push_natural_field(out, start);
            push_natural_field(out, generation);
        }
        Cell::MakeFull { .. } => push_bytes(out, b" full"),
        Cell::Get { value, .. } => {
            push_bytes(out, b" is");
            push_number_field(out, value);
        }
        Cell::Put { .. } | Cell::Forget { .. } => push_bytes(out, b" ok"),
        Cell::GetRefused { stale, .. } | Cell::PutRefused { stale, .. } => push_cause(out, stale),
        Cell::ForgetStale { .. } => push_cause(out, true),
    }
}

// Why a call was refused.
fn push_cause(out: &mut Vec<u8>, stale: bool)
    requires room { vec_len out.old + 6 ≤ vec_capacity out.old }
    ensures items { out.new.items ≡ out.old.items ++ cause_text stale }
    ensures len { vec_len out.new ≤ vec_len out.old + 6 }
    ensures capacity { vec_capacity out.new ≡ vec_capacity out.old }
{
    if stale {
        push_bytes(out, b" stale");
    } else {
        push_bytes(out, b" index");
    }
}
