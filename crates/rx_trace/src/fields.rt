// The fields of a line, each after a blank. What begins with `push` is written where there is room.
ghost use Rattle.std.specs.Prelude.{◌≡◌, ◌+◌, ◌≤◌, ◌++◌, OnOk, vec_len, vec_capacity};
ghost use Rattle.rx_text.specs.Numbers.{natural_text};
ghost use Rattle.rx_trace.specs.Fields.{natural_field, number_field, path_field, place_field, task_field, scope_field, block_field};
ghost use Rattle.rx_trace.specs.Fields.{kill_field, fault_field};

use itoa::Buffer;
use rx_base::{Fault, GlobalRef, Kill, NoMemory, Path, PlaceId, ScopeId, TaskId};
use rx_text::{push_natural, push_num, put_natural, put_num, put_path, put_text};

// The number of a line, with which it begins.
pub(crate) fn put_line_number(out: &mut Vec<u8>, n: usize) -> Result<(), NoMemory>
    ensures { OnOk result (out.new.items ≡ out.old.items ++ natural_text n) }
{
    match u32::try_from(n) {
        Ok(n) => put_natural(out, n),
        Err(_) => {
            let mut buffer = Buffer::new();
            put_text(out, buffer.format(n).as_bytes())
        }
    }
}

pub(crate) fn put_path_field(out: &mut Vec<u8>, path: &Path) -> Result<(), NoMemory>
    ensures { OnOk result (out.new.items ≡ out.old.items ++ path_field path.now) }
{
    out.push(b' ')?;
    put_path(out, path)
}

pub(crate) fn put_natural_field(out: &mut Vec<u8>, n: u32) -> Result<(), NoMemory>
    ensures { OnOk result (out.new.items ≡ out.old.items ++ natural_field n) }
{
    out.reserve(13)?;
    push_natural_field(out, n);
    Ok(())
}

pub(crate) fn put_place_field(out: &mut Vec<u8>, place: PlaceId) -> Result<(), NoMemory>
    ensures { OnOk result (out.new.items ≡ out.old.items ++ place_field place) }
{
    put_natural_field(out, u32::from(place.0))
}

pub(crate) fn push_natural_field(out: &mut Vec<u8>, n: u32)
    requires room { vec_len out.old + 13 ≤ vec_capacity out.old }
    ensures items { out.new.items ≡ out.old.items ++ natural_field n }
    ensures len { vec_len out.new ≤ vec_len out.old + 13 }
    ensures capacity { vec_capacity out.new ≡ vec_capacity out.old }
{
    out.push_reserved(b' ');
    push_natural(out, n);
}

pub(crate) fn push_number_field(out: &mut Vec<u8>, n: i64)
    requires room { vec_len out.old + 21 ≤ vec_capacity out.old }
    ensures items { out.new.items ≡ out.old.items ++ number_field n }
    ensures len { vec_len out.new ≤ vec_len out.old + 21 }
    ensures capacity { vec_capacity out.new ≡ vec_capacity out.old }
{
    out.push_reserved(b' ');
    push_num(out, n);
}

pub(crate) fn push_place_field(out: &mut Vec<u8>, place: PlaceId)
    requires room { vec_len out.old + 13 ≤ vec_capacity out.old }
    ensures items { out.new.items ≡ out.old.items ++ place_field place }
    ensures len { vec_len out.new ≤ vec_len out.old + 13 }
    ensures capacity { vec_capacity out.new ≡ vec_capacity out.old }
{
    push_natural_field(out, u32::from(place.0));
}

pub(crate) fn push_task_field(out: &mut Vec<u8>, task: TaskId)
    requires room { vec_len out.old + 14 ≤ vec_capacity out.old }
    ensures items { out.new.items ≡ out.old.items ++ task_field task }
    ensures len { vec_len out.new ≤ vec_len out.old + 14 }
    ensures capacity { vec_capacity out.new ≡ vec_capacity out.old }
{
    out.push_reserved(b' ');
    out.push_reserved(b't');
    push_natural(out, task.0);
}

pub(crate) fn push_scope_field(out: &mut Vec<u8>, scope: ScopeId)
    requires room { vec_len out.old + 14 ≤ vec_capacity out.old }
    ensures items { out.new.items ≡ out.old.items ++ scope_field scope }
    ensures len { vec_len out.new ≤ vec_len out.old + 14 }
    ensures capacity { vec_capacity out.new ≡ vec_capacity out.old }
{
    out.push_reserved(b' ');
    out.push_reserved(b's');
    push_natural(out, scope.0);
}

#[tactic(auto, using(std::proofs::Common::append_assoc))]
pub(crate) fn push_block_field(out: &mut Vec<u8>, block: GlobalRef)
    requires room { vec_len out.old + 26 ≤ vec_capacity out.old }
    ensures items { out.new.items ≡ out.old.items ++ block_field block }
    ensures len { vec_len out.new ≤ vec_len out.old + 26 }
    ensures capacity { vec_capacity out.new ≡ vec_capacity out.old }
{
    push_natural_field(out, block.start);
    push_natural_field(out, block.generation);
}

#[tactic(auto, using(std::proofs::Common::append_assoc))]
pub(crate) fn put_kill_field(out: &mut Vec<u8>, kill: Kill) -> Result<(), NoMemory>
    ensures { OnOk result (out.new.items ≡ out.old.items ++ kill_field kill) }
{
    put_place_field(out, kill.place)?;
    out.push(b'@')?;
    put_natural(out, kill.moment)
}

#[tactic(auto, using(std::proofs::Common::append_assoc))]
pub(crate) fn put_fault_field(out: &mut Vec<u8>, fault: Fault) -> Result<(), NoMemory>
    ensures { OnOk result (out.new.items ≡ out.old.items ++ fault_field fault) }
{
    match fault {
        Fault::Dead(place) => {
            put_text(out, b" dead:")?;
            put_natural(out, u32::from(place.0))
        }
        Fault::Thrown(value) => {
            put_text(out, b" code:")?;
            put_num(out, value)
        }
        Fault::Overflow => put_text(out, b" overflow"),
        Fault::NoPlace => put_text(out, b" noplace"),
        Fault::WrongPlace => put_text(out, b" wrongplace"),
        Fault::Stale => put_text(out, b" stale"),
        Fault::Index => put_text(out, b" index"),
        Fault::HeapFull => put_text(out, b" heapfull"),
    }
}
