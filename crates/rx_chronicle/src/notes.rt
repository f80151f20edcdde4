// What is kept of each scope.
ghost use Rattle.std.specs.Prelude.{◌≡◌, ◌<◌, ◌+◌, ◌++◌, [], ◌∷◌, map, length, slice_index_or, slice_set, vec_len, vec_capacity};
ghost use Rattle.std.specs.Prelude.{IfOk, IfErr, OnOk};

use rx_base::{NoMemory, ScopeId, TaskId};
use rx_finish::{Caller, LedgerFault};

/// What is kept of a scope, also once it is released.
#[derive(Clone, Copy)]
pub struct Note {
    /// Who opened it. Nobody opened the root.
    pub opener: TaskId,
    /// The innermost scope of its opener before, which is its parent.
    pub parent: ScopeId,
    /// A bound on the number of faults that its body and its tasks have ended with.
    pub(crate) faults: u32,
}

/// Takes room for the note of one scope.
pub(crate) fn make_room(notes: &mut Vec<Note>) -> Result<(), LedgerFault>
    ensures items { notes.new.items ≡ notes.old.items }
    ensures room { OnOk result (vec_len notes.new < vec_capacity notes.new) }
    ensures refused { IfErr result (λ fault. fault ≡ LedgerFault.NoMemory) }
{
    match notes.reserve(1) {
        Ok(()) => Ok(()),
        Err(_) => Err(LedgerFault::NoMemory),
    }
}

/// Notes the scope that the caller has opened. It takes no memory.
pub(crate) fn add_note(notes: &mut Vec<Note>, who: Caller)
    requires { vec_len notes.old < vec_capacity notes.old }
    ensures { notes.new.items ≡ notes.old.items ++ record { opener = who.task; parent = who.inner; faults = 0 } ∷ [] }
{
    notes.push_reserved(Note {
        opener: who.task,
        parent: who.inner,
        faults: 0,
    });
}

/// The bound on the faults of a scope.
pub(crate) fn faults_of(notes: &[Note], s: ScopeId) -> u32
    ensures { result ≡ slice_index_or (map (λ n. n.faults) notes.now) s.0 0 }
{
    match notes.get(s.0 as usize) {
        Some(note) => note.faults,
        None => 0,
    }
}

/// The bound on the faults of a scope, with so many more. That numbers of 32 bits do not hold it counts as out of memory.
pub(crate) fn raised(notes: &[Note], s: ScopeId, more: usize) -> Result<u32, NoMemory>
    ensures { IfOk result (λ n. n ≡ slice_index_or (map (λ n. n.faults) notes.now) s.0 0 + more) }
{
    match u32::try_from(more) {
        Ok(more) => match faults_of(notes, s).checked_add(more) {
            Some(sum) => Ok(sum),
            None => Err(NoMemory),
        },
        Err(_) => Err(NoMemory),
    }
}

/// Sets the bound on the faults of a scope.
pub(crate) fn set_faults(notes: &mut Vec<Note>, s: ScopeId, faults: u32)
    requires { s.0 < length notes.old.items }
    ensures parents { map (λ n. n.parent) notes.new.items ≡ map (λ n. n.parent) notes.old.items }
    ensures openers { map (λ n. n.opener) notes.new.items ≡ map (λ n. n.opener) notes.old.items }
    ensures faults { map (λ n. n.faults) notes.new.items ≡ slice_set (map (λ n. n.faults) notes.old.items) s.0 faults }
{
    notes[s.0 as usize].faults = faults;
}
