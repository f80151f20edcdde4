// The table of live blocks, by the word at which each begins.
ghost use Rattle.std.specs.Prelude.{◌≡◌, ℕ, ◌+◌, ◌<◌, ◌≤◌, ◌&&◌, pos, false, Some, None, [], length, slice_set, replicate, vec_len};
ghost use Rattle.std.specs.Prelude.{int_le, int_lt, IfOk, IfErr, IfSome, IfNone, MatchOption};
ghost use Rattle.rx_heap.specs.Region.{IsLiveExtent, IsLaid};
ghost use Rattle.rx_store.specs.Table.{slot_at, AllLive, IsLocated, IsUnlocated};

use rx_base::{GlobalRef, NoMemory};
use rx_heap::{Block, Heap};
use std::alloc::Global;

// A live block, and its generation.
pub(crate) struct Held {
    pub(crate) generation: u32,
    pub(crate) block: Block,
}

// The live block of a reference.
fn find(slots: &[Option<Held>], r: GlobalRef) -> Option<&Held>
    ensures { MatchOption result
        ((h : Held) → slot_at slots.now r.start ≡ Some h → h.generation ≡ r.generation → ⊥)
        (λ h. (slot_at slots.now r.start ≡ Some h.now) × (h.now.generation ≡ r.generation)) }
{
    if r.start as usize >= slots.len() {
        return None;
    }
    match &slots[r.start as usize] {
        Some(held) => {
            if held.generation == r.generation {
                Some(held)
            } else {
                None
            }
        }
        None => None,
    }
}

// An index as a number below the length, where it is one.
fn index_in(i: i64, len: u32) -> Option<u32>
    ensures { MatchOption result
        ((int_le (pos 0) i && int_lt i (pos len)) ≡ false)
        (λ k. (i ≡ pos k) × (k < len)) }
{
    if 0 <= i && i < i64::from(len) {
        Some(i as u32)
    } else {
        None
    }
}

// The live block of a reference, with the word that the index names in it; or whether it is the reference that is stale.
pub(crate) fn located(slots: &[Option<Held>], r: GlobalRef, i: i64) -> Result<(&Held, u32), bool>
    ensures found { IfOk result (λ x. IsLocated slots.now r i x.0.now x.1) }
    ensures refused { IfErr result (λ stale. IsUnlocated slots.now r i stale) }
{
    let Some(held) = find(slots, r) else {
        return Err(true);
    };
    match index_in(i, held.block.len()) {
        Some(at) => Ok((held, at)),
        None => Err(false),
    }
}

// Puts a block into the table, at the word where it begins and where there is none.
pub(crate) fn keep(slots: &mut Vec<Option<Held>>, held: Held)
    requires within { held.block.start < vec_len slots.old }
    requires free { slot_at slots.old.items held.block.start ≡ None }
    ensures { slots.new.items ≡ slice_set slots.old.items held.block.start (Some held) }
{
    let start = held.block.start() as usize;
    match slots[start].replace(held) {
        None => {}
        Some(_) => unreachable!(),
    }
}

// Gives every block of the table back to the heap.
pub(crate) fn give_all(heap: &mut Heap, slots: &mut Vec<Option<Held>>)
    requires { AllLive heap.old slots.old.items }
    ensures none_left { slots.new.items ≡ [] }
    ensures words { heap.new.words ≡ heap.old.words }
{
    while let Some(slot) = slots.pop() {
        if let Some(held) = slot {
            let Held {
                generation: _,
                block,
            } = held;
            heap.give(block);
        }
    }
}

// A table without blocks, for so many words.
pub(crate) fn empty_table(alloc: Global, words: usize) -> Result<Vec<Option<Held>>, NoMemory>
    ensures { IfOk result (λ slots. slots.items ≡ replicate words None) }
{
    let mut slots = Vec::with_capacity(alloc, words)?;
    for _ in 0..words {
        match slots.push(None) {
            Ok(()) => {}
            Err(_) => unreachable!(),
        }
    }
    Ok(slots)
}

// Takes the live block of a reference out of the table.
pub(crate) fn take_out(slots: &mut Vec<Option<Held>>, r: GlobalRef) -> Option<Held>
    ensures none { IfNone result ((h : Held) → slot_at slots.old.items r.start ≡ Some h → h.generation ≡ r.generation → ⊥) }
    ensures same { IfNone result (slots.new.items ≡ slots.old.items) }
    ensures some { IfSome result (λ h. (slot_at slots.old.items r.start ≡ Some h) × (h.generation ≡ r.generation)) }
    ensures gone { IfSome result (λ _. slots.new.items ≡ slice_set slots.old.items r.start None) }
{
    if find(slots, r).is_none() {
        return None;
    }
    slots[r.start as usize].take()
}
