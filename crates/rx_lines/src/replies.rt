// Replies as lines.
ghost use Rattle.std.specs.Prelude.{◌<◌, ◌++◌, ◌∷◌, [], filter, codes};
ghost use Rattle.std.specs.List.{flat_map};
ghost use Rattle.rx_base.specs.Sets.{has_bit, members};
ghost use Rattle.rx_trace.specs.Fields.{natural_field};
ghost use Rattle.rx_trace.specs.Parts.{part_text, lost_part, masked_part};
ghost use Rattle.rx_lines.specs.Replies.{numbered, fault_text, outcome_text, lost_text, born_text, answer_text, answer_line};
ghost use Rattle.rx_lines.specs.Replies.{waiter_text, freed_line};
ghost use Rattle.rx_lines.specs.Inside.Telling.{Puts};

use crate::output::Pending;
use rx_base::{Fault, Faults, PlaceId, PlaceSet, Sink};
use rx_coordinator::{Answer, Waiter};
use rx_finish::{Born, Outcome};

/// Tells the line of an answer.
pub fn put_answer<K: Sink>(pending: &mut Pending, out: &mut K, answer: &Answer)
    ensures { Puts K.written K.faults out.old pending.old out.new pending.new (answer_line answer.now) }
{
    put_answer_text(pending, out, answer);
    pending.put(out, b"\n");
}

// Tells what stands in that line.
fn put_answer_text<K: Sink>(pending: &mut Pending, out: &mut K, answer: &Answer)
    ensures { Puts K.written K.faults out.old pending.old out.new pending.new (answer_text answer.now) }
{
    match answer {
        Answer::Bad => pending.put(out, b"bad"),
        Answer::Full => pending.put(out, b"full"),
        Answer::NoMemory => pending.put(out, b"no memory"),
        Answer::NotYet { .. } => pending.put(out, b"parked"),
        Answer::Opened { scope } => put_numbered(pending, out, b"opened s", scope.0),
        Answer::Called { born } => put_born(pending, out, b"called", *born),
        Answer::Spawned { born } => put_born(pending, out, b"spawned", *born),
        Answer::Sent { born } => put_born(pending, out, b"sent", *born),
        Answer::Landed => pending.put(out, b"landed"),
        Answer::Waits => pending.put(out, b"waits"),
        Answer::Released { outcome } => put_released(pending, out, outcome),
        Answer::Ended => pending.put(out, b"ended"),
        Answer::Died => pending.put(out, b"died"),
        Answer::Joined { place } => put_place_number(pending, out, b"joined ", *place),
        Answer::RootDone { outcome } => put_released(pending, out, outcome),
    }
}

/// Tells the line of a release that has waited.
pub fn put_freed<K: Sink>(pending: &mut Pending, out: &mut K, waiter: Waiter, outcome: &Outcome)
    ensures { Puts K.written K.faults out.old pending.old out.new pending.new (freed_line waiter outcome.now) }
{
    put_waiter(pending, out, waiter);
    put_outcome(pending, out, outcome);
    pending.put(out, b"\n");
}

// Tells who waited.
fn put_waiter<K: Sink>(pending: &mut Pending, out: &mut K, waiter: Waiter)
    ensures { Puts K.written K.faults out.old pending.old out.new pending.new (waiter_text waiter) }
{
    match waiter {
        Waiter::Task(task) => put_numbered(pending, out, b"freed t", task.0),
        Waiter::Root => pending.put(out, b"freed root"),
    }
}

// Tells a release.
fn put_released<K: Sink>(pending: &mut Pending, out: &mut K, outcome: &Outcome)
    ensures { Puts K.written K.faults out.old pending.old out.new pending.new (codes "released" ++ outcome_text outcome.now) }
{
    pending.put(out, b"released");
    put_outcome(pending, out, outcome)
}

// Tells a task that was started, after the word for how.
fn put_born<K: Sink>(pending: &mut Pending, out: &mut K, word: &[u8], born: Born)
    ensures { Puts K.written K.faults out.old pending.old out.new pending.new (born_text word.now born) }
{
    pending.put(out, word);
    put_numbered(pending, out, b" t", born.child.0);
    put_numbered(pending, out, b" in s", born.scope.0);
    put_lost(pending, out, born.lost)
}

// Tells that the place of a task is dead.
fn put_lost<K: Sink>(pending: &mut Pending, out: &mut K, lost: bool)
    ensures { Puts K.written K.faults out.old pending.old out.new pending.new (lost_text lost) }
{
    if !lost {
        return;
    }
    pending.put(out, b" lost")
}

// Tells what a release names.
fn put_outcome<K: Sink>(pending: &mut Pending, out: &mut K, outcome: &Outcome)
    ensures { Puts K.written K.faults out.old pending.old out.new pending.new (outcome_text outcome.now) }
{
    put_losses(pending, out, outcome.lost);
    put_masked(pending, out, outcome.masked);
    put_thrown(pending, out, &outcome.thrown)
}

/// Tells the places that lost tasks.
#[tactic(auto, using(crate::proofs::Telling::puts_then))]
pub(crate) fn put_losses<K: Sink>(pending: &mut Pending, out: &mut K, lost: PlaceSet)
    ensures { Puts K.written K.faults out.old pending.old out.new pending.new (lost_part lost) }
{
    if lost.0 == 0 {
        return;
    }
    pending.put(out, b" lost");
    put_places(pending, out, lost)
}

// Tells the places of a set, in ascending order.
fn put_places<K: Sink>(pending: &mut Pending, out: &mut K, set: PlaceSet)
    ensures { Puts K.written K.faults out.old pending.old out.new pending.new (flat_map natural_field (members set)) }
{
    for p in 0..16 {
        put_place_if_member(pending, out, set, PlaceId(p));
    }
}

// Tells the place if it is in the set, and else nothing.
fn put_place_if_member<K: Sink>(pending: &mut Pending, out: &mut K, set: PlaceSet, place: PlaceId)
    requires { place.0 < 16 }
    ensures { Puts K.written K.faults out.old pending.old out.new pending.new
        (flat_map natural_field (filter (has_bit set.0) (place.0 ∷ []))) }
{
    if set.contains(place) {
        put_place_number(pending, out, b" ", place);
    } else {}
}

/// Tells how many faults are masked.
#[tactic(auto, using(crate::proofs::Telling::puts_then), unfolding(rx_trace::specs::Parts::masked_part))]
pub(crate) fn put_masked<K: Sink>(pending: &mut Pending, out: &mut K, masked: u32)
    ensures { Puts K.written K.faults out.old pending.old out.new pending.new (masked_part masked) }
{
    if masked == 0 {
        return;
    }
    pending.put(out, b" masked");
    put_numbered(pending, out, b" ", masked)
}

// Tells the faults that a release tells.
#[tactic(auto, using(crate::proofs::Telling::puts_then))]
fn put_thrown<K: Sink>(pending: &mut Pending, out: &mut K, thrown: &Faults)
    ensures { Puts K.written K.faults out.old pending.old out.new pending.new (part_text (codes " thrown") fault_text thrown.now) }
{
    if thrown.len() == 0 {
        return;
    }
    pending.put(out, b" thrown");
    put_faults(pending, out, thrown)
}

// Tells faults in their order.
fn put_faults<K: Sink>(pending: &mut Pending, out: &mut K, faults: &Faults)
    ensures { Puts K.written K.faults out.old pending.old out.new pending.new (flat_map fault_text faults.now) }
{
    for i in 0..faults.len() {
        put_fault(pending, out, faults.item(i));
    }
}

// Tells a fault.
#[tactic(auto, using(crate::proofs::Telling::puts_then))]
fn put_fault<K: Sink>(pending: &mut Pending, out: &mut K, fault: Fault)
    ensures { Puts K.written K.faults out.old pending.old out.new pending.new (fault_text fault) }
{
    match fault {
        Fault::Thrown(value) => {
            pending.put(out, b" ");
            pending.put_number(out, value);
        }
        _ => pending.put(out, b" other"),
    }
}

/// Tells a word with a number at its end.
pub(crate) fn put_numbered<K: Sink>(pending: &mut Pending, out: &mut K, word: &[u8], n: u32)
    ensures { Puts K.written K.faults out.old pending.old out.new pending.new (numbered word.now n) }
{
    pending.put(out, word);
    pending.put_natural(out, n)
}

/// The same with the number of a place.
pub(crate) fn put_place_number<K: Sink>(
    pending: &mut Pending,
    out: &mut K,
    word: &[u8],
    place: PlaceId,
)
    ensures { Puts K.written K.faults out.old pending.old out.new pending.new (numbered word.now place.0) }
{
    put_numbered(pending, out, word, u32::from(place.0))
}
