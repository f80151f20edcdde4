// How the numbers of a history are counted and written.
ghost use Rattle.std.specs.Prelude.{◌≡◌, ◌<◌, ◌≤◌, cond, ◌^◌, ◌-◌, ◌++◌, length, OnOk, OnErr};
ghost use Rattle.rx_base.specs.Sets.{members};
ghost use Rattle.rx_gen.specs.Numbers.{has_some, starts_by, starts, prints_by, prints, dies, loses_by, loses, numbers, count_line};
ghost use Rattle.rx_gen.specs.Numbers.{counts_text};

use crate::Counts;
use rx_base::{NoMemory, PlaceSet};
use rx_history::{Act, Entry, History};
use rx_text::put_natural;

/// The numbers of a history of fewer than 4,294,967,295 entries. It goes through the entries once.
pub fn counts(history: &History) -> Counts
    requires { length history.now.entries < 2 ^ 32 - 1 }
    ensures { result ≡ numbers history.now.entries }
{
    let mut started = 0;
    let mut prints = 0;
    let mut deaths = 0;
    let mut losses = 0;
    for i in 0..history.len() {
        let entry = history.item(i);
        started += u32::from(is_start(entry));
        prints += u32::from(is_print(entry));
        deaths += u32::from(is_death(entry));
        losses += losses_in(lost_in(entry));
    }
    Counts {
        entries: history.len() as u32,
        tasks: 1 + started,
        prints,
        deaths,
        losses,
    }
}

fn is_start(entry: &Entry) -> bool
    ensures { result ≡ starts entry.now }
{
    match entry {
        Entry::Step { act, .. } => is_start_act(act),
        Entry::Root { .. } => false,
        Entry::Death { .. } => false,
        Entry::Join { .. } => false,
    }
}

fn is_start_act(act: &Act) -> bool
    ensures { result ≡ starts_by act.now }
{
    match act {
        Act::Open { .. } => false,
        Act::At { .. } => true,
        Act::Spawn { .. } => true,
        Act::Arrive { .. } => false,
        Act::Wait { .. } => false,
        Act::Release { .. } => false,
        Act::End { .. } => false,
        Act::Print { .. } => false,
        Act::Census { .. } => false,
    }
}

fn is_print(entry: &Entry) -> bool
    ensures { result ≡ prints entry.now }
{
    match entry {
        Entry::Step { act, .. } => is_print_act(act),
        Entry::Root { .. } => false,
        Entry::Death { .. } => false,
        Entry::Join { .. } => false,
    }
}

fn is_print_act(act: &Act) -> bool
    ensures { result ≡ prints_by act.now }
{
    match act {
        Act::Open { .. } => false,
        Act::At { .. } => false,
        Act::Spawn { .. } => false,
        Act::Arrive { .. } => false,
        Act::Wait { .. } => false,
        Act::Release { .. } => false,
        Act::End { .. } => false,
        Act::Print { .. } => true,
        Act::Census { .. } => false,
    }
}

fn is_death(entry: &Entry) -> bool
    ensures { result ≡ dies entry.now }
{
    match entry {
        Entry::Step { .. } => false,
        Entry::Root { .. } => false,
        Entry::Death { .. } => true,
        Entry::Join { .. } => false,
    }
}

// The places that a release names.
fn lost_in(entry: &Entry) -> PlaceSet
    ensures { has_some (members result) ≡ loses entry.now }
{
    match entry {
        Entry::Step { act, .. } => lost_in_act(act),
        Entry::Root { lost, .. } => *lost,
        Entry::Death { .. } => PlaceSet::empty(),
        Entry::Join { .. } => PlaceSet::empty(),
    }
}

fn lost_in_act(act: &Act) -> PlaceSet
    ensures { has_some (members result) ≡ loses_by act.now }
{
    match act {
        Act::Open { .. } => PlaceSet::empty(),
        Act::At { .. } => PlaceSet::empty(),
        Act::Spawn { .. } => PlaceSet::empty(),
        Act::Arrive { .. } => PlaceSet::empty(),
        Act::Wait { .. } => PlaceSet::empty(),
        Act::Release { lost, .. } => *lost,
        Act::End { .. } => PlaceSet::empty(),
        Act::Print { .. } => PlaceSet::empty(),
        Act::Census { .. } => PlaceSet::empty(),
    }
}

// How many losses a release with this set is: one, if the set has a place.
#[tactic(auto, using(crate::proofs::Tallies::byte_is))]
fn losses_in(lost: PlaceSet) -> u32
    ensures one { result ≡ cond (has_some (members lost)) 1 0 }
    ensures small { result ≤ 1 }
{
    u32::from(has_lost(lost))
}

// Whether the set has a place.
fn has_lost(lost: PlaceSet) -> bool
    ensures { result ≡ has_some (members lost) }
{
    lost.0 != 0
}

/// Appends the five lines of the numbers. A refusal leaves `out` as it was.
pub fn put_counts(counts: &Counts, out: &mut Vec<u8>) -> Result<(), NoMemory>
    ensures ok { OnOk result (out.new.items ≡ out.old.items ++ counts_text counts.now) }
    ensures err { OnErr result (out.new.items ≡ out.old.items) }
{
    let mut text = Vec::new(*out.allocator());
    put_lines(&mut text, *counts)?;
    out.extend_from_slice(&text)?;
    Ok(())
}

#[tactic(auto, using(std::proofs::Common::append_assoc))]
fn put_lines(out: &mut Vec<u8>, counts: Counts) -> Result<(), NoMemory>
    ensures { OnOk result (out.new.items ≡ out.old.items ++ counts_text counts) }
{
    put_line(out, b"entries", counts.entries)?;
    put_line(out, b"tasks", counts.tasks)?;
    put_line(out, b"prints", counts.prints)?;
    put_line(out, b"deaths", counts.deaths)?;
    put_line(out, b"losses", counts.losses)
}

// The line of one number.
#[tactic(auto, using(std::proofs::Common::append_assoc))]
fn put_line(out: &mut Vec<u8>, word: &[u8], n: u32) -> Result<(), NoMemory>
    ensures { OnOk result (out.new.items ≡ out.old.items ++ count_line word.now n) }
{
    out.extend_from_slice(word)?;
    out.extend_from_slice(b" ")?;
    put_natural(out, n)?;
    out.extend_from_slice(b"\n")?;
    Ok(())
}
