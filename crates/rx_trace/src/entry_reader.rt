// The words of an entry. What reads an entry adds it, so that it is written once.
ghost use Rattle.std.specs.Prelude.{◌≡◌, ◌≢◌, ◌≤◌, ◌∷◌, codes, IfOk, MatchOption};
ghost use Rattle.rx_trace.specs.Inside.EntryWords.{act_at, step_at, acted_at, changed_at, word_of};
ghost use Rattle.rx_trace.specs.declared.acts.Kind.{Kind};
ghost use Rattle.rx_trace.specs.Inside.EntryWords.{release_or_root_at, root_at, entry_at, entered, if_good};

use crate::acts::{Kind, act, is_end};
use rx_base::NoMemory;
use rx_fields::{Words, is_same, keyword, outcome_part, place_field, task_field};
use rx_history::{Entry, History};
use std::alloc::Global;

// Adds the entry that the words after its number are; answers whether they are one.
pub(crate) fn entry(
    alloc: Global,
    words: &mut Words<'_>,
    places: u8,
    history: &mut History,
) -> Result<bool, NoMemory>
    requires { places ≤ 16 }
    ensures read { IfOk result (λ good. if_good good history.new.entries
        ≡ entered history.old.entries (entry_at places words.old)) }
    ensures same { history.new.setup ≡ history.old.setup }
{
    let Some(word) = words.next() else {
        return Ok(false);
    };
    match kind_of(word) {
        Some(kind) => acted(alloc, words, places, kind, history),
        None => changed(words, places, word, history),
    }
}

// The kind of act that a word names.
#[tactic(auto, using(crate::proofs::Naming::is_word, crate::proofs::Naming::no_kind))]
fn kind_of(word: &[u8]) -> Option<Kind>
    ensures { MatchOption result ((kind : Kind) → word.now ≢ word_of kind) (λ kind. word.now ≡ word_of kind) }
{
    if is_same(word, b"spawn") {
        Some(Kind::Spawn)
    } else if is_same(word, b"arrive") {
        Some(Kind::Arrive)
    } else if is_same(word, b"end") {
        Some(Kind::End)
    } else if is_same(word, b"open") {
        Some(Kind::Open)
    } else if is_same(word, b"at") {
        Some(Kind::At)
    } else if is_same(word, b"wait") {
        Some(Kind::Wait)
    } else if is_same(word, b"release") {
        Some(Kind::Release)
    } else if is_same(word, b"print") {
        Some(Kind::Print)
    } else if is_same(word, b"census") {
        Some(Kind::Census)
    } else {
        None
    }
}

// The entry of an act of this kind.
#[tactic(auto, using(crate::proofs::Naming::other_kinds))]
fn acted(
    alloc: Global,
    words: &mut Words<'_>,
    places: u8,
    kind: Kind,
    history: &mut History,
) -> Result<bool, NoMemory>
    requires { places ≤ 16 }
    ensures read { IfOk result (λ good. if_good good history.new.entries
        ≡ entered history.old.entries (acted_at places kind words.old)) }
    ensures same { history.new.setup ≡ history.old.setup }
{
    match kind {
        Kind::Release => release(alloc, words, places, history),
        other => step(alloc, words, places, other, history),
    }
}

// The death or the join that a word names.
#[tactic(auto, using(crate::proofs::Adding::whole_read, crate::proofs::Adding::part_read))]
fn changed(
    words: &mut Words<'_>,
    places: u8,
    word: &[u8],
    history: &mut History,
) -> Result<bool, NoMemory>
    ensures read { IfOk result (λ good. if_good good history.new.entries
        ≡ entered history.old.entries (changed_at places (word.now ∷ words.old))) }
    ensures same { history.new.setup ≡ history.old.setup }
{
    let is_death = is_same(word, b"death");
    if !is_death && !is_same(word, b"join") {
        return Ok(false);
    }
    let Some(place) = place_field(words, places) else {
        return Ok(false);
    };
    if !is_end(words, history)? {
        return Ok(false);
    }
    if is_death {
        history.add(Entry::Death { place });
    } else {
        history.add(Entry::Join { place });
    }
    Ok(true)
}

// A task, what it did, and its batch.
fn step(
    alloc: Global,
    words: &mut Words<'_>,
    places: u8,
    kind: Kind,
    history: &mut History,
) -> Result<bool, NoMemory>
    requires { places ≤ 16 }
    ensures read { IfOk result (λ good. if_good good history.new.entries
        ≡ entered history.old.entries (step_at (act_at places kind) words.old)) }
    ensures same { history.new.setup ≡ history.old.setup }
{
    match task_field(words) {
        Some(task) => act(alloc, words, places, kind, task, history),
        None => Ok(false),
    }
}

// A release by the host or by a task.
fn release(
    alloc: Global,
    words: &mut Words<'_>,
    places: u8,
    history: &mut History,
) -> Result<bool, NoMemory>
    requires { places ≤ 16 }
    ensures read { IfOk result (λ good. if_good good history.new.entries
        ≡ entered history.old.entries (release_or_root_at places words.old)) }
    ensures same { history.new.setup ≡ history.old.setup }
{
    if keyword(words, b"host") {
        root(alloc, words, places, history)
    } else {
        step(alloc, words, places, Kind::Release, history)
    }
}

// The host's release of the root.
fn root(
    alloc: Global,
    words: &mut Words<'_>,
    places: u8,
    history: &mut History,
) -> Result<bool, NoMemory>
    requires { places ≤ 16 }
    ensures read { IfOk result (λ good. if_good good history.new.entries
        ≡ entered history.old.entries (root_at places words.old)) }
    ensures same { history.new.setup ≡ history.old.setup }
{
    if !keyword(words, b"s0") {
        return Ok(false);
    }
    let Some((lost, masked, thrown)) = outcome_part(alloc, words, places)? else {
        return Ok(false);
    };
    if !is_end(words, history)? {
        return Ok(false);
    }
    history.add(Entry::Root {
        lost,
        masked,
        thrown,
    });
    Ok(true)
}
