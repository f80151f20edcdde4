// What an entry of a task tells of it, after the task. What reads an act adds its entry, so that the entry is written once.
ghost use Rattle.std.specs.Prelude.{◌≡◌, ◌≤◌, ◌<◌, ◌==◌, length, true, codes, IfOk};
ghost use Rattle.rx_fields.specs.Inside.Readers.{followed};
ghost use Rattle.rx_trace.specs.Inside.EntryWords.{open_at, at_at, spawn_at, wait_at, release_at, print_at};
ghost use Rattle.rx_trace.specs.Inside.EntryWords.{census_at, act_at, stepped, entered, if_good};

use rx_base::{NoMemory, TaskId};
use rx_fields::{
    Words, batch_part, count_field, keyword, nested_scope, number_field, outcome_part, path_field,
    place_field, scope_field, task_field, thrown_part, way_field,
};
use rx_history::{Act, Entry, History};
use std::alloc::Global;

// The kinds of acts.
#[derive(Clone, Copy)]
pub(crate) enum Kind {
    Open,
    At,
    Spawn,
    Arrive,
    Wait,
    Release,
    End,
    Print,
    Census,
}

// Adds the entry of an act of this kind, which has to be all that is left; answers whether it is.
pub(crate) fn act(
    alloc: Global,
    words: &mut Words<'_>,
    places: u8,
    kind: Kind,
    task: TaskId,
    history: &mut History,
) -> Result<bool, NoMemory>
    requires { places ≤ 16 }
    ensures read { IfOk result (λ good. if_good good history.new.entries
        ≡ entered history.old.entries (followed (act_at places kind) (stepped task) words.old)) }
    ensures same { history.new.setup ≡ history.old.setup }
{
    match kind {
        Kind::Open => open(alloc, words, task, history),
        Kind::At => at(alloc, words, places, task, history),
        Kind::Spawn => spawn(alloc, words, places, task, history),
        Kind::Arrive => {
            let Some(place) = place_field(words, places) else {
                return Ok(false);
            };
            add(alloc, words, task, Act::Arrive { place }, history)
        }
        Kind::Wait => wait(alloc, words, places, task, history),
        Kind::Release => release(alloc, words, places, task, history),
        Kind::End => {
            let Some(thrown) = thrown_part(alloc, words, places)? else {
                return Ok(false);
            };
            add(alloc, words, task, Act::End { thrown }, history)
        }
        Kind::Print => print(alloc, words, task, history),
        Kind::Census => census(alloc, words, task, history),
    }
}

fn open(
    alloc: Global,
    words: &mut Words<'_>,
    task: TaskId,
    history: &mut History,
) -> Result<bool, NoMemory>
    ensures read { IfOk result (λ good. if_good good history.new.entries
        ≡ entered history.old.entries (followed open_at (stepped task) words.old)) }
    ensures same { history.new.setup ≡ history.old.setup }
{
    let Some((scope, parent)) = nested_scope(words) else {
        return Ok(false);
    };
    let Some(path) = path_field(alloc, words)? else {
        return Ok(false);
    };
    add(
        alloc,
        words,
        task,
        Act::Open {
            scope,
            parent,
            path,
        },
        history,
    )
}

fn at(
    alloc: Global,
    words: &mut Words<'_>,
    places: u8,
    task: TaskId,
    history: &mut History,
) -> Result<bool, NoMemory>
    ensures read { IfOk result (λ good. if_good good history.new.entries
        ≡ entered history.old.entries (followed (at_at places) (stepped task) words.old)) }
    ensures same { history.new.setup ≡ history.old.setup }
{
    let Some((scope, parent)) = nested_scope(words) else {
        return Ok(false);
    };
    let Some(callee) = task_field(words) else {
        return Ok(false);
    };
    let Some((from, to)) = way_field(words, places) else {
        return Ok(false);
    };
    let Some(path) = path_field(alloc, words)? else {
        return Ok(false);
    };
    add(
        alloc,
        words,
        task,
        Act::At {
            scope,
            parent,
            callee,
            from,
            to,
            path,
        },
        history,
    )
}

fn spawn(
    alloc: Global,
    words: &mut Words<'_>,
    places: u8,
    task: TaskId,
    history: &mut History,
) -> Result<bool, NoMemory>
    ensures read { IfOk result (λ good. if_good good history.new.entries
        ≡ entered history.old.entries (followed (spawn_at places) (stepped task) words.old)) }
    ensures same { history.new.setup ≡ history.old.setup }
{
    let Some(child) = task_field(words) else {
        return Ok(false);
    };
    if !keyword(words, b"in") {
        return Ok(false);
    }
    let Some(scope) = scope_field(words) else {
        return Ok(false);
    };
    let Some((from, to)) = way_field(words, places) else {
        return Ok(false);
    };
    let Some(path) = path_field(alloc, words)? else {
        return Ok(false);
    };
    add(
        alloc,
        words,
        task,
        Act::Spawn {
            child,
            scope,
            from,
            to,
            path,
        },
        history,
    )
}

fn wait(
    alloc: Global,
    words: &mut Words<'_>,
    places: u8,
    task: TaskId,
    history: &mut History,
) -> Result<bool, NoMemory>
    ensures read { IfOk result (λ good. if_good good history.new.entries
        ≡ entered history.old.entries (followed (wait_at places) (stepped task) words.old)) }
    ensures same { history.new.setup ≡ history.old.setup }
{
    let Some(scope) = scope_field(words) else {
        return Ok(false);
    };
    let Some(thrown) = thrown_part(alloc, words, places)? else {
        return Ok(false);
    };
    add(alloc, words, task, Act::Wait { scope, thrown }, history)
}

fn release(
    alloc: Global,
    words: &mut Words<'_>,
    places: u8,
    task: TaskId,
    history: &mut History,
) -> Result<bool, NoMemory>
    requires { places ≤ 16 }
    ensures read { IfOk result (λ good. if_good good history.new.entries
        ≡ entered history.old.entries (followed (release_at places) (stepped task) words.old)) }
    ensures same { history.new.setup ≡ history.old.setup }
{
    let Some(scope) = scope_field(words) else {
        return Ok(false);
    };
    let Some((lost, masked, thrown)) = outcome_part(alloc, words, places)? else {
        return Ok(false);
    };
    add(
        alloc,
        words,
        task,
        Act::Release {
            scope,
            lost,
            masked,
            thrown,
        },
        history,
    )
}

fn print(
    alloc: Global,
    words: &mut Words<'_>,
    task: TaskId,
    history: &mut History,
) -> Result<bool, NoMemory>
    ensures read { IfOk result (λ good. if_good good history.new.entries
        ≡ entered history.old.entries (followed print_at (stepped task) words.old)) }
    ensures same { history.new.setup ≡ history.old.setup }
{
    let Some(value) = number_field(words) else {
        return Ok(false);
    };
    let Some(path) = path_field(alloc, words)? else {
        return Ok(false);
    };
    add(alloc, words, task, Act::Print { value, path }, history)
}

fn census(
    alloc: Global,
    words: &mut Words<'_>,
    task: TaskId,
    history: &mut History,
) -> Result<bool, NoMemory>
    ensures read { IfOk result (λ good. if_good good history.new.entries
        ≡ entered history.old.entries (followed census_at (stepped task) words.old)) }
    ensures same { history.new.setup ≡ history.old.setup }
{
    let Some(count) = count_field(words, 16) else {
        return Ok(false);
    };
    let Some(path) = path_field(alloc, words)? else {
        return Ok(false);
    };
    match u8::try_from(count) {
        Ok(places) => add(alloc, words, task, Act::Census { places, path }, history),
        Err(_) => Ok(false),
    }
}

// Adds the entry of what a task did, with its batch.
#[tactic(auto, using(crate::proofs::Adding::whole_read, crate::proofs::Adding::part_read))]
#[inline(always)]
fn add(
    alloc: Global,
    words: &mut Words<'_>,
    task: TaskId,
    act: Act,
    history: &mut History,
) -> Result<bool, NoMemory>
    ensures read { IfOk result (λ good. if_good good history.new.entries
        ≡ entered history.old.entries (stepped task act words.old)) }
    ensures same { history.new.setup ≡ history.old.setup }
{
    let Some(batch) = batch_part(alloc, words)? else {
        return Ok(false);
    };
    if !is_end(words, history)? {
        return Ok(false);
    }
    history.add(Entry::Step { task, act, batch });
    Ok(true)
}

// Whether no word is left. Where none is there is room for an entry more.
pub(crate) fn is_end(words: &Words<'_>, history: &mut History) -> Result<bool, NoMemory>
    ensures end { IfOk result (λ end. end ≡ (length words.now == 0)) }
    ensures room { IfOk result (λ end. end ≡ true → 0 < history.new.spare) }
    ensures entries { history.new.entries ≡ history.old.entries }
    ensures setup { history.new.setup ≡ history.old.setup }
{
    if !words.is_empty() {
        return Ok(false);
    }
    history.reserve(1)?;
    Ok(true)
}
