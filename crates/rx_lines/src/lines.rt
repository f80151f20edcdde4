// Requests as lines.
ghost use Rattle.std.specs.Prelude.{◌≡◌, IfOk};
ghost use Rattle.rx_coordinator.specs.declared.requests.Request.TheVariants.{Wait, End};
ghost use Rattle.rx_fields.specs.Words.{answer_left};
ghost use Rattle.rx_fields.specs.Inside.Readers.{all_read};
ghost use Rattle.rx_fields.specs.Inside.FieldWords.{task_at, place_at};
ghost use Rattle.rx_fields.specs.Inside.PartWords.{item_of};
ghost use Rattle.rx_lines.specs.Lines.{fault_word, faults_read, start_of, start_at, asked_at, fields_at, ending_of, words_request, line_request};

use rx_base::{Fault, Faults, NoMemory, PlaceId, TaskId};
use rx_coordinator::Request;
use rx_fields::{Words, below, is_same, split_words, task_field};
use std::alloc::Global;

/// The request that a line is. It is none where the line is none; its numbers may be of any task and place.
pub fn read_line(alloc: Global, line: &[u8]) -> Result<Option<Request>, NoMemory>
    ensures { IfOk result (λ o. o ≡ line_request line.now) }
{
    let (verb, mut words) = split_words(line);
    read_words(alloc, verb, &mut words)
}

// The request whose first word is the verb.
fn read_words(
    alloc: Global,
    verb: &[u8],
    words: &mut Words<'_>,
) -> Result<Option<Request>, NoMemory>
    ensures { IfOk result (λ o. o ≡ words_request verb.now words.old) }
{
    if is_same(verb, b"wait") {
        return read_wait(alloc, words);
    }
    if is_same(verb, b"end") {
        return read_end(alloc, words);
    }
    Ok(read_short(verb, words))
}

// The words of `wait` after the verb.
fn read_wait(alloc: Global, words: &mut Words<'_>) -> Result<Option<Request>, NoMemory>
    ensures { IfOk result (λ o. o ≡ ending_of (λ t thrown. Wait t thrown) (task_at words.old)) }
{
    let Some(task) = task_field(words) else {
        return Ok(None);
    };
    match read_faults(alloc, words)? {
        Some(thrown) => Ok(Some(Request::Wait { task, thrown })),
        None => Ok(None),
    }
}

// The words of `end` after the verb.
fn read_end(alloc: Global, words: &mut Words<'_>) -> Result<Option<Request>, NoMemory>
    ensures { IfOk result (λ o. o ≡ ending_of (λ t thrown. End t thrown) (task_at words.old)) }
{
    let Some(task) = task_field(words) else {
        return Ok(None);
    };
    match read_faults(alloc, words)? {
        Some(thrown) => Ok(Some(Request::End { task, thrown })),
        None => Ok(None),
    }
}

// The faults that the words are, up to the last one.
fn read_faults(alloc: Global, words: &mut Words<'_>) -> Result<Option<Faults>, NoMemory>
    ensures { IfOk result (λ o. o ≡ faults_read words.old) }
{
    let mut thrown = Faults::open(alloc);
    'faults: while let Some(fault) = next_fault(words) {
        thrown.push(fault)?;
    }
    if !words.is_empty() {
        return Ok(None);
    }
    Ok(Some(thrown))
}

// Takes the next word where it is a fault.
fn next_fault(words: &mut Words<'_>) -> Option<Fault>
    ensures { (result, words.new) ≡ item_of fault_word words.old }
{
    let (word, after) = words.first()?;
    let fault = fault(word)?;
    *words = after;
    Some(fault)
}

// A fault is a number of at most nine digits.
fn fault(word: &[u8]) -> Option<Fault>
    ensures { result ≡ fault_word word.now }
{
    let n = below(word, 1_000_000_000)?;
    Some(Fault::Thrown(i64::from(n)))
}

// The request that has no fault, with nothing after it.
fn read_short(verb: &[u8], words: &mut Words<'_>) -> Option<Request>
    ensures { result ≡ all_read (fields_at verb.now words.old) }
{
    let request = read_fields(verb, words)?;
    if words.is_empty() {
        Some(request)
    } else {
        None
    }
}

// The request with whose words these begin.
fn read_fields(verb: &[u8], words: &mut Words<'_>) -> Option<Request>
    ensures { answer_left result words.new ≡ fields_at verb.now words.old }
{
    if is_same(verb, b"join") {
        return Some(Request::Join);
    }
    if is_same(verb, b"root") {
        return Some(Request::Root);
    }
    if is_same(verb, b"death") {
        let place = place_field(words)?;
        return Some(Request::Death { place });
    }
    let task = task_field(words)?;
    read_asked(verb, task, words)
}

// What a task asks for.
fn read_asked(verb: &[u8], task: TaskId, words: &mut Words<'_>) -> Option<Request>
    ensures { answer_left result words.new ≡ asked_at verb.now task words.old }
{
    if is_same(verb, b"open") {
        return Some(Request::Open { task });
    }
    if is_same(verb, b"arrive") {
        return Some(Request::Arrive { task });
    }
    if is_same(verb, b"release") {
        return Some(Request::Release { task });
    }
    read_start(verb, task, words)
}

// How a task starts another one, and where.
fn read_start(verb: &[u8], task: TaskId, words: &mut Words<'_>) -> Option<Request>
    ensures { answer_left result words.new ≡ start_at verb.now task words.old }
{
    let to = place_field(words)?;
    start(verb, task, to)
}

// How a task starts another one.
fn start(verb: &[u8], task: TaskId, to: PlaceId) -> Option<Request>
    ensures { result ≡ start_of verb.now task to }
{
    if is_same(verb, b"at") {
        return Some(Request::At { task, to });
    }
    if is_same(verb, b"spawn") {
        return Some(Request::Spawn { task, to });
    }
    if is_same(verb, b"send") {
        return Some(Request::Send { task, to });
    }
    None
}

// Takes the next word as a place, which may be none of those that there are.
fn place_field(words: &mut Words<'_>) -> Option<PlaceId>
    ensures { answer_left result words.new ≡ place_at 256 words.old }
{
    let n = below(words.next()?, 256)?;
    Some(PlaceId(n as u8))
}
