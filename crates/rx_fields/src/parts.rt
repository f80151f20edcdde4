// The fields of a line, and the parts that are there only where their list is not empty, or their number not 0.
ghost use Rattle.std.specs.Prelude.{◌≡◌, ◌≤◌, ◌<◌, ◌^◌, IfOk};
ghost use Rattle.rx_fields.specs.Words.{answer_left};
ghost use Rattle.rx_fields.specs.Inside.FieldWords.{natural_at, number_at, place_at, task_at, scope_at, path_at, count_at, block_at};
ghost use Rattle.rx_fields.specs.Inside.FieldWords.{path_of, place_of, task_spelt, masked_of, fault_of};
ghost use Rattle.rx_fields.specs.Inside.PartWords.{places_at, lost_read, masked_read, thrown_at, batch_at};
ghost use Rattle.rx_fields.specs.Inside.PartWords.{item_of, key_of, nested_at, way_at, outcome_at};

use crate::items::{fault, path, place, scope, task};
use crate::numbers::{count, natural, number};
use crate::words::{Words, is_same};
use rx_base::{
    Batch, Fault, Faults, GlobalRef, NoMemory, Path, PlaceId, PlaceSet, ScopeId, TaskId,
};
use std::alloc::Global;

/// Takes the next word as a number below 2^32. It is none where the word is none, or there is no word.
pub fn natural_field(words: &mut Words<'_>) -> Option<u32>
    ensures { answer_left result words.new ≡ natural_at words.old }
{
    match words.short_number() {
        Some(n) => Some(n),
        None => natural(words.next()?),
    }
}

/// Takes the next word as a number of 64 bits. It is none where the word is none, or there is no word.
pub fn number_field(words: &mut Words<'_>) -> Option<i64>
    ensures { answer_left result words.new ≡ number_at words.old }
{
    match words.short_number() {
        Some(n) => Some(i64::from(n)),
        None => number(words.next()?),
    }
}

/// Takes the next word as a number from 1 to a limit. It is none where the word is none, or there is no word. The condition is a
/// limit below 5000.
pub fn count_field(words: &mut Words<'_>, most: u32) -> Option<u32>
    requires { most < 5000 }
    ensures { answer_left result words.new ≡ count_at most words.old }
{
    count(words.next()?, most)
}

/// Takes the next word as a place that is one of so many. It is none where the word is none, or there is no word.
pub fn place_field(words: &mut Words<'_>, places: u8) -> Option<PlaceId>
    ensures { answer_left result words.new ≡ place_at places words.old }
{
    match words.short_number() {
        Some(n) => {
            if n < u32::from(places) {
                Some(PlaceId(n as u8))
            } else {
                None
            }
        }
        None => place(words.next()?, places),
    }
}

/// Takes the next word as a task, whose number is below 2^32. It is none where the word is none, or there is no word.
pub fn task_field(words: &mut Words<'_>) -> Option<TaskId>
    ensures { answer_left result words.new ≡ task_at words.old }
{
    match words.lettered(b't') {
        Some(n) => Some(TaskId(n)),
        None => task(words.next()?),
    }
}

/// Takes the next word as a scope, whose number is below 2^32. It is none where the word is none, or there is no word.
pub fn scope_field(words: &mut Words<'_>) -> Option<ScopeId>
    ensures { answer_left result words.new ≡ scope_at words.old }
{
    match words.lettered(b's') {
        Some(n) => Some(ScopeId(n)),
        None => scope(words.next()?),
    }
}

/// Takes the next word as a path of 1 to 65 numbers. It is none where the word is none, or there is no word; `NoMemory` says nothing
/// of the word.
pub fn path_field(alloc: Global, words: &mut Words<'_>) -> Result<Option<Path>, NoMemory>
    ensures { IfOk result (λ path. answer_left path words.new ≡ path_at words.old) }
{
    if let Some(path) = words.short_path(alloc)? {
        return Ok(Some(path));
    }
    match words.next() {
        Some(word) => path(alloc, word),
        None => Ok(None),
    }
}

/// Takes the next two words as a block of this place: its start and its generation, each below 2^32. It is none where they are not.
pub fn block_field(words: &mut Words<'_>, home: u8) -> Option<GlobalRef>
    ensures { answer_left result words.new ≡ block_at home words.old }
{
    let start = natural_field(words)?;
    let generation = natural_field(words)?;
    Some(GlobalRef {
        home: PlaceId(home),
        start,
        generation,
    })
}

/// Takes the next word where it is this one, and answers whether it is.
pub fn keyword(words: &mut Words<'_>, key: &[u8]) -> bool
    ensures { (result, words.new) ≡ key_of key.now words.old }
{
    match words.first() {
        Some((word, after)) => {
            if is_same(word, key) {
                *words = after;
                true
            } else {
                false
            }
        }
        None => false,
    }
}

/// Takes a scope, the word `in` and the scope inside which it stands. It is none where the words are not these.
pub fn nested_scope(words: &mut Words<'_>) -> Option<(ScopeId, ScopeId)>
    ensures { answer_left result words.new ≡ nested_at words.old }
{
    let scope = scope_field(words)?;
    if !keyword(words, b"in") {
        return None;
    }
    let parent = scope_field(words)?;
    Some((scope, parent))
}

/// Takes the place from which a task comes and the one to which it goes, each one of so many. It is none where the words are none.
pub fn way_field(words: &mut Words<'_>, places: u8) -> Option<(PlaceId, PlaceId)>
    ensures { answer_left result words.new ≡ way_at places words.old }
{
    let from = place_field(words, places)?;
    let to = place_field(words, places)?;
    Some((from, to))
}

/// Takes the next word where it is a task, whose number is below 2^32; where it is none, the words are as before.
pub fn next_task(words: &mut Words<'_>) -> Option<TaskId>
    ensures { (result, words.new) ≡ item_of task_spelt words.old }
{
    match words.lettered(b't') {
        Some(n) => Some(TaskId(n)),
        None => {
            let (word, after) = words.first()?;
            let task = task(word)?;
            *words = after;
            Some(task)
        }
    }
}

// Takes the next word where it is a place.
fn next_place(words: &mut Words<'_>, places: u8) -> Option<PlaceId>
    ensures { (result, words.new) ≡ item_of (place_of places) words.old }
{
    let (word, after) = words.first()?;
    let place = place(word, places)?;
    *words = after;
    Some(place)
}

// Takes the next word where it is a fault.
fn next_fault(words: &mut Words<'_>, places: u8) -> Option<Fault>
    ensures { (result, words.new) ≡ item_of (fault_of places) words.old }
{
    let (word, after) = words.first()?;
    let fault = fault(word, places)?;
    *words = after;
    Some(fault)
}

// Takes the next word where it is a path.
fn next_path(alloc: Global, words: &mut Words<'_>) -> Result<Option<Path>, NoMemory>
    ensures { IfOk result (λ path. (path, words.new) ≡ item_of path_of words.old) }
{
    if let Some(path) = words.short_path(alloc)? {
        return Ok(Some(path));
    }
    match words.first() {
        Some((word, after)) => match path(alloc, word) {
            Ok(Some(path)) => {
                *words = after;
                Ok(Some(path))
            }
            Ok(None) => Ok(None),
            Err(_) => Err(NoMemory),
        },
        None => Ok(None),
    }
}

// The places that lost tasks, in ascending order.
fn lost_part(words: &mut Words<'_>, places: u8) -> Option<PlaceSet>
    requires { places ≤ 16 }
    ensures { answer_left result words.new ≡ lost_read places words.old }
{
    if !keyword(words, b"lost") {
        return Some(PlaceSet::empty());
    }
    let set = place_set(words, places)?;
    if set.0 == 0 { None } else { Some(set) }
}

// The set of the places that follow, each above those before it.
fn place_set(words: &mut Words<'_>, places: u8) -> Option<PlaceSet>
    requires { places ≤ 16 }
    ensures { answer_left result words.new ≡ places_at places 0 words.old }
{
    let mut set = PlaceSet(0);
    'places: while let Some(place) = next_place(words, places) {
        if set.0 >> place.0 != 0 {
            return None;
        }
        set = set.with(place);
    }
    Some(set)
}

// How many faults are masked.
fn masked_part(words: &mut Words<'_>) -> Option<u32>
    ensures { answer_left result words.new ≡ masked_read words.old }
{
    if !keyword(words, b"masked") {
        return Some(0);
    }
    masked(words.next()?)
}

// A number of masked faults, which is not told where it is 0.
fn masked(word: &[u8]) -> Option<u32>
    ensures { result ≡ masked_of word.now }
{
    let n = natural(word)?;
    if n == 0 { None } else { Some(n) }
}

/// Takes the faults with which a body or a task ended: the word `thrown` and one fault or more. There are none, and no word is taken,
/// where the next word is another. It answers none where no fault follows; `NoMemory` says nothing of the words. A place that a fault
/// names is one of so many.
pub fn thrown_part(
    alloc: Global,
    words: &mut Words<'_>,
    places: u8,
) -> Result<Option<Faults>, NoMemory>
    ensures { IfOk result (λ thrown. answer_left thrown words.new ≡ thrown_at places words.old) }
{
    let mut thrown = Faults::open(alloc);
    if !keyword(words, b"thrown") {
        return Ok(Some(thrown));
    }
    'faults: while let Some(fault) = next_fault(words, places) {
        thrown.push(fault)?;
    }
    if thrown.len() == 0 {
        return Ok(None);
    }
    Ok(Some(thrown))
}

/// Takes what a release names: the places that lost tasks, in ascending order and each one of so many, how many faults are masked,
/// and the faults that are told. Each of these may be missing. It is none where a part that begins is not as it has to be;
/// `NoMemory` says nothing of the words. The condition is at most 16 places.
pub fn outcome_part(
    alloc: Global,
    words: &mut Words<'_>,
    places: u8,
) -> Result<Option<(PlaceSet, u32, Faults)>, NoMemory>
    requires { places ≤ 16 }
    ensures { IfOk result (λ outcome. answer_left outcome words.new ≡ outcome_at places words.old) }
{
    let Some(lost) = lost_part(words, places) else {
        return Ok(None);
    };
    let Some(masked) = masked_part(words) else {
        return Ok(None);
    };
    let Some(thrown) = thrown_part(alloc, words, places)? else {
        return Ok(None);
    };
    Ok(Some((lost, masked, thrown)))
}

/// Takes the paths of the statements that a task has begun: the word `|` and one path or more. There are none, and no word is taken,
/// where the next word is another. It answers none where no path follows; `NoMemory` says nothing of the words.
pub fn batch_part(alloc: Global, words: &mut Words<'_>) -> Result<Option<Batch>, NoMemory>
    ensures { IfOk result (λ batch. answer_left batch words.new ≡ batch_at words.old) }
{
    let mut batch = Batch::open(alloc);
    if !keyword(words, b"|") {
        return Ok(Some(batch));
    }
    'paths: while let Some(path) = next_path(alloc, words)? {
        batch.push(path)?;
    }
    if batch.len() == 0 {
        return Ok(None);
    }
    Ok(Some(batch))
}
