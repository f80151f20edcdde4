// What a word is as a field of a line.
ghost use Rattle.std.specs.Prelude.{◌≡◌, option_map, IfOk};
ghost use Rattle.rx_fields.specs.Words.{stripped};
ghost use Rattle.rx_fields.specs.Inside.FieldWords.{place_of, task_spelt, scope_spelt, path_of, plain_fault, dead_of, fault_spelt};
ghost use Rattle.rx_fields.specs.Inside.FieldWords.{fault_of};
ghost use Rattle.rx_fields.specs.Inside.FieldWords.{kill_of};

use crate::numbers::{below, natural, number};
use crate::words::cut;
use rx_base::{Fault, Kill, NoMemory, Path, PlaceId, ScopeId, TaskId};
use rx_kills::read_kill;
use std::alloc::Global;

/// What follows these bytes in front of a word. It is none where the word does not begin with them.
#[tactic(auto, using(crate::proofs::Stripped::strips, crate::proofs::Stripped::strips_not))]
pub fn strip<'a>(word: &'a [u8], prefix: &[u8]) -> Option<&'a [u8]>
    ensures { option_map (λ x. x.now) result ≡ stripped prefix.now word.now }
{
    word.strip_prefix(prefix)
}

pub(crate) fn place(word: &[u8], places: u8) -> Option<PlaceId>
    ensures { result ≡ place_of places word.now }
{
    let n = below(word, u32::from(places))?;
    Some(PlaceId(n as u8))
}

pub(crate) fn task(word: &[u8]) -> Option<TaskId>
    ensures { result ≡ task_spelt word.now }
{
    let n = natural(strip(word, b"t")?)?;
    Some(TaskId(n))
}

pub(crate) fn scope(word: &[u8]) -> Option<ScopeId>
    ensures { result ≡ scope_spelt word.now }
{
    let n = natural(strip(word, b"s")?)?;
    Some(ScopeId(n))
}

// One to 65 numbers, joined by dots.
pub(crate) fn path(alloc: Global, word: &[u8]) -> Result<Option<Path>, NoMemory>
    ensures { IfOk result (λ path. path ≡ path_of word.now) }
{
    let mut numbers = Path::open(alloc);
    let mut rest = word;
    'numbers: while let Some((front, tail)) = cut(rest, b'.') {
        let Some(n) = natural(front) else {
            return Ok(None);
        };
        numbers.push(n)?;
        rest = tail;
    }
    let Some(n) = natural(rest) else {
        return Ok(None);
    };
    numbers.push(n)?;
    if numbers.len() > 65 {
        return Ok(None);
    }
    Ok(Some(numbers))
}

pub(crate) fn fault(word: &[u8], places: u8) -> Option<Fault>
    ensures { result ≡ fault_of places word.now }
{
    match dead(word, places) {
        Some(fault) => Some(fault),
        None => match thrown(word) {
            Some(fault) => Some(fault),
            None => plain(word),
        },
    }
}

fn dead(word: &[u8], places: u8) -> Option<Fault>
    ensures { result ≡ dead_of places word.now }
{
    let place = place(strip(word, b"dead:")?, places)?;
    Some(Fault::Dead(place))
}

fn thrown(word: &[u8]) -> Option<Fault>
    ensures { result ≡ fault_spelt word.now }
{
    let value = number(strip(word, b"code:")?)?;
    Some(Fault::Thrown(value))
}

// A fault that is a word.
fn plain(word: &[u8]) -> Option<Fault>
    ensures { result ≡ plain_fault word.now }
{
    if word == b"overflow".as_slice() {
        Some(Fault::Overflow)
    } else if word == b"noplace".as_slice() {
        Some(Fault::NoPlace)
    } else if word == b"wrongplace".as_slice() {
        Some(Fault::WrongPlace)
    } else if word == b"stale".as_slice() {
        Some(Fault::Stale)
    } else if word == b"index".as_slice() {
        Some(Fault::Index)
    } else if word == b"heapfull".as_slice() {
        Some(Fault::HeapFull)
    } else {
        None
    }
}

/// The kill that a word spells, as docs/trace.md states it. It is none where the word is no kill.
pub fn kill(word: &[u8]) -> Option<Kill>
    ensures { result ≡ kill_of word.now }
{
    read_kill(word)
}
