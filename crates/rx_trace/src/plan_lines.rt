// The lines of the setup.
ghost use Rattle.std.specs.Prelude.{◌≡◌, ◌<◌, ◌≤◌, ◌==◌, ◌&&◌, not, IfOk};
ghost use Rattle.rx_history.specs.KillOrder.{ComesLast};
ghost use Rattle.rx_fields.specs.Words.{pieces};
ghost use Rattle.rx_fields.specs.Inside.Readers.{all_read};
ghost use Rattle.rx_history.specs.KillOrder.{is_before};
ghost use Rattle.rx_trace.specs.Inside.Machine.{sizes_at, may_follow, kills_line_of, joins_of, is_there, all_there, joins_line_of};

use rx_base::{Kill, NoMemory};
use rx_fields::{Words, below, count_field, keyword, kill, split_words};
use rx_history::{JoinList, KillList};
use std::alloc::Global;

// The line of the places and their heaps.
pub(crate) fn sizes(line: &[u8]) -> Option<(u8, u32)>
    ensures { result ≡ all_read (sizes_at (pieces 32 line.now)) }
{
    let (first, mut words) = split_words(line);
    if first != b"places".as_slice() {
        return None;
    }
    let places = count_field(&mut words, 16)?;
    if !keyword(&mut words, b"heap") {
        return None;
    }
    let heap = count_field(&mut words, 4096)?;
    if words.is_empty() {
        match u8::try_from(places) {
            Ok(places) => Some((places, heap)),
            Err(_) => None,
        }
    } else {
        None
    }
}

// The line of the kills.
pub(crate) fn read_kills(alloc: Global, line: &[u8]) -> Result<Option<KillList>, NoMemory>
    ensures { IfOk result (λ kills. kills ≡ kills_line_of (pieces 32 line.now)) }
{
    let (first, mut words) = split_words(line);
    if first != b"kills".as_slice() {
        return Ok(None);
    }
    let mut kills = KillList::open(alloc);
    'kills: while let Some(word) = words.next() {
        let Some(kill) = kill(word) else {
            return Ok(None);
        };
        if kill.place.0 == 0 || !follows(&kills, kill) {
            return Ok(None);
        }
        kills.push(kill)?;
    }
    Ok(Some(kills))
}

// Whether a kill comes after those of a list and names none of their places.
fn follows(kills: &KillList, kill: Kill) -> bool
    ensures follows { result ≡ may_follow kills.now kill }
{
    for i in 0..kills.len() {
        if !comes_after(kills.item(i), kill) {
            return false;
        }
    }
    true
}

// Whether the second kill comes after the first, and has another place.
fn comes_after(first: Kill, second: Kill) -> bool
    ensures { result ≡ (is_before first second && not (first.place.0 == second.place.0)) }
{
    (first.moment < second.moment
        || (first.moment == second.moment && first.place.0 < second.place.0))
        && first.place.0 != second.place.0
}

// The line of the joins, where so many places and these kills were told before.
pub(crate) fn read_joins(
    alloc: Global,
    line: &[u8],
    places: u8,
    kills: &KillList,
) -> Result<Option<JoinList>, NoMemory>
    requires { places ≤ 16 }
    ensures { IfOk result (λ joins. joins ≡ joins_line_of places kills.now (pieces 32 line.now)) }
{
    let (first, mut words) = split_words(line);
    if first != b"joins".as_slice() {
        return Ok(None);
    }
    let Some(joins) = moments(alloc, &mut words)? else {
        return Ok(None);
    };
    if joins.len() > usize::from(16 - places) || !all_there(places, &joins, kills) {
        return Ok(None);
    }
    Ok(Some(joins))
}

// The moments that follow, none below the one before it.
fn moments(alloc: Global, words: &mut Words<'_>) -> Result<Option<JoinList>, NoMemory>
    ensures moments { IfOk result (λ joins. joins ≡ joins_of 0 words.old) }
{
    let mut joins = JoinList::open(alloc);
    let mut low = 0;
    'joins: while let Some(word) = words.next() {
        let Some(moment) = below(word, 1_000_001) else {
            return Ok(None);
        };
        if moment < low {
            return Ok(None);
        }
        joins.push(moment)?;
        low = moment;
    }
    Ok(Some(joins))
}

// Whether the place of each kill is there at its moment.
fn all_there(places: u8, joins: &JoinList, kills: &KillList) -> bool
    ensures there { result ≡ all_there places joins.now kills.now }
{
    for i in 0..kills.len() {
        if !is_there(places, joins, kills.item(i)) {
            return false;
        }
    }
    true
}

// Whether the place of a kill is there at its moment: it was there at the opening, or has joined.
fn is_there(places: u8, joins: &JoinList, kill: Kill) -> bool
    ensures { result ≡ is_there places joins.now kill }
{
    if kill.place.0 < places {
        return true;
    }
    let i = usize::from(kill.place.0 - places);
    i < joins.len() && joins.item(i) <= kill.moment
}
