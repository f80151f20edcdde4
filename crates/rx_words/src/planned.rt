// The setup where all options were read: places join while there is room, the kills are of places that can die, and joins and kills
// stand in their order.
ghost use Rattle.std.specs.Prelude.{◌≡◌, ℕ, [], Some, None, IfOk, IsErrOf, map};
ghost use Rattle.std.specs.List.Sorted.{IsPermutation, IsSortedBy};
ghost use Rattle.rx_rules.specs.Run.{Proper};
ghost use Rattle.rx_history.specs.KillOrder.{is_before};
ghost use Rattle.rx_history.specs.Setups.{given};
ghost use Rattle.rx_base.specs.Lists.{has};
ghost use Rattle.rx_words.specs.Words.{setup_of, is_bad, bad_kill, first_of, first_bad, ordered, told_number};
ghost use Rattle.rx_words.specs.declared.command.WordFault.TheVariants.{Bad};
ghost use Rattle.rx_words.specs.Commands.{IsInRange, wants_of, place_of, kill_in};

use crate::command::{WordFault, bad};
use crate::joined::{first_bad_join, joined, joins_later};
use crate::said::Said;
use rx_base::{Kill, NoMemory};
use rx_history::{JoinList, KillList, Setup};
use std::alloc::Global;

// Whether one of the kills is of this place.
fn names(kills: &[(usize, Kill)], place: u8) -> bool
    ensures { result ≡ has place (map place_of kills.now) }
{
    for planned in kills {
        if place == planned.1.place.0 {
            return true;
        }
    }
    false
}

// Whether a kill is of place 0, of no place that is there or joins, of one that an earlier kill names, or of one that joins later.
fn is_bad(kill: Kill, earlier: &[(usize, Kill)], places: u32, joins: &JoinList) -> bool
    ensures { result ≡ is_bad places joins.now (map place_of earlier.now) kill }
{
    let place = u32::from(kill.place.0);
    if place == 0 || (places <= place && joins.len() <= (place - places) as usize) {
        return true;
    }
    names(earlier, kill.place.0) || joins_later(kill, places, joins)
}

// The word of the first bad kill.
fn first_bad_kill(kills: &[(usize, Kill)], places: u32, joins: &JoinList) -> Option<usize>
    ensures { result ≡ bad_kill places joins.now [] kills.now }
{
    for i in 0..kills.len() {
        if is_bad(kills[i].1, &kills[..i], places, joins) {
            return Some(kills[i].0);
        }
    }
    None
}

// The first of two words.
fn first_of(one: Option<usize>, other: Option<usize>) -> Option<usize>
    ensures { result ≡ first_of one other }
{
    match (one, other) {
        (Some(a), Some(b)) => Some(a.min(b)),
        (Some(a), None) => Some(a),
        (None, other) => other,
    }
}

// The kills in the order of their words.
fn named(alloc: Global, kills: &[(usize, Kill)]) -> Result<Vec<Kill>, NoMemory>
    ensures { IfOk result (λ list. list.items ≡ map kill_in kills.now) }
{
    let mut list = Vec::new(alloc);
    for planned in kills {
        list.push(planned.1)?;
    }
    Ok(list)
}

// Sorts kills by their moments, and by their places at one moment.
fn sort(list: &mut Vec<Kill>)
    ensures same { IsPermutation list.old.items list.new.items }
    ensures sorted { IsSortedBy is_before list.new.items }
{
    list.sort_unstable_by_key(|kill| (kill.moment, kill.place.0));
}

// The kills in ascending order, as a setup has them.
fn planned(
    alloc: Global,
    kills: &[(usize, Kill)],
    places: u32,
    joins: &JoinList,
) -> Result<KillList, NoMemory>
    requires { bad_kill places joins.now [] kills.now ≡ None }
    ensures { IfOk result (λ list. list ≡ ordered kills.now) }
{
    let mut sorted = named(alloc, kills)?;
    sort(&mut sorted);
    let mut list = KillList::open(alloc);
    for planned in &sorted {
        list.push(*planned)?;
    }
    Ok(list)
}

// The setup that options have said.
pub(crate) fn setup(alloc: Global, said: &Said) -> Result<Setup, WordFault>
    requires { IsInRange said.now }
    ensures ok { IfOk result (λ s. (given s ≡ setup_of (wants_of said.now)) × Proper (given s)) }
    ensures none { IfOk result (λ _. first_bad (wants_of said.now) ≡ None) }
    ensures bad { (word : ℕ) → IsErrOf result (Bad word) → (k : ℕ) × (first_bad (wants_of said.now) ≡ Some k) × (word ≡ told_number k) }
{
    let places = said.places.unwrap_or(2);
    let heap = said.heap.unwrap_or(256);
    let joins = joined(alloc, &said.joins)?;
    let bad_join = first_bad_join(&said.joins, places);
    let bad_kill = first_bad_kill(&said.kills, places, &joins);
    if let Some(k) = first_of(bad_join, bad_kill) {
        return Err(bad(k));
    }
    let kills = planned(alloc, &said.kills, places, &joins)?;
    Ok(Setup {
        places: places as u8,
        heap,
        kills,
        joins,
    })
}
