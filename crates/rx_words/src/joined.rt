// The joins where all options were read: the first with which there are too many places, and their moments in order.
ghost use Rattle.std.specs.Prelude.{◌≡◌, ◌≤◌, IfOk, map};
ghost use Rattle.rx_words.specs.Words.{bad_join, joined, joins_later};
ghost use Rattle.rx_words.specs.Commands.{moment_in};

use rx_base::{Kill, NoMemory};
use rx_history::JoinList;
use std::alloc::Global;

// The word of the first join with which there are more than 16 places.
#[tactic(auto, using(crate::proofs::Joins::one_too_many, crate::proofs::Joins::few_enough))]
pub(crate) fn first_bad_join(joins: &[(usize, u32)], places: u32) -> Option<usize>
    requires { places ≤ 16 }
    ensures { result ≡ bad_join places joins.now }
{
    let room = (16 - places) as usize;
    if room < joins.len() {
        Some(joins[room].0)
    } else {
        None
    }
}

// The moments in the order of their words.
fn moments(alloc: Global, joins: &[(usize, u32)]) -> Result<Vec<u32>, NoMemory>
    ensures { IfOk result (λ list. list.items ≡ map moment_in joins.now) }
{
    let mut list = Vec::new(alloc);
    for join in joins {
        list.push(join.1)?;
    }
    Ok(list)
}

// The moments of joins, none below the one before it, as a setup has them.
pub(crate) fn joined(alloc: Global, joins: &[(usize, u32)]) -> Result<JoinList, NoMemory>
    ensures { IfOk result (λ list. list ≡ joined joins.now) }
{
    let mut sorted = moments(alloc, joins)?;
    sorted.sort_unstable();
    let mut list = JoinList::open(alloc);
    for moment in &sorted {
        list.push(*moment)?;
    }
    Ok(list)
}

// Whether the place of a kill joins after the kill's moment.
pub(crate) fn joins_later(kill: Kill, places: u32, joins: &JoinList) -> bool
    ensures { result ≡ joins_later kill places joins.now }
{
    let place = u32::from(kill.place.0);
    if place < places {
        return false;
    }
    let i = (place - places) as usize;
    i < joins.len() && kill.moment < joins.item(i)
}
