// A pick list: numbers joined by commas.
ghost use Rattle.std.specs.Prelude.{◌≡◌, ◌≤◌, ◌∷◌, ◌==◌, not, length, Some, IfOk, option_map};
ghost use Rattle.std.specs.List.{prefix_len};
ghost use Rattle.rx_words.specs.Words.{number_of, parts, pick_list_of, not_too_many};
ghost use Rattle.rx_words.specs.Commands.{later, Extends};

use crate::number::number;
use rx_base::NoMemory;
use std::alloc::Global;

// The pick list that a word spells.
pub(crate) fn pick_list(alloc: Global, word: &[u8]) -> Result<Option<Vec<u32>>, NoMemory>
    ensures { IfOk result (λ list. option_map (λ v. v.items) list ≡ pick_list_of word.now) }
{
    let mut list = Vec::new(alloc);
    let (first, after) = cut(word);
    if !extend(&mut list, first)? {
        return Ok(None);
    }
    let mut left = after;
    'parts: while let Some((_comma, more)) = left.split_first() {
        let (part, rest) = cut(more);
        if !extend(&mut list, part)? {
            return Ok(None);
        }
        left = rest;
    }
    Ok(short_enough(list))
}

// How many bytes stand before the first comma.
fn part_len(word: &[u8]) -> usize
    ensures part { result ≡ prefix_len (λ b. not (b == 44)) word.now }
    ensures within { result ≤ length word.now }
{
    word.iter().take_while(|b| **b != b',').count()
}

// What stands before the first comma, and what is left from it on.
#[tactic(auto, using(crate::proofs::Parts::first_part))]
fn cut(word: &[u8]) -> (&[u8], &[u8])
    ensures parts { parts word.now ≡ result.0.now ∷ later result.1.now }
    ensures shorter { length result.1.now ≤ length word.now }
{
    word.split_at(part_len(word))
}

// Adds the number that a part of the list spells, if it spells one.
fn extend(list: &mut Vec<u32>, part: &[u8]) -> Result<bool, NoMemory>
    ensures { IfOk result (λ is_number. Extends is_number (number_of 0 1000000 part.now) list.old.items list.new.items) }
{
    match number(part, 0, 1_000_000) {
        Some(n) => {
            list.push(n)?;
            Ok(true)
        }
        None => Ok(false),
    }
}

// The list, unless it has too many numbers.
fn short_enough(list: Vec<u32>) -> Option<Vec<u32>>
    ensures { option_map (λ v. v.items) result ≡ not_too_many (Some list.items) }
{
    if list.len() <= 100_000 {
        Some(list)
    } else {
        None
    }
}
