// The records of the scopes that stand, by number.
ghost use Rattle.std.specs.Prelude.{◌≡◌, ◌+◌, ◌<◌, ◌≤◌, ◌^◌, ◌++◌, ◌∷◌, [], length, None, Some, option_map, box_value, slice_index_or};
ghost use Rattle.std.specs.Prelude.{cond, MatchOption, IfSome, OnOk, IfErr, true, false};
ghost use Rattle.rx_rules.specs.Tree.{Tree};
ghost use Rattle.rx_counts.specs.Keeping.{keeper, stands_home};
ghost use Rattle.rx_counts.specs.Stands.{record_at, more, less, masking, in_sums, count_in, MayJoin, MayLeave};
ghost use Rattle.rx_counts.specs.Stands.{Changed, ChangedBy, Pairs, Loses};
ghost use Rattle.rx_counts.specs.Stands.{IsShaped, Pushed, with_body, ends_if};

use crate::pages::Pages;
use crate::places::lives;
use crate::record::Record;
use rx_base::{Faults, PlaceId, ScopeId};
use rx_finish::LedgerFault;
use rx_rules::Where;
use std::alloc::Global;

/// The record of a number.
pub fn look(scopes: &Pages, s: ScopeId) -> Option<&Record>
    ensures { MatchOption result (record_at scopes.now s.0 ≡ None) (λ r. record_at scopes.now s.0 ≡ Some r.now) }
{
    scopes.get(s.0 as usize)
}

fn join_in(entry: &mut Option<Box<Record>>, place: Where)
    requires { IfSome (option_map box_value entry.old) (λ r. MayJoin place r.sums) }
    ensures { option_map box_value entry.new ≡ option_map (in_sums (more place)) (option_map box_value entry.old) }
{
    if let Some(kept) = entry {
        kept.sums.join(place);
    }
}

fn leave_in(entry: &mut Option<Box<Record>>, place: Where)
    requires { IfSome (option_map box_value entry.old) (λ r. MayLeave place r.sums) }
    ensures { option_map box_value entry.new ≡ option_map (in_sums (less place)) (option_map box_value entry.old) }
{
    if let Some(kept) = entry {
        kept.sums.leave(place);
    }
}

/// One task more at a place or on a way, in the record of a scope.
pub fn join(scopes: &mut Pages, s: ScopeId, place: Where)
    requires { (s.0 < length scopes.old) × IfSome (record_at scopes.old s.0) (λ r. MayJoin place r.sums) }
    ensures { Changed (in_sums (more place)) s.0 scopes.old scopes.new }
{
    if let Some(entry) = scopes.get_mut(s.0 as usize) {
        join_in(entry, place);
    }
}

/// One task less at a place or on a way, in the record of a scope.
pub fn leave(scopes: &mut Pages, s: ScopeId, place: Where)
    requires { (s.0 < length scopes.old) × IfSome (record_at scopes.old s.0) (λ r. MayLeave place r.sums) }
    ensures { Changed (in_sums (less place)) s.0 scopes.old scopes.new }
{
    if let Some(entry) = scopes.get_mut(s.0 as usize) {
        leave_in(entry, place);
    }
}

fn mask_in(entry: &mut Option<Box<Record>>, many: usize)
    ensures { option_map box_value entry.new ≡ option_map (in_sums (masking many)) (option_map box_value entry.old) }
{
    if let Some(kept) = entry {
        kept.sums.mask(many);
    }
}

/// So many faults more that nobody is told, in the record of a scope.
pub fn mask(scopes: &mut Pages, s: ScopeId, many: usize)
    requires { s.0 < length scopes.old }
    ensures { Changed (in_sums (masking many)) s.0 scopes.old scopes.new }
{
    if let Some(entry) = scopes.get_mut(s.0 as usize) {
        mask_in(entry, many);
    }
}

fn bear_in(entry: &mut Option<Box<Record>>, is_lost: bool, place: Where, to: PlaceId)
    requires { (to.0 < 16) × IfSome (option_map box_value entry.old) (λ r. MayJoin place r.sums) }
    ensures lost { is_lost ≡ true → Pairs (Loses to) (option_map box_value entry.old) (option_map box_value entry.new) }
    ensures joins { is_lost ≡ false → option_map box_value entry.new ≡ option_map (in_sums (more place)) (option_map box_value entry.old) }
{
    if let Some(kept) = entry {
        kept.sums.bear(is_lost, place, to);
    }
}

/// A task is born that counts in the record of a scope: for a dead place, or else where it is.
pub fn bear(scopes: &mut Pages, s: ScopeId, is_lost: bool, place: Where, to: PlaceId)
    requires { (s.0 < length scopes.old) × (to.0 < 16) × IfSome (record_at scopes.old s.0) (λ r. MayJoin place r.sums) }
    ensures lost { is_lost ≡ true → ChangedBy (Loses to) s.0 scopes.old scopes.new }
    ensures joins { is_lost ≡ false → Changed (in_sums (more place)) s.0 scopes.old scopes.new }
{
    if let Some(entry) = scopes.get_mut(s.0 as usize) {
        bear_in(entry, is_lost, place, to);
    }
}

fn note_body_in(entry: &mut Option<Box<Record>>, thrown: Faults)
    ensures { option_map box_value entry.new ≡ option_map (with_body thrown) (option_map box_value entry.old) }
{
    if let Some(kept) = entry {
        kept.body = thrown;
    }
}

/// Notes the faults of the body of a scope.
pub fn note_body(scopes: &mut Pages, s: ScopeId, thrown: Faults)
    requires { s.0 < length scopes.old }
    ensures { Changed (with_body thrown) s.0 scopes.old scopes.new }
{
    if let Some(entry) = scopes.get_mut(s.0 as usize) {
        note_body_in(entry, thrown);
    }
}

fn note_ends_in(entry: &mut Option<Box<Record>>, keeps: bool, thrown: Faults) -> Result<(), Faults>
    ensures noted { OnOk result (option_map box_value entry.new ≡ option_map (ends_if keeps thrown) (option_map box_value entry.old)) }
    ensures refused { IfErr result (λ back. (back ≡ thrown) × (option_map box_value entry.new ≡ option_map box_value entry.old)) }
{
    if !keeps {
        return Ok(());
    }
    if let Some(kept) = entry {
        return kept.ends.append(thrown);
    }
    Ok(())
}

/// Adds faults to those of the tasks that ended under a scope, where it keeps them, and else drops them.
pub fn note_ends(scopes: &mut Pages, s: ScopeId, keeps: bool, thrown: Faults) -> Result<(), Faults>
    requires { s.0 < length scopes.old }
    ensures noted { OnOk result (Changed (ends_if keeps thrown) s.0 scopes.old scopes.new) }
    ensures refused { IfErr result (λ back. (back ≡ thrown) × Changed (λ r. r) s.0 scopes.old scopes.new) }
{
    match scopes.get_mut(s.0 as usize) {
        Some(entry) => note_ends_in(entry, keeps, thrown),
        None => Ok(()),
    }
}

/// How many faults are dropped where they end under a scope, which keeps them or does not.
pub fn dropped_by(keeps: bool, thrown: &Faults) -> usize
    ensures { result ≡ cond keeps 0 (length thrown.now) }
{
    if keeps { 0 } else { thrown.len() }
}

/// The first scope from s along parents with a living home.
pub fn keeper_of(scopes: &Pages, dead: &[Option<u32>], s: ScopeId) -> Option<ScopeId>
    ensures { (T : Tree) → IsShaped T scopes.now → option_map (λ k. k.0) result ≡ keeper (stands_home dead.now) T.scopes (Some s) }
{
    let mut at = s;
    'walk: loop {
        match look(scopes, at) {
            None => return None,
            Some(kept) => {
                if lives(dead, kept.home) {
                    return Some(at);
                }
                match kept.parent {
                    None => return None,
                    Some(parent) => {
                        if parent.0 >= at.0 {
                            return None;
                        }
                        at = parent;
                    }
                }
            }
        }
    }
}

/// The nearest finish from a scope along parents.
pub fn finish_of(scopes: &Pages, s: ScopeId) -> ScopeId
    ensures { IfSome (record_at scopes.now s.0) (λ r. result ≡ r.finish) }
{
    match look(scopes, s) {
        Some(kept) => kept.finish,
        None => ScopeId(0),
    }
}

/// Adds a record.
pub fn push(scopes: &mut Pages, kept: Record, alloc: Global) -> Result<(), LedgerFault>
    ensures pushed { OnOk result (Pushed kept scopes.old scopes.new) }
    ensures refused { IfErr result (λ f. (f ≡ LedgerFault.NoMemory) × (scopes.new ≡ scopes.old)) }
{
    let boxed = match Box::new(alloc, kept) {
        Ok(boxed) => boxed,
        Err(_) => return Err(LedgerFault::NoMemory),
    };
    match scopes.push(boxed, alloc) {
        Ok(_) => Ok(()),
        Err(_) => Err(LedgerFault::NoMemory),
    }
}

/// How many tasks the record of a scope counts at a place or on a way.
pub fn count_at(scopes: &Pages, s: ScopeId, place: Where) -> u32
    ensures { IfSome (record_at scopes.now s.0) (λ r. result ≡ count_in r.sums place) }
{
    match look(scopes, s) {
        Some(kept) => kept.sums.count(place),
        None => 0,
    }
}
