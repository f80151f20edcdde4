// What a release takes out of the rows of a tree.
ghost use Rattle.std.specs.Prelude.{◌≡◌, ◌<◌, ◌+◌, ◌++◌, ◌&&◌, ◌||◌, ℕ, min, not, is_some, Some, filter, length, sum_by, IfOk, OnOk, OnErr};
ghost use Rattle.std.specs.List.{list_any};
ghost use Rattle.rx_base.specs.Sets.{members, all_places, has_bit};
ghost use Rattle.rx_rules.specs.Tree.{is_scope, chain_in};
ghost use Rattle.rx_rules.specs.Entries.{was_lost_at};
ghost use Rattle.rx_tree.specs.Inside.Positions.{ScopesFallIn};
ghost use Rattle.rx_tree.specs.Inside.Removal.{holds_scope};

use crate::lookups::reaches;
use rx_base::{NoMemory, PlaceSet, ScopeId};
use rx_rules::{Scope, Task};
use std::alloc::Global;

/// The scopes whose chains have the scope. A plain body: it goes up the chain of each scope.
pub fn scopes_under(scopes: &[Scope], s: ScopeId, alloc: Global) -> Result<Vec<ScopeId>, NoMemory>
    requires { ScopesFallIn scopes.now }
    ensures { IfOk result (λ inside. (r : ScopeId) → holds_scope inside.items r ≡ list_any (is_scope s) (chain_in scopes.now (Some r))) }
{
    let mut inside = Vec::new(alloc);
    for g in scopes {
        if reaches(scopes, g.number, s) && inside.push(g.number).is_err() {
            return Err(NoMemory);
        }
    }
    Ok(inside)
}

pub fn is_inside(inside: &[ScopeId], r: ScopeId) -> bool
    ensures { result ≡ holds_scope inside.now r }
{
    for s in inside {
        if *s == r {
            return true;
        }
    }
    false
}

/// The places at which tasks under these scopes were lost.
pub fn lost_places(tasks: &[Task], inside: &[ScopeId]) -> PlaceSet
    ensures { members result ≡ filter (λ p. list_any (λ x. holds_scope inside.now x.under && was_lost_at p x) tasks.now) all_places }
{
    let mut lost = PlaceSet(0);
    for x in tasks {
        lost = with_loss(lost, *x, inside);
    }
    lost
}

pub fn with_loss(lost: PlaceSet, x: Task, inside: &[ScopeId]) -> PlaceSet
    ensures { (q : ℕ) → q < 16 → has_bit result.0 q ≡ (has_bit lost.0 q || (holds_scope inside.now x.under && was_lost_at q x)) }
{
    match x.struck {
        Some(blow) => {
            if blow.place.0 < 16 && is_inside(inside, x.under) {
                lost.with(blow.place)
            } else {
                lost
            }
        }
        None => lost,
    }
}

/// How many faults these scopes hold, all but the one that is released; the count stops at the greatest number of 32 bits.
pub fn masked_faults(scopes: &[Scope], inside: &[ScopeId], released: ScopeId) -> u32
    ensures { result ≡ min 4294967295
        (sum_by (λ g. length (g.body ++ g.ends)) (filter (λ g. holds_scope inside.now g.number && not (is_scope released g)) scopes.now)) }
{
    let mut masked = 0;
    for g in scopes {
        if is_inside(inside, g.number) && g.number != released {
            masked = with_faults(masked, g);
        }
    }
    masked
}

pub fn with_faults(masked: u32, g: &Scope) -> u32
    ensures { result ≡ min 4294967295 (masked + length (g.now.body ++ g.now.ends)) }
{
    with_more(with_more(masked, g.body.len()), g.ends.len())
}

pub fn with_more(masked: u32, more: usize) -> u32
    ensures { result ≡ min 4294967295 (masked + more) }
{
    match u32::try_from(more) {
        Ok(more) => masked.saturating_add(more),
        Err(_) => u32::MAX,
    }
}

/// Keeps the struck tasks under these scopes in mind.
pub fn keep_gone(tasks: &[Task], inside: &[ScopeId], gone: &mut Vec<Task>) -> Result<(), NoMemory>
    ensures kept { OnOk result (gone.new.items ≡ gone.old.items ++ filter (λ x. holds_scope inside.now x.under
        && is_some x.struck) tasks.now) }
    ensures refused { OnErr result (gone.new.items ≡ gone.old.items) }
{
    let before = gone.len();
    for x in tasks {
        if is_inside(inside, x.under) && x.struck.is_some() && gone.push(*x).is_err() {
            gone.truncate(before);
            return Err(NoMemory);
        }
    }
    Ok(())
}

pub fn remove_lost(tasks: &mut Vec<Task>, inside: &[ScopeId])
    ensures { tasks.new.items ≡ filter (λ x. not (holds_scope inside.now x.under && is_some x.struck)) tasks.old.items }
{
    tasks.retain(|x| !(is_inside(inside, x.under) && x.struck.is_some()));
}

pub fn remove_scopes(scopes: &mut Vec<Scope>, inside: &[ScopeId])
    ensures { scopes.new.items ≡ filter (λ g. not (holds_scope inside.now g.number)) scopes.old.items }
{
    scopes.retain(|g| !is_inside(inside, g.number));
}
