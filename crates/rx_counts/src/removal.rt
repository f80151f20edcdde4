// What a release takes out of the records.
ghost use Rattle.std.specs.Prelude.{◌≡◌, ◌<◌, ◌+◌, ◌==◌, ◌||◌, ◌&&◌, ◌%◌, ℕ, cond, length, None, Some, is_some};
ghost use Rattle.rx_rules.specs.Tree.{Tree};
ghost use Rattle.rx_tree_laws.specs.Chains.{meets};
ghost use Rattle.rx_counts.specs.Stands.{record_at};
ghost use Rattle.rx_counts.specs.Inside.Freeing.{Hides, ScopesBelow, parent_gone};

use crate::cells::Cells;
use crate::pages::Pages;
use rx_base::{PlaceId, ScopeId};

/// Whether a number is that of the scope, or its scope stands and the parent of that does not.
fn is_below(scopes: &Pages, i: usize, s: ScopeId) -> bool
    ensures { result ≡ ((i == s.0) || parent_gone scopes.now (record_at scopes.now i)) }
{
    if i == s.0 as usize {
        return true;
    }
    match scopes.get(i) {
        Some(kept) => match kept.parent {
            Some(parent) => !stands(scopes, parent),
            None => false,
        },
        None => false,
    }
}

fn stands(scopes: &Pages, s: ScopeId) -> bool
    ensures { result ≡ is_some (record_at scopes.now s.0) }
{
    scopes.get(s.0 as usize).is_some()
}

/// Removes the record of a number, where it goes, and answers how many went.
fn drop_if(scopes: &mut Pages, i: usize, goes: bool) -> usize
    requires { i < length scopes.old }
    ensures len { length scopes.new ≡ length scopes.old }
    ensures goes { (n : ℕ) → record_at scopes.new n ≡ cond (goes && (n == i)) None (record_at scopes.old n) }
    ensures many { result ≡ cond goes 1 0 }
{
    if goes {
        scopes.clear(i);
        1
    } else {
        0
    }
}

/// Where the tasks of a cell are or go, in the table of so many places: the place of its column.
fn place_of_cell(places: u8, cell: usize) -> PlaceId
    requires { 0 < places }
    ensures { result.0 ≡ cell % places }
{
    PlaceId((cell % places as usize) as u8)
}

/// The place of a count above 0.
pub fn hindrance(counts: &Cells, places: u8) -> PlaceId
    requires { 0 < length counts.now → 0 < places }
    ensures { Hides places counts.now result }
{
    for cell in 0..counts.len() {
        if counts.at(cell) > 0 {
            return place_of_cell(places, cell);
        }
    }
    PlaceId(0)
}

/// Removes the record of a scope and those of the scopes below it, which are as many as it has adopted. A scope goes where its parent
/// went, and who is older stays; so the numbers are visited upward from the scope's own, until as many have gone.
pub fn remove(scopes: &mut Pages, s: ScopeId, orphans: u32)
    requires { s.0 < length scopes.old }
    ensures len { length scopes.new ≡ length scopes.old }
    ensures taken { (T : Tree) → ScopesBelow T s orphans scopes.old → (u : ScopeId) →
        record_at scopes.new u.0 ≡ cond (meets s T.scopes (Some u)) None (record_at scopes.old u.0) }
{
    let mut left = orphans as usize + 1;
    for i in s.0 as usize..scopes.len() {
        if left == 0 {
            return;
        }
        let goes = is_below(scopes, i, s);
        left -= drop_if(scopes, i, goes);
    }
}
