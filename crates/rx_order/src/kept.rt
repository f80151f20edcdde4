// Whether each `async` along a path has a `finish` before it.
ghost use Rattle.std.specs.Prelude.{◌≡◌, ◌<◌, ℕ, List, MatchOption, drop, length};
ghost use Rattle.rx_rules.specs.Code.{Stmt as Tree, Block};
ghost use Rattle.rx_rules.specs.Order.{is_kept, is_kept_in};
ghost use Rattle.rx_syntax.specs.Shape.{Shape, StmtIs, BlockStands};
ghost use Rattle.rx_order.specs.Inside.Parts.{is_kept_along, WalkGoes, IsOpen};

use crate::parts::{Walk, number_at, part_of, stmt_at};
use rx_syntax::{BlockId, Script, Stmt};

/// Whether each `async` along the path has a `finish` before it, from the statement on whose position in the block is the number of
/// the path at `first`. It is false where the block has no such statement.
pub(crate) fn is_kept(script: &Script, top: BlockId, x: &[u32], first: usize) -> bool
    requires { (b : Block) × BlockStands script.now top b }
    ensures { (b : Block) → BlockStands script.now top b → result ≡ is_kept_along b (drop first x.now) }
{
    let mut block = top;
    let mut at = first;
    while at < x.len() {
        match step(script, block, number_at(x, at), x, at + 1) {
            Walk::Over(kept) => return kept,
            Walk::On(part) => {
                block = part.block;
                at = part.at;
            }
        }
    }
    false
}

// From the statement at a position on. The path goes on at `at`.
fn step(script: &Script, block: BlockId, i: u32, x: &[u32], at: usize) -> Walk
    requires { (b : Block) × BlockStands script.now block b }
    ensures { (b : Block) → BlockStands script.now block b → WalkGoes script.now at result (is_kept_in b i (drop at x.now))
        (λ c k. is_kept_along c (drop k x.now)) }
{
    match stmt_at(script, block, i) {
        None => Walk::Over(false),
        Some(stmt) => from(stmt, x, at),
    }
}

// From a statement on.
fn from(stmt: Stmt, x: &[u32], at: usize) -> Walk
    ensures { (s : Shape) (t : Tree) → StmtIs s stmt t → WalkGoes s at result (is_kept t (drop at x.now))
        (λ c k. is_kept_along c (drop k x.now)) }
{
    match kept_by(stmt) {
        Some(kept) => Walk::Over(kept),
        None => {
            if at < x.len() {
                inside(stmt, x, at)
            } else {
                Walk::Over(true)
            }
        }
    }
}

// From inside a statement on.
fn inside(stmt: Stmt, x: &[u32], at: usize) -> Walk
    requires { at < length x.now }
    ensures { (s : Shape) (t : Tree) → StmtIs s stmt t → IsOpen t
        → WalkGoes s at result (is_kept t (drop at x.now)) (λ c k. is_kept_along c (drop k x.now)) }
{
    match part_of(stmt, x, at) {
        None => Walk::Over(false),
        Some(part) => Walk::On(part),
    }
}

// Whether paths are kept from the statement on, where the statement alone decides it.
fn kept_by(stmt: Stmt) -> Option<bool>
    ensures { (s : Shape) (t : Tree) → StmtIs s stmt t → MatchOption result (IsOpen t) (λ kept. (x : List ℕ) → is_kept t x ≡ kept) }
{
    match stmt {
        Stmt::Async { .. } => Some(false),
        Stmt::AtAsync { .. } => Some(false),
        Stmt::Finish { .. } => Some(true),
        Stmt::At { .. } => None,
        Stmt::If { .. } => None,
        Stmt::Repeat { .. } => None,
        Stmt::Try { .. } => None,
        Stmt::Set { .. } => Some(true),
        Stmt::New { .. } => Some(true),
        Stmt::Get { .. } => Some(true),
        Stmt::Put { .. } => Some(true),
        Stmt::Forget { .. } => Some(true),
        Stmt::Census { .. } => Some(true),
        Stmt::Print { .. } => Some(true),
        Stmt::Throw { .. } => Some(true),
    }
}
