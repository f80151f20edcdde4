// The order of two paths.
ghost use Rattle.std.specs.Prelude.{◌≡◌, ◌<◌, ◌+◌, drop, length};
ghost use Rattle.rx_rules.specs.Code.{Stmt as Tree, Block};
ghost use Rattle.rx_rules.specs.Order.{comes_before, before_inside};
ghost use Rattle.rx_syntax.specs.Shape.{Shape, Stands, StmtIs, BlockStands};
ghost use Rattle.rx_order.specs.Inside.Parts.{WalkGoes, is_ordered};

use crate::kept::is_kept;
use crate::parts::{Walk, number_at, part_of, stmt_at};
use rx_base::Path;
use rx_check::Program;
use rx_syntax::{BlockId, Script, Stmt, whole};

/// Whether the statement instance that x names is before the one that y names. Any paths may be passed: where the program has no
/// statement at a position that is looked at, the answer is false. The time is linear in the two paths, and no memory is taken.
pub fn before(p: &Program, x: &Path, y: &Path) -> bool
    ensures { (t : Block) → Stands p.now.script t → result ≡ comes_before t x.now y.now }
{
    let mut left = [0; 7];
    let mut right = [0; 7];
    is_before(p, x.numbers(&mut left), y.numbers(&mut right))
}

// The same of their numbers.
fn is_before(p: &Program, x: &[u32], y: &[u32]) -> bool
    ensures { (t : Block) → Stands p.now.script t → result ≡ comes_before t x.now y.now }
{
    let script = p.script();
    whole(script);
    let mut block = script.top();
    let mut at = 0;
    while at < x.len() {
        match step(script, block, x, y, at) {
            Walk::Over(answer) => return answer,
            Walk::On(part) => {
                block = part.block;
                at = part.at;
            }
        }
    }
    false
}

// One statement along both paths, or where they part.
fn step(script: &Script, block: BlockId, x: &[u32], y: &[u32], at: usize) -> Walk
    requires block { (b : Block) × BlockStands script.now block b }
    requires at { at < length x.now }
    ensures { (b : Block) → BlockStands script.now block b → WalkGoes script.now (at + 1) result (comes_before b (drop at x.now)
        (drop at y.now)) (λ c k. comes_before c (drop k x.now) (drop k y.now)) }
{
    if at >= y.len() {
        return Walk::Over(false);
    }
    let i = number_at(x, at);
    let j = number_at(y, at);
    if i == j {
        match stmt_at(script, block, i) {
            None => Walk::Over(false),
            Some(stmt) => inside(script, stmt, x, y, at + 1),
        }
    } else if i < j {
        Walk::Over(is_kept(script, block, x, at))
    } else {
        Walk::Over(false)
    }
}

// From inside a statement on, along which both go.
fn inside(script: &Script, stmt: Stmt, x: &[u32], y: &[u32], at: usize) -> Walk
    requires { (t : Tree) × StmtIs script.now stmt t }
    ensures { (t : Tree) → StmtIs script.now stmt t → WalkGoes script.now at result (before_inside t (drop at x.now) (drop at y.now))
        (λ c k. comes_before c (drop k x.now) (drop k y.now)) }
{
    match part_of(stmt, x, at) {
        None => Walk::Over(false),
        Some(own) => match part_of(stmt, y, at) {
            None => Walk::Over(false),
            Some(other) => {
                if own.number == other.number {
                    Walk::On(own)
                } else if own.number < other.number && is_ordered(stmt) {
                    Walk::Over(is_kept(script, own.block, x, own.at))
                } else {
                    Walk::Over(false)
                }
            }
        },
    }
}

// Whether the parts of a statement are in order.
fn is_ordered(stmt: Stmt) -> bool
    ensures { (s : Shape) (t : Tree) → StmtIs s stmt t → result ≡ is_ordered t }
{
    match stmt {
        Stmt::If { .. } => false,
        Stmt::Async { .. } => true,
        Stmt::AtAsync { .. } => true,
        Stmt::At { .. } => true,
        Stmt::Finish { .. } => true,
        Stmt::Repeat { .. } => true,
        Stmt::Try { .. } => true,
        Stmt::Set { .. } => true,
        Stmt::New { .. } => true,
        Stmt::Get { .. } => true,
        Stmt::Put { .. } => true,
        Stmt::Forget { .. } => true,
        Stmt::Census { .. } => true,
        Stmt::Print { .. } => true,
        Stmt::Throw { .. } => true,
    }
}
