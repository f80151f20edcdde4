// Where a path goes on inside a statement.
ghost use Rattle.std.specs.Prelude.{◌≡◌, ◌+◌, ◌<◌, MatchOption, Some, drop, length, slice_get};
ghost use Rattle.rx_rules.specs.Code.{Stmt as Tree, Block};
ghost use Rattle.rx_syntax.specs.Shape.{Shape, StmtIs, BlockStands};
ghost use Rattle.rx_order.specs.Inside.Parts.{item_of, turn_in, one_in, part_in, numbers_of, IsPart};

use rx_syntax::{BlockId, Script, Stmt};

/// The part of a statement into which a path goes: its number, 0 where there is one alone, its block, and where in the path the
/// position in this block stands.
#[derive(Clone, Copy)]
pub(crate) struct Part {
    pub(crate) number: u32,
    pub(crate) block: BlockId,
    pub(crate) at: usize,
}

/// How a walk along a path goes on.
pub(crate) enum Walk {
    Over(bool),
    On(Part),
}

/// The number of a path at a position.
pub(crate) fn number_at(path: &[u32], at: usize) -> u32
    requires { at < length path.now }
    ensures { slice_get path.now at ≡ Some result }
{
    path[at]
}

/// The statement at a position of a block.
pub(crate) fn stmt_at(script: &Script, block: BlockId, i: u32) -> Option<Stmt>
    requires { (b : Block) × BlockStands script.now block b }
    ensures { (b : Block) → BlockStands script.now block b → MatchOption result (item_of b i ≡ None)
        (λ stmt. (t : Tree) × StmtIs script.now stmt t × (item_of b i ≡ Some t)) }
{
    if i < script.block_len(block) {
        Some(script.stmt(script.block_item(block, i)))
    } else {
        None
    }
}

// A turn of a block. A position stands after its number.
fn turn_of(block: BlockId, path: &[u32], at: usize) -> Option<Part>
    ensures { (s : Shape) (body : Block) → BlockStands s block body → IsPart s path.now (at + 1) result (turn_in body (drop at path.now)) }
{
    if at < path.len().saturating_sub(1) {
        Some(Part {
            number: number_at(path, at),
            block,
            at: at + 1,
        })
    } else {
        None
    }
}

// One of two blocks, by its number.
fn one_of(zero: BlockId, one: BlockId, path: &[u32], at: usize) -> Option<Part>
    ensures { (s : Shape) (first other : Block) → BlockStands s zero first → BlockStands s one other
        → IsPart s path.now (at + 1) result (one_in first other (drop at path.now)) }
{
    match turn_of(zero, path, at) {
        None => None,
        Some(part) => {
            if part.number == 0 {
                Some(part)
            } else if part.number == 1 {
                Some(Part {
                    number: 1,
                    block: one,
                    at: part.at,
                })
            } else {
                None
            }
        }
    }
}

/// Where the path goes on inside the statement, if it does.
pub(crate) fn part_of(stmt: Stmt, path: &[u32], at: usize) -> Option<Part>
    ensures { (s : Shape) (t : Tree) → StmtIs s stmt t → IsPart s path.now (at + numbers_of t) result (part_in t (drop at path.now)) }
{
    match stmt {
        Stmt::Async { body } => Some(Part {
            number: 0,
            block: body,
            at,
        }),
        Stmt::AtAsync { body, .. } => Some(Part {
            number: 0,
            block: body,
            at,
        }),
        Stmt::At { body, .. } => Some(Part {
            number: 0,
            block: body,
            at,
        }),
        Stmt::Finish { body } => Some(Part {
            number: 0,
            block: body,
            at,
        }),
        Stmt::If { first, other, .. } => one_of(first, other, path, at),
        Stmt::Repeat { body, .. } => turn_of(body, path, at),
        Stmt::Try { body, handler, .. } => one_of(body, handler, path, at),
        Stmt::Set { .. } => None,
        Stmt::New { .. } => None,
        Stmt::Get { .. } => None,
        Stmt::Put { .. } => None,
        Stmt::Forget { .. } => None,
        Stmt::Census { .. } => None,
        Stmt::Print { .. } => None,
        Stmt::Throw { .. } => None,
    }
}
