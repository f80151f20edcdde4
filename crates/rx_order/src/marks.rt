// What each number of a path stands for.
ghost use Rattle.std.specs.Prelude.{◌≡◌, ◌++◌, [], ◌∷◌, drop, IfOk, MatchOption, option_to_list};
ghost use Rattle.rx_rules.specs.Code.{Stmt as Tree, Block};
ghost use Rattle.rx_syntax.specs.Shape.{Shape, Stands, StmtIs};
ghost use Rattle.rx_order.specs.Marks.{mark_of, marks_of};
ghost use Rattle.rx_order.specs.Inside.Parts.{part_mark};

use crate::parts::{number_at, part_of, stmt_at};
use rx_base::NoMemory;
use rx_check::Program;
use rx_syntax::{Stmt, whole};

/// What a number of a path stands for, as far as the order of statements asks.
#[derive(Clone, Copy, Debug, PartialEq, Eq)]
pub enum Role {
    /// The position of an `async` or an `at e async`: what follows it in its block does not wait for it.
    Starts,
    /// The position of a `finish`: what follows it waits for all inside it.
    Waits,
    /// The position of another statement, a turn of a `repeat`, or the body of a `try`: the next position, the next turn
    /// or the handler follows it.
    Follows,
    /// A branch of an `if`, or the handler of a `try`: nothing beside it follows it.
    Branches,
}

/// Makes `marks` the list of what each number of the path stands for. For a path of the program there is one mark for each
/// number. For any other path the list ends where the program has no statement. A refusal leaves any list.
pub fn mark_numbers(p: &Program, x: &[u32], marks: &mut Vec<Role>) -> Result<(), NoMemory>
    ensures { (t : Block) → Stands p.now.script t → IfOk result (λ _. marks.new.items ≡ marks_of t x.now) }
{
    let script = p.script();
    whole(script);
    marks.clear();
    let mut block = script.top();
    let mut at = 0;
    while at < x.len() {
        let Some(stmt) = stmt_at(script, block, number_at(x, at)) else {
            return Ok(());
        };
        marks.push(position_mark(stmt))?;
        let Some(part) = part_of(stmt, x, at + 1) else {
            return Ok(());
        };
        if let Some(mark) = part_mark(stmt, part.number) {
            marks.push(mark)?;
        }
        block = part.block;
        at = part.at;
    }
    Ok(())
}

// What the position of a statement stands for.
fn position_mark(stmt: Stmt) -> Role
    ensures { (s : Shape) (t : Tree) → StmtIs s stmt t → result ≡ mark_of t }
{
    match stmt {
        Stmt::Async { .. } => Role::Starts,
        Stmt::AtAsync { .. } => Role::Starts,
        Stmt::Finish { .. } => Role::Waits,
        Stmt::At { .. } => Role::Follows,
        Stmt::If { .. } => Role::Follows,
        Stmt::Repeat { .. } => Role::Follows,
        Stmt::Try { .. } => Role::Follows,
        Stmt::Set { .. } => Role::Follows,
        Stmt::New { .. } => Role::Follows,
        Stmt::Get { .. } => Role::Follows,
        Stmt::Put { .. } => Role::Follows,
        Stmt::Forget { .. } => Role::Follows,
        Stmt::Census { .. } => Role::Follows,
        Stmt::Print { .. } => Role::Follows,
        Stmt::Throw { .. } => Role::Follows,
    }
}

// What the number of a part stands for, where one tells it.
fn part_mark(stmt: Stmt, number: u32) -> Option<Role>
    ensures { (s : Shape) (t : Tree) → StmtIs s stmt t → result ≡ part_mark t number }
{
    match stmt {
        Stmt::If { .. } => Some(Role::Branches),
        Stmt::Repeat { .. } => Some(Role::Follows),
        Stmt::Try { .. } => {
            if number == 0 {
                Some(Role::Follows)
            } else {
                Some(Role::Branches)
            }
        }
        Stmt::Async { .. } => None,
        Stmt::AtAsync { .. } => None,
        Stmt::At { .. } => None,
        Stmt::Finish { .. } => None,
        Stmt::Set { .. } => None,
        Stmt::New { .. } => None,
        Stmt::Get { .. } => None,
        Stmt::Put { .. } => None,
        Stmt::Forget { .. } => None,
        Stmt::Census { .. } => None,
        Stmt::Print { .. } => None,
        Stmt::Throw { .. } => None,
    }
}
