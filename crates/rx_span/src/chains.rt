// Kept chains, one for each number of a path.
ghost use Rattle.std.specs.Prelude.{◌≡◌, ◌≤◌, ◌+◌, Bool, List, ◌∷◌, drop, length, IfOk};
ghost use Rattle.rx_order.specs.declared.marks.Role.{Role as Marking};
ghost use Rattle.rx_span.specs.Inside.Kept.{none, better_kept, kept_from, leads, follow, past, IsLaid};

use crate::Steps;
use rx_base::NoMemory;
use rx_order::Role;
use std::sync::ledger::Ledger;

/// A chain that begins with one of the statements passed so far: how many statements it has, and the number of its first. The empty
/// chain has the length 0, and its first statement is not read.
#[derive(Clone, Copy, Debug, PartialEq, Eq)]
pub(crate) struct Kept {
    pub(crate) length: u32,
    pub(crate) head: u32,
}

/// What the rows of a path tell.
#[derive(Clone, Copy)]
pub(crate) struct Looked {
    /// The chain that goes on from the statement.
    pub(crate) follows: Kept,
    /// The best chain of those in the rows from a number on, and inside the statement.
    pub(crate) passed: Kept,
}

impl Kept {
    /// The empty chain.
    pub(crate) fn none() -> Kept
        ensures { result ≡ none }
    {
        Kept { length: 0, head: 0 }
    }
}

/// The longer chain, and of two that are as long the inner one, whose first statement comes first.
pub(crate) fn better(inner: Kept, outer: Kept) -> Kept
    ensures { result ≡ better_kept inner outer }
{
    if inner.length < outer.length {
        outer
    } else {
        inner
    }
}

// Whether what is at a greater number in the place of this one follows, where `kept` tells it of the numbers further in.
fn leads(mark: Role, kept: bool) -> bool
    ensures { (ms : List Marking) → kept ≡ kept_from ms → result ≡ leads (mark ∷ ms) }
{
    match mark {
        Role::Starts => false,
        Role::Waits => true,
        Role::Follows => kept,
        Role::Branches => false,
    }
}

// Whether each `async` from this number on has a `finish` before it.
fn keeps(mark: Role, kept: bool) -> bool
    ensures { (ms : List Marking) → kept ≡ kept_from ms → result ≡ kept_from (mark ∷ ms) }
{
    match mark {
        Role::Starts => false,
        Role::Waits => true,
        Role::Follows => kept,
        Role::Branches => kept,
    }
}

/// Reads each row of a path once, from the innermost number outwards. `inside` is the best chain that begins inside the statement.
pub(crate) fn look<L: Ledger>(
    rows: &[Kept],
    marks: &[Role],
    from: usize,
    inside: Kept,
    steps: &mut Steps<L>,
) -> Looked
    requires { length rows.now ≡ length marks.now }
    ensures follows { result.follows ≡ follow marks.now rows.now }
    ensures passed { result.passed ≡ past (drop from rows.now) inside }
    ensures looks { steps.new ≡ steps.old + length rows.now }
{
    let mut follows = Kept::none();
    let mut passed = inside;
    let mut kept = true;
    let mut at = rows.len();
    while at > 0 {
        at -= 1;
        steps.tick();
        let row = rows[at];
        let mark = marks[at];
        if leads(mark, kept) {
            follows = better(follows, row);
        }
        kept = keeps(mark, kept);
        if at >= from {
            passed = better(passed, row);
        }
    }
    Looked { follows, passed }
}

/// Makes the rows of the next path, which goes with the last one for `from` numbers: the rows below stay, the row at that number
/// becomes `passed`, and there is nothing further in. The answer is the best chain that begins inside the next statement.
pub(crate) fn lay(
    rows: &mut Vec<Kept>,
    from: usize,
    passed: Kept,
    len: usize,
) -> Result<Kept, NoMemory>
    requires old { from ≤ length rows.old.items }
    requires new { from ≤ len }
    ensures { IfOk result (λ inside. IsLaid from passed len rows.old.items rows.new.items inside) }
{
    rows.truncate(from);
    if from == len {
        return Ok(passed);
    }
    rows.push(passed)?;
    while rows.len() < len {
        rows.push(Kept::none())?;
    }
    Ok(Kept::none())
}
