// The parts of a statement that the rules speak of.
ghost use Rattle.std.specs.Prelude.{◌≡◌, ◌≤◌, Some, None};
ghost use Rattle.rx_check.specs.Inside.Walk.{bodies_of, cap, parts_of, work_with};

use crate::names::{Kind, Seen};
use rx_syntax::{BlockId, ExprId, NameId, Stmt};

// A statement's own expressions, its target and what it assigns.
#[derive(Clone, Copy, Debug, PartialEq, Eq)]
pub(crate) struct Parts {
    pub(crate) first: Option<ExprId>,
    pub(crate) second: Option<ExprId>,
    pub(crate) target: Option<NameId>,
    pub(crate) assigned: Option<Seen>,
}

// The blocks of a statement.
#[derive(Clone, Copy, Debug, PartialEq, Eq)]
pub(crate) enum Bodies {
    No,
    One(BlockId),
    Two(BlockId, BlockId),
}

// A statement of this expression alone, if any.
fn plain(first: Option<ExprId>) -> Parts
    ensures { result ≡ record { first = first; second = None; target = None; assigned = None } }
{
    Parts {
        first,
        second: None,
        target: None,
        assigned: None,
    }
}

// A statement that makes a name this kind and has no expression.
fn gives(name: NameId, kind: Kind) -> Parts
    ensures { result ≡ record { first = None; second = None; target = None; assigned = Some (record { name = name; kind = kind }) } }
{
    Parts {
        first: None,
        second: None,
        target: None,
        assigned: some_name(name, kind),
    }
}

fn some_name(name: NameId, kind: Kind) -> Option<Seen>
    ensures { result ≡ Some (record { name = name; kind = kind }) }
{
    Some(Seen { name, kind })
}

// The parts of a statement.
pub(crate) fn split(stmt: Stmt) -> Parts
    ensures { result ≡ parts_of stmt }
{
    match stmt {
        Stmt::Set { name, value } => Parts {
            first: Some(value),
            second: None,
            target: None,
            assigned: some_name(name, Kind::Number),
        },
        Stmt::New { name, .. } => gives(name, Kind::Reference),
        Stmt::Get {
            name,
            target,
            index,
        } => Parts {
            first: Some(index),
            second: None,
            target: Some(target),
            assigned: some_name(name, Kind::Number),
        },
        Stmt::Put {
            target,
            index,
            value,
        } => Parts {
            first: Some(index),
            second: Some(value),
            target: Some(target),
            assigned: None,
        },
        Stmt::Forget { target } => Parts {
            first: None,
            second: None,
            target: Some(target),
            assigned: None,
        },
        Stmt::Census { name } => gives(name, Kind::Number),
        Stmt::Print { value } => plain(Some(value)),
        Stmt::Throw { value } => plain(Some(value)),
        Stmt::Async { .. } => plain(None),
        Stmt::AtAsync { place, .. } => plain(Some(place)),
        Stmt::At { place, .. } => plain(Some(place)),
        Stmt::Finish { .. } => plain(None),
        Stmt::If { test, .. } => plain(Some(test)),
        Stmt::Repeat { .. } => plain(None),
        Stmt::Try { .. } => plain(None),
    }
}

// The blocks of a statement.
pub(crate) fn blocks(stmt: Stmt) -> Bodies
    ensures { result ≡ bodies_of stmt }
{
    match stmt {
        Stmt::Set { .. } => Bodies::No,
        Stmt::New { .. } => Bodies::No,
        Stmt::Get { .. } => Bodies::No,
        Stmt::Put { .. } => Bodies::No,
        Stmt::Forget { .. } => Bodies::No,
        Stmt::Census { .. } => Bodies::No,
        Stmt::Print { .. } => Bodies::No,
        Stmt::Throw { .. } => Bodies::No,
        Stmt::Async { body } => Bodies::One(body),
        Stmt::AtAsync { body, .. } => Bodies::One(body),
        Stmt::At { body, .. } => Bodies::One(body),
        Stmt::Finish { body } => Bodies::One(body),
        Stmt::If { first, other, .. } => Bodies::Two(first, other),
        Stmt::Repeat { body, .. } => Bodies::One(body),
        Stmt::Try { body, handler, .. } => Bodies::Two(body, handler),
    }
}

// A work above 100,000 counts as 100,001.
pub(crate) fn capped(work: u64) -> u64
    ensures cap { result ≡ cap work }
    ensures small { result ≤ 100001 }
{
    if work > 100_000 { 100_001 } else { work }
}

// The work of a statement, by the work of its blocks.
pub(crate) fn total(stmt: Stmt, first: u64, second: u64) -> u64
    requires first { first ≤ 100001 }
    requires second { second ≤ 100001 }
    ensures total { result ≡ cap (work_with stmt first second) }
    ensures small { result ≤ 100001 }
{
    match stmt {
        Stmt::Set { .. } => 1,
        Stmt::New { .. } => 1,
        Stmt::Get { .. } => 1,
        Stmt::Put { .. } => 1,
        Stmt::Forget { .. } => 1,
        Stmt::Census { .. } => 1,
        Stmt::Print { .. } => 1,
        Stmt::Throw { .. } => 1,
        Stmt::Async { .. } => capped(1 + first),
        Stmt::AtAsync { .. } => capped(1 + first),
        Stmt::At { .. } => capped(1 + first),
        Stmt::Finish { .. } => capped(1 + first),
        Stmt::If { .. } => capped(1 + first.max(second)),
        Stmt::Repeat { times, .. } => capped(1 + u64::from(times) * (1 + first)),
        Stmt::Try { .. } => capped(1 + first + second),
    }
}
