// Looking up in the rows of a tree. The newest stand first, so that numbers fall and each search halves what is left.
ghost use Rattle.std.specs.Prelude.{◌≡◌, find, slice_index_or, drop, [], None, Some, IfSome, IfNone};
ghost use Rattle.std.specs.List.{list_any};
ghost use Rattle.rx_rules.specs.Tree.{is_task, is_scope, is_finish, governing_in, chain_in};
ghost use Rattle.rx_tree.specs.Inside.Positions.{IsFirst, PassesNone, TasksFallIn, ScopesFallIn, BeginsAt};

use rx_base::{PlaceId, ScopeId, TaskId};
use rx_rules::{Kind, Scope, Task};

pub fn find_task(tasks: &[Task], t: TaskId) -> Option<Task>
    requires { TasksFallIn tasks.now }
    ensures { result ≡ find (is_task t) tasks.now }
{
    match row_of(tasks, t) {
        Some(i) => Some(tasks[i]),
        None => None,
    }
}

/// The same among tasks that stand in any order. A plain body: it walks over them.
pub fn find_gone(gone: &[Task], t: TaskId) -> Option<Task>
    ensures { result ≡ find (is_task t) gone.now }
{
    for x in gone {
        if x.number == t {
            return Some(*x);
        }
    }
    None
}

pub fn death_at(dead: &[Option<u32>], p: PlaceId) -> Option<u32>
    ensures { result ≡ slice_index_or dead.now p.0 None }
{
    match dead.get(p.0 as usize) {
        Some(number) => *number,
        None => None,
    }
}

pub fn is_a_finish(kind: Kind) -> bool
    ensures { result ≡ is_finish kind }
{
    match kind {
        Kind::Finish => true,
        Kind::Call => false,
    }
}

/// The first finish of the chain from a scope, each scope of which is searched for among the rows after the one before.
pub fn find_governing(scopes: &[Scope], from: ScopeId) -> ScopeId
    requires { ScopesFallIn scopes.now }
    ensures { result ≡ governing_in scopes.now (Some from) }
{
    let mut start = 0;
    let mut want = from;
    'up: while let Some(i) = row_from(scopes, start, want) {
        let g = &scopes[i];
        if is_a_finish(g.kind) {
            return g.number;
        }
        match g.parent {
            Some(parent) => want = parent,
            None => return ScopeId(0),
        }
        start = i + 1;
    }
    ScopeId(0)
}

/// Whether the chain from a scope has the scope s. It goes up as `find_governing` does, and stops below s.
pub fn reaches(scopes: &[Scope], from: ScopeId, s: ScopeId) -> bool
    requires { ScopesFallIn scopes.now }
    ensures { result ≡ list_any (is_scope s) (chain_in scopes.now (Some from)) }
{
    let mut start = 0;
    let mut want = from;
    'up: while want.0 >= s.0 {
        let Some(i) = row_from(scopes, start, want) else {
            return false;
        };
        let g = &scopes[i];
        if g.number == s {
            return true;
        }
        match g.parent {
            Some(parent) => want = parent,
            None => return false,
        }
        start = i + 1;
    }
    false
}

/// The position of the task.
pub fn row_of(tasks: &[Task], t: TaskId) -> Option<usize>
    requires { TasksFallIn tasks.now }
    ensures found { IfSome result (λ i. IsFirst (is_task t) tasks.now i) }
    ensures none { IfNone result (PassesNone (is_task t) tasks.now) }
{
    let i = tasks.partition_point(|x| x.number.0 > t.0);
    if i < tasks.len() && tasks[i].number == t {
        Some(i)
    } else {
        None
    }
}

/// The position of the scope.
pub fn scope_row(scopes: &[Scope], s: ScopeId) -> Option<usize>
    requires { ScopesFallIn scopes.now }
    ensures found { IfSome result (λ i. IsFirst (is_scope s) scopes.now i) }
    ensures none { IfNone result (PassesNone (is_scope s) scopes.now) }
{
    let i = scopes.partition_point(|g| g.number.0 > s.0);
    if i < scopes.len() && scopes[i].number == s {
        Some(i)
    } else {
        None
    }
}

/// The row from `start` on at which the chain of a scope begins.
pub fn row_from(scopes: &[Scope], start: usize, s: ScopeId) -> Option<usize>
    requires { ScopesFallIn scopes.now }
    ensures found { IfSome result (λ i. BeginsAt scopes.now start s i) }
    ensures none { IfNone result (chain_in (drop start scopes.now) (Some s) ≡ []) }
{
    let Some(i) = scope_row(scopes, s) else {
        return None;
    };
    if start <= i { Some(i) } else { None }
}
