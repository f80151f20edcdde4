// Changes of the rows of a tree. The newest stand first, so that an insertion moves all rows.
ghost use Rattle.std.specs.Prelude.{◌≡◌, ◌∷◌, ◌++◌, OnOk, IfErr, option_map, map, filter, not};
ghost use Rattle.rx_rules.specs.Tree.{is_task, is_scope};
ghost use Rattle.rx_rules.specs.Entries.{change_first, hit, is_hit};
ghost use Rattle.rx_tree.specs.Inside.Positions.{TasksFallIn, ScopesFallIn};

use crate::LedgerFault;
use crate::lookups::{row_of, scope_row};
use rx_base::{Faults, PlaceId, ScopeId, TaskId};
use rx_rules::{Blow, Scope, Task, Where};

pub fn blow_at(place: PlaceId, number: Option<u32>) -> Option<Blow>
    ensures { result ≡ option_map (λ n. record { place = place; entry = n }) number }
{
    match number {
        Some(entry) => Some(Blow { place, entry }),
        None => None,
    }
}

pub fn lost_by(blow: Blow) -> LedgerFault
    ensures { result ≡ LedgerFault.Lost blow.place blow.entry }
{
    LedgerFault::Lost {
        place: blow.place,
        at: blow.entry,
    }
}

pub fn insert_task(tasks: &mut Vec<Task>, x: Task) -> Result<(), LedgerFault>
    ensures pushed { OnOk result (tasks.new.items ≡ x ∷ tasks.old.items) }
    ensures refused { IfErr result (λ f. (f ≡ LedgerFault.NoMemory) × (tasks.new.items ≡ tasks.old.items)) }
{
    match tasks.insert(0, x) {
        Ok(_) => Ok(()),
        Err(_) => Err(LedgerFault::NoMemory),
    }
}

pub fn insert_scope(scopes: &mut Vec<Scope>, x: Scope) -> Result<(), LedgerFault>
    ensures pushed { OnOk result (scopes.new.items ≡ x ∷ scopes.old.items) }
    ensures refused { IfErr result (λ f. (f ≡ LedgerFault.NoMemory) × (scopes.new.items ≡ scopes.old.items)) }
{
    match scopes.insert(0, x) {
        Ok(_) => Ok(()),
        Err(_) => Err(LedgerFault::NoMemory),
    }
}

/// Adds a scope and a task, or neither.
pub fn insert_both(
    scopes: &mut Vec<Scope>,
    tasks: &mut Vec<Task>,
    g: Scope,
    x: Task,
) -> Result<(), LedgerFault>
    ensures pushed { OnOk result ((scopes.new.items ≡ g ∷ scopes.old.items) × (tasks.new.items ≡ x ∷ tasks.old.items)) }
    ensures refused { IfErr result (λ f. (f ≡ LedgerFault.NoMemory) × (scopes.new.items ≡ scopes.old.items)
        × (tasks.new.items ≡ tasks.old.items)) }
{
    insert_task(tasks, x)?;
    match scopes.insert(0, g) {
        Ok(_) => Ok(()),
        Err(_) => {
            let _back = tasks.remove(0);
            Err(LedgerFault::NoMemory)
        }
    }
}

pub fn set_waits(tasks: &mut [Task], t: TaskId, waits: bool)
    requires { TasksFallIn tasks.old }
    ensures { tasks.new ≡ change_first (is_task t) (λ x. record x { waits = waits }) tasks.old }
{
    if let Some(i) = row_of(tasks, t) {
        tasks[i].waits = waits;
    }
}

pub fn land(tasks: &mut [Task], t: TaskId, p: PlaceId)
    requires { TasksFallIn tasks.old }
    ensures { tasks.new ≡ change_first (is_task t) (λ x. record x { place = Where.At p }) tasks.old }
{
    if let Some(i) = row_of(tasks, t) {
        tasks[i].place = Where::At(p);
    }
}

pub fn note_body(scopes: &mut [Scope], s: ScopeId, thrown: Faults)
    requires { ScopesFallIn scopes.old }
    ensures { scopes.new ≡ change_first (is_scope s) (λ g. record g { body = thrown }) scopes.old }
{
    if let Some(i) = scope_row(scopes, s) {
        scopes[i].body = thrown;
    }
}

/// Adds the faults to those of the tasks that ended in the scope.
pub fn note_ends(scopes: &mut [Scope], s: ScopeId, thrown: Faults) -> Result<(), Faults>
    requires { ScopesFallIn scopes.old }
    ensures noted { OnOk result (scopes.new ≡ change_first (is_scope s) (λ g. record g { ends = g.ends ++ thrown }) scopes.old) }
    ensures refused { IfErr result (λ back. (back ≡ thrown) × (scopes.new ≡ scopes.old)) }
{
    if let Some(i) = scope_row(scopes, s) {
        return scopes[i].ends.append(thrown);
    }
    Ok(())
}

pub fn remove_task(tasks: &mut Vec<Task>, t: TaskId)
    ensures { tasks.new.items ≡ filter (λ y. not (is_task t y)) tasks.old.items }
{
    tasks.retain(|x| x.number != t);
}

/// Strikes each unstruck task that the death hits.
pub fn strike_all(tasks: &mut [Task], blow: Blow)
    ensures { tasks.new ≡ map (hit blow) tasks.old }
{
    for x in tasks.iter_mut() {
        *x = struck_by(*x, blow);
    }
}

pub fn struck_by(mut x: Task, blow: Blow) -> Task
    ensures { result ≡ hit blow x }
{
    if x.struck.is_none() && hits(blow.place, x.place) {
        x.struck = Some(blow);
    }
    x
}

pub fn hits(d: PlaceId, place: Where) -> bool
    ensures { result ≡ is_hit d place }
{
    match place {
        Where::At(p) => p == d,
        Where::Travel { from, to } => from == d || to == d,
    }
}
