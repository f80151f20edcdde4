// What a statement does next.
ghost use Rattle.std.specs.Prelude.{◌≡◌, ℕ, List, Option, Some, cond, ◌==◌, IsTrue};
ghost use Rattle.rx_base.specs.declared.values.Value.{Value};
ghost use Rattle.rx_base.specs.declared.values.Value.TheVariants.{Num as Number};
ghost use Rattle.rx_base.specs.declared.values.Fault.TheVariants.{Thrown, WrongPlace};
ghost use Rattle.rx_rules.specs.Code.{Stmt as Tree, Block};
ghost use Rattle.rx_rules.specs.Terms.{Vars, Term, Does, Local, Gets, Puts, Forgets, Prints, Spawns, Calls, bound, raise, ref_in};
ghost use Rattle.rx_rules.specs.Terms.{target_of, with_number, with_place, is_zero, items, at, stmt_does};
ghost use Rattle.rx_syntax.specs.Shape.{Shape, StmtIs, BlockStands};
ghost use Rattle.rx_history.specs.Next.{next_of};
ghost use Rattle.rx_plan.specs.Plans.{Plans, IsPlan};
ghost use Rattle.rx_plan.specs.Inside.Places.{place_in};

use crate::eval::evaluate;
use crate::{CellOp, Next, Variables, Want};
use rx_base::{Fault, GlobalRef, PlaceId, Value};
use rx_syntax::{BlockId, ExprId, NameId, Script, Stmt};

/// What a statement does, once its expressions have values.
#[derive(Clone, Copy, Debug, PartialEq, Eq)]
pub enum Plan {
    /// A name gets a value.
    Assign {
        name: NameId,
        value: i64,
    },
    /// A fault is raised.
    Raise(Fault),
    /// A block of an `if` is run. `part` is 0 for the first and 1 for the other.
    Choose {
        block: BlockId,
        part: u32,
    },
    /// The turns of a `repeat` are begun.
    Loop {
        body: BlockId,
        times: u32,
    },
    /// The body of a `try` is begun.
    Attempt {
        body: BlockId,
        dead_only: bool,
        handler: BlockId,
    },
    /// The store or the ledger is asked.
    Ask(Next),
}

/// What a statement does, at a place. Where it raises before it asks, it asks nothing. It takes no memory.
pub fn make_plan(script: &Script, stmt: Stmt, vars: &Variables, here: PlaceId) -> Plan
    requires { (t : Tree) × StmtIs script.now stmt t }
    ensures { (t : Tree) → StmtIs script.now stmt t → Plans script.now result vars.now here.0 t }
{
    match stmt {
        Stmt::Set { name, value } => plan_set(name, evaluate(script, vars, here, value)),
        Stmt::New { words, .. } => Plan::Ask(Next::Cell(CellOp::Make { words })),
        Stmt::Get { target, index, .. } => {
            let index = evaluate(script, vars, here, index);
            plan_get(index, reference(vars.get(target)), here)
        }
        Stmt::Put {
            target,
            index,
            value: word,
        } => {
            let index = evaluate(script, vars, here, index);
            let word = evaluate(script, vars, here, word);
            plan_put(index, word, reference(vars.get(target)), here)
        }
        Stmt::Forget { target } => plan_forget(reference(vars.get(target)), here),
        Stmt::Census { .. } => Plan::Ask(Next::Book(Want::Census)),
        Stmt::Print { value } => plan_print(evaluate(script, vars, here, value)),
        Stmt::Throw { value } => plan_throw(evaluate(script, vars, here, value)),
        Stmt::Async { .. } => Plan::Ask(Next::Book(Want::Spawn { to: here })),
        Stmt::AtAsync { place, .. } => {
            plan_spawn(target(evaluate(script, vars, here, place), vars.places()))
        }
        Stmt::At { place, .. } => {
            plan_at(target(evaluate(script, vars, here, place), vars.places()))
        }
        Stmt::Finish { .. } => Plan::Ask(Next::Book(Want::Open)),
        Stmt::If { test, first, other } => choose(evaluate(script, vars, here, test), first, other),
        Stmt::Repeat { times, body } => Plan::Loop { body, times },
        Stmt::Try {
            body,
            dead_only,
            handler,
        } => Plan::Attempt {
            body,
            dead_only,
            handler,
        },
    }
}

// The reference that a variable holds.
fn reference(v: Option<Value>) -> GlobalRef
    ensures { result ≡ ref_in v }
{
    match v {
        Some(Value::Ref(r)) => r,
        Some(Value::Num(_)) | None => GlobalRef {
            home: PlaceId(0),
            start: 0,
            generation: 0,
        },
    }
}

// The place that the value of an expression names, among so many.
fn target(z: Option<i64>, places: u8) -> Result<PlaceId, Fault>
    ensures { target_of z places ≡ place_in result }
{
    match z {
        None => Err(Fault::Overflow),
        Some(z) => place(z, places),
    }
}

// The same of a number that is in range.
fn place(z: i64, places: u8) -> Result<PlaceId, Fault>
    ensures { target_of (Some z) places ≡ place_in result }
{
    if z < 0 || z >= places as i64 {
        return Err(Fault::NoPlace);
    }
    Ok(PlaceId(z as u8))
}

// `set`, its expressions evaluated.
fn plan_set(name: NameId, z: Option<i64>) -> Plan
    ensures { (s : Shape) (vars : Vars) (x : List ℕ) (rest : Term)
        → IsPlan s result vars x rest (with_number vars z (λ z. Local rest (bound name.0 (Number z) vars))) }
{
    match z {
        Some(value) => Plan::Assign { name, value },
        None => Plan::Raise(Fault::Overflow),
    }
}

// `get`, its expressions evaluated.
fn plan_get(k: Option<i64>, r: GlobalRef, here: PlaceId) -> Plan
    ensures { (s : Shape) (vars : Vars) (x : List ℕ) (rest : Term) (name : ℕ)
        → IsPlan s result vars x rest (with_number vars k (λ k. cond (r.home.0 == here.0) (Gets name r k)
        (Local (raise WrongPlace) vars))) }
{
    match k {
        Some(index) => {
            if r.home.0 == here.0 {
                Plan::Ask(Next::Cell(CellOp::Get { target: r, index }))
            } else {
                Plan::Raise(Fault::WrongPlace)
            }
        }
        None => Plan::Raise(Fault::Overflow),
    }
}

// `put`, its expressions evaluated.
fn plan_put(k: Option<i64>, z: Option<i64>, r: GlobalRef, here: PlaceId) -> Plan
    ensures { (s : Shape) (vars : Vars) (x : List ℕ) (rest : Term)
        → IsPlan s result vars x rest (with_number vars k (λ k. with_number vars z (λ z. cond (r.home.0 == here.0) (Puts r k z)
        (Local (raise WrongPlace) vars)))) }
{
    match k {
        Some(index) => match z {
            Some(value) => {
                if r.home.0 == here.0 {
                    Plan::Ask(Next::Cell(CellOp::Put {
                        target: r,
                        index,
                        value,
                    }))
                } else {
                    Plan::Raise(Fault::WrongPlace)
                }
            }
            None => Plan::Raise(Fault::Overflow),
        },
        None => Plan::Raise(Fault::Overflow),
    }
}

// `forget`, its expressions evaluated.
fn plan_forget(r: GlobalRef, here: PlaceId) -> Plan
    ensures { (s : Shape) (vars : Vars) (x : List ℕ) (rest : Term)
        → IsPlan s result vars x rest (cond (r.home.0 == here.0) (Forgets r) (Local (raise WrongPlace) vars)) }
{
    if r.home.0 == here.0 {
        Plan::Ask(Next::Cell(CellOp::Forget { target: r }))
    } else {
        Plan::Raise(Fault::WrongPlace)
    }
}

// `print`, its expressions evaluated.
fn plan_print(z: Option<i64>) -> Plan
    ensures { (s : Shape) (vars : Vars) (x : List ℕ) (rest : Term) → IsPlan s result vars x rest (with_number vars z Prints) }
{
    match z {
        Some(value) => Plan::Ask(Next::Book(Want::Print { value })),
        None => Plan::Raise(Fault::Overflow),
    }
}

// `throw`, its expressions evaluated.
fn plan_throw(z: Option<i64>) -> Plan
    ensures { (s : Shape) (vars : Vars) (x : List ℕ) (rest : Term)
        → IsPlan s result vars x rest (with_number vars z (λ z. Local (raise (Thrown z)) vars)) }
{
    match z {
        Some(value) => Plan::Raise(Fault::Thrown(value)),
        None => Plan::Raise(Fault::Overflow),
    }
}

// `at e async`, its expressions evaluated.
fn plan_spawn(to: Result<PlaceId, Fault>) -> Plan
    ensures { (s : Shape) (vars : Vars) (x : List ℕ) (rest : Term) → IsPlan s result vars x rest (with_place vars (place_in to) Spawns) }
{
    match to {
        Ok(to) => Plan::Ask(Next::Book(Want::Spawn { to })),
        Err(fault) => Plan::Raise(fault),
    }
}

// `at e`, its expressions evaluated.
fn plan_at(to: Result<PlaceId, Fault>) -> Plan
    ensures { (s : Shape) (vars : Vars) (x : List ℕ) (rest : Term) → IsPlan s result vars x rest (with_place vars (place_in to) Calls) }
{
    match to {
        Ok(to) => Plan::Ask(Next::Book(Want::At { to })),
        Err(fault) => Plan::Raise(fault),
    }
}

// `if`, its expressions evaluated.
fn choose(z: Option<i64>, first: BlockId, other: BlockId) -> Plan
    ensures { (s : Shape) (vars : Vars) (x : List ℕ) (rest : Term) (a b : Block) → BlockStands s first a → BlockStands s other b
        → IsPlan s result vars x rest (with_number vars z (λ z. Local (cond (is_zero z) (items b (at x 1) rest)
        (items a (at x 0) rest)) vars)) }
{
    match z {
        Some(z) => {
            if z == 0 {
                Plan::Choose {
                    block: other,
                    part: 1,
                }
            } else {
                Plan::Choose {
                    block: first,
                    part: 0,
                }
            }
        }
        None => Plan::Raise(Fault::Overflow),
    }
}

/// The next step of a task whose next statement this is, at a place. Where it can only be local, the statement's expressions are
/// not evaluated. It takes no memory.
pub fn tell(script: &Script, stmt: Stmt, vars: &Variables, here: PlaceId) -> Next
    requires { (t : Tree) × StmtIs script.now stmt t }
    ensures { (t : Tree) (x : List ℕ) (rest : Term) → StmtIs script.now stmt t
        → next_of (stmt_does vars.now here.0 t x rest) ≡ result }
{
    if is_local(stmt) {
        Next::Local
    } else {
        told(make_plan(script, stmt, vars, here))
    }
}

// Whether a statement asks nobody, whatever its expressions give.
fn is_local(stmt: Stmt) -> bool
    ensures { IsTrue result → (s : Shape) (t : Tree) (vars : Vars) (here : ℕ) (x : List ℕ) (rest : Term) → StmtIs s stmt t
        → next_of (stmt_does vars here t x rest) ≡ Next.Local }
{
    match stmt {
        Stmt::Set { .. } => true,
        Stmt::New { .. } => false,
        Stmt::Get { .. } => false,
        Stmt::Put { .. } => false,
        Stmt::Forget { .. } => false,
        Stmt::Census { .. } => false,
        Stmt::Print { .. } => false,
        Stmt::Throw { .. } => true,
        Stmt::Async { .. } => false,
        Stmt::AtAsync { .. } => false,
        Stmt::At { .. } => false,
        Stmt::Finish { .. } => false,
        Stmt::If { .. } => true,
        Stmt::Repeat { .. } => true,
        Stmt::Try { .. } => true,
    }
}

// What a plan tells of the next step.
fn told(plan: Plan) -> Next
    ensures { (s : Shape) (vars : Vars) (x : List ℕ) (rest : Term) (d : Does) → IsPlan s plan vars x rest d → next_of d ≡ result }
{
    match plan {
        Plan::Ask(next) => next,
        Plan::Assign { .. }
        | Plan::Raise(_)
        | Plan::Choose { .. }
        | Plan::Loop { .. }
        | Plan::Attempt { .. } => Next::Local,
    }
}
