// Expressions.
ghost use Rattle.std.specs.Prelude.{◌≡◌, ℕ, ◌<◌, length, Option, Some, None, ℤ};
ghost use Rattle.rx_rules.specs.Code.{Expr};
ghost use Rattle.rx_rules.specs.Terms.{applied, both, eval, number_in};
ghost use Rattle.rx_syntax.specs.Shape.{ExprStands, op_of};

use crate::Variables;
use rx_base::{PlaceId, Value};
use rx_syntax::{ExprId, Op, Script};

// The result of an operation, where it is in range.
fn apply(op: Op, a: i64, b: i64) -> Option<i64>
    ensures { result ≡ applied (op_of op) a b }
{
    match op {
        Op::Add => a.checked_add(b),
        Op::Sub => a.checked_sub(b),
        Op::Mul => a.checked_mul(b),
        Op::Less => Some(if a < b { 1 } else { 0 }),
        Op::Equal => Some(if a == b { 1 } else { 0 }),
    }
}

// A number in a variable.
fn number(v: Option<Value>) -> Option<i64>
    ensures { result ≡ number_in v }
{
    match v {
        Some(Value::Num(z)) => Some(z),
        Some(Value::Ref(_)) => None,
        None => None,
    }
}

/// The value of an expression, or none where it is out of range.
pub(crate) fn evaluate(script: &Script, vars: &Variables, here: PlaceId, id: ExprId) -> Option<i64>
    requires { (e : Expr) × ExprStands script.now.exprs id e }
    ensures { (e : Expr) → ExprStands script.now.exprs id e → result ≡ eval vars.now here.0 e }
{
    match script.expr(id) {
        rx_syntax::Expr::Num(z) => Some(z),
        rx_syntax::Expr::Name(name) => number(vars.get(name)),
        rx_syntax::Expr::Here => Some(here.0 as i64),
        rx_syntax::Expr::Bin { op, left, right } => {
            let a = evaluate(script, vars, here, left);
            let b = evaluate(script, vars, here, right);
            combine(op, a, b)
        }
    }
}

// The result where both operands have a value.
fn combine(op: Op, a: Option<i64>, b: Option<i64>) -> Option<i64>
    ensures { result ≡ both (op_of op) a b }
{
    match (a, b) {
        (Some(a), Some(b)) => apply(op, a, b),
        _ => None,
    }
}
