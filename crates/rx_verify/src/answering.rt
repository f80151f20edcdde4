// Whether an event of a journal answers a call of a store, and what it tells.
ghost use Rattle.std.specs.Prelude.{◌≡◌, true, cond};
ghost use Rattle.rx_base.specs.declared.values.Fault.TheVariants.{Stale, Index};
ghost use Rattle.rx_verify.specs.Answers.{answers, AnswersTells};
ghost use Rattle.rx_store.specs.Asked.{CallIsTold};

use rx_base::{Fault, GlobalRef, PlaceId, Value};
use rx_control::CellOp;
use rx_rules::Cell;

/// Whether the event is what the call asks, whatever its answer.
pub fn answers(op: &CellOp, cell: &Cell) -> bool
    ensures { result ≡ answers op.now cell.now }
{
    match op {
        CellOp::Make { words } => {
            matches!(cell, Cell::Make { words: n, .. } | Cell::MakeFull { words: n } if *n == *words)
        }
        CellOp::Get { target, index } => matches!(
            cell,
            Cell::Get { target: r, index: i, .. } | Cell::GetRefused { target: r, index: i, .. }
                if *r == *target && *i == *index
        ),
        CellOp::Put {
            target,
            index,
            value,
        } => matches!(
            cell,
            Cell::Put { target: r, index: i, value: v } | Cell::PutRefused { target: r, index: i, value: v, .. }
                if *r == *target && *i == *index && *v == *value
        ),
        CellOp::Forget { target } => {
            matches!(cell, Cell::Forget { target: r } | Cell::ForgetStale { target: r } if *r == *target)
        }
    }
}

/// A law: exactly there the event tells the term that makes this call an answer.
pub fn event_tells_call()
    ensures { AnswersTells }
{}

// The fault of a refused call.
fn refusal(stale: bool) -> Fault
    ensures { result ≡ cond stale Stale Index }
{
    if stale { Fault::Stale } else { Fault::Index }
}

/// What an event tells the task that makes the call.
pub(crate) fn told(home: PlaceId, op: CellOp, cell: Cell) -> Result<Option<Value>, Fault>
    requires { answers op cell ≡ true }
    ensures { CallIsTold home op result cell }
{
    match cell {
        Cell::Make {
            start,
            generation,
            ..
        } => Ok(Some(Value::Ref(GlobalRef {
            home,
            start,
            generation,
        }))),
        Cell::MakeFull { .. } => Err(Fault::HeapFull),
        Cell::Get { value, .. } => Ok(Some(Value::Num(value))),
        Cell::GetRefused { stale, .. } => Err(refusal(stale)),
        Cell::Put { .. } => Ok(None),
        Cell::PutRefused { stale, .. } => Err(refusal(stale)),
        Cell::Forget { .. } => Ok(None),
        Cell::ForgetStale { .. } => Err(Fault::Stale),
    }
}
