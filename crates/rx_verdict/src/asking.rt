// What an event of a store was asked, asked of blocks again.
ghost use Rattle.std.specs.Prelude.{◌≡◌, ◌-◌, ◌<◌, ◌^◌, cond, not};
ghost use Rattle.rx_store.specs.Asks.{ask_of};
ghost use Rattle.rx_store.specs.Table.{EventFits};
ghost use Rattle.rx_verdict.specs.Lawful.{CellAsksSome};
ghost use Rattle.rx_verdict.specs.Inside.Same.{same_answer};

use rx_rules::Cell;
use rx_store::Blocks;

// Makes the call that the event tells of, and gives the event that tells of this call.
pub(crate) fn ask(blocks: &mut Blocks, cell: Cell) -> Cell
    requires some { CellAsksSome cell }
    requires few { blocks.old.made < 2 ^ 32 - 1 }
    ensures asked { ask_of result ≡ ask_of cell }
    ensures told { EventFits blocks.old blocks.new result }
{
    match cell {
        Cell::Make { words, .. } => blocks.make(words),
        Cell::MakeFull { words } => blocks.make(words),
        Cell::Get { target, index, .. } => blocks.get(target, index),
        Cell::GetRefused { target, index, .. } => blocks.get(target, index),
        Cell::Put {
            target,
            index,
            value,
        } => blocks.put(target, index, value),
        Cell::PutRefused {
            target,
            index,
            value,
            ..
        } => blocks.put(target, index, value),
        Cell::Forget { target } => blocks.forget(target),
        Cell::ForgetStale { target } => blocks.forget(target),
    }
}

// Whether two events of one call have the same answer.
pub(crate) fn is_answer(a: Cell, b: Cell) -> bool
    ensures { result ≡ same_answer a b }
{
    match (a, b) {
        (
            Cell::Make {
                start,
                generation,
                ..
            },
            Cell::Make {
                start: s,
                generation: g,
                ..
            },
        ) => start == s && generation == g,
        (Cell::Get { value, .. }, Cell::Get { value: v, .. }) => value == v,
        (Cell::GetRefused { stale, .. }, Cell::GetRefused { stale: s, .. }) => is_as(stale, s),
        (Cell::PutRefused { stale, .. }, Cell::PutRefused { stale: s, .. }) => is_as(stale, s),
        (Cell::MakeFull { .. }, Cell::MakeFull { .. })
        | (Cell::Put { .. }, Cell::Put { .. })
        | (Cell::Forget { .. }, Cell::Forget { .. })
        | (Cell::ForgetStale { .. }, Cell::ForgetStale { .. }) => true,
        _ => false,
    }
}

// Whether both are true or both are false.
fn is_as(a: bool, b: bool) -> bool
    ensures { result ≡ cond a b (not b) }
{
    if a { b } else { !b }
}
