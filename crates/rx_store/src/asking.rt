// How a store is called, and what a control is told of its answer.
ghost use Rattle.std.specs.Prelude.{◌≡◌, ◌<◌, ◌^◌, Option, Result, IfOk, OnErr, false, length};
ghost use Rattle.rx_store.specs.Kept.{ends_closed};
ghost use Rattle.rx_history.specs.declared.step.CellOp.TheVariants.{Make, Get, Put, Forget};
ghost use Rattle.rx_store.specs.Asked.{CallMade, MayAskStore};

use crate::{Mark, Store, StoreFault};
use rx_base::{Fault, GlobalRef, NoMemory, Value};
use rx_history::CellOp;

// Makes room for the call, and makes it.
pub(crate) fn call_store(
    store: &mut Store,
    m: Mark,
    op: CellOp,
) -> Result<Result<Option<Value>, Fault>, NoMemory>
    requires open { ends_closed store.old.events ≡ false }
    requires fits { MayAskStore store.old.place op }
    requires events { length store.old.events < 2 ^ 31 }
    ensures answer { IfOk result (λ answer. CallMade store.old store.new m op answer) }
    ensures refused { OnErr result (store.new ≡ store.old) }
{
    store.reserve(1)?;
    Ok(ask(store, m, op))
}

/// Makes a call of an open store, for which there is room, and gives what the control is to take: a value where one was asked for, or the
/// fault that the statement raises. The call adds one event. It takes no memory. What it gives is stated by `CallMade`, and the rules of
/// stores stand in docs/semantics.md.
pub fn ask(store: &mut Store, m: Mark, op: CellOp) -> Result<Option<Value>, Fault>
    requires open { ends_closed store.old.events ≡ false }
    requires fits { MayAskStore store.old.place op }
    requires room { 0 < store.old.spare }
    requires events { length store.old.events < 2 ^ 31 }
    ensures { CallMade store.old store.new m op result }
{
    match op {
        CellOp::Make { words } => ask_make(store, m, words),
        CellOp::Get { target, index } => ask_get(store, m, target, index),
        CellOp::Put {
            target,
            index,
            value,
        } => ask_put(store, m, target, index, value),
        CellOp::Forget { target } => ask_forget(store, m, target),
    }
}

// Makes a block.
fn ask_make(store: &mut Store, m: Mark, words: u32) -> Result<Option<Value>, Fault>
    requires open { ends_closed store.old.events ≡ false }
    requires some { 0 < words }
    requires room { 0 < store.old.spare }
    requires events { length store.old.events < 2 ^ 31 }
    ensures { CallMade store.old store.new m (Make words) result }
{
    match store.make(m, words) {
        Ok(r) => Ok(Some(Value::Ref(r))),
        Err(StoreFault::Full) => Err(Fault::HeapFull),
        Err(_) => unreachable!(),
    }
}

// Reads a word.
fn ask_get(store: &mut Store, m: Mark, r: GlobalRef, index: i64) -> Result<Option<Value>, Fault>
    requires open { ends_closed store.old.events ≡ false }
    requires home { r.home ≡ store.old.place }
    requires room { 0 < store.old.spare }
    requires events { length store.old.events < 2 ^ 31 }
    ensures { CallMade store.old store.new m (Get r index) result }
{
    match store.get(m, r, index) {
        Ok(value) => Ok(Some(Value::Num(value))),
        Err(StoreFault::Stale) => Err(Fault::Stale),
        Err(StoreFault::Index) => Err(Fault::Index),
        Err(_) => unreachable!(),
    }
}

// Writes a word.
fn ask_put(
    store: &mut Store,
    m: Mark,
    r: GlobalRef,
    index: i64,
    value: i64,
) -> Result<Option<Value>, Fault>
    requires open { ends_closed store.old.events ≡ false }
    requires home { r.home ≡ store.old.place }
    requires room { 0 < store.old.spare }
    requires events { length store.old.events < 2 ^ 31 }
    ensures { CallMade store.old store.new m (Put r index value) result }
{
    match store.put(m, r, index, value) {
        Ok(()) => Ok(None),
        Err(StoreFault::Stale) => Err(Fault::Stale),
        Err(StoreFault::Index) => Err(Fault::Index),
        Err(_) => unreachable!(),
    }
}

// Forgets a block.
fn ask_forget(store: &mut Store, m: Mark, r: GlobalRef) -> Result<Option<Value>, Fault>
    requires open { ends_closed store.old.events ≡ false }
    requires home { r.home ≡ store.old.place }
    requires room { 0 < store.old.spare }
    requires events { length store.old.events < 2 ^ 31 }
    ensures { CallMade store.old store.new m (Forget r) result }
{
    match store.forget(m, r) {
        Ok(()) => Ok(None),
        Err(StoreFault::Stale) => Err(Fault::Stale),
        Err(_) => unreachable!(),
    }
}
