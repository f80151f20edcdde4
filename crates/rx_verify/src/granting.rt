// Whether the ledger grants an act as it stands in an entry: whether the ledger's own answer is that of the entry.
ghost use Rattle.std.specs.Prelude.{◌≡◌, ◌↔◌, ◌<◌, ◌^◌, IsTrue, List, ℕ, IfOk, false};
ghost use Rattle.rx_rules.specs.declared.entries.Act.TheVariants.{Open, At, Spawn, Arrive, Wait, Release, End, Print, Census};
ghost use Rattle.rx_verify.specs.Inside.Grants.{SomeAsks, Grants, IsRefusal};

use rx_base::{Faults, NoMemory, PlaceId, PlaceSet, ScopeId, TaskId, same_faults};
use rx_finish::{Caller, FinishLedger, LedgerFault, Outcome, landing_of, place_of};
use rx_rules::Act;
use std::alloc::Global;

/// What a refusal means for an entry: that it is not allowed, unless memory is wanted.
pub(crate) fn refused(fault: LedgerFault) -> Result<bool, NoMemory>
    ensures { IfOk result (λ b. (b ≡ false) × IsRefusal fault) }
{
    match fault {
        LedgerFault::NoMemory => Err(NoMemory),
        LedgerFault::Lost { .. } => Ok(false),
        LedgerFault::NotYet { .. } => Ok(false),
    }
}

/// Whether a finish opens as the entry tells.
fn opens<L: FinishLedger>(
    ledger: &mut L,
    who: Caller,
    scope: ScopeId,
    parent: ScopeId,
) -> Result<bool, NoMemory>
    requires { (path : List ℕ) × SomeAsks L.stands ledger.old who (Open scope parent path) }
    ensures { IfOk result (λ b. (path : List ℕ) → Grants L.stands ledger.old ledger.new who (Open scope parent path) b) }
{
    match ledger.open_finish(who) {
        Ok(s) => Ok(s == scope && who.inner == parent),
        Err(fault) => refused(fault),
    }
}

/// Whether an at opens as the entry tells.
fn calls<L: FinishLedger>(
    ledger: &mut L,
    who: Caller,
    scope: ScopeId,
    parent: ScopeId,
    callee: TaskId,
    from: PlaceId,
    to: PlaceId,
) -> Result<bool, NoMemory>
    requires { (path : List ℕ) × SomeAsks L.stands ledger.old who (At from to scope parent callee path) }
    ensures { IfOk result (λ b. (path : List ℕ)
        → Grants L.stands ledger.old ledger.new who (At from to scope parent callee path) b) }
{
    if who.inner != parent || place_of(who.place) != from {
        return Ok(false);
    }
    match ledger.open_at(who, to) {
        Ok(born) => Ok(born.scope == scope && born.child == callee),
        Err(fault) => refused(fault),
    }
}

/// Whether a task starts as the entry tells.
fn starts<L: FinishLedger>(
    ledger: &mut L,
    who: Caller,
    child: TaskId,
    scope: ScopeId,
    from: PlaceId,
    to: PlaceId,
) -> Result<bool, NoMemory>
    requires { (path : List ℕ) × SomeAsks L.stands ledger.old who (Spawn child scope from to path) }
    ensures { IfOk result (λ b. (path : List ℕ) → Grants L.stands ledger.old ledger.new who (Spawn child scope from to path) b) }
{
    match ledger.spawn(who, to) {
        Ok(born) => {
            Ok(born.child == child && born.scope == scope && place_of(who.place) == from)
        }
        Err(fault) => refused(fault),
    }
}

/// The fault of a refusal that hands faults back.
fn fault_of(both: (LedgerFault, Faults)) -> LedgerFault
    ensures { result ≡ both.0 }
{
    both.0
}

/// Whether a task waits as the entry tells.
fn waits<L: FinishLedger>(
    alloc: Global,
    ledger: &mut L,
    who: Caller,
    scope: ScopeId,
    thrown: &Faults,
) -> Result<bool, NoMemory>
    requires { SomeAsks L.stands ledger.old who (Wait scope thrown.now) }
    ensures { IfOk result (λ b. Grants L.stands ledger.old ledger.new who (Wait scope thrown.now) b) }
{
    let faults = thrown.copy(alloc)?;
    match ledger.wait(who, faults) {
        Ok(()) => Ok(who.inner == scope),
        Err(both) => refused(fault_of(both)),
    }
}

/// A law: a set is a number of 16 bits.
pub(crate) fn set_fits(set: PlaceSet)
    ensures { set.0 < 2 ^ 16 }
{
    let _mask = set.0;
}

/// Whether a release names these places, counts so many faults and carries these.
pub(crate) fn same_outcome(outcome: &Outcome, lost: PlaceSet, masked: u32, thrown: &Faults) -> bool
    ensures { IsTrue result ↔ (outcome.now ≡ record { lost = lost; masked = masked; thrown = thrown.now }) }
{
    outcome.lost == lost && outcome.masked == masked && same_faults(&outcome.thrown, thrown)
}

/// Whether a scope is released as the entry tells.
fn releases<L: FinishLedger>(
    ledger: &mut L,
    who: Caller,
    scope: ScopeId,
    lost: PlaceSet,
    masked: u32,
    thrown: &Faults,
) -> Result<bool, NoMemory>
    requires { SomeAsks L.stands ledger.old who (Release scope lost masked thrown.now) }
    ensures { IfOk result (λ b. Grants L.stands ledger.old ledger.new who (Release scope lost masked thrown.now) b) }
{
    rx_base::members_make_the_set();
    if who.inner != scope {
        return Ok(false);
    }
    match ledger.release(who) {
        Ok(outcome) => {
            set_fits(lost);
            set_fits(outcome.lost);
            Ok(same_outcome(&outcome, lost, masked, thrown))
        }
        Err(fault) => refused(fault),
    }
}

/// Whether a task ends as the entry tells.
fn ends<L: FinishLedger>(
    alloc: Global,
    ledger: &mut L,
    who: Caller,
    thrown: &Faults,
) -> Result<bool, NoMemory>
    requires { SomeAsks L.stands ledger.old who (End thrown.now) }
    ensures { IfOk result (λ b. Grants L.stands ledger.old ledger.new who (End thrown.now) b) }
{
    let faults = thrown.copy(alloc)?;
    match ledger.end(who, faults) {
        Ok(()) => Ok(true),
        Err(both) => refused(fault_of(both)),
    }
}

/// Whether the ledger grants the act as it stands in the entry. Its condition is that the ledger may be asked for it. After a no the
/// ledger may have granted another act, and is of no more use.
pub(crate) fn grants<L: FinishLedger>(
    alloc: Global,
    ledger: &mut L,
    who: Caller,
    act: &Act,
) -> Result<bool, NoMemory>
    requires { SomeAsks L.stands ledger.old who act.now }
    ensures { IfOk result (λ b. Grants L.stands ledger.old ledger.new who act.now b) }
{
    match act {
        Act::Open { scope, parent, .. } => opens(ledger, who, *scope, *parent),
        Act::At {
            scope,
            parent,
            callee,
            from,
            to,
            ..
        } => calls(ledger, who, *scope, *parent, *callee, *from, *to),
        Act::Spawn {
            child,
            scope,
            from,
            to,
            ..
        } => starts(ledger, who, *child, *scope, *from, *to),
        Act::Arrive { place } => match ledger.arrive(who) {
            Ok(()) => Ok(landing_of(who.place) == *place),
            Err(fault) => refused(fault),
        },
        Act::Wait { scope, thrown } => waits(alloc, ledger, who, *scope, thrown),
        Act::Release {
            scope,
            lost,
            masked,
            thrown,
        } => releases(ledger, who, *scope, *lost, *masked, thrown),
        Act::End { thrown } => ends(alloc, ledger, who, thrown),
        Act::Print { .. } => match ledger.print(who) {
            Ok(()) => Ok(true),
            Err(fault) => refused(fault),
        },
        Act::Census { places, .. } => match ledger.census(who) {
            Ok(n) => Ok(n == *places),
            Err(fault) => refused(fault),
        },
    }
}
