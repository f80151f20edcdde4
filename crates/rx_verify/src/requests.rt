// How a task goes on after a request to the ledger, where an act is what it asked.
ghost use Rattle.std.specs.Prelude.{◌≡◌, ◌+◌, ◌<◌, ◌≤◌, ◌^◌, List, true, slice_index_or, IfOk, OnOk};
ghost use Rattle.rx_base.specs.declared.ids.PlaceId.{PlaceId};
ghost use Rattle.rx_base.specs.declared.values.Fault.{Fault};
ghost use Rattle.rx_rules.specs.declared.entries.Act.{Act};
ghost use Rattle.rx_rules.specs.declared.events.PlaceEvent.{PlaceEvent};
ghost use Rattle.rx_rules.specs.Picked.{Player};
ghost use Rattle.rx_rules.specs.Plays.{Cells};
ghost use Rattle.rx_rules.specs.Terms.{Term, Waits, does};
ghost use Rattle.rx_rules.specs.Tree.{the_root};
ghost use Rattle.rx_ledger.specs.TermAsks.{who_after};
ghost use Rattle.rx_history.specs.declared.step.Next.{Next};
ghost use Rattle.rx_history.specs.declared.step.Want.{Want};
ghost use Rattle.rx_history.specs.Next.{next_of};
ghost use Rattle.rx_control.specs.Stands.{StandsFor};
ghost use Rattle.rx_verdict.specs.Walks.{next_does};
ghost use Rattle.rx_verify.specs.Stood.{Stood};
ghost use Rattle.rx_verify.specs.Reaching.{wanted, right};
ghost use Rattle.rx_verify.specs.Inside.Requests.{ActIsAsked, CountsMore, IsGranted, AfterPath, AfterWait, AfterAct, AfterRequest};

use crate::seat::{Seat, Stop};
use rx_base::{Faults, NoMemory, Path, PlaceId, ScopeId, same_faults};
use rx_check::Program;
use rx_control::{Control, Want, faults_raised};
use rx_finish::Caller;
use rx_rules::{Act, Where};
use std::alloc::Global;

/// Whether the act is of the kind that is wanted, from here and for its place, or with its value.
fn is_wanted(want: &Want, here: PlaceId, act: &Act) -> bool
    ensures { result ≡ wanted want.now here act.now }
{
    match want {
        Want::Open => matches!(act, Act::Open { .. }),
        Want::At { to: place } => {
            matches!(act, Act::At { from, to, .. } if *to == *place && *from == here)
        }
        Want::Spawn { to: place } => {
            matches!(act, Act::Spawn { from, to, .. } if *to == *place && *from == here)
        }
        Want::Wait => matches!(act, Act::Wait { .. }),
        Want::Release => matches!(act, Act::Release { .. }),
        Want::Print { value } => matches!(act, Act::Print { value: z, .. } if *z == *value),
        Want::Census => matches!(act, Act::Census { .. }),
    }
}

/// Whether a task that has stopped so makes such an act next, whatever its path and its faults.
pub(crate) fn is_right(stop: &Stop, here: PlaceId, act: &Act) -> bool
    ensures { result ≡ right stop.now here act.now }
{
    match stop {
        Stop::Asks(want) => is_wanted(want, here, act),
        Stop::Ends => matches!(act, Act::End { .. }),
        Stop::Halts => false,
    }
}

impl Seat {
    /// Goes on after its request, where the act, with the number of its entry, is that.
    pub(crate) fn go_on(
        &mut self,
        alloc: Global,
        p: &Program,
        number: u32,
        act: &Act,
        parents: &[ScopeId],
    ) -> Result<bool, NoMemory>
        requires less { number + 1 < 2 ^ 32 }
        requires asks { (js : List (List PlaceEvent)) × (z : Player) × (left : Cells) × Stood p.now.script js self.old z left
            × ActIsAsked self.old.home (next_does self.old.home z) act.now }
        requires counts { CountsMore self.old.control.vars.places act.now }
        ensures { IfOk result (λ b. (js : List (List PlaceEvent)) (z : Player) (left : Cells) → Stood p.now.script js self.old z left
            → ActIsAsked self.old.home (next_does self.old.home z) act.now
            → AfterRequest p.now.script js parents.now self.old self.new number z left act.now b) }
    {
        if !answer(&mut self.control, alloc, p, act)? {
            return Ok(false);
        }
        self.who = who_after(self.who, act, parents);
        self.low = number + 1;
        Ok(true)
    }
}

/// Who a task is to the ledger after its act; these are the parents of the scopes by their numbers.
fn who_after(mut who: Caller, act: &Act, parents: &[ScopeId]) -> Caller
    ensures { result ≡ who_after parents.now act.now who }
{
    match act {
        Act::Open { scope, .. } | Act::At { scope, .. } => who.inner = *scope,
        Act::Arrive { place } => who.place = Where::At(*place),
        Act::Release { scope, .. } => who.inner = parent_of(parents, *scope),
        _ => {}
    }
    who
}

/// The parent of a scope.
fn parent_of(parents: &[ScopeId], s: ScopeId) -> ScopeId
    ensures { result ≡ slice_index_or parents.now s.0 the_root }
{
    match parents.get(s.0 as usize) {
        Some(parent) => *parent,
        None => ScopeId(0),
    }
}

/// Lets a control go on after its request, where the rest of the act is right.
fn answer(control: &mut Control, alloc: Global, p: &Program, act: &Act) -> Result<bool, NoMemory>
    requires asks { (t : Term) × (here : PlaceId) × StandsFor p.now.script control.old t
        × ActIsAsked here (does control.old.vars here.0 t) act.now }
    requires counts { CountsMore control.old.vars.places act.now }
    ensures { IfOk result (λ b. (t : Term) (here : PlaceId) → StandsFor p.now.script control.old t
        → ActIsAsked here (does control.old.vars here.0 t) act.now
        → AfterAct p.now.script control.old control.new here t act.now b) }
{
    match act {
        Act::Open { path, .. } => pass(control, alloc, p, path),
        Act::At { path, .. } => pass(control, alloc, p, path),
        Act::Spawn { path, .. } => pass(control, alloc, p, path),
        Act::Print { path, .. } => pass(control, alloc, p, path),
        Act::Census { places, path } => count(control, p, *places, path),
        Act::Wait { thrown, .. } => wait(control, alloc, p, thrown),
        Act::Release { lost, thrown, .. } => {
            let faults = faults_raised(alloc, *lost, thrown)?;
            resume(control, p, faults)?;
            Ok(true)
        }
        Act::Arrive { .. } | Act::End { .. } => Ok(false),
    }
}

/// Lets a control go on that asked with this path.
fn pass(control: &mut Control, alloc: Global, p: &Program, path: &Path) -> Result<bool, NoMemory>
    requires { (t : Term) × StandsFor p.now.script control.old t }
    ensures { IfOk result (λ b. (t : Term) → StandsFor p.now.script control.old t
        → AfterPath p.now.script control.old control.new t path.now b) }
{
    if !control.begins(p, path) {
        return Ok(false);
    }
    resume(control, p, Faults::open(alloc))?;
    Ok(true)
}

/// Tells a control that asked with this path the number of places.
fn count(control: &mut Control, p: &Program, places: u8, path: &Path) -> Result<bool, NoMemory>
    requires asks { (t : Term) × (here : PlaceId) × StandsFor p.now.script control.old t
        × (next_of (does control.old.vars here.0 t) ≡ Next.Book Want.Census) }
    requires counts { (1 ≤ places) × (places ≤ 16) × (control.old.vars.places ≤ places) }
    ensures { IfOk result (λ b. (t : Term) (here : PlaceId) → StandsFor p.now.script control.old t
        → next_of (does control.old.vars here.0 t) ≡ Next.Book Want.Census
        → AfterAct p.now.script control.old control.new here t (Act.Census places path.now) b) }
{
    if !control.begins(p, path) {
        return Ok(false);
    }
    control.census_done(p, places)?;
    Ok(true)
}

/// Lets a control go on that waits with these faults of the body.
fn wait(
    control: &mut Control,
    alloc: Global,
    p: &Program,
    thrown: &Faults,
) -> Result<bool, NoMemory>
    requires { (t : Term) × (here : PlaceId) × (faults : List Fault) × StandsFor p.now.script control.old t
        × (does control.old.vars here.0 t ≡ Waits faults) }
    ensures { IfOk result (λ b. (t : Term) (here : PlaceId) (faults : List Fault) → StandsFor p.now.script control.old t
        → does control.old.vars here.0 t ≡ Waits faults → AfterWait p.now.script control.old control.new t faults thrown.now b) }
{
    let faults = control.take_faults(alloc);
    if !same_faults(&faults, thrown) {
        return Ok(false);
    }
    resume(control, p, Faults::open(alloc))?;
    Ok(true)
}

/// Lets a control go on whose request was granted, which raises these faults.
fn resume(control: &mut Control, p: &Program, faults: Faults) -> Result<(), NoMemory>
    requires { (t : Term) × StandsFor p.now.script control.old t }
    ensures { OnOk result ((t : Term) → StandsFor p.now.script control.old t
        → IsGranted p.now.script control.new t faults × (control.new.vars ≡ control.old.vars)) }
{
    match control.resume(p, faults) {
        Ok(()) => Ok(()),
        Err(_) => Err(NoMemory),
    }
}
