// Whether an entry of a task is what it makes: first whether it makes such an act, and who asks the ledger for it; and where the
// ledger has granted it, the rest. A task that it starts has a slot then.
ghost use Rattle.std.specs.Prelude.{◌≡◌, ◌+◌, ◌<◌, ◌^◌, ◌++◌, ℕ, List, Some, MatchOption, IfOk, OnOk, length};
ghost use Rattle.std.specs.Prelude.{option_to_list, slice_get, slice_set};
ghost use Rattle.std.specs.Global.{Box};
ghost use Rattle.rx_rules.specs.declared.entries.Act.TheVariants.{End};
ghost use Rattle.rx_rules.specs.declared.events.PlaceEvent.{PlaceEvent};
ghost use Rattle.rx_rules.specs.Picked.{Player};
ghost use Rattle.rx_rules.specs.Plays.{Cells};
ghost use Rattle.rx_rules.specs.Terms.{begins};
ghost use Rattle.rx_chronicle.specs.Told.{parents_by};
ghost use Rattle.rx_history.specs.Events.{events_of};
ghost use Rattle.rx_syntax.specs.Shape.{Shape};
ghost use Rattle.rx_verdict.specs.Walks.{next_does};
ghost use Rattle.rx_verify.specs.declared.players.Slot.TheVariants.{Away, Here, Over};
ghost use Rattle.rx_verify.specs.Reaching.{Awaited, Reached, Granted, IsMade};
ghost use Rattle.rx_verify.specs.Stood.{Stood};
ghost use Rattle.rx_verify.specs.Inside.Admitted.{HasLanded, NoneMakes, OneMakes, GoesAfter};
ghost use Rattle.rx_verify.specs.Inside.Requests.{ActIsAsked, IsChild, IsNewborn, slot_for};

use crate::along::Along;
use crate::players::{Players, Slot};
use crate::requests::is_right;
use crate::seat::{Seat, Stop};
use crate::table::EventTable;
use rx_base::{Batch, Faults, NoMemory, PlaceId, ScopeId, TaskId, same_faults};
use rx_check::Program;
use rx_finish::{Caller, travel};
use rx_history::Journals;
use rx_rules::{Act, Where};
use std::alloc::Global;

impl Players {
    /// Who asks the ledger for the act of the entry with this number, where its task makes such an act next: it walks on to where it
    /// stops, and has to begin the entry's batch. That caller may ask for the act. None where with the entry the entries are no part of
    /// a run. It is asked of one entry of a task after another. After None, or where memory ran out, the players are of no more use.
    pub fn reach(
        &mut self,
        alloc: Global,
        p: &Program,
        journals: &Journals,
        number: u32,
        task: TaskId,
        act: &Act,
        batch: &Batch,
    ) -> Result<Option<Caller>, NoMemory>
        requires few { number + 1 < 2 ^ 31 }
        requires awaits { Awaited p.now.script (events_of journals.now) number self.old task act.now batch.now }
        ensures { IfOk result (Reached p.now.script (events_of journals.now) number self.old self.new task act.now batch.now) }
    {
        rx_verdict::parts_may_follow();
        rx_verdict::seats_arrive();
        rx_verdict::seats_refuse();
        let t = task.0 as usize;
        if self.slots.len() <= t {
            return Ok(None);
        }
        match &self.slots[t] {
            Slot::Away(seat) => {
                let Act::Arrive { .. } = act else {
                    return Ok(None);
                };
                if batch.len() != 0 {
                    return Ok(None);
                }
                Ok(Some(seat.who))
            }
            Slot::Here(_) => self.play(alloc, p, journals, number, task, act, batch),
            Slot::Over => Ok(None),
        }
    }

    // The same of a task that is at its place.
    fn play(
        &mut self,
        alloc: Global,
        p: &Program,
        journals: &Journals,
        number: u32,
        task: TaskId,
        act: &Act,
        batch: &Batch,
    ) -> Result<Option<Caller>, NoMemory>
        requires few { number + 1 < 2 ^ 31 }
        requires awaits { Awaited p.now.script (events_of journals.now) number self.old task act.now batch.now }
        requires here { (seat : Box Seat) × (slice_get self.old.slots.items task.0 ≡ Some (Here seat)) }
        ensures { IfOk result (Reached p.now.script (events_of journals.now) number self.old self.new task act.now batch.now) }
    {
        rx_verdict::entries_come();
        rx_verdict::parts_may_follow();
        rx_verdict::seats_ask();
        rx_verdict::seats_end();
        rx_verdict::seats_refuse();
        let mut along = Along::open(batch);
        let t = task.0 as usize;
        let stop = self.walk(alloc, p, journals, t, Some(number), &mut along)?;
        if !along.is_whole() {
            return Ok(None);
        }
        Ok(self.asker(task, stop, act))
    }

    // Who asks for the act, where a task that has stopped so makes such an act.
    fn asker(&self, task: TaskId, stop: Stop, act: &Act) -> Option<Caller>
        requires { (seat : Box Seat) × (slice_get self.now.slots.items task.0 ≡ Some (Here seat)) }
        ensures { MatchOption result (NoneMakes self.now.slots.items task stop act.now) (OneMakes self.now.slots.items task stop act.now) }
    {
        let Slot::Here(seat) = &self.slots[task.0 as usize] else {
            unreachable!()
        };
        let seat = &**seat;
        if is_right(&stop, seat.home, act) {
            Some(seat.who)
        } else {
            None
        }
    }

    /// Whether the act that the ledger has granted is what its task makes, with its path and its faults; the players stand after the
    /// entry then. After a no, or where memory ran out, they are of no more use.
    pub fn go_on(
        &mut self,
        alloc: Global,
        p: &Program,
        number: u32,
        task: TaskId,
        act: &Act,
    ) -> Result<bool, NoMemory>
        requires less { number + 1 < 2 ^ 32 }
        requires ready { Granted p.now.script number self.old task act.now }
        ensures { IfOk result (IsMade p.now.script number self.old self.new task act.now) }
    {
        rx_verdict::seats_arrive();
        match act {
            Act::Arrive { place } => {
                self.land(number, task, *place);
                Ok(true)
            }
            Act::End { thrown } => Ok(self.end(alloc, task, thrown)),
            _ => self.resume(alloc, p, number, task, act),
        }
    }

    // A task that travels is at its place.
    fn land(&mut self, number: u32, task: TaskId, place: PlaceId)
        requires less { number + 1 < 2 ^ 32 }
        requires away { (seat : Box Seat) × (slice_get self.old.slots.items task.0 ≡ Some (Away seat)) }
        ensures { (seat : Box Seat) → slice_get self.old.slots.items task.0 ≡ Some (Away seat)
            → HasLanded self.old self.new number task place seat }
    {
        let mut taken = take_seat(&mut self.slots, task);
        let seat = &mut *taken;
        seat.low = number + 1;
        seat.who.place = Where::At(place);
        put_in(&mut self.slots, task, Slot::Here(taken));
    }

    // Whether a task whose term is done ends with these faults; its slot is over then.
    fn end(&mut self, alloc: Global, task: TaskId, thrown: &Faults) -> bool
        requires here { (seat : Box Seat) × (slice_get self.old.slots.items task.0 ≡ Some (Here seat)) }
        requires ready { (shape : Shape) × (number : ℕ) × Granted shape number self.old task (End thrown.now) }
        ensures { (shape : Shape) (number : ℕ) → IsMade shape number self.old self.new task (End thrown.now) result }
    {
        rx_verdict::seats_tell();
        rx_verdict::seats_end();
        let Slot::Here(seat) = &mut self.slots[task.0 as usize] else {
            unreachable!()
        };
        let seat = &mut **seat;
        if !same_faults(&seat.control.take_faults(alloc), thrown) {
            return false;
        }
        put_in(&mut self.slots, task, Slot::Over);
        true
    }

    // Whether the rest of a request that was granted is right; its task has gone on then, and has a slot for whom it starts.
    fn resume(
        &mut self,
        alloc: Global,
        p: &Program,
        number: u32,
        task: TaskId,
        act: &Act,
    ) -> Result<bool, NoMemory>
        requires less { number + 1 < 2 ^ 32 }
        requires here { (seat : Box Seat) × (slice_get self.old.slots.items task.0 ≡ Some (Here seat)) }
        requires ready { Granted p.now.script number self.old task act.now }
        requires goes { GoesAfter act.now }
        ensures { IfOk result (IsMade p.now.script number self.old self.new task act.now) }
    {
        rx_tree_laws::reached_is_sound();
        rx_verdict::seats_ask();
        let Slot::Here(seat) = &mut self.slots[task.0 as usize] else {
            unreachable!()
        };
        let seat = &mut **seat;
        let newborn = newborn(&self.table, alloc, p, number, seat, act)?;
        if !seat.go_on(alloc, p, number, act, &self.parents)? {
            return Ok(false);
        }
        add(&mut self.slots, newborn)?;
        note_parent(&mut self.parents, act)?;
        Ok(true)
    }
}

/// The slot of the task that the act starts which the seat's task asks, or none.
fn newborn(
    table: &EventTable,
    alloc: Global,
    p: &Program,
    number: u32,
    seat: &Seat,
    act: &Act,
) -> Result<Option<Slot>, NoMemory>
    requires less { number + 1 < 2 ^ 32 }
    requires asks { (js : List (List PlaceEvent)) × (z : Player) × (left : Cells) × Stood p.now.script js seat.now z left
        × ActIsAsked seat.now.home (next_does seat.now.home z) act.now }
    ensures { IfOk result (λ o. (js : List (List PlaceEvent)) (z : Player) (left : Cells) → Stood p.now.script js seat.now z left
        → ActIsAsked seat.now.home (next_does seat.now.home z) act.now → IsNewborn p.now.script table.now number z act.now o) }
{
    match act {
        Act::At {
            callee,
            scope,
            from,
            to,
            ..
        } => {
            let child = child_of(table, alloc, p, number, seat, *callee, *scope, *from, *to)?;
            Ok(Some(born_slot(*from, *to, child)))
        }
        Act::Spawn {
            child,
            scope,
            from,
            to,
            ..
        } => {
            let child = child_of(table, alloc, p, number, seat, *child, *scope, *from, *to)?;
            Ok(Some(born_slot(*from, *to, child)))
        }
        _ => Ok(None),
    }
}

/// The seat of the task that the seat's next step starts under a scope, at one place for another.
fn child_of(
    table: &EventTable,
    alloc: Global,
    p: &Program,
    number: u32,
    seat: &Seat,
    task: TaskId,
    scope: ScopeId,
    from: PlaceId,
    to: PlaceId,
) -> Result<Box<Seat>, NoMemory>
    requires less { number + 1 < 2 ^ 32 }
    requires begins { (js : List (List PlaceEvent)) × (z : Player) × (left : Cells) × (x : List ℕ) × Stood p.now.script js seat.now z left
        × (begins z.term ≡ Some x) }
    ensures { IfOk result (λ child. (js : List (List PlaceEvent)) (z : Player) (left : Cells) (x : List ℕ)
        → Stood p.now.script js seat.now z left → begins z.term ≡ Some x
        → IsChild p.now.script table.now number z task scope from to child.value) }
{
    let who = Caller {
        task,
        scope,
        inner: scope,
        place: travel(from, to),
    };
    let child = Seat {
        who,
        home: to,
        control: seat.control.child(alloc, p)?,
        position: table.first(to, task),
        low: number + 1,
    };
    Ok(Box::new(alloc, child)?)
}

/// The slot of a task that is started at one place for another, or for the same.
fn born_slot(from: PlaceId, to: PlaceId, seat: Box<Seat>) -> Slot
    ensures { result ≡ slot_for from to seat }
{
    if from == to {
        Slot::Here(seat)
    } else {
        Slot::Away(seat)
    }
}

/// Takes the seat of a task that travels out of its slot, which is over then.
fn take_seat(slots: &mut Vec<Slot>, task: TaskId) -> Box<Seat>
    requires { (seat : Box Seat) × (slice_get slots.old.items task.0 ≡ Some (Away seat)) }
    ensures away { (seat : Box Seat) → slice_get slots.old.items task.0 ≡ Some (Away seat) → result ≡ seat }
    ensures left { slots.new.items ≡ slice_set slots.old.items task.0 Over }
{
    match std::mem::replace(&mut slots[task.0 as usize], Slot::Over) {
        Slot::Away(seat) => seat,
        Slot::Here(_) | Slot::Over => unreachable!(),
    }
}

/// Puts another slot of a task in the place of its slot.
fn put_in(slots: &mut Vec<Slot>, task: TaskId, slot: Slot)
    requires { task.0 < length slots.old.items }
    ensures { slots.new.items ≡ slice_set slots.old.items task.0 slot }
{
    slots[task.0 as usize] = slot;
}

/// Adds the slot of a task that was started, where there is one.
fn add(slots: &mut Vec<Slot>, newborn: Option<Slot>) -> Result<(), NoMemory>
    ensures { OnOk result (slots.new.items ≡ slots.old.items ++ option_to_list newborn) }
{
    if let Some(slot) = newborn {
        slots.push(slot)?;
    }
    Ok(())
}

/// Adds the parent of the scope that an act opens, where it opens one.
fn note_parent(parents: &mut Vec<ScopeId>, act: &Act) -> Result<(), NoMemory>
    ensures { OnOk result (parents.new.items ≡ parents.old.items ++ parents_by act.now) }
{
    if let Act::Open { parent, .. } | Act::At { parent, .. } = act {
        parents.push(*parent)?;
    }
    Ok(())
}
