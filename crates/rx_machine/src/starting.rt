// The turns that open a scope or start a task.
ghost use Rattle.std.specs.Prelude.{◌≡◌, OnOk, OnErr};
ghost use Rattle.rx_rules.specs.Terms.{Opens, Calls, Spawns};
ghost use Rattle.rx_chronicle.specs.Requests.{MayAskEntry};
ghost use Rattle.rx_machine.specs.Inside.Games.{SomeAsking, SomeDoing};
ghost use Rattle.rx_machine.specs.Inside.Acts.{HasAsked, HasDone};

use crate::machine::Machine;
use crate::seat::{Mover, go_on, new_seat, no_memory, path_of, prepare, seat_mover};
use rx_base::{Faults, NoMemory, PlaceId};
use rx_check::Program;
use rx_finish::FinishLedger;

impl<L: FinishLedger> Machine<L> {
    /// Ends a turn by the opening of a finish.
    pub(crate) fn open_finish(
        &mut self,
        p: &Program,
        i: usize,
        mover: Mover,
    ) -> Result<(), NoMemory>
        requires ready { MayAskEntry self.old.chronicle }
        requires game { SomeAsking p.now.script self.old i mover (λ d. d ≡ Opens) }
        ensures made { OnOk result (HasAsked p.now.script self.old self.new i mover (λ d. d ≡ Opens)) }
        ensures refused { OnErr result (self.new ≡ self.old) }
        ensures tasks { self.new.ready ≡ self.old.ready }
    {
        let Mover {
            mut who,
            waits,
            mut control,
            mut batch,
        } = mover;
        let mut path = path_of(self.alloc, p, &control)?;
        go_on(&mut control, p, Faults::open(self.alloc))?;
        match self.chronicle.open_finish(who, &mut batch, &mut path) {
            Ok(scope) => who.inner = scope,
            Err(fault) => return Err(no_memory(fault)),
        }
        seat_mover(&mut self.seats, i, who, waits, control);
        Ok(())
    }

    /// Ends a turn by the opening of an `at`, whose callee starts.
    pub(crate) fn open_at(
        &mut self,
        p: &Program,
        i: usize,
        mover: Mover,
        here: PlaceId,
        to: PlaceId,
    ) -> Result<(), NoMemory>
        requires ready { MayAskEntry self.old.chronicle }
        requires game { SomeDoing p.now.script self.old i here mover (λ d. d ≡ Calls to.0) }
        ensures made { OnOk result (HasDone p.now.script self.old self.new i here mover (λ d. d ≡ Calls to.0)) }
        ensures refused { OnErr result (self.new ≡ record self.old { seats = self.new.seats }) }
        ensures tasks { self.new.ready ≡ self.old.ready }
    {
        rx_tree_laws::reached_is_sound();
        rx_runs::games_come();
        rx_runs::known_places_are_there();
        rx_runs::going_tells_no_places();
        let Mover {
            mut who,
            mut control,
            mut batch,
            ..
        } = mover;
        let (mut path, seed) = prepare(self.alloc, p, &control, &mut self.seats)?;
        let entry = self.chronicle.history().len() as u32;
        go_on(&mut control, p, Faults::open(self.alloc))?;
        match self.chronicle.open_at(who, to, &mut batch, &mut path) {
            Ok(born) => {
                who.inner = born.scope;
                self.seats
                    .push_reserved(new_seat(born, here, to, seed, entry));
                seat_mover(&mut self.seats, i, who, true, control);
                Ok(())
            }
            Err(fault) => Err(no_memory(fault)),
        }
    }

    /// Ends a turn by the start of a task.
    pub(crate) fn spawn(
        &mut self,
        p: &Program,
        i: usize,
        mover: Mover,
        here: PlaceId,
        to: PlaceId,
    ) -> Result<(), NoMemory>
        requires ready { MayAskEntry self.old.chronicle }
        requires game { SomeDoing p.now.script self.old i here mover (λ d. d ≡ Spawns to.0) }
        ensures made { OnOk result (HasDone p.now.script self.old self.new i here mover (λ d. d ≡ Spawns to.0)) }
        ensures refused { OnErr result (self.new ≡ record self.old { seats = self.new.seats }) }
        ensures tasks { self.new.ready ≡ self.old.ready }
    {
        rx_tree_laws::reached_is_sound();
        rx_runs::games_come();
        rx_runs::known_places_are_there();
        rx_runs::going_tells_no_places();
        let Mover {
            who,
            waits,
            mut control,
            mut batch,
        } = mover;
        let (mut path, seed) = prepare(self.alloc, p, &control, &mut self.seats)?;
        let entry = self.chronicle.history().len() as u32;
        go_on(&mut control, p, Faults::open(self.alloc))?;
        match self.chronicle.spawn(who, to, &mut batch, &mut path) {
            Ok(born) => {
                self.seats
                    .push_reserved(new_seat(born, here, to, seed, entry));
                seat_mover(&mut self.seats, i, who, waits, control);
                Ok(())
            }
            Err(fault) => Err(no_memory(fault)),
        }
    }
}
