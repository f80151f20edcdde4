// How the task that a pick moves comes to its next entry; and the turns of an arrival, a print and a census.
ghost use Rattle.std.specs.Prelude.{◌≡◌, ℕ, OnOk, OnErr};
ghost use Rattle.rx_rules.specs.Terms.{Prints, Counts};
ghost use Rattle.rx_chronicle.specs.Requests.{MayAskEntry};
ghost use Rattle.rx_machine.specs.Refusals.{HasStopped};
ghost use Rattle.rx_machine.specs.Runs.{AfterTurn};
ghost use Rattle.rx_machine.specs.Inside.Games.{SomeTaken, EachTaken, SomeActing, EachActing, EachStopped, SomeAsking, EachMore};
ghost use Rattle.rx_machine.specs.Inside.Games.{SomeLanding, EachLanding};
ghost use Rattle.rx_machine.specs.Inside.Acts.{HasAsked};

use crate::beginning::rouse;
use crate::machine::Machine;
use crate::seat::{Mover, Seat, go_on, no_memory, path_of, put_back, seat_mover, take_seat};
use rx_base::{Batch, Faults, NoMemory, PlaceId};
use rx_check::Program;
use rx_control::{Next, Want};
use rx_finish::FinishLedger;
use rx_rules::Where;

impl<L: FinishLedger> Machine<L> {
    // Moves the task of a slot, which the pick moves, up to its next entry.
    pub(crate) fn move_task(&mut self, p: &Program, i: usize) -> Result<(), NoMemory>
        requires ready { MayAskEntry self.old.chronicle }
        requires game { SomeTaken p.now.script self.old i }
        ensures made { OnOk result (EachTaken p.now.script self.old i (λ code U k G. AfterTurn p.now.script code U self.new k G)) }
        ensures refused { OnErr result (EachTaken p.now.script self.old i (λ code U k G. HasStopped U k G self.new)) }
        ensures setup { OnErr result (self.new.chronicle.setup ≡ self.old.chronicle.setup) }
        ensures tasks { self.new.ready ≡ self.old.ready }
    {
        rx_tree_laws::reached_is_sound();
        rx_runs::games_come();
        match take_seat(&mut self.seats, i) {
            Some(seat) => match seat.who.place {
                Where::Travel { to, .. } => self.arrive(i, seat, to),
                Where::At(here) => {
                    let history = self.chronicle.history();
                    let mover = rouse(self.alloc, p, history, &mut self.idle, seat)?;
                    self.act(p, i, mover, here)
                }
            },
            None => unreachable!(),
        }
    }

    // Makes a task at a place go on to its next entry.
    fn act(
        &mut self,
        p: &Program,
        i: usize,
        mut mover: Mover,
        here: PlaceId,
    ) -> Result<(), NoMemory>
        requires ready { MayAskEntry self.old.chronicle }
        requires game { SomeActing p.now.script self.old i here mover }
        ensures made { OnOk result (EachActing p.now.script self.old i here mover (λ code U k q G.
            AfterTurn p.now.script code U self.new k G)) }
        ensures refused { OnErr result (EachStopped p.now.script self.old self.new i here mover) }
        ensures setup { OnErr result (self.new.chronicle.setup ≡ self.old.chronicle.setup) }
        ensures tasks { self.new.ready ≡ self.old.ready }
    {
        let next = self.run_on(p, i, &mut mover, here)?;
        match next {
            Next::Book(Want::Open) => self.open_finish(p, i, mover),
            Next::Book(Want::At { to }) => self.open_at(p, i, mover, here, to),
            Next::Book(Want::Spawn { to }) => self.spawn(p, i, mover, here, to),
            Next::Book(Want::Wait) => self.wait(p, i, mover),
            Next::Book(Want::Release) => self.release(p, i, mover),
            Next::Book(Want::Print { value }) => self.print(p, i, mover, value),
            Next::Book(Want::Census) => self.census(p, i, mover),
            Next::Done => self.end(mover),
            Next::Local => unreachable!(),
            Next::Cell(_) => unreachable!(),
        }
    }

    // Ends a turn by an arrival. It takes no memory.
    fn arrive(&mut self, i: usize, mut seat: Seat, to: PlaceId) -> Result<(), NoMemory>
        requires ready { MayAskEntry self.old.chronicle }
        requires game { SomeLanding self.old i to seat }
        ensures made { OnOk result (EachLanding self.old i to seat (λ shape code U k G. AfterTurn shape code U self.new k G)) }
        ensures refused { OnErr result (self.new ≡ self.old) }
        ensures tasks { self.new.ready ≡ self.old.ready }
    {
        let mut batch = Batch::open(self.alloc);
        match self.chronicle.arrive(seat.who, &mut batch) {
            Ok(()) => seat.who.place = Where::At(to),
            Err(fault) => return Err(no_memory(fault)),
        }
        put_back(&mut self.seats, i, seat);
        Ok(())
    }

    // Ends a turn by a print.
    fn print(&mut self, p: &Program, i: usize, mover: Mover, value: i64) -> Result<(), NoMemory>
        requires ready { MayAskEntry self.old.chronicle }
        requires game { SomeAsking p.now.script self.old i mover (λ d. d ≡ Prints value) }
        ensures made { OnOk result (HasAsked p.now.script self.old self.new i mover (λ d. d ≡ Prints value)) }
        ensures refused { OnErr result (self.new ≡ self.old) }
        ensures tasks { self.new.ready ≡ self.old.ready }
    {
        let Mover {
            who,
            waits,
            mut control,
            mut batch,
        } = mover;
        let mut path = path_of(self.alloc, p, &control)?;
        go_on(&mut control, p, Faults::open(self.alloc))?;
        match self.chronicle.print(who, value, &mut batch, &mut path) {
            Ok(()) => {}
            Err(fault) => return Err(no_memory(fault)),
        }
        seat_mover(&mut self.seats, i, who, waits, control);
        Ok(())
    }

    // Ends a turn by a census: the task is told the number of places.
    fn census(&mut self, p: &Program, i: usize, mover: Mover) -> Result<(), NoMemory>
        requires ready { MayAskEntry self.old.chronicle }
        requires game { SomeAsking p.now.script self.old i mover (λ d. (name : ℕ) × (d ≡ Counts name)) }
        ensures made { OnOk result (HasAsked p.now.script self.old self.new i mover (λ d. (name : ℕ) × (d ≡ Counts name))) }
        ensures refused { OnErr result (EachMore p.now.script self.old self.new i mover (λ d. (name : ℕ) × (d ≡ Counts name))) }
        ensures setup { OnErr result (self.new.chronicle.setup ≡ self.old.chronicle.setup) }
        ensures tasks { self.new.ready ≡ self.old.ready }
    {
        rx_runs::games_come();
        rx_runs::known_places_are_there();
        rx_runs::going_tells_no_places();
        let Mover {
            who,
            waits,
            mut control,
            mut batch,
        } = mover;
        let mut path = path_of(self.alloc, p, &control)?;
        let places = match self.chronicle.census(who, &mut batch, &mut path) {
            Ok(places) => places,
            Err(fault) => return Err(no_memory(fault)),
        };
        control.census_done(p, places)?;
        seat_mover(&mut self.seats, i, who, waits, control);
        Ok(())
    }
}
