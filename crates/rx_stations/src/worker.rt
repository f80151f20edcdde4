// The turns of one worker.
ghost use Rattle.std.specs.Prelude.{◌≡◌, ◌<◌, length, IfSome};
ghost use Rattle.rx_stations.specs.Stations.{IsHall};

use crate::hall::Hall;
use crate::keys::{Keys, Letter};
use crate::station::Job;
use rx_activities::{Activity, Began, LedgerPass, Naming, Traveller, Turn};
use rx_base::Gate;
use rx_objects::{Hint, LedgerBook, PlaceBook};
use std::alloc::Global;
use std::marker::Model;
use std::sync::Wait;

/// A worker: its own keys of each place, and the ledger pass of an activity that is over, which has seen what those of all later ones
/// have. Contracts see the places of which it has keys, in their order.
#[derive(Drop)]
pub struct Worker<N: Naming> {
    number: u32,
    keys: Vec<Keys<N>>,
    kept: Option<LedgerPass<N>>,
}

impl<N: Naming> Model for Worker<N> {
    ghost use Rattle.std.specs.Prelude.{List};
    ghost use Rattle.rx_stations.specs.Stations.{PostName};

    ghost Value = { List PostName };

    ghost view = { λ w. w.keys.items };
}

impl<N: Naming> Worker<N> {
    /// A worker with keys of each place. `None` means out of memory.
    pub fn open<'a, L: LedgerBook, P: PlaceBook, R: Wait>(
        rt: &R,
        alloc: Global,
        hall: &Hall<'a, N, L, P>,
        number: u32,
    ) -> Option<Worker<N>>
        ensures { IfSome result (λ w. w ≡ hall.now.stations.items) }
    {
        let mut keys = Vec::new(alloc);
        for at in 0..hall.stations.len() {
            let own = hall.stations[at].new_keys(rt)?;
            keys.push(own).ok()?;
        }
        Some(Worker {
            number,
            keys,
            kept: None,
        })
    }

    /// Makes turns until no activity is left or memory was refused. It comes by the gate before each turn.
    pub fn work<'a, L: LedgerBook, P: PlaceBook, H: Gate, R: Wait>(
        &mut self,
        rt: &R,
        alloc: Global,
        hall: &Hall<'a, N, L, P>,
        gate: &H,
    )
        requires hall { IsHall N.ledger (L.name hall.now.ledger.now) hall.now.program.now hall.now.stations.items }
        requires some { 0 < length hall.now.stations.items }
        requires keys { self.old ≡ hall.now.stations.items }
        ensures { self.new ≡ self.old }
    {
        let mut held = None;
        let mut n = 0u64;
        hall.bed.begins();
        for _turn in rt.forever() {
            gate.turn(self.number, n);
            n = n.saturating_add(1);
            let Some(job) = self.next_job(rt, hall, held) else {
                hall.bed.leaves();
                return;
            };
            held = self.make(rt, alloc, hall, job);
        }
        unreachable!()
    }

    /// The ledger pass that it has kept.
    pub fn into_kept(self) -> Option<LedgerPass<N>> {
        self.kept
    }

    // What it does next: it goes on with what it has in hand, or looks for something until there is something. `None` where no
    // activity is left or memory was refused.
    fn next_job<'a, L: LedgerBook, P: PlaceBook, R: Wait>(
        &mut self,
        rt: &R,
        hall: &Hall<'a, N, L, P>,
        held: Option<Activity<N>>,
    ) -> Option<Job<N>>
        requires some { 0 < length hall.now.stations.items }
        requires keys { self.old ≡ hall.now.stations.items }
        ensures { self.new ≡ self.old }
    {
        let Some(activity) = held else {
            return self.find(rt, hall);
        };
        if hall.bed.is_done() {
            let _pass = activity.give_up();
            return None;
        }
        Some(Job::Move(activity))
    }

    // Looks for something to do until there is something. Before it sleeps it lies down and looks once more: who has put something
    // before that did not see that it lies.
    fn find<'a, L: LedgerBook, P: PlaceBook, R: Wait>(
        &mut self,
        rt: &R,
        hall: &Hall<'a, N, L, P>,
    ) -> Option<Job<N>>
        requires some { 0 < length hall.now.stations.items }
        requires keys { self.old ≡ hall.now.stations.items }
        ensures { self.new ≡ self.old }
    {
        for _look in rt.forever() {
            if hall.bed.is_done() {
                return None;
            }
            match self.look(rt, hall) {
                Some(job) => return Some(job),
                None => hall.bed.lies_down(),
            }
            match self.look(rt, hall) {
                Some(job) => {
                    hall.bed.gets_up(rt);
                    return Some(job);
                }
                None => hall.bed.sleeps(rt),
            }
        }
        unreachable!()
    }

    // Looks for something to do, from its own place on.
    fn look<'a, L: LedgerBook, P: PlaceBook, R: Wait>(
        &mut self,
        rt: &R,
        hall: &Hall<'a, N, L, P>,
    ) -> Option<Job<N>>
        requires some { 0 < length hall.now.stations.items }
        requires keys { self.old ≡ hall.now.stations.items }
        ensures { self.new ≡ self.old }
    {
        let places = hall.stations.len();
        let first = self.number as usize % places;
        for step in 0..places {
            if !hall.bed.has_more() {
                return None;
            }
            match self.look_at(rt, hall, (first + step) % places) {
                Some(job) => return Some(job),
                None => {}
            }
        }
        None
    }

    // Looks at one place.
    fn look_at<'a, L: LedgerBook, P: PlaceBook, R: Wait>(
        &mut self,
        rt: &R,
        hall: &Hall<'a, N, L, P>,
        at: usize,
    ) -> Option<Job<N>>
        requires inside { at < length hall.now.stations.items }
        requires keys { self.old ≡ hall.now.stations.items }
        ensures { self.new ≡ self.old }
    {
        hall.stations[at].next_job(rt, &hall.bed, &mut self.keys[at])
    }

    // Makes one turn, and tells what it leaves in hand.
    fn make<'a, L: LedgerBook, P: PlaceBook, R: Wait>(
        &mut self,
        rt: &R,
        alloc: Global,
        hall: &Hall<'a, N, L, P>,
        job: Job<N>,
    ) -> Option<Activity<N>>
        requires hall { IsHall N.ledger (L.name hall.now.ledger.now) hall.now.program.now hall.now.stations.items }
        requires keys { self.old ≡ hall.now.stations.items }
        ensures { self.new ≡ self.old }
    {
        match job {
            Job::Move(activity) => self.make_move(rt, alloc, hall, activity),
            Job::Land(Letter { traveller }) => self.land(rt, alloc, hall, traveller),
        }
    }

    // Makes a turn of an activity.
    fn make_move<'a, L: LedgerBook, P: PlaceBook, R: Wait>(
        &mut self,
        rt: &R,
        alloc: Global,
        hall: &Hall<'a, N, L, P>,
        activity: Activity<N>,
    ) -> Option<Activity<N>>
        requires hall { IsHall N.ledger (L.name hall.now.ledger.now) hall.now.program.now hall.now.stations.items }
        requires keys { self.old ≡ hall.now.stations.items }
        ensures { self.new ≡ self.old }
    {
        let deaths = hall.bed.deaths();
        let Some(station) = hall.station(activity.place()) else {
            hall.put(rt, activity);
            return None;
        };
        let mut hint = Hint::Nobody;
        let left = activity.turn(
            rt,
            alloc,
            hall.program,
            hall.ledger,
            station.book(),
            &hall.bed,
            &mut hint,
        );
        self.leave(rt, hall, left, hint, deaths)
    }

    // Makes an activity arrive.
    fn land<'a, L: LedgerBook, P: PlaceBook, R: Wait>(
        &mut self,
        rt: &R,
        alloc: Global,
        hall: &Hall<'a, N, L, P>,
        traveller: Traveller<N>,
    ) -> Option<Activity<N>>
        requires hall { IsHall N.ledger (L.name hall.now.ledger.now) hall.now.program.now hall.now.stations.items }
        requires keys { self.old ≡ hall.now.stations.items }
        ensures { self.new ≡ self.old }
    {
        let deaths = hall.bed.deaths();
        let at = traveller.target().0 as usize;
        if at >= hall.stations.len() {
            hall.bed.refuse();
            return None;
        }
        let seat = hall.stations[at].new_seat(&mut self.keys[at]);
        let mut hint = Hint::Nobody;
        let left = traveller.land(rt, alloc, hall.program, hall.ledger, seat, &mut hint);
        self.leave(rt, hall, left, hint, deaths)
    }

    // Does with each activity what a turn or an arrival leaves to do, and calls those whom its hint names. There had been so many deaths
    // before it. What stays in hand is given back.
    fn leave<'a, L: LedgerBook, P: PlaceBook, R: Wait>(
        &mut self,
        rt: &R,
        hall: &Hall<'a, N, L, P>,
        left: Turn<N>,
        hint: Hint,
        deaths: u64,
    ) -> Option<Activity<N>>
        requires ledger { L.name hall.now.ledger.now ≡ N.ledger }
        requires keys { self.old ≡ hall.now.stations.items }
        ensures { self.new ≡ self.old }
    {
        match hint {
            Hint::Everybody => hall.call_all(rt),
            Hint::NoMemory => hall.bed.refuse(),
            _ => {}
        }
        match left {
            Turn::Goes { activity, began } => self.start(rt, hall, activity, began),
            Turn::Busy(activity) => {
                hall.put(rt, activity);
                hall.bed.gives_way(rt);
                None
            }
            Turn::Waits(activity) => hall.keep(rt, activity, deaths),
            Turn::Over(pass) => {
                self.keep(hall.ledger, pass);
                hall.bed.ends();
                match hint {
                    Hint::Opener { scope, home } => hall.call(rt, scope, home),
                    _ => None,
                }
            }
            Turn::Failed(_pass) => {
                hall.bed.refuse();
                None
            }
        }
    }

    // Goes on with an activity, or with the one that it has started at its place. Then it goes behind the others there.
    fn start<'a, L: LedgerBook, P: PlaceBook, R: Wait>(
        &mut self,
        rt: &R,
        hall: &Hall<'a, N, L, P>,
        activity: Activity<N>,
        began: Option<Began<N>>,
    ) -> Option<Activity<N>>
        requires { self.old ≡ hall.now.stations.items }
        ensures { self.new ≡ self.old }
    {
        match began {
            None => Some(activity),
            Some(Began::Here(child)) => {
                hall.bed.starts();
                hall.put(rt, activity);
                Some(child)
            }
            Some(Began::Away(traveller)) => {
                hall.bed.starts();
                if !self.send(rt, hall, traveller) {
                    hall.bed.refuse();
                }
                Some(activity)
            }
        }
    }

    // Sends an activity to its place. False means out of memory.
    fn send<'a, L: LedgerBook, P: PlaceBook, R: Wait>(
        &mut self,
        rt: &R,
        hall: &Hall<'a, N, L, P>,
        traveller: Traveller<N>,
    ) -> bool
        requires { self.old ≡ hall.now.stations.items }
        ensures { self.new ≡ self.old }
    {
        let at = traveller.target().0 as usize;
        if at >= hall.stations.len() {
            return false;
        }
        hall.stations[at].send(rt, &hall.bed, &mut self.keys[at], traveller)
    }

    // Keeps the ledger pass of the first activity that is over. That of each later one becomes a note, which the kept pass meets.
    fn keep<L: LedgerBook>(&mut self, ledger: &L, pass: LedgerPass<N>)
        requires { L.name ledger.now ≡ N.ledger }
        ensures { self.new ≡ self.old }
    {
        self.kept = match self.kept.take() {
            None => Some(pass),
            Some(kept) => {
                let mut kept = kept.into_pass();
                ledger.meet(&mut kept, pass.into_pass().into_note());
                Some(LedgerPass::of(kept))
            }
        };
    }
}

/// One worker from its opening to its end, and what it has kept.
pub fn work<'a, N: Naming, L: LedgerBook, P: PlaceBook, G: Gate, R: Wait>(
    rt: &R,
    alloc: Global,
    hall: &Hall<'a, N, L, P>,
    gate: &G,
    number: u32,
) -> Option<LedgerPass<N>>
    requires hall { IsHall N.ledger (L.name hall.now.ledger.now) hall.now.program.now hall.now.stations.items }
    requires some { 0 < length hall.now.stations.items }
{
    let Some(mut worker) = Worker::open(rt, alloc, hall, number) else {
        gate.turn(number, 0);
        hall.bed.refuse();
        return None;
    };
    worker.work(rt, alloc, hall, gate);
    worker.into_kept()
}
