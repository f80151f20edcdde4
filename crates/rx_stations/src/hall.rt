// What all workers of a run share.
ghost use Rattle.std.specs.Prelude.{◌≡◌, Some, IfSome, slice_get};

use crate::bed::Bed;
use crate::station::Station;
use rx_activities::{Activity, Naming};
use rx_base::{PlaceId, ScopeId};
use rx_check::Program;
use rx_objects::{LedgerBook, PlaceBook};
use std::sync::Wait;

/// The program, the ledger's book and the places, and what workers tell one another. It can't be dropped.
pub struct Hall<'a, N: Naming, L: LedgerBook, P: PlaceBook> {
    pub program: &'a Program,
    pub ledger: &'a L,
    /// In the order of the places.
    pub stations: Vec<Station<N, P>>,
    pub(crate) bed: Bed,
}

impl<'a, N: Naming, L: LedgerBook, P: PlaceBook> Hall<'a, N, L, P> {
    /// A hall for a run of which only the main activity has begun.
    pub fn open(
        program: &'a Program,
        ledger: &'a L,
        stations: Vec<Station<N, P>>,
    ) -> Hall<'a, N, L, P>
        ensures program { result.program.now ≡ program.now }
        ensures ledger { result.ledger.now ≡ ledger.now }
        ensures stations { result.stations.items ≡ stations.items }
    {
        Hall {
            program,
            ledger,
            stations,
            bed: Bed::of_one(),
        }
    }

    /// The station of a place, where there is such a place.
    pub(crate) fn station(&self, place: PlaceId) -> Option<&Station<N, P>>
        ensures { IfSome result (λ s. slice_get self.now.stations.items place.0 ≡ Some s.now) }
    {
        let at = place.0 as usize;
        if at >= self.stations.len() {
            return None;
        }
        Some(&self.stations[at])
    }

    /// Puts an activity that may go on behind the others of its place. Where there is no memory it is given up.
    pub fn put<R: Wait>(&self, rt: &R, a: Activity<N>) {
        self.bed.puts();
        let put = match self.station(a.place()) {
            Some(station) => station.queue(rt).put(a),
            None => Err(a),
        };
        match put {
            Ok(()) => {}
            Err(a) => self.give_up(a),
        }
    }

    /// Lets the opener of a scope wait at its place until it is called. It is given back where that was done before: where it was called,
    /// or all were since there had been so many deaths. Where there is no memory it is given up.
    pub(crate) fn keep<R: Wait>(&self, rt: &R, a: Activity<N>, deaths: u64) -> Option<Activity<N>> {
        let (Some(station), Some(scope)) = (self.station(a.place()), a.waits_at()) else {
            self.give_up(a);
            return None;
        };
        let mut queue = station.queue(rt);
        if self.bed.deaths() != deaths {
            return Some(a);
        }
        match queue.keep(scope, a) {
            Ok(called) => called,
            Err(a) => {
                self.give_up(a);
                None
            }
        }
    }

    /// Calls the opener of a scope, and takes it out if it waits at its place.
    pub(crate) fn call<R: Wait>(
        &self,
        rt: &R,
        scope: ScopeId,
        home: PlaceId,
    ) -> Option<Activity<N>> {
        match self.station(home)?.queue(rt).call(scope) {
            Ok(called) => called,
            Err(_) => {
                self.bed.refuse();
                None
            }
        }
    }

    /// Calls all that wait, since a place has died: they go behind the others of their places.
    pub(crate) fn call_all<R: Wait>(&self, rt: &R) {
        self.bed.dies();
        for at in 0..self.stations.len() {
            if !self.stations[at].queue(rt).call_all(&self.bed) {
                self.bed.refuse();
            }
        }
    }

    // Gives up an activity for which there was no memory.
    fn give_up(&self, a: Activity<N>) {
        let _pass = a.give_up();
        self.bed.refuse();
    }

    /// Whether memory was refused.
    pub fn is_refused(&self) -> bool {
        self.bed.is_refused()
    }

    /// The places.
    pub fn into_stations(self) -> Vec<Station<N, P>>
        ensures { result.items ≡ self.entry.stations.items }
    {
        let Hall {
            program: _,
            ledger: _,
            stations,
            bed: _,
        } = self;
        stations
    }

    /// Gives up what is there.
    pub fn abandon<R: Wait>(self, rt: &R) {
        abandon_all(rt, self.into_stations());
    }
}

/// Gives up the places.
pub fn abandon_all<N: Naming, P: PlaceBook, R: Wait>(rt: &R, stations: Vec<Station<N, P>>) {
    let mut stations = stations;
    'rest: while let Some(station) = stations.pop() {
        station.abandon(rt);
    }
    stations.destroy_empty();
}
