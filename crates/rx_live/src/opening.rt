// The places of a run, before its first entry.
ghost use Rattle.std.specs.Prelude.{◌≡◌, ◌≤◌, ◌<◌, true, false, [], length, IfSome, IsSomeAnd, Some};
ghost use Rattle.rx_rules.specs.Run.{Proper};
ghost use Rattle.rx_history.specs.Setups.{given};
ghost use Rattle.rx_book.specs.Passes.{view_of, word_of};
ghost use Rattle.rx_objects.specs.Opened.{IsPlaceBook, IsFirst};
ghost use Rattle.rx_stations.specs.Stations.{AreFrom};
ghost use Rattle.rx_live.specs.Inside.Ending.{SeatsFrom, ArePlacesWith};

use rx_activities::Naming;
use rx_base::{Gate, PlaceId};
use rx_book::{BareBook, Book, Pass};
use rx_objects::{LedgerAndGate, LedgerBook, PlaceBook, PlaceObject, open_place};
use rx_parts::{EntryItem, EventItem};
use rx_stations::{Station, abandon_all};
use std::alloc::Global;
use std::sync::Wait;

/// All places of a run with the host's pass of the book of each, both in the order of the places; and the pass of the first caller of
/// the book of place 0.
pub(crate) struct Places<N: Naming, P: PlaceBook> {
    pub(crate) stations: Vec<Station<N, P>>,
    pub(crate) seats: Vec<Pass<EventItem>>,
    pub(crate) first: Option<Pass<EventItem>>,
}

/// Opens the places over their words. `None` means out of memory.
pub(crate) fn open_places<'a, N: Naming, L: LedgerBook, G: Gate, R: Wait>(
    rt: &R,
    alloc: Global,
    ledger: &'a L,
    host: &mut Pass<EntryItem>,
    words: Vec<BareBook<EventItem>>,
    heap: u32,
    gate: &'a G,
) -> Option<Places<N, Book<PlaceObject<LedgerAndGate<'a, L, G>>>>>
    requires ledger { L.name ledger.now ≡ N.ledger }
    requires own { word_of host.old ≡ N.ledger.word }
    requires unseen { ((view_of host.old).seen ≡ []) × ((view_of host.old).dead ≡ 0) }
    requires proper { Proper (given N.ledger.fixed.setup) }
    requires heap { heap ≡ N.ledger.fixed.setup.heap }
    requires words { words.items ≡ N.ledger.fixed.places }
    requires few { length words.items ≤ 16 }
    ensures same { (word_of host.new ≡ word_of host.old) × (view_of host.new ≡ view_of host.old) }
    ensures stations { IfSome result (λ t. AreFrom 0 t.stations.items × (length t.stations.items ≡ length words.items)) }
    ensures seats { IfSome result (λ t. SeatsFrom N.ledger 0 t.seats.items × (length t.seats.items ≡ length words.items)) }
    ensures first { IfSome result (λ t. 0 < length words.items → IsSomeAnd t.first (IsFirst N.ledger 0)) }
{
    let mut words = words;
    let mut places = Places {
        stations: Vec::new(alloc),
        seats: Vec::new(alloc),
        first: None,
    };
    'place: while let Some(word) = words.pop() {
        let place = PlaceId(words.len() as u8);
        let Some((book, first)) = open_place(alloc, ledger, host, word, place, heap, gate) else {
            places.abandon(rt);
            return None;
        };
        if !places.add(rt, alloc, place, book, first) {
            places.abandon(rt);
            return None;
        }
    }
    Some(places)
}

impl<N: Naming, P: PlaceBook> Places<N, P> {
    // Adds the place in front of the others. False means out of memory.
    fn add<R: Wait>(
        &mut self,
        rt: &R,
        alloc: Global,
        place: PlaceId,
        book: P,
        first: Pass<EventItem>,
    ) -> bool
        requires place { IsPlaceBook N.ledger place (P.name book) }
        requires first { IsFirst N.ledger place.0 first }
        ensures { result ≡ true → ArePlacesWith N.ledger place.0 (self.old.stations.items) (self.old.seats.items)
            self.new.stations.items self.new.seats.items self.new.first }
    {
        let mut first = first;
        let Ok(seat) = book.split(&mut first) else {
            unreachable!()
        };
        let Ok(key) = book.split(&mut first) else {
            unreachable!()
        };
        let station = match Station::open(alloc, place, book, key) {
            Ok(station) => station,
            Err(book) => {
                book.abandon(rt);
                return false;
            }
        };
        if let Err(refused) = self.stations.insert(0, station) {
            refused.value.abandon(rt);
            return false;
        }
        self.first = Some(first);
        self.seats.insert(0, seat).is_ok()
    }

    /// Gives up what is there.
    pub(crate) fn abandon<R: Wait>(self, rt: &R) {
        let Places {
            stations,
            seats: _,
            first: _,
        } = self;
        abandon_all(rt, stations);
    }
}
