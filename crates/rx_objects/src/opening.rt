// The books of a run, before their first entries.
ghost use Rattle.std.specs.Prelude.{◌≡◌, false, [], length, IfOk, IfSome, Some, slice_get};
ghost use Rattle.rx_rules.specs.Fold.{opening};
ghost use Rattle.rx_rules.specs.Run.{Proper};
ghost use Rattle.rx_history.specs.Setups.{given};
ghost use Rattle.rx_book.specs.Calls.{IsFresh};
ghost use Rattle.rx_book.specs.Passes.{view_of, word_of};
ghost use Rattle.rx_ledger.specs.Answering.{main_caller};
ghost use Rattle.rx_objects.specs.Shown.{board_of, BoardShows};
ghost use Rattle.rx_objects.specs.Opened.{IsPlaceBook, IsFirst};

use crate::laws::objects_open;
use crate::ledger::LedgerObject;
use crate::ledger_book::LedgerBook;
use crate::place::PlaceObject;
use crate::showing::end_board;
use crate::surroundings::LedgerAndGate;
use rx_base::{Gate, NoMemory, PlaceId};
use rx_book::{BareBook, Book, Pass};
use rx_check::Program;
use rx_counts::CountLedger;
use rx_finish::FinishLedger;
use rx_history::Setup;
use rx_ledger::Keeper;
use rx_monitor::BoardWriter;
use rx_parts::{EntryItem, EventItem};
use rx_store::Store;
use rx_ticket::{Live, Ticket};
use std::alloc::Global;
use std::sync::Wait;

/// The words of so many places' books.
pub fn open_words(alloc: Global, places: usize) -> Result<Vec<BareBook<EventItem>>, NoMemory>
    ensures { IfOk result (λ words. length words.items ≡ places) }
{
    let mut words = Vec::new(alloc);
    for _place in 0..places {
        words.push(BareBook::open(alloc)?)?;
    }
    Ok(words)
}

/// The ledger's book with its board, if it has one, the pass of its first caller, and the ticket of the main activity. After an `Err`
/// the board is closed.
pub fn open_ledger<R: Wait>(
    rt: &R,
    alloc: Global,
    p: &Program,
    setup: &Setup,
    ledger: CountLedger,
    words: &Vec<BareBook<EventItem>>,
    board: Option<BoardWriter>,
) -> Result<(Book<LedgerObject>, Pass<EntryItem>, Ticket<Live>), NoMemory>
    requires proper { Proper (given setup.now) }
    requires opened { ⟦<CountLedger as FinishLedger>⟧.stands ledger (length setup.now.joins) (opening setup.now.places) }
    requires board { BoardShows setup.now.places [] false board }
    ensures program { IfOk result (λ t. t.0.fixed.program ≡ p.now) }
    ensures board { IfOk result (λ t. t.0.fixed.board ≡ board_of board) }
    ensures setup { IfOk result (λ t. t.0.fixed.setup ≡ setup.now) }
    ensures places { IfOk result (λ t. t.0.fixed.places ≡ words.now.items) }
    ensures own { IfOk result (λ t. word_of t.1 ≡ t.0.word) }
    ensures fresh { IfOk result (λ t. IsFresh (view_of t.1)) }
    ensures ticket { IfOk result (λ t. t.2 ≡ main_caller) }
{
    objects_open();
    let Ok((keeper, ticket)) = Keeper::open(alloc, ledger, setup) else {
        end_board(rt, board);
        return Err(NoMemory);
    };
    let object = LedgerObject::open(alloc, keeper, p, words, board);
    match Book::open(rt, alloc, object) {
        Ok((book, pass)) => Ok((book, pass, ticket)),
        Err((object, refused)) => {
            ticket.spent();
            let _keeper = object.into_keeper(rt);
            Err(refused)
        }
    }
}

/// The book of a place over its word, and the pass of its first caller. `None` means out of memory.
pub fn open_place<'a, L: LedgerBook, G: Gate>(
    alloc: Global,
    ledger: &'a L,
    host: &mut Pass<EntryItem>,
    word: BareBook<EventItem>,
    place: PlaceId,
    heap: u32,
    gate: &'a G,
) -> Option<(Book<PlaceObject<LedgerAndGate<'a, L, G>>>, Pass<EventItem>)>
    requires own { word_of host.old ≡ (L.name ledger.now).word }
    requires unseen { ((view_of host.old).seen ≡ []) × ((view_of host.old).dead ≡ 0) }
    requires proper { Proper (given (L.name ledger.now).fixed.setup) }
    requires heap { heap ≡ (L.name ledger.now).fixed.setup.heap }
    requires word { slice_get (L.name ledger.now).fixed.places place.0 ≡ Some word }
    ensures same { (word_of host.new ≡ word_of host.old) × (view_of host.new ≡ view_of host.old) }
    ensures book { IfSome result (λ t. IsPlaceBook (L.name ledger.now) place t.0) }
    ensures first { IfSome result (λ t. IsFirst (L.name ledger.now) place.0 t.1) }
{
    objects_open();
    let Ok(store) = Store::open(alloc, place, heap) else {
        return None;
    };
    let Ok(note) = ledger.note(host) else {
        unreachable!()
    };
    let object = PlaceObject::open(place, store, note, LedgerAndGate { ledger, gate });
    match Book::over(alloc, word, object) {
        Ok(both) => Some(both),
        Err(_) => None,
    }
}
