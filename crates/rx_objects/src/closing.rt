// The ledger's book, after its last entry.
ghost use Rattle.std.specs.Prelude.{◌≡◌, ◌≤◌, ◌^◌, false, List, IfSome, length};
ghost use mathlib.Core.List.{IsPrefix};
ghost use Rattle.rx_rules.specs.Fold.{tree_of};
ghost use Rattle.rx_history.specs.Setups.{given, to_join};
ghost use Rattle.rx_book.specs.declared.views.Stamped.{Stamped};
ghost use Rattle.rx_book.specs.History.{items_of};
ghost use Rattle.rx_book.specs.Passes.{view_of, word_of};
ghost use Rattle.rx_parts.specs.declared.items.EntryItem.{EntryItem as Item};
ghost use Rattle.rx_objects.specs.Ledger.{LedgerIsLegal};
ghost use Rattle.rx_objects.specs.Shown.{board_of, BoardShows};
ghost use Rattle.rx_objects.specs.Ending.{entries_at, SeesEnd};

use crate::ledger::{LedgerObject, LedgerParts};
use crate::showing::end_board;
use rx_book::{Book, Pass};
use rx_check::{Program, checked};
use rx_counts::CountLedger;
use rx_finish::FinishLedger;
use rx_history::History;
use rx_ledger::Keeper;
use rx_monitor::BoardWriter;
use rx_parts::EntryItem;
use std::sync::Wait;

/// What the ledger's book leaves.
pub struct ClosedLedger {
    pub history: History,
    pub ledger: CountLedger,
    pub board: Option<BoardWriter>,
}

/// Closes the ledger's book by the host's pass. `None` where there was no memory to show a summary on the board, which is then closed.
pub fn close_ledger<R: Wait>(
    rt: &R,
    p: &Program,
    ledger: Book<LedgerObject>,
    host: Pass<EntryItem>,
) -> Option<ClosedLedger>
    requires program { ledger.fixed.program ≡ p.now }
    requires host { SeesEnd ledger host }
    ensures reach { (view_of host).reach ≤ length (view_of host).seen }
    ensures setup { IfSome result (λ r. r.history.setup ≡ ledger.fixed.setup) }
    ensures entries { IfSome result (λ r. r.history.entries ≡ entries_at (view_of host).seen) }
    ensures few { IfSome result (λ r. length r.history.entries ≤ 2 ^ 32) }
    ensures ledger { IfSome result (λ r. ⟦<CountLedger as FinishLedger>⟧.stands r.ledger
        (to_join (given ledger.fixed.setup) (tree_of ledger.fixed.setup.places r.history.entries))
        (tree_of ledger.fixed.setup.places r.history.entries)) }
    ensures board { IfSome result (λ r. (board_of r.board ≡ ledger.fixed.board)
        × BoardShows ledger.fixed.setup.places r.history.entries false r.board) }
{
    checked(p);
    let object = close_book(rt, ledger, host);
    let LedgerParts {
        keeper,
        board,
        late,
    } = object.into_parts();
    if late {
        end_board(rt, board);
        return None;
    }
    keeper.is_history();
    is_short(&keeper);
    let (history, ledger) = keeper.into_history();
    Some(ClosedLedger {
        history,
        ledger,
        board,
    })
}

// A keeper's entries have numbers of 32 bits. It does nothing when it runs.
fn is_short(keeper: &Keeper<CountLedger>)
    ensures { length keeper.now.entries ≤ 2 ^ 32 }
{
    let _shown = keeper.len();
}

// The object of a closed book.
fn close_book<R: Wait>(rt: &R, ledger: Book<LedgerObject>, host: Pass<EntryItem>) -> LedgerObject
    requires { word_of host ≡ ledger.word }
    ensures fixed { (result.setup ≡ ledger.fixed.setup) × (result.program ≡ ledger.fixed.program) }
    ensures board { result.board ≡ ledger.fixed.board }
    ensures closed { (h : List (Stamped Item)) × (result.entries ≡ items_of h) × LedgerIsLegal ledger.fixed h
        × IsPrefix (view_of host).seen h × ((view_of host).reach ≤ length h) }
{
    match ledger.close(rt, host) {
        Ok(object) => object,
        Err(refused) => {
            let (_ledger, _pass, _) = refused;
            unreachable!()
        }
    }
}

/// Ends the ledger's book as `Book::abandon` does, and drops what lay in it. Its board is closed.
pub fn abandon_ledger<R: Wait>(rt: &R, ledger: Book<LedgerObject>) {
    let _keeper = ledger.abandon(rt).into_keeper(rt);
}
