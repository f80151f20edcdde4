// How the ledger's object shows its history.
ghost use Rattle.std.specs.Prelude.{◌≡◌, ℕ, ◌≤◌, ◌<◌, ◌||◌, not, [], ◌∷◌, ◌++◌, take, length, MatchBool};
ghost use Rattle.rx_monitor.specs.declared.summary.Summary.{Summary as Seen};
ghost use Rattle.rx_monitor.specs.Boards.{EndsWith, MayFollow};
ghost use Rattle.rx_objects.specs.Shown.{board_of, summary_of, whole_of, BoardShows};

use rx_base::{PlaceSet, members_make_the_set};
use rx_finish::Totals;
use rx_ledger::{CountLedger, Keeper};
use rx_monitor::{BoardWriter, Summary};
use std::alloc::Global;
use std::marker::Model;
use std::sync::Wait;

/// Which board it is. No value of it is made.
pub struct BoardName {
    pub writer: BoardWriter,
}

impl Model for BoardName {
    ghost use Rattle.atomic_table.specs.Seated.{TableId};

    ghost Value = { TableId };

    ghost view = { λ n. n.writer.board };
}

/// The summary of a history without entries, whatever the number of places.
pub fn opening_summary() -> Summary
    ensures { (places : ℕ) → result ≡ summary_of places [] 0 }
{
    Summary {
        len: 0,
        scopes: 1,
        live: 1,
        travel: 0,
        dead: PlaceSet(0),
    }
}

/// Closes a board, if there is one.
pub fn end_board<R: Wait>(rt: &R, board: Option<BoardWriter>) {
    match board {
        Some(board) => board.close(rt),
        None => {}
    }
}

// The summary of all entries of a keeper.
fn summary(keeper: &Keeper<CountLedger>) -> Summary
    requires { keeper.now.behind ≡ [] }
    ensures { result ≡ whole_of keeper.now }
{
    members_make_the_set();
    let Totals {
        scopes,
        live,
        travel,
    } = keeper.totals();
    Summary {
        len: keeper.len(),
        scopes,
        live,
        travel,
        dead: keeper.deaths(),
    }
}

// Shows the summary of all entries. False means out of memory.
fn put_up<R: Wait>(
    rt: &R,
    alloc: Global,
    writer: &mut BoardWriter,
    keeper: &Keeper<CountLedger>,
) -> bool
    requires whole { keeper.now.behind ≡ [] }
    requires follows { (x : Seen) → EndsWith writer.old.list x → MayFollow x (whole_of keeper.now) }
    ensures board { writer.new.board ≡ writer.old.board }
    ensures shown { MatchBool result (writer.new.list ≡ writer.old.list ++ whole_of keeper.now ∷ [])
        (writer.new.list ≡ writer.old.list) }
{
    writer.show(rt, alloc, summary(keeper)).is_ok()
}

/// Shows the summary of all entries where there are more than `before`, if there is a board. `late` tells whether an earlier one could
/// not be shown. False means out of memory.
pub(crate) fn show_new<R: Wait>(
    rt: &R,
    alloc: Global,
    board: &mut Option<BoardWriter>,
    keeper: &Keeper<CountLedger>,
    before: u32,
    late: bool,
) -> bool
    requires before { before ≤ length keeper.now.entries }
    requires whole { before < length keeper.now.entries → keeper.now.behind ≡ [] }
    requires shows { BoardShows keeper.now.setup.places (take before keeper.now.entries) late board.old }
    ensures same { board_of board.new ≡ board_of board.old }
    ensures shows { BoardShows keeper.now.setup.places keeper.now.entries (late || not result) board.new }
{
    if keeper.len() == before {
        return true;
    }
    match board.take() {
        None => true,
        Some(mut writer) => {
            let shown = put_up(rt, alloc, &mut writer, keeper);
            let gone = board.replace(writer);
            let None = gone else { unreachable!() };
            shown
        }
    }
}
