// The ledger's object: the keeper, the notes of places' books that have the events which its entries name, and the board on which it
// shows its history as that grows.
ghost use Rattle.std.specs.Prelude.{◌≡◌, ◌+◌, ◌<◌, ◌^◌, ◌&&◌, ◌||◌, not, [], true, false, MatchBool, nat_lt};
ghost use Rattle.rx_objects.specs.Noted.{asked_place, with_note};
ghost use Rattle.rx_objects.specs.Mentioned.{entries_in};
ghost use Rattle.rx_objects.specs.Ledger.{MayBeAsked, is_root_done};
ghost use Rattle.rx_objects.specs.Shown.{board_of, BoardShows};
ghost use Rattle.rx_objects.specs.Inside.Stepping.{Stepped};

use crate::hint::{Hint, end_under, hint_of};
use crate::mentions::Mentions;
use crate::scopes::ScopeSet;
use crate::showing::{BoardName, end_board, show_new};
use crate::trail::Trail;
use rx_base::{PlaceId, PlaceSet};
use rx_book::{BareBook, Note, Object};
use rx_check::Program;
use rx_finish::place_of;
use rx_history::Setup;
use rx_ledger::{CountLedger, Keeper, Reply, Request};
use rx_monitor::BoardWriter;
use rx_parts::{EntryItem, EventItem};
use rx_ticket::AnyTicket;
use std::alloc::Global;
use std::collections::LinkedList;
use std::marker::Model;
use std::snapshot::Snapshot;
use std::sync::Wait;

/// An operation of the ledger's book: a request, a note of the book of the caller's place, where its task made events since its entry
/// before, and what the entry is to mention.
pub struct LedgerOp {
    pub request: Request,
    pub note: Option<Note<EventItem>>,
    pub mentions: Mentions,
}

/// The keeper's answer, all the notes that were kept where the root's release was appended, and whom to call.
pub struct LedgerReply {
    pub reply: Reply,
    pub notes: Vec<(PlaceId, Note<EventItem>)>,
    /// False where entries were appended and there was no memory to show so on the board.
    pub shown: bool,
    /// Whose release the call may have made possible.
    pub hint: Hint,
}

/// One call: the keeper after it, and what its operation mentioned. It has no bytes.
#[derive(Drop)]
pub struct LedgerCall {
    pub keeper: Snapshot<Keeper<CountLedger>>,
    pub mentions: Mentions,
}

/// What is fixed of the ledger's object: what is run, the words of the places' books, and its board. No value of it is made.
pub struct LedgerFixed {
    pub program: Program,
    pub setup: Setup,
    pub places: LinkedList<BareBook<EventItem>>,
    pub board: Option<BoardName>,
}

/// Which ledger's book it is: its word, and what is fixed of its object. No value of it is made.
pub struct LedgerName {
    pub word: BareBook<EntryItem>,
    pub fixed: LedgerFixed,
}

impl Model for LedgerName {
    ghost use Rattle.rx_book.specs.Named.{BookName};
    ghost use Rattle.rx_objects.specs.declared.ledger.LedgerFixed.{LedgerFixed};

    ghost Value = { BookName LedgerFixed };

    ghost view = { λ n. record { word = n.word; fixed = n.fixed } };
}

/// The keeper with the notes that it keeps until the root's release, and the board on which it shows a summary of its entries after
/// each call that appends some. It can't be dropped, as its board can't.
pub struct LedgerObject {
    pub keeper: Keeper<CountLedger>,
    pub notes: Vec<(PlaceId, Note<EventItem>)>,
    pub board: Option<BoardWriter>,
    // Whether there was no memory for a summary.
    late: bool,
    // The scopes whose openers were told "not yet" and are still to be called.
    put_off: ScopeSet,
    calls: Trail<LedgerCall>,
    program: Snapshot<Program>,
    places: Snapshot<Vec<BareBook<EventItem>>>,
    alloc: Global,
}

impl Model for LedgerObject {
    ghost use Rattle.rx_objects.specs.Mentioned.{items_called};
    ghost use Rattle.rx_objects.specs.Ledger.{LedgerView, LedgerKeeps};
    ghost use Rattle.rx_objects.specs.Shown.{board_of, BoardShows};

    ghost Value = { LedgerView };

    ghost view = { λ s. record {
      entries = items_called s.calls;
      setup = s.keeper.setup;
      program = s.program.value;
      places = s.places.value.items;
      board = board_of s.board;
    } };

    ghost invariant = { λ s. LedgerKeeps s.places.value.items s.keeper.entries s.notes.items (items_called s.calls)
        × BoardShows s.keeper.setup.places s.keeper.entries s.late s.board };
}

// The place at which the task is that asks, or from which it travels; 0 of the host.
fn place_asked(ticket: &AnyTicket) -> PlaceId
    ensures { result ≡ asked_place ticket.now }
{
    match ticket {
        AnyTicket::Moving(ticket) => place_of(ticket.caller().place),
        AnyTicket::Running(ticket) => place_of(ticket.caller().place),
        AnyTicket::Held(ticket) => place_of(ticket.caller().place),
        AnyTicket::Host => PlaceId(0),
    }
}

// Keeps a note with its place, where there is one.
fn keep_note(
    notes: &mut Vec<(PlaceId, Note<EventItem>)>,
    place: PlaceId,
    note: Option<Note<EventItem>>,
) -> bool
    ensures { MatchBool result (notes.new.items ≡ with_note notes.old.items place note) (notes.new.items ≡ notes.old.items) }
{
    match note {
        Some(note) => notes.push((place, note)).is_ok(),
        None => true,
    }
}

// Whether so many entries leave numbers for more tasks and scopes.
fn has_numbers(len: u32) -> bool
    ensures { result ≡ true → len + 1 < 2 ^ 31 }
{
    len < 2147483647
}

// The keeper's answer, and whether the root's release was appended. There is no memory where numbers of tasks and scopes may run out.
fn answer(keeper: &mut Keeper<CountLedger>, request: Request) -> (Reply, bool)
    requires { MayBeAsked keeper.old.setup.places keeper.old.entries request }
    ensures { Stepped keeper.old request result.0 result.1 keeper.new }
{
    let len = keeper.len();
    if !has_numbers(len) {
        return (Reply::NoMemory { request }, false);
    }
    let reply = keeper.apply(request);
    keeper.is_history();
    let freed = is_freed(&reply, len, keeper.len());
    (reply, freed)
}

// Whether the root's release is answered, and the history is longer.
fn is_freed(reply: &Reply, before: u32, after: u32) -> bool
    ensures { result ≡ (is_root_done reply.now && nat_lt before after) }
{
    is_root_done(reply) && before < after
}

// Whether the root's release is answered.
fn is_root_done(reply: &Reply) -> bool
    ensures { result ≡ is_root_done reply.now }
{
    matches!(reply, Reply::RootDone)
}

// Whether there was no memory for a summary, of this call or an earlier one.
fn is_late(late: bool, shown: bool) -> bool
    ensures { result ≡ (late || not shown) }
{
    late || !shown
}

// Hands all notes out, or none.
fn hand_out(
    notes: &mut Vec<(PlaceId, Note<EventItem>)>,
    alloc: Global,
    all: bool,
) -> Vec<(PlaceId, Note<EventItem>)>
    ensures { MatchBool all ((result.items ≡ notes.old.items) × (notes.new.items ≡ []))
        ((result.items ≡ []) × (notes.new.items ≡ notes.old.items)) }
{
    if all {
        std::mem::replace(notes, Vec::new(alloc))
    } else {
        Vec::new(alloc)
    }
}

/// What is left of a ledger's object, once its notes are let go.
pub(crate) struct LedgerParts {
    pub(crate) keeper: Keeper<CountLedger>,
    pub(crate) board: Option<BoardWriter>,
    /// Whether there was no memory for a summary.
    pub(crate) late: bool,
}

impl LedgerObject {
    /// The object of a keeper that has no entries, without notes, and with a board that shows so, if with one. What is fixed of it is
    /// the program, the keeper's setup, the words of the places' books and the board. It takes no memory.
    pub fn open(
        alloc: Global,
        keeper: Keeper<CountLedger>,
        program: &Program,
        places: &Vec<BareBook<EventItem>>,
        board: Option<BoardWriter>,
    ) -> LedgerObject
        requires empty { keeper.entries ≡ [] }
        requires board { BoardShows keeper.setup.places [] false board }
        ensures { result ≡ record {
          entries = [];
          setup = keeper.setup;
          program = program.now;
          places = places.now.items;
          board = board_of board;
        } }
    {
        LedgerObject {
            keeper,
            notes: Vec::new(alloc),
            board,
            late: false,
            put_off: ScopeSet::new(alloc),
            calls: Trail::Empty,
            program: Snapshot::of(program),
            places: Snapshot::of(places),
            alloc,
        }
    }

    /// The keeper, whose entries are those of the items, and the board, which shows them, the last summary being that of all of them
    /// unless there was no memory for one. The notes are let go. It takes no memory.
    pub(crate) fn into_parts(self) -> LedgerParts
        ensures entries { entries_in self.entries ≡ result.keeper.entries }
        ensures setup { result.keeper.setup ≡ self.setup }
        ensures board { board_of result.board ≡ self.board }
        ensures shown { BoardShows result.keeper.setup.places result.keeper.entries result.late result.board }
    {
        let LedgerObject {
            keeper,
            notes: _,
            board,
            late,
            put_off: _,
            calls: _,
            program: _,
            places: _,
            alloc: _,
        } = self;
        LedgerParts {
            keeper,
            board,
            late,
        }
    }

    /// The keeper, whose entries are those of the items. The board is closed, and the notes are let go. It takes no memory.
    pub fn into_keeper<R: Wait>(self, rt: &R) -> Keeper<CountLedger>
        ensures entries { entries_in self.entries ≡ result.entries }
        ensures setup { result.setup ≡ self.setup }
    {
        let LedgerParts {
            keeper,
            board,
            late: _,
        } = self.into_parts();
        end_board(rt, board);
        keeper
    }
}

impl Object for LedgerObject {
    type Op = LedgerOp;

    type Reply = LedgerReply;

    type Item = EntryItem;

    type Fixed = LedgerFixed;

    ghost use Rattle.rx_objects.specs.Ledger.{LedgerDoes, LedgerIsLegal, LedgerFits};

    ghost fixed = { λ s. record { program = s.program; setup = s.setup; places = s.places; board = s.board } };

    ghost entries = { λ s. s.entries };

    ghost step = { LedgerDoes };

    ghost legal = { LedgerIsLegal };

    ghost fits = { LedgerFits };

    fn apply<R: Wait>(&mut self, rt: &R, op: LedgerOp) -> LedgerReply {
        let LedgerOp {
            request,
            note,
            mentions,
        } = op;
        let place = place_asked(&request.ticket);
        if !keep_note(&mut self.notes, place, note) {
            return LedgerReply {
                reply: Reply::NoMemory { request },
                notes: Vec::new(self.alloc),
                shown: true,
                hint: Hint::Nobody,
            };
        }
        let before = self.keeper.len();
        let dead = self.keeper.deaths();
        let hung = end_under(&request);
        let (reply, freed) = answer(&mut self.keeper, request);
        let notes = hand_out(&mut self.notes, self.alloc, freed);
        self.calls = Trail::After(
            Snapshot::of(&self.calls),
            LedgerCall {
                keeper: Snapshot::of(&self.keeper),
                mentions,
            },
        );
        let shown = show_new(
            rt,
            self.alloc,
            &mut self.board,
            &self.keeper,
            before,
            self.late,
        );
        self.late = is_late(self.late, shown);
        let hint = hint_of(&mut self.put_off, &self.keeper, dead, hung, &reply);
        LedgerReply {
            reply,
            notes,
            shown,
            hint,
        }
    }

    fn len(&self) -> u32 {
        self.keeper.len()
    }

    fn deaths(&self) -> PlaceSet {
        self.keeper.deaths()
    }

    fn stays() {}
}
