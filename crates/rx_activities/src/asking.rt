// A request to the ledger for an activity.
ghost use Rattle.std.specs.Prelude.{◌≡◌, ◌≢◌, None, IfOk, IfSome, MatchBool};
ghost use Rattle.rx_rules.specs.Code.{Block};
ghost use Rattle.rx_rules.specs.Terms.{Term, does};
ghost use Rattle.rx_syntax.specs.Shape.{Shape, Stands};
ghost use Rattle.rx_control.specs.Stands.{StandsFor};
ghost use Rattle.rx_history.specs.Next.{next_of};
ghost use Rattle.rx_book.specs.Passes.{view_of, word_of};
ghost use Rattle.rx_objects.specs.Laws.{AsksLedger};
ghost use Rattle.rx_objects.specs.Opened.{PlaceIs};
ghost use Rattle.rx_activities.specs.Knowing.{ActivityInvariant};
ghost use Rattle.rx_activities.specs.Turning.{LeavesHand};
ghost use Rattle.rx_activities.specs.Inside.Stepping.{IsNext};
ghost use Rattle.rx_activities.specs.Inside.Sending.{IsCall, SuitsStep, IsReady, target, ChildIs};
ghost use Rattle.rx_activities.specs.Inside.Sending.{PassIsLeft, SeatIsLeft, NoteIs, MentionsAre, IsReplied};

use crate::hand::Hand;
use crate::naming::Naming;
use crate::replies::{Answer, Child};
use rx_base::{Batch, NoMemory, PlaceId};
use rx_book::{Note, Pass};
use rx_check::{Program, checked};
use rx_control::{Control, Next, Want};
use rx_history::Ask;
use rx_ledger::{Reply, Request};
use rx_objects::{Hint, LedgerBook, LedgerOp, LedgerReply, Mentions, PlaceBook, ledger_op_fits};
use rx_parts::{EntryItem, EventItem};
use rx_ticket::AnyTicket;
use std::alloc::Global;
use std::snapshot::Snapshot;
use std::sync::Wait;

// What the control asks the ledger for. The control of a wait or an end gives its faults away.
fn ask_of(alloc: Global, control: &mut Control, next: Next) -> Ask
    requires { IsCall next }
    ensures suits { (s : Shape) (t : Term) (here : PlaceId) → StandsFor s control.old t
        → next ≡ next_of (does control.old.vars here.0 t) → SuitsStep (does control.old.vars here.0 t) result }
    ensures ready { (s : Shape) → IsReady s next control.old control.new }
{
    match next {
        Next::Book(Want::Open) => Ask::Open,
        Next::Book(Want::At { to }) => Ask::At { to },
        Next::Book(Want::Spawn { to }) => Ask::Spawn { to },
        Next::Book(Want::Wait) => Ask::Wait {
            thrown: control.take_faults(alloc),
        },
        Next::Book(Want::Release) => Ask::Release,
        Next::Book(Want::Print { value }) => Ask::Print { value },
        Next::Book(Want::Census) => Ask::Census,
        Next::Done => Ask::End {
            thrown: control.take_faults(alloc),
        },
        Next::Local => unreachable!(),
        Next::Cell(_) => unreachable!(),
    }
}

// The place for which the step starts a task.
fn target_of(next: Next) -> Option<PlaceId>
    ensures { result ≡ target next }
{
    match next {
        Next::Book(Want::At { to }) => Some(to),
        Next::Book(Want::Spawn { to }) => Some(to),
        _ => None,
    }
}

// What a task holds that is to be started, where the step starts one: a pass of the ledger's book, and one of the place's book
// where it begins there.
fn child_of<L: LedgerBook, P: PlaceBook>(
    alloc: Global,
    p: &Program,
    ledger: &L,
    place_book: &P,
    control: &Control,
    here: PlaceId,
    next: Next,
    pass: &mut Pass<EntryItem>,
    seat: &mut Pass<EventItem>,
) -> Result<Option<Child>, NoMemory>
    requires stands { (t : Term) × StandsFor p.now.script control.now t }
    requires next { (t : Term) → StandsFor p.now.script control.now t → next ≡ next_of (does control.now.vars here.0 t) }
    requires pass { word_of pass.old ≡ (L.name ledger.now).word }
    requires seat { word_of seat.old ≡ (P.name place_book.now).word }
    ensures pass { PassIsLeft pass.old pass.new }
    ensures seat { SeatIsLeft seat.old seat.new }
    ensures child { IfOk result (ChildIs p.now.script control.now here next pass.old seat.old) }
{
    let Some(to) = target_of(next) else {
        return Ok(None);
    };
    let began = control.child(alloc, p)?;
    let control = Box::new(alloc, began)?;
    let child_pass = ledger.split(pass)?;
    let child_seat = if to == here {
        Some(place_book.split(seat)?)
    } else {
        None
    };
    Ok(Some(Child {
        control,
        pass: child_pass,
        seat: child_seat,
    }))
}

// A note of the place's book, where events were made.
fn note_for<P: PlaceBook>(
    place_book: &P,
    seat: &mut Pass<EventItem>,
    made: bool,
) -> Option<Note<EventItem>>
    requires { word_of seat.old ≡ (P.name place_book.now).word }
    ensures same { (word_of seat.new ≡ word_of seat.old) × (view_of seat.new ≡ view_of seat.old) }
    ensures note { MatchBool made (IfSome result (NoteIs seat.old) × (result ≢ None)) (result ≡ None) }
{
    if !made {
        return None;
    }
    match place_book.note(seat) {
        Ok(note) => Some(note),
        Err(_) => unreachable!(),
    }
}

// What the request mentions.
fn mentions_of(
    told: Snapshot<Pass<EventItem>>,
    pass: &Pass<EntryItem>,
    seat: &Pass<EventItem>,
    child: &Option<Child>,
) -> Mentions
    ensures { MentionsAre told.value seat.now child.now result }
{
    let now = Snapshot::of(seat);
    let (child, seat) = match child {
        Some(child) => {
            let own = match &child.seat {
                Some(seat) => Snapshot::of(seat),
                None => Snapshot::of(seat),
            };
            (Snapshot::of(&child.pass), own)
        }
        None => (Snapshot::of(pass), Snapshot::of(seat)),
    };
    Mentions {
        before: told,
        now,
        child,
        seat,
    }
}

/// Asks the ledger, and gives its answer. `hint` is then whose release the call may have made possible.
#[inline(always)]
pub(crate) fn ask<L: LedgerBook, R: Wait>(
    rt: &R,
    p: &Program,
    ledger: &L,
    pass: &mut Pass<EntryItem>,
    op: LedgerOp,
    hint: &mut Hint,
) -> Reply
    requires program { (L.name ledger.now).fixed.program ≡ p.now }
    requires own { word_of pass.old ≡ (L.name ledger.now).word }
    requires asks { (code : Block) → Stands p.now.script code → AsksLedger code (L.name ledger.now).fixed (view_of pass.old) op }
    ensures own { word_of pass.new ≡ word_of pass.old }
    ensures replied { IsReplied (L.name ledger.now).fixed (view_of pass.old) op result (view_of pass.new) }
{
    checked(p);
    ledger_op_fits();
    let answer = ledger.call(rt, pass, op);
    let LedgerReply {
        reply,
        notes: _,
        shown: _,
        hint: told,
    } = answer;
    *hint = told;
    reply
}

impl Hand {
    /// Asks the ledger for what is next, and goes on by its answer. `hint` is then whose release the call may have made possible.
    pub(crate) fn call_ledger<N: Naming, L: LedgerBook, P: PlaceBook, R: Wait>(
        &mut self,
        rt: &R,
        alloc: Global,
        p: &Program,
        ledger: &L,
        place_book: &P,
        next: Next,
        hint: &mut Hint,
    ) -> Answer<N>
        requires ledger { L.name ledger.now ≡ N.ledger }
        requires program { (L.name ledger.now).fixed.program ≡ p.now }
        requires place { PlaceIs (L.name ledger.now) self.old.place (P.name place_book.now) }
        requires known { ActivityInvariant (L.name ledger.now) self.old }
        requires next { IsNext p.now self.old next }
        requires calls { IsCall next }
        ensures { LeavesHand (L.name ledger.now) self.new result }
    {
        checked(p);
        let standing = self.control.as_ref();
        let Ok(path) = standing.path(alloc, p) else {
            return Answer::Failed;
        };
        let prepared = child_of(
            alloc,
            p,
            ledger,
            place_book,
            standing,
            self.place,
            next,
            &mut self.pass,
            &mut self.seat,
        );
        let Ok(child) = prepared else {
            return Answer::Failed;
        };
        let note = note_for(place_book, &mut self.seat, self.made);
        let told = std::mem::replace(&mut self.told, Snapshot::of(&self.seat));
        let mentions = mentions_of(told, &self.pass, &self.seat, &child);
        let ask_for = ask_of(alloc, self.control.as_mut(), next);
        let request = Request {
            ticket: std::mem::replace(&mut self.ticket, AnyTicket::Host),
            ask: ask_for,
            batch: std::mem::replace(&mut self.batch, Batch::open(alloc)),
            path,
        };
        let op = LedgerOp {
            request,
            note,
            mentions,
        };
        let reply = ask(rt, p, ledger, &mut self.pass, op, hint);
        self.take(alloc, p, ledger, reply, child)
    }
}
