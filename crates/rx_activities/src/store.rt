// A call of the store of an activity's place.
ghost use Rattle.std.specs.Prelude.{◌≡◌, ◌<◌, ◌≤◌, ◌++◌, ◌∷◌, [], ℕ, Some, false, IfOk, IfSome, List};
ghost use Rattle.rx_base.specs.Sets.{has_bit};
ghost use Rattle.rx_rules.specs.Terms.{Term, begins};
ghost use Rattle.rx_history.specs.declared.step.Next.{Next as Step};
ghost use Rattle.rx_control.specs.Stands.{StandsFor};
ghost use Rattle.rx_book.specs.Kept.{parent_left};
ghost use Rattle.rx_book.specs.Passes.{view_of, word_of};
ghost use Rattle.rx_book.specs.Calls.{Looked};
ghost use Rattle.rx_finish.specs.declared.ledger.Caller.{Caller as Asker};
ghost use Rattle.rx_ledger.specs.Answering.{asker};
ghost use Rattle.rx_objects.specs.Opened.{PlaceIs};
ghost use Rattle.rx_activities.specs.Knowing.{ActivityInvariant};
ghost use Rattle.rx_activities.specs.Turning.{LeavesHand};
ghost use Rattle.rx_activities.specs.Inside.Stepping.{IsNext};
ghost use Rattle.rx_activities.specs.Inside.Answered.{PartsAre};

use crate::hand::Hand;
use crate::naming::Naming;
use crate::replies::Answer;
use rx_base::{Batch, Fault, NoMemory, Path, PlaceId, Value};
use rx_book::Pass;
use rx_check::{Program, checked};
use rx_control::{CellOp, Control};
use rx_finish::Caller;
use rx_objects::{LedgerBook, PlaceBook, PlaceOp, PlaceReply, place_op_fits};
use rx_parts::EntryItem;
use rx_store::Mark;
use rx_ticket::AnyTicket;
use std::alloc::Global;
use std::sync::Wait;

// How many entries a store call may be stamped with: none where the history has the death of the place. The number is asked
// first, so that a death which is not told has a number of at least it.
fn stamp_for<L: LedgerBook>(ledger: &L, pass: &mut Pass<EntryItem>, place: PlaceId) -> Option<u32>
    requires own { word_of pass.old ≡ (L.name ledger.now).word }
    requires small { place.0 < 16 }
    ensures own { word_of pass.new ≡ word_of pass.old }
    ensures looked { Looked (view_of pass.old) (view_of pass.new) }
    ensures above { IfSome result (λ n. (view_of pass.old).reach ≤ n) }
    ensures below { IfSome result (λ n. n ≤ (view_of pass.new).reach) }
    ensures alive { IfSome result (λ n. has_bit (view_of pass.new).dead place.0 ≡ false) }
{
    let stamp = ledger.seen_len(pass);
    if ledger.peek_deaths(pass).contains(place) {
        return None;
    }
    Some(stamp)
}

// Notes the statement that the call begins, and gives its path.
fn begin_call(
    alloc: Global,
    p: &Program,
    control: &Control,
    batch: &mut Batch,
) -> Result<Path, NoMemory>
    requires { (t : Term) × (x : List ℕ) × StandsFor p.now.script control.now t × (begins t ≡ Some x) }
    ensures { IfOk result (λ path. (t : Term) (x : List ℕ) → StandsFor p.now.script control.now t → begins t ≡ Some x
        → (path ≡ x) × (batch.new ≡ batch.old ++ x ∷ [])) }
{
    match control.path(alloc, p)? {
        Some(path) => {
            let copy = path.copy(alloc)?;
            batch.push(copy)?;
            Ok(path)
        }
        None => unreachable!(),
    }
}

// Who has the ticket. The host has none of them.
pub(crate) fn caller_of(ticket: &AnyTicket) -> Caller
    requires { (who : Asker) × (asker ticket.now ≡ Some who) }
    ensures { asker ticket.now ≡ Some result }
{
    match ticket {
        AnyTicket::Moving(ticket) => ticket.caller(),
        AnyTicket::Running(ticket) => ticket.caller(),
        AnyTicket::Held(ticket) => ticket.caller(),
        AnyTicket::Host => unreachable!(),
    }
}

// The pass of an answer, and the answer where there was memory.
fn parts_of(reply: PlaceReply) -> (Pass<EntryItem>, Option<Result<Option<Value>, Fault>>)
    ensures { PartsAre reply result.0 result.1 }
{
    match reply {
        PlaceReply::Cell { answer, pass } => (pass, Some(answer)),
        PlaceReply::NoMemory { pass } => (pass, None),
    }
}

// Takes the pass out, which a store call brings back. Another of the ledger's book lies in its place meanwhile.
fn take_pass<L: LedgerBook>(ledger: &L, pass: &mut Pass<EntryItem>) -> Pass<EntryItem>
    requires own { word_of pass.old ≡ (L.name ledger.now).word }
    ensures own { word_of result ≡ word_of pass.old }
    ensures view { view_of result ≡ parent_left (view_of pass.old) }
{
    match ledger.split(pass) {
        Ok(other) => std::mem::replace(pass, other),
        Err(_) => unreachable!(),
    }
}

impl Hand {
    /// Makes the store call that is next. An activity whose place has died makes none, and is over.
    pub(crate) fn call_store<N: Naming, L: LedgerBook, P: PlaceBook, R: Wait>(
        &mut self,
        rt: &R,
        alloc: Global,
        p: &Program,
        ledger: &L,
        place_book: &P,
        op: CellOp,
    ) -> Answer<N>
        requires program { (L.name ledger.now).fixed.program ≡ p.now }
        requires place { PlaceIs (L.name ledger.now) self.old.place (P.name place_book.now) }
        requires known { ActivityInvariant (L.name ledger.now) self.old }
        requires next { IsNext p.now self.old (Step.Cell op) }
        ensures { LeavesHand (L.name ledger.now) self.new result }
    {
        checked(p);
        rx_runs::terms_sink();
        place_op_fits();
        let Some(stamp) = stamp_for(ledger, &mut self.pass, self.place) else {
            std::mem::replace(&mut self.ticket, AnyTicket::Host).lost(self.place, 0);
            return Answer::Over;
        };
        let Ok(path) = begin_call(alloc, p, self.control.as_ref(), &mut self.batch) else {
            return Answer::Failed;
        };
        let mark = Mark {
            task: caller_of(&self.ticket).task,
            stamp,
            path,
        };
        let pass = take_pass(ledger, &mut self.pass);
        let reply = place_book.call(rt, &mut self.seat, PlaceOp { mark, op, pass });
        let (pass, answer) = parts_of(reply);
        self.pass = pass;
        self.made = true;
        let Some(answer) = answer else {
            return Answer::Failed;
        };
        match self.control.as_mut().cell_done(alloc, p, answer) {
            Ok(()) => Answer::Goes { began: None },
            Err(_) => Answer::Failed,
        }
    }
}
