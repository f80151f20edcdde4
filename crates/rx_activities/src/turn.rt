// A turn of an activity, from local steps to what it leaves.
ghost use Rattle.std.specs.Prelude.{◌≡◌};
ghost use Rattle.rx_objects.specs.Opened.{PlaceIs};
ghost use Rattle.rx_activities.specs.Knowing.{ActivityInvariant};
ghost use Rattle.rx_activities.specs.Turning.{LeavesHand};

use crate::activity::{Turn, activity_of, given_up};
use crate::hand::Hand;
use crate::naming::Naming;
use crate::replies::Answer;
use rx_check::Program;
use rx_control::Next;
use rx_objects::{Hint, LedgerBook, PlaceBook};
use std::alloc::Global;
use std::sync::Wait;

/// Who is told that an activity is away from the ledger for a while.
pub trait Company {
    /// It has made many local steps since it last asked the ledger, or is about to ask a store.
    fn is_away(&self);
}

// After so many local steps a turn is long: what another worker then takes over is worth a wake.
const LONG: u32 = 64;

/// How many local steps a turn has made.
#[derive(Drop)]
pub(crate) struct Pace {
    steps: u32,
}

impl Pace {
    /// One more. After each `LONG` of them company is told.
    pub(crate) fn step<C: Company>(&mut self, company: &C) {
        self.steps = self.steps.saturating_add(1);
        if self.steps % LONG == 0 {
            company.is_away();
        }
    }

    // Whether the turn is short, and another calls the ledger just now.
    fn gives_way<L: LedgerBook>(&self, ledger: &L) -> bool {
        self.steps < LONG && ledger.is_busy()
    }
}

/// Makes a turn. Where it asks the ledger, `hint` is then whose release that may have made possible.
pub(crate) fn make_turn<N: Naming, L: LedgerBook, P: PlaceBook, C: Company, R: Wait>(
    mut hand: Box<Hand>,
    rt: &R,
    alloc: Global,
    p: &Program,
    ledger: &L,
    place_book: &P,
    company: &C,
    hint: &mut Hint,
) -> Turn<N>
    requires ledger { L.name ledger.now ≡ N.ledger }
    requires program { (L.name ledger.now).fixed.program ≡ p.now }
    requires place { PlaceIs (L.name ledger.now) hand.value.place (P.name place_book.now) }
    requires known { ActivityInvariant (L.name ledger.now) hand.value }
{
    let mut pace = Pace { steps: 0 };
    let next = match hand.run_on(rt, alloc, p, company, &mut pace) {
        Ok(next) => next,
        Err(_) => return Turn::Failed(given_up(hand)),
    };
    match next {
        Next::Cell(op) => {
            company.is_away();
            let answer = hand.call_store(rt, alloc, p, ledger, place_book, op);
            turn_of(hand, answer)
        }
        other => {
            if pace.gives_way(ledger) {
                return Turn::Busy(activity_of(hand));
            }
            let answer = hand.call_ledger(rt, alloc, p, ledger, place_book, other, hint);
            turn_of(hand, answer)
        }
    }
}

// What a call of a book leaves, as it may be kept.
fn turn_of<N: Naming>(hand: Box<Hand>, answer: Answer<N>) -> Turn<N>
    requires { LeavesHand N.ledger hand.value answer }
{
    match answer {
        Answer::Goes { began } => Turn::Goes {
            activity: activity_of(hand),
            began,
        },
        Answer::Waits => Turn::Waits(activity_of(hand)),
        Answer::Over => Turn::Over(given_up(hand)),
        Answer::Failed => Turn::Failed(given_up(hand)),
    }
}
