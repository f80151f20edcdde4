// The requests that take no memory of the ledger.
ghost use Rattle.std.specs.Prelude.{Some, None};
ghost use Rattle.rx_finish.specs.Callers.{MayAskMoving, MayAskArrive};
ghost use Rattle.rx_ticket.specs.declared.tickets.AnyTicket.TheVariants.{Running, Moving};
ghost use Rattle.rx_history.specs.declared.asks.Ask.TheVariants.{Arrive, Print, Census};
ghost use Rattle.rx_chronicle.specs.Requests.{tree_told, MayAskEntry};
ghost use Rattle.rx_ledger.specs.Inside.Doing.{request_of, DidRequest};

use crate::asks::Reply;
use crate::refusing::refused;
use rx_base::{Batch, Path};
use rx_chronicle::Chronicle;
use rx_finish::FinishLedger;
use rx_history::Ask;
use rx_ticket::{AnyTicket, InTransit, Live, Ticket};

/// Makes a travelling task live. It takes no memory.
pub(crate) fn arrive<L: FinishLedger>(
    chronicle: &mut Chronicle<L>,
    ticket: Ticket<InTransit>,
    mut batch: Batch,
) -> Reply
    requires ready { MayAskEntry chronicle.old }
    requires asks { MayAskArrive (tree_told chronicle.old) ticket }
    ensures { DidRequest chronicle.old (request_of (Moving ticket) Arrive batch None) result chronicle.new }
{
    match chronicle.arrive(ticket.caller(), &mut batch) {
        Ok(()) => Reply::Landed {
            ticket: ticket.landed(),
        },
        Err(fault) => refused(fault, AnyTicket::Moving(ticket), Ask::Arrive, batch, None),
    }
}

/// Prints. It takes no memory.
pub(crate) fn print<L: FinishLedger>(
    chronicle: &mut Chronicle<L>,
    ticket: Ticket<Live>,
    value: i64,
    mut batch: Batch,
    mut path: Path,
) -> Reply
    requires ready { MayAskEntry chronicle.old }
    requires asks { MayAskMoving (tree_told chronicle.old) ticket }
    ensures { DidRequest chronicle.old (request_of (Running ticket) (Print value) batch (Some path)) result chronicle.new }
{
    match chronicle.print(ticket.caller(), value, &mut batch, &mut path) {
        Ok(()) => Reply::Printed { ticket },
        Err(fault) => {
            let ask = Ask::Print { value };
            refused(fault, AnyTicket::Running(ticket), ask, batch, Some(path))
        }
    }
}

/// Tells how many places have joined. It takes no memory.
pub(crate) fn census<L: FinishLedger>(
    chronicle: &mut Chronicle<L>,
    ticket: Ticket<Live>,
    mut batch: Batch,
    mut path: Path,
) -> Reply
    requires ready { MayAskEntry chronicle.old }
    requires asks { MayAskMoving (tree_told chronicle.old) ticket }
    ensures { DidRequest chronicle.old (request_of (Running ticket) Census batch (Some path)) result chronicle.new }
{
    match chronicle.census(ticket.caller(), &mut batch, &mut path) {
        Ok(places) => Reply::Census { ticket, places },
        Err(fault) => {
            let ask = Ask::Census;
            refused(fault, AnyTicket::Running(ticket), ask, batch, Some(path))
        }
    }
}
