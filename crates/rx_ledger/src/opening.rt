// The requests that open a scope or start a task.
ghost use Rattle.std.specs.Prelude.{Some};
ghost use Rattle.rx_finish.specs.Callers.{MayAskMoving, MayAskTo};
ghost use Rattle.rx_ticket.specs.declared.tickets.AnyTicket.TheVariants.{Running};
ghost use Rattle.rx_history.specs.declared.asks.Ask.TheVariants.{Open, At, Spawn};
ghost use Rattle.rx_chronicle.specs.Requests.{tree_told, MayAskEntry};
ghost use Rattle.rx_ledger.specs.Inside.Doing.{request_of, DidRequest};

use crate::asks::Reply;
use crate::refusing::refused;
use crate::tickets::ticket_for;
use rx_base::{Batch, Path, PlaceId};
use rx_chronicle::Chronicle;
use rx_finish::{FinishLedger, place_of};
use rx_history::Ask;
use rx_ticket::{AnyTicket, Live, Ticket};

/// Opens a finish.
pub(crate) fn open<L: FinishLedger>(
    chronicle: &mut Chronicle<L>,
    ticket: Ticket<Live>,
    mut batch: Batch,
    mut path: Path,
) -> Reply
    requires ready { MayAskEntry chronicle.old }
    requires asks { MayAskMoving (tree_told chronicle.old) ticket }
    ensures { DidRequest chronicle.old (request_of (Running ticket) Open batch (Some path)) result chronicle.new }
{
    match chronicle.open_finish(ticket.caller(), &mut batch, &mut path) {
        Ok(scope) => Reply::Opened {
            ticket: ticket.opened(scope),
            scope,
        },
        Err(fault) => {
            let ask = Ask::Open;
            refused(fault, AnyTicket::Running(ticket), ask, batch, Some(path))
        }
    }
}

/// Opens an at and starts its callee.
pub(crate) fn call<L: FinishLedger>(
    chronicle: &mut Chronicle<L>,
    ticket: Ticket<Live>,
    to: PlaceId,
    mut batch: Batch,
    mut path: Path,
) -> Reply
    requires ready { MayAskEntry chronicle.old }
    requires asks { MayAskTo (tree_told chronicle.old) ticket to }
    ensures { DidRequest chronicle.old (request_of (Running ticket) (At to) batch (Some path)) result chronicle.new }
{
    let who = ticket.caller();
    let from = place_of(who.place);
    match chronicle.open_at(who, to, &mut batch, &mut path) {
        Ok(born) => Reply::Called {
            ticket: ticket.opened(born.scope).waits(),
            callee: ticket_for(born, from, to),
        },
        Err(fault) => {
            let ask = Ask::At { to };
            refused(fault, AnyTicket::Running(ticket), ask, batch, Some(path))
        }
    }
}

/// Starts a task.
pub(crate) fn spawn<L: FinishLedger>(
    chronicle: &mut Chronicle<L>,
    ticket: Ticket<Live>,
    to: PlaceId,
    mut batch: Batch,
    mut path: Path,
) -> Reply
    requires ready { MayAskEntry chronicle.old }
    requires asks { MayAskTo (tree_told chronicle.old) ticket to }
    ensures { DidRequest chronicle.old (request_of (Running ticket) (Spawn to) batch (Some path)) result chronicle.new }
{
    let who = ticket.caller();
    let from = place_of(who.place);
    match chronicle.spawn(who, to, &mut batch, &mut path) {
        Ok(born) => Reply::Spawned {
            ticket,
            child: ticket_for(born, from, to),
        },
        Err(fault) => {
            let ask = Ask::Spawn { to };
            refused(fault, AnyTicket::Running(ticket), ask, batch, Some(path))
        }
    }
}
