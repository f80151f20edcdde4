// The requests that hand faults to the ledger.
ghost use Rattle.std.specs.Prelude.{None};
ghost use Rattle.rx_finish.specs.Callers.{MayAskWait, MayAskEnd};
ghost use Rattle.rx_ticket.specs.declared.tickets.AnyTicket.TheVariants.{Running};
ghost use Rattle.rx_history.specs.declared.asks.Ask.TheVariants.{Wait, End};
ghost use Rattle.rx_chronicle.specs.Requests.{tree_told, MayAskEntry};
ghost use Rattle.rx_ledger.specs.Inside.Doing.{request_of, DidRequest};

use crate::asks::Reply;
use crate::refusing::refused;
use rx_base::{Batch, Faults};
use rx_chronicle::Chronicle;
use rx_finish::FinishLedger;
use rx_history::Ask;
use rx_ticket::{AnyTicket, Live, Ticket};

/// Records the faults of the body of the caller's finish, and that the caller waits there.
pub(crate) fn wait<L: FinishLedger>(
    chronicle: &mut Chronicle<L>,
    ticket: Ticket<Live>,
    thrown: Faults,
    mut batch: Batch,
) -> Reply
    requires ready { MayAskEntry chronicle.old }
    requires asks { MayAskWait (tree_told chronicle.old) ticket }
    ensures { DidRequest chronicle.old (request_of (Running ticket) (Wait thrown) batch None) result chronicle.new }
{
    match chronicle.wait(ticket.caller(), thrown, &mut batch) {
        Ok(()) => Reply::Waits {
            ticket: ticket.waits(),
        },
        Err((fault, thrown)) => {
            let ask = Ask::Wait { thrown };
            refused(fault, AnyTicket::Running(ticket), ask, batch, None)
        }
    }
}

/// Ends the caller: its faults join those of the scope that it hangs under.
pub(crate) fn end<L: FinishLedger>(
    chronicle: &mut Chronicle<L>,
    ticket: Ticket<Live>,
    thrown: Faults,
    mut batch: Batch,
) -> Reply
    requires ready { MayAskEntry chronicle.old }
    requires asks { MayAskEnd (tree_told chronicle.old) ticket }
    ensures { DidRequest chronicle.old (request_of (Running ticket) (End thrown) batch None) result chronicle.new }
{
    match chronicle.end(ticket.caller(), thrown, &mut batch) {
        Ok(()) => {
            ticket.spent();
            Reply::Ended
        }
        Err((fault, thrown)) => {
            let ask = Ask::End { thrown };
            refused(fault, AnyTicket::Running(ticket), ask, batch, None)
        }
    }
}
