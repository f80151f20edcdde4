// The releases.
ghost use Rattle.std.specs.Prelude.{None};
ghost use Rattle.rx_finish.specs.Callers.{MayAskRelease};
ghost use Rattle.rx_ticket.specs.declared.tickets.AnyTicket.TheVariants.{Held, Host};
ghost use Rattle.rx_history.specs.declared.asks.Ask.TheVariants.{Release, Root};
ghost use Rattle.rx_chronicle.specs.Requests.{tree_told, MayAskEntry};
ghost use Rattle.rx_ledger.specs.Inside.Doing.{request_of, DidRequest};

use crate::asks::Reply;
use crate::refusing::refused;
use rx_base::Batch;
use rx_chronicle::Chronicle;
use rx_finish::FinishLedger;
use rx_history::Ask;
use rx_ticket::{AnyTicket, Ticket, Waiting};

/// Releases the scope at which the caller waits.
pub(crate) fn release<L: FinishLedger>(
    chronicle: &mut Chronicle<L>,
    ticket: Ticket<Waiting>,
    mut batch: Batch,
) -> Reply
    requires ready { MayAskEntry chronicle.old }
    requires asks { MayAskRelease (tree_told chronicle.old) ticket }
    ensures { DidRequest chronicle.old (request_of (Held ticket) Release batch None) result chronicle.new }
{
    let who = ticket.caller();
    let parent = chronicle.note(who.inner).parent;
    match chronicle.release(who, &mut batch) {
        Ok(outcome) => Reply::Released {
            ticket: ticket.resumed(parent),
            outcome,
        },
        Err(fault) => refused(fault, AnyTicket::Held(ticket), Ask::Release, batch, None),
    }
}

/// The host's release of the root. After it, it is done again with no effect.
pub(crate) fn root<L: FinishLedger>(chronicle: &mut Chronicle<L>, batch: Batch) -> Reply
    requires ready { MayAskEntry chronicle.old }
    ensures { DidRequest chronicle.old (request_of Host Root batch None) result chronicle.new }
{
    match chronicle.root() {
        Ok(()) => Reply::RootDone,
        Err(fault) => refused(fault, AnyTicket::Host, Ask::Root, batch, None),
    }
}
