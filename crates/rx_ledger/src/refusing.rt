// The answers to requests that the ledger refuses.
ghost use Rattle.std.specs.Prelude.{◌≡◌};
ghost use Rattle.rx_ledger.specs.Inside.Doing.{request_of, refusal};

use crate::asks::{Reply, Request};
use rx_base::{Batch, Path};
use rx_finish::LedgerFault;
use rx_history::Ask;
use rx_ticket::AnyTicket;

/// The answer to a request that was refused for this fault: the request comes back, but where the caller was struck, whose ticket
/// is spent.
pub(crate) fn refused(
    fault: LedgerFault,
    ticket: AnyTicket,
    ask: Ask,
    batch: Batch,
    path: Option<Path>,
) -> Reply
    ensures { result ≡ refusal fault (request_of ticket ask batch path) }
{
    match fault {
        LedgerFault::Lost { place, at } => {
            ticket.lost(place, at);
            Reply::Lost { place, at }
        }
        LedgerFault::NotYet { place } => Reply::NotYet {
            place,
            request: Request {
                ticket,
                ask,
                batch,
                path,
            },
        },
        LedgerFault::NoMemory => Reply::NoMemory {
            request: Request {
                ticket,
                ask,
                batch,
                path,
            },
        },
    }
}
