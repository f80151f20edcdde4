// The ticket of a task that starts.
ghost use Rattle.std.specs.Prelude.{◌≡◌};
ghost use Rattle.rx_ledger.specs.Answering.{ticket_at};

use rx_base::PlaceId;
use rx_finish::{Born, Caller};
use rx_rules::Where;
use rx_ticket::{AnyTicket, InTransit, Live, Ticket};

/// The ticket of a task that starts at `from` for `to`: none where it is born struck.
pub(crate) fn ticket_for(born: Born, from: PlaceId, to: PlaceId) -> Option<AnyTicket>
    ensures { result ≡ ticket_at born.lost born.child born.scope from to }
{
    if born.lost {
        return None;
    }
    let Born {
        child: task,
        scope,
        lost: _,
    } = born;
    if from == to {
        return Some(AnyTicket::Running(Ticket::<Live>::issue(Caller {
            task,
            scope,
            inner: scope,
            place: Where::At(to),
        })));
    }
    Some(AnyTicket::Moving(Ticket::<InTransit>::issue(Caller {
        task,
        scope,
        inner: scope,
        place: Where::Travel { from, to },
    })))
}
