// Whom a call of the ledger's book lets be called, of those who wait.
use crate::scopes::ScopeSet;
use rx_base::{PlaceId, PlaceSet, ScopeId};
use rx_history::Ask;
use rx_ledger::{CountLedger, Keeper, Reply, Request};
use rx_ticket::AnyTicket;

/// Whose release a call may have made possible, of those who were told "not yet". The call says so once, for the workers: no contract
/// speaks of it.
#[derive(Clone, Copy)]
pub enum Hint {
    /// Nobody's.
    Nobody,
    /// That of the opener of this scope, who is at this place.
    Opener { scope: ScopeId, home: PlaceId },
    /// Anybody's: a place has died.
    Everybody,
    /// There was no memory to note that the caller waits.
    NoMemory,
}

/// The scope under which the task hangs that asks for its end.
pub(crate) fn end_under(request: &Request) -> Option<ScopeId> {
    match &request.ask {
        Ask::End { thrown: _ } => match &request.ticket {
            AnyTicket::Running(ticket) => Some(ticket.caller().scope),
            _ => None,
        },
        _ => None,
    }
}

/// Whose release the call that gave this reply may have made possible. Before the call these places were dead, and a task that asked
/// for its end hung under this scope. `put_off` are the scopes whose openers were told "not yet" and are still to be called. A caller that
/// is told "not yet" is added.
pub(crate) fn hint_of(
    put_off: &mut ScopeSet,
    keeper: &Keeper<CountLedger>,
    dead: PlaceSet,
    hung: Option<ScopeId>,
    reply: &Reply,
) -> Hint {
    if keeper.deaths().0 != dead.0 {
        put_off.clear();
        return Hint::Everybody;
    }
    match reply {
        Reply::NotYet { place: _, request } => put_off_caller(put_off, request),
        Reply::Ended => opener_above(put_off, keeper, hung),
        _ => Hint::Nobody,
    }
}

// Adds the scope at which the caller waits. The host waits at none.
fn put_off_caller(put_off: &mut ScopeSet, request: &Request) -> Hint {
    let AnyTicket::Held(ticket) = &request.ticket else {
        return Hint::Nobody;
    };
    match put_off.add(ticket.caller().inner) {
        Ok(()) => Hint::Nobody,
        Err(_) => Hint::NoMemory,
    }
}

// The opener of the scope that has counted a task which hung there, where that scope counts none any more and its opener is put off.
// It is called once, since it is taken out.
fn opener_above(
    put_off: &mut ScopeSet,
    keeper: &Keeper<CountLedger>,
    hung: Option<ScopeId>,
) -> Hint {
    let Some(hung) = hung else {
        return Hint::Nobody;
    };
    let Some((scope, home)) = keeper.quiet(hung) else {
        return Hint::Nobody;
    };
    if put_off.take(scope) {
        Hint::Opener { scope, home }
    } else {
        Hint::Nobody
    }
}
