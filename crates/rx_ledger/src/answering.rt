// A request where no death and no join is due.
ghost use Rattle.std.specs.Prelude.{◌≡◌, Some};
ghost use Rattle.rx_ticket.specs.declared.tickets.AnyTicket.TheVariants.{Moving, Running, Held, Host};
ghost use Rattle.rx_chronicle.specs.Requests.{tree_told, MayAskEntry};
ghost use Rattle.rx_ledger.specs.Asking.{MayApply, IsTravelling, IsRunning, IsHeld, HasPath};
ghost use Rattle.rx_ledger.specs.Inside.Doing.{DidRequest};

use crate::asks::{Reply, Request};
use crate::moving::{arrive, census, print};
use crate::opening::{call, open, spawn};
use crate::releasing::{release, root};
use crate::waiting::{end, wait};
use rx_base::Path;
use rx_chronicle::Chronicle;
use rx_finish::FinishLedger;
use rx_history::Ask;
use rx_ticket::{AnyTicket, InTransit, Live, Ticket, Waiting};

/// Answers a request.
pub(crate) fn answer<L: FinishLedger>(chronicle: &mut Chronicle<L>, request: Request) -> Reply
    requires ready { MayAskEntry chronicle.old }
    requires asks { MayApply (tree_told chronicle.old) request }
    ensures { DidRequest chronicle.old request result chronicle.new }
{
    let Request {
        ticket,
        ask,
        batch,
        path,
    } = request;
    match ask {
        Ask::Open => open(chronicle, running(ticket), batch, given(path)),
        Ask::At { to } => call(chronicle, running(ticket), to, batch, given(path)),
        Ask::Spawn { to } => spawn(chronicle, running(ticket), to, batch, given(path)),
        Ask::Arrive => arrive(chronicle, moving(ticket), batch),
        Ask::Wait { thrown } => wait(chronicle, running(ticket), thrown, batch),
        Ask::Release => release(chronicle, held(ticket), batch),
        Ask::End { thrown } => end(chronicle, running(ticket), thrown, batch),
        Ask::Print { value } => print(chronicle, running(ticket), value, batch, given(path)),
        Ask::Census => census(chronicle, running(ticket), batch, given(path)),
        Ask::Root => {
            host(ticket);
            root(chronicle, batch)
        }
    }
}

/// The ticket of a task that travels.
fn moving(ticket: AnyTicket) -> Ticket<InTransit>
    requires { IsTravelling ticket (λ who. Unit {0}) }
    ensures { ticket ≡ Moving result }
{
    match ticket {
        AnyTicket::Moving(ticket) => ticket,
        AnyTicket::Running(_other) => unreachable!(),
        AnyTicket::Held(_other) => unreachable!(),
        AnyTicket::Host => unreachable!(),
    }
}

/// The ticket of a task that is at a place and does not wait.
fn running(ticket: AnyTicket) -> Ticket<Live>
    requires { IsRunning ticket (λ who. Unit {0}) }
    ensures { ticket ≡ Running result }
{
    match ticket {
        AnyTicket::Running(ticket) => ticket,
        AnyTicket::Moving(_other) => unreachable!(),
        AnyTicket::Held(_other) => unreachable!(),
        AnyTicket::Host => unreachable!(),
    }
}

/// The ticket of a task that waits.
fn held(ticket: AnyTicket) -> Ticket<Waiting>
    requires { IsHeld ticket (λ who. Unit {0}) }
    ensures { ticket ≡ Held result }
{
    match ticket {
        AnyTicket::Held(ticket) => ticket,
        AnyTicket::Moving(_other) => unreachable!(),
        AnyTicket::Running(_other) => unreachable!(),
        AnyTicket::Host => unreachable!(),
    }
}

/// The host asks without a ticket.
fn host(ticket: AnyTicket)
    requires { ticket ≡ Host }
{
    match ticket {
        AnyTicket::Host => {}
        AnyTicket::Moving(_other) => unreachable!(),
        AnyTicket::Running(_other) => unreachable!(),
        AnyTicket::Held(_other) => unreachable!(),
    }
}

/// The path that comes with a request.
fn given(path: Option<Path>) -> Path
    requires { HasPath path }
    ensures { path ≡ Some result }
{
    match path {
        Some(path) => path,
        None => unreachable!(),
    }
}
