// A keeper over the ledger of counts, before its first entry.
ghost use Rattle.std.specs.Prelude.{◌≡◌, [], IfOk};
ghost use Rattle.rx_rules.specs.Run.{Proper};
ghost use Rattle.rx_history.specs.Setups.{given};
ghost use Rattle.rx_ledger.specs.Answering.{main_caller};

use crate::same::same;
use rx_base::{Batch, NoMemory, Path, PlaceId, PlaceSet, TaskId};
use rx_counts::CountLedger;
use rx_history::{Ask, JoinList, KillList, Setup};
use rx_ledger::{Keeper, Reply, Request};
use rx_ticket::{AnyTicket, Live, Ticket};
use std::alloc::Global;
use std::test::Fail;

// Two places, and no kills and no joins.
pub(crate) fn calm(alloc: Global) -> Setup
    ensures proper { Proper (given result) }
    ensures places { result.places ≡ 2 }
{
    Setup {
        places: 2,
        heap: 256,
        kills: KillList::open(alloc),
        joins: JoinList::open(alloc),
    }
}

// A keeper of such a setup, or of another.
pub(crate) fn opened(
    alloc: Global,
    setup: &Setup,
) -> Result<(Keeper<CountLedger>, Ticket<Live>), NoMemory>
    requires proper { Proper (given setup.now) }
    ensures empty { IfOk result (λ r. (r.0.entries ≡ []) × (r.0.setup ≡ setup.now)) }
    ensures ticket { IfOk result (λ r. r.1 ≡ main_caller) }
{
    let ledger = CountLedger::open_for(alloc, setup.places, setup.joins.len() as u8)?;
    match Keeper::open(alloc, ledger, setup) {
        Ok(both) => Ok(both),
        Err(_) => Err(NoMemory),
    }
}

// What any thread may be given.
fn moved<T: Send>(x: T) -> T
    ensures { result ≡ x }
{
    x
}

// Lets the main activity print, and then asks for the root's release, which has to wait for it.
fn prints_and_waits(alloc: Global) -> Result<(u32, u32), NoMemory> {
    let (mut keeper, ticket) = opened(alloc, &calm(alloc))?;
    let printed = keeper.apply(Request {
        ticket: AnyTicket::Running(ticket),
        ask: Ask::Print { value: 4 },
        batch: Batch::open(alloc),
        path: Some(Path::open(alloc)),
    });
    let first = keeper.len();
    finish(printed);
    let early = keeper.apply(Request {
        ticket: AnyTicket::Host,
        ask: Ask::Root,
        batch: Batch::open(alloc),
        path: None,
    });
    let place = match &early {
        Reply::NotYet { place, request: _ } => place.0 as u32,
        _ => 99,
    };
    finish(early);
    Ok((first, place))
}

#[test]
fn a_keeper_opens_empty_and_its_root_waits(rt: HostRuntime) -> Result<(), Fail> {
    let (keeper, ticket) = opened(rt.alloc(), &calm(rt.alloc()))?;
    let task = ticket.caller().task;
    let request = moved(Request {
        ticket: AnyTicket::Running(ticket),
        ask: Ask::Open,
        batch: Batch::open(rt.alloc()),
        path: None,
    });
    end(request);
    same(&rt, task, TaskId(0));
    same(&rt, (keeper.len(), keeper.deaths()), (0, PlaceSet(0)));
    let (history, _ledger) = moved(keeper).into_history();
    assert!(rt; history.len() == 0);
    let (entries, place) = prints_and_waits(rt.alloc())?;
    same(&rt, (entries, place), (1, 0));
    Ok(())
}

// Ends what a reply holds.
pub(crate) fn finish(reply: Reply) {
    let (asking, started) = reply.into_tickets();
    finish_child(asking);
    finish_child(started);
}

// Ends the ticket of a task that was started.
pub(crate) fn finish_child(child: Option<AnyTicket>) {
    match child {
        Some(ticket) => ticket.lost(PlaceId(1), 0),
        None => {}
    }
}

// Ends a request.
pub(crate) fn end(request: Request) {
    request.into_ticket().lost(PlaceId(1), 0);
}
