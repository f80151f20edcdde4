// The worked calls of a keeper over the ledger of counts: a release that a death frees, and one that a traveller hinders.
ghost use Rattle.std.specs.Prelude.{◌≡◌, ◌≢◌, ◌<◌, [], ◌∷◌, IfOk};
ghost use Rattle.rx_base.specs.declared.ids.ScopeId.{ScopeId as Scope};
ghost use Rattle.rx_rules.specs.declared.tasks.Kind.TheVariants.{Finish};
ghost use Rattle.rx_rules.specs.Run.{Proper};
ghost use Rattle.rx_history.specs.Setups.{given};
ghost use Rattle.rx_finish.specs.Callers.{HasNumbers, MayAskArrive, MayAskMoving, MayAskRelease};
ghost use Rattle.rx_ledger.specs.Asking.{MayApply};
ghost use Rattle.rx_ledger.specs.Calling.{tree_seen};
ghost use Rattle.rx_ledger.specs.GoingOn.{MayBegin, MayGoOn};
ghost use Rattle.rx_ledger.specs.Kept.{Applied, IsHistory};
ghost use Rattle.rx_ledger.specs.Owned.{own_told};

use crate::ledger::{calm, end, finish, finish_child, opened};
use crate::same::same;
use rx_base::{Batch, Faults, Kill, NoMemory, Path, PlaceId, PlaceSet, TaskId};
use rx_counts::CountLedger;
use rx_history::{Ask, JoinList, KillList, Setup};
use rx_ledger::{Keeper, Reply, Request, laws};
use rx_rules::{Act, Entry};
use rx_ticket::{AnyTicket, InTransit, Live, Ticket, Waiting};
use std::alloc::Global;
use std::process::Abort;
use std::test::Fail;

// Makes a call, after which few entries are seen.
fn ask<R: Abort>(rt: &R, keeper: &mut Keeper<CountLedger>, op: Request) -> Reply
    requires { MayApply (tree_seen keeper.old) op }
    ensures applied { Applied keeper.old op result keeper.new }
    ensures history { IsHistory keeper.new }
    ensures numbers { HasNumbers (tree_seen keeper.new) }
    ensures goes { MayGoOn (tree_seen keeper.new) result × MayBegin (tree_seen keeper.new) result }
{
    let reply = keeper.apply(op);
    let count = keeper.len();
    if count >= 100 {
        stop(rt);
    }
    keeper.is_history();
    laws::numbers_are_left();
    laws::calls_go_on();
    reply
}

// Opens a finish.
fn opens<R: Abort>(
    rt: &R,
    alloc: Global,
    keeper: &mut Keeper<CountLedger>,
    ticket: Ticket<Live>,
) -> Ticket<Live>
    requires asks { MayAskMoving (tree_seen keeper.old) ticket }
    requires bare { own_told keeper.old.entries ticket.task ≡ [] }
    ensures asks { MayAskMoving (tree_seen keeper.new) result }
    ensures owns { (s : Scope) × (own_told keeper.new.entries result.task ≡ (s, Finish) ∷ []) }
    ensures places { keeper.new.setup.places ≡ keeper.old.setup.places }
{
    laws::calls_own();
    match ask(
        rt,
        keeper,
        Request {
            ticket: AnyTicket::Running(ticket),
            ask: Ask::Open,
            batch: Batch::open(alloc),
            path: Some(Path::open(alloc)),
        },
    ) {
        Reply::Opened { ticket, scope } => {
            let _ = scope;
            ticket
        }
        other => {
            finish(other);
            stop(rt)
        }
    }
}

// Starts a task for place 1, which travels there.
fn starts<R: Abort>(
    rt: &R,
    alloc: Global,
    keeper: &mut Keeper<CountLedger>,
    ticket: Ticket<Live>,
) -> (Ticket<Live>, Ticket<InTransit>)
    requires asks { MayAskMoving (tree_seen keeper.old) ticket }
    requires owns { (s : Scope) × (own_told keeper.old.entries ticket.task ≡ (s, Finish) ∷ []) }
    requires places { 1 < keeper.old.setup.places }
    ensures asks { MayAskMoving (tree_seen keeper.new) result.0 }
    ensures owns { (s : Scope) × (own_told keeper.new.entries result.0.task ≡ (s, Finish) ∷ []) }
    ensures child { MayAskArrive (tree_seen keeper.new) result.1 }
    ensures apart { result.1.task.0 ≢ result.0.task.0 }
{
    laws::calls_own();
    match ask(
        rt,
        keeper,
        Request {
            ticket: AnyTicket::Running(ticket),
            ask: Ask::Spawn { to: PlaceId(1) },
            batch: Batch::open(alloc),
            path: Some(Path::open(alloc)),
        },
    ) {
        Reply::Spawned { ticket, child } => match child {
            Some(AnyTicket::Moving(child)) => (ticket, child),
            other => {
                finish_child(other);
                ticket.spent();
                stop(rt)
            }
        },
        other => {
            finish(other);
            stop(rt)
        }
    }
}

// Waits at the finish while another task travels.
fn waits<R: Abort>(
    rt: &R,
    alloc: Global,
    keeper: &mut Keeper<CountLedger>,
    ticket: Ticket<Live>,
    child: &Ticket<InTransit>,
) -> Ticket<Waiting>
    requires asks { MayAskMoving (tree_seen keeper.old) ticket }
    requires owns { (s : Scope) × (own_told keeper.old.entries ticket.task ≡ (s, Finish) ∷ []) }
    requires child { MayAskArrive (tree_seen keeper.old) child.now }
    requires apart { child.now.task.0 ≢ ticket.task.0 }
    ensures asks { MayAskRelease (tree_seen keeper.new) result }
    ensures child { MayAskArrive (tree_seen keeper.new) child.now }
    ensures apart { child.now.task.0 ≢ result.task.0 }
{
    laws::may_wait_next();
    keeper.is_history();
    match ask(
        rt,
        keeper,
        Request {
            ticket: AnyTicket::Running(ticket),
            ask: Ask::Wait {
                thrown: Faults::open(alloc),
            },
            batch: Batch::open(alloc),
            path: None,
        },
    ) {
        Reply::Waits { ticket } => ticket,
        other => {
            finish(other);
            stop(rt)
        }
    }
}

// Asks for the release while another task travels.
fn releases<R: Abort>(
    rt: &R,
    alloc: Global,
    keeper: &mut Keeper<CountLedger>,
    ticket: Ticket<Waiting>,
    child: &Ticket<InTransit>,
) -> Reply
    requires asks { MayAskRelease (tree_seen keeper.old) ticket }
    requires child { MayAskArrive (tree_seen keeper.old) child.now }
    requires apart { child.now.task.0 ≢ ticket.task.0 }
    ensures { MayAskArrive (tree_seen keeper.new) child.now }
{
    ask(
        rt,
        keeper,
        Request {
            ticket: AnyTicket::Held(ticket),
            ask: Ask::Release,
            batch: Batch::open(alloc),
            path: None,
        },
    )
}

// Ends a test that has gone wrong.
fn stop<R: Abort>(rt: &R) -> ! {
    assert!(rt; false);
    unreachable!()
}

// Two places, of which the second dies once the history has three entries.
fn doomed(alloc: Global) -> Result<Setup, NoMemory>
    ensures proper { IfOk result (λ s. Proper (given s)) }
    ensures places { IfOk result (λ s. s.places ≡ 2) }
{
    let mut kills = KillList::open(alloc);
    kills.push(Kill {
        place: PlaceId(1),
        moment: 3,
    })?;
    Ok(Setup {
        places: 2,
        heap: 256,
        kills,
        joins: JoinList::open(alloc),
    })
}

// One place, and one that joins before all else.
fn widening(alloc: Global) -> Result<Setup, NoMemory>
    ensures proper { IfOk result (λ s. Proper (given s)) }
{
    let mut joins = JoinList::open(alloc);
    joins.push(0)?;
    Ok(Setup {
        places: 1,
        heap: 256,
        kills: KillList::open(alloc),
        joins,
    })
}

// The path of the first statement.
fn first_path(alloc: Global) -> Result<Path, NoMemory> {
    let mut path = Path::open(alloc);
    path.push(0)?;
    Ok(path)
}

// Prints 4.
fn prints<R: Abort>(
    rt: &R,
    alloc: Global,
    keeper: &mut Keeper<CountLedger>,
    ticket: Ticket<Live>,
    path: Path,
) -> Ticket<Live>
    requires { MayAskMoving (tree_seen keeper.old) ticket }
    ensures { MayAskMoving (tree_seen keeper.new) result }
{
    match ask(
        rt,
        keeper,
        Request {
            ticket: AnyTicket::Running(ticket),
            ask: Ask::Print { value: 4 },
            batch: Batch::open(alloc),
            path: Some(path),
        },
    ) {
        Reply::Printed { ticket } => ticket,
        other => {
            finish(other);
            stop(rt)
        }
    }
}

// Asks for the number of places.
fn counts<R: Abort>(
    rt: &R,
    alloc: Global,
    keeper: &mut Keeper<CountLedger>,
    ticket: Ticket<Live>,
) -> (Ticket<Live>, u8)
    requires { MayAskMoving (tree_seen keeper.old) ticket }
{
    match ask(
        rt,
        keeper,
        Request {
            ticket: AnyTicket::Running(ticket),
            ask: Ask::Census,
            batch: Batch::open(alloc),
            path: Some(Path::open(alloc)),
        },
    ) {
        Reply::Census { ticket, places } => (ticket, places),
        other => {
            finish(other);
            stop(rt)
        }
    }
}

// What the child hears when it wants to arrive.
fn arrives<R: Abort>(
    rt: &R,
    alloc: Global,
    keeper: &mut Keeper<CountLedger>,
    child: Ticket<InTransit>,
) -> Reply
    requires { MayAskArrive (tree_seen keeper.old) child }
{
    ask(
        rt,
        keeper,
        Request {
            ticket: AnyTicket::Moving(child),
            ask: Ask::Arrive,
            batch: Batch::open(alloc),
            path: None,
        },
    )
}

// A task is started for place 1 and waited for, in a run with this setup: what the asker of the release hears, and then the task.
fn waits_for_one<R: Abort>(
    rt: &R,
    alloc: Global,
    setup: &Setup,
) -> Result<(Option<PlaceSet>, Option<PlaceId>, u32), NoMemory>
    requires proper { Proper (given setup.now) }
    requires places { setup.now.places ≡ 2 }
{
    let (mut keeper, ticket) = opened(alloc, setup)?;
    let ticket = opens(rt, alloc, &mut keeper, ticket);
    let (ticket, child) = starts(rt, alloc, &mut keeper, ticket);
    let held = waits(rt, alloc, &mut keeper, ticket, &child);
    match releases(rt, alloc, &mut keeper, held, &child) {
        Reply::Released { ticket, outcome } => {
            ticket.spent();
            let lost = outcome.lost;
            match arrives(rt, alloc, &mut keeper, child) {
                Reply::Lost { place, at: 3 } => Ok((Some(lost), Some(place), keeper.len())),
                other => {
                    finish(other);
                    Ok((Some(lost), None, keeper.len()))
                }
            }
        }
        Reply::NotYet { place, request } => {
            end(request);
            Ok((None, Some(place), keeper.len()))
        }
        other => {
            finish(other);
            Ok((None, None, 0))
        }
    }
}

#[test]
fn a_traveller_hinders_and_its_death_frees_the_scope(rt: HostRuntime) -> Result<(), Fail> {
    let hindered = waits_for_one(&rt, rt.alloc(), &calm(rt.alloc()))?;
    same(&rt, hindered, (None, Some(PlaceId(1)), 3));
    let freed = waits_for_one(&rt, rt.alloc(), &doomed(rt.alloc())?)?;
    same(&rt, freed, (Some(PlaceSet(2)), Some(PlaceId(1)), 5));
    Ok(())
}

#[test]
fn a_place_joins_before_the_entry(rt: HostRuntime) -> Result<(), Fail> {
    let alloc = rt.alloc();
    let path = first_path(alloc)?;
    let (mut keeper, ticket) = opened(alloc, &widening(alloc)?)?;
    let ticket = prints(&rt, alloc, &mut keeper, ticket, path);
    assert!(rt; keeper.len() == 2);
    let (ticket, places) = counts(&rt, alloc, &mut keeper, ticket);
    ticket.spent();
    same(&rt, places, 2);
    let (history, _ledger) = keeper.into_history();
    assert!(rt; history.len() == 3);
    assert!(rt; matches!(history.item(0), Entry::Join { place: PlaceId(1) }));
    match history.item(1) {
        Entry::Step {
            task: TaskId(0),
            act: Act::Print { value: 4, path },
            batch: _,
        } => {
            assert!(rt; path.len() == 1);
            same(&rt, path.item(0), 0);
        }
        _ => stop(&rt),
    }
    Ok(())
}
