// A run of calls on the ledger's object in its book: the main activity opens a finish, and the host asks for the root's release.
ghost use Rattle.std.specs.Prelude.{◌≡◌, ◌≤◌, [], IfOk};
ghost use Rattle.rx_rules.specs.Code.{Block};
ghost use Rattle.rx_rules.specs.Terms.{Empty, items, no_vars};
ghost use Rattle.rx_rules.specs.Run.{Proper};
ghost use Rattle.rx_syntax.specs.Shape.{Stands};
ghost use Rattle.rx_control.specs.Stands.{StandsFor};
ghost use Rattle.rx_history.specs.Setups.{given};
ghost use Rattle.rx_book.specs.Calls.{IsFresh};
ghost use Rattle.rx_book.specs.Passes.{view_of, word_of};
ghost use Rattle.rx_ledger.specs.Answering.{main_caller};
ghost use Rattle.rx_objects.specs.Asking.{host_number};
ghost use Rattle.rx_objects.specs.Ledger.{LedgerIsLegal};

use crate::same::same;
use rx_base::{Batch, NoGate, NoMemory, PlaceId, PlaceSet, TaskId, Value};
use rx_book::{BareBook, Book, Pass};
use rx_check::{Program, check};
use rx_control::{CellOp, Control, Next, Want};
use rx_counts::CountLedger;
use rx_history::{Ask, JoinList, KillList, Setup};
use rx_ledger::{Keeper, Reply, Request};
use rx_objects::{
    LedgerAndGate, LedgerObject, LedgerOp, LedgerReply, Mentions, PlaceObject, PlaceOp, PlaceReply,
    Surroundings, host_may_ask, ledger_op_fits, objects_open, place_op_fits,
};
use rx_parts::{EntryItem, EventItem};
use rx_script::read_script;
use rx_store::{Mark, Store};
use rx_ticket::{AnyTicket, Live, Ticket};
use std::alloc::Global;
use std::process::Abort;
use std::snapshot::Snapshot;
use std::sync::Wait;
use std::test::Fail;

const HERE: PlaceId = PlaceId(0);

// Ends the process.
fn stop<R: Abort>(rt: &R) -> ! {
    panic!(rt; "the call answers otherwise")
}

// A checked script.
fn program(alloc: Global, bytes: &[u8]) -> Option<Program> {
    if bytes.len() > 65_536 {
        return None;
    }
    let Ok(script) = read_script(alloc, bytes) else {
        return None;
    };
    check(alloc, script).ok()
}

// One place, and no kills and no joins.
fn calm(alloc: Global) -> Setup
    ensures proper { Proper (given result) }
    ensures places { result.places ≡ 1 }
{
    Setup {
        places: 1,
        heap: 16,
        kills: KillList::open(alloc),
        joins: JoinList::open(alloc),
    }
}

// What an operation mentions that names no event and starts no task.
fn nothing_new(pass: &Pass<EntryItem>, seat: &Pass<EventItem>) -> Mentions
    ensures { result.before.value ≡ result.now.value }
{
    Mentions {
        before: Snapshot::of(seat),
        now: Snapshot::of(seat),
        child: Snapshot::of(pass),
        seat: Snapshot::of(seat),
    }
}

// The first entry: the main activity opens a finish.
fn opens<R: Abort + Wait>(
    rt: &R,
    alloc: Global,
    program: &Program,
    ledger: &Book<LedgerObject>,
    control: &Control,
    ticket: Ticket<Live>,
    pass: &mut Pass<EntryItem>,
    seat: &Pass<EventItem>,
) -> LedgerReply
    requires places { (1 ≤ ledger.now.fixed.setup.places) × (ledger.now.fixed.setup.places ≤ 16) }
    requires program { ledger.now.fixed.program ≡ program.now }
    requires control { (b : Block) → Stands program.now.script b → StandsFor program.now.script control.now (items b [] Empty)
        × (control.now.vars ≡ no_vars ledger.now.fixed.setup.places) }
    requires ticket { ticket ≡ main_caller }
    requires pass { (word_of pass.old ≡ ledger.now.word) × ((view_of pass.old).number ≡ []) × ((view_of pass.old).seen ≡ []) }
    ensures own { word_of pass.new ≡ word_of pass.old }
    ensures lawful { LedgerIsLegal ledger.now.fixed (view_of pass.new).seen }
    ensures same { ((view_of pass.new).number ≡ (view_of pass.old).number) × ((view_of pass.new).splits ≡ (view_of pass.old).splits) }
{
    rx_check::checked(program);
    ledger_op_fits();
    let Next::Book(want) = control.next(program, HERE) else {
        ticket.spent();
        stop(rt)
    };
    let Want::Open = want else {
        ticket.spent();
        stop(rt)
    };
    let Ok(Some(path)) = control.path(alloc, program) else {
        ticket.spent();
        stop(rt)
    };
    let mentions = nothing_new(pass, seat);
    let request = Request {
        ticket: AnyTicket::Running(ticket),
        ask: Ask::Open,
        batch: Batch::open(alloc),
        path: Some(path),
    };
    ledger.call(
        rt,
        pass,
        LedgerOp {
            request,
            note: None,
            mentions,
        },
    )
}

// The host asks for the root's release.
fn releases<R: Wait>(
    rt: &R,
    alloc: Global,
    program: &Program,
    ledger: &Book<LedgerObject>,
    host: &mut Pass<EntryItem>,
    seat: &Pass<EventItem>,
) -> LedgerReply
    requires program { ledger.now.fixed.program ≡ program.now }
    requires own { word_of host.old ≡ ledger.now.word }
    requires number { (view_of host.old).number ≡ host_number }
    requires lawful { LedgerIsLegal ledger.now.fixed (view_of host.old).seen }
    ensures own { word_of host.new ≡ word_of host.old }
{
    rx_check::checked(program);
    ledger_op_fits();
    host_may_ask();
    let mentions = nothing_new(host, seat);
    let request = Request {
        ticket: AnyTicket::Host,
        ask: Ask::Root,
        batch: Batch::open(alloc),
        path: None,
    };
    ledger.call(
        rt,
        host,
        LedgerOp {
            request,
            note: None,
            mentions,
        },
    )
}

// The ledger's book, the pass of its first caller, and the ticket of the main activity.
fn open_ledger<R: Wait>(
    rt: &R,
    alloc: Global,
    program: &Program,
    setup: &Setup,
    words: &Vec<BareBook<EventItem>>,
) -> Result<(Book<LedgerObject>, Pass<EntryItem>, Ticket<Live>), NoMemory>
    requires proper { Proper (given setup.now) }
    requires places { setup.now.places ≡ 1 }
    ensures fixed { IfOk result (λ t. (t.0.fixed.program ≡ program.now) × (t.0.fixed.setup ≡ setup.now)) }
    ensures own { IfOk result (λ t. word_of t.1 ≡ t.0.word) }
    ensures fresh { IfOk result (λ t. IsFresh (view_of t.1)) }
    ensures ticket { IfOk result (λ t. t.2 ≡ main_caller) }
{
    objects_open();
    let counts = CountLedger::open_for(alloc, setup.places, setup.joins.len() as u8)?;
    match Keeper::open(alloc, counts, setup) {
        Ok((keeper, ticket)) => {
            let object = LedgerObject::open(alloc, keeper, program, words, None);
            match Book::open(rt, alloc, object) {
                Ok((book, pass)) => Ok((book, pass, ticket)),
                Err((object, refused)) => {
                    ticket.spent();
                    object.into_keeper(rt);
                    Err(refused)
                }
            }
        }
        Err(_) => Err(NoMemory),
    }
}

// The book of place 0 over a word, and the pass of its first caller.
fn open_place<'a>(
    alloc: Global,
    word: BareBook<EventItem>,
    ledger: &'a Book<LedgerObject>,
    pass: &mut Pass<EntryItem>,
    gate: &'a NoGate,
) -> Result<
    (
        Book<PlaceObject<LedgerAndGate<'a, Book<LedgerObject>, NoGate>>>,
        Pass<EventItem>,
    ),
    NoMemory,
>
    requires places { (1 ≤ ledger.now.fixed.setup.places) × (ledger.now.fixed.setup.places ≤ 16) }
    requires own { word_of pass.old ≡ ledger.now.word }
    requires fresh { (view_of pass.old).seen ≡ [] }
    ensures same { (word_of pass.new ≡ word_of pass.old) × ((view_of pass.new).seen ≡ (view_of pass.old).seen) }
    ensures number { ((view_of pass.new).number ≡ (view_of pass.old).number) × ((view_of pass.new).splits ≡ (view_of pass.old).splits) }
    ensures fixed { IfOk result (λ t. (t.0.fixed.ledger ≡ ledger.now) × (t.0.fixed.place ≡ record { 0 = 0 })) }
    ensures own { IfOk result (λ t. word_of t.1 ≡ t.0.word) }
    ensures fresh { IfOk result (λ t. IsFresh (view_of t.1)) }
{
    objects_open();
    if ledger.peek_deaths(pass).contains(HERE) {
        return Err(NoMemory);
    }
    let store = Store::open(alloc, HERE, 16)?;
    let note = ledger.note(pass)?;
    let object = PlaceObject::open(HERE, store, note, LedgerAndGate { ledger, gate });
    match Book::over(alloc, word, object) {
        Ok(both) => Ok(both),
        Err(_) => Err(NoMemory),
    }
}

// Ends what a reply holds, and tells whether a finish was opened and at which place the root's release has to wait for a task.
fn told(answer: LedgerReply) -> (bool, Option<PlaceId>, usize) {
    let LedgerReply {
        reply,
        notes,
        shown: _,
        hint: _,
    } = answer;
    let opened = matches!(&reply, Reply::Opened { .. });
    let place = match &reply {
        Reply::NotYet { place, request: _ } => Some(*place),
        _ => None,
    };
    let (asking, started) = reply.into_tickets();
    end(asking);
    end(started);
    (opened, place, notes.len())
}

fn end(ticket: Option<AnyTicket>) {
    match ticket {
        Some(ticket) => ticket.lost(HERE, 0),
        None => {}
    }
}

// What the run of calls on the ledger's object shows.
#[derive(Drop)]
struct LedgerSeen {
    before: u32,
    dead: PlaceSet,
    opened: bool,
    after: u32,
    split: u32,
    place: Option<PlaceId>,
    notes: usize,
}

// The control of the main activity, which knows the places of the ledger.
fn first_control(
    alloc: Global,
    program: &Program,
    ledger: &Book<LedgerObject>,
) -> Result<Control, NoMemory>
    requires { ledger.now.fixed.setup.places ≡ 1 }
    ensures { IfOk result (λ c. (b : Block) → Stands program.now.script b → StandsFor program.now.script c (items b [] Empty)
        × (c.vars ≡ no_vars ledger.now.fixed.setup.places)) }
{
    Control::main(alloc, program, 1)
}

fn on_ledger<R: Abort + Wait>(
    rt: &R,
    alloc: Global,
    program: &Program,
    ledger: &Book<LedgerObject>,
    mut pass: Pass<EntryItem>,
    ticket: Ticket<Live>,
) -> Result<(LedgerSeen, Pass<EntryItem>), NoMemory>
    requires fixed { (ledger.now.fixed.program ≡ program.now) × (ledger.now.fixed.setup.places ≡ 1) }
    requires own { word_of pass ≡ ledger.now.word }
    requires fresh { ((view_of pass).seen ≡ []) × ((view_of pass).number ≡ []) × ((view_of pass).splits ≡ 0) }
    requires ticket { ticket ≡ main_caller }
    ensures own { IfOk result (λ t. word_of t.1 ≡ ledger.now.word) }
{
    let gate = NoGate;
    let Ok(control) = first_control(alloc, program, ledger) else {
        ticket.spent();
        return Err(NoMemory);
    };
    let Ok(word) = BareBook::open(alloc) else {
        ticket.spent();
        return Err(NoMemory);
    };
    let Ok((place, seat)) = open_place(alloc, word, ledger, &mut pass, &gate) else {
        ticket.spent();
        return Err(NoMemory);
    };
    let (opened, _, _) = told(opens(
        rt, alloc, program, ledger, &control, ticket, &mut pass, &seat,
    ));
    let after = ledger.seen_len(&mut pass);
    let Ok(mut host) = ledger.split(&mut pass) else {
        unreachable!()
    };
    let split = ledger.seen_len(&mut host);
    let (_, waits, notes) = told(releases(rt, alloc, program, ledger, &mut host, &seat));
    place.abandon(rt);
    let Ok(note) = ledger.note(&mut pass) else {
        unreachable!()
    };
    ledger.meet(&mut host, note);
    let seen = LedgerSeen {
        before: 0,
        dead: PlaceSet(0),
        opened,
        after,
        split,
        place: waits,
        notes,
    };
    Ok((seen, host))
}

fn ledger_scene<R: Abort + Wait>(
    rt: &R,
    alloc: Global,
    program: &Program,
) -> Result<(LedgerSeen, u32), NoMemory> {
    let setup = calm(alloc);
    let (ledger, mut pass, ticket) = open_ledger(rt, alloc, program, &setup, &Vec::new(alloc))?;
    let before = ledger.seen_len(&mut pass);
    let dead = ledger.peek_deaths(&mut pass);
    match on_ledger(rt, alloc, program, &ledger, pass, ticket) {
        Ok((seen, host)) => match ledger.close(rt, host) {
            Ok(object) => Ok((
                LedgerSeen {
                    before,
                    dead,
                    ..seen
                },
                object.into_keeper(rt).len(),
            )),
            Err((book, _, _)) => Ok((seen, book.abandon(rt).into_keeper(rt).len())),
        },
        Err(refused) => {
            ledger.abandon(rt).into_keeper(rt);
            Err(refused)
        }
    }
}

#[test]
fn the_ledger_answers_in_its_book(rt: HostRuntime) -> Result<(), Fail> {
    let Some(program) = program(rt.alloc(), b"finish { }") else {
        panic!(rt; "no program")
    };
    let (seen, kept) = ledger_scene(&rt, rt.alloc(), &program)?;
    same(&rt, seen.before, 0);
    assert!(rt; seen.dead == PlaceSet(0));
    assert!(rt; seen.opened);
    same(&rt, seen.after, 1);
    same(&rt, seen.split, 1);
    assert!(rt; seen.place == Some(HERE));
    same(&rt, seen.notes, 0);
    same(&rt, kept, 1);
    Ok(())
}
