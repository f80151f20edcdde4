//! An example of what stands on the keeper without scripts: a small runtime of its own. It keeps a queue of jobs, each a task with
//! its ticket, and lets each make one request in its turn. There are three places, and the last dies on the way. That no request
//! is made which may not be made is proved. docs/library.md tells which crates a runtime takes, and what they promise.
#![tactic(auto)]

ghost use Rattle.std.specs.Prelude.{◌≡◌, ◌<◌, ◌≤◌, ◌+◌, ◌++◌, length, vec_capacity};
ghost use Rattle.std.specs.Option.{IfSome};
ghost use Rattle.tasks_by_hand.specs.Jobs.{IsReady, Suits, jobs_after};

use rx_base::{Batch, Faults, Kill, Path, PlaceId};
use rx_counts::CountLedger;
use rx_history::{Ask, JoinList, Journal, Journals, KillList, Setup};
use rx_ledger::{Keeper, Reply, Request, laws};
use rx_ticket::AnyTicket;
use rx_trace::write_trace;
use std::alloc::Global;
use std::io::{self, Write};
use std::process::ExitCode;

/// A task with its ticket. An `AnyTicket` can be neither copied nor dropped, and so it is with a job.
pub struct Job {
    task: AnyTicket,
    /// Whether it is inside a finish that it has opened.
    inside: bool,
    /// How many requests it still makes before it waits or ends.
    left: u8,
}

// What a job asks for next: the main task opens a finish, starts a task for each place, waits and ends; the others arrive and end.
fn wants(alloc: Global, job: &Job, path: Path) -> (Ask, Option<Path>)
    ensures { Suits job.now.task job.now.inside result.0 result.1 }
{
    let thrown = Faults::open(alloc);
    let to = PlaceId(job.left % 3);
    match (&job.task, job.inside, job.left) {
        (AnyTicket::Host, _, _) => (Ask::Root, None),
        (AnyTicket::Moving(_), _, _) => (Ask::Arrive, None),
        (AnyTicket::Held(_), _, _) => (Ask::Release, None),
        (AnyTicket::Running(_), true, 0) => (Ask::Wait { thrown }, None),
        (AnyTicket::Running(_), true, _) => (Ask::Spawn { to }, Some(path)),
        (AnyTicket::Running(_), false, 0) => (Ask::End { thrown }, None),
        (AnyTicket::Running(_), false, _) => (Ask::Open, Some(path)),
    }
}

// Puts the tickets of a reply at the end of the queue: that of the job which asked, and that of the task which it has started.
fn put(jobs: &mut Vec<Job>, reply: Reply, inside: bool, left: u8)
    requires { length jobs.old.items + 2 ≤ vec_capacity jobs.old }
    ensures { jobs.new.items ≡ jobs_after jobs.old.items reply inside left }
{
    let inside = match &reply {
        Reply::Opened { .. } => true,
        Reply::Released { .. } => false,
        _ => inside,
    };
    let (asking, started) = reply.into_tickets();
    if let Some(task) = asking {
        jobs.push_reserved(Job { task, inside, left });
    }
    if let Some(task) = started {
        let (inside, left) = (false, 0);
        jobs.push_reserved(Job { task, inside, left });
    }
}

// Lets the first job make its next request. Its ticket comes back with the reply, unless the task has ended or is lost.
fn turn(alloc: Global, keeper: &mut Keeper<CountLedger>, jobs: &mut Vec<Job>) -> Option<()>
    requires some { 0 < length jobs.old.items }
    requires ready { IsReady keeper.old jobs.old.items }
    ensures { IfSome result (λ _. IsReady keeper.new jobs.new.items) }
{
    laws::may_wait_next();
    laws::may_end_next();
    laws::calls_go_on();
    laws::calls_own();
    laws::calls_keep_others();
    laws::calls_spare_scopes();
    laws::started_are_new();
    laws::numbers_are_left();
    keeper.is_history();
    let mut path = Path::open(alloc);
    path.push(0).ok()?;
    jobs.reserve(2).ok()?;
    let job = jobs.remove(0);
    let (ask, path) = wants(alloc, &job, path);
    let Job { task, inside, left } = job;
    let reply = keeper.apply(Request {
        ticket: task,
        ask,
        batch: Batch::open(alloc),
        path,
    });
    keeper.is_history();
    put(jobs, reply, inside, left.saturating_sub(1));
    (keeper.len() < 1000).then_some(())
}

// Gives up the jobs that are left.
fn give_up(mut jobs: Vec<Job>) {
    'rest: while let Some(job) = jobs.pop() {
        let Job { task, inside, left } = job;
        let _ = (inside, left);
        task.lost(PlaceId(0), 0);
    }
    jobs.destroy_empty();
}

// Runs the main task and all that it starts, with the host, and writes the trace. `None` says that memory or the output failed.
fn run<R: Print>(rt: &R, alloc: Global) -> Option<()> {
    let mut kills = KillList::open(alloc);
    let (place, moment) = (PlaceId(2), 6);
    kills.push(Kill { place, moment }).ok()?;
    let setup = Setup {
        places: 3,
        heap: 1,
        kills,
        joins: JoinList::open(alloc),
    };
    let ledger = CountLedger::open_for(alloc, 3, 0).ok()?;
    let mut jobs = Vec::with_capacity(alloc, 2).ok()?;
    let Ok((mut keeper, ticket)) = Keeper::open(alloc, ledger, &setup) else {
        jobs.destroy_empty();
        return None;
    };
    let (task, inside, left) = (AnyTicket::Running(ticket), false, 4);
    jobs.push_reserved(Job { task, inside, left });
    let (task, left) = (AnyTicket::Host, 0);
    jobs.push_reserved(Job { task, inside, left });
    'turns: for _ in 0..100 {
        if jobs.is_empty() || turn(alloc, &mut keeper, &mut jobs).is_none() {
            break;
        }
    }
    give_up(jobs);
    let (history, _) = keeper.into_history();
    let mut journals = Journals::open(alloc);
    for _ in 0..3 {
        journals.push(Journal::open(alloc)).ok()?;
    }
    let mut text = Vec::new(alloc);
    write_trace(&history, &journals, &mut text).ok()?;
    io::writer(rt).write_all(&text).ok()
}

fn main(rt: HostRuntime) -> ExitCode {
    let done = run(&rt, rt.alloc()).is_some();
    ExitCode::from(u8::from(!done))
}
