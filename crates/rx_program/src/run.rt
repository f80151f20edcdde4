// From a program to what is written.
ghost use Rattle.std.specs.Prelude.{◌≡◌, ◌≤◌, ◌<◌, ◌^◌, ℕ, length, IfOk, IfSome};
ghost use Rattle.rx_rules.specs.Code.{Block};
ghost use Rattle.rx_rules.specs.Run.{Proper, EndsWithRoot};
ghost use Rattle.rx_rules.specs.Picked.{IsPicked};
ghost use Rattle.rx_syntax.specs.Shape.{Stands};
ghost use Rattle.rx_history.specs.Events.{events_of};
ghost use Rattle.rx_history.specs.Setups.{given};
ghost use Rattle.rx_words.specs.Commands.{source_of};
ghost use Rattle.rx_program.specs.declared.status.Status.TheVariants.{Done};
ghost use Rattle.rx_program.specs.Top.{is_clean as clean, status_by, status_of, work_line, picks_of};
ghost use Rattle.rx_program.specs.Top.{IsTrace, IsLiveTrace, IsWatchedTrace, IsLiveText, IsCount};

use rx_base::{Faults, Gate, NoMemory, PlaceSet, members_make_the_set};
use rx_check::{Program, checked};
use rx_counts::CountLedger;
use rx_gen::{counts, generate, put_counts};
use rx_history::{Entry, History, Journals, Setup};
use rx_history_laws::{run_is_exact, run_is_not_early, run_is_ordered};
use rx_live::{run_live, run_watched};
use rx_machine::{ListPicks, Machine, Picks, SeedPicks};
use rx_monitor::put_watch;
use rx_runs::{entries_are_bounded, few_picks_are_used, picked_run_is_run};
use rx_text::put_natural;
use rx_trace::write_trace;
use rx_words::{LiveWords, PickWords};
use std::alloc::Global;
use std::sync::Wait;
use std::thread::Threads;

// The line that tells a program's work.
pub(crate) fn tell_work(alloc: Global, program: &Program) -> Result<(Vec<u8>, bool), NoMemory>
    ensures { IfOk result (λ r. (code : Block) → Stands program.now.script code → (r.0.items ≡ work_line code) × (status_by r.1 ≡ Done)) }
{
    checked(program);
    let mut text = Vec::new(alloc);
    text.extend_from_slice(b"work ")?;
    put_natural(&mut text, program.work() as u32)?;
    text.push(b'\n')?;
    Ok((text, true))
}

// The text of the trace of a program's run, and whether nothing was lost and nothing thrown at the root.
pub(crate) fn make_trace(
    alloc: Global,
    program: &Program,
    setup: Setup,
    picks: PickWords,
) -> Result<(Vec<u8>, bool), NoMemory>
    requires { Proper (given setup) }
    ensures { IfOk result (λ r. (code : Block) → Stands program.now.script code
        → IsTrace code (given setup) (source_of picks) r.0.items (status_by r.1)) }
{
    let (history, journals) = run_by(alloc, program, setup, picks)?;
    picked_run_is_run();
    run_is_not_early();
    run_is_exact();
    run_is_ordered();
    let mut text = Vec::new(alloc);
    write_trace(&history, &journals, &mut text)?;
    let clean = ends_clean(&history);
    Ok((text, clean))
}

// The text of a run with several workers, and whether nothing was lost and nothing thrown at the root.
pub(crate) fn make_live<G: Gate + Sync, R: Threads + Wait + Sync>(
    rt: &R,
    alloc: Global,
    program: &Program,
    live: &LiveWords,
    gate: &G,
) -> Result<(Vec<u8>, bool), NoMemory>
    requires proper { Proper (given live.now.setup) }
    requires workers { (1 ≤ live.now.workers) × (live.now.workers ≤ 8) }
    requires watch { IfSome live.now.watch (λ n. (1 ≤ n) × (n ≤ 1000)) }
    ensures { IfOk result (λ r. (code : Block) → Stands program.now.script code →
        IsLiveText code (given live.now.setup) live.now.watch r.0.items (status_by r.1)) }
{
    match live.watch {
        None => make_unwatched(rt, alloc, program, live, gate),
        Some(watch) => make_watched(rt, alloc, program, live, watch, gate),
    }
}

// The text of the trace of such a run, and the lines of its snapshots behind it.
fn make_watched<G: Gate + Sync, R: Threads + Wait + Sync>(
    rt: &R,
    alloc: Global,
    program: &Program,
    live: &LiveWords,
    watch: u32,
    gate: &G,
) -> Result<(Vec<u8>, bool), NoMemory>
    requires proper { Proper (given live.now.setup) }
    requires workers { (1 ≤ live.now.workers) × (live.now.workers ≤ 8) }
    requires watch { (1 ≤ watch) × (watch ≤ 1000) }
    ensures { IfOk result (λ r. (code : Block) → Stands program.now.script code →
        IsWatchedTrace code (given live.now.setup) watch r.0.items (status_by r.1)) }
{
    checked(program);
    let setup = &live.setup;
    let room = setup.joins.len() as u8;
    let ledger = CountLedger::open_for(alloc, setup.places, room)?;
    let (history, journals, _, seen) = run_watched(
        rt,
        alloc,
        program,
        setup,
        live.workers,
        watch,
        ledger,
        gate,
    )?;
    run_is_not_early();
    run_is_exact();
    run_is_ordered();
    let mut text = Vec::new(alloc);
    write_trace(&history, &journals, &mut text)?;
    put_watch(&mut text, seen.as_slice())?;
    let is_clear = ends_clean(&history);
    Ok((text, is_clear))
}

// The text of the trace of a run with several workers, and whether nothing was lost and nothing thrown at the root.
fn make_unwatched<G: Gate + Sync, R: Threads + Wait + Sync>(
    rt: &R,
    alloc: Global,
    program: &Program,
    live: &LiveWords,
    gate: &G,
) -> Result<(Vec<u8>, bool), NoMemory>
    requires proper { Proper (given live.now.setup) }
    requires workers { (1 ≤ live.now.workers) × (live.now.workers ≤ 8) }
    ensures { IfOk result (λ r. (code : Block) → Stands program.now.script code →
        IsLiveTrace code (given live.now.setup) r.0.items (status_by r.1)) }
{
    checked(program);
    let joins = live.setup.joins.len() as u8;
    let ledger = CountLedger::open_for(alloc, live.setup.places, joins)?;
    let (history, journals, _) = run_live(
        rt,
        alloc,
        program,
        &live.setup,
        live.workers,
        ledger,
        gate,
    )?;
    run_is_not_early();
    run_is_exact();
    run_is_ordered();
    let mut text = Vec::new(alloc);
    write_trace(&history, &journals, &mut text)?;
    Ok((text, ends_clean(&history)))
}

// The numbers of the run of the generated script, and whether nothing was lost and nothing thrown at the root.
pub(crate) fn make_counts(
    alloc: Global,
    size: u32,
    setup: Setup,
    picks: PickWords,
) -> Result<(Vec<u8>, bool), NoMemory>
    requires proper { Proper (given setup) }
    requires some { 1 ≤ size }
    requires most { size ≤ 10000 }
    ensures { IfOk result (λ r. IsCount size (given setup) (source_of picks) r.0.items (status_by r.1)) }
{
    let program = generate(alloc, size, setup.places)?;
    let (history, _) = run_by(alloc, &program, setup, picks)?;
    picked_run_is_run();
    run_is_not_early();
    run_is_exact();
    run_is_ordered();
    let mut text = Vec::new(alloc);
    put_counts(&counts(&history), &mut text)?;
    let clean = ends_clean(&history);
    Ok((text, clean))
}

// Runs a program under a setup, with the picks that words ask for.
fn run_by(
    alloc: Global,
    program: &Program,
    setup: Setup,
    picks: PickWords,
) -> Result<(History, Journals), NoMemory>
    requires { Proper (given setup) }
    ensures picked { IfOk result (λ r. (code : Block) → Stands program.now.script code
        → IsPicked code (given setup) (picks_of (source_of picks)) r.0.entries (events_of r.1) × (given r.0.setup ≡ given setup)) }
    ensures ended { IfOk result (λ r. EndsWithRoot r.0.entries) }
    ensures few { IfOk result (λ r. length r.0.entries < 2 ^ 31) }
{
    match picks {
        PickWords::Zeros => run_program(alloc, program, setup, &mut ListPicks::open(alloc, &[])?),
        PickWords::List(list) => {
            run_program(alloc, program, setup, &mut ListPicks::open(alloc, &list)?)
        }
        PickWords::Seed(seed) => run_program(alloc, program, setup, &mut SeedPicks::open(seed)),
    }
}

// Runs a program under a setup.
fn run_program<P: Picks>(
    alloc: Global,
    program: &Program,
    setup: Setup,
    picks: &mut P,
) -> Result<(History, Journals), NoMemory>
    requires { Proper (given setup) }
    ensures picked { (numbers : ℕ → ℕ) → ((j : ℕ) → P.number picks.old j ≡ numbers j)
        → IfOk result (λ r. (code : Block) → Stands program.now.script code
        → IsPicked code (given setup) numbers r.0.entries (events_of r.1) × (given r.0.setup ≡ given setup)) }
    ensures ended { IfOk result (λ r. EndsWithRoot r.0.entries) }
    ensures few { IfOk result (λ r. length r.0.entries < 2 ^ 31) }
{
    checked(program);
    entries_are_bounded();
    let joins = setup.joins.len() as u8;
    let ledger = CountLedger::open_for(alloc, setup.places, joins)?;
    let machine = Machine::open(alloc, program, &setup, ledger)?;
    few_picks_are_used();
    let (history, journals, _) = machine.run(program, picks)?;
    Ok((history, journals))
}

// Whether nothing was lost and nothing thrown at the root.
fn ends_clean(history: &History) -> bool
    requires { EndsWithRoot history.now.entries }
    ensures { status_by result ≡ status_of history.now.entries }
{
    match history.item(history.len() - 1) {
        Entry::Root { lost, thrown, .. } => is_clean(*lost, thrown),
        _ => false,
    }
}

// Whether nothing was lost and nothing thrown.
fn is_clean(lost: PlaceSet, thrown: &Faults) -> bool
    ensures { result ≡ clean lost thrown.now }
{
    members_make_the_set();
    lost.0 == 0 && thrown.len() == 0
}
