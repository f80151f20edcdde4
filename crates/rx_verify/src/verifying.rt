// The verdict: a pass over the entries, and then one over the events.
ghost use Rattle.std.specs.Prelude.{◌≡◌, ◌≤◌, ◌<◌, ◌^◌, [], length, Ok, None, IfOk};
ghost use Rattle.rx_rules.specs.Code.{Block};
ghost use Rattle.rx_rules.specs.Run.{Proper, in_all};
ghost use Rattle.rx_history.specs.Setups.{given};
ghost use Rattle.rx_history.specs.Events.{events_of};
ghost use Rattle.rx_syntax.specs.Shape.{Stands};
ghost use Rattle.rx_kills.specs.Deaths.{AreDeaths};
ghost use Rattle.rx_verdict.specs.Verdicts.{IsVerdict};
ghost use Rattle.rx_verify.specs.Inside.Passing.{PassIs, FirstFlaw, AfterEntry};

use crate::Players;
use crate::audit::Audit;
use rx_base::NoMemory;
use rx_check::{Program, checked};
use rx_counts::CountLedger;
use rx_finish::FinishLedger;
use rx_history::{Entry, History, Journals};
use rx_kills::{Due, no_deaths, note_death};
use rx_verdict::{Verdict, judge_events};
use std::alloc::Global;

/// The verdict on a history and its journals for a program: the first flaw, or `Run`, where they are a whole run. There is one such
/// verdict. Its conditions are limits of a trace text: a proper setup, at most 2^32 entries, and one journal for each place that is
/// there or may join. It takes memory in proportion to the history and the journals. The only refusal is out of memory.
pub fn verify(
    alloc: Global,
    program: &Program,
    history: &History,
    journals: &Journals,
) -> Result<Verdict, NoMemory>
    requires proper { Proper (given history.now.setup) }
    requires numbered { length history.now.entries ≤ 2 ^ 32 }
    requires one_each { length (events_of journals.now) ≡ in_all (given history.now.setup) }
    ensures { IfOk result (λ v. (code : Block) → Stands program.now.script code
        → IsVerdict code (given history.now.setup) history.now.entries (events_of journals.now) v) }
{
    let places = history.setup.places;
    let ledger = CountLedger::open_for(alloc, places, history.setup.joins.len() as u8)?;
    let audit = Audit::open(alloc, ledger, &history.setup)?;
    let players = Players::open(alloc, program, journals, places, history.len())?;
    judge(alloc, program, history, journals, audit, players)
}

// The verdict, from an audit and players before the first entry.
fn judge<L: FinishLedger>(
    alloc: Global,
    program: &Program,
    history: &History,
    journals: &Journals,
    mut audit: Audit<L>,
    mut players: Players,
) -> Result<Verdict, NoMemory>
    requires proper { Proper (given history.now.setup) }
    requires numbered { length history.now.entries ≤ 2 ^ 32 }
    requires one_each { length (events_of journals.now) ≡ in_all (given history.now.setup) }
    requires stands { PassIs L.stands program.now.script (given history.now.setup) history.now.entries (events_of journals.now) 0
        audit players }
    ensures { IfOk result (λ v. (code : Block) → Stands program.now.script code
        → IsVerdict code (given history.now.setup) history.now.entries (events_of journals.now) v) }
{
    checked(program);
    rx_verdict::seats_tell();
    rx_verdict::parts_begin();
    rx_verdict::event_laws::events_decide();
    let mut deaths = no_deaths();
    let flaw = first_flaw(
        alloc,
        program,
        history,
        journals,
        &mut audit,
        &mut players,
        &mut deaths,
    )?;
    match flaw {
        Some(number) => Ok(Verdict::Entry { number }),
        None => {
            if !audit.has_ended() {
                return Ok(Verdict::End);
            }
            let marks = players.finish(alloc, program, journals)?;
            judge_events(alloc, history, &deaths, journals, &marks)
        }
    }
}

// The number of the first entry with which the entries are no part of a run, or none where there is no such entry; the deaths are
// noted then.
fn first_flaw<L: FinishLedger>(
    alloc: Global,
    program: &Program,
    history: &History,
    journals: &Journals,
    audit: &mut Audit<L>,
    players: &mut Players,
    deaths: &mut [Option<u32>; 16],
) -> Result<Option<u32>, NoMemory>
    requires numbered { length history.now.entries ≤ 2 ^ 32 }
    requires stands { PassIs L.stands program.now.script (given history.now.setup) history.now.entries (events_of journals.now) 0
        audit.old players.old }
    requires deaths { AreDeaths [] deaths.old }
    ensures flaw { IfOk result (FirstFlaw L.stands program.now.script (given history.now.setup) history.now.entries (events_of journals.now)
        audit.new players.new) }
    ensures deaths { result ≡ Ok None → AreDeaths history.now.entries deaths.new }
{
    for i in 0..history.len() {
        if !admits(alloc, program, history, journals, i, audit, players)? {
            return Ok(Some(i as u32));
        }
        note_death(deaths, i as u32, history.item(i));
    }
    Ok(None)
}

// Whether the entry of a number may follow and its task makes it; audit and players stand after it then.
fn admits<L: FinishLedger>(
    alloc: Global,
    program: &Program,
    history: &History,
    journals: &Journals,
    i: usize,
    audit: &mut Audit<L>,
    players: &mut Players,
) -> Result<bool, NoMemory>
    requires numbered { length history.now.entries ≤ 2 ^ 32 }
    requires inside { i < length history.now.entries }
    requires stands { PassIs L.stands program.now.script (given history.now.setup) history.now.entries (events_of journals.now) i
        audit.old players.old }
    ensures { IfOk result (AfterEntry L.stands program.now.script (given history.now.setup) history.now.entries (events_of journals.now)
        i audit.new players.new) }
{
    checked(program);
    rx_runs::made_entries_are_bounded();
    rx_verdict::seats_tell();
    rx_verdict::parts_may_follow();
    crate::laws::players_stay();
    if audit.has_ended() {
        return Ok(false);
    }
    match history.item(i) {
        Entry::Step { task, act, batch } => {
            let number = i as u32;
            let who = players.reach(alloc, program, journals, number, *task, act, batch)?;
            let Some(who) = who else {
                return Ok(false);
            };
            if !audit.grant(who, act)? {
                return Ok(false);
            }
            players.go_on(alloc, program, number, *task, act)
        }
        Entry::Root {
            lost,
            masked,
            thrown,
        } => audit.root(*lost, *masked, thrown),
        Entry::Death { place } => Ok(audit.pass(Due::Death(*place))),
        Entry::Join { place } => Ok(audit.pass(Due::Join(*place))),
    }
}
