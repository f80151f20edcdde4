// Reading a text line by line.
ghost use Rattle.std.specs.Prelude.{◌≡◌, ◌+◌, ◌≤◌, ◌<◌, ◌&&◌, ◌==◌, nat_lt, ◌++◌, ◌∷◌, [], true, false, Some, None, codes};
ghost use Rattle.std.specs.Prelude.{option_map, IfOk, length, slice_index};
ghost use Rattle.std.specs.Str.{bytes_eq};
ghost use Rattle.rx_fields.specs.Words.{answer_left, pieces};
ghost use Rattle.rx_history.specs.Events.{events_of};
ghost use Rattle.rx_history.specs.Setups.{given};
ghost use Rattle.rx_rules.specs.Run.{in_all};
ghost use Rattle.rx_trace.specs.Inside.Machine.{Untitled, Titled, Sized, Listed, Planned, Entering, Logging, Over};
ghost use Rattle.rx_trace.specs.Inside.Machine.{begins_journal, event_line_of, read_line, told_there};
ghost use Rattle.rx_text.specs.Numbers.{natural_text};
ghost use Rattle.rx_fields.specs.Inside.Readers.{behind};
ghost use Rattle.rx_trace.specs.Inside.Stages.{state_of, PlacesFit};

use crate::entry_reader::entry;
use crate::event_reader::event;
use crate::plan_lines::{read_joins, read_kills, sizes};
use rx_base::NoMemory;
use rx_fields::{Words, after_short, is_number, split_words, strip};
use rx_history::{History, Journal, Journals, KillList, PlaceEvent, Setup};
use std::alloc::Global;
use std::mem;

// What has been read.
#[derive(Drop)]
pub(crate) enum Stage {
    Untitled,
    Titled,
    Sized {
        places: u8,
        heap: u32,
    },
    Listed {
        places: u8,
        heap: u32,
        kills: KillList,
    },
    Planned {
        setup: Setup,
    },
    Entering {
        history: History,
    },
    Logging {
        history: History,
        journals: Journals,
        journal: Journal,
    },
    Over {
        history: History,
        journals: Journals,
    },
}

// The words behind the number n, with which a line has to begin.
#[tactic(auto, using(crate::proofs::Numbered::behind_known))]
#[inline(always)]
fn behind_number(line: &[u8], n: usize) -> Option<Words<'_>>
    ensures { result ≡ behind (natural_text n) (pieces 32 line.now) }
{
    if let Some(words) = after_short(line, n) {
        return Some(words);
    }
    let (number, words) = split_words(line);
    if is_number(number, n) {
        Some(words)
    } else {
        None
    }
}

// The line of an event of this number.
#[tactic(auto, using(crate::proofs::Numbered::keyed_behind))]
fn read_event(
    alloc: Global,
    line: &[u8],
    n: usize,
    home: u8,
) -> Result<Option<PlaceEvent>, NoMemory>
    ensures { IfOk result (λ event. event ≡ event_line_of home n line.now) }
{
    let Some(mut words) = behind_number(line, n) else {
        return Ok(None);
    };
    match event(alloc, &mut words, home)? {
        Some(event) if words.is_empty() => Ok(Some(event)),
        _ => Ok(None),
    }
}

// Whether the line begins the journal of a place.
#[tactic(auto, using(crate::proofs::Told::no_journal))]
fn is_journal(line: &[u8], place: usize) -> bool
    ensures { result ≡ begins_journal place line.now }
{
    if !begins_with_j(line) {
        return false;
    }
    match strip(line, b"journal ") {
        Some(rest) => is_number(rest, place),
        None => false,
    }
}

// Whether the line begins with the letter of a journal.
fn begins_with_j(line: &[u8]) -> bool
    ensures { result ≡ (slice_index line.now 0 == 106) }
{
    match line {
        [b'j', ..] => true,
        _ => false,
    }
}

// Reads one line more, and answers whether it may come next.
pub(crate) fn read_next(alloc: Global, stage: &mut Stage, line: &[u8]) -> Result<bool, NoMemory>
    requires { PlacesFit stage.old }
    ensures good { IfOk result (λ good. good ≡ true → read_line (state_of stage.old) line.now ≡ Some (state_of stage.new)) }
    ensures bad { IfOk result (λ good. good ≡ false → read_line (state_of stage.old) line.now ≡ None) }
{
    // Most lines are entries and events, which are added in place.
    if is_told(stage, line) {
        added(alloc, stage, line)
    } else {
        changed(alloc, stage, line)
    }
}

// Whether the line has to be an entry or an event.
fn is_told(stage: &Stage, line: &[u8]) -> bool
    requires { PlacesFit stage.now }
    ensures { result ≡ told_there (state_of stage.now) line.now }
{
    match stage {
        Stage::Entering { .. } => !is_journal(line, 0),
        Stage::Logging {
            history,
            journals,
            ..
        } => {
            let next = journals.len() + 1;
            let places = usize::from(places_in_all(&history.setup));
            !is_next_journal(line, next, places) && !is_end(line, next, places)
        }
        _ => false,
    }
}

// The stage that a line more makes of this one takes its place; answers whether the line may come next.
fn changed(alloc: Global, stage: &mut Stage, line: &[u8]) -> Result<bool, NoMemory>
    requires ready { PlacesFit stage.old }
    requires other { told_there (state_of stage.old) line.now ≡ false }
    ensures good { IfOk result (λ good. good ≡ true → read_line (state_of stage.old) line.now ≡ Some (state_of stage.new)) }
    ensures bad { IfOk result (λ good. good ≡ false → read_line (state_of stage.old) line.now ≡ None) }
{
    let before = mem::replace(stage, Stage::Untitled);
    match next_stage(alloc, before, line)? {
        Some(next) => {
            *stage = next;
            Ok(true)
        }
        None => Ok(false),
    }
}

// Adds the entry or the event that a line has to be, and answers whether it is one.
#[tactic(auto, using(crate::proofs::Told::no_first_journal, crate::proofs::Told::no_next_journal, crate::proofs::Told::no_end))]
fn added(alloc: Global, stage: &mut Stage, line: &[u8]) -> Result<bool, NoMemory>
    requires ready { PlacesFit stage.old }
    requires told { told_there (state_of stage.old) line.now ≡ true }
    ensures good { IfOk result (λ good. good ≡ true → read_line (state_of stage.old) line.now ≡ Some (state_of stage.new)) }
    ensures bad { IfOk result (λ good. good ≡ false → read_line (state_of stage.old) line.now ≡ None) }
{
    match stage {
        Stage::Entering { history } => entry_added(alloc, history, line),
        Stage::Logging {
            history,
            journals,
            journal,
        } => event_added(alloc, history, journals, journal, line),
        _ => Ok(false),
    }
}

// Adds the entry that a line is.
fn entry_added(alloc: Global, history: &mut History, line: &[u8]) -> Result<bool, NoMemory>
    requires few { in_all (given history.old.setup) ≤ 16 }
    requires other { begins_journal 0 line.now ≡ false }
    ensures good { IfOk result (λ good. good ≡ true → read_line (Entering (given history.old.setup) history.old.entries) line.now
        ≡ Some (Entering (given history.new.setup) history.new.entries)) }
    ensures bad { IfOk result (λ good. good ≡ false → read_line (Entering (given history.old.setup) history.old.entries) line.now ≡ None) }
{
    let n = history.len();
    if n >= 4_294_967_296 {
        return Ok(false);
    }
    let places = places_in_all(&history.setup);
    match behind_number(line, n) {
        Some(mut words) => entry(alloc, &mut words, places, history),
        None => Ok(false),
    }
}

// Adds the event that a line is.
fn event_added(
    alloc: Global,
    history: &History,
    journals: &Journals,
    journal: &mut Journal,
    line: &[u8],
) -> Result<bool, NoMemory>
    requires below { length journals.now.journals < 16 }
    requires other { (begins_journal (length (events_of journals.now) + 1) line.now
        && nat_lt (length (events_of journals.now) + 1) (in_all (given history.now.setup))) ≡ false }
    requires more { (bytes_eq line.now (codes "done") && length (events_of journals.now) + 1 == in_all (given history.now.setup)) ≡ false }
    ensures good { IfOk result (λ good. good ≡ true → read_line
        (Logging (given history.now.setup) history.now.entries (events_of journals.now) journal.old.events) line.now
        ≡ Some (Logging (given history.now.setup) history.now.entries (events_of journals.now) journal.new.events)) }
    ensures bad { IfOk result (λ good. good ≡ false → read_line
        (Logging (given history.now.setup) history.now.entries (events_of journals.now) journal.old.events) line.now ≡ None) }
{
    match read_event(alloc, line, journal.len(), journals.len() as u8)? {
        Some(event) => {
            journal.reserve(1)?;
            journal.add(event);
            Ok(true)
        }
        None => Ok(false),
    }
}

// The stage after a line that is to be no entry and no event.
fn next_stage(alloc: Global, stage: Stage, line: &[u8]) -> Result<Option<Stage>, NoMemory>
    requires ready { PlacesFit stage }
    requires other { told_there (state_of stage) line.now ≡ false }
    ensures { IfOk result (λ next. option_map state_of next ≡ read_line (state_of stage) line.now) }
{
    match stage {
        Stage::Untitled => Ok(titled(line)),
        Stage::Titled => Ok(sized(line)),
        Stage::Sized { places, heap } => listed(alloc, places, heap, line),
        Stage::Listed {
            places,
            heap,
            kills,
        } => planned(alloc, places, heap, kills, line),
        Stage::Planned { setup } => Ok(begun(alloc, setup, line)),
        Stage::Entering { history } => Ok(Some(Stage::Logging {
            history,
            journals: Journals::open(alloc),
            journal: Journal::open(alloc),
        })),
        Stage::Logging {
            history,
            journals,
            journal,
        } => told(alloc, history, journals, journal, line),
        Stage::Over { .. } => Ok(None),
    }
}

fn titled(line: &[u8]) -> Option<Stage>
    ensures { option_map state_of result ≡ read_line Untitled line.now }
{
    if line == b"rx10 trace 2".as_slice() {
        Some(Stage::Titled)
    } else {
        None
    }
}

fn sized(line: &[u8]) -> Option<Stage>
    ensures { option_map state_of result ≡ read_line Titled line.now }
{
    let (places, heap) = sizes(line)?;
    Some(Stage::Sized { places, heap })
}

fn listed(alloc: Global, places: u8, heap: u32, line: &[u8]) -> Result<Option<Stage>, NoMemory>
    ensures { IfOk result (λ next. option_map state_of next ≡ read_line (Sized places heap) line.now) }
{
    let Some(kills) = read_kills(alloc, line)? else {
        return Ok(None);
    };
    Ok(Some(Stage::Listed {
        places,
        heap,
        kills,
    }))
}

fn planned(
    alloc: Global,
    places: u8,
    heap: u32,
    kills: KillList,
    line: &[u8],
) -> Result<Option<Stage>, NoMemory>
    requires { places ≤ 16 }
    ensures { IfOk result (λ next. option_map state_of next ≡ read_line (Listed places heap kills) line.now) }
{
    let Some(joins) = read_joins(alloc, line, places, &kills)? else {
        return Ok(None);
    };
    let setup = Setup {
        places,
        heap,
        kills,
        joins,
    };
    Ok(Some(Stage::Planned { setup }))
}

fn begun(alloc: Global, setup: Setup, line: &[u8]) -> Option<Stage>
    ensures { option_map state_of result ≡ read_line (Planned (given setup)) line.now }
{
    if line == b"history".as_slice() {
        Some(Stage::Entering {
            history: History::open(alloc, setup),
        })
    } else {
        None
    }
}

// The number of the places that are there or join.
fn places_in_all(setup: &Setup) -> u8
    requires { in_all (given setup.now) ≤ 16 }
    ensures { result ≡ in_all (given setup.now) }
{
    setup.places + setup.joins.len() as u8
}

// The journal is whole: the next one begins, or this was the last line.
fn told(
    alloc: Global,
    history: History,
    journals: Journals,
    journal: Journal,
    line: &[u8],
) -> Result<Option<Stage>, NoMemory>
    requires few { in_all (given history.setup) ≤ 16 }
    requires other { told_there (Logging (given history.setup) history.entries (events_of journals) journal.events) line.now ≡ false }
    ensures { IfOk result (λ next. option_map state_of next ≡ read_line
        (Logging (given history.setup) history.entries (events_of journals) journal.events) line.now) }
{
    let places = usize::from(places_in_all(&history.setup));
    if is_next_journal(line, journals.len() + 1, places) {
        next_journal(alloc, history, journals, journal)
    } else {
        over(history, journals, journal)
    }
}

// Whether the line begins the journal of a place that there is.
fn is_next_journal(line: &[u8], place: usize, places: usize) -> bool
    ensures { result ≡ (begins_journal place line.now && nat_lt place places) }
{
    is_journal(line, place) && place < places
}

// Whether the line is the last, after so many journals.
fn is_end(line: &[u8], journals: usize, places: usize) -> bool
    ensures { result ≡ (bytes_eq line.now (codes "done") && journals == places) }
{
    line == b"done".as_slice() && journals == places
}

// The journal is whole, and the next one begins.
fn next_journal(
    alloc: Global,
    history: History,
    journals: Journals,
    journal: Journal,
) -> Result<Option<Stage>, NoMemory>
    ensures { IfOk result (λ next. option_map state_of next ≡ Some
        (Logging (given history.setup) history.entries (events_of journals ++ journal.events ∷ []) [])) }
{
    let mut journals = journals;
    journals.push(journal)?;
    Ok(Some(Stage::Logging {
        history,
        journals,
        journal: Journal::open(alloc),
    }))
}

// The last journal is whole.
fn over(history: History, journals: Journals, journal: Journal) -> Result<Option<Stage>, NoMemory>
    ensures { IfOk result (λ next. option_map state_of next ≡ Some (Over (given history.setup) history.entries (events_of journals
        ++ journal.events ∷ []))) }
{
    let mut journals = journals;
    journals.push(journal)?;
    Ok(Some(Stage::Over { history, journals }))
}
