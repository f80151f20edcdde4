// For each event of each journal, where the next of the same task stands.
ghost use Rattle.std.specs.Prelude.{◌≡◌, ◌<◌, ◌≤◌, suc, ℕ, List, Some, length, slice_get, slice_index_or, IfOk};
ghost use Rattle.rx_rules.specs.declared.events.Cell.{Cell};
ghost use Rattle.rx_rules.specs.declared.events.PlaceEvent.{PlaceEvent};
ghost use Rattle.rx_rules.specs.declared.events.PlaceEvent.TheVariants.{Done};
ghost use Rattle.rx_rules.specs.Plays.{journal_at};
ghost use Rattle.rx_history.specs.Events.{events_of};
ghost use Rattle.rx_verify.specs.Events.{IsFirst, IsOf};
ghost use Rattle.rx_verify.specs.Table.{TableIs};
ghost use Rattle.rx_verify.specs.Inside.Rows.{RowIs};

use rx_base::{NoMemory, PlaceId, TaskId};
use rx_history::{Journal, Journals};
use rx_rules::PlaceEvent;
use std::alloc::Global;

/// Where the events of each task stand: for each event of each journal the position of the next of the same task, and for each task
/// and place that of the first.
#[derive(Drop)]
pub struct EventTable {
    rows: Vec<Row>,
}

// The positions in one journal, which has fewer than 2^32 events. A position that there is not is the journal's length.
#[derive(Drop)]
struct Row {
    // For each event that of the next of the same task.
    next: Vec<u32>,
    // For each task that of its first event; no longer than up to the greatest task that has one.
    first: Vec<u32>,
}

impl EventTable {
    /// The table of these journals, for the tasks below a number; it takes time and memory in proportion to the events and the tasks.
    /// A journal of 2^32 events or more has no table.
    pub fn open(alloc: Global, journals: &Journals, tasks: usize) -> Result<EventTable, NoMemory>
        ensures { IfOk result (TableIs (events_of journals.now) tasks) }
    {
        let mut rows = Vec::with_capacity(alloc, journals.len())?;
        for p in 0..journals.len() {
            rows.push(Row::open(alloc, journals.item(p), tasks)?)?;
        }
        Ok(EventTable { rows })
    }

    /// The position of a task's first event in the journal of a place, or the journal's length. The task is below the table's number.
    pub fn first(&self, place: PlaceId, task: TaskId) -> usize
        ensures { (js : List (List PlaceEvent)) (tasks : ℕ) → TableIs js tasks self.now → task.0 < tasks
            → IsFirst task.0 (journal_at js place.0) 0 result }
    {
        let place = place.0 as usize;
        if place < self.rows.len() {
            self.rows[place].first(task.0 as usize)
        } else {
            0
        }
    }

    /// The position of the next event of the task whose event stands there, or the journal's length. The task is below the table's
    /// number.
    pub fn after(&self, place: PlaceId, at: usize) -> usize
        ensures { (js : List (List PlaceEvent)) (tasks t stamp : ℕ) (cell : Cell) (path : List ℕ) → TableIs js tasks self.now → t < tasks
            → slice_get (journal_at js place.0) at ≡ Some (Done (record { 0 = t }) stamp cell path)
            → IsFirst t (journal_at js place.0) (suc at) result }
    {
        let place = place.0 as usize;
        if place < self.rows.len() {
            self.rows[place].after(at)
        } else {
            0
        }
    }
}

impl Row {
    // The positions of a journal's events, for the tasks below a number.
    fn open(alloc: Global, journal: &Journal, tasks: usize) -> Result<Row, NoMemory>
        ensures { IfOk result (RowIs journal.now.events tasks) }
    {
        if journal.len() > u32::MAX as usize {
            return Err(NoMemory);
        }
        let none = journal.len() as u32;
        let mut next = vec![in alloc; none; journal.len()]?;
        let mut first = vec![in alloc; none; tasks_of(journal, tasks)]?;
        for e in (0..journal.len()).rev() {
            if let PlaceEvent::Done { task, .. } = journal.item(e) {
                let task = task.0 as usize;
                if task < first.len() {
                    next[e] = first[task];
                    first[task] = e as u32;
                }
            }
        }
        Ok(Row { next, first })
    }

    // The position of a task's first event, or the journal's length.
    fn first(&self, task: usize) -> usize
        ensures { result ≡ slice_index_or self.now.first.items task (length self.now.next.items) }
    {
        match self.first.get(task) {
            Some(at) => *at as usize,
            None => self.next.len(),
        }
    }

    // The position of the next event after one of the same task, or the journal's length.
    fn after(&self, at: usize) -> usize
        ensures { result ≡ slice_index_or self.now.next.items at (length self.now.next.items) }
    {
        match self.next.get(at) {
            Some(next) => *next as usize,
            None => self.next.len(),
        }
    }
}

// One more than the greatest task below a number that has an event there, or 0.
fn tasks_of(journal: &Journal, tasks: usize) -> usize
    ensures few { result ≤ tasks }
    ensures enough { (t e : ℕ) → t < tasks → IsOf t journal.now.events e → t < result }
{
    let mut count = 0;
    for e in 0..journal.len() {
        if let PlaceEvent::Done { task, .. } = journal.item(e) {
            let task = task.0 as usize;
            if task < tasks && count <= task {
                count = task + 1;
            }
        }
    }
    count
}
