// Marks on the events of journals.
ghost use Rattle.std.specs.Prelude.{◌≡◌, ◌<◌, length, replicate, slice_set, slice_index_or, true, false, IfOk};
ghost use Rattle.rx_history.specs.Events.{events_of};
ghost use Rattle.rx_verdict.specs.Marked.{marked, no_marks, with_mark, row_at, HasShape};

use rx_base::{NoMemory, PlaceId};
use rx_history::Journals;
use std::alloc::Global;
use std::marker::Model;

/// Which events of all journals are marked. It is seen as a row for each place, with a truth value for each event of its journal.
#[derive(Drop)]
pub struct Marks {
    rows: Vec<Row>,
}

// The marks of one journal.
#[derive(Drop)]
struct Row {
    marks: Vec<bool>,
}

impl Model for Row {
    ghost use Rattle.std.specs.Prelude.{List, Bool};

    ghost Value = { List Bool };

    ghost view = { λ a. a.marks.items };
}

impl Model for Marks {
    ghost use Rattle.std.specs.Prelude.{List, Bool};

    ghost Value = { List (List Bool) };

    ghost view = { λ a. a.rows.items };
}

impl Marks {
    /// A row for each journal, with no event marked. It takes memory in proportion to the events.
    pub fn open(alloc: Global, journals: &Journals) -> Result<Marks, NoMemory>
        ensures none { IfOk result (λ marks. marks ≡ no_marks (events_of journals.now)) }
        ensures shape { IfOk result (HasShape (events_of journals.now)) }
    {
        let mut rows = Vec::with_capacity(alloc, journals.len())?;
        for p in 0..journals.len() {
            rows.push(open_row(alloc, journals.item(p).len())?)?;
        }
        Ok(Marks { rows })
    }

    /// Marks an event, by its place and its position in the journal. No memory is taken.
    pub fn mark(&mut self, place: PlaceId, number: usize)
        requires row { place.0 < length self.old }
        requires event { number < length (row_at self.old place.0) }
        ensures { self.new ≡ with_mark self.old place.0 number }
    {
        self.rows[place.0 as usize].mark(number);
    }

    /// Whether an event is marked. No memory is taken.
    pub fn is_marked(&self, place: PlaceId, number: usize) -> bool
        requires row { place.0 < length self.now }
        requires event { number < length (row_at self.now place.0) }
        ensures { result ≡ marked self.now place.0 number }
    {
        self.rows[place.0 as usize].is_marked(number)
    }
}

impl Row {
    // Marks an event.
    fn mark(&mut self, number: usize)
        requires { number < length self.old }
        ensures { self.new ≡ slice_set self.old number true }
    {
        self.marks[number] = true;
    }

    // Whether an event is marked.
    fn is_marked(&self, number: usize) -> bool
        requires { number < length self.now }
        ensures { result ≡ slice_index_or self.now number false }
    {
        self.marks[number]
    }
}

// A row without marks.
fn open_row(alloc: Global, count: usize) -> Result<Row, NoMemory>
    ensures { IfOk result (λ row. row ≡ replicate count false) }
{
    Ok(Row {
        marks: vec![in alloc; false; count]?,
    })
}
