// What entries take of a request.
ghost use Rattle.std.specs.Prelude.{◌≡◌, IfOk};
ghost use Rattle.rx_lines.specs.Inside.Noting.{asker as asks, noted, note_of};

use rx_base::{Faults, NoMemory, PlaceId, ScopeId, TaskId};
use rx_coordinator::{Request, Seat};
use rx_rules::Where;
use std::alloc::Global;

/// What the entries of a request take of it, and of the row of the task that asks as it is before. Where no task asks, or it has no row, or
/// the request names no place or no fault, the fields say nothing.
#[derive(Drop)]
pub struct Note {
    /// The task that asks.
    pub task: TaskId,
    /// The scope in which it works.
    pub inner: ScopeId,
    /// Where it is.
    pub place: Where,
    /// The place that the request names.
    pub to: PlaceId,
    /// The faults that it tells.
    pub thrown: Faults,
}

impl Note {
    /// What a request and a row tell.
    pub fn of(alloc: Global, row: Option<Seat>, request: &Request) -> Result<Note, NoMemory>
        ensures { IfOk result (λ n. n ≡ note_of row request.now) }
    {
        let main = TaskId(0);
        let zero = PlaceId(0);
        match request {
            Request::Open { task } => Ok(Note::with(row, *task, zero, Faults::open(alloc))),
            Request::At { task, to } => Ok(Note::with(row, *task, *to, Faults::open(alloc))),
            Request::Spawn { task, to } => Ok(Note::with(row, *task, *to, Faults::open(alloc))),
            Request::Send { task, to } => Ok(Note::with(row, *task, *to, Faults::open(alloc))),
            Request::Arrive { task } => Ok(Note::with(row, *task, zero, Faults::open(alloc))),
            Request::Wait { task, thrown } => {
                let thrown = thrown.copy(alloc)?;
                Ok(Note::with(row, *task, zero, thrown))
            }
            Request::Release { task } => Ok(Note::with(row, *task, zero, Faults::open(alloc))),
            Request::End { task, thrown } => {
                let thrown = thrown.copy(alloc)?;
                Ok(Note::with(row, *task, zero, thrown))
            }
            Request::Death { place } => Ok(Note::with(row, main, *place, Faults::open(alloc))),
            Request::Join => Ok(Note::with(row, main, zero, Faults::open(alloc))),
            Request::Root => Ok(Note::with(row, main, zero, Faults::open(alloc))),
        }
    }

    /// Nothing of a request.
    pub fn none(alloc: Global) -> Note {
        Note::with(None, TaskId(0), PlaceId(0), Faults::open(alloc))
    }

    // What a row tells, with this task, place and faults.
    fn with(row: Option<Seat>, task: TaskId, to: PlaceId, thrown: Faults) -> Note
        ensures { result ≡ noted row task to thrown }
    {
        match row {
            Some(seat) => Note {
                task,
                inner: seat.who.inner,
                place: seat.who.place,
                to,
                thrown,
            },
            None => Note {
                task,
                inner: ScopeId(0),
                place: Where::At(PlaceId(0)),
                to,
                thrown,
            },
        }
    }
}

/// The task that asks. Where none does, it is the main one.
pub fn asker(request: &Request) -> TaskId
    ensures { result ≡ asks request.now }
{
    match request {
        Request::Open { task } => *task,
        Request::At { task, .. } => *task,
        Request::Spawn { task, .. } => *task,
        Request::Send { task, .. } => *task,
        Request::Arrive { task } => *task,
        Request::Wait { task, .. } => *task,
        Request::Release { task } => *task,
        Request::End { task, .. } => *task,
        Request::Death { .. } => TaskId(0),
        Request::Join => TaskId(0),
        Request::Root => TaskId(0),
    }
}
