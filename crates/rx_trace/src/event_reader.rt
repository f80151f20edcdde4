// The words of an event.
ghost use Rattle.std.specs.Prelude.{◌≡◌, ◌≤◌, codes, IfOk};
ghost use Rattle.rx_fields.specs.Words.{answer_left};
ghost use Rattle.rx_trace.specs.Inside.EventWords.{made_at, make_at, got_at, indexed_at, get_at, written_at, put_at, forgotten_at};
ghost use Rattle.rx_trace.specs.Inside.EventWords.{forget_at, cell_at, done_at, close_at, event_at};

use rx_base::{GlobalRef, NoMemory, TaskId};
use rx_fields::{
    Words, block_field, is_same, keyword, natural_field, next_task, number_field, path_field,
};
use rx_history::{Cell, PlaceEvent};
use std::alloc::Global;

// The words after the number.
pub(crate) fn event(
    alloc: Global,
    words: &mut Words<'_>,
    home: u8,
) -> Result<Option<PlaceEvent>, NoMemory>
    ensures { IfOk result (λ event. answer_left event words.new ≡ event_at home words.old) }
{
    match next_task(words) {
        Some(task) => done(alloc, words, home, task),
        None => Ok(close(words)),
    }
}

// A store call of this task.
fn done(
    alloc: Global,
    words: &mut Words<'_>,
    home: u8,
    task: TaskId,
) -> Result<Option<PlaceEvent>, NoMemory>
    ensures { IfOk result (λ event. answer_left event words.new ≡ done_at home task words.old) }
{
    let Some(stamp) = natural_field(words) else {
        return Ok(None);
    };
    let Some(cell) = cell(words, home) else {
        return Ok(None);
    };
    let Some(path) = path_field(alloc, words)? else {
        return Ok(None);
    };
    Ok(Some(PlaceEvent::Done {
        task,
        stamp,
        cell,
        path,
    }))
}

fn close(words: &mut Words<'_>) -> Option<PlaceEvent>
    ensures { answer_left result words.new ≡ close_at words.old }
{
    let stamp = natural_field(words)?;
    if keyword(words, b"close") {
        Some(PlaceEvent::Close { stamp })
    } else {
        None
    }
}

// A store call and its answer.
fn cell(words: &mut Words<'_>, home: u8) -> Option<Cell>
    ensures { answer_left result words.new ≡ cell_at home words.old }
{
    let word = words.next()?;
    if is_same(word, b"make") {
        make(words)
    } else if is_same(word, b"get") {
        get(words, home)
    } else if is_same(word, b"put") {
        put(words, home)
    } else if is_same(word, b"forget") {
        forget(words, home)
    } else {
        None
    }
}

fn make(words: &mut Words<'_>) -> Option<Cell>
    ensures { answer_left result words.new ≡ make_at words.old }
{
    let count = natural_field(words)?;
    made(words, count)
}

// Whether a block was made, and where.
fn made(words: &mut Words<'_>, count: u32) -> Option<Cell>
    ensures { answer_left result words.new ≡ made_at count words.old }
{
    if keyword(words, b"at") {
        let start = natural_field(words)?;
        let generation = natural_field(words)?;
        return Some(Cell::Make {
            words: count,
            start,
            generation,
        });
    }
    if keyword(words, b"full") {
        Some(Cell::MakeFull { words: count })
    } else {
        None
    }
}

fn get(words: &mut Words<'_>, home: u8) -> Option<Cell>
    ensures { answer_left result words.new ≡ get_at home words.old }
{
    let target = block_field(words, home)?;
    indexed(words, target)
}

// The index of a word that was to be read, and the answer.
fn indexed(words: &mut Words<'_>, target: GlobalRef) -> Option<Cell>
    ensures { answer_left result words.new ≡ indexed_at target words.old }
{
    let index = number_field(words)?;
    got(words, target, index)
}

// The word that was read, or why none was.
fn got(words: &mut Words<'_>, target: GlobalRef, index: i64) -> Option<Cell>
    ensures { answer_left result words.new ≡ got_at target index words.old }
{
    if keyword(words, b"is") {
        let value = number_field(words)?;
        return Some(Cell::Get {
            target,
            index,
            value,
        });
    }
    if keyword(words, b"stale") {
        return Some(Cell::GetRefused {
            target,
            index,
            stale: true,
        });
    }
    if keyword(words, b"index") {
        Some(Cell::GetRefused {
            target,
            index,
            stale: false,
        })
    } else {
        None
    }
}

fn put(words: &mut Words<'_>, home: u8) -> Option<Cell>
    ensures { answer_left result words.new ≡ put_at home words.old }
{
    let target = block_field(words, home)?;
    let index = number_field(words)?;
    let value = number_field(words)?;
    written(words, target, index, value)
}

// That a word was written, or why none was.
fn written(words: &mut Words<'_>, target: GlobalRef, index: i64, value: i64) -> Option<Cell>
    ensures { answer_left result words.new ≡ written_at target index value words.old }
{
    if keyword(words, b"ok") {
        return Some(Cell::Put {
            target,
            index,
            value,
        });
    }
    if keyword(words, b"stale") {
        return Some(Cell::PutRefused {
            target,
            index,
            value,
            stale: true,
        });
    }
    if keyword(words, b"index") {
        Some(Cell::PutRefused {
            target,
            index,
            value,
            stale: false,
        })
    } else {
        None
    }
}

fn forget(words: &mut Words<'_>, home: u8) -> Option<Cell>
    ensures { answer_left result words.new ≡ forget_at home words.old }
{
    let target = block_field(words, home)?;
    forgotten(words, target)
}

// That a block was forgotten, or was before.
fn forgotten(words: &mut Words<'_>, target: GlobalRef) -> Option<Cell>
    ensures { answer_left result words.new ≡ forgotten_at target words.old }
{
    if keyword(words, b"ok") {
        return Some(Cell::Forget { target });
    }
    if keyword(words, b"stale") {
        Some(Cell::ForgetStale { target })
    } else {
        None
    }
}
