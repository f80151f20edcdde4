// The board: its writer, its reader, and receipts that go from the one to the other.
ghost use Rattle.std.specs.Prelude.{◌≡◌, ℕ, ◌+◌, ◌<◌, [], ◌∷◌, ◌++◌, length, drop, MatchResult, IfOk, OnErr};
ghost use mathlib.Core.List.{IsPrefix};
ghost use Rattle.std.specs.Arc.{arc_value};
ghost use Rattle.left_right.specs.Sides.{view};
ghost use Rattle.rx_monitor.specs.Boards.{longer, EndsWith, MayFollow, StandInOrder, IsWatched};
ghost use Rattle.rx_monitor.specs.Inside.Pages.{board_of, list_of, IsNote};
ghost use Rattle.rx_monitor.specs.Inside.Ties.{label_of, IsOf};
ghost use Rattle.rx_monitor.specs.Inside.Holding.{IsLook};

use crate::page::{Names, Page, PageReader, PageWriter, Posted, Sees, Tells};
use crate::shown_list::{ListSeat, ShownList};
use crate::summary::Summary;
use left_right::writer::Writer;
use rx_base::NoMemory;
use std::alloc::Global;
use std::marker::Model;
use std::mem;
use std::sync::{Arc, Wait};

/// Opens boards.
pub struct Board;

/// The writer of a board, which ends by `close` alone. Contracts see which board it is and the list that was shown there.
pub struct BoardWriter {
    shown_list: Arc<ShownList>,
    mark: ListSeat,
    writer: Option<PageWriter>,
    last: Summary,
    count: u64,
}

impl Model for BoardWriter {
    ghost use Rattle.std.specs.Prelude.{◌≡◌, true, [], length, Some};
    ghost use Rattle.std.specs.Arc.{arc_value};
    ghost use Rattle.rx_monitor.specs.Boards.{Listing, EndsWith};
    ghost use Rattle.rx_monitor.specs.Inside.Pages.{board_of};
    ghost use Rattle.rx_monitor.specs.Inside.Ties.{label_of};
    ghost use Rattle.rx_monitor.specs.Inside.Holding.{Writes};

    ghost Value = { Listing };

    ghost view = { λ w. record { board = (arc_value w.shown_list).table.shared.table_id; list = w.mark.me.0.seen } };

    ghost invariant = { λ w. Writes (λ x. x.desk.shown.value) (arc_value w.shown_list).table.shared.table_id w.mark w.writer
        × EndsWith w.mark.me.0.seen w.last × (w.count ≡ length w.mark.me.0.seen) };
}

/// The reader of a board. Contracts see which board it is and the list that the reader has seen: that was shown, up to some summary.
#[derive(Drop)]
pub struct BoardReader {
    shown_list: Arc<ShownList>,
    seat: ListSeat,
    reader: Option<PageReader>,
    last: Summary,
    count: u64,
}

impl Model for BoardReader {
    ghost use Rattle.std.specs.Prelude.{◌≡◌, length};
    ghost use Rattle.std.specs.Arc.{arc_value};
    ghost use Rattle.rx_monitor.specs.Boards.{Listing, EndsWith};
    ghost use Rattle.left_right.specs.Sides.{view as tie_of};
    ghost use Rattle.rx_monitor.specs.Inside.Holding.{Reads};

    ghost Value = { Listing };

    ghost view = { λ r. record { board = (arc_value r.shown_list).table.shared.table_id; list = r.seat.me.0.seen } };

    ghost invariant = { λ r. Reads (λ x. tie_of x.place) (arc_value r.shown_list).table.shared.table_id r.seat r.reader
        × EndsWith r.seat.me.0.seen r.last × (r.count ≡ length r.seat.me.0.seen) };
}

/// That the list shown had got so far, for a reader of the same board. Contracts see the board and that list.
#[derive(Drop)]
pub struct Receipt {
    note: ListSeat,
    last: Summary,
    count: u64,
}

impl Model for Receipt {
    ghost use Rattle.std.specs.Prelude.{◌≡◌, false, [], length};
    ghost use Rattle.rx_monitor.specs.Boards.{Listing, EndsWith};

    ghost Value = { Listing };

    ghost view = { λ r. record { board = r.note.table_id; list = r.note.me.0.seen } };

    ghost invariant = { λ r. (r.note.me ≡ (record { marked = false; seen = r.note.me.0.seen; also = [] }, []))
        × EndsWith r.note.me.0.seen r.last × (r.count ≡ length r.note.me.0.seen) };
}

// Puts what was posted up for the readers, where there is memory.
fn publish<R: Wait>(
    rt: &R,
    writer: PageWriter,
    entry: Arc<Posted>,
) -> (PageWriter, Result<(), NoMemory>)
    requires { board_of (arc_value entry).one_shot.table.shared.key ≡ board_of (label_of writer.desk.shown.value) }
    ensures { board_of (label_of result.0.desk.shown.value) ≡ board_of (label_of writer.desk.shown.value) }
{
    let mut writer = writer;
    let Ok(()) = writer.append(entry) else {
        return (writer, Err(NoMemory));
    };
    let (writer, done) = writer.publish_as::<Names, R>(rt);
    match done {
        Ok(()) => (writer, Ok(())),
        Err(_) => (writer, Err(NoMemory)),
    }
}

// Takes the note of what is up now, where nobody has taken it, with the last summary of its list and the length of the list.
fn look(reader: PageReader) -> (PageReader, Option<(ListSeat, Summary, u64)>)
    ensures own { view result.0.place ≡ view reader.place }
    ensures note { IsLook (view reader.place) result.1 }
{
    match reader.enter_as::<Sees>() {
        Err(reader) => (reader, None),
        Ok(reading) => {
            let page = reading.get();
            let entry = &*page.entry;
            let taken = match entry.one_shot.take() {
                Some(note) => Some((note, entry.last, entry.count)),
                None => None,
            };
            (reading.leave(), taken)
        }
    }
}

// A writer with this entry up and a reader of it, who both know whose board it is.
fn pair<R: Wait>(
    rt: &R,
    alloc: Global,
    entry: &Arc<Posted>,
) -> Result<(PageWriter, PageReader), NoMemory>
    ensures writer { IfOk result (λ t. board_of (label_of t.0.desk.shown.value)
        ≡ board_of (arc_value entry.now).one_shot.table.shared.key) }
    ensures reader { IfOk result (λ t. IsOf (board_of (arc_value entry.now).one_shot.table.shared.key) (view t.1.place)) }
{
    let first = Page {
        entry: Arc::try_clone(entry)?,
    };
    let second = Page {
        entry: Arc::try_clone(entry)?,
    };
    let writer: PageWriter = Writer::new(alloc, first, second, 1)?;
    let (mut writer, done) = writer.publish_as::<Names, R>(rt);
    let Ok(()) = done else {
        drop(writer.take(rt));
        return Err(NoMemory);
    };
    let made = writer.factory().reader();
    let Ok(mut reader) = made else {
        drop(writer.take(rt));
        return Err(NoMemory);
    };
    let note = writer.tell::<Tells>();
    reader.learn::<Tells>(note);
    Ok((writer, reader))
}

impl Board {
    /// A board on which one summary is shown, with its writer and its reader. `Err` means out of memory.
    pub fn open<R: Wait>(
        rt: &R,
        alloc: Global,
        first: Summary,
    ) -> Result<(BoardWriter, BoardReader), NoMemory>
        ensures board { IfOk result (λ t. t.1.board ≡ t.0.board) }
        ensures list { IfOk result (λ t. (t.0.list ≡ first ∷ []) × (t.1.list ≡ first ∷ [])) }
    {
        let (shown_list, mut mark) = ShownList::open(alloc)?;
        let shown_list = Arc::new(alloc, shown_list)?;
        let other = Arc::try_clone(&shown_list)?;
        let (entry, filler) = Posted::after(alloc, &mark, first, 1)?;
        let (writer, reader) = pair(rt, alloc, &entry)?;
        shown_list.append(&mut mark, &first);
        entry.one_shot.fill(filler, shown_list.note(&mut mark));
        let seat = shown_list.note(&mut mark);
        let board_writer = BoardWriter {
            shown_list,
            mark,
            writer: Some(writer),
            last: first,
            count: 1,
        };
        let board_reader = BoardReader {
            shown_list: other,
            seat,
            reader: Some(reader),
            last: first,
            count: 1,
        };
        Ok((board_writer, board_reader))
    }
}

impl BoardWriter {
    /// Shows a summary: it comes to the end of the list. It is of no shorter history than the one before, and no place that was dead
    /// there is alive. It takes memory for the summary, which is given back once a later one is up. `Err` means out of memory and
    /// changes nothing; so is the answer where 2^64 - 1 summaries were shown.
    pub fn show<R: Wait>(&mut self, rt: &R, alloc: Global, s: Summary) -> Result<(), NoMemory>
        requires { (x : Summary) → EndsWith self.old.list x → MayFollow x s }
        ensures board { self.new.board ≡ self.old.board }
        ensures list { MatchResult result (λ _. self.new.list ≡ self.old.list ++ s ∷ []) (λ _. self.new.list ≡ self.old.list) }
    {
        if self.count == u64::MAX {
            return Err(NoMemory);
        }
        let (entry, filler) = Posted::after(alloc, &self.mark, s, self.count + 1)?;
        let op = Arc::try_clone(&entry)?;
        let Some(writer) = self.writer.take() else {
            unreachable!()
        };
        let (writer, done) = publish(rt, writer, op);
        let gone = mem::replace(&mut self.writer, Some(writer));
        let None = gone else { unreachable!() };
        if done.is_err() {
            return Err(NoMemory);
        }
        self.shown_list.append(&mut self.mark, &s);
        entry
            .one_shot
            .fill(filler, self.shown_list.note(&mut self.mark));
        self.count += 1;
        self.last = s;
        Ok(())
    }

    /// A receipt of the list that was shown so far. It takes no memory.
    pub fn tell(&mut self) -> Receipt
        ensures same { self.new ≡ self.old }
        ensures receipt { result ≡ self.old }
    {
        Receipt {
            note: self.shown_list.note(&mut self.mark),
            last: self.last,
            count: self.count,
        }
    }

    /// Takes in what a reader of this board has seen, and so tells that the list shown begins with it. It takes no memory.
    pub fn hear(&mut self, reader: &mut BoardReader)
        requires { reader.old.board ≡ self.old.board }
        ensures same { (self.new ≡ self.old) × (reader.new ≡ reader.old) }
        ensures begins { IsPrefix reader.old.list self.old.list }
    {
        let note = self.shown_list.note(&mut reader.seat);
        self.shown_list.meet(&mut self.mark, note);
    }

    /// Ends the writer. It waits for a reader who is looking.
    pub fn close<R: Wait>(self, rt: &R) {
        let Self {
            shown_list: _,
            mark: _,
            writer,
            last: _,
            count: _,
        } = self;
        let Some(writer) = writer else { unreachable!() };
        drop(writer.take(rt));
    }
}

/// The end of a watch, after the writer has shown its last summary: one snapshot more. The items then stand in the list that was
/// shown, in order, and the last of them is its last. `Err` means out of memory.
pub fn finish(
    writer: &mut BoardWriter,
    reader: &mut BoardReader,
    items: Vec<Summary>,
) -> Result<Vec<Summary>, NoMemory>
    requires board { reader.old.board ≡ writer.old.board }
    requires items { StandInOrder reader.old.list 0 items.items }
    ensures same { writer.new ≡ writer.old }
    ensures watched { IfOk result (λ v. (length v.items ≡ length items.items + 1) × IsWatched writer.old.list v.items) }
{
    let mut items = items;
    reader.learn(writer.tell());
    let last = reader.snap();
    writer.hear(reader);
    items.push(last)?;
    Ok(items)
}

impl BoardReader {
    // Takes in a note of this board, with the last summary of its list and the length of the list.
    fn take_in(&mut self, note: ListSeat, last: Summary, count: u64)
        requires own { (note.table_id ≡ self.old.board) × (note.me.1 ≡ []) }
        requires last { EndsWith note.me.0.seen last × (count ≡ length note.me.0.seen) }
        ensures board { self.new.board ≡ self.old.board }
        ensures list { self.new.list ≡ longer self.old.list note.me.0.seen }
        ensures begins { IsPrefix self.old.list self.new.list × IsPrefix note.me.0.seen self.new.list }
    {
        self.shown_list.meet(&mut self.seat, note);
        if count > self.count {
            self.count = count;
            self.last = last;
        }
    }

    /// After this the reader has seen the longer of its list and that of the receipt. It takes no memory.
    pub fn learn(&mut self, r: Receipt)
        requires { r.board ≡ self.old.board }
        ensures board { self.new.board ≡ self.old.board }
        ensures list { self.new.list ≡ longer self.old.list r.list }
        ensures begins { IsPrefix self.old.list self.new.list × IsPrefix r.list self.new.list }
    {
        let Receipt { note, last, count } = r;
        self.take_in(note, last, count);
    }

    /// Makes n snapshots, which stand in the list that the reader has then seen, in order. `Err` means out of memory for the list of them.
    pub fn watch(&mut self, alloc: Global, n: u32) -> Result<Vec<Summary>, NoMemory>
        ensures board { self.new.board ≡ self.old.board }
        ensures begins { IsPrefix self.old.list self.new.list }
        ensures items { IfOk result (λ v. (length v.items ≡ n) × StandInOrder self.new.list 0 v.items) }
    {
        let mut items = Vec::new(alloc);
        for _ in 0..n {
            self.snap_behind(&mut items)?;
        }
        Ok(items)
    }

    /// One snapshot more, behind others. They stand in the list that the reader has then seen, in order. `Err` means out of memory for
    /// the list of them.
    pub fn snap_behind(&mut self, items: &mut Vec<Summary>) -> Result<(), NoMemory>
        requires { StandInOrder self.old.list 0 items.old.items }
        ensures board { self.new.board ≡ self.old.board }
        ensures begins { IsPrefix self.old.list self.new.list }
        ensures items { IfOk result (λ _. (length items.new.items ≡ length items.old.items + 1)
            × StandInOrder self.new.list 0 items.new.items) }
    {
        items.push(self.snap())?;
        Ok(())
    }

    /// A snapshot: the last summary of a list that begins with all that the reader had seen, and that it has seen from now on. It takes no
    /// lock and no memory, and where the reader may not look, or finds nothing new, it is the last summary that the reader has.
    pub fn snap(&mut self) -> Summary
        ensures board { self.new.board ≡ self.old.board }
        ensures begins { IsPrefix self.old.list self.new.list }
        ensures last { EndsWith self.new.list result }
    {
        let Some(reader) = self.reader.take() else {
            unreachable!()
        };
        let (reader, found) = look(reader);
        self.reader = Some(reader);
        if let Some((note, last, count)) = found {
            self.take_in(note, last, count);
        }
        self.last
    }
}
