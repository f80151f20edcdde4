// Entries as lines of the log, which are those of a trace.
ghost use Rattle.std.specs.Prelude.{◌<◌, ◌^◌, ◌∷◌, []};
ghost use Rattle.std.specs.List.{flat_map};
ghost use Rattle.rx_coordinator.specs.declared.requests.Answer.TheVariants.{Sent};
ghost use Rattle.rx_trace.specs.Fields.{fault_field};
ghost use Rattle.rx_trace.specs.Parts.{thrown_part};
ghost use Rattle.rx_lines.specs.Stated.{log_lines};
ghost use Rattle.rx_lines.specs.Inside.Telling.{Puts};
ghost use Rattle.rx_lines.specs.Inside.Noting.{entries_of, freed_entry};
ghost use Rattle.rx_lines.specs.Inside.LogLines.{head_text, scope_text, way_text, release_text};
ghost use Rattle.rx_lines.specs.Inside.LogLines.{open_line, call_line, spawn_line, arrive_line, wait_line};
ghost use Rattle.rx_lines.specs.Inside.LogLines.{release_line, end_line, root_line, place_line};

use crate::note::Note;
use crate::output::Pending;
use crate::replies::{put_losses, put_masked, put_numbered, put_place_number};
use rx_base::{Fault, Faults, PlaceId, ScopeId, Sink, TaskId};
use rx_coordinator::{Answer, Waiter};
use rx_finish::{Born, Outcome, landing_of, place_of};

/// Tells the lines of the entries for which an answer stands. The first of them has this number.
pub fn put_entries<L: Sink>(
    pending: &mut Pending,
    log: &mut L,
    n: u64,
    note: &Note,
    answer: &Answer,
)
    requires { n < 2 ^ 32 }
    ensures { Puts L.written L.faults log.old pending.old log.new pending.new (log_lines n (entries_of note.now answer.now)) }
{
    let from = place_of(note.place);
    match answer {
        Answer::Bad => {}
        Answer::Full => {}
        Answer::NoMemory => {}
        Answer::NotYet { .. } => {}
        Answer::Opened { scope } => {
            put_opened(pending, log, n, note.task, *scope, note.inner);
        }
        Answer::Called { born } => {
            put_called(pending, log, n, note.task, note.inner, *born, from, note.to);
        }
        Answer::Spawned { born } => {
            put_spawned(pending, log, n, note.task, *born, from, note.to);
        }
        Answer::Sent { born } => put_sent(pending, log, n, note, *born),
        Answer::Landed => put_arrived(pending, log, n, note.task, landing_of(note.place)),
        Answer::Waits => put_waits(pending, log, n, note.task, note.inner, &note.thrown),
        Answer::Released { outcome } => {
            put_release(pending, log, n, note.task, note.inner, outcome);
        }
        Answer::Ended => put_ended(pending, log, n, note.task, &note.thrown),
        Answer::Died => put_place(pending, log, n, b" death", note.to),
        Answer::Joined { place } => put_place(pending, log, n, b" join", *place),
        Answer::RootDone { outcome } => put_root(pending, log, n, outcome),
    }
}

/// Tells the line of a release that has waited. Its entry has this number.
pub fn put_freed_entry<L: Sink>(
    pending: &mut Pending,
    log: &mut L,
    n: u64,
    scope: ScopeId,
    waiter: Waiter,
    outcome: &Outcome,
)
    ensures { Puts L.written L.faults log.old pending.old log.new pending.new (log_lines n (freed_entry scope waiter outcome.now ∷ [])) }
{
    match waiter {
        Waiter::Task(task) => put_release(pending, log, n, task, scope, outcome),
        Waiter::Root => put_root(pending, log, n, outcome),
    }
}

// A task is started, and lands where it travels.
fn put_sent<L: Sink>(pending: &mut Pending, log: &mut L, n: u64, note: &Note, born: Born)
    requires { n < 2 ^ 32 }
    ensures { Puts L.written L.faults log.old pending.old log.new pending.new (log_lines n (entries_of note.now (Sent born))) }
{
    let from = place_of(note.place);
    put_spawned(pending, log, n, note.task, born, from, note.to);
    if born.lost {
        return;
    }
    if from == note.to {
        return;
    }
    put_arrived(pending, log, n + 1, born.child, note.to)
}

// A finish is opened.
fn put_opened<L: Sink>(
    pending: &mut Pending,
    log: &mut L,
    n: u64,
    task: TaskId,
    scope: ScopeId,
    parent: ScopeId,
)
    ensures { Puts L.written L.faults log.old pending.old log.new pending.new (open_line n task scope parent) }
{
    put_head(pending, log, n, b" open", task);
    put_scope(pending, log, scope, parent);
    pending.put(log, b" 0\n");
}

// A task calls another one.
fn put_called<L: Sink>(
    pending: &mut Pending,
    log: &mut L,
    n: u64,
    task: TaskId,
    parent: ScopeId,
    born: Born,
    from: PlaceId,
    to: PlaceId,
)
    ensures { Puts L.written L.faults log.old pending.old log.new pending.new (call_line n task born.scope parent born.child from to) }
{
    put_head(pending, log, n, b" at", task);
    put_scope(pending, log, born.scope, parent);
    put_numbered(pending, log, b" t", born.child.0);
    put_way(pending, log, from, to)
}

// A task starts another one.
fn put_spawned<L: Sink>(
    pending: &mut Pending,
    log: &mut L,
    n: u64,
    task: TaskId,
    born: Born,
    from: PlaceId,
    to: PlaceId,
)
    ensures { Puts L.written L.faults log.old pending.old log.new pending.new (spawn_line n task born.child born.scope from to) }
{
    put_head(pending, log, n, b" spawn", task);
    put_numbered(pending, log, b" t", born.child.0);
    put_numbered(pending, log, b" in s", born.scope.0);
    put_way(pending, log, from, to)
}

// A task arrives.
fn put_arrived<L: Sink>(pending: &mut Pending, log: &mut L, n: u64, task: TaskId, place: PlaceId)
    ensures { Puts L.written L.faults log.old pending.old log.new pending.new (arrive_line n task place) }
{
    put_head(pending, log, n, b" arrive", task);
    put_place_number(pending, log, b" ", place);
    pending.put(log, b"\n");
}

// The body of a finish has ended.
fn put_waits<L: Sink>(
    pending: &mut Pending,
    log: &mut L,
    n: u64,
    task: TaskId,
    scope: ScopeId,
    thrown: &Faults,
)
    ensures { Puts L.written L.faults log.old pending.old log.new pending.new (wait_line n task scope thrown.now) }
{
    put_head(pending, log, n, b" wait", task);
    put_numbered(pending, log, b" s", scope.0);
    put_thrown(pending, log, thrown);
    pending.put(log, b"\n");
}

// A task releases a scope.
fn put_release<L: Sink>(
    pending: &mut Pending,
    log: &mut L,
    n: u64,
    task: TaskId,
    scope: ScopeId,
    outcome: &Outcome,
)
    ensures { Puts L.written L.faults log.old pending.old log.new pending.new (release_line n task scope outcome.now) }
{
    put_head(pending, log, n, b" release", task);
    put_numbered(pending, log, b" s", scope.0);
    put_named(pending, log, outcome)
}

// The host releases the root.
fn put_root<L: Sink>(pending: &mut Pending, log: &mut L, n: u64, outcome: &Outcome)
    ensures { Puts L.written L.faults log.old pending.old log.new pending.new (root_line n outcome.now) }
{
    pending.put_long(log, n);
    pending.put(log, b" release host s0");
    put_named(pending, log, outcome)
}

// A task ends.
fn put_ended<L: Sink>(pending: &mut Pending, log: &mut L, n: u64, task: TaskId, thrown: &Faults)
    ensures { Puts L.written L.faults log.old pending.old log.new pending.new (end_line n task thrown.now) }
{
    put_head(pending, log, n, b" end", task);
    put_thrown(pending, log, thrown);
    pending.put(log, b"\n");
}

// A place dies or joins.
fn put_place<L: Sink>(pending: &mut Pending, log: &mut L, n: u64, word: &[u8], place: PlaceId)
    ensures { Puts L.written L.faults log.old pending.old log.new pending.new (place_line n word.now place) }
{
    pending.put_long(log, n);
    pending.put(log, word);
    put_place_number(pending, log, b" ", place);
    pending.put(log, b"\n");
}

// The number of an entry, the word of its act, and its task.
fn put_head<L: Sink>(pending: &mut Pending, log: &mut L, n: u64, word: &[u8], task: TaskId)
    ensures { Puts L.written L.faults log.old pending.old log.new pending.new (head_text n word.now task) }
{
    pending.put_long(log, n);
    pending.put(log, word);
    put_numbered(pending, log, b" t", task.0)
}

// A scope in its parent.
fn put_scope<L: Sink>(pending: &mut Pending, log: &mut L, scope: ScopeId, parent: ScopeId)
    ensures { Puts L.written L.faults log.old pending.old log.new pending.new (scope_text scope parent) }
{
    put_numbered(pending, log, b" s", scope.0);
    put_numbered(pending, log, b" in s", parent.0)
}

// Where a new task begins its way and where that ends, and the end of the line.
fn put_way<L: Sink>(pending: &mut Pending, log: &mut L, from: PlaceId, to: PlaceId)
    ensures { Puts L.written L.faults log.old pending.old log.new pending.new (way_text from to) }
{
    put_place_number(pending, log, b" ", from);
    put_place_number(pending, log, b" ", to);
    pending.put(log, b" 0\n");
}

// What a release names, and the end of the line.
fn put_named<L: Sink>(pending: &mut Pending, log: &mut L, outcome: &Outcome)
    ensures { Puts L.written L.faults log.old pending.old log.new pending.new (release_text outcome.now) }
{
    put_losses(pending, log, outcome.lost);
    put_masked(pending, log, outcome.masked);
    put_thrown(pending, log, &outcome.thrown);
    pending.put(log, b"\n");
}

// The faults with which a body or a task ended, or which a release carries.
#[tactic(auto, using(crate::proofs::Telling::puts_then))]
fn put_thrown<L: Sink>(pending: &mut Pending, log: &mut L, thrown: &Faults)
    ensures { Puts L.written L.faults log.old pending.old log.new pending.new (thrown_part thrown.now) }
{
    if thrown.len() == 0 {
        return;
    }
    pending.put(log, b" thrown");
    put_faults(pending, log, thrown)
}

// Faults in their order.
fn put_faults<L: Sink>(pending: &mut Pending, log: &mut L, faults: &Faults)
    ensures { Puts L.written L.faults log.old pending.old log.new pending.new (flat_map fault_field faults.now) }
{
    for i in 0..faults.len() {
        put_fault(pending, log, faults.item(i));
    }
}

// A fault.
#[tactic(auto, using(crate::proofs::Telling::puts_then))]
fn put_fault<L: Sink>(pending: &mut Pending, log: &mut L, fault: Fault)
    ensures { Puts L.written L.faults log.old pending.old log.new pending.new (fault_field fault) }
{
    match fault {
        Fault::Dead(place) => put_place_number(pending, log, b" dead:", place),
        Fault::Thrown(value) => {
            pending.put(log, b" code:");
            pending.put_number(log, value);
        }
        Fault::Overflow => pending.put(log, b" overflow"),
        Fault::NoPlace => pending.put(log, b" noplace"),
        Fault::WrongPlace => pending.put(log, b" wrongplace"),
        Fault::Stale => pending.put(log, b" stale"),
        Fault::Index => pending.put(log, b" index"),
        Fault::HeapFull => pending.put(log, b" heapfull"),
    }
}
