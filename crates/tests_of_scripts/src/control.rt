// What no contract says: that the steps of the rules are those of the worked scripts, that each call succeeds, and that a control
// may be moved between threads.
ghost use Rattle.std.specs.Prelude.{◌≡◌, IfOk, OnOk};
ghost use Rattle.rx_rules.specs.Terms.{Term, does};
ghost use Rattle.rx_history.specs.Next.{next_of};
ghost use Rattle.rx_control.specs.Stands.{StandsFor};

use crate::same::same;
use rx_base::Fault::{HeapFull, NoPlace, Overflow, Stale, Thrown};
use rx_base::{Fault, Faults, GlobalRef, NoMemory, Path, PlaceId, Value};
use rx_check::{Program, check};
use rx_control::Next::{Book, Cell, Local};
use rx_control::Want::{Print, Release, Spawn, Wait};
use rx_control::{CellOp, Control, Next, Want};
use rx_script::read_script;
use std::alloc::{AllocGlobal, Global};
use std::process::Abort;
use std::test::Fail;

const HERE: PlaceId = PlaceId(0);

const THERE: PlaceId = PlaceId(1);

const PLACES: u8 = 2;

/// The answer to a step. At a wait the list is the one that the control hands out, at a release the one that is raised.
#[derive(Clone, Copy)]
enum Answer<'a> {
    Nothing,
    Gives(Value),
    Refuses(Fault),
    List(&'a [Fault]),
    Places(u8),
}

use Answer::{Gives, List, Nothing, Places, Refuses};

/// A step: what is next, the path of the statement that it begins (empty where it begins none), and the answer.
type Step<'a> = (Next, &'a [u32], Answer<'a>);

fn program(alloc: Global, bytes: &[u8]) -> Option<Program> {
    if bytes.len() > 65_536 {
        return None;
    }
    let Ok(script) = read_script(alloc, bytes) else {
        return None;
    };
    check(alloc, script).ok()
}

fn numbers(alloc: Global, path: Option<Path>) -> Result<Vec<u32>, NoMemory> {
    let mut list = Vec::new(alloc);
    if let Some(path) = path {
        for i in 0..path.len() {
            list.push(path.item(i))?;
        }
    }
    Ok(list)
}

fn listed(alloc: Global, faults: &Faults) -> Result<Vec<Fault>, NoMemory> {
    let mut list = Vec::new(alloc);
    for i in 0..faults.len() {
        list.push(faults.item(i))?;
    }
    Ok(list)
}

fn raised(alloc: Global, answer: Answer<'_>) -> Result<Faults, NoMemory> {
    let mut faults = Faults::open(alloc);
    if let List(list) = answer {
        for fault in list {
            faults.push(*fault)?;
        }
    }
    Ok(faults)
}

fn main_of(alloc: Global, p: &Program) -> Result<Control, NoMemory>
    ensures { IfOk result (λ c. (t : Term) × StandsFor p.now.script c t) }
{
    rx_check::checked(p);
    Control::main(alloc, p, PLACES)
}

/// The control of the task that the next step starts.
fn child_of(
    rt: &(impl Abort + AllocGlobal),
    p: &Program,
    task: &Control,
) -> Result<Control, NoMemory>
    requires { (t : Term) × StandsFor p.now.script task.now t }
    ensures { IfOk result (λ c. (t : Term) × StandsFor p.now.script c t) }
{
    let Some(_) = task.path(rt.alloc(), p)? else {
        panic!(rt; "no task is started")
    };
    let child = task.child(rt.alloc(), p)?;
    Ok(child)
}

fn store_answer(answer: Answer<'_>) -> Result<Option<Value>, Fault> {
    match answer {
        Gives(value) => Ok(Some(value)),
        Refuses(fault) => Err(fault),
        Nothing => Ok(None),
        List(_) => Ok(None),
        Places(_) => Ok(None),
    }
}

fn store_answers(
    rt: &(impl Abort + AllocGlobal),
    p: &Program,
    task: &mut Control,
    answer: Answer<'_>,
) -> Result<(), NoMemory>
    requires { (t : Term) × StandsFor p.now.script task.old t }
    ensures { OnOk result ((t : Term) × StandsFor p.now.script task.new t) }
{
    let Some(_) = task.path(rt.alloc(), p)? else {
        panic!(rt; "no statement is begun")
    };
    task.cell_done(rt.alloc(), p, store_answer(answer))?;
    Ok(())
}

fn ledger_grants(
    alloc: Global,
    p: &Program,
    task: &mut Control,
    answer: Answer<'_>,
) -> Result<(), NoMemory>
    requires { (t : Term) × StandsFor p.now.script task.old t }
    ensures { OnOk result ((t : Term) × StandsFor p.now.script task.new t) }
{
    let faults = raised(alloc, answer)?;
    match task.resume(p, faults) {
        Ok(()) => Ok(()),
        Err(refused) => Err(refused.0),
    }
}

fn local_step(alloc: Global, p: &Program, task: &mut Control, here: PlaceId) -> Result<(), NoMemory>
    requires { (t : Term) × StandsFor p.now.script task.old t × (next_of (does task.old.vars here.0 t) ≡ Next.Local) }
    ensures { OnOk result ((t : Term) × StandsFor p.now.script task.new t) }
{
    task.local(alloc, p, here)?;
    Ok(())
}

fn waits(
    rt: &(impl Abort + AllocGlobal),
    p: &Program,
    task: &mut Control,
    here: PlaceId,
    answer: Answer<'_>,
) -> Result<(), NoMemory>
    requires { (t : Term) × StandsFor p.now.script task.old t × (next_of (does task.old.vars here.0 t) ≡ Next.Book Want.Wait) }
    ensures { OnOk result ((t : Term) × StandsFor p.now.script task.new t) }
{
    let faults = listed(rt.alloc(), &task.take_faults(rt.alloc()))?;
    let wanted = listed(rt.alloc(), &raised(rt.alloc(), answer)?)?;
    same(rt, faults.as_slice(), wanted.as_slice());
    ledger_grants(rt.alloc(), p, task, Nothing)
}

fn counts(
    rt: &(impl Abort + AllocGlobal),
    p: &Program,
    task: &mut Control,
    here: PlaceId,
    answer: Answer<'_>,
) -> Result<(), NoMemory>
    requires { (t : Term) × StandsFor p.now.script task.old t × (next_of (does task.old.vars here.0 t) ≡ Next.Book Want.Census) }
    ensures { OnOk result ((t : Term) × StandsFor p.now.script task.new t) }
{
    let Places(places) = answer else {
        panic!(rt; "no number of places")
    };
    if places < 1 || places > 16 || places < task.places() {
        panic!(rt; "places do not go")
    }
    task.census_done(p, places)?;
    Ok(())
}

/// Makes the next step with its answer.
fn step(
    rt: &(impl Abort + AllocGlobal),
    p: &Program,
    task: &mut Control,
    here: PlaceId,
    answer: Answer<'_>,
) -> Result<(), NoMemory>
    requires { (t : Term) × StandsFor p.now.script task.old t }
    ensures { OnOk result ((t : Term) × StandsFor p.now.script task.new t) }
{
    match task.next(p, here) {
        Next::Local => local_step(rt.alloc(), p, task, here),
        Next::Cell(_) => store_answers(rt, p, task, answer),
        Next::Book(Want::Wait) => waits(rt, p, task, here, answer),
        Next::Book(Want::Census) => counts(rt, p, task, here, answer),
        Next::Book(_) => ledger_grants(rt.alloc(), p, task, answer),
        Next::Done => Ok(()),
    }
}

/// Makes steps and asserts that they are these.
fn follow(
    rt: &(impl Abort + AllocGlobal),
    p: &Program,
    task: &mut Control,
    here: PlaceId,
    steps: &[Step<'_>],
) -> Result<(), NoMemory>
    requires { (t : Term) × StandsFor p.now.script task.old t }
    ensures { OnOk result ((t : Term) × StandsFor p.now.script task.new t) }
{
    for (next, path, answer) in steps {
        same(rt, (*path, task.next(p, here)), (*path, *next));
        let begun = task.path(rt.alloc(), p)?;
        if let Some(path) = &begun {
            assert!(rt; task.begins(p, path));
        }
        same(rt, numbers(rt.alloc(), begun)?.as_slice(), *path);
        step(rt, p, task, here, *answer)?;
    }
    Ok(())
}

/// Asserts that the task ends here, with these faults.
fn ends(
    rt: &(impl Abort + AllocGlobal),
    p: &Program,
    task: &mut Control,
    here: PlaceId,
    faults: &[Fault],
) -> Result<(), NoMemory>
    requires { (t : Term) × StandsFor p.now.script task.old t }
{
    same(rt, task.next(p, here), Next::Done);
    let list = listed(rt.alloc(), &task.take_faults(rt.alloc()))?;
    same(rt, list.as_slice(), faults);
    Ok(())
}

/// Asserts that a task makes these steps and then ends with these faults.
fn finishes(
    rt: &(impl Abort + AllocGlobal),
    p: &Program,
    mut task: Control,
    here: PlaceId,
    steps: &[Step<'_>],
    faults: &[Fault],
) -> Result<(), NoMemory>
    requires { (t : Term) × StandsFor p.now.script task t }
{
    follow(rt, p, &mut task, here, steps)?;
    ends(rt, p, &mut task, here, faults)
}

/// Asserts that the main activity of a script makes these steps and then ends with these faults.
fn run(
    rt: &(impl Abort + AllocGlobal),
    bytes: &[u8],
    steps: &[Step<'_>],
    faults: &[Fault],
) -> Result<(), NoMemory> {
    let p = program(rt.alloc(), bytes).expect(rt, "a program");
    let main = main_of(rt.alloc(), &p)?;
    finishes(rt, &p, main, HERE, steps, faults)
}

// What the first block of a store is called, and the second.
const FIRST: GlobalRef = GlobalRef {
    home: HERE,
    start: 0,
    generation: 1,
};

const SECOND: GlobalRef = GlobalRef {
    home: HERE,
    start: 0,
    generation: 2,
};

const REFERENCE_AT_A_WRONG_PLACE_1: &[Step<'static>] = &[
    (
        Cell(CellOp::Make { words: 1 }),
        &[0],
        Gives(Value::Ref(FIRST)),
    ),
    (Local, &[1], Nothing),
];

const REFERENCE_AT_A_WRONG_PLACE_2: &[Step<'static>] = &[(Local, &[1, 0, 0, 0], Nothing)];

const REFERENCE_AT_A_WRONG_PLACE_3: &[Step<'static>] = &[
    (Book(Want::At { to: THERE }), &[1, 0, 0], Nothing),
    (Book(Release), &[], List(&[Overflow])),
    (Local, &[], Nothing),
    (Book(Print { value: 5 }), &[1, 1, 0], Nothing),
];

const LOCAL_FAULTS_1: &[Step<'static>] = &[(Local, &[0], Nothing)];

const STORES_ANSWER_1: &[Step<'static>] = &[
    (
        Cell(CellOp::Make { words: 3 }),
        &[0],
        Gives(Value::Ref(FIRST)),
    ),
    (Cell(CellOp::Forget { target: FIRST }), &[1], Nothing),
    (
        Cell(CellOp::Make { words: 3 }),
        &[2],
        Gives(Value::Ref(SECOND)),
    ),
    (
        Cell(CellOp::Get {
            target: FIRST,
            index: 0,
        }),
        &[3],
        Refuses(Stale),
    ),
];

const STORES_ANSWER_2: &[Step<'static>] = &[
    (Local, &[0], Nothing),
    (
        Cell(CellOp::Make { words: 4 }),
        &[0, 0, 0],
        Refuses(HeapFull),
    ),
    (Local, &[], Nothing),
    (
        Cell(CellOp::Make { words: 4 }),
        &[0, 1, 0],
        Gives(Value::Ref(FIRST)),
    ),
    (
        Cell(CellOp::Put {
            target: FIRST,
            index: 0,
            value: 7,
        }),
        &[0, 1, 1],
        Nothing,
    ),
    (
        Cell(CellOp::Get {
            target: FIRST,
            index: 0,
        }),
        &[0, 1, 2],
        Gives(Value::Num(7)),
    ),
    (Book(Print { value: 7 }), &[0, 1, 3], Nothing),
];

// Scripts of the main activity alone, their steps, and the faults with which they end.
const LOCAL_RUNS: &[(&[u8], &[Step<'static>], &[Fault])] = &[
    (
        b"print (9223372036854775807 + 1);",
        LOCAL_FAULTS_1,
        &[Overflow],
    ),
    (
        b"set x = ((0 - 9223372036854775807) - 2);",
        LOCAL_FAULTS_1,
        &[Overflow],
    ),
    (
        b"if (4294967296 * 2147483648) { } else { }",
        LOCAL_FAULTS_1,
        &[Overflow],
    ),
    (b"at 5 async { }", LOCAL_FAULTS_1, &[NoPlace]),
    (b"at 2 { }", LOCAL_FAULTS_1, &[NoPlace]),
    (b"at (0 - 1) { }", LOCAL_FAULTS_1, &[NoPlace]),
    (b"throw (here - 7);", LOCAL_FAULTS_1, &[Thrown(-7)]),
    (
        b"new r = 3; forget r; new q = 3; get x = r[0];",
        STORES_ANSWER_1,
        &[Stale],
    ),
    (
        b"try { new a = 4; } catch { new b = 4; put b[here] = 7; get x = b[0]; print x; }",
        STORES_ANSWER_2,
        &[],
    ),
];

const NEW_TASKS_HAVE_COPIES_1: &[Step<'static>] = &[(Local, &[0], Nothing)];

const NEW_TASKS_HAVE_COPIES_2: &[Step<'static>] = &[
    (Book(Spawn { to: HERE }), &[1], Nothing),
    (Local, &[2], Nothing),
];

const NEW_TASKS_HAVE_COPIES_3: &[Step<'static>] = &[
    (Book(Print { value: 1 }), &[1, 0], Nothing),
    (Local, &[1, 1], Nothing),
];

const NEW_TASKS_HAVE_COPIES_4: &[Step<'static>] = &[(Book(Print { value: 3 }), &[3], Nothing)];

const A_CENSUS_TELLS_OF_PLACES_1: &[Step<'static>] = &[
    (Book(Spawn { to: HERE }), &[0], Nothing),
    (Book(Want::Census), &[1], Places(3)),
];

const A_CENSUS_TELLS_OF_PLACES_2: &[Step<'static>] = &[
    (Book(Spawn { to: PlaceId(2) }), &[2], Nothing),
    (Local, &[3], Nothing),
];

const A_CENSUS_TELLS_OF_PLACES_3: &[Step<'static>] = &[(Local, &[0, 0], Nothing)];

const A_CENSUS_TELLS_OF_PLACES_4: &[Step<'static>] = &[
    (Book(Spawn { to: PlaceId(2) }), &[2, 0], Nothing),
    (Book(Want::Census), &[2, 1], Places(3)),
    (Book(Print { value: 3 }), &[2, 2], Nothing),
];

// (The tests below keep what they own in one function and go through the steps in another: a `?` beside values that still live takes
// seconds to prove.)
fn calls_elsewhere(
    rt: &(impl Abort + AllocGlobal),
    p: &Program,
    main: &mut Control,
) -> Result<(), NoMemory>
    requires { (t : Term) × StandsFor p.now.script main.old t }
{
    follow(rt, p, main, HERE, REFERENCE_AT_A_WRONG_PLACE_1)?;
    let callee = child_of(rt, p, main)?;
    finishes(
        rt,
        p,
        callee,
        THERE,
        REFERENCE_AT_A_WRONG_PLACE_2,
        &[Overflow],
    )?;
    follow(rt, p, main, HERE, REFERENCE_AT_A_WRONG_PLACE_3)?;
    ends(rt, p, main, HERE, &[])
}

// All expressions come before the home of the reference.
#[test]
fn reference_at_a_wrong_place(rt: HostRuntime) -> Result<(), Fail> {
    let p = program(
        rt.alloc(),
        b"new r = 1; try { at 1 { put r[0] = (9223372036854775807 + 1); } } catch { print 5; }",
    )
    .expect(&rt, "a program");
    let mut main = main_of(rt.alloc(), &p)?;
    calls_elsewhere(&rt, &p, &mut main)?;
    Ok(())
}

#[test]
fn local_faults_and_answers_of_stores(rt: HostRuntime) -> Result<(), Fail> {
    for (bytes, steps, faults) in LOCAL_RUNS {
        run(&rt, bytes, steps, faults)?;
    }
    Ok(())
}

fn starts_one(
    rt: &(impl Abort + AllocGlobal),
    p: &Program,
    main: &mut Control,
) -> Result<(), NoMemory>
    requires { (t : Term) × StandsFor p.now.script main.old t }
{
    follow(rt, p, main, HERE, NEW_TASKS_HAVE_COPIES_1)?;
    let task = child_of(rt, p, main)?;
    follow(rt, p, main, HERE, NEW_TASKS_HAVE_COPIES_2)?;
    finishes(rt, p, task, HERE, NEW_TASKS_HAVE_COPIES_3, &[])?;
    follow(rt, p, main, HERE, NEW_TASKS_HAVE_COPIES_4)?;
    ends(rt, p, main, HERE, &[])
}

#[test]
fn new_tasks_have_copies(rt: HostRuntime) -> Result<(), Fail> {
    let p = program(
        rt.alloc(),
        b"set x = 1; async { print x; set x = 2; } set x = 3; print x;",
    )
    .expect(&rt, "a program");
    let mut main = main_of(rt.alloc(), &p)?;
    starts_one(&rt, &p, &mut main)?;
    Ok(())
}

fn starts_two(
    rt: &(impl Abort + AllocGlobal),
    p: &Program,
    main: &mut Control,
) -> Result<(), NoMemory>
    requires { (t : Term) × StandsFor p.now.script main.old t }
{
    let first = child_of(rt, p, main)?;
    follow(rt, p, main, HERE, A_CENSUS_TELLS_OF_PLACES_1)?;
    finishes(rt, p, first, HERE, A_CENSUS_TELLS_OF_PLACES_3, &[NoPlace])?;
    let second = child_of(rt, p, main)?;
    follow(rt, p, main, HERE, A_CENSUS_TELLS_OF_PLACES_2)?;
    finishes(rt, p, second, PlaceId(2), A_CENSUS_TELLS_OF_PLACES_4, &[])?;
    ends(rt, p, main, HERE, &[NoPlace])
}

// A census tells the task of places that have joined; another task knows what its starter knew.
#[test]
fn a_census_tells_of_places(rt: HostRuntime) -> Result<(), Fail> {
    let p = program(
        rt.alloc(),
        b"async { at 2 { } } census n; at (n - 1) async { at 2 async { } census n; print n; } at 3 { }",
    )
    .expect(&rt, "a program");
    let mut main = main_of(rt.alloc(), &p)?;
    starts_two(&rt, &p, &mut main)?;
    Ok(())
}

fn moved<T: Send>(t: T) -> T {
    t
}

fn moved_control(c: Control) -> Control {
    moved(c)
}
