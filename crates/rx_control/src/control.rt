// The control of one activity.
ghost use Rattle.std.specs.Prelude.{◌≡◌, ◌≢◌, ℕ, ◌+◌, ◌*◌, ◌<◌, ◌≤◌, List, [], ◌∷◌, ◌++◌, Option, Some, None, IfOk, OnOk, OnErr, IfErr};
ghost use Rattle.std.specs.Prelude.{MatchOption, option_to_list, vec_len, vec_capacity, ◌↔◌, IsTrue};
ghost use Rattle.rx_base.specs.declared.ids.PlaceId.{PlaceId};
ghost use Rattle.rx_base.specs.declared.values.Fault.{Fault};
ghost use Rattle.rx_rules.specs.Code.{Stmt as Tree, Block, work};
ghost use Rattle.rx_rules.specs.Terms.{no_vars, Term, at, Empty, Waits, does, begins, child, items, granted, replaced, answered};
ghost use Rattle.rx_rules.specs.Terms.{answer_of, vars_after, receives, stmt_child};
ghost use Rattle.rx_rules.specs.Plays.{vars_told};
ghost use Rattle.rx_rules.specs.declared.entries.Act.{Act};
ghost use Rattle.rx_syntax.specs.Shape.{Shape, Stands};
ghost use Rattle.rx_control.specs.declared.frame.Frame.{Frame};
ghost use Rattle.rx_control.specs.Stands.{StandsFor, path_of, AfterLocalStep, IsSame};
ghost use Rattle.rx_control.specs.Seeds.{IsSeedOf};
ghost use Rattle.rx_control.specs.Bound.{StepFalls};
ghost use Rattle.rx_runs.specs.Steps.{steps};
ghost use Rattle.rx_history.specs.Next.{next_of, carried};
ghost use Rattle.rx_control.specs.Inside.Front.{lifted, PositionStands, Due};

use crate::birth::{Seed, born, seed_of, set_front, start};
use crate::faults::{is_caught, one_fault};
use crate::frame::{Frame, drop_top, enter, go_on, settle, top, unwind};
use crate::path::{front_path, is_front_path};
use crate::statement::{at_hand, following, learn, open_after, receive, receiver, statement_of};
use rx_base::{Fault, Faults, NoMemory, Path, PlaceId, Value};
use rx_check::Program;
use rx_plan::{Next, Plan, Variables, Want, make_plan, tell};
use rx_syntax::{BlockId, Script, Stmt};
use std::alloc::Global;

/// What one activity has still to run, with its variables. It stands for terms of the rules, and the program passed to its calls
/// is the one that it was made with. It may be moved between threads. docs/semantics.md states the steps.
#[derive(Drop)]
pub struct Control {
    pub(crate) base: Path,
    pub(crate) frames: Vec<Frame>,
    pub(crate) raised: Option<Faults>,
    pub(crate) vars: Variables,
}

impl Control {
    /// How many places the task knows of.
    pub fn places(&self) -> u8
        ensures { result ≡ self.now.vars.places }
    {
        self.vars.places()
    }

    /// Tells the next step, at a place. A step that raises before the store or the ledger is asked is local. It takes no memory.
    pub fn next(&self, p: &Program, here: PlaceId) -> Next
        requires { (t : Term) × StandsFor p.now.script self.now t }
        ensures { (t : Term) → StandsFor p.now.script self.now t → result ≡ next_of (does self.now.vars here.0 t) }
    {
        match &self.raised {
            Some(_) => match top(&self.frames) {
                Some(Frame::Try { .. }) => Next::Local,
                Some(Frame::Body) => Next::Book(Want::Wait),
                _ => Next::Done,
            },
            None => match top(&self.frames) {
                Some(Frame::Seq { block, next, .. }) => {
                    let script = p.script();
                    let stmt = at_hand(script, block, next);
                    tell(script, stmt, &self.vars, here)
                }
                Some(Frame::Turns { .. }) => Next::Local,
                Some(Frame::Try { .. }) => Next::Local,
                Some(Frame::Body) => Next::Book(Want::Wait),
                Some(Frame::Held) => Next::Book(Want::Release),
                None => Next::Done,
            },
        }
    }

    /// The control of the main activity: it stands at the front of the script, no name has a value, and it knows so many places.
    pub fn main(alloc: Global, p: &Program, places: u8) -> Result<Control, NoMemory>
        ensures stands { IfOk result (λ c. (b : Block) → Stands p.now.script b → StandsFor p.now.script c (items b [] Empty)
            × (c.vars ≡ no_vars places)) }
        ensures steps { (b : Block) → steps (items b [] Empty) ≡ 3 * work b }
    {
        let script = p.script();
        rx_syntax::whole(script);
        start(
            alloc,
            script,
            Path::open(alloc),
            Variables::none(alloc, places),
            script.top(),
        )
    }

    // The block, the position and the part of the statement at the front, where there is one.
    fn front(&self) -> Option<(BlockId, u32, Option<u32>)>
        ensures { MatchOption result ((s : Shape) (t : Term) → StandsFor s self.now t → begins t ≡ None)
            (λ f. (self.now.raised ≡ None) × ((below : List Frame) × (self.now.frames.items ≡ below ++ Frame.Seq f.0 f.1 f.2 ∷ []))) }
    {
        match &self.raised {
            Some(_) => None,
            None => match top(&self.frames) {
                Some(frame) => statement_of(frame),
                None => None,
            },
        }
    }

    // The path of the statement at the front.
    fn path_here(&self, alloc: Global, next: u32, part: Option<u32>) -> Result<Path, NoMemory>
        ensures { IfOk result (λ path. (below : List Frame) (f : Frame) → self.now.frames.items ≡ below ++ f ∷ []
            → path ≡ at (path_of self.now.base below ++ option_to_list part) next) }
    {
        front_path(alloc, &self.base, &self.frames, part, next)
    }

    /// The path of the statement that the next step begins, and None exactly where it begins none. Ask before the step is made.
    pub fn path(&self, alloc: Global, p: &Program) -> Result<Option<Path>, NoMemory>
        ensures { IfOk result (λ o. (t : Term) → StandsFor p.now.script self.now t → o ≡ begins t) }
    {
        match self.front() {
            Some((_, next, part)) => Ok(Some(self.path_here(alloc, next, part)?)),
            None => Ok(None),
        }
    }

    /// Whether the next step begins the statement with this path. It takes no memory.
    pub fn begins(&self, p: &Program, path: &Path) -> bool
        ensures { (t : Term) → StandsFor p.now.script self.now t → (IsTrue result ↔ (begins t ≡ Some path.now)) }
    {
        match self.front() {
            Some((_, next, part)) => is_front_path(path, &self.base, &self.frames, part, next),
            None => false,
        }
    }

    /// The control of the task that the next step starts, with a copy of the variables; it knows as many places. The next step begins
    /// a statement; where that starts no task, the new control has nothing to run.
    pub fn child(&self, alloc: Global, p: &Program) -> Result<Control, NoMemory>
        requires { (t : Term) × (x : List ℕ) × StandsFor p.now.script self.now t × (begins t ≡ Some x) }
        ensures stands { IfOk result (λ c. (t : Term) → StandsFor p.now.script self.now t → (x : List ℕ) → begins t ≡ Some x
            → StandsFor p.now.script c (child t) × (c.vars ≡ self.now.vars)) }
        ensures steps { (t : Term) (x : List ℕ) → begins t ≡ Some x → steps (child t) < steps t }
    {
        let script = p.script();
        match self.front() {
            Some((block, next, part)) => {
                let path = self.path_here(alloc, next, part)?;
                self.child_of(alloc, script, block, next, path)
            }
            None => unreachable!(),
        }
    }

    /// The seed of the task that the next step starts, with a copy of the variables; it knows as many places. The next step begins a
    /// statement; where that starts no task, the new task has nothing to run.
    pub fn seed(&self, alloc: Global, p: &Program) -> Result<Seed, NoMemory>
        requires { (t : Term) × (x : List ℕ) × StandsFor p.now.script self.now t × (begins t ≡ Some x) }
        ensures { IfOk result (λ seed. (t : Term) → StandsFor p.now.script self.now t → (x : List ℕ) → begins t ≡ Some x
            → IsSeedOf p.now.script seed x (child t) × (seed.vars ≡ self.now.vars)) }
    {
        let script = p.script();
        match self.front() {
            Some((block, next, _)) => {
                let vars = self.vars.copy(alloc)?;
                Ok(seed_of(at_hand(script, block, next), vars))
            }
            None => unreachable!(),
        }
    }

    /// A control with nothing to run. It takes no memory.
    pub fn idle(alloc: Global) -> Control
        ensures { (s : Shape) → StandsFor s result Empty }
    {
        Control {
            base: Path::open(alloc),
            frames: Vec::new(alloc),
            raised: None,
            vars: Variables::none(alloc, 0),
        }
    }

    /// Begins the task of a seed, which the statement with this path started, whatever this control had to run before.
    pub fn begin(&mut self, p: &Program, seed: Seed, path: Path) -> Result<(), NoMemory>
        requires { (t : Term) × IsSeedOf p.now.script seed path t }
        ensures stands { OnOk result ((t : Term) → IsSeedOf p.now.script seed path t → StandsFor p.now.script self.new t) }
        ensures vars { OnOk result (self.new.vars ≡ seed.vars) }
    {
        self.frames.clear();
        self.frames.reserve(1)?;
        set_front(p.script(), &mut self.frames, seed.body);
        self.base = path;
        self.raised = None;
        self.vars = seed.vars;
        Ok(())
    }

    // The control of the task that a statement of a block starts, with a copy of the variables, where the statement's path is at hand.
    fn child_of(
        &self,
        alloc: Global,
        script: &Script,
        block: BlockId,
        next: u32,
        path: Path,
    ) -> Result<Control, NoMemory>
        requires { (stmt : Tree) × (more : Block) × PositionStands script.now block next stmt more }
        ensures { IfOk result (λ c. (stmt : Tree) (more : Block) → PositionStands script.now block next stmt more
            → StandsFor script.now c (stmt_child stmt path) × (c.vars ≡ self.now.vars)) }
    {
        let vars = self.vars.copy(alloc)?;
        born(alloc, script, at_hand(script, block, next), path, vars)
    }

    /// Makes the local step that is next, at a place. Fewer steps are left then. Where another step is next, nothing
    /// changes. A refusal changes nothing.
    pub fn local(&mut self, alloc: Global, p: &Program, here: PlaceId) -> Result<(), NoMemory>
        requires { (t : Term) × StandsFor p.now.script self.old t }
        ensures ok { OnOk result ((t : Term) → StandsFor p.now.script self.old t
            → AfterLocalStep p.now.script self.new (does self.old.vars here.0 t)) }
        ensures other { (t : Term) → StandsFor p.now.script self.old t → next_of (does self.old.vars here.0 t) ≢ Next.Local
            → IsSame self.new self.old }
        ensures err { OnErr result (IsSame self.new self.old) }
        ensures steps { (t : Term) → StepFalls (steps t) (does self.old.vars here.0 t) }
    {
        self.frames.reserve(2)?;
        self.step(alloc, p.script(), here)
    }

    // Makes the step, with room on the stack.
    fn step(&mut self, alloc: Global, script: &Script, here: PlaceId) -> Result<(), NoMemory>
        requires room { vec_len self.old.frames + 2 ≤ vec_capacity self.old.frames }
        requires stands { (t : Term) × StandsFor script.now self.old t }
        ensures ok { OnOk result ((t : Term) → StandsFor script.now self.old t
            → AfterLocalStep script.now self.new (does self.old.vars here.0 t)) }
        ensures other { (t : Term) → StandsFor script.now self.old t → next_of (does self.old.vars here.0 t) ≢ Next.Local
            → IsSame self.new self.old }
        ensures err { OnErr result (IsSame self.new self.old) }
    {
        match top(&self.frames) {
            Some(Frame::Seq { block, next, part }) => {
                let stmt = at_hand(script, block, next);
                let plan = make_plan(script, stmt, &self.vars, here);
                self.carry_out(alloc, script, block, next, part, plan)
            }
            Some(Frame::Turns { body, turn, times }) => {
                self.take_turn(script, body, turn, times);
                Ok(())
            }
            Some(Frame::Try { dead_only, handler }) => {
                self.leave_try(script, dead_only, handler);
                Ok(())
            }
            Some(Frame::Body) => Ok(()),
            Some(Frame::Held) => Ok(()),
            None => Ok(()),
        }
    }

    // Makes the step of a statement by its plan. What may be refused comes first.
    fn carry_out(
        &mut self,
        alloc: Global,
        script: &Script,
        block: BlockId,
        next: u32,
        part: Option<u32>,
        plan: Plan,
    ) -> Result<(), NoMemory>
        requires room { vec_len self.old.frames + 2 ≤ vec_capacity self.old.frames }
        requires due { (t : Term) × (below : List Frame) × Due script.now self.old t below block next part plan }
        ensures done { OnOk result ((t : Term) (below : List Frame) → (h : Due script.now self.old t below block next part plan)
            → AfterLocalStep script.now self.new (lifted h.front.others h.act)) }
        ensures asks { (next : Next) → plan ≡ Plan.Ask next → IsSame self.new self.old }
        ensures err { OnErr result (IsSame self.new self.old) }
    {
        let after = following(script, block, next);
        match plan {
            Plan::Assign { name, value } => {
                self.vars.set(name, Value::Num(value))?;
                go_on(&mut self.frames, block, after, part);
                settle(script, &mut self.frames);
            }
            Plan::Raise(fault) => {
                let faults = one_fault(alloc, fault)?;
                unwind(&mut self.frames);
                self.raised = Some(faults);
            }
            Plan::Choose {
                block: inner,
                part: number,
            } => {
                go_on(&mut self.frames, block, after, part);
                enter(&mut self.frames, inner, Some(number));
                settle(script, &mut self.frames);
            }
            Plan::Loop { body, times } => {
                go_on(&mut self.frames, block, after, part);
                self.frames.push_reserved(Frame::Turns {
                    body,
                    turn: 0,
                    times,
                });
            }
            Plan::Attempt {
                body,
                dead_only,
                handler,
            } => {
                go_on(&mut self.frames, block, after, part);
                self.frames.push_reserved(Frame::Try { dead_only, handler });
                enter(&mut self.frames, body, Some(0));
                settle(script, &mut self.frames);
            }
            Plan::Ask(_) => {}
        }
        Ok(())
    }

    // Makes the next turn of a `repeat`, or ends it.
    fn take_turn(&mut self, script: &Script, body: BlockId, turn: u32, times: u32)
        requires room { vec_len self.old.frames + 2 ≤ vec_capacity self.old.frames }
        requires stands { (t : Term) × (below : List Frame) × StandsFor script.now self.old t
            × (self.old.frames.items ≡ below ++ Frame.Turns body turn times ∷ []) }
        ensures { (here : PlaceId) (t : Term) (below : List Frame) → StandsFor script.now self.old t
            → self.old.frames.items ≡ below ++ Frame.Turns body turn times ∷ []
            → AfterLocalStep script.now self.new (does self.old.vars here.0 t) }
    {
        drop_top(&mut self.frames);
        if times <= turn {
            settle(script, &mut self.frames);
        } else {
            self.frames.push_reserved(Frame::Turns {
                body,
                turn: turn + 1,
                times,
            });
            enter(&mut self.frames, body, Some(turn));
            settle(script, &mut self.frames);
        }
    }

    // Leaves a `try` whose body is over, or in which faults were raised.
    fn leave_try(&mut self, script: &Script, dead_only: bool, handler: BlockId)
        requires room { vec_len self.old.frames + 2 ≤ vec_capacity self.old.frames }
        requires stands { (t : Term) × (below : List Frame) × StandsFor script.now self.old t
            × (self.old.frames.items ≡ below ++ Frame.Try dead_only handler ∷ []) }
        ensures { (here : PlaceId) (t : Term) (below : List Frame) → StandsFor script.now self.old t
            → self.old.frames.items ≡ below ++ Frame.Try dead_only handler ∷ []
            → AfterLocalStep script.now self.new (does self.old.vars here.0 t) }
    {
        drop_top(&mut self.frames);
        match self.raised.take() {
            None => settle(script, &mut self.frames),
            Some(faults) => {
                if is_caught(dead_only, &faults) {
                    enter(&mut self.frames, handler, Some(1));
                    settle(script, &mut self.frames);
                } else {
                    unwind(&mut self.frames);
                    self.raised = Some(faults);
                }
            }
        }
    }

    /// Takes the store's answer: a value for the name of a `new` or `get`, none for the others, or a fault, which is raised. Fewer
    /// steps are left then. Where the next step begins no statement, nothing changes. A refusal changes nothing.
    pub fn cell_done(
        &mut self,
        alloc: Global,
        p: &Program,
        answer: Result<Option<Value>, Fault>,
    ) -> Result<(), NoMemory>
        requires { (t : Term) × StandsFor p.now.script self.old t }
        ensures ok { OnOk result ((t : Term) (x : List ℕ) → StandsFor p.now.script self.old t → begins t ≡ Some x
            → StandsFor p.now.script self.new (answered (answer_of (receives t) answer) t)
            × (self.new.vars ≡ vars_after (answer_of (receives t) answer) self.old.vars)) }
        ensures other { (t : Term) → StandsFor p.now.script self.old t → begins t ≡ None → IsSame self.new self.old }
        ensures err { OnErr result (IsSame self.new self.old) }
        ensures steps { (t : Term) (x : List ℕ) → begins t ≡ Some x → steps (answered (answer_of (receives t) answer) t) < steps t }
    {
        self.take_answer(alloc, p.script(), answer)
    }

    // Takes the answer, over the script alone.
    fn take_answer(
        &mut self,
        alloc: Global,
        script: &Script,
        answer: Result<Option<Value>, Fault>,
    ) -> Result<(), NoMemory>
        requires { (t : Term) × StandsFor script.now self.old t }
        ensures ok { OnOk result ((t : Term) (x : List ℕ) → StandsFor script.now self.old t → begins t ≡ Some x
            → StandsFor script.now self.new (answered (answer_of (receives t) answer) t)
            × (self.new.vars ≡ vars_after (answer_of (receives t) answer) self.old.vars)) }
        ensures other { (t : Term) → StandsFor script.now self.old t → begins t ≡ None → IsSame self.new self.old }
        ensures err { OnErr result (IsSame self.new self.old) }
    {
        match self.front() {
            Some((block, next, part)) => match answer {
                Err(fault) => {
                    let faults = one_fault(alloc, fault)?;
                    unwind(&mut self.frames);
                    self.raised = Some(faults);
                    Ok(())
                }
                Ok(value) => {
                    let stmt = at_hand(script, block, next);
                    let after = following(script, block, next);
                    receive(&mut self.vars, receiver(stmt), value)?;
                    go_on(&mut self.frames, block, after, part);
                    settle(script, &mut self.frames);
                    Ok(())
                }
            },
            None => Ok(()),
        }
    }

    /// Takes the answer of the ledger to a census, which is next: the name gets the number of places, and the activity knows it from
    /// now on. Places only join, so it knew no more before. A refusal changes nothing.
    pub fn census_done(&mut self, p: &Program, places: u8) -> Result<(), NoMemory>
        requires asks { (t : Term) × (here : PlaceId) × StandsFor p.now.script self.old t
            × (next_of (does self.old.vars here.0 t) ≡ Next.Book Want.Census) }
        requires some { 1 ≤ places }
        requires few { places ≤ 16 }
        requires known { self.old.vars.places ≤ places }
        ensures stands { OnOk result ((t : Term) (here : PlaceId) → StandsFor p.now.script self.old t
            → next_of (does self.old.vars here.0 t) ≡ Next.Book Want.Census → StandsFor p.now.script self.new (granted [] t)) }
        ensures vars { OnOk result ((t : Term) (here : PlaceId) (path : List ℕ) → StandsFor p.now.script self.old t
            → next_of (does self.old.vars here.0 t) ≡ Next.Book Want.Census
            → self.new.vars ≡ vars_told (does self.old.vars here.0 t) (Act.Census places path) self.old.vars) }
        ensures err { OnErr result (IsSame self.new self.old) }
        ensures steps { (t : Term) → steps (granted [] t) ≤ steps t }
    {
        self.count(p.script(), places)
    }

    // Goes on behind the census, over the script alone.
    fn count(&mut self, script: &Script, places: u8) -> Result<(), NoMemory>
        requires { (t : Term) × (here : PlaceId) × StandsFor script.now self.old t
            × (next_of (does self.old.vars here.0 t) ≡ Next.Book Want.Census) }
        ensures stands { OnOk result ((t : Term) (here : PlaceId) → StandsFor script.now self.old t
            → next_of (does self.old.vars here.0 t) ≡ Next.Book Want.Census → StandsFor script.now self.new (granted [] t)) }
        ensures vars { OnOk result ((t : Term) (here : PlaceId) (path : List ℕ) → StandsFor script.now self.old t
            → next_of (does self.old.vars here.0 t) ≡ Next.Book Want.Census
            → self.new.vars ≡ vars_told (does self.old.vars here.0 t) (Act.Census places path) self.old.vars) }
        ensures err { OnErr result (IsSame self.new self.old) }
    {
        match self.front() {
            Some((block, next, part)) => {
                let Stmt::Census { name } = at_hand(script, block, next) else {
                    unreachable!()
                };
                let after = following(script, block, next);
                learn(&mut self.vars, name, places)?;
                go_on(&mut self.frames, block, after, part);
                settle(script, &mut self.frames);
                Ok(())
            }
            None => unreachable!(),
        }
    }

    /// Goes on after the ledger granted the request that is next. The faults are those of a release, and are raised where there
    /// are any; at other requests they are dropped. A refusal changes nothing and hands the faults back.
    pub fn resume(&mut self, p: &Program, faults: Faults) -> Result<(), (NoMemory, Faults)>
        requires { (t : Term) × StandsFor p.now.script self.old t }
        ensures ok { OnOk result ((t : Term) → StandsFor p.now.script self.old t → StandsFor p.now.script self.new (granted faults t)) }
        ensures vars { OnOk result (self.new.vars ≡ self.old.vars) }
        ensures err { OnErr result (IsSame self.new self.old) }
        ensures faults { IfErr result (λ e. e.1 ≡ faults) }
        ensures steps { (t : Term) → steps (granted faults t) ≤ steps t }
    {
        if self.frames.reserve(2).is_err() {
            return Err((NoMemory, faults));
        }
        self.grant(p.script(), faults);
        Ok(())
    }

    // Goes on, with room on the stack.
    fn grant(&mut self, script: &Script, faults: Faults)
        requires room { vec_len self.old.frames + 2 ≤ vec_capacity self.old.frames }
        requires stands { (t : Term) × StandsFor script.now self.old t }
        ensures stands { (t : Term) → StandsFor script.now self.old t → StandsFor script.now self.new (granted faults t) }
        ensures vars { self.new.vars ≡ self.old.vars }
    {
        match top(&self.frames) {
            Some(Frame::Seq { block, next, part }) => {
                let stmt = at_hand(script, block, next);
                let after = following(script, block, next);
                go_on(&mut self.frames, block, after, part);
                open_after(script, &mut self.frames, stmt);
            }
            Some(Frame::Body) => {
                drop_top(&mut self.frames);
                self.frames.push_reserved(Frame::Held);
                self.raised = None;
            }
            Some(Frame::Held) => {
                drop_top(&mut self.frames);
                if faults.len() == 0 {
                    settle(script, &mut self.frames);
                } else {
                    unwind(&mut self.frames);
                    self.raised = Some(faults);
                }
            }
            Some(Frame::Turns { .. }) => {}
            Some(Frame::Try { .. }) => {}
            None => {}
        }
    }

    /// Hands out the list that a wait or the end carries, which is empty where nothing was raised; then nothing changes. The
    /// control stands afterwards for the same without that list; a wait grants the same.
    pub fn take_faults(&mut self, alloc: Global) -> Faults
        ensures list { (s : Shape) (t : Term) (here : PlaceId) (faults : List Fault) → StandsFor s self.old t
            → carried (does self.old.vars here.0 t) ≡ Some faults → result ≡ faults }
        ensures after { (s : Shape) (t : Term) (here : PlaceId) (faults : List Fault) → StandsFor s self.old t
            → carried (does self.old.vars here.0 t) ≡ Some faults → StandsFor s self.new (replaced t Empty) }
        ensures vars { self.new.vars ≡ self.old.vars }
        ensures calm { self.old.raised ≡ None → (result ≡ []) × IsSame self.new self.old }
        ensures wait { (t : Term) (here : PlaceId) (faults list : List Fault)
            → does self.old.vars here.0 t ≡ Waits faults → granted list (replaced t Empty) ≡ granted list t }
        ensures steps { (t : Term) → steps (replaced t Empty) ≤ steps t }
    {
        match self.raised.take() {
            Some(faults) => faults,
            None => Faults::open(alloc),
        }
    }
}
