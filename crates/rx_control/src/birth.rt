// The control of a new task, and the seed that it begins with.
ghost use Rattle.std.specs.Prelude.{◌≡◌, ◌<◌, ℕ, List, [], None, IfOk, MatchOption, vec_len, vec_capacity};
ghost use Rattle.rx_rules.specs.Code.{Stmt as Tree, Block};
ghost use Rattle.rx_rules.specs.Terms.{Term, Empty, items, stmt_child};
ghost use Rattle.rx_syntax.specs.Shape.{Shape, StmtIs, BlockStands};
ghost use Rattle.rx_control.specs.Stands.{StandsFor};
ghost use Rattle.rx_control.specs.Seeds.{BodyIs, IsSeedOf};
ghost use Rattle.rx_control.specs.declared.control.Control.{Control};

use crate::Control;
use crate::frame::{Frame, enter, settle};
use rx_base::{NoMemory, Path};
use rx_plan::Variables;
use rx_syntax::{BlockId, Script, Stmt};
use std::alloc::Global;

/// What a task begins with beside the path of the statement that starts it: a block, and the variables of the task that starts it.
/// A seed is small, and most tasks wait a while for their first step.
#[derive(Drop)]
pub struct Seed {
    // None where the statement starts no task.
    pub(crate) body: Option<BlockId>,
    pub(crate) vars: Variables,
}

/// The seed of the task that a statement starts.
pub(crate) fn seed_of(stmt: Stmt, vars: Variables) -> Seed
    ensures seed { (s : Shape) (t : Tree) (x : List ℕ) → StmtIs s stmt t → IsSeedOf s result x (stmt_child t x) }
    ensures vars { result.vars ≡ vars }
{
    Seed {
        body: body_of(stmt),
        vars,
    }
}

/// Puts the front of what a task begins with on an empty stack.
pub(crate) fn set_front(script: &Script, frames: &mut Vec<Frame>, body: Option<BlockId>)
    requires room { vec_len frames.old < vec_capacity frames.old }
    requires empty { frames.old.items ≡ [] }
    requires body { (x : List ℕ) × (t : Term) × BodyIs script.now body x t }
    ensures { (x : List ℕ) (t : Term) → BodyIs script.now body x t → (c : Control) → c.base ≡ x → c.frames.items ≡ frames.new.items
        → c.raised ≡ None → StandsFor script.now c t }
{
    match body {
        Some(block) => {
            enter(frames, block, None);
            settle(script, frames);
        }
        None => {}
    }
}

/// A control at the front of a block.
pub(crate) fn start(
    alloc: Global,
    script: &Script,
    base: Path,
    vars: Variables,
    block: BlockId,
) -> Result<Control, NoMemory>
    requires { (b : Block) × BlockStands script.now block b }
    ensures { IfOk result (λ c. (b : Block) → BlockStands script.now block b → StandsFor script.now c (items b base Empty)
        × (c.vars ≡ vars)) }
{
    let mut frames = Vec::new(alloc);
    frames.reserve(1)?;
    enter(&mut frames, block, None);
    settle(script, &mut frames);
    Ok(Control {
        base,
        frames,
        raised: None,
        vars,
    })
}

/// The control of a task that a statement starts.
pub(crate) fn born(
    alloc: Global,
    script: &Script,
    stmt: Stmt,
    path: Path,
    vars: Variables,
) -> Result<Control, NoMemory>
    requires { (t : Tree) × StmtIs script.now stmt t }
    ensures { IfOk result (λ c. (t : Tree) → StmtIs script.now stmt t → StandsFor script.now c (stmt_child t path) × (c.vars ≡ vars)) }
{
    match body_of(stmt) {
        Some(body) => start(alloc, script, path, vars, body),
        None => Ok(Control {
            base: path,
            frames: Vec::new(alloc),
            raised: None,
            vars,
        }),
    }
}

// The block that a new task runs.
fn body_of(stmt: Stmt) -> Option<BlockId>
    ensures { MatchOption result ((s : Shape) (t : Tree) (x : List ℕ) → StmtIs s stmt t → stmt_child t x ≡ Empty)
        (λ k. (s : Shape) (t : Tree) (x : List ℕ) → StmtIs s stmt t → (b : Block) × BlockStands s k b
        × (stmt_child t x ≡ items b x Empty)) }
{
    match stmt {
        Stmt::Async { body } => Some(body),
        Stmt::AtAsync { body, .. } => Some(body),
        Stmt::At { body, .. } => Some(body),
        Stmt::Set { .. } => None,
        Stmt::New { .. } => None,
        Stmt::Get { .. } => None,
        Stmt::Put { .. } => None,
        Stmt::Forget { .. } => None,
        Stmt::Census { .. } => None,
        Stmt::Print { .. } => None,
        Stmt::Throw { .. } => None,
        Stmt::Finish { .. } => None,
        Stmt::If { .. } => None,
        Stmt::Repeat { .. } => None,
        Stmt::Try { .. } => None,
    }
}
