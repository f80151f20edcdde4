// The statement at the front.
ghost use Rattle.std.specs.Prelude.{◌≡◌, ℕ, pos, ◌+◌, ◌≤◌, List, [], ◌∷◌, ◌++◌};
ghost use Rattle.std.specs.Prelude.{Option, None, Ok, OnOk, OnErr, MatchOption, vec_len, vec_capacity};
ghost use Rattle.rx_rules.specs.Code.{Stmt as Tree, Block};
ghost use Rattle.rx_base.specs.declared.values.Value.TheVariants.{Num as Number};
ghost use Rattle.rx_rules.specs.Terms.{Term, begins, bound, stmt_receives, vars_after, answer_of};
ghost use Rattle.rx_syntax.specs.Shape.{Shape, StmtIs};
ghost use Rattle.rx_control.specs.declared.frame.Frame.{Frame};
ghost use Rattle.rx_control.specs.declared.control.Control.{Control};
ghost use Rattle.rx_control.specs.Levels.{Level};
ghost use Rattle.rx_control.specs.Stands.{StandsFor, FramesStand, path_of};
ghost use Rattle.rx_control.specs.Inside.Front.{PositionStands, SettlesTo, levels_opened, name_in};

use crate::frame::{Frame, enter, settle};
use rx_base::{NoMemory, Value};
use rx_plan::Variables;
use rx_syntax::{BlockId, NameId, Script, Stmt};

/// The statement at a position of a block.
pub(crate) fn at_hand(script: &Script, block: BlockId, next: u32) -> Stmt
    requires { (t : Tree) × (more : Block) × PositionStands script.now block next t more }
    ensures { (t : Tree) (more : Block) → PositionStands script.now block next t more → StmtIs script.now result t }
{
    script.stmt(script.block_item(block, next))
}

/// The position after one that stands for a statement.
pub(crate) fn following(script: &Script, block: BlockId, next: u32) -> u32
    requires { (t : Tree) × (more : Block) × PositionStands script.now block next t more }
    ensures { result ≡ next + 1 }
{
    let n = script.block_len(block);
    if next < n { next + 1 } else { next }
}

/// The block, the position and the part of a block's frame.
pub(crate) fn statement_of(frame: Frame) -> Option<(BlockId, u32, Option<u32>)>
    ensures { MatchOption result ((s : Shape) (c : Control) (t : Term) (below : List Frame) → c.frames.items ≡ below ++ frame ∷ []
        → StandsFor s c t → c.raised ≡ None → begins t ≡ None) (λ f. frame ≡ Frame.Seq f.0 f.1 f.2) }
{
    match frame {
        Frame::Seq { block, next, part } => Some((block, next, part)),
        Frame::Turns { .. } => None,
        Frame::Try { .. } => None,
        Frame::Body => None,
        Frame::Held => None,
    }
}

/// The name that the store's answer gives a value.
pub(crate) fn receiver(stmt: Stmt) -> Option<NameId>
    ensures { (s : Shape) (t : Tree) → StmtIs s stmt t → stmt_receives t ≡ name_in result }
{
    match stmt {
        Stmt::New { name, .. } => Some(name),
        Stmt::Get { name, .. } => Some(name),
        Stmt::Set { .. } => None,
        Stmt::Put { .. } => None,
        Stmt::Forget { .. } => None,
        Stmt::Census { .. } => None,
        Stmt::Print { .. } => None,
        Stmt::Throw { .. } => None,
        Stmt::Async { .. } => None,
        Stmt::AtAsync { .. } => None,
        Stmt::At { .. } => None,
        Stmt::Finish { .. } => None,
        Stmt::If { .. } => None,
        Stmt::Repeat { .. } => None,
        Stmt::Try { .. } => None,
    }
}

/// The name gets the value, where there are both.
pub(crate) fn receive(
    vars: &mut Variables,
    name: Option<NameId>,
    value: Option<Value>,
) -> Result<(), NoMemory>
    ensures ok { OnOk result (vars.new ≡ vars_after (answer_of (name_in name) (Ok value)) vars.old) }
    ensures err { OnErr result (vars.new ≡ vars.old) }
{
    match name {
        Some(name) => match value {
            Some(value) => vars.set(name, value),
            None => Ok(()),
        },
        None => Ok(()),
    }
}

/// The name gets the number of places, which is known from now on.
pub(crate) fn learn(vars: &mut Variables, name: NameId, places: u8) -> Result<(), NoMemory>
    ensures ok { OnOk result (vars.new ≡ record (bound name.0 (Number (pos places)) vars.old) { places = places }) }
    ensures err { OnErr result (vars.new ≡ vars.old) }
{
    vars.set(name, Value::Num(i64::from(places)))?;
    vars.tell(places);
    Ok(())
}

/// Puts on what a granted statement opens.
pub(crate) fn open_after(script: &Script, frames: &mut Vec<Frame>, stmt: Stmt)
    requires room { vec_len frames.old + 2 ≤ vec_capacity frames.old }
    requires stands { (base : List ℕ) × (levels : List Level) × FramesStand script.now base frames.old.items levels }
    requires stmt { (t : Tree) × StmtIs script.now stmt t }
    ensures { (base : List ℕ) (levels : List Level) (t : Tree) → FramesStand script.now base frames.old.items levels
        → StmtIs script.now stmt t → SettlesTo script.now base frames.new.items None
        (levels_opened t (path_of base frames.old.items) levels) }
{
    match stmt {
        Stmt::Finish { body } => {
            frames.push_reserved(Frame::Body);
            enter(frames, body, None);
            settle(script, frames);
        }
        Stmt::At { .. } => frames.push_reserved(Frame::Held),
        Stmt::Set { .. } => settle(script, frames),
        Stmt::New { .. } => settle(script, frames),
        Stmt::Get { .. } => settle(script, frames),
        Stmt::Put { .. } => settle(script, frames),
        Stmt::Forget { .. } => settle(script, frames),
        Stmt::Census { .. } => settle(script, frames),
        Stmt::Print { .. } => settle(script, frames),
        Stmt::Throw { .. } => settle(script, frames),
        Stmt::Async { .. } => settle(script, frames),
        Stmt::AtAsync { .. } => settle(script, frames),
        Stmt::If { .. } => settle(script, frames),
        Stmt::Repeat { .. } => settle(script, frames),
        Stmt::Try { .. } => settle(script, frames),
    }
}
