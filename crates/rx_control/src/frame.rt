// What stands on the stack of a control.
ghost use Rattle.std.specs.Prelude.{◌≡◌, ℕ, List, [], ◌∷◌, ◌++◌, Option, Some, None, MatchOption, vec_len, vec_capacity, ◌-◌, ◌≤◌, ◌<◌};
ghost use Rattle.rx_base.specs.declared.values.Fault.{Fault};
ghost use Rattle.rx_control.specs.Levels.{Level};
ghost use Rattle.rx_syntax.specs.Shape.{Shape};
ghost use Rattle.rx_control.specs.declared.frame.Frame.{Frame};
ghost use Rattle.rx_control.specs.Stands.{FrameStands, FramesStand};
ghost use Rattle.rx_control.specs.Inside.Front.{LevelIsOver, IsCatch, SettlesTo};

use rx_syntax::{BlockId, Script};

/// What is left at one level. The last frame of a stack is the innermost.
#[derive(Clone, Copy, Debug, PartialEq, Eq)]
pub(crate) enum Frame {
    /// The statements of a block from a position on. `part` is the number between the path of the statement round the block
    /// and the positions in it.
    Seq {
        block: BlockId,
        next: u32,
        part: Option<u32>,
    },
    /// The turns of a `repeat` that are left.
    Turns {
        body: BlockId,
        turn: u32,
        times: u32,
    },
    /// The frames above stand in the body of a `try`.
    Try {
        dead_only: bool,
        handler: BlockId,
    },
    /// The frames above stand in the body of a `finish`.
    Body,
    /// The task waits at a scope.
    Held,
}

/// The innermost frame.
pub(crate) fn top(frames: &Vec<Frame>) -> Option<Frame>
    ensures { MatchOption result (frames.now.items ≡ []) (λ f. (below : List Frame) × (frames.now.items ≡ below ++ f ∷ [])) }
{
    let n = frames.len();
    if n == 0 {
        return None;
    }
    Some(frames[n - 1])
}

/// Takes off the innermost frame.
pub(crate) fn drop_top(frames: &mut Vec<Frame>)
    ensures items { (below : List Frame) (f : Frame) → frames.old.items ≡ below ++ f ∷ [] → frames.new.items ≡ below }
    ensures len { vec_len frames.new ≡ vec_len frames.old - 1 }
    ensures capacity { vec_capacity frames.new ≡ vec_capacity frames.old }
{
    let _ = frames.pop();
}

/// Puts on a block, at its first statement.
pub(crate) fn enter(frames: &mut Vec<Frame>, block: BlockId, part: Option<u32>)
    requires { vec_len frames.old < vec_capacity frames.old }
    ensures { frames.new.items ≡ frames.old.items ++ Frame.Seq block 0 part ∷ [] }
{
    frames.push_reserved(Frame::Seq {
        block,
        next: 0,
        part,
    });
}

/// Puts the block of the innermost frame behind the statement at hand.
pub(crate) fn go_on(frames: &mut Vec<Frame>, block: BlockId, next: u32, part: Option<u32>)
    requires room { vec_len frames.old ≤ vec_capacity frames.old }
    requires some { 0 < vec_len frames.old }
    ensures items { (below : List Frame) (f : Frame) → frames.old.items ≡ below ++ f ∷ []
        → frames.new.items ≡ below ++ Frame.Seq block next part ∷ [] }
    ensures len { vec_len frames.new ≡ vec_len frames.old }
    ensures capacity { vec_capacity frames.new ≡ vec_capacity frames.old }
{
    drop_top(frames);
    frames.push_reserved(Frame::Seq { block, next, part });
}

// Whether a frame is a block without statements left.
fn is_over(script: &Script, frame: Frame) -> bool
    requires { (x : List ℕ) × (g : Level) × FrameStands script.now x frame g }
    ensures { (x : List ℕ) (g : Level) → FrameStands script.now x frame g → LevelIsOver result g }
{
    match frame {
        Frame::Seq { block, next, .. } => script.block_len(block) <= next,
        Frame::Turns { .. } | Frame::Try { .. } | Frame::Body | Frame::Held => false,
    }
}

/// Takes off the blocks without statements left.
pub(crate) fn settle(script: &Script, frames: &mut Vec<Frame>)
    requires { (base : List ℕ) × (levels : List Level) × FramesStand script.now base frames.old.items levels }
    ensures { (base : List ℕ) (levels : List Level) → FramesStand script.now base frames.old.items levels
        → SettlesTo script.now base frames.new.items None levels }
{
    'frames: while let Some(frame) = top(frames) {
        if !is_over(script, frame) {
            return;
        }
        drop_top(frames);
    }
}

/// Takes off what stands above the innermost try or finish.
pub(crate) fn unwind(frames: &mut Vec<Frame>)
    ensures { (s : Shape) (base : List ℕ) (levels : List Level) (faults : List Fault) → FramesStand s base frames.old.items levels
        → SettlesTo s base frames.new.items (Some faults) levels }
{
    'frames: while let Some(frame) = top(frames) {
        if is_catch(frame) {
            return;
        }
        drop_top(frames);
    }
}

// Whether a frame is that of a try or a finish.
fn is_catch(frame: Frame) -> bool
    ensures { (s : Shape) (x : List ℕ) (g : Level) → FrameStands s x frame g → IsCatch result g }
{
    match frame {
        Frame::Try { .. } | Frame::Body => true,
        Frame::Seq { .. } | Frame::Turns { .. } | Frame::Held => false,
    }
}
