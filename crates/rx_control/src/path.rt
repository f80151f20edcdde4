// The path of the statement at the front.
ghost use Rattle.std.specs.Prelude.{◌≡◌, ◌≢◌, ◌≤◌, ◌↔◌, ℕ, List, []};
ghost use Rattle.std.specs.Prelude.{◌∷◌, ◌++◌, length, take, IsTrue, IfOk, OnOk, IfSome, MatchOption, option_to_list};
ghost use Rattle.rx_rules.specs.Terms.{at};
ghost use Rattle.rx_control.specs.declared.frame.Frame.{Frame};
ghost use Rattle.rx_control.specs.Stands.{numbers, path_of};

use crate::frame::Frame;
use rx_base::{NoMemory, Path};
use std::alloc::Global;

/// The path of a statement in the block of the innermost frame: the base, what the frames below add, and where it stands.
pub(crate) fn front_path(
    alloc: Global,
    base: &Path,
    frames: &Vec<Frame>,
    part: Option<u32>,
    next: u32,
) -> Result<Path, NoMemory>
    ensures { IfOk result (λ path. (below : List Frame) (f : Frame) → frames.now.items ≡ below ++ f ∷ []
        → path ≡ at (path_of base.now below ++ option_to_list part) next) }
{
    let n = frames.len();
    if n == 0 {
        return Ok(Path::open(alloc));
    }
    // Most paths have few numbers: these are gathered first, and the path is made of them at once.
    let mut short = [0; 7];
    let mut room = [0; 14];
    match gather(
        &mut room,
        base.numbers(&mut short),
        &frames[..n - 1],
        part,
        next,
    ) {
        Some(len) => Path::from_slice(alloc, &room[..len]),
        None => long_path(alloc, base, &frames[..n - 1], part, next),
    }
}

/// Whether a path is that of a statement in the block of the innermost frame. No memory is taken.
pub(crate) fn is_front_path(
    path: &Path,
    base: &Path,
    frames: &Vec<Frame>,
    part: Option<u32>,
    next: u32,
) -> bool
    ensures { (below : List Frame) (f : Frame) → frames.now.items ≡ below ++ f ∷ []
        → (IsTrue result ↔ (path.now ≡ at (path_of base.now below ++ option_to_list part) next)) }
{
    let n = frames.len();
    if n == 0 {
        return false;
    }
    let mut whole = [0; 7];
    let mut short = [0; 7];
    let path = path.numbers(&mut whole);
    let base = base.numbers(&mut short);
    is_path(path, base, &frames[..n - 1], part, next)
}

// Whether a path is the base, what each frame adds, and where a statement stands in the block of the next frame.
fn is_path(path: &[u32], base: &[u32], frames: &[Frame], part: Option<u32>, next: u32) -> bool
    ensures { IsTrue result ↔ (path.now ≡ at (path_of base.now frames.now ++ option_to_list part) next) }
{
    let Some(left) = left_of(path, base, frames) else {
        return false;
    };
    match behind(left, part, next) {
        Some(left) => left.len() == 0,
        None => false,
    }
}

// What a path has behind the base and what each frame adds, and None where it does not begin so.
fn left_of<'a>(path: &'a [u32], base: &[u32], frames: &[Frame]) -> Option<&'a [u32]>
    ensures { MatchOption result ((left : List ℕ) → path.now ≢ path_of base.now frames.now ++ left)
        (λ left. path.now ≡ path_of base.now frames.now ++ left.now) }
{
    let mut left = behind_base(path, base)?;
    for frame in frames {
        left = behind_frame(left, frame)?;
    }
    Some(left)
}

// What stands behind the base, and None where the path does not begin with it.
fn behind_base<'a>(path: &'a [u32], base: &[u32]) -> Option<&'a [u32]>
    ensures { MatchOption result ((left : List ℕ) → path.now ≢ base.now ++ left) (λ left. path.now ≡ base.now ++ left.now) }
{
    let mut left = path;
    for number in base {
        left = behind_number(left, *number)?;
    }
    Some(left)
}

// What stands behind what a frame adds, and None where the path does not begin with it.
fn behind_frame<'a>(path: &'a [u32], frame: &Frame) -> Option<&'a [u32]>
    ensures { MatchOption result ((left : List ℕ) → path.now ≢ numbers frame.now ++ left)
        (λ left. path.now ≡ numbers frame.now ++ left.now) }
{
    match frame {
        Frame::Seq { next, part, .. } => behind(path, *part, next.saturating_sub(1)),
        Frame::Turns { .. } | Frame::Try { .. } | Frame::Body | Frame::Held => Some(path),
    }
}

// What stands behind the number between the path of a statement and the positions in its block, where there is one, and a position,
// and None where the path does not begin with them.
fn behind(path: &[u32], part: Option<u32>, position: u32) -> Option<&[u32]>
    ensures { MatchOption result ((left : List ℕ) → path.now ≢ option_to_list part ++ position ∷ left)
        (λ left. path.now ≡ option_to_list part ++ position ∷ left.now) }
{
    match part {
        Some(number) => behind_number(behind_number(path, number)?, position),
        None => behind_number(path, position),
    }
}

// What stands behind a number, and None where the path does not begin with it.
fn behind_number(path: &[u32], number: u32) -> Option<&[u32]>
    ensures { MatchOption result ((left : List ℕ) → path.now ≢ number ∷ left) (λ left. path.now ≡ number ∷ left.now) }
{
    match path {
        [first, left @ ..] => { if *first == number { Some(left) } else { None } }
        [] => None,
    }
}

// Writes the base, what each frame adds, and where a statement stands in the block of the next frame: how many numbers these are, and
// None where there is no room for them.
fn gather(
    room: &mut [u32],
    base: &[u32],
    frames: &[Frame],
    part: Option<u32>,
    next: u32,
) -> Option<usize>
    ensures { IfSome result (λ n. (n ≤ length room.new)
        × (take n room.new ≡ at (path_of base.now frames.now ++ option_to_list part) next)) }
{
    let mut len = write_base(room, base)?;
    for frame in frames {
        len = write_numbers(room, len, frame)?;
    }
    write(room, len, part, next)
}

// Writes the base: how many numbers it has, and None where there is no room for them.
fn write_base(room: &mut [u32], base: &[u32]) -> Option<usize>
    ensures { IfSome result (λ n. take n room.new ≡ base.now) }
{
    let mut len = 0;
    for number in base {
        len = write_number(room, len, *number)?;
    }
    Some(len)
}

// Writes what a frame adds behind so many numbers: how many there are then, and None where there is no room.
fn write_numbers(room: &mut [u32], len: usize, frame: &Frame) -> Option<usize>
    ensures { IfSome result (λ n. take n room.new ≡ take len room.old ++ numbers frame.now) }
{
    match frame {
        Frame::Seq { next, part, .. } => write(room, len, *part, next.saturating_sub(1)),
        Frame::Turns { .. } | Frame::Try { .. } | Frame::Body | Frame::Held => Some(len),
    }
}

// Writes the number between the path of a statement and the positions in its block, where there is one, and a position.
fn write(room: &mut [u32], len: usize, part: Option<u32>, position: u32) -> Option<usize>
    ensures { IfSome result (λ n. (n ≤ length room.new)
        × (take n room.new ≡ take len room.old ++ option_to_list part ++ position ∷ [])) }
{
    match part {
        Some(number) => {
            let len = write_number(room, len, number)?;
            write_number(room, len, position)
        }
        None => write_number(room, len, position),
    }
}

// Writes a number behind so many: how many there are then, and None where there is no room.
fn write_number(room: &mut [u32], len: usize, number: u32) -> Option<usize>
    ensures { IfSome result (λ n. (n ≤ length room.new) × (take n room.new ≡ take len room.old ++ number ∷ [])) }
{
    if room.len() <= len {
        return None;
    }
    room[len] = number;
    Some(len + 1)
}

// The same path, where its numbers may be many.
fn long_path(
    alloc: Global,
    base: &Path,
    frames: &[Frame],
    part: Option<u32>,
    next: u32,
) -> Result<Path, NoMemory>
    ensures { IfOk result (λ path. path ≡ at (path_of base.now frames.now ++ option_to_list part) next) }
{
    let mut path = path_along(alloc, base, frames)?;
    add(&mut path, part, next)?;
    Ok(path)
}

// The base and what each frame adds.
fn path_along(alloc: Global, base: &Path, frames: &[Frame]) -> Result<Path, NoMemory>
    ensures { IfOk result (λ path. path ≡ path_of base.now frames.now) }
{
    let mut path = base.copy(alloc)?;
    for frame in frames {
        add_numbers(&mut path, frame)?;
    }
    Ok(path)
}

// Adds what a frame adds to the paths of those above it.
fn add_numbers(path: &mut Path, frame: &Frame) -> Result<(), NoMemory>
    ensures { OnOk result (path.new ≡ path.old ++ numbers frame.now) }
{
    match frame {
        Frame::Seq { next, part, .. } => add(path, *part, next.saturating_sub(1)),
        Frame::Turns { .. } | Frame::Try { .. } | Frame::Body | Frame::Held => Ok(()),
    }
}

// Adds the number between the path of a statement and the positions in its block, where there is one, and a position.
fn add(path: &mut Path, part: Option<u32>, position: u32) -> Result<(), NoMemory>
    ensures { OnOk result (path.new ≡ path.old ++ option_to_list part ++ position ∷ []) }
{
    if let Some(number) = part {
        path.push(number)?;
    }
    path.push(position)
}
