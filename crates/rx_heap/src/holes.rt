// The list of holes: the first that fits, words cut out of a hole, and a hole joined in among the others.
ghost use Rattle.std.specs.Prelude.{◌≡◌, ℕ, ◌+◌, ◌-◌, ◌*◌, ◌/◌, ◌^◌, ◌<◌, ◌≤◌, ◌⊎◌, ◌↔◌, IsTrue, List, length, take, All, IfOk, IfErr};
ghost use Rattle.std.specs.Prelude.{IfSome, IfNone, slice_index_or, slice_set, vec_len, vec_capacity, remove};
ghost use Rattle.rx_heap.specs.Inside.HoleEdits.{Cuts, Joins, HasRoom};
ghost use Rattle.std.specs.List.Sorted.{IsNonDecreasingBy};
ghost use Rattle.rx_heap.specs.Inside.Longest.{group_of, IsBounded};

use crate::Hole;

// How many words make a group. For each group a heap keeps a length that no hole which begins there exceeds.
pub(crate) const GROUP: usize = 64;

// The place of the first hole that has n words. A group that was searched in vain gets the length of its longest hole.
pub(crate) fn fitting(holes: &[Hole], longest: &mut [u32], n: u32) -> Option<usize>
    requires some { 0 < n }
    requires rising { IsNonDecreasingBy (λ h. h.start) holes.now }
    requires bounded { All (IsBounded longest.old) holes.now }
    ensures none { IfNone result (All (λ h. h.len < n) holes.now) }
    ensures within { IfSome result (λ i. i < length holes.now) }
    ensures fits { IfSome result (λ i. (d : Hole) → n ≤ (slice_index_or holes.now i d).len) }
    ensures before { IfSome result (λ i. All (λ h. h.len < n) (take i holes.now)) }
    ensures bounded { All (IsBounded longest.new) holes.now }
    ensures size { length longest.new ≡ length longest.old }
{
    for group in 0..longest.len() {
        if n <= longest[group] {
            match fitting_in(holes, group, n) {
                Ok(i) => return Some(i),
                Err(most) => longest[group] = most,
            }
        }
    }
    None
}

// The place of the first hole of a group that has n words, or else the length of its longest hole.
fn fitting_in(holes: &[Hole], group: usize, n: u32) -> Result<usize, u32>
    requires some { 0 < n }
    requires rising { IsNonDecreasingBy (λ h. h.start) holes.now }
    ensures within { IfOk result (λ i. i < length holes.now) }
    ensures fits { IfOk result (λ i. (d : Hole) → n ≤ (slice_index_or holes.now i d).len) }
    ensures before { IfOk result (λ i. All (λ h. (group_of h < group) ⊎ (h.len < n)) (take i holes.now)) }
    ensures less { IfErr result (λ most. most < n) }
    ensures longest { IfErr result (λ most. All (λ h. group_of h ≡ group → h.len ≤ most) holes.now) }
{
    let first = holes.partition_point(|h| h.start as usize / GROUP < group);
    let mut most = 0;
    for i in first..holes.len() {
        let hole = holes[i];
        if group < hole.start as usize / GROUP {
            break;
        }
        if n <= hole.len {
            return Ok(i);
        }
        most = most.max(hole.len);
    }
    Err(most)
}

// Makes the length that is kept for the group of a hole at least its own.
pub(crate) fn raise(longest: &mut [u32], hole: Hole)
    requires { group_of hole < length longest.old }
    ensures hole { IsBounded longest.new hole }
    ensures others { (h : Hole) → IsBounded longest.old h → IsBounded longest.new h }
    ensures size { length longest.new ≡ length longest.old }
{
    let group = hole.start as usize / GROUP;
    if longest[group] < hole.len {
        longest[group] = hole.len;
    }
}

// How many holes begin before a word.
pub(crate) fn count_before(holes: &[Hole], start: u32) -> usize
    requires { IsNonDecreasingBy (λ h. h.start) holes.now }
    ensures within { result ≤ length holes.now }
    ensures before { All (λ h. h.start < start) (take result holes.now) }
    ensures after { (d : Hole) → result < length holes.now → start ≤ (slice_index_or holes.now result d).start }
{
    holes.partition_point(|h| h.start < start)
}

// Cuts n words out of the front of hole i, and says what hole it was.
pub(crate) fn cut(holes: &mut Vec<Hole>, i: usize, n: u32) -> Hole
    requires within { i < vec_len holes.old }
    requires fits { (d : Hole) → n ≤ (slice_index_or holes.old.items i d).len }
    requires ends { (d : Hole) → (slice_index_or holes.old.items i d).start + (slice_index_or holes.old.items i d).len < 2 ^ 32 }
    ensures hole { (d : Hole) → result ≡ slice_index_or holes.old.items i d }
    ensures cuts { Cuts holes.old.items holes.new.items result.start n }
    ensures bounded { (longest : List ℕ) → All (IsBounded longest) holes.old.items
        → IsBounded longest (record { start = result.start + n; len = result.len - n })
        → All (IsBounded longest) holes.new.items }
    ensures capacity { vec_capacity holes.new ≡ vec_capacity holes.old }
{
    let hole = holes[i];
    if hole.len == n {
        holes.remove(i);
    } else {
        holes[i] = Hole {
            start: hole.start + n,
            len: hole.len - n,
        };
    }
    hole
}

// Whether there is a hole before hole i, and it ends where this word begins.
fn ends_before(holes: &[Hole], i: usize, start: u32) -> bool
    requires within { i ≤ length holes.now }
    requires ends { (j : ℕ) (d : Hole) → j + 1 ≡ i → (slice_index_or holes.now j d).start + (slice_index_or holes.now j d).len < 2 ^ 32 }
    ensures some { IsTrue result → 0 < i }
    ensures ends { (j : ℕ) (d : Hole) → j + 1 ≡ i
        → (IsTrue result ↔ ((slice_index_or holes.now j d).start + (slice_index_or holes.now j d).len ≡ start)) }
{
    if i == 0 {
        return false;
    }
    let last = holes[i - 1];
    last.start + last.len == start
}

// Whether there is a hole i, and it begins at this word.
fn begins_at(holes: &[Hole], i: usize, start: u32) -> bool
    ensures within { IsTrue result → i < length holes.now }
    ensures begins { (d : Hole) → i < length holes.now → (IsTrue result ↔ (start ≡ (slice_index_or holes.now i d).start)) }
{
    i < holes.len() && holes[i].start == start
}

// Puts a hole in among the others, merges it with those beside it, and says what hole it has become.
pub(crate) fn put(holes: &mut Vec<Hole>, hole: Hole) -> Hole
    requires some { 0 < hole.len }
    requires room { (w : ℕ) × HasRoom w holes.old.items (vec_capacity holes.old) hole.start hole.len }
    ensures joins { Joins holes.old.items holes.new.items hole.start hole.len }
    ensures capacity { vec_capacity holes.old ≤ vec_capacity holes.new }
    ensures start { result.start ≤ hole.start }
    ensures bounded { (longest : List ℕ) → All (IsBounded longest) holes.old.items → IsBounded longest result
        → All (IsBounded longest) holes.new.items }
{
    let row = holes.as_slice();
    let i = count_before(row, hole.start);
    let joins_last = ends_before(row, i, hole.start);
    let joins_next = begins_at(row, i, hole.start + hole.len);
    if joins_last {
        let last = holes[i - 1];
        if joins_next {
            let joined = Hole {
                start: last.start,
                len: last.len + (hole.len + holes[i].len),
            };
            holes[i - 1] = joined;
            holes.remove(i);
            joined
        } else {
            let joined = Hole {
                start: last.start,
                len: last.len + hole.len,
            };
            holes[i - 1] = joined;
            joined
        }
    } else if joins_next {
        let joined = Hole {
            start: hole.start,
            len: holes[i].len + hole.len,
        };
        holes[i] = joined;
        joined
    } else {
        match holes.insert(i, hole) {
            Ok(()) => hole,
            Err(_) => unreachable!(),
        }
    }
}
