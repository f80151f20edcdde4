// A complete binary tree of counts as one list, of which the second half are the leaves. The root stands at 1, and below the node at i
// those at 2 * i and 2 * i + 1. A leaf counts 0 or 1, and each other node what the two below it count. What stands at 0 counts nothing.
ghost use Rattle.std.specs.Prelude.{◌≡◌, ◌+◌, ◌*◌, ◌/◌, ◌^◌, ◌<◌, ◌≤◌, Some, IfOk, length, slice_get, slice_set, slice_index};
ghost use Rattle.rx_rank.specs.Numbers.{marked};
ghost use Rattle.rx_rank.specs.Counts.{numbers, leaves, IsTree, IsBare, IsLate};

use rx_base::NoMemory;
use std::alloc::Global;

// The k-th number of a tree of this height.
pub(crate) fn nth(counts: &[u32], height: u32, k: u32) -> u32
    requires height { height < 32 }
    requires tree { IsTree (2 ^ height) counts.now }
    requires within { k < slice_index counts.now 1 }
    ensures below { result < 2 ^ height }
    ensures at { slice_get (numbers 0 (leaves counts.now)) k ≡ Some result }
{
    let mut i = 1;
    let mut left = k;
    'levels: for _level in 0..height {
        i *= 2;
        let count = counts[i];
        if left >= count {
            left -= count;
            i += 1;
        }
    }
    (i - counts.len() / 2) as u32
}

// Puts a number into a tree, or takes it out.
pub(crate) fn mark(counts: &mut [u32], x: u32, stands: bool)
    requires tree { IsTree (length counts.old / 2) counts.old }
    requires inside { x < length counts.old / 2 }
    ensures tree { IsTree (length counts.new / 2) counts.new }
    ensures marked { numbers 0 (leaves counts.new) ≡ marked stands x (numbers 0 (leaves counts.old)) }
{
    let mut i = counts.len() / 2 + x as usize;
    let bit = u32::from(stands);
    if counts[i] == bit {
        return;
    }
    counts[i] = bit;
    'up: while i > 1 {
        i /= 2;
        count_one(counts, i, stands);
    }
}

// Makes the count of a node one more or one fewer, after which it is that of the two below it.
fn count_one(counts: &mut [u32], i: usize, more: bool)
    requires inside { i < length counts.old }
    requires fits { slice_index counts.old (2 * i) + slice_index counts.old (2 * i + 1) < 2 ^ 32 }
    requires late { IsLate more counts.old i }
    ensures { counts.new ≡ slice_set counts.old i (slice_index counts.old (2 * i) + slice_index counts.old (2 * i + 1)) }
{
    if more {
        counts[i] += 1;
    } else {
        counts[i] -= 1;
    }
}

// Makes the count of a node that of the two below it.
fn add_up(counts: &mut [u32], i: usize)
    requires inside { 2 * i + 1 < length counts.old }
    requires fits { slice_index counts.old (2 * i) + slice_index counts.old (2 * i + 1) < 2 ^ 32 }
    ensures { counts.new ≡ slice_set counts.old i (slice_index counts.old (2 * i) + slice_index counts.old (2 * i + 1)) }
{
    counts[i] = counts[2 * i] + counts[2 * i + 1];
}

// How many leaves a tree of this height has.
fn leaf_count(height: u32) -> usize
    requires { height < 32 }
    ensures { result ≡ 2 ^ height }
{
    1 << height
}

// A tree of this height whose first leaves are those of a tree.
pub(crate) fn grown(alloc: Global, counts: &[u32], height: u32) -> Result<Vec<u32>, NoMemory>
    requires height { height < 32 }
    requires less { length counts.now ≤ 2 * 2 ^ height }
    requires tree { 0 < length counts.now → IsTree (length counts.now / 2) counts.now }
    ensures tree { IfOk result (λ v. IsTree (2 ^ height) v.items) }
    ensures numbers { IfOk result (λ v. numbers 0 (leaves v.items) ≡ numbers 0 (leaves counts.now)) }
{
    let half = leaf_count(height);
    let mut larger = Vec::with_capacity(alloc, 2 * half)?;
    larger.resize(half, 0)?;
    larger.extend_from_slice(&counts[counts.len() / 2..])?;
    larger.resize(2 * half, 0)?;
    add_all(&mut larger);
    Ok(larger)
}

// Adds up a tree of which the leaves are there, and every other node is 0.
fn add_all(counts: &mut [u32])
    requires { IsBare (length counts.old / 2) counts.old }
    ensures tree { IsTree (length counts.new / 2) counts.new }
    ensures leaves { leaves counts.new ≡ leaves counts.old }
{
    let mut i = counts.len() / 2;
    'down: while i > 1 {
        i -= 1;
        add_up(counts, i);
    }
}
