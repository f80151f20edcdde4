// The heap.
ghost use Rattle.std.specs.Prelude.{◌≡◌, ℕ, ◌+◌, ◌<◌, ◌≤◌, ◌++◌, ◌↔◌, pos, [], ◌∷◌, All, IfOk, IsErr, OnErr, length, take, drop};
ghost use Rattle.std.specs.Prelude.{replicate, slice_get, slice_set};
ghost use Rattle.rx_heap.specs.Region.{IsLiveExtent, IsFree, IsLeastFree, IsLaid};

use crate::holes::{GROUP, cut, fitting, put, raise};
use crate::{Block, Full, Hole};
use rx_base::NoMemory;
use std::alloc::Global;
use std::marker::Model;

/// A region of words, each a 64-bit signed number. Its live blocks and its holes are all its words, each once.
#[derive(Drop)]
pub struct Heap {
    words: Vec<i64>,
    holes: Vec<Hole>,
    // For each word the length of the live block that begins there, 0 where none does.
    lengths: Vec<u32>,
    // For each group of words a length that no hole which begins there exceeds.
    longest: Vec<u32>,
}

impl Model for Heap {
    ghost use Rattle.std.specs.Prelude.{vec_capacity};
    ghost use Rattle.rx_heap.specs.Region.{Region};
    ghost use Rattle.rx_heap.specs.Inside.Longest.{IsKept};

    ghost Value = { Region };

    ghost view = { λ h. record { words = h.words.items; holes = h.holes.items; lengths = h.lengths.items } };

    ghost invariant = { λ h. IsKept (record { words = h.words.items; holes = h.holes.items; lengths = h.lengths.items })
        (vec_capacity h.holes) h.longest.items };
}

impl Heap {
    /// A heap of so many words, which are one hole. It takes all memory that the heap will ever use.
    pub fn open(alloc: Global, words: u32) -> Result<Heap, NoMemory>
        requires some { 0 < words }
        requires most { words ≤ 4096 }
        ensures hole { IfOk result (λ h. h.holes ≡ record { start = 0; len = words } ∷ []) }
        ensures words { IfOk result (λ h. h.words ≡ replicate words (pos 0)) }
        ensures none_live { IfOk result (λ h. h.lengths ≡ replicate words 0) }
        ensures laid { IfOk result IsLaid }
    {
        let mut holes = Vec::with_capacity(alloc, words as usize / 2 + 1)?;
        holes.push(Hole {
            start: 0,
            len: words,
        })?;
        let mut longest = vec![in alloc; 0; words as usize / GROUP + 1]?;
        longest[0] = words;
        Ok(Heap {
            words: vec![in alloc; 0; words as usize]?,
            holes,
            lengths: vec![in alloc; 0; words as usize]?,
            longest,
        })
    }

    /// Takes n words at the front of the first hole that has so many, and fills them with 0. `Full` comes exactly where no
    /// hole has so many, and changes nothing. It takes no memory.
    pub fn take(&mut self, n: u32) -> Result<Block, Full>
        requires { 0 < n }
        ensures least { IfOk result (λ b. IsLeastFree self.old n b.start) }
        ensures len { IfOk result (λ b. b.len ≡ n) }
        ensures words { IfOk result (λ b. self.new.words
            ≡ take b.start self.old.words ++ (replicate n (pos 0) ++ drop (b.start + n) self.old.words)) }
        ensures live { IfOk result (λ b. self.new.lengths ≡ slice_set self.old.lengths b.start n) }
        ensures laid { IsLaid self.new }
        ensures full { IsErr result ↔ All (λ h. h.len < n) self.old.holes }
        ensures no_start { OnErr result ((a : ℕ) → IsFree self.old n a → ⊥) }
        ensures err { OnErr result (self.new ≡ self.old) }
    {
        let Some(i) = fitting(&self.holes, &mut self.longest, n) else {
            return Err(Full);
        };
        let Hole { start, len } = cut(&mut self.holes, i, n);
        raise(
            &mut self.longest,
            Hole {
                start: start + n,
                len: len - n,
            },
        );
        clear(&mut self.words, start as usize, n as usize);
        self.lengths[start as usize] = n;
        Ok(Block { start, len: n })
    }

    /// Gives a live block back, and merges it with the holes beside it. It takes no memory.
    pub fn give(&mut self, b: Block)
        requires { IsLiveExtent self.old b }
        ensures words { self.new.words ≡ self.old.words }
        ensures gone { self.new.lengths ≡ slice_set self.old.lengths b.start 0 }
        ensures laid { IsLaid self.new }
    {
        let Block { start, len } = b;
        self.lengths[start as usize] = 0;
        let joined = put(&mut self.holes, Hole { start, len });
        raise(&mut self.longest, joined);
    }

    /// Word i of a live block.
    pub fn read(&self, b: &Block, i: u32) -> i64
        requires live { IsLiveExtent self.now b.now }
        requires within { i < b.now.len }
        ensures { slice_get self.now.words (b.now.start + i) ≡ Some result }
    {
        self.words[b.start as usize + i as usize]
    }

    /// Makes a number word i of a live block.
    pub fn write(&mut self, b: &Block, i: u32, v: i64)
        requires live { IsLiveExtent self.old b.now }
        requires within { i < b.now.len }
        ensures word { self.new ≡ record self.old { words = slice_set self.old.words (b.now.start + i) v } }
        ensures laid { IsLaid self.new }
    {
        self.words[(b.start + i) as usize] = v;
    }

    /// The holes, in ascending order.
    pub fn holes(&self) -> &[Hole]
        ensures holes { result.now ≡ self.now.holes }
        ensures laid { IsLaid self.now }
    {
        &self.holes
    }
}

// Fills words with 0.
fn clear(words: &mut [i64], start: usize, n: usize)
    requires { start + n ≤ length words.old }
    ensures { words.new ≡ take start words.old ++ (replicate n (pos 0) ++ drop (start + n) words.old) }
{
    words[start..start + n].fill(0);
}
