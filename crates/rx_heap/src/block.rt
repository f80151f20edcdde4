// Blocks and holes.
ghost use Rattle.std.specs.Prelude.{◌≡◌};

use std::marker::Model;

/// A run of free words, with no free word beside it.
#[derive(Clone, Copy, Debug, PartialEq, Eq)]
pub struct Hole {
    /// Its first word.
    pub start: u32,
    /// How many words it has, at least 1.
    pub len: u32,
}

/// No hole has so many words.
#[derive(Clone, Copy, Debug, PartialEq, Eq)]
pub struct Full;

/// A live block. It comes from `Heap::take`, and is given back to that heap: it can be neither copied nor dropped.
pub struct Block {
    pub(crate) start: u32,
    pub(crate) len: u32,
}

impl Model for Block {
    ghost use Rattle.rx_heap.specs.Region.{Extent};

    ghost Value = { Extent };

    ghost view = { λ b. record { start = b.start; len = b.len } };
}

impl Block {
    /// Its first word.
    pub fn start(&self) -> u32
        ensures { result ≡ self.now.start }
    {
        self.start
    }

    /// How many words it has.
    pub fn len(&self) -> u32
        ensures { result ≡ self.now.len }
    {
        self.len
    }
}
