// What variables hold, and what activities end with.
use crate::{GlobalRef, PlaceId};

/// What a variable holds: a 64-bit signed number, or a reference.
#[derive(Clone, Copy, Debug, PartialEq, Eq)]
pub enum Value {
    /// A number.
    Num(i64),
    /// A reference to a block of some place.
    Ref(GlobalRef),
}

/// What a statement may raise. docs/semantics.md says under "Faults" when each comes.
#[derive(Clone, Copy, Debug, PartialEq, Eq)]
pub enum Fault {
    /// Activities were lost at a place that died.
    Dead(PlaceId),
    /// `throw` with this value.
    Thrown(i64),
    /// A number left the range of 64 bits.
    Overflow,
    /// There is no place with that number.
    NoPlace,
    /// The reference is to a block of another place.
    WrongPlace,
    /// The block of the reference was forgotten.
    Stale,
    /// The index is outside the block.
    Index,
    /// No hole of the heap has so many words.
    HeapFull,
}
