// The numbers by which places, tasks, scopes and blocks are named.

/// The number of a place, from 0 to 15.
#[derive(Clone, Copy, Debug, PartialEq, Eq)]
pub struct PlaceId(pub u8);

/// The number of a task (an activity), in the order of births from 0. Task 0 is the main activity.
#[derive(Clone, Copy, Debug, PartialEq, Eq)]
pub struct TaskId(pub u32);

/// The number of a scope, in the order of openings from 0. Scope 0 is the root.
#[derive(Clone, Copy, Debug, PartialEq, Eq)]
pub struct ScopeId(pub u32);

/// A reference to a block of a place's heap. No two blocks of a place ever have one generation.
#[derive(Clone, Copy, Debug, PartialEq, Eq)]
pub struct GlobalRef {
    /// The place of the block.
    pub home: PlaceId,
    /// The block's first word.
    pub start: u32,
    /// The number of the `new` at that place that made it, from 1.
    pub generation: u32,
}

/// A planned death.
#[derive(Clone, Copy, Debug, PartialEq, Eq)]
pub struct Kill {
    /// The place that dies.
    pub place: PlaceId,
    /// The number of entries of the history from which on the death is due.
    pub moment: u32,
}
