//! Laws of contracts. They do nothing when they run.
ghost use Rattle.rx_chronicle.specs.Noting.{NotesTell};
ghost use Rattle.rx_chronicle.specs.Uncovering.{UncoversParent};

/// A law: what a note tells of a scope that stands is so in the tree, but for the root.
pub fn notes_tell()
    ensures { NotesTell }
{}

/// A law: after a release the inner scope of its task is the parent of the released scope, as the history tells it.
pub fn release_uncovers_parent()
    ensures { UncoversParent }
{}
