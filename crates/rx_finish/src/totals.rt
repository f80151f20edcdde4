// The totals of a tree, which a summary of a run shows. docs/semantics.md states what stands and what travels under "Activities and
// scopes".
ghost use Rattle.rx_finish.specs.Totals.{TotalsTell};

/// How much there is in a tree of tasks and scopes.
#[derive(Clone, Copy, Debug, PartialEq, Eq)]
pub struct Totals {
    /// The scopes that are not released.
    pub scopes: u32,
    /// The unstruck tasks at a place.
    pub live: u32,
    /// The unstruck tasks that travel.
    pub travel: u32,
}

/// A law: what the totals of trees of two worked histories are. It does nothing when it runs.
pub fn totals_tell()
    ensures { TotalsTell }
{}
