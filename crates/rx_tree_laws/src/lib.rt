//! What holds of every tree that can be reached, and so of the tree of every history of allowed entries. It stands on rx_rules and
//! holds no code but laws over its definitions: each public function has an empty body, and its contract is the law. The ledgers, the
//! machine and the crate of picked runs use them; specs/ has the statements, docs/trust.md says each in words. Beside them stand laws
//! of what a task has still to run: when it waits at a scope and which scopes it has open, which of its steps begin a statement, and
//! which place such a step names; docs/semantics.md says under "What a task does" what a step is.
#![tactic(auto)]

ghost use Rattle.rx_tree_laws.specs.Sound.{ReachedSound};
ghost use Rattle.rx_tree_laws.specs.Histories.{FoldReached, DeadAsTold, RootStands};
ghost use Rattle.rx_tree_laws.specs.Histories.{WideFoldReached, WideDeadAsTold, WideRootStands};
ghost use Rattle.rx_tree_laws.specs.Owning.{OwnBelow, ReleaseSpares, ReleaseKeeps, ReleasePops, WaiterOwns, OpenersOlder, MeetsChain};
ghost use Rattle.rx_tree_laws.specs.Enabling.{GreatestEnabled, IdleIsQuiet, OthersStay, FreesOne, WayStays, WalkGoesUp, WalkEnds};
ghost use Rattle.rx_tree_laws.specs.TermLaws.{HeldReleases, StepsBegin, StoresAtHome, PlacesThere};

/// A law: each tree that can be reached is sound.
pub fn reached_is_sound()
    ensures { ReachedSound }
{}

/// A law: a history of allowed entries folds to a tree that can be reached.
pub fn fold_is_reached()
    ensures { FoldReached }
{}

/// A law: the dead places of that tree and the numbers of their deaths are those of the history.
pub fn dead_are_as_told()
    ensures { DeadAsTold }
{}

/// A law: until its release the root stands.
pub fn root_stands_until_released()
    ensures { RootStands }
{}

/// A law: whatever the limit of places, a history of allowed entries folds to a tree that can be reached.
pub fn wide_fold_is_reached()
    ensures { WideFoldReached }
{}

/// A law: whatever the limit of places, the dead places of that tree and the numbers of their deaths are those of the history.
pub fn wide_dead_are_as_told()
    ensures { WideDeadAsTold }
{}

/// A law: whatever the limit of places, the root stands until its release.
pub fn wide_root_stands_until_released()
    ensures { WideRootStands }
{}

/// A law: a task's own scopes stand below the scope that it hangs under.
pub fn own_scopes_stand_below()
    ensures { OwnBelow }
{}

/// A law: a release takes no own scope of another unstruck task.
pub fn release_spares_others()
    ensures { ReleaseSpares }
{}

/// A law: of another unstruck task all own scopes stay, in order.
pub fn release_keeps_others()
    ensures { ReleaseKeeps }
{}

/// A law: a release takes the newest own scope of the task that releases, and no other of its own.
pub fn release_pops_newest()
    ensures { ReleasePops }
{}

/// A law: an unstruck task that waits has a scope of its own.
pub fn waiter_has_scope()
    ensures { WaiterOwns }
{}

/// A law: a task is younger than the opener of each scope that it is under.
pub fn openers_are_older()
    ensures { OpenersOlder }
{}

/// A law: the walk over the scopes meets a scope exactly where that is on the chain.
pub fn walk_meets_chain()
    ensures { MeetsChain }
{}

/// A law: while an unstruck task is left, the one with the greatest number is enabled.
pub fn greatest_is_enabled()
    ensures { GreatestEnabled }
{}

/// A law: where no task is enabled, the root is quiet.
pub fn none_enabled_is_quiet()
    ensures { IdleIsQuiet }
{}

/// A law: an act after which its task still stands leaves every other task enabled, or not, as it was.
pub fn others_stay_enabled()
    ensures { OthersStay }
{}

/// A law: the end of a task leaves every other task enabled, or not, as it was, but for one, who opened a scope above it.
pub fn end_frees_one()
    ensures { FreesOne }
{}

/// A law: after the end of a task the scope that it hung under still leads to the root.
pub fn way_up_stays()
    ensures { WayStays }
{}

/// A law: each scope that leads to the root is the root, or has an opener and a parent that leads to the root.
pub fn walk_goes_up()
    ensures { WalkGoesUp }
{}

/// A law: the root has no opener above it.
pub fn walk_ends_at_root()
    ensures { WalkEnds }
{}

/// A law: a task releases exactly where it waits at a scope.
pub fn waiting_tasks_release()
    ensures { HeldReleases }
{}

/// A law: a store call and each request but a wait, a release and an end begin a statement.
pub fn requests_begin_statements()
    ensures { StepsBegin }
{}

/// A law: a store call asks the store of the place where the task is.
pub fn stores_are_asked_at_home()
    ensures { StoresAtHome }
{}

/// A law: a step names only places that the task knows to be there.
pub fn named_places_are_there()
    ensures { PlacesThere }
{}
