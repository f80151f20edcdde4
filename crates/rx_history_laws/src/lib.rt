//! The laws of histories and journals, each the contract of a public function with an empty body. They stand on the rules of
//! rx_rules and on the laws of rx_tree_laws alone, and so hold of every run, whoever makes it: where a caller has shown that entries
//! are allowed, or that history and journals are a whole run, it calls the function and has the law. docs/semantics.md states
//! under "The laws" what each promises and what it does not.
#![tactic(auto)]

ghost use Rattle.std.specs.Prelude.{[]};
ghost use Rattle.rx_history_laws.specs.Releases.{NothingIsEarly, LossesAreExact, RunIsNotEarly, RunIsExact, RunMaskedIsLost};
ghost use Rattle.rx_history_laws.specs.Releases.{WideNothingIsEarly, WideLossesAreExact};
ghost use Rattle.rx_history_laws.specs.Once.{AllDiffer, EachIsToldOnce};
ghost use Rattle.rx_history_laws.specs.Ordered.{HistoryIsOrdered, RunIsOrdered};
ghost use Rattle.rx_history_laws.specs.Examples.{script, no_events, ordinary, lost_in_transit, early, early_at_work, early_elsewhere};
ghost use Rattle.rx_history_laws.specs.Examples.{unnamed};
ghost use Rattle.rx_history_laws.specs.Examples.{names_finished, named_again, twice_by_one, twice_by_two, twice_in_entry, print_too_soon};
ghost use Rattle.rx_history_laws.specs.Examples.{batch_too_soon, event_too_soon, masks_with_loss, masks_without_loss};
ghost use Rattle.rx_history_laws.specs.Examples.{root_masks_without_loss};
ghost use Rattle.rx_rules.specs.Inversions.{MaskedMeansLost, MaskedIsLost, WideMaskedIsLost};
ghost use Rattle.rx_rules.specs.Laws.{NoEarlyRelease, LossExact};
ghost use Rattle.rx_rules.specs.Order.{OrderKept, told};

/// Nothing is released early: in a history of at most 16 places whose entries are allowed, each task under a scope has ended or
/// is hit by a death before the scope is released.
pub fn nothing_is_early()
    ensures { NothingIsEarly }
{}

/// Losses are exact: in a history of at most 16 places whose entries are allowed, each release names exactly the places at
/// which tasks under its scope were lost since the releases inside it.
pub fn losses_are_exact()
    ensures { LossesAreExact }
{}

/// Nothing is released early in a whole run.
pub fn run_is_not_early()
    ensures { RunIsNotEarly }
{}

/// Losses are exact in a whole run.
pub fn run_is_exact()
    ensures { RunIsExact }
{}

/// Masked faults come with losses: in a history of 1 to 16 places whose entries are allowed, each release that counts faults of
/// scopes below its own names a lost place.
pub fn masked_is_lost()
    ensures { MaskedIsLost }
{}

/// Nothing is released early, whatever the limit of places.
pub fn wide_nothing_is_early()
    ensures { WideNothingIsEarly }
{}

/// Losses are exact, whatever the limit of places.
pub fn wide_losses_are_exact()
    ensures { WideLossesAreExact }
{}

/// Masked faults come with losses, whatever the limit of places.
pub fn wide_masked_is_lost()
    ensures { WideMaskedIsLost }
{}

/// Masked faults come with losses in a whole run.
pub fn run_masked_is_lost()
    ensures { RunMaskedIsLost }
{}

/// No statement instance is told twice in the history of a whole run.
pub fn each_is_told_once()
    ensures { EachIsToldOnce }
{}

/// The history of a whole run keeps the order of statements: where of two statements that it tells one is before the other, it
/// tells that one first.
pub fn history_is_ordered()
    ensures { HistoryIsOrdered }
{}

/// A whole run keeps the order of statements, in its history and within each journal.
pub fn run_is_ordered()
    ensures { RunIsOrdered }
{}

/// The law that nothing is released early computes: it holds of two short histories, and refuses three.
pub fn early_computes()
    ensures ordinary { NoEarlyRelease ordinary }
    ensures lost_in_transit { NoEarlyRelease lost_in_transit }
    ensures early { NoEarlyRelease early → ⊥ }
    ensures early_at_work { NoEarlyRelease early_at_work → ⊥ }
    ensures early_elsewhere { NoEarlyRelease early_elsewhere → ⊥ }
{}

/// The law that losses are exact computes.
pub fn losses_compute()
    ensures ordinary { LossExact ordinary }
    ensures lost_in_transit { LossExact lost_in_transit }
    ensures unnamed { LossExact unnamed → ⊥ }
    ensures names_finished { LossExact names_finished → ⊥ }
    ensures named_again { LossExact named_again → ⊥ }
{}

/// The law that masked faults come with losses computes.
pub fn masked_computes()
    ensures masks_with_loss { MaskedMeansLost masks_with_loss }
    ensures masks_without_loss { MaskedMeansLost masks_without_loss → ⊥ }
    ensures root_masks_without_loss { MaskedMeansLost root_masks_without_loss → ⊥ }
{}

/// The law that no statement instance is told twice computes.
pub fn once_computes()
    ensures ordinary { AllDiffer (told ordinary) }
    ensures lost_in_transit { AllDiffer (told lost_in_transit) }
    ensures twice_by_one { AllDiffer (told twice_by_one) → ⊥ }
    ensures twice_by_two { AllDiffer (told twice_by_two) → ⊥ }
    ensures twice_in_entry { AllDiffer (told twice_in_entry) → ⊥ }
{}

/// The law of order computes.
pub fn order_computes()
    ensures ordinary { OrderKept script ordinary no_events }
    ensures lost_in_transit { OrderKept script lost_in_transit no_events }
    ensures print_too_soon { OrderKept script print_too_soon no_events → ⊥ }
    ensures batch_too_soon { OrderKept script batch_too_soon no_events → ⊥ }
    ensures event_too_soon { OrderKept script [] event_too_soon → ⊥ }
{}
