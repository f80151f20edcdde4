// Wrong histories that are not legal, each for one rule of legal histories.
ghost use Rattle.std.specs.Prelude.{[], ◌∷◌, ◌++◌};
ghost use Rattle.rx_rules.specs.Code.{Nothing};
ghost use Rattle.rx_rules.specs.Examples.{joining_script, joining_setup};
ghost use Rattle.rx_parts.specs.Ledger.{LegalLedger};
ghost use Rattle.rx_parts.specs.Places.{MayMake, LegalPlace};
ghost use Rattle.rx_parts.specs.Parts.{AreParts};
ghost use Rattle.rx_parts_bounds.specs.Examples.{maker_script, maker_setup, maker_arrives, maker_at_work, maker_lost, maker_events};
ghost use Rattle.rx_parts_bounds.specs.Examples.{makers_script, makers_setup, joining_history};
ghost use Rattle.rx_parts_bounds.specs.Refused.{names_nothing, by_another, names_later, late_death_setup, after_the_root};
ghost use Rattle.rx_parts_bounds.specs.Refused.{made_early, made_on_the_way, made_first, made_second, made_larger, made_twice};
ghost use Rattle.rx_parts_bounds.specs.Refused.{after_first, made_by_another, made_after_the_end, after_both};
ghost use Rattle.rx_parts_bounds.specs.Refused.{stamps_fall, forgets_an_entry};

/// A law: no task goes past a store call whose event its entry does not name.
pub fn unnamed_event_is_not_legal()
    ensures { LegalLedger maker_script maker_setup names_nothing → ⊥ }
{}

/// A law: no entry of a task is by a caller who does not hold the task.
pub fn entry_by_another_is_not_legal()
    ensures { LegalLedger maker_script maker_setup by_another → ⊥ }
{}

/// A law: no entry names an event whose stamp is above its number.
pub fn event_named_too_soon_is_not_legal()
    ensures { LegalLedger maker_script maker_setup names_later → ⊥ }
{}

/// A law: nothing stands behind the release of the root.
pub fn entry_behind_the_root_is_not_legal()
    ensures { LegalLedger Nothing late_death_setup after_the_root → ⊥ }
{}

/// A law: an event is stamped above each entry of its task that its place had seen.
pub fn early_stamp_is_not_legal()
    ensures { MayMake maker_script maker_setup 1 [] made_early → ⊥ }
{}

/// A law: no task makes an event before it arrives.
pub fn event_before_the_arrival_is_not_legal()
    ensures { MayMake maker_script maker_setup 1 [] made_on_the_way → ⊥ }
{}

/// A law: no task makes an event at another place than its own.
pub fn event_elsewhere_is_not_legal()
    ensures { MayMake maker_script maker_setup 0 [] made_first → ⊥ }
{}

/// A law: no event stands behind an entry whose events its place does not have.
pub fn event_without_the_named_is_not_legal()
    ensures { MayMake maker_script maker_setup 1 [] made_second → ⊥ }
{}

/// A law: no event is another than the one that the term asks for.
pub fn another_event_is_not_legal()
    ensures { MayMake maker_script maker_setup 1 after_first made_larger → ⊥ }
{}

/// A law: no statement makes its event twice.
pub fn event_made_twice_is_not_legal()
    ensures { MayMake maker_script maker_setup 1 after_first made_twice → ⊥ }
{}

/// A law: no event is by the caller who makes another task's events.
pub fn event_by_another_is_not_legal()
    ensures { MayMake makers_script makers_setup 0 [] made_by_another → ⊥ }
{}

/// A law: no event stands behind the end of its task.
pub fn event_after_the_end_is_not_legal()
    ensures { MayMake makers_script makers_setup 0 after_both made_after_the_end → ⊥ }
{}

/// A law: no stamp of a place is below the one before.
pub fn falling_stamps_are_not_legal()
    ensures { LegalPlace makers_script makers_setup 0 stamps_fall → ⊥ }
{}

/// A law: no place forgets what it has seen of the ledger.
pub fn forgetful_place_is_not_legal()
    ensures { LegalPlace makers_script makers_setup 0 forgets_an_entry → ⊥ }
{}

/// A law: no place lacks an event that an entry names.
pub fn missing_event_is_no_parts()
    ensures { AreParts maker_script maker_setup (maker_at_work ++ maker_lost) ([] ∷ [] ∷ []) → ⊥ }
{}

/// A law: no place is left out that joins.
pub fn joined_place_left_out_is_no_parts()
    ensures { AreParts joining_script joining_setup joining_history ([] ∷ []) → ⊥ }
{}

/// A law: no place has seen an entry that the ledger does not have.
pub fn place_ahead_of_the_ledger_is_no_parts()
    ensures { AreParts maker_script maker_setup maker_arrives ([] ∷ maker_events ∷ []) → ⊥ }
{}
