// Worked histories that are parts: main tasks and others, places that make nothing, tasks that are lost, a place that joins.
ghost use Rattle.std.specs.Prelude.{◌<◌, List, [], ◌∷◌, ◌++◌, length};
ghost use Rattle.rx_rules.specs.Code.{work};
ghost use Rattle.rx_rules.specs.Examples.{adoption_script, adoption_setup, full_script, full_setup, joining_script, joining_setup};
ghost use Rattle.rx_parts.specs.Ledger.{LedgerItem};
ghost use Rattle.rx_parts.specs.Places.{LegalPlace};
ghost use Rattle.rx_parts.specs.Parts.{AreParts};
ghost use Rattle.rx_parts_bounds.specs.Examples.{adoption_history, joining_history, full_history, full_events};
ghost use Rattle.rx_parts_bounds.specs.Examples.{maker_script, maker_setup, maker_at_work, maker_lost, maker_events};
ghost use Rattle.rx_parts_bounds.specs.Examples.{joined_script, joined_setup, joined_arrives, joined_lost, joined_events};
ghost use Rattle.rx_parts_bounds.specs.Examples.{makers_script, makers_setup, makers_start, makers_print, makers_end, makers_events};
ghost use Rattle.rx_parts_bounds.specs.TwoWays.{ways_script, ways_events};

/// A law: a task makes a block and names it, makes another, and is lost. What it did after its last entry its place tells alone.
pub fn lost_maker_is_parts()
    ensures { AreParts maker_script maker_setup (maker_at_work ++ maker_lost) ([] ∷ maker_events ∷ []) }
{}

/// A law: the worked adoption is parts, of four places that made nothing.
pub fn adoption_is_parts()
    ensures { AreParts adoption_script adoption_setup adoption_history ([] ∷ [] ∷ [] ∷ [] ∷ []) }
{}

/// A law: so is the worked place that joins, which has a history of its own.
pub fn joining_place_is_parts()
    ensures { AreParts joining_script joining_setup joining_history ([] ∷ [] ∷ []) }
{}

/// A law: a task makes a block at a place that has joined, and is lost there before an entry names the block.
pub fn lost_at_joined_place_is_parts()
    ensures { AreParts joined_script joined_setup (joined_arrives ++ joined_lost) ([] ∷ joined_events ∷ []) }
{}

/// A law: two tasks make blocks at one place, and the one that made its block later names it first.
pub fn two_makers_are_parts()
    ensures { AreParts makers_script makers_setup ((makers_start ++ makers_print) ++ makers_end) (makers_events ∷ []) }
{}

/// A law: the worked full heap is parts, where one entry names four events and the next one.
pub fn full_heap_is_parts()
    ensures { AreParts full_script full_setup full_history (full_events ∷ [] ∷ []) }
{}

/// A law: a place's history alone may tell both ways of an `if`, and so more events than the script's work.
pub fn both_ways_are_legal_alone()
    ensures legal { LegalPlace ways_script makers_setup 0 ways_events }
    ensures more { work ways_script < length ways_events }
{}

/// A law: no ledger has parts with it. The way that the task goes stands in its entries.
pub fn both_ways_are_no_parts()
    ensures { (h : List LedgerItem) → AreParts ways_script makers_setup h (ways_events ∷ []) → ⊥ }
{}
