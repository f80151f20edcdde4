// Laws of the definitions, each the contract of a function that does nothing: worked histories are runs, wrong ones are not, and
// what no run has.
ghost use Rattle.std.specs.Prelude.{◌≡◌, ◌+◌, ℕ, List};
ghost use Rattle.rx_rules.specs.declared.entries.Entry.{Entry};
ghost use Rattle.rx_rules.specs.Examples.{ordinary_script, adoption_script, orphan_script, source_script, stale_script, full_script};
ghost use Rattle.rx_rules.specs.Examples.{ordinary_setup, kill_setup, adoption_setup, two_kills_setup, orphan_setup, source_setup};
ghost use Rattle.rx_rules.specs.Examples.{full_setup, ordinary_case, ordinary_case_journals, loss_in_transit, loss_in_transit_journals};
ghost use Rattle.rx_rules.specs.Examples.{adoption, adoption_journals, two_losses, two_losses_journals, at_waits, at_waits_journals};
ghost use Rattle.rx_rules.specs.Examples.{source_dies, source_dies_journals, stale_reference, stale_reference_journals, full_heap};
ghost use Rattle.rx_rules.specs.Examples.{full_heap_journals, early_release, runs_struck_message, names_finished_task};
ghost use Rattle.rx_rules.specs.Examples.{drops_adopted_losses, masked_script, masked_setup, masked_fault, masked_fault_journals};
ghost use Rattle.rx_rules.specs.Examples.{joining_script, joining_setup, joining_place, joining_place_journals, brief_setup};
ghost use Rattle.rx_rules.specs.Examples.{brief_place, brief_place_journals, joiner_setup, hides_masked_fault, skips_a_place};
ghost use Rattle.rx_rules.specs.Examples.{counts_too_many};
ghost use Rattle.rx_rules.specs.Fold.{tree_of, births};
ghost use Rattle.rx_rules.specs.Code.{Nothing};
ghost use Rattle.rx_rules.specs.Run.{IsRun, Proper};
ghost use Rattle.rx_rules.specs.Inversions.{BeginsNoRun, KillOneEntryLate, EndsLast, ArrivesFirst, NeverArrived, NumbersInOrder};

/// The ordinary case is a whole run: a task is started, travels, arrives, prints and ends, and its finish is released.
pub fn ordinary_case_is_a_run()
    ensures { IsRun ordinary_script ordinary_setup ordinary_case ordinary_case_journals }
{}

/// So is the same script where place 1 dies while the task travels to it.
pub fn loss_in_transit_is_a_run()
    ensures { IsRun ordinary_script kill_setup loss_in_transit loss_in_transit_journals }
{}

/// The nearest scope with a living home waits for a task whose own finish died.
pub fn adoption_is_a_run()
    ensures { IsRun adoption_script adoption_setup adoption adoption_journals }
{}

/// One release names both places that lost tasks.
pub fn two_losses_are_a_run()
    ensures { IsRun adoption_script two_kills_setup two_losses two_losses_journals }
{}

/// An `at` whose callee was lost waits for the tasks that it left behind.
pub fn waiting_at_is_a_run()
    ensures { IsRun orphan_script orphan_setup at_waits at_waits_journals }
{}

/// A task that travels from a place that dies is lost.
pub fn lost_source_is_a_run()
    ensures { IsRun source_script source_setup source_dies source_dies_journals }
{}

/// A reference to a forgotten block is stale, also where another block stands at its start.
pub fn stale_reference_is_a_run()
    ensures { IsRun stale_script ordinary_setup stale_reference stale_reference_journals }
{}

/// A `new` without a hole that is large enough raises a fault.
pub fn full_heap_is_a_run()
    ensures { IsRun full_script full_setup full_heap full_heap_journals }
{}

/// A finish that adopts a task counts the fault with which it ended.
pub fn masked_fault_is_a_run()
    ensures { IsRun masked_script masked_setup masked_fault masked_fault_journals }
{}

/// A place joins, is counted, and is where a task is started.
pub fn joining_place_is_a_run()
    ensures { IsRun joining_script joining_setup joining_place joining_place_journals }
{}

/// Of a join and a death that are due at once the join comes first.
pub fn brief_place_is_a_run()
    ensures { IsRun Nothing brief_setup brief_place brief_place_journals }
{}

/// No finish is released while a task under it travels.
pub fn early_release_is_no_run()
    ensures { BeginsNoRun 2 early_release }
{}

/// No message is run whose source died.
pub fn struck_message_is_no_run()
    ensures { BeginsNoRun 3 runs_struck_message }
{}

/// No release names the place of a task that had ended before the death.
pub fn named_finished_task_is_no_run()
    ensures { BeginsNoRun 2 names_finished_task }
{}

/// No release drops a loss that its scope has adopted.
pub fn dropped_loss_is_no_run()
    ensures { BeginsNoRun 4 drops_adopted_losses }
{}

/// No release hides a fault that it masks.
pub fn hidden_fault_is_no_run()
    ensures { BeginsNoRun 3 hides_masked_fault }
{}

/// No place joins but the next.
pub fn skipped_place_is_no_run()
    ensures { BeginsNoRun 1 skips_a_place }
{}

/// No census counts a place that has not joined.
pub fn early_census_is_no_run()
    ensures { BeginsNoRun 1 counts_too_many }
{}

/// A place that joins does not die before.
pub fn kill_before_join_is_not_proper()
    ensures { Proper (joiner_setup 4) → ⊥ }
{}

/// It may die at once.
pub fn kill_at_join_is_proper()
    ensures { Proper (joiner_setup 5) }
{}

/// No kill is done an entry late.
pub fn late_kill_is_no_run()
    ensures { KillOneEntryLate }
{}

/// Nothing of a task stands after its end, and so it ends at most once.
pub fn a_task_ends_last()
    ensures { EndsLast }
{}

/// A task that was started for another place arrives before anything else of it.
pub fn a_task_arrives_first()
    ensures { ArrivesFirst }
{}

/// A task that never arrived has no events.
pub fn no_arrival_no_events()
    ensures { NeverArrived }
{}

/// Tasks and scopes are numbered in the order of their births and openings.
pub fn numbers_are_in_order()
    ensures { NumbersInOrder }
{}

/// The next task number of a fold is one more than its births.
pub fn next_number_counts_births()
    ensures { (places : ℕ) (es : List Entry) → (tree_of places es).next_task ≡ 1 + births es }
{}
