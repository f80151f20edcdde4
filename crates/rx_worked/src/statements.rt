// Laws of statements and stores, each the contract of a function that does nothing.
ghost use Rattle.rx_rules.specs.Examples.{ordinary_setup, kill_setup, loss_in_transit_journals};
ghost use Rattle.rx_rules.specs.Inversions.{BeginsNoRun};
ghost use Rattle.rx_rules.specs.Run.{IsRun};
ghost use Rattle.rx_worked.specs.Statements.{IsNoRun, StoresNoRun, no_events, turns_script, turns, copied_script, copied, dead_script};
ghost use Rattle.rx_worked.specs.Statements.{not_caught, any_script, caught, in_order_script, in_order, too_large_script, too_large};
ghost use Rattle.rx_worked.specs.Statements.{used_away_script, used_away, used_away_journals, values_script, values, kept_script, kept};
ghost use Rattle.rx_worked.specs.Statements.{kept_journals, nowhere_script, nowhere, full_beside_hole, not_at_least, another_word};
ghost use Rattle.rx_worked.specs.Statements.{mixed_script, mixed, swallows_fault, value_script, other_value, ends_early};

/// A law: a repeat makes its turns, each with the variables of the one before, and an if runs its first block unless it has 0.
pub fn repeat_and_if_run()
    ensures { IsRun turns_script ordinary_setup turns no_events }
{}

/// A law: a task has its starter's variables as they were when it was started.
pub fn child_has_its_starter_variables()
    ensures { IsRun copied_script ordinary_setup copied no_events }
{}

/// A law: a `catch dead` lets a thrown number pass.
pub fn catch_dead_lets_numbers_pass()
    ensures { IsRun dead_script ordinary_setup not_caught no_events }
{}

/// A law: a `catch` without `dead` catches it.
pub fn catch_takes_numbers()
    ensures { IsRun any_script ordinary_setup caught no_events }
{}

/// A law: a release throws the fault of the body and then those of the tasks, in the order of their ends.
pub fn body_faults_come_first()
    ensures { IsRun in_order_script ordinary_setup in_order no_events }
{}

/// A law: a release raises its dead places before what was thrown, and a `catch dead` takes no list with a number in it.
pub fn dead_places_come_first()
    ensures { IsRun mixed_script kill_setup mixed loss_in_transit_journals }
{}

/// A law: no release swallows the fault of a task.
pub fn swallowed_fault_is_no_run()
    ensures { BeginsNoRun 2 swallows_fault }
{}

/// A law: a number that leaves the range of 64 bits is raised, and not printed.
pub fn overflow_is_thrown()
    ensures { IsRun too_large_script ordinary_setup too_large no_events }
{}

/// A law: a reference that is used at another place than its block's raises a fault, and no store is asked.
pub fn reference_used_away_is_raised()
    ensures { IsRun used_away_script ordinary_setup used_away used_away_journals }
{}

/// A law: the operations and `here` have the values that their names say.
pub fn expressions_have_their_values()
    ensures { IsRun values_script ordinary_setup values no_events }
{}

/// A law: a block begins as zeros, keeps what is written, and refuses an index that is outside it.
pub fn words_are_kept()
    ensures { IsRun kept_script ordinary_setup kept kept_journals }
{}

/// A law: no other value is printed than that of the expression.
pub fn other_value_is_no_run()
    ensures { IsNoRun value_script ordinary_setup other_value }
{}

/// A law: no task ends while a statement is left to it.
pub fn early_end_is_no_run()
    ensures { IsNoRun value_script ordinary_setup ends_early }
{}

/// A law: a place that does not exist is raised, and no task is started.
pub fn missing_place_is_raised()
    ensures { IsRun nowhere_script ordinary_setup nowhere no_events }
{}

/// A law: no `new` is refused while a hole has room for its words, wherever that is.
pub fn refused_beside_a_hole_is_no_run()
    ensures { StoresNoRun 8 full_beside_hole }
{}

/// A law: no block is made at another start than the least that is free.
pub fn block_at_a_later_hole_is_no_run()
    ensures { StoresNoRun 8 not_at_least }
{}

/// A law: no other word is read than the one that was written.
pub fn other_word_is_no_run()
    ensures { StoresNoRun 8 another_word }
{}
