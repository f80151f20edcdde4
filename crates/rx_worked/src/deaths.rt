// Worked histories of deaths: who is waited for, who is lost, when a place may die, and where an event may be stamped.
ghost use Rattle.rx_rules.specs.Examples.{ordinary_script, ordinary_setup, ordinary_case, ordinary_case_journals, source_script};
ghost use Rattle.rx_rules.specs.Examples.{masked_script};
ghost use Rattle.rx_rules.specs.Inversions.{BeginsNoRun};
ghost use Rattle.rx_rules.specs.Run.{IsRun};
ghost use Rattle.rx_worked.specs.Deaths.{leaves_orphan, at_leaves_orphan, first_kill_setup, born_struck, born_struck_journals};
ghost use Rattle.rx_worked.specs.Deaths.{arrives_at_dead, async_inside_script, at_and_async, at_and_async_journals, KillOneEntryEarly};
ghost use Rattle.rx_worked.specs.Deaths.{make_script, makes_between, stamped, StampIsBetween, both_die_setup, both_die};
ghost use Rattle.rx_worked.specs.Deaths.{both_die_journals, late_kill_setup, both_at_once_setup, both_at_once, both_at_once_journals};
ghost use Rattle.rx_worked.specs.Deaths.{held_fault_setup, held_fault, held_fault_journals};

/// A law: no scope is released while a task under a scope below it runs on, whose own finish died.
pub fn orphans_are_waited_for()
    ensures { BeginsNoRun 4 leaves_orphan }
{}

/// A law: no `at` is released while a task that its lost callee left behind runs on.
pub fn at_waits_for_orphans()
    ensures { BeginsNoRun 3 at_leaves_orphan }
{}

/// A law: a task that is started for a dead place is lost there, and its finish says so.
pub fn task_for_a_dead_place_is_lost()
    ensures { IsRun ordinary_script first_kill_setup born_struck born_struck_journals }
{}

/// A law: a task that is started for a dead place does not arrive.
pub fn none_arrives_at_a_dead_place()
    ensures { BeginsNoRun 2 arrives_at_dead }
{}

/// A law: a task that is started inside an `at` hangs under the finish, so that the `at` does not wait for it and the finish does.
pub fn async_inside_at_hangs_under_finish()
    ensures { IsRun async_inside_script ordinary_setup at_and_async at_and_async_journals }
{}

/// A law: no kill is done an entry early.
pub fn kill_one_entry_early_is_no_run()
    ensures { KillOneEntryEarly }
{}

/// A law: a block that is made between two entries may have the stamp of that moment.
pub fn stamp_between_entries_is_a_run()
    ensures { IsRun make_script ordinary_setup makes_between (stamped 1) }
{}

/// A law: an event is stamped after the entry before it and not after the entry behind it.
pub fn stamp_of_another_entry_is_no_run()
    ensures { StampIsBetween }
{}

/// A law: a second death does not strike a struck task again.
pub fn struck_once()
    ensures { IsRun source_script both_die_setup both_die both_die_journals }
{}

/// A law: a kill that is due after the last entry is not done.
pub fn kill_past_the_end_is_a_run()
    ensures { IsRun ordinary_script late_kill_setup ordinary_case ordinary_case_journals }
{}

/// A law: of two kills at one moment the second is done right after the first.
pub fn two_kills_at_one_moment_are_a_run()
    ensures { IsRun ordinary_script both_at_once_setup both_at_once both_at_once_journals }
{}

/// A law: a fault that a finish held when its place died is counted by the release outside it.
pub fn held_fault_is_masked()
    ensures { IsRun masked_script held_fault_setup held_fault held_fault_journals }
{}
