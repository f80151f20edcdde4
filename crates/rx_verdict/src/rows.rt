// Worked pairs of a history and its journals, each with its verdict.
ghost use Rattle.std.specs.Prelude.{[]};
ghost use Rattle.rx_rules.specs.Code.{Nothing};
ghost use Rattle.rx_rules.specs.Examples.{ordinary_script, stale_script, ordinary_setup, kill_setup, ordinary_case, ordinary_case_journals};
ghost use Rattle.rx_rules.specs.Examples.{loss_in_transit, stale_reference, stale_reference_journals, p};
ghost use Rattle.rx_verdict.specs.declared.verdict.Verdict.TheVariants.{Run, Entry, End, Event, Open};
ghost use Rattle.rx_verdict.specs.Verdicts.{IsVerdict};
ghost use Rattle.rx_verdict.specs.Rows.{exchanged, no_events, closed_at, wrong_refusal, heaps_of, new_script, new_case, stamped};

/// The ordinary case is a whole run.
pub fn ordinary_case_is_run()
    ensures { IsVerdict ordinary_script ordinary_setup ordinary_case ordinary_case_journals Run }
{}

/// Where its finish is released before its task has ended, that release is the flaw.
pub fn early_release_is_flaw()
    ensures { IsVerdict ordinary_script ordinary_setup exchanged ordinary_case_journals (Entry 5) }
{}

/// A loss in transit with the close of its place is a whole run.
pub fn loss_in_transit_is_run()
    ensures { IsVerdict ordinary_script kill_setup loss_in_transit (closed_at 3) Run }
{}

/// Without the kill, the death is the flaw.
pub fn unplanned_death_is_flaw()
    ensures { IsVerdict ordinary_script ordinary_setup loss_in_transit (closed_at 3) (Entry 3) }
{}

/// Without the close, the place that died is the flaw.
pub fn missing_close_is_flaw()
    ensures { IsVerdict ordinary_script kill_setup loss_in_transit no_events (Open (p 1)) }
{}

/// A close at another moment is the flaw.
pub fn late_close_is_flaw()
    ensures { IsVerdict ordinary_script kill_setup loss_in_transit (closed_at 4) (Event (p 1) 0) }
{}

/// The stale reference is a whole run.
pub fn stale_reference_is_run()
    ensures { IsVerdict stale_script ordinary_setup stale_reference stale_reference_journals Run }
{}

/// Where the event tells another refusal, the task makes no entry that tells this one.
pub fn wrong_refusal_is_flaw()
    ensures { IsVerdict stale_script ordinary_setup stale_reference wrong_refusal (Entry 0) }
{}

/// In a heap of two words the first block of three words is the flaw.
pub fn small_heap_is_flaw()
    ensures { IsVerdict stale_script (heaps_of 2) stale_reference stale_reference_journals (Event (p 0) 0) }
{}

/// An event whose stamp is that of the entry which follows it is part of a whole run.
pub fn new_case_is_run()
    ensures { IsVerdict new_script (heaps_of 256) new_case (stamped 0) Run }
{}

/// With a stamp past that entry it is the flaw.
pub fn late_stamp_is_flaw()
    ensures { IsVerdict new_script (heaps_of 256) new_case (stamped 1) (Event (p 0) 0) }
{}

/// Where nothing is told of a script, the end is missing.
pub fn no_entries_are_no_end()
    ensures { IsVerdict Nothing ordinary_setup [] no_events End }
{}
