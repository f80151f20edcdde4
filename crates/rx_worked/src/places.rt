// Worked histories of places that join: what a census counts, and which places a task knows.
ghost use Rattle.rx_rules.specs.Examples.{joining_script};
ghost use Rattle.rx_rules.specs.Inversions.{BeginsNoRun};
ghost use Rattle.rx_rules.specs.Run.{IsRun};
ghost use Rattle.rx_worked.specs.Places.{away_script, counted_script, child_script, number_script, joined_setup, dead_setup, no_events};
ghost use Rattle.rx_worked.specs.Places.{never_counted, joined_since, joined_before, counted_later, never_joined, counts_dead};
ghost use Rattle.rx_worked.specs.Places.{counts_dead_journals, counts_living, starts_unknown};
ghost use Rattle.rx_worked.specs.Statements.{IsNoRun};

/// A law: a place that has joined does not exist for a task that has not counted since.
pub fn joined_place_is_unknown()
    ensures { IsRun away_script (joined_setup 0) never_counted no_events }
{}

/// A law: nor does one that joins after the task's last census.
pub fn place_joined_since_is_unknown()
    ensures { IsRun counted_script (joined_setup 1) joined_since no_events }
{}

/// A law: a census lets the task start tasks at the places that have joined before it.
pub fn counted_place_is_known()
    ensures { IsRun counted_script (joined_setup 0) joined_before no_events }
{}

/// A law: a task knows as many places as its starter knew when it was started, and not what that learns later.
pub fn child_knows_what_its_starter_knew()
    ensures { IsRun child_script (joined_setup 0) counted_later no_events }
{}

/// A law: a join that is due after the last entry is not done, and has a journal without events.
pub fn join_past_the_end_is_a_run()
    ensures { IsRun joining_script (joined_setup 50) never_joined no_events }
{}

/// A law: a census counts dead places too.
pub fn dead_places_are_counted()
    ensures { IsRun number_script dead_setup counts_dead counts_dead_journals }
{}

/// A law: no census leaves out a dead place.
pub fn census_of_the_living_is_no_run()
    ensures { BeginsNoRun 2 counts_living }
{}

/// A law: no task starts a task at a place that it does not know.
pub fn start_at_an_unknown_place_is_no_run()
    ensures { IsNoRun away_script (joined_setup 0) starts_unknown }
{}
