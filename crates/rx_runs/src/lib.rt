//! Picked runs: runs in which a list of numbers tells which of the enabled tasks moves at each turn. Each is a whole run, there
//! is one for each list of picks and no more than one, and it comes to its end within a bound that the script's work gives. The
//! crate stands on rx_rules and rx_tree_laws and holds no code but laws over the definitions: each public function has an empty body,
//! and its contract is the law. The machine and the programs above it use them; specs/ has the statements, docs/trust.md says
//! each in words.
#![tactic(auto)]

ghost use Rattle.rx_runs.specs.PickedRuns.{PickedIsRun, OnePickedRun, FewPicks, NextTurn, HasPickedRun};
ghost use Rattle.rx_runs.specs.Games.{StartsOk, TurnKeeps};
ghost use Rattle.rx_runs.specs.Bounds.{TurnsBounded, EntriesBounded};
ghost use Rattle.rx_runs.specs.Costs.{TermSpends};
ghost use Rattle.rx_runs.specs.Steps.{TermSinks};
ghost use Rattle.rx_runs.specs.AnyAnswers.{StepsBounded, MadeBounded, RunIsMade};
ghost use Rattle.rx_runs.specs.Endings.{EveryoneEnds};
ghost use Rattle.rx_runs.specs.Framing.{StartsFit, TurnKeepsFit};
ghost use Rattle.rx_runs.specs.Coming.{GamesCome, GamesGoOn};
ghost use Rattle.rx_runs.specs.Left.{FewLeft, GoingSinks};
ghost use Rattle.rx_runs.specs.SomeWords.{ComesSome, GoesSome};
ghost use Rattle.rx_runs.specs.Events.{FewEvents, GoingTells};
ghost use Rattle.rx_runs.specs.Knowing.{LocalKnowing, GoesKnowing, ComesKnowing, TurnKnowing};

/// A law: under a proper setup a picked run is a run.
pub fn picked_run_is_run()
    ensures { PickedIsRun }
{}

/// A law: before the first turn all that turns keep holds.
pub fn opening_game_is_sound()
    ensures { StartsOk }
{}

/// A law: each turn that does not release the root keeps it.
pub fn turns_keep_sound()
    ensures { TurnKeeps }
{}

/// A law: turns from the opening are at most `4 * work + 2 * places + 3 * joins + 8`.
pub fn turns_are_bounded()
    ensures { TurnsBounded }
{}

/// A law: their history has at most `4 * work + places + 2 * joins + 1` entries.
pub fn entries_are_bounded()
    ensures { EntriesBounded }
{}

/// A law: one script, setup and list of picks give at most one history and one list of journals.
pub fn picked_run_is_one()
    ensures { OnePickedRun }
{}

/// A law: from each game that has not ended a turn can be made, whatever the pick.
pub fn next_turn_exists()
    ensures { NextTurn }
{}

/// A law: for each script, proper setup and list of picks there is a picked run.
pub fn picked_run_exists()
    ensures { HasPickedRun }
{}

/// A law: a run uses at most as many picks as it has turns.
pub fn few_picks_are_used()
    ensures { FewPicks }
{}

/// A law: before the first turn each term fits to the tree.
pub fn opening_terms_fit()
    ensures { StartsFit }
{}

/// A law: each turn that does not release the root keeps that each unstruck task's term fits to its scopes.
pub fn turns_keep_fit()
    ensures { TurnKeepsFit }
{}

/// A law: in a whole run each task ends, but for those that a death struck and a release removed.
pub fn everyone_ends()
    ensures { EveryoneEnds }
{}

/// A law: the terms of all tasks make at most `3 * work + 1` steps, whatever the store answers.
pub fn steps_are_bounded()
    ensures { StepsBounded }
{}

/// A law: the entries of a whole run are made by the terms in so many steps.
pub fn run_is_made()
    ensures { RunIsMade }
{}

/// A law: a list of allowed entries that terms make has at most `4 * work + places + 2 * joins + 1`, whatever the store answers.
pub fn made_entries_are_bounded()
    ensures { MadeBounded }
{}

/// A law: each step of a term leaves fewer steps than before.
pub fn terms_sink()
    ensures { TermSinks }
{}

/// A law: each step of a term costs no more entries than the term may still make.
pub fn terms_spend()
    ensures { TermSpends }
{}

/// A law: a game that turns have made from the opening of a proper setup keeps what turns keep, and its entries, tasks and
/// scopes are few.
pub fn games_come()
    ensures { GamesCome }
{}

/// A law: such a game has a next turn, whatever the pick.
pub fn games_go_on()
    ensures { GamesGoOn }
{}

/// A law: in each game that turns have made from the opening each task's term has at most `3 * work` steps left.
pub fn few_steps_are_left()
    ensures { FewLeft }
{}

/// A law: local steps and store calls leave a term no more steps than it had.
pub fn going_sinks()
    ensures { GoingSinks }
{}

/// A law: where each `new` of the script asks for at least one word, so do those of the terms of each game that turns have made.
pub fn terms_make_some()
    ensures { ComesSome }
{}

/// A law: local steps and store calls keep it, and the term then asks so.
pub fn going_makes_some()
    ensures { GoesSome }
{}

/// A law: in each game that turns have made from the opening of a proper setup, a journal's events and the steps that a task has
/// left which has not ended are together at most `3 * work` and the entries.
pub fn few_events_are_told()
    ensures { FewEvents }
{}

/// A law: each event that local steps and store calls tell costs a step.
pub fn going_tells()
    ensures { GoingTells }
{}

/// A law: a local step leaves how many places a task knows of.
pub fn local_steps_tell_no_places()
    ensures { LocalKnowing }
{}

/// A law: so do local steps and store calls of a turn.
pub fn going_tells_no_places()
    ensures { GoesKnowing }
{}

/// A law: in each game that turns have made no task knows of more places than there are.
pub fn known_places_are_there()
    ensures { ComesKnowing }
{}

/// A law: in a turn no task comes to know of fewer places, and no place leaves.
pub fn known_places_stay()
    ensures { TurnKnowing }
{}
