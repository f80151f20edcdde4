//! The verdict on a history and its journals: the first flaw, or that they are a whole run. The crate has the type of verdicts and,
//! in specs/, the definitions of a part of a run, of a good event and of the verdict, and laws over these definitions, each a public
//! function with an empty body whose contract is the law. The first laws are for a reader of verdicts: two verdicts on one pair are the
//! same; under a proper setup, with one journal for each place, the verdict is `Run` exactly where the pair is a whole run; when one
//! entry more is a part of a run, and when one event more is good. The others are the steps of the pass over the entries that the layer
//! above makes. The lemmas below the laws are in proofs/.
//!
//! It has the events' side of a verdict too: how many of the first events of a journal are those of a store, which event of all
//! journals is the first that has no cause, and which place died and was not closed. The layer above marks each event that a task makes;
//! it uses that the first event without its cause is then the first that is not good. It stands on rx_store, whose blocks replay the
//! journals, on rx_kills for the deaths, and on the laws of rx_tree_laws and rx_runs. docs/semantics.md states the rules under "Verdicts".
#![tactic(auto)]

ghost use Rattle.rx_verdict.specs.Verdicts.{OneVerdict, RunIsVerdict, VerdictIsRun};
ghost use Rattle.rx_verdict.specs.Goods.{GoodGoesOn, GoodTogether};
ghost use Rattle.rx_verdict.specs.Parts.{PartBegins, PartGoesOn};
ghost use Rattle.rx_verdict.specs.Marks.{EntriesToCome, AwayEvent};
ghost use Rattle.rx_verdict.specs.Seats.{SeatsTell, PartFollows, SeatsWalk, SeatAsks, SeatEnds, SeatArrives, SeatRefuses};

mod asking;
mod closes;
pub mod event_laws;
mod flaws;
mod judging;
mod marks;
mod replay;
pub mod rows;
mod verdict;

pub use closes::first_unclosed;
pub use flaws::{EventAt, first_flaw};
pub use judging::judge_events;
pub use marks::Marks;
pub use replay::lawful_events;
pub use verdict::Verdict;

/// A law: two verdicts on one pair are the same.
pub fn verdict_is_one()
    ensures { OneVerdict }
{}

/// A law: of a whole run the verdict is `Run`.
pub fn run_has_verdict()
    ensures { RunIsVerdict }
{}

/// A law: where the verdict is `Run`, history and journals are a whole run, if the setup is proper and each place has one journal.
pub fn verdict_is_run()
    ensures { VerdictIsRun }
{}

/// A law: no entries are a part of a run, and each beginning of a part is one.
pub fn parts_begin()
    ensures { PartBegins }
{}

/// A law: one entry more is a part of a run exactly where the tree allows it, no release of the root stands before it, it is in
/// time, and all terms make their entries with it.
pub fn parts_go_on()
    ensures { PartGoesOn }
{}

/// A law: after good events an event is good exactly where the journal up to it meets the law of stores, no stamp falls, and a
/// term makes it with its stamp between the entries, or it is the close at the place's death.
pub fn good_events_go_on()
    ensures { GoodGoesOn }
{}

/// A law: so all events are good before the first for which that fails, and all where it holds of all.
pub fn events_are_good_together()
    ensures { GoodTogether }
{}

/// A law: the entries to come of a task, one entry at a time.
pub fn entries_come()
    ensures { EntriesToCome }
{}

/// A law: no event of a task that travels still has its cause.
pub fn travellers_tell_nothing()
    ensures { AwayEvent }
{}

/// A law: what the seats of the pass tell of the entries so far.
pub fn seats_tell()
    ensures { SeatsTell }
{}

/// A law: where one entry more is a part of a run, it may follow: the tree allows it, none releases the root, and it is in time.
pub fn parts_may_follow()
    ensures { PartFollows }
{}

/// A law: between two entries a task walks on, and no other seat changes.
pub fn seats_walk()
    ensures { SeatsWalk }
{}

/// A law: a player that waits for the ledger makes the entry exactly where it is its request, and then goes on.
pub fn seats_ask()
    ensures { SeatAsks }
{}

/// A law: a player whose term is done makes the entry exactly where it is that end, and then its seat is over.
pub fn seats_end()
    ensures { SeatEnds }
{}

/// A law: a task that travels makes the entry exactly where it is its arrival, and then stands at its start.
pub fn seats_arrive()
    ensures { SeatArrives }
{}

/// A law: a task that halts at a store call, or has ended, makes no entry.
pub fn seats_refuse()
    ensures { SeatRefuses }
{}
