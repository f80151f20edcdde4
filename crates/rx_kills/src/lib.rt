//! What is planned for a run, deaths and joins, and when each place died: how a kill is written as a word, which events of the plan are
//! still to be done, and at which entry of a history each place died. It stands on rx_base, rx_text, rx_rules and rx_history.
//! The layers above use that `read_kill` gives exactly the kill whose text a word is, that `Kills` is seen as the list of the planned
//! events that are not done, in ascending order, of which `due` tells the least one where it is reached, and none exactly where none is.
//! Who goes through a history notes each death by `note_death`, or asks once for all of them by `deaths_of`.
#![tactic(auto)]

mod deaths;
pub mod laws;
mod schedule;
mod word;

pub use deaths::{deaths_of, no_deaths, note_death};
pub use schedule::{Due, Kills, left_ascend};
pub use word::read_kill;
