//! What a run is given and what it leaves: setups with their kills, histories, and journals; and what a task asks next (`Next`), and of
//! a ledger (`Ask`). It stands on rx_base and rx_rules. The layers above see a history as its setup and its list of entries, journals
//! as lists of events, and a kill list as kills in ascending order, and append without taking memory what they have made room for.
//! docs/semantics.md states the rules under "Runs" and "The history".
#![tactic(auto)]

mod asks;
mod history;
mod journal;
pub mod laws;
mod setup;
mod step;

pub use asks::Ask;
pub use history::History;
pub use journal::{Journal, Journals};
pub use rx_rules::{Act, Cell, Entry, PlaceEvent};
pub use setup::{JoinList, KillList, Setup, joins_never_fall, kills_ascend};
pub use step::{CellOp, Next, Want};
