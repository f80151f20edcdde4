//! Runs on one thread: the machine that makes the turns of a picked run, deaths and joins among them, over a chronicle of any ledger
//! that keeps its promises. It stands on rx_chronicle, rx_control, rx_rank, rx_store and the laws of rx_tree_laws and rx_runs. The layer
//! above uses `run`, which makes the turns that are left of the picked run of a program under a setup, or `turn` and `into_parts`, and
//! the laws of histories and journals, which stand in the module `laws`. Where picks come from stands here too: `Picks` are a list
//! (`ListPicks`), or the words of the kit's generator PCG from a seed (`SeedPicks`), and `number` is the pick that each later call
//! gives.
#![tactic(auto)]

mod beginning;
mod enabled;
pub mod laws;
mod machine;
mod moving;
mod picks;
mod planned;
mod releasing;
mod run;
mod seat;
mod seeds;
mod starting;
mod steps;
mod turn;

pub use machine::Machine;
pub use picks::{ListPicks, Picks};
pub use seeds::SeedPicks;
pub use turn::Turn;
