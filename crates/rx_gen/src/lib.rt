//! The generated script of so many lines, and the numbers of a history. It stands on rx_check and rx_history. The layer above uses
//! that `generate` gives the program of exactly the tree `lines`, and that `counts` and `put_counts` give `numbers` and their text.
#![tactic(auto)]

mod counting;
mod generator;
mod numbers;

pub use counting::{counts, put_counts};
pub use generator::generate;
pub use numbers::Counts;
