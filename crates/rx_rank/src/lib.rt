//! A set of numbers in which the k-th in ascending order is found in logarithmic time. It stands on rx_base alone. The layer
//! above sees it as the ascending list of its numbers, beside its room: the numbers below the room may stand in it.
//! Memory is taken by `room` alone.
#![tactic(auto)]

mod counts;
mod ranks;

pub use ranks::Ranks;
