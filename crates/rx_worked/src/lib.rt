//! More worked histories, on which the definitions of rx_rules are held to their meaning: each law is the contract of a public
//! function with an empty body, and says of a told history that it is a run, or that no run is like it. The histories come from
//! the rules as docs/semantics.md states them. It stands on rx_rules, and nobody stands on it.
#![tactic(auto)]

pub mod deaths;
pub mod places;
pub mod statements;
