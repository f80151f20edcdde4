//! The longest chain of statements of a history: `span` tells how many statements the history tells, and the longest list of them
//! in which each is before the next in the order of statements. Of chains of one length it is the one whose list of paths comes
//! first. It stands on rx_order, which says what each number of a path stands for, and on rx_history. docs/semantics.md states the
//! rules under "The order of statements".
//!
//! The statements are sorted and passed from the last to the first. What may follow a statement depends on the number of it from
//! which on the two paths part, and on nothing else of the follower. So one kept chain for each number is enough: `span_counted`
//! reads at most 65 kept chains for each statement, no two statements are compared but neighbours, and memory is in proportion to
//! the statements.
#![tactic(auto)]

mod chains;
pub mod laws;
mod links;
mod longest;
mod paths;
mod spans;
mod steps;

pub use longest::{span, span_counted};
pub use spans::Span;
pub use steps::Steps;
