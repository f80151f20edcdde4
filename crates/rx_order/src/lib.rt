//! The order of the statements of a program: `before` decides of two instances of statements, by their paths alone, whether one is
//! before the other. It stands on rx_base, rx_rules, rx_syntax and rx_check, and its contract is the order itself, `comes_before`.
//! docs/semantics.md states it under "The order of statements".
//!
//! x is before y where the two paths part at a position in a block, at a turn of a `repeat` or at the body and handler of a `try`, x
//! has the lesser number there, and each `async` and each `at e async` along x from there on has a `finish` before it. That a run
//! tells x first where it tells both is a law of rx_history_laws, and not of this crate.
//!
//! It promises no more than that. An `async` outside a `finish` is before nothing that follows it, and neither is a statement in it:
//! in `async { print 1; } print 2;` neither `print` is before the other. The two branches of an `if` are in no order, and neither are
//! a statement and one inside it. That x is before y does not say that either of them is run, and what is in no order may still be
//! told in one order in each run that is made.
#![tactic(auto)]

mod kept;
mod marks;
mod order;
mod parts;

pub use marks::{Role, mark_numbers};
pub use order::before;
