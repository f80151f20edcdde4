//! Checked scripts: the five rules that a script must meet before it is run, and its work. It stands on rx_syntax. docs/language.md
//! states the rules.
#![tactic(auto)]

mod checker;
mod laws;
mod names;
mod parts;
mod program;
mod uses;
mod walk;

pub use checker::{CheckCause, CheckFault, check};
pub use laws::{names_are_few, steps_are_defined};
pub use program::{Program, checked};
