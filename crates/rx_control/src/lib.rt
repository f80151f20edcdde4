//! The control of one activity: what it has still to run, with its variables. It stands on rx_base, rx_rules, rx_syntax, rx_check
//! and rx_plan, and hands on the steps and the variables of the last. Contracts see a control by the terms that it stands for,
//! `StandsFor`: the layer above holds such a term for each activity, reads its next step from `next`, and each call that goes on
//! moves the term by one step of the rules. Where memory is refused, nothing changes.
#![tactic(auto)]

mod birth;
mod control;
mod faults;
mod frame;
mod path;
mod statement;

pub use birth::Seed;
pub use control::Control;
pub use faults::faults_raised;
pub use rx_plan::{CellOp, Next, Variables, Want};
