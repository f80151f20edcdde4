//! What a statement does next: the variables of one activity, the value of an expression, and of a statement the step that it asks
//! for (`tell`) and the plan by which it is carried out (`make_plan`). It stands on rx_base, rx_rules, rx_syntax and rx_check. The
//! layer above, the control, keeps the variables, finds the statement at the front and carries its plan out. Its contracts use that
//! a plan is what the statement does by the rules, `Plans`, and that what is told is the step of what a term does, `next_of`. All
//! but the variables takes no memory.
#![tactic(auto)]

mod eval;
mod plan;
mod variables;

pub use plan::{Plan, make_plan, tell};
pub use rx_history::{CellOp, Next, Want};
pub use variables::Variables;
