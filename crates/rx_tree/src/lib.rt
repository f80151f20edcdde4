//! The plain ledger of tasks and scopes, which keeps the tree row by row, as the rules have it: the model for tests and worked
//! calls. It keeps the promise of rx_finish, on whose trait and types it stands, and which it hands on; by the law of rx_tree_laws its
//! rows stand in order. docs/semantics.md states the rules under "Activities and scopes" and "Deaths and losses".
#![tactic(auto)]

mod changes;
mod lookups;
mod plain;
mod removal;

pub use plain::TreeLedger;
pub use rx_finish::{Born, Caller, FinishLedger, LedgerFault, Outcome, Where};
