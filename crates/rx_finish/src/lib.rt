//! What every ledger of finishes promises: the trait `FinishLedger`, who asks it and what it answers. It stands on rx_base and
//! rx_rules, whose trees, entries and deaths its contracts speak of, and on rx_tree_laws for what holds of a caller of a tree that can
//! be reached. The machine and the keeper are generic over the trait: each asks for a tree that the ledger stands for, and each
//! call answers for every such tree. `live` takes the ledger of counts. rx_tree and rx_counts keep the promise. Beside it stand the
//! totals of a tree, `Totals`.
//! docs/semantics.md states the rules under "Activities and scopes" and "Deaths and losses".
#![tactic(auto)]

mod ledger;
mod places;
mod totals;

pub use ledger::{Born, Caller, FinishLedger, LedgerFault, Outcome};
pub use places::{landing_of, place_of, travel};
pub use rx_rules::Where;
pub use totals::{Totals, totals_tell};
