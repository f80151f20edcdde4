//! Bounds of runs in parts, and worked histories of them. A legal history of the ledger has no more entries than a whole run, and a
//! legal history of a place no more events than a multiple of the script's work; so the books of a run in parts have a greatest
//! length before the run begins. Every whole run has parts, and worked histories hold the definitions of rx_parts to their
//! meaning: each is legal, or breaks one rule and is not. The crate stands on rx_parts and the laws below
//! it, and holds no code but laws: each public function has an empty body, and its contract is the law. No crate stands on it;
//! specs/ has the statements.
#![tactic(auto)]

ghost use Rattle.std.specs.Prelude.{◌≡◌};
ghost use Rattle.rx_rules.specs.Examples.{adoption_script, full_script};
ghost use Rattle.rx_parts_bounds.specs.Nesting.{nest};
ghost use Rattle.rx_parts_bounds.specs.Bounds.{LedgerBounded, EventsBounded, EventsAreFew};
ghost use Rattle.rx_parts_bounds.specs.Parting.{RunHasParts};
ghost use Rattle.rx_parts_bounds.specs.Examples.{makers_script};

pub mod refused;
pub mod worked;

/// A law: under a proper setup a legal history of the ledger has at most `4 * work + places + 2 * joins + 1` entries.
pub fn ledger_bounded()
    ensures { LedgerBounded }
{}

/// A law: a legal history of a place has at most `(1 + nest) * work` events, where the script starts tasks inside tasks `nest`
/// deep.
pub fn events_bounded()
    ensures { EventsBounded }
{}

/// A law: where the script meets the checker's rules, a legal history of a place has at most 3,400,000 events.
pub fn events_are_few()
    ensures { EventsAreFew }
{}

/// A law: every whole run has parts, so that the definitions of legal histories exclude none.
pub fn run_has_parts()
    ensures { RunHasParts }
{}

/// The worked adoption starts tasks inside tasks three deep, two makers one, and the full heap none.
pub fn worked_scripts_nest()
    ensures three { nest adoption_script ≡ 3 }
    ensures one { nest makers_script ≡ 1 }
    ensures none { nest full_script ≡ 0 }
{}
