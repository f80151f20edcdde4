// What a ledger is asked for. docs/semantics.md states under "The history" which entry each becomes.

use rx_base::{Faults, PlaceId};

/// What a task asks of the ledger, or the host.
#[derive(Drop)]
pub enum Ask {
    /// To open a finish inside its innermost scope.
    Open,
    /// To open an `at` and start its callee for the place.
    At { to: PlaceId },
    /// To start a task for the place.
    Spawn { to: PlaceId },
    /// To arrive where it travels to.
    Arrive,
    /// To wait at its finish, whose body ended with these faults.
    Wait { thrown: Faults },
    /// To release the scope at which it waits.
    Release,
    /// To end with these faults.
    End { thrown: Faults },
    /// To print a value.
    Print { value: i64 },
    /// To be told the number of places.
    Census,
    /// The host asks to release the root.
    Root,
}
