// What a statement asks for, and what else is a next step.
use rx_base::{GlobalRef, PlaceId};

/// A call of the store of the task's place.
#[derive(Clone, Copy, Debug, PartialEq, Eq)]
pub enum CellOp {
    /// Take a block of so many words, 1 to 65,536.
    Make {
        words: u32,
    },
    /// Read a word. The index may be any number: the store tells whether it is inside the block.
    Get {
        target: GlobalRef,
        index: i64,
    },
    /// Write a word. The index may be any number: the store tells whether it is inside the block.
    Put {
        target: GlobalRef,
        index: i64,
        value: i64,
    },
    /// Give a block back.
    Forget {
        target: GlobalRef,
    },
}

/// A request to the ledger.
#[derive(Clone, Copy, Debug, PartialEq, Eq)]
pub enum Want {
    /// Open the scope of a `finish`.
    Open,
    /// Open the scope of an `at` and start its callee for a place.
    At { to: PlaceId },
    /// Start a task for a place.
    Spawn { to: PlaceId },
    /// Wait at the innermost scope. `Control::take_faults` of rx_control has the faults of its body.
    Wait,
    /// Release the innermost scope.
    Release,
    /// Print a value.
    Print { value: i64 },
    /// Tell the number of places. `Control::census_done` of rx_control takes the answer.
    Census,
}

/// The next step.
#[derive(Clone, Copy, Debug, PartialEq, Eq)]
pub enum Next {
    /// A step that asks nobody.
    Local,
    /// A call of the store.
    Cell(CellOp),
    /// A request to the ledger.
    Book(Want),
    /// The task ends. `Control::take_faults` of rx_control has the faults with which it does.
    Done,
}
