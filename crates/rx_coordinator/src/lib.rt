//! The core of a coordinator: it keeps the tree of tasks and scopes of jobs that run elsewhere, and answers requests that may be wrong.
//! Nothing is asked of its caller: each request is tested, and one that may not be made changes nothing. It stands on rx_counts for the
//! counts of scopes, and on a table with a row for each task that stands and is not struck. The layer above uses `Parking`: a
//! coordinator together with the releases that wait, none of which could be done when nothing is due.
#![tactic(auto)]

mod coordinator;
mod desk;
mod freeing;
mod laws;
mod moving;
mod parking;
mod requests;
mod seats;
mod starting;
mod waiters;

pub use coordinator::Coordinator;
pub use parking::{Freed, Parking};
pub use requests::{Answer, Request};
pub use seats::{Seat, Seats};
pub use waiters::Waiter;
