//! The objects of a run in parts: the ledger with the notes of places that it keeps, and the store of a place with the ledger's history
//! that its callers had seen. Each lies in a book of its own (rx_book). It stands on the keeper (rx_ledger), on the stores (rx_store),
//! and on rx_parts, which says which histories of the two books are legal and what their items are. Those who use the books need not
//! name the objects: `LedgerBook` and `PlaceBook` have the calls of the two books that activities make. The ledger's object may have a
//! board (rx_monitor), on which it shows a summary of its history after each call that appends entries. Who makes a run opens its books
//! here, and closes the ledger's here. The layers above use that every history of these books is legal, that the notes which come with
//! the root's release have all events that entries name, and that what the board has shown are the summaries of beginnings of the
//! history, none shorter than the one before.
#![tactic(auto)]

mod closing;
mod hint;
mod laws;
mod ledger;
mod ledger_book;
mod mentions;
mod opening;
mod place;
mod place_book;
mod scopes;
mod showing;
mod surroundings;
mod trail;

pub use closing::{ClosedLedger, abandon_ledger, close_ledger};
pub use hint::Hint;
pub use laws::{
    books_make_run, host_is_told, host_may_ask, ledger_op_fits, meeting_hears, meeting_shows,
    noted_are_named, objects_open, others_spare_tickets, place_op_fits, places_end,
    stamps_before_death,
};
pub use ledger::{LedgerCall, LedgerFixed, LedgerName, LedgerObject, LedgerOp, LedgerReply};
pub use ledger_book::LedgerBook;
pub use mentions::Mentions;
pub use opening::{open_ledger, open_place, open_words};
pub use place::{PlaceCall, PlaceFixed, PlaceObject, PlaceOp, PlaceReply};
pub use place_book::PlaceBook;
pub use scopes::ScopeSet;
pub use showing::{BoardName, end_board, opening_summary};
pub use surroundings::{LedgerAndGate, Surroundings};
pub use trail::Trail;
