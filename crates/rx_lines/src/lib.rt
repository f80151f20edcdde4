//! Lines of a session with a coordinator. `read_line` says which request a line is; `put_answer` and `put_freed` tell the lines of replies,
//! piece by piece to a sink, and `put_entries` and `put_freed_entry` those of entries for a log. `laws` says what holds of the text of every
//! session. It stands on rx_coordinator for requests and answers, and on rx_fields and rx_trace for how words are written. The program
//! uses all five.
#![tactic(auto)]

mod entries;
pub mod laws;
mod lines;
mod note;
mod output;
mod replies;

pub use entries::{put_entries, put_freed_entry};
pub use lines::read_line;
pub use note::{Note, asker};
pub use output::Pending;
pub use replies::{put_answer, put_freed};
