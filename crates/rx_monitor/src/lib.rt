//! A board on which one writer shows summaries of a history as it grows, and a reader looks at the newest without taking a lock;
//! and the text of what a watch has seen, a line for each summary.
//! It stands on rx_base, rx_text, `left_right`, which carries what is shown, and `atomic_table`, whose seats know beginnings of the list
//! of all that was shown; that list exists for contracts alone. The layer above uses that a snapshot is the last item of a list that
//! begins with all that the reader had seen and that begins, as `BoardWriter::hear` tells, the list that was shown; that the items of a
//! watch stand in that list in order, the last one at its end; and that `put_watch` appends exactly `watch_text`. docs/architecture.md
//! says what a summary costs, and docs/commands.md states the lines.
//!
//! Not promised: that a snapshot is the newest summary. A reader who comes while a summary is put up, or for the second time to the
//! same one, has the last that it knows.
#![tactic(auto)]

mod board;
mod laws;
mod one_shot;
mod page;
mod shown_list;
mod summary;
mod text;

pub use board::{Board, BoardReader, BoardWriter, Receipt, finish};
pub use laws::watch_tells;
pub use summary::Summary;
pub use text::put_watch;
