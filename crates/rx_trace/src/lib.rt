//! The text of a trace, both ways. `write_trace` appends `trace_text` of a history, journals and a setup, and a refusal leaves what
//! was there. `read_trace` goes line by line: what has been read is a stage, and each stage says which lines may come next. The
//! layers above use that it gives the history and the journals exactly where the bytes are their text, and else the first line that
//! no text has there, and the laws that a text has one pair and no bad line. docs/trace.md states the format. The fields of a line
//! are read by rx_fields; what rx_history has of histories, journals and setups is handed on.
#![tactic(auto)]

mod acts;
mod entry_lines;
mod entry_reader;
mod event_lines;
mod event_reader;
mod fields;
pub mod laws;
mod parts;
mod plan_lines;
mod reader;
mod stage;
mod text;

pub use reader::{TraceFault, read_trace};
pub use rx_history::{
    Act, Ask, Cell, Entry, History, JoinList, Journal, Journals, KillList, PlaceEvent, Setup,
    joins_never_fall, kills_ascend,
};
pub use text::write_trace;
