//! The words of a command: what they ask for, or which of them is the first bad one. It stands on rx_text, rx_history and rx_kills.
//! docs/commands.md states the words. The layer above uses that `read_words` answers exactly what the words ask for, `asked`, and
//! that a setup that it answers is proper.
#![tactic(auto)]

mod command;
mod joined;
mod kind;
pub mod laws;
mod listing;
mod number;
mod options;
mod planned;
mod reader;
mod said;
mod settled;
mod taking;

pub use command::{Command, LiveWords, PickWords, WordFault};
pub use reader::{read_live, read_words};
