//! What `verify` and `span` answer to the bytes that they are given: from a pair to its script, its history and its journals, and from
//! these to the text. A pair is a script together with a trace: a first line that tells how many bytes the script has, the script, and
//! the text of the trace. It stands on rx_text, rx_script, rx_check, rx_trace, rx_verify and rx_span. docs/commands.md states pairs and
//! answers. The layer above uses that an answer is the verdict's line or the lines of the longest chain (`IsAnswer`), that each refusal
//! has its cause (`IsCaseFault`), no two of which stand at once, that `split_pair` answers the two parts exactly where the bytes are a
//! pair, and the laws that bytes have one answer and that its text tells how it came out.
#![tactic(auto)]

mod answers;
mod case;
pub mod laws;
mod lines;
mod pair;
mod parts;

pub use answers::{Question, answer};
pub use case::CaseFault;
pub use pair::split_pair;
pub use parts::{parts_are_one, worked_pair_is_one};
