//! The words of a line of a trace, and what a word or a few of them tell as a field: a number, a place, a task, a scope, a path, a
//! kill, a block, and the parts of a line that may be missing. It stands on rx_base, rx_text and rx_kills. docs/trace.md states the
//! forms. The layer above, rx_trace, uses that `Words` is seen as the list of the words that are left, and that each call answers
//! exactly what the definition of its field gives of that list, and leaves the words that it leaves. Where a call of a field or of
//! a part answers none, its contract does not say which words are left.
#![tactic(auto)]

mod items;
mod numbers;
mod parts;
mod words;

pub use items::{kill, strip};
pub use numbers::{below, is_number};
pub use parts::{
    batch_part, block_field, count_field, keyword, natural_field, nested_scope, next_task,
    number_field, outcome_part, path_field, place_field, scope_field, task_field, thrown_part,
    way_field,
};
pub use words::{Words, after_short, first_line, is_same, split_words};
