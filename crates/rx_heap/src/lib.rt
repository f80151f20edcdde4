//! A region of words, out of which blocks are taken and given back. It stands on rx_base alone. The layer above uses that
//! live blocks never overlap, that live blocks and holes together are all words, each once, that a block is taken at the
//! least free start, and that a word read is the last word written. All memory is taken when the heap is opened.
#![tactic(auto)]

mod block;
mod heap;
mod holes;

pub use block::{Block, Full, Hole};
pub use heap::Heap;
