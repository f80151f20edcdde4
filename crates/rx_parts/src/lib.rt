//! Runs in parts: what the history of the ledger and the histories of the places say together. In a run in parts the ledger and
//! each place have a book of their own, and no lock is held over two of them. Here stands when the history of such a book is
//! legal, and the law that legal histories, which name and carry each other, are one whole run of the script. These statements are
//! over plain lists, without words, seats or locks. Here stand also the items of such books, and how a book's history is such a list.
//! The crate stands on rx_rules, rx_tree_laws, rx_runs and rx_book. Lemmas say how legal histories grow, and by what a pass has seen it
//! meets the condition of `Book::call`; the proofs of the crates above cite them.
#![tactic(auto)]

ghost use Rattle.rx_parts.specs.Parts.{PartsPlay};
ghost use Rattle.rx_parts.specs.Closing.{PartsRun};

mod items;

pub use items::{EntryItem, EventItem, NamedEvent};

/// A law: a legal history of the ledger and legal histories of the places, which have all events that it names and have seen no
/// more than it, are together one run of each task's term.
pub fn parts_play()
    ensures { PartsPlay }
{}

/// A law: the parts of a history that ends with the root's release, with lawful journals that are closed as the places died, are
/// a whole run.
pub fn parts_run()
    ensures { PartsRun }
{}
