//! An object under a lock, with one history of all calls, and callers who each hold a pass: what they have seen of the history,
//! and which of its entries are theirs. The layers above use the contract of `Book::call`: it is made at one point of one legal history,
//! which begins with all that its caller had seen. What an object says is fixed stays the same until its book gives it back.
//!
//! The lock is a `Lock`, whose value keeps a fact about a key that was fixed when the lock was made. A `Mutex` tells of its value only
//! what the value's type says, and no type can name what lies beside the lock; here the fact names it by the key. The layers above use
//! that `Lock::lock` gives a value of which the fact holds for the lock's own key, and give a value back of which it holds again.
//!
//! The crate stands on `atomic_table`: a lock is one word and one slot of it, and a further word of a book shows the number of entries and
//! the deaths to those who do not wait.
#![tactic(auto)]

mod books;
mod keyed_lock;
mod objects;
mod passes;
mod steps;
mod views;
mod word;

pub use books::{BareBook, Book};
pub use keyed_lock::{Lock, Turn};
pub use objects::{Dies, Object, deaths_are_a_set};
pub use passes::{Note, Pass};
pub use steps::{Fact, Hand};
pub use views::{Past, Stamped, View};
