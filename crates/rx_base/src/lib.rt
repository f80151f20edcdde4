//! The words that every other crate speaks: ids of places, tasks and scopes, values and faults, short lists that contracts
//! see as lists, the traits of the outside with their implementations, and gates, by which a test holds workers. It stands on
//! std alone. The layers above use the meanings of `Source` and `Sink` (the bytes left and written, and counts of faults that
//! never fall) and see `Faults`, `Path`, `Batch` and `PlaceSet` as lists and sets.
#![tactic(auto)]

mod compare;
mod failures;
mod gate;
mod ids;
mod lists;
mod long;
mod memory;
mod outside;
mod place_set;
mod standard;
mod values;
mod word;

pub use compare::{same_faults, same_path};
pub use failures::{Failed, NoMemory};
pub use gate::{CellGate, Gate, MeetGate, NoGate};
pub use ids::{GlobalRef, Kill, PlaceId, ScopeId, TaskId};
pub use lists::{Batch, FaultRoom, Faults, Path};
pub use memory::{MemSink, MemSource};
pub use outside::{Sink, Source, write_all};
pub use place_set::{PlaceSet, members_make_the_set};
pub use standard::{StdSink, StdSource};
pub use values::{Fault, Value};
pub use word::RxWord;
