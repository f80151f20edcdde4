//! The rooms in which the workers of a run stand: a station for each place, with its book, the queue of the activities that are there,
//! the mailbox of those on their way to it and the keys to both; the hall, which all workers share; the bed, by which they sleep and
//! wake; and the workers, who take activities and make their turns. It stands on the activities (rx_activities), on the objects
//! (rx_objects), on their books (rx_book) and on mailboxes (rx_mail). The layer above opens the stations and the hall, lets workers work
//! there, and closes the stations: it uses that every closed book of a place leaves a legal history with what the host's pass had seen,
//! its store and its note (`IsClosed`).
#![tactic(auto)]

pub mod bed;
mod hall;
mod keys;
mod queue;
mod station;
mod worker;

pub use hall::{Hall, abandon_all};
pub use station::Station;
pub use worker::{Worker, work};
