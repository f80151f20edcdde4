//! Tests of stores, books, objects and watches, of runs on one thread, of activities on several, and of what reads, replays and judges
//! a trace. Each module has the name of the crate that it tests; `pair` is of rx_answers, `picks` of rx_machine, `replay` of
//! rx_verdict, and `watch` of rx_monitor. They stand apart, so that none of those crates is proved twice; nothing else is here.
#![tactic(auto)]

#[cfg(test)]
mod answers;
#[cfg(test)]
mod book;
#[cfg(test)]
mod machine;
#[cfg(test)]
mod monitor;
#[cfg(test)]
mod objects_worked;
#[cfg(test)]
mod pair;
#[cfg(test)]
mod picks;
#[cfg(test)]
mod reading;
#[cfg(test)]
mod replay;
#[cfg(test)]
mod same;
#[cfg(test)]
mod span;
#[cfg(test)]
mod store;
#[cfg(test)]
mod threads;
#[cfg(test)]
mod watch;
