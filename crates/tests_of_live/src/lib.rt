//! Tests of workers, of runs by several of them, and of what the program does: rx_stations, rx_live and rx_program. The last has the
//! modules `program`, `program_live` for the command `live`, `program_pair` for `verify` and `span`, and `texts` with whole traces. They
//! stand apart from tests_of_runs, whose proof then need not wait for these crates, the last of the longest chain of crates.
#![tactic(auto)]

#[cfg(test)]
mod live;
#[cfg(test)]
mod program;
#[cfg(test)]
mod program_live;
#[cfg(test)]
mod program_pair;
#[cfg(test)]
mod stations;
#[cfg(test)]
mod texts;
