//! Tests of the low crates: numbers, paths, words, kills, fields, blocks of a heap, locks and ranks; and of what reads, checks, counts
//! and makes scripts, and of the control that steps through one. Each module has the name of the crate that it tests; `lock` is
//! rx_book's, `counting` rx_gen's, and `token` rx_syntax's. They stand apart, so that none of those crates is proved twice; nothing else
//! is here.
#![tactic(auto)]

#[cfg(test)]
mod base;
#[cfg(test)]
mod check;
#[cfg(test)]
mod control;
#[cfg(test)]
mod counting;
#[cfg(test)]
mod fields;
#[cfg(test)]
mod heap;
#[cfg(test)]
mod kills;
#[cfg(test)]
mod lock;
#[cfg(test)]
mod order;
#[cfg(test)]
mod rank;
#[cfg(test)]
mod same;
#[cfg(test)]
mod script;
#[cfg(test)]
mod text;
#[cfg(test)]
mod token;
#[cfg(test)]
mod words;
