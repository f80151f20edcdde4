//! Tests of the ledgers, of their tickets and mail, and of the coordinator. Each module has the name of the crate that it tests. They
//! stand apart, so that none of those crates is proved twice; nothing else is here.
#![tactic(auto)]

#[cfg(test)]
mod coordinator;
#[cfg(test)]
mod counts;
#[cfg(test)]
mod ledger;
#[cfg(test)]
mod ledger_worked;
#[cfg(test)]
mod mail;
#[cfg(test)]
mod same;
#[cfg(test)]
mod ticket;
#[cfg(test)]
mod tree;
