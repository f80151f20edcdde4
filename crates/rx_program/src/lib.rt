//! What the program does: it runs the script that a source gives and writes the trace to a sink, makes and runs a script of its own and
//! writes the numbers of its history, tells a script's work, or judges a trace that it is given with its script and tells the longest
//! chain of its statements. `rx10` is the whole of it over any source, sink, runtime and gate, and its contract is the theorem: a status
//! `Done` or `Faulted` of `step` and `live` says that the bytes were a script that meets the rules, that what was written is the trace
//! of a run of it, that nothing was released early in it, that its losses are exact and that the order of statements was kept; of
//! `verify` and `span` `Done` comes exactly where the trace is one of a whole run of the script. `rx10_step` has the commands that start
//! no thread, takes no runtime and always returns. `laws` says that outcomes are determined. It stands on rx_words, rx_script, rx_check,
//! rx_machine, rx_live, rx_gen, rx_counts, rx_history, rx_trace and rx_answers, and on the laws of rx_runs and rx_history_laws. The program
//! uses `rx10` and `Status`.
#![tactic(auto)]

pub mod laws;
mod live;
mod outside;
mod pair;
mod run;
mod source;
mod status;
mod top;

pub use live::rx10;
pub use status::Status;
pub use top::rx10_step;
