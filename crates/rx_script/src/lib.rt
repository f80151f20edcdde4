//! Scripts: the reader that makes a script of tokens, and the writer that spells it. It stands on rx_base, rx_rules and rx_syntax, and
//! hands on the nodes and `Script`. The layers above use that `read_script` gives the one script that the bytes are, or the one place
//! where they go wrong, and take the tree from the type: each `Script` stands for a block of statements of the rules. `program_of`
//! reads bytes and checks them (rx_check): they are a program exactly where they are a script that meets the rules.
#![tactic(auto)]

mod exprs;
mod items;
mod laws;
mod program;
mod reader;
mod writer;

pub use laws::{
    no_fault_in_script, one_fault, one_script, scripts_are_spelled, written_script_reads_back,
};
pub use program::{ProgramFault, program_of, programs_have_no_fault};
pub use reader::{ScriptFault, read_script};
pub use rx_syntax::{
    BlockId, Expr, ExprId, NameId, Op, Script, Stmt, StmtId, names_are_numbered, whole,
};
pub use writer::write_script;
