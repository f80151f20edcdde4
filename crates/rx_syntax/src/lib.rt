//! The syntax of scripts: their tokens, and their nodes by number. `scan` makes tokens of bytes, with their starts and the names that
//! stand among them, and `put_token` writes one. A `Script` holds the nodes of statements and expressions, and always stands for a
//! block of statements of the rules. It stands on rx_base, rx_text and rx_rules. The layers above use that `scan` gives the one list of
//! tokens that the bytes spell, up to the first that they can't, with the names numbered in the order of first appearance, and that
//! `put_token` appends what is scanned as that token. They take the tree from the type, by `Stands` and by the law `whole`, and the
//! grammar of trees from its definitions.
#![tactic(auto)]

mod laws;
mod lexer;
mod names;
mod nodes;
mod scanner;
mod script;
mod text;
mod token;

pub use laws::names_are_numbered;
pub use nodes::{BlockId, Expr, ExprId, NameId, Stmt, StmtId};
pub use scanner::{Scanned, scan};
pub use script::{Script, whole};
pub use text::put_token;
pub use token::{Keyword, Lexeme, Op, Sign, Token};
