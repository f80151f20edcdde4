// Statements and expressions by number.

use crate::Op;

/// The number of a statement in its script.
#[derive(Clone, Copy, Debug, PartialEq, Eq)]
pub struct StmtId(pub u32);

/// The number of an expression in its script. An expression has a greater number than its operands.
#[derive(Clone, Copy, Debug, PartialEq, Eq)]
pub struct ExprId(pub u32);

/// The number of a block in its script.
#[derive(Clone, Copy, Debug, PartialEq, Eq)]
pub struct BlockId(pub u32);

/// The number of a name in its script, in the order of first appearance.
#[derive(Clone, Copy, Debug, PartialEq, Eq)]
pub struct NameId(pub u32);

/// An expression, whose operands are told by number.
#[derive(Clone, Copy, Debug, PartialEq, Eq)]
pub enum Expr {
    Num(i64),
    Name(NameId),
    Here,
    Bin { op: Op, left: ExprId, right: ExprId },
}

/// A statement, whose expressions and blocks are told by number. docs/language.md states what each means.
#[derive(Clone, Copy, Debug, PartialEq, Eq)]
pub enum Stmt {
    Set {
        name: NameId,
        value: ExprId,
    },
    New {
        name: NameId,
        words: u32,
    },
    Get {
        name: NameId,
        target: NameId,
        index: ExprId,
    },
    Put {
        target: NameId,
        index: ExprId,
        value: ExprId,
    },
    Forget {
        target: NameId,
    },
    Census {
        name: NameId,
    },
    Print {
        value: ExprId,
    },
    Throw {
        value: ExprId,
    },
    Async {
        body: BlockId,
    },
    AtAsync {
        place: ExprId,
        body: BlockId,
    },
    At {
        place: ExprId,
        body: BlockId,
    },
    Finish {
        body: BlockId,
    },
    If {
        test: ExprId,
        first: BlockId,
        other: BlockId,
    },
    Repeat {
        times: u32,
        body: BlockId,
    },
    Try {
        body: BlockId,
        dead_only: bool,
        handler: BlockId,
    },
}
