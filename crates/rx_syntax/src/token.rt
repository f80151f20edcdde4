// The tokens of a script.

/// The sign of an operation.
#[derive(Clone, Copy, Debug, PartialEq, Eq)]
pub enum Op {
    Add,
    Sub,
    Mul,
    Less,
    Equal,
}

/// A word that names no variable.
#[derive(Clone, Copy, Debug, PartialEq, Eq)]
pub enum Keyword {
    Set,
    New,
    Get,
    Put,
    Forget,
    Print,
    Throw,
    Async,
    At,
    Finish,
    If,
    Else,
    Repeat,
    Try,
    Catch,
    Dead,
    Here,
    Census,
}

/// A sign that is no operation. `,` is one already, though it is in no statement.
#[derive(Clone, Copy, Debug, PartialEq, Eq)]
pub enum Sign {
    OpenBrace,
    CloseBrace,
    OpenParen,
    CloseParen,
    OpenSquare,
    CloseSquare,
    Equals,
    Semicolon,
    Comma,
}

/// A token as the bytes spell it. A name is filled up with zeros.
#[derive(Clone, Copy, Debug, PartialEq, Eq)]
pub enum Lexeme {
    Word(Keyword),
    Name([u8; 16]),
    Number(i64),
    Oper(Op),
    Mark(Sign),
}

/// A token whose name is told by its number in the order of first appearance. A bad one stands in no script.
#[derive(Clone, Copy, Debug, PartialEq, Eq)]
pub enum Token {
    Key(Keyword),
    Called(u32),
    Number(i64),
    Oper(Op),
    Mark(Sign),
    Bad,
}
