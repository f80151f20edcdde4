// From tokens to bytes.
ghost use Rattle.std.specs.Prelude.{◌≡◌, ◌++◌, map, slice_get, OnOk};
ghost use Rattle.rx_syntax.specs.Texts.{keyword_text, op_text, sign_text, name_text, token_text, spaced};

use crate::token::{Keyword, Op, Sign, Token};
use rx_base::NoMemory;
use rx_text::{put_num, put_text};

fn keyword(word: Keyword) -> &'static [u8]
    ensures { result.now ≡ keyword_text word }
{
    match word {
        Keyword::Set => b"set",
        Keyword::New => b"new",
        Keyword::Get => b"get",
        Keyword::Put => b"put",
        Keyword::Forget => b"forget",
        Keyword::Print => b"print",
        Keyword::Throw => b"throw",
        Keyword::Async => b"async",
        Keyword::At => b"at",
        Keyword::Finish => b"finish",
        Keyword::If => b"if",
        Keyword::Else => b"else",
        Keyword::Repeat => b"repeat",
        Keyword::Try => b"try",
        Keyword::Catch => b"catch",
        Keyword::Dead => b"dead",
        Keyword::Here => b"here",
        Keyword::Census => b"census",
    }
}

fn operator(op: Op) -> &'static [u8]
    ensures { result.now ≡ op_text op }
{
    match op {
        Op::Add => b"+",
        Op::Sub => b"-",
        Op::Mul => b"*",
        Op::Less => b"<",
        Op::Equal => b"==",
    }
}

fn mark(sign: Sign) -> &'static [u8]
    ensures { result.now ≡ sign_text sign }
{
    match sign {
        Sign::OpenBrace => b"{",
        Sign::CloseBrace => b"}",
        Sign::OpenParen => b"(",
        Sign::CloseParen => b")",
        Sign::OpenSquare => b"[",
        Sign::CloseSquare => b"]",
        Sign::Equals => b"=",
        Sign::Semicolon => b";",
        Sign::Comma => b",",
    }
}

fn put_name(text: &mut Vec<u8>, names: &[Vec<u8>], number: u32) -> Result<(), NoMemory>
    ensures { OnOk result (text.new.items ≡ text.old.items ++ name_text (slice_get (map (λ n. n.items) names.now) number)) }
{
    match names.get(number as usize) {
        Some(name) => put_text(text, name),
        None => Ok(()),
    }
}

// Appends the bytes of a token.
fn put_bare(text: &mut Vec<u8>, names: &[Vec<u8>], token: Token) -> Result<(), NoMemory>
    ensures { OnOk result (text.new.items ≡ text.old.items ++ token_text (map (λ n. n.items) names.now) token) }
{
    match token {
        Token::Key(word) => put_text(text, keyword(word)),
        Token::Called(number) => put_name(text, names, number),
        Token::Number(value) => put_num(text, value),
        Token::Oper(op) => put_text(text, operator(op)),
        Token::Mark(sign) => put_text(text, mark(sign)),
        Token::Bad => Ok(()),
    }
}

/// Appends a blank and the bytes of a token, whose name is looked up by its number. A number that names nothing and a bad token have
/// no bytes. After an `Err` the text may have the blank and a part of the bytes.
pub fn put_token(text: &mut Vec<u8>, names: &[Vec<u8>], token: Token) -> Result<(), NoMemory>
    ensures { OnOk result (text.new.items ≡ text.old.items ++ spaced (map (λ n. n.items) names.now) token) }
{
    text.push(b' ')?;
    put_bare(text, names, token)
}
