// From bytes to tokens with their starts, and to the names that stand among them.
ghost use Rattle.std.specs.Prelude.{◌≡◌, ◌≤◌, ◌^◌, ◌<◌, Some, length, vec_len, IfOk, OnOk};
ghost use Rattle.rx_syntax.specs.Tokens.{AreNames};
ghost use Rattle.rx_syntax.specs.Scans.{Scans};
ghost use Rattle.rx_syntax.specs.Lexical.{token_at};
ghost use Rattle.rx_syntax.specs.Names.{IsTable, IsNumbered};
ghost use Rattle.rx_syntax.specs.Tables.{names_of};

use crate::lexer::{skip, token};
use crate::names::{NameTable, no_names, number_of};
use crate::token::{Lexeme, Token};
use rx_base::NoMemory;
use std::alloc::Global;

/// The tokens up to the first bad one, which is among them, where each starts, and the names by number. One start more is that of the
/// end of input.
#[derive(Drop)]
pub struct Scanned {
    pub tokens: Vec<Token>,
    pub starts: Vec<u32>,
    pub names: Vec<Vec<u8>>,
}

// The token in front, whose name is told by its number.
fn numbered(
    table: &mut NameTable,
    alloc: Global,
    bytes: &[u8],
    lexeme: Lexeme,
    after: &[u8],
) -> Result<Token, NoMemory>
    requires token { token_at bytes.now ≡ Some (lexeme, after.now) }
    requires table { IsTable table.old }
    requires room { vec_len table.old.names < 2 ^ 31 }
    ensures table { OnOk result (IsTable table.new) }
    ensures token { IfOk result (λ t. IsNumbered (names_of table.old.names) lexeme t (names_of table.new.names)) }
{
    match lexeme {
        Lexeme::Word(key) => Ok(Token::Key(key)),
        Lexeme::Name(filled) => {
            let word = &bytes[..bytes.len() - after.len()];
            let number = number_of(table, alloc, word, filled)?;
            Ok(Token::Called(number))
        }
        Lexeme::Number(value) => Ok(Token::Number(value)),
        Lexeme::Oper(op) => Ok(Token::Oper(op)),
        Lexeme::Mark(sign) => Ok(Token::Mark(sign)),
    }
}

/// The tokens of the bytes, the longest first. docs/language.md states them. The time is in proportion to the bytes.
pub fn scan(alloc: Global, bytes: &[u8]) -> Result<Scanned, NoMemory>
    requires { length bytes.now < 2 ^ 31 }
    ensures scans { IfOk result (λ s. Scans (names_of s.names) (length bytes.now) bytes.now s.tokens.items s.starts.items) }
    ensures names { IfOk result (λ s. AreNames (names_of s.names) s.tokens.items) }
    ensures short { IfOk result (λ s. vec_len s.tokens ≤ length bytes.now) }
{
    let mut tokens = Vec::new(alloc);
    let mut starts = Vec::new(alloc);
    let mut table = no_names(alloc);
    let mut rest = bytes;
    'tokens: loop {
        let here = skip(rest);
        starts.push((bytes.len() - here.len()) as u32)?;
        if here.is_empty() {
            return Ok(Scanned {
                tokens,
                starts,
                names: table.names,
            });
        }
        let Some((lexeme, after)) = token(here) else {
            tokens.push(Token::Bad)?;
            starts.push(bytes.len() as u32)?;
            return Ok(Scanned {
                tokens,
                starts,
                names: table.names,
            });
        };
        let next = numbered(&mut table, alloc, here, lexeme, after)?;
        tokens.push(next)?;
        rest = after;
    }
}
