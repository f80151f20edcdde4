// What no clause says: that bytes are scanned and tokens written.
use crate::same::same;
use rx_base::NoMemory;
use rx_syntax::{Keyword, Op, Sign, Token, put_token, scan};

#[test]
fn tokens_are_scanned_and_written(rt: HostRuntime) -> Result<(), NoMemory> {
    let scanned = scan(rt.alloc(), b"# no token\nset x=(x==2);")?;
    let tokens = [
        Token::Key(Keyword::Set),
        Token::Called(0),
        Token::Mark(Sign::Equals),
        Token::Mark(Sign::OpenParen),
        Token::Called(0),
        Token::Oper(Op::Equal),
        Token::Number(2),
        Token::Mark(Sign::CloseParen),
        Token::Mark(Sign::Semicolon),
    ];
    same(&rt, scanned.tokens.as_slice(), tokens.as_slice());
    let starts: [u32; 10] = [11, 15, 16, 17, 18, 19, 21, 22, 23, 24];
    same(&rt, scanned.starts.as_slice(), starts.as_slice());
    let mut text = Vec::new(rt.alloc());
    for token in &scanned.tokens {
        put_token(&mut text, &scanned.names, *token)?;
    }
    same(&rt, text.as_slice(), b" set x = ( x == 2 ) ;".as_slice());
    Ok(())
}
