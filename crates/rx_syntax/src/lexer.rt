// From bytes to tokens.
ghost use Rattle.std.specs.Prelude.{◌≡◌, ◌<◌, ◌≤◌, false, length, option_map, IfSome};
ghost use Rattle.std.specs.List.{prefix_len};
ghost use Rattle.std.specs.Prelude.{bytes_eq};
ghost use Rattle.rx_syntax.specs.Lexical.{skipped, is_word_byte, number_of_run, padded, keyword_of, run_token, equals_sign, sign_of_byte};
ghost use Rattle.rx_syntax.specs.Lexical.{sign_at, token_at};

use crate::token::{Keyword, Lexeme, Op, Sign};

// What is left after the blanks and comments in front.
pub(crate) fn skip(bytes: &[u8]) -> &[u8]
    ensures left { result.now ≡ skipped false bytes.now }
    ensures shorter { length result.now ≤ length bytes.now }
{
    let mut in_comment = false;
    let mut rest = bytes;
    'gap: while let Some((first, tail)) = rest.split_first() {
        if in_comment {
            in_comment = *first != b'\n';
        } else {
            match *first {
                b'#' => in_comment = true,
                b' ' | b'\t' | b'\n' | b'\r' => {}
                _ => return rest,
            }
        }
        rest = tail;
    }
    rest
}

fn word_byte(b: u8) -> bool
    ensures { result ≡ is_word_byte b }
{
    matches!(b, b'a'..=b'z' | b'0'..=b'9' | b'_')
}

// How many bytes of words and numbers stand in front.
#[tactic(auto, using(crate::proofs::Lists::run_steps))]
fn run_len(bytes: &[u8]) -> usize
    ensures run { result ≡ prefix_len is_word_byte bytes.now }
    ensures within { result ≤ length bytes.now }
{
    let mut len = 0;
    for b in bytes {
        if !word_byte(*b) {
            return len;
        }
        len += 1;
    }
    len
}

// The number that a run of such bytes is.
#[tactic(auto, using(crate::proofs::Lists::number_steps))]
fn number(run: &[u8]) -> Option<i64>
    ensures { result ≡ number_of_run run.now }
{
    if run.is_empty() || (run[0] == b'0' && run.len() > 1) {
        return None;
    }
    let mut value: u64 = 0;
    for b in run {
        if !b.is_ascii_digit() {
            return None;
        }
        let digit = u64::from(*b - b'0');
        if value > (9_223_372_036_854_775_807 - digit) / 10 {
            return None;
        }
        value = value * 10 + digit;
    }
    Some(value as i64)
}

// Whether these are the same bytes. Their numbers are compared first, which tells most words apart.
fn is_same(word: &[u8], other: &[u8]) -> bool
    ensures { result ≡ bytes_eq word.now other.now }
{
    word.len() == other.len() && word == other
}

fn keyword(word: &[u8]) -> Option<Keyword>
    ensures { result ≡ keyword_of word.now }
{
    if is_same(word, b"set") {
        Some(Keyword::Set)
    } else if is_same(word, b"new") {
        Some(Keyword::New)
    } else if is_same(word, b"get") {
        Some(Keyword::Get)
    } else if is_same(word, b"put") {
        Some(Keyword::Put)
    } else if is_same(word, b"forget") {
        Some(Keyword::Forget)
    } else if is_same(word, b"print") {
        Some(Keyword::Print)
    } else if is_same(word, b"throw") {
        Some(Keyword::Throw)
    } else if is_same(word, b"async") {
        Some(Keyword::Async)
    } else if is_same(word, b"at") {
        Some(Keyword::At)
    } else if is_same(word, b"finish") {
        Some(Keyword::Finish)
    } else if is_same(word, b"if") {
        Some(Keyword::If)
    } else if is_same(word, b"else") {
        Some(Keyword::Else)
    } else if is_same(word, b"repeat") {
        Some(Keyword::Repeat)
    } else if is_same(word, b"try") {
        Some(Keyword::Try)
    } else if is_same(word, b"catch") {
        Some(Keyword::Catch)
    } else if is_same(word, b"dead") {
        Some(Keyword::Dead)
    } else if is_same(word, b"here") {
        Some(Keyword::Here)
    } else if is_same(word, b"census") {
        Some(Keyword::Census)
    } else {
        None
    }
}

// A name, filled up with zeros.
fn fill_up(word: &[u8]) -> [u8; 16]
    requires { length word.now ≤ 16 }
    ensures { result ≡ padded word.now }
{
    let mut name = [0; 16];
    name[..word.len()].copy_from_slice(word);
    name
}

// The token that a run of such bytes is.
fn word(run: &[u8]) -> Option<Lexeme>
    ensures { result ≡ run_token run.now }
{
    let (first, _) = run.split_first()?;
    if first.is_ascii_lowercase() {
        if run.len() > 16 {
            return None;
        }
        match keyword(run) {
            Some(key) => Some(Lexeme::Word(key)),
            None => Some(Lexeme::Name(fill_up(run))),
        }
    } else {
        match number(run) {
            Some(value) => Some(Lexeme::Number(value)),
            None => None,
        }
    }
}

// The sign of one byte.
fn sign_of(byte: u8) -> Option<Lexeme>
    ensures { result ≡ sign_of_byte byte }
{
    match byte {
        b'{' => Some(Lexeme::Mark(Sign::OpenBrace)),
        b'}' => Some(Lexeme::Mark(Sign::CloseBrace)),
        b'(' => Some(Lexeme::Mark(Sign::OpenParen)),
        b')' => Some(Lexeme::Mark(Sign::CloseParen)),
        b'[' => Some(Lexeme::Mark(Sign::OpenSquare)),
        b']' => Some(Lexeme::Mark(Sign::CloseSquare)),
        b';' => Some(Lexeme::Mark(Sign::Semicolon)),
        b',' => Some(Lexeme::Mark(Sign::Comma)),
        b'+' => Some(Lexeme::Oper(Op::Add)),
        b'-' => Some(Lexeme::Oper(Op::Sub)),
        b'*' => Some(Lexeme::Oper(Op::Mul)),
        b'<' => Some(Lexeme::Oper(Op::Less)),
        _ => None,
    }
}

// The longest sign after a `=`.
fn after_equals(tail: &[u8]) -> (Lexeme, &[u8])
    ensures sign { (result.0, result.1.now) ≡ equals_sign tail.now }
    ensures shorter { length result.1.now ≤ length tail.now }
{
    match tail.split_first() {
        Some((b'=', after)) => (Lexeme::Oper(Op::Equal), after),
        _ => (Lexeme::Mark(Sign::Equals), tail),
    }
}

// The sign in front, and what is left after it.
fn sign(bytes: &[u8]) -> Option<(Lexeme, &[u8])>
    ensures sign { option_map (λ x. (x.0, x.1.now)) result ≡ sign_at bytes.now }
    ensures shorter { IfSome result (λ x. length x.1.now < length bytes.now) }
{
    let (first, tail) = bytes.split_first()?;
    if *first == b'=' {
        return Some(after_equals(tail));
    }
    match sign_of(*first) {
        Some(sign) => Some((sign, tail)),
        None => None,
    }
}

// The longest token in front, and what is left after it.
pub(crate) fn token(bytes: &[u8]) -> Option<(Lexeme, &[u8])>
    ensures token { option_map (λ x. (x.0, x.1.now)) result ≡ token_at bytes.now }
    ensures shorter { IfSome result (λ x. length x.1.now < length bytes.now) }
{
    let len = run_len(bytes);
    if len == 0 {
        return sign(bytes);
    }
    match word(&bytes[..len]) {
        Some(token) => Some((token, &bytes[len..])),
        None => None,
    }
}
