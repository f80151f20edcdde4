// Numbers as words, each in its one spelling.
ghost use Rattle.std.specs.Prelude.{◌≡◌, ◌<◌, ◌^◌, ◌++◌, Some, IfSome};
ghost use Rattle.std.specs.Str.{bytes_eq};
ghost use Rattle.rx_text.specs.Numbers.{natural_text};
ghost use Rattle.rx_fields.specs.Inside.FieldWords.{number_of, natural_of, number_below, count_of, short_of};

use itoa::Buffer;
use rx_text::scan_num;

// The number of at most nine digits that stands in front of these bytes, in its one spelling, and what stands after it. None says
// nothing of the bytes.
#[inline(always)]
pub(crate) fn front_number(bytes: &[u8]) -> Option<(u32, &[u8])>
    ensures some { IfSome result (λ x. bytes.now ≡ natural_text x.0 ++ x.1.now) }
    ensures low { IfSome result (λ x. x.0 < 2 ^ 32) }
{
    let mut n: u32 = 0;
    let mut len = 0;
    'digits: while len < bytes.len() && bytes[len].is_ascii_digit() {
        if len == 9 {
            return None;
        }
        n = n * 10 + u32::from(bytes[len] - b'0');
        len += 1;
    }
    if len == 0 {
        return None;
    }
    if len > 1 {
        if bytes[0] == b'0' {
            return None;
        }
    }
    Some((n, &bytes[len..]))
}

// The number of 64 bits that a word is.
pub(crate) fn number(word: &[u8]) -> Option<i64>
    ensures { result ≡ number_of word.now }
{
    match few_digits(word) {
        Some(n) => Some(i64::from(n)),
        None => scanned(word),
    }
}

// The number that a word of up to nine digits is. None says nothing of the word.
#[tactic(auto, using(crate::proofs::Fronts::all_natural))]
fn few_digits(word: &[u8]) -> Option<u32>
    ensures some { IfSome result (λ n. natural_of word.now ≡ Some n) }
{
    let (n, rest) = front_number(word)?;
    if rest.is_empty() { Some(n) } else { None }
}

// The number of 64 bits that a word of any form is.
fn scanned(word: &[u8]) -> Option<i64>
    ensures { result ≡ number_of word.now }
{
    let (n, end) = scan_num(word, 0)?;
    if end == word.len() { Some(n) } else { None }
}

// The number as one of 32 bits without a sign.
fn short(n: i64) -> Option<u32>
    ensures { result ≡ short_of n }
{
    if n < 0 || n > 4_294_967_295 {
        None
    } else {
        Some(n as u32)
    }
}

// The number of 32 bits, without a sign, that a word is.
#[tactic(auto, using(crate::proofs::Scanned::natural_by_number))]
pub(crate) fn natural(word: &[u8]) -> Option<u32>
    ensures { result ≡ natural_of word.now }
{
    match few_digits(word) {
        Some(n) => Some(n),
        None => short(scanned(word)?),
    }
}

/// The number below the limit that a word is, in its one spelling. It is none where the word is no such number.
#[tactic(auto, using(crate::proofs::Scanned::below_by_natural))]
pub fn below(word: &[u8], limit: u32) -> Option<u32>
    ensures { result ≡ number_below limit word.now }
{
    let n = natural(word)?;
    if n < limit { Some(n) } else { None }
}

// The number from 1 to a limit that a word is.
pub(crate) fn count(word: &[u8], most: u32) -> Option<u32>
    requires { most < 5000 }
    ensures { result ≡ count_of most word.now }
{
    let n = below(word, most + 1)?;
    if n == 0 { None } else { Some(n) }
}

/// Whether a word is the number n in its one spelling.
pub fn is_number(word: &[u8], n: usize) -> bool
    ensures { result ≡ bytes_eq word.now (natural_text n) }
{
    if n < 4_294_967_296 {
        is_short(word, n)
    } else {
        is_long(word, n)
    }
}

// Whether a word is this number of 32 bits.
#[tactic(auto, using(crate::proofs::Known::same_number, crate::proofs::Known::no_number_there))]
fn is_short(word: &[u8], n: usize) -> bool
    requires { n < 2 ^ 32 }
    ensures { result ≡ bytes_eq word.now (natural_text n) }
{
    match natural(word) {
        Some(m) => m as usize == n,
        None => false,
    }
}

// Whether a word is this number of more than 32 bits.
fn is_long(word: &[u8], n: usize) -> bool
    ensures { result ≡ bytes_eq word.now (natural_text n) }
{
    let mut buffer = Buffer::new();
    word == buffer.format(n).as_bytes()
}
