// A number is scanned where its one spelling stands.
ghost use Rattle.std.specs.Prelude.{◌≡◌, ◌≤◌, ◌<◌, ◌==◌, ◌^◌, ◌-◌, ◌&&◌, ◌++◌, not, nat_lt, nat_le, ℕ, ℤ, pos, negsuc};
ghost use Rattle.std.specs.Prelude.{List, length, take, drop, slice_index, Some, None, IfSome, IfNone, if◌then◌else◌};
ghost use Rattle.std.specs.Char.{is_ascii_digit};
ghost use Rattle.std.specs.List.{prefix_len};
ghost use Rattle.std.specs.Str.Parse.{digits_value};
ghost use Rattle.rx_text.specs.Numbers.{natural_text, NoDigitFirst, StandsAt};

/// The number that stands at a place, and its end: the longest one in the spelling of `put_num`, digits being read to the last
/// one. None comes exactly where no such number of 64 bits stands there. No memory is taken.
pub fn scan_num(bytes: &[u8], from: usize) -> Option<(i64, usize)>
    requires { from ≤ length bytes.now }
    ensures stands { IfSome result (λ x. StandsAt bytes.now from x.0 x.1) }
    ensures exact { (n : ℤ) (end : ℕ) → StandsAt bytes.now from n end → result ≡ Some (n, end) }
    ensures further { IfSome result (λ x. from < x.1) }
{
    let (n, len) = scan_front(&bytes[from..])?;
    Some((n, from + len))
}

// The number that stands in front, and its length.
fn scan_front(bytes: &[u8]) -> Option<(i64, usize)>
    ensures stands { IfSome result (λ x. StandsAt bytes.now 0 x.0 x.1) }
    ensures exact { (n : ℤ) (end : ℕ) → StandsAt bytes.now 0 n end → result ≡ Some (n, end) }
{
    if sign_len(bytes) == 0 {
        let (n, len) = scan_natural(bytes)?;
        Some((above(n)?, len))
    } else {
        let (n, len) = scan_natural(&bytes[1..])?;
        Some((below(n)?, 1 + len))
    }
}

// How many bytes the sign in front has.
fn sign_len(bytes: &[u8]) -> usize
    ensures sign { result ≡ (if slice_index bytes.now 0 == 45 then 1 else 0) }
    ensures within { result ≤ length bytes.now }
{
    match bytes {
        [b'-', ..] => 1,
        _ => 0,
    }
}

// The number as one of 64 bits with a sign.
fn above(n: u64) -> Option<i64>
    ensures { result ≡ (if nat_lt n (2 ^ 63) then Some (pos n) else None) }
{
    if n < 9_223_372_036_854_775_808 {
        Some(n as i64)
    } else {
        None
    }
}

// The number below 0 that has these digits after its sign; there is no `-0`.
fn below(n: u64) -> Option<i64>
    ensures { result ≡ (if nat_lt 0 n && nat_le n (2 ^ 63) then Some (negsuc (n - 1)) else None) }
{
    if n == 0 || n > 9_223_372_036_854_775_808 {
        None
    } else {
        Some(-1 - (n - 1) as i64)
    }
}

// The number without a sign that stands in front, and its length.
fn scan_natural(bytes: &[u8]) -> Option<(u64, usize)>
    ensures stands { IfSome result (λ x. (bytes.now ≡ natural_text x.0 ++ drop x.1 bytes.now) × NoDigitFirst (drop x.1 bytes.now)) }
    ensures within { IfSome result (λ x. x.1 ≤ length bytes.now) }
    ensures exact { (n : ℕ) (rest : List ℕ) → n < 10 ^ 19 → NoDigitFirst rest → bytes.now ≡ natural_text n ++ rest
        → result ≡ Some (n, length (natural_text n)) }
{
    let (n, len) = scan_digits(bytes)?;
    if is_spelling(bytes, len) {
        Some((n, len))
    } else {
        None
    }
}

// Whether so many digits in front are a number's spelling: one or more, and no 0 before others.
fn is_spelling(bytes: &[u8], len: usize) -> bool
    requires { len ≤ length bytes.now }
    ensures { result ≡ (nat_lt 0 len && not (nat_lt 1 len && (slice_index bytes.now 0 == 48))) }
{
    len > 0 && !(len > 1 && bytes[0] == b'0')
}

// The number that the digits in front are, and how many they are. None comes where there are more than 19, which no number of
// 64 bits has.
fn scan_digits(bytes: &[u8]) -> Option<(u64, usize)>
    ensures run { IfSome result (λ x. x.1 ≡ prefix_len is_ascii_digit bytes.now) }
    ensures short { IfSome result (λ x. x.1 ≤ 19) }
    ensures value { IfSome result (λ x. x.0 ≡ digits_value 10 (take x.1 bytes.now)) }
    ensures long { IfNone result (19 < prefix_len is_ascii_digit bytes.now) }
{
    let mut n: u64 = 0;
    let mut len = 0;
    'digits: while len < bytes.len() && bytes[len].is_ascii_digit() {
        if len == 19 {
            return None;
        }
        n = n * 10 + u64::from(bytes[len] - b'0');
        len += 1;
    }
    Some((n, len))
}
