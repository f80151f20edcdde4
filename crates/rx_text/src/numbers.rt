// Numbers are written by their decimal digits.
ghost use Rattle.std.specs.Prelude.{◌≡◌, ◌+◌, ◌/◌, ◌%◌, ◌≤◌, ◌<◌, ◌++◌, ◌∷◌, [], OnOk, OnErr, length};
ghost use Rattle.std.specs.Prelude.{vec_len, vec_capacity};
ghost use Rattle.std.specs.Fmt.{decimal};
ghost use Rattle.rx_text.specs.Numbers.{number_text, natural_text};

use itoa::Buffer;
use rx_base::NoMemory;

/// Appends the decimal digits of a number, with `-` in front where it is below 0. A refusal leaves the text as it was.
pub fn put_num(out: &mut Vec<u8>, n: i64) -> Result<(), NoMemory>
    ensures ok { OnOk result (out.new.items ≡ out.old.items ++ number_text n) }
    ensures err { OnErr result (out.new.items ≡ out.old.items) }
{
    out.reserve(20)?;
    push_num(out, n);
    Ok(())
}

/// Appends the decimal digits of a number that has no sign. A refusal leaves the text as it was.
pub fn put_natural(out: &mut Vec<u8>, n: u32) -> Result<(), NoMemory>
    ensures ok { OnOk result (out.new.items ≡ out.old.items ++ natural_text n) }
    ensures err { OnErr result (out.new.items ≡ out.old.items) }
{
    out.reserve(12)?;
    push_natural(out, n);
    Ok(())
}

/// The same as `put_num`, where there is room for 20 bytes. No memory is taken.
pub fn push_num(out: &mut Vec<u8>, n: i64)
    requires room { vec_len out.old + 20 ≤ vec_capacity out.old }
    ensures items { out.new.items ≡ out.old.items ++ number_text n }
    ensures len { vec_len out.new ≤ vec_len out.old + 20 }
    ensures capacity { vec_capacity out.new ≡ vec_capacity out.old }
{
    match u32::try_from(n) {
        Ok(n) => push_natural(out, n),
        Err(_) => {
            let mut buffer = Buffer::new();
            let text = buffer.format(n);
            push_bytes(out, text.as_bytes());
        }
    }
}

/// The same as `put_natural`, where there is room for 12 bytes. No memory is taken.
#[tactic(auto, using(crate::proofs::Short::one_digit))]
pub fn push_natural(out: &mut Vec<u8>, n: u32)
    requires room { vec_len out.old + 12 ≤ vec_capacity out.old }
    ensures items { out.new.items ≡ out.old.items ++ natural_text n }
    ensures len { vec_len out.new ≤ vec_len out.old + 12 }
    ensures capacity { vec_capacity out.new ≡ vec_capacity out.old }
{
    // Most numbers have one digit.
    if n < 10 {
        push_last(out, n);
    } else {
        push_digits(out, n);
    }
}

/// Appends a text as it is. A refusal leaves what was there.
pub fn put_text(out: &mut Vec<u8>, text: &[u8]) -> Result<(), NoMemory>
    ensures ok { OnOk result (out.new.items ≡ out.old.items ++ text.now) }
    ensures err { OnErr result (out.new.items ≡ out.old.items) }
{
    out.extend_from_slice(text)?;
    Ok(())
}

/// Appends bytes for which there is room. No memory is taken.
pub fn push_bytes(out: &mut Vec<u8>, bytes: &[u8])
    requires room { vec_len out.old + length bytes.now ≤ vec_capacity out.old }
    ensures items { out.new.items ≡ out.old.items ++ bytes.now }
    ensures len { vec_len out.new ≡ vec_len out.old + length bytes.now }
    ensures capacity { vec_capacity out.new ≡ vec_capacity out.old }
{
    for byte in bytes {
        out.push_reserved(*byte);
    }
}

// Appends the digits of a number, four at a time.
#[tactic(auto, using(std::proofs::Common::append_assoc, crate::proofs::Short::more_digits))]
fn push_digits(out: &mut Vec<u8>, n: u32)
    requires room { vec_len out.old + 12 ≤ vec_capacity out.old }
    ensures items { out.new.items ≡ out.old.items ++ decimal n }
    ensures len { vec_len out.new ≤ vec_len out.old + 12 }
    ensures capacity { vec_capacity out.new ≡ vec_capacity out.old }
{
    if n < 10_000 {
        push_four(out, n);
    } else {
        push_eight(out, n / 10_000);
        push_all_four(out, n % 10_000);
    }
}

// Appends the digits of a number that has eight at the most.
#[tactic(auto, using(std::proofs::Common::append_assoc, crate::proofs::Short::more_digits))]
fn push_eight(out: &mut Vec<u8>, n: u32)
    requires most { n < 100000000 }
    requires room { vec_len out.old + 8 ≤ vec_capacity out.old }
    ensures items { out.new.items ≡ out.old.items ++ decimal n }
    ensures len { vec_len out.new ≤ vec_len out.old + 8 }
    ensures capacity { vec_capacity out.new ≡ vec_capacity out.old }
{
    if n < 10_000 {
        push_four(out, n);
    } else {
        push_four(out, n / 10_000);
        push_all_four(out, n % 10_000);
    }
}

// Appends the digits of a number that has four at the most.
#[tactic(auto, using(std::proofs::Common::append_assoc, crate::proofs::Short::three_digits, crate::proofs::Short::four_digits))]
fn push_four(out: &mut Vec<u8>, n: u32)
    requires most { n < 10000 }
    requires room { vec_len out.old + 4 ≤ vec_capacity out.old }
    ensures items { out.new.items ≡ out.old.items ++ decimal n }
    ensures len { vec_len out.new ≤ vec_len out.old + 4 }
    ensures capacity { vec_capacity out.new ≡ vec_capacity out.old }
{
    match n {
        0..=99 => push_two(out, n),
        100..=999 => {
            push_last(out, n / 100);
            push_last(out, n / 10);
            push_last(out, n);
        }
        _ => push_all_four(out, n),
    }
}

// Appends the digits of a number that has two at the most.
#[tactic(auto, using(std::proofs::Common::append_assoc, crate::proofs::Short::one_digit, crate::proofs::Short::two_digits))]
fn push_two(out: &mut Vec<u8>, n: u32)
    requires most { n < 100 }
    requires room { vec_len out.old + 2 ≤ vec_capacity out.old }
    ensures items { out.new.items ≡ out.old.items ++ decimal n }
    ensures len { vec_len out.new ≤ vec_len out.old + 2 }
    ensures capacity { vec_capacity out.new ≡ vec_capacity out.old }
{
    if n < 10 {
        push_last(out, n);
    } else {
        push_last(out, n / 10);
        push_last(out, n);
    }
}

// Appends the last four digits of a number, also where they begin with zeros.
fn push_all_four(out: &mut Vec<u8>, n: u32)
    requires room { vec_len out.old + 4 ≤ vec_capacity out.old }
    ensures items { out.new.items ≡ out.old.items ++ (48 + n / 1000 % 10) ∷ (48 + n / 100 % 10) ∷ (48 + n / 10 % 10) ∷ (48 + n % 10) ∷ [] }
    ensures len { vec_len out.new ≤ vec_len out.old + 4 }
    ensures capacity { vec_capacity out.new ≡ vec_capacity out.old }
{
    push_last(out, n / 1000);
    push_last(out, n / 100);
    push_last(out, n / 10);
    push_last(out, n);
}

// Appends the last digit of a number.
fn push_last(out: &mut Vec<u8>, n: u32)
    requires room { vec_len out.old < vec_capacity out.old }
    ensures items { out.new.items ≡ out.old.items ++ (48 + n % 10) ∷ [] }
    ensures len { vec_len out.new ≡ vec_len out.old + 1 }
    ensures capacity { vec_capacity out.new ≡ vec_capacity out.old }
{
    out.push_reserved(b'0' + (n % 10) as u8);
}
