// A pair is cut into its script and its trace.
ghost use Rattle.std.specs.Prelude.{◌≡◌, ◌++◌, ◌∷◌, ℕ, List, None, codes, IfSome};
ghost use Rattle.rx_text.specs.Numbers.{natural_text};
ghost use Rattle.rx_answers.specs.Pair.{IsPair, IsHead};

use rx_text::{naturals_have_one_text, scan_num};

/// The script and the trace of a pair. None comes exactly where the bytes are none: they have no such first line, or fewer bytes of
/// script after it than it tells. No memory is taken.
pub fn split_pair(bytes: &[u8]) -> Option<(&[u8], &[u8])>
    ensures some { IfSome result (λ r. IsPair bytes.now r.0.now r.1.now) }
    ensures none { result ≡ None → (script trace : List ℕ) → IsPair bytes.now script trace → ⊥ }
{
    naturals_have_one_text();
    let (size, rest) = first_line(bytes)?;
    if size <= rest.len() {
        Some(rest.split_at(size))
    } else {
        None
    }
}

// The number of the first line, and what follows the line.
fn first_line(bytes: &[u8]) -> Option<(usize, &[u8])>
    ensures some { IfSome result (λ r. IsHead bytes.now r.0 r.1.now) }
    ensures none { result ≡ None → (size : ℕ) (rest : List ℕ) → IsHead bytes.now size rest → ⊥ }
{
    let tail = after(bytes, b"rx10 pair ")?;
    let (size, end) = scan_num(tail, 0)?;
    let rest = after(&tail[end..], b"\n")?;
    if 0 <= size && size <= 65_536 {
        Some((size as usize, rest))
    } else {
        None
    }
}

// What follows these bytes in front.
fn after<'a>(bytes: &'a [u8], front: &[u8]) -> Option<&'a [u8]>
    ensures some { IfSome result (λ rest. bytes.now ≡ front.now ++ rest.now) }
    ensures none { result ≡ None → (rest : List ℕ) → bytes.now ≡ front.now ++ rest → ⊥ }
{
    bytes.strip_prefix(front)
}
