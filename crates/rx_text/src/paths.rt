// Paths are written by their numbers, joined by dots.
ghost use Rattle.std.specs.Prelude.{◌≡◌, ◌+◌, ◌*◌, ◌≤◌, ◌++◌, length, OnOk, OnErr, vec_len, vec_capacity};
ghost use Rattle.rx_text.specs.Paths.{path_text, dotted};

use crate::push_natural;
use rx_base::{NoMemory, Path};

/// Appends the numbers of a path, joined by dots. A refusal leaves the text as it was.
pub fn put_path(out: &mut Vec<u8>, p: &Path) -> Result<(), NoMemory>
    ensures ok { OnOk result (out.new.items ≡ out.old.items ++ path_text p.now) }
    ensures err { OnErr result (out.new.items ≡ out.old.items) }
{
    // A number has a dot and twelve bytes at the most.
    let Some(room) = p.len().checked_mul(13) else {
        return Err(NoMemory);
    };
    out.reserve(room)?;
    let mut short = [0; 7];
    push_numbers(out, p.numbers(&mut short));
    Ok(())
}

// Appends the text of a path, for which there is room.
fn push_numbers(out: &mut Vec<u8>, numbers: &[u32])
    requires room { vec_len out.old + length numbers.now * 13 ≤ vec_capacity out.old }
    ensures { out.new.items ≡ out.old.items ++ path_text numbers.now }
{
    if let [first, rest @ ..] = numbers {
        push_natural(out, *first);
        for n in rest {
            push_dotted(out, *n);
        }
    }
}

// Appends a dot and a number.
fn push_dotted(out: &mut Vec<u8>, n: u32)
    requires room { vec_len out.old + 13 ≤ vec_capacity out.old }
    ensures items { out.new.items ≡ out.old.items ++ dotted n }
    ensures len { vec_len out.new ≤ vec_len out.old + 13 }
    ensures capacity { vec_capacity out.new ≡ vec_capacity out.old }
{
    out.push_reserved(b'.');
    push_natural(out, n);
}
