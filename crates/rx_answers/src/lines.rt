// The lines of answers.
ghost use Rattle.std.specs.Prelude.{◌≡◌, ◌++◌, OnOk};
ghost use Rattle.std.specs.List.{flat_map};
ghost use Rattle.rx_text.specs.Numbers.{natural_text};
ghost use Rattle.rx_answers.specs.Lines.{numbered, verdict_line, path_line, span_text};

use itoa::Buffer;
use rx_base::{Batch, NoMemory, Path};
use rx_text::{put_path, put_text};
use rx_verdict::Verdict;

// A number that has no sign.
fn put_size(out: &mut Vec<u8>, n: usize) -> Result<(), NoMemory>
    ensures { OnOk result (out.new.items ≡ out.old.items ++ natural_text n) }
{
    let mut buffer = Buffer::new();
    put_text(out, buffer.format(n).as_bytes())
}

// A line that ends with a number.
#[tactic(auto, using(std::proofs::Common::append_assoc))]
fn put_numbered(out: &mut Vec<u8>, words: &[u8], n: usize) -> Result<(), NoMemory>
    ensures { OnOk result (out.new.items ≡ out.old.items ++ numbered words.now n) }
{
    put_text(out, words)?;
    put_size(out, n)?;
    put_text(out, b"\n")
}

// The line of a verdict.
#[tactic(auto, using(std::proofs::Common::append_assoc))]
pub(crate) fn put_verdict(out: &mut Vec<u8>, verdict: Verdict) -> Result<(), NoMemory>
    ensures { OnOk result (out.new.items ≡ out.old.items ++ verdict_line verdict) }
{
    match verdict {
        Verdict::Run => put_text(out, b"run\n"),
        Verdict::Entry { number } => put_numbered(out, b"entry ", number as usize),
        Verdict::End => put_text(out, b"end\n"),
        Verdict::Event { place, number } => {
            put_text(out, b"event ")?;
            put_size(out, usize::from(place.0))?;
            put_numbered(out, b" ", number as usize)
        }
        Verdict::Open { place } => put_numbered(out, b"open ", usize::from(place.0)),
    }
}

// The lines of the longest chain.
#[tactic(auto, using(std::proofs::Common::append_assoc))]
pub(crate) fn put_span(out: &mut Vec<u8>, statements: u32, chain: &Batch) -> Result<(), NoMemory>
    ensures { OnOk result (out.new.items ≡ out.old.items ++ span_text statements chain.now) }
{
    put_numbered(out, b"statements ", statements as usize)?;
    put_numbered(out, b"chain ", chain.len())?;
    put_paths(out, chain)
}

// A line for each path.
fn put_paths(out: &mut Vec<u8>, paths: &Batch) -> Result<(), NoMemory>
    ensures { OnOk result (out.new.items ≡ out.old.items ++ flat_map path_line paths.now) }
{
    for i in 0..paths.len() {
        put_path_line(out, paths.item(i))?;
    }
    Ok(())
}

// The line of a path.
#[tactic(auto, using(std::proofs::Common::append_assoc))]
fn put_path_line(out: &mut Vec<u8>, path: &Path) -> Result<(), NoMemory>
    ensures { OnOk result (out.new.items ≡ out.old.items ++ path_line path.now) }
{
    put_path(out, path)?;
    put_text(out, b"\n")
}
