// Reads a source to its end.
ghost use Rattle.std.specs.Prelude.{◌≡◌, ◌+◌, ◌<◌, ◌≤◌, ◌^◌, ℕ, List, length, take, IfOk, IsErrOf};
ghost use Rattle.std.specs.Io.KnownBytes.{Consumes, IsAtEnd};
ghost use Rattle.rx_base.specs.Outside.{Rose};
ghost use Rattle.rx_program.specs.declared.outside.ReadStop.TheVariants.{NoMemory, TooLong, Fault};

use rx_base::{Failed, Source};
use std::alloc::{AllocError, Global};

// Why reading stopped before the end.
#[derive(Clone, Copy, Debug, PartialEq, Eq)]
pub(crate) enum ReadStop {
    NoMemory,
    TooLong,
    Fault,
}

impl From<AllocError> for ReadStop {
    ghost from_gives = { λ _ e. e ≡ NoMemory };

    fn from(_: AllocError) -> Self {
        ReadStop::NoMemory
    }
}

// All bytes of a source that gives no more than so many. It takes at most one byte more.
pub(crate) fn read_all<S: Source>(
    alloc: Global,
    input: &mut S,
    most: usize,
) -> Result<Vec<u8>, ReadStop>
    requires { most < 2 ^ 31 }
    ensures whole { IfOk result (λ v. Consumes (S.left input.old) (S.left input.new) v.items × IsAtEnd (S.left input.new)
        × (length v.items ≤ most)) }
    ensures too_long { IsErrOf result TooLong → (bytes : List ℕ) × Consumes (S.left input.old) (S.left input.new) bytes
        × (length bytes ≡ most + 1) }
    ensures fault { IsErrOf result Fault → Rose (S.faults input.old) (S.faults input.new) }
    ensures taken { (bytes : List ℕ) × Consumes (S.left input.old) (S.left input.new) bytes × (length bytes ≤ most + 1) }
    ensures later { S.faults input.old ≤ S.faults input.new }
{
    let mut bytes = Vec::new(alloc);
    let mut buf = [0u8; 16_384];
    'reads: while bytes.len() <= most {
        let want = (most + 1 - bytes.len()).min(16_384);
        match input.read(&mut buf[..want]) {
            Ok(count) => {
                if count == 0 {
                    return Ok(bytes);
                }
                bytes.extend_from_slice(&buf[..count])?;
            }
            Err(Failed) => return Err(ReadStop::Fault),
        }
    }
    Err(ReadStop::TooLong)
}
