// What the program reads from and writes to, by what is known of its bytes and by a count of faults.
ghost use Rattle.std.specs.Prelude.{◌<◌, ◌≤◌, ℕ, List, Option, length, take, OnOk, OnErr};
ghost use Rattle.std.specs.Io.{ReadsAtMost, WritesAtMost};
ghost use Rattle.std.specs.Io.KnownBytes.{ReadConsumes, WriteAppends, Appends};
ghost use Rattle.rx_base.specs.Outside.{FailureIsCounted, TakesOne, Rose};

use crate::Failed;

/// What bytes come from.
pub trait Source {
    /// The bytes that are left, where it tells.
    ghost left: { Self → Option (List ℕ) };

    /// How often it has failed.
    ghost faults: { Self → ℕ };

    /// The next bytes. `Ok(0)` for a buffer that is not empty is the end.
    fn read(&mut self, buf: &mut [u8]) -> Result<usize, Failed>
        ensures bound { ReadsAtMost result buf.new }
        ensures bytes { ReadConsumes (left self.old) (left self.new) result buf.new }
        ensures cause { FailureIsCounted (faults self.old) (faults self.new) result };
}

/// What bytes go to.
pub trait Sink {
    /// The bytes that were written, where it tells.
    ghost written: { Self → Option (List ℕ) };

    /// How often it has failed.
    ghost faults: { Self → ℕ };

    /// Appends the first bytes, at least one of a piece that is not empty.
    fn write(&mut self, bytes: &[u8]) -> Result<usize, Failed>
        ensures bound { WritesAtMost result bytes.now }
        ensures bytes { WriteAppends (written self.old) (written self.new) result bytes.now }
        ensures one { TakesOne result bytes.now }
        ensures cause { FailureIsCounted (faults self.old) (faults self.new) result };
}

/// Writes all bytes. After a fault a proper front of them is written.
pub fn write_all<K: Sink>(out: &mut K, bytes: &[u8]) -> Result<(), Failed>
    ensures whole { OnOk result (Appends (K.written out.old) (K.written out.new) bytes.now) }
    ensures front { OnErr result ((n : ℕ) × (n < length bytes.now) × Appends (K.written out.old) (K.written out.new) (take n bytes.now)) }
    ensures fault { OnErr result (Rose (K.faults out.old) (K.faults out.new)) }
    ensures later { K.faults out.old ≤ K.faults out.new }
{
    let mut done = 0;
    'writes: while done < bytes.len() {
        match out.write(&bytes[done..]) {
            Ok(count) => done += count,
            Err(Failed) => return Err(Failed),
        }
    }
    Ok(())
}
