// What is written.
ghost use Rattle.std.specs.Prelude.{◌≡◌, [], true, false};
ghost use Rattle.rx_text.specs.Numbers.{natural_text, number_text};
ghost use Rattle.rx_lines.specs.Inside.Telling.{Puts};

use itoa::Buffer;
use rx_base::{Failed, Sink, write_all};
use std::alloc::Global;

// How many bytes are kept, at least, before they are written.
const KEPT: usize = 65_536;

/// Text that is told, and not written yet. No call fails for memory: where there is none, a piece is written at once. After a write that
/// failed nothing more is written.
#[derive(Drop)]
pub struct Pending {
    text: Vec<u8>,
    is_failed: bool,
}

impl Pending {
    /// No text.
    pub fn none(alloc: Global) -> Pending
        ensures text { result.text.items ≡ [] }
        ensures whole { result.is_failed ≡ false }
    {
        Pending {
            text: Vec::new(alloc),
            is_failed: false,
        }
    }

    /// Whether a write has failed.
    pub fn has_failed(&self) -> bool
        ensures { result ≡ self.now.is_failed }
    {
        self.is_failed
    }

    /// Tells a number that has no sign.
    pub fn put_natural<K: Sink>(&mut self, out: &mut K, n: u32)
        ensures { Puts K.written K.faults out.old self.old out.new self.new (natural_text n) }
    {
        let mut buffer = Buffer::new();
        self.put(out, buffer.format(n).as_bytes());
    }

    /// The same for a number of 64 bits.
    pub fn put_long<K: Sink>(&mut self, out: &mut K, n: u64)
        ensures { Puts K.written K.faults out.old self.old out.new self.new (natural_text n) }
    {
        let mut buffer = Buffer::new();
        self.put(out, buffer.format(n).as_bytes());
    }

    /// Tells a number.
    pub fn put_number<K: Sink>(&mut self, out: &mut K, n: i64)
        ensures { Puts K.written K.faults out.old self.old out.new self.new (number_text n) }
    {
        let mut buffer = Buffer::new();
        self.put(out, buffer.format(n).as_bytes());
    }

    /// Tells a piece of text.
    pub fn put<K: Sink>(&mut self, out: &mut K, piece: &[u8])
        ensures { Puts K.written K.faults out.old self.old out.new self.new piece.now }
    {
        self.write_many(out);
        match self.text.extend_from_slice(piece) {
            Ok(()) => {}
            Err(_) => {
                self.write(out);
                self.write_piece(out, piece);
            }
        }
    }

    // Writes the text where it is long.
    fn write_many<K: Sink>(&mut self, out: &mut K)
        ensures { Puts K.written K.faults out.old self.old out.new self.new [] }
    {
        if self.text.len() >= KEPT {
            self.write(out);
        }
    }

    /// Writes the text.
    pub fn write<K: Sink>(&mut self, out: &mut K)
        ensures puts { Puts K.written K.faults out.old self.old out.new self.new [] }
        ensures none { self.new.text.items ≡ [] }
    {
        if self.is_failed {
            self.text.clear();
            return;
        }
        match write_all(out, &self.text) {
            Ok(()) => self.text.clear(),
            Err(Failed) => {
                self.is_failed = true;
                self.text.clear();
            }
        }
    }

    // Writes a piece for which no text waits.
    fn write_piece<K: Sink>(&mut self, out: &mut K, piece: &[u8])
        requires { self.old.text.items ≡ [] }
        ensures { Puts K.written K.faults out.old self.old out.new self.new piece.now }
    {
        if self.is_failed {
            return;
        }
        match write_all(out, piece) {
            Ok(()) => {}
            Err(Failed) => self.is_failed = true,
        }
    }
}
