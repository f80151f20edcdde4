// The line that is being read.
ghost use Rattle.std.specs.Prelude.{◌≡◌, ◌++◌, ◌∷◌, ℕ, List, [], IfOk};
ghost use Rattle.rx10_coordinator.specs.declared.received.Extent.TheVariants.{Whole};
ghost use Rattle.rx_lines.specs.Session.{request_in};
ghost use Rattle.rx10_coordinator.specs.Inside.Desk.{IsLine};

use rx_base::NoMemory;
use rx_coordinator::Request;
use rx_lines::read_line;
use std::alloc::Global;

// How many bytes a line has at most, its end left out.
const LONGEST: usize = 4096;

// What there is of a line.
#[derive(Clone, Copy)]
enum Extent {
    // All its bytes so far.
    Whole,
    // It has more bytes than a line may have.
    Long,
    // Memory ran out for it.
    Cut,
}

/// The bytes of a line so far.
#[derive(Drop)]
pub(crate) struct Received {
    alloc: Global,
    bytes: Vec<u8>,
    extent: Extent,
}

impl Received {
    /// No bytes.
    pub(crate) fn none(alloc: Global) -> Received
        ensures { IsLine result [] }
    {
        Received {
            alloc,
            bytes: Vec::new(alloc),
            extent: Extent::Whole,
        }
    }

    /// Takes one byte more.
    pub(crate) fn push(&mut self, byte: u8)
        ensures { (line : List ℕ) → IsLine self.old line → IsLine self.new (line ++ byte ∷ []) }
    {
        match self.extent {
            Extent::Whole => self.push_whole(byte),
            Extent::Long => {}
            Extent::Cut => {}
        }
    }

    // Takes one byte more where all before are there.
    fn push_whole(&mut self, byte: u8)
        requires { self.old.extent ≡ Whole }
        ensures { (line : List ℕ) → IsLine self.old line → IsLine self.new (line ++ byte ∷ []) }
    {
        if self.bytes.len() >= LONGEST {
            self.extent = Extent::Long;
            return;
        }
        match self.bytes.push(byte) {
            Ok(()) => {}
            Err(_) => self.extent = Extent::Cut,
        }
    }

    /// The request that the line is. It is none where the line is none.
    pub(crate) fn request(&self) -> Result<Option<Request>, NoMemory>
        ensures { (line : List ℕ) → IsLine self.now line → IfOk result (λ q. q ≡ request_in line) }
    {
        match self.extent {
            Extent::Whole => read_line(self.alloc, &self.bytes),
            Extent::Long => Ok(None),
            Extent::Cut => Err(NoMemory),
        }
    }

    /// Begins the next line.
    pub(crate) fn clear(&mut self)
        ensures { IsLine self.new [] }
    {
        self.bytes.clear();
        self.extent = Extent::Whole;
    }
}
