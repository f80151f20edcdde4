// What became of a command.
ghost use Rattle.std.specs.Prelude.{◌≡◌, Some};
ghost use Rattle.rx_program.specs.Top.{exit_of, line_of};

use std::fmt;

/// What became of a command.
#[derive(Clone, Copy, Debug, PartialEq, Eq)]
pub enum Status {
    /// `step`: the run ended, nothing was lost and nothing was thrown at the root, and the whole trace was written. `check`: the
    /// work was written. `verify`: the trace is one of a whole run. `span`: the same, and its longest chain was written.
    Done,
    /// The run ended, something was lost or thrown at the root, and the whole trace was written. `verify` and `span`: the trace is
    /// not one of a whole run, and the verdict was written.
    Faulted,
    /// The words are no command. `word` is the number of the first bad one, from 0; where they are too few, how many there are.
    Usage { word: u32 },
    /// The source's bytes are no script, or those of the script of a pair are none. `at` is the start of the first token that can't
    /// go on, in the script.
    Syntax { at: u32 },
    /// The script fails a rule: `node` is the statement, and `rule` the rule.
    Bad { rule: u8, node: u32 },
    /// The source gave more than 65,536 bytes; of `verify` and `span`, more than 16,777,216.
    TooLong,
    /// The source failed.
    ReadFault,
    /// The sink failed. It has taken a proper front of the text.
    WriteFault,
    /// There is no memory left.
    NoMemory,
    /// `verify` and `span`: the source's bytes are no pair of a script and a trace.
    Pair,
    /// `verify` and `span`: the trace is no trace text. `number` is the first line of it that none has there, counted from 1.
    BadTrace { number: u32 },
}

impl Status {
    /// The status that the program ends with.
    pub fn exit(self) -> u8
        ensures { result ≡ exit_of self }
    {
        match self {
            Status::Done => 0,
            Status::Faulted => 1,
            Status::Usage { .. } => 2,
            Status::Syntax { .. } => 3,
            Status::Bad { .. } => 4,
            Status::TooLong => 5,
            Status::ReadFault => 6,
            Status::WriteFault => 7,
            Status::NoMemory => 8,
            Status::Pair => 9,
            Status::BadTrace { .. } => 10,
        }
    }

    /// Writes its line to standard error; `Done` and `Faulted` have none. Where that fails, nothing more can be said.
    pub fn tell<R: Eprint>(self, rt: &R) {
        match self {
            Status::Done => {}
            Status::Faulted => {}
            _ => {
                let _ = eprintln!(rt; "{self}");
            }
        }
    }
}

/// Its line on standard error, without the end of the line.
impl fmt::Display for Status {
    ghost output = { λ s. Some (line_of s) };

    fn fmt<W: fmt::Write>(&self, f: &mut fmt::Formatter<W>) -> fmt::Result {
        match self {
            Status::Done => Ok(()),
            Status::Faulted => Ok(()),
            Status::Usage { word } => write!(f, "usage {word}"),
            Status::Syntax { at } => write!(f, "syntax {at}"),
            Status::Bad { rule, node } => write!(f, "bad {rule} {node}"),
            Status::TooLong => f.write_str("too long"),
            Status::ReadFault => f.write_str("read fault"),
            Status::WriteFault => f.write_str("write fault"),
            Status::NoMemory => f.write_str("no memory"),
            Status::Pair => f.write_str("bad pair"),
            Status::BadTrace { number } => write!(f, "bad line {number}"),
        }
    }
}
