// From a pair to what is judged.
ghost use Rattle.std.specs.Prelude.{◌≡◌, ◌<◌, ◌^◌, length, IfOk, IfErr};
ghost use Rattle.rx_rules.specs.Code.{Block};
ghost use Rattle.rx_syntax.specs.Shape.{Stands};
ghost use Rattle.rx_history.specs.Events.{events_of};
ghost use Rattle.rx_history.specs.Setups.{given};
ghost use Rattle.rx_answers.specs.Cases.{IsCase};
ghost use Rattle.rx_answers.specs.Faults.{IsCaseFault};
ghost use Rattle.rx_answers.specs.declared.case.CaseFault.TheVariants.{NoMemory as NoRoom};

use crate::split_pair;
use rx_base::NoMemory;
use rx_check::Program;
use rx_history::{History, Journals};
use rx_script::{ProgramFault, program_of};
use rx_trace::{TraceFault, read_trace};
use std::alloc::Global;

/// Why no answer was made of bytes. A cause comes only where none before it stands.
#[derive(Clone, Copy, Debug, PartialEq, Eq)]
pub enum CaseFault {
    /// They are no pair of a script and a trace.
    Pair,
    /// The script of the pair is no script. `at` is the start of the first token that can't go on, counted from the script's first byte.
    Syntax { at: u32 },
    /// The script fails a rule: `node` is the statement, and `rule` the rule, from 1 to 5.
    Bad { rule: u8, node: u32 },
    /// The trace of the pair is no trace text. `number` is the first line that none has there, counted from 1.
    BadTrace { number: u32 },
    /// There is no memory left.
    NoMemory,
}

impl From<NoMemory> for CaseFault {
    ghost from_gives = { λ _ e. e ≡ NoRoom };

    fn from(_: NoMemory) -> Self {
        CaseFault::NoMemory
    }
}

// A program, and a history and journals that may be a run of it.
#[derive(Drop)]
pub(crate) struct Case {
    pub(crate) program: Program,
    pub(crate) history: History,
    pub(crate) journals: Journals,
}

// What the bytes of a pair give to judge.
pub(crate) fn read_case(alloc: Global, bytes: &[u8]) -> Result<Case, CaseFault>
    requires { length bytes.now < 2 ^ 31 }
    ensures ok { IfOk result (λ c. (code : Block) × Stands c.program.script code
        × IsCase bytes.now code (given c.history.setup) c.history.entries (events_of c.journals)) }
    ensures fault { IfErr result (λ f. IsCaseFault f bytes.now) }
{
    let Some((script, trace)) = split_pair(bytes) else {
        return Err(CaseFault::Pair);
    };
    let program = match program_of(alloc, script) {
        Ok(program) => program,
        Err(ProgramFault::Syntax { at }) => return Err(CaseFault::Syntax { at }),
        Err(ProgramFault::Bad { rule, node }) => return Err(CaseFault::Bad { rule, node }),
        Err(ProgramFault::NoMemory) => return Err(CaseFault::NoMemory),
    };
    match read_trace(alloc, trace) {
        Ok((history, journals)) => Ok(Case {
            program,
            history,
            journals,
        }),
        Err(TraceFault::BadLine { number }) => Err(CaseFault::BadTrace { number }),
        Err(TraceFault::NoMemory) => Err(CaseFault::NoMemory),
    }
}
