// From bytes to a program.
ghost use Rattle.std.specs.Prelude.{◌<◌, ◌^◌, length, IfOk, IfErr};
ghost use Rattle.rx_rules.specs.Code.{Block};
ghost use Rattle.rx_syntax.specs.Shape.{Stands};
ghost use Rattle.rx_syntax.specs.Grammar.{IsScript};
ghost use Rattle.rx_check.specs.Checked.{Meets};
ghost use Rattle.rx_script.specs.Programs.{IsProgramFault, ProgramsHaveNoFault};

use crate::{ScriptFault, no_fault_in_script, one_script, read_script};
use rx_check::{CheckCause, Program, check};
use std::alloc::Global;

/// Why bytes are no program.
#[derive(Clone, Copy, Debug, PartialEq, Eq)]
pub enum ProgramFault {
    /// They are no script. `at` is the start of the first token that can't go on.
    Syntax { at: u32 },
    /// The script fails a rule: `node` is the statement, and `rule` the rule, from 1 to 5.
    Bad { rule: u8, node: u32 },
    /// There is no memory left.
    NoMemory,
}

/// A law: bytes that are a script which meets the rules are refused only for lack of memory.
pub fn programs_have_no_fault()
    ensures { ProgramsHaveNoFault }
{
    no_fault_in_script();
    one_script();
}

/// The program that fewer than 2^31 bytes are. `Syntax` comes exactly where they are no script, and `Bad` exactly where the script
/// fails a rule of docs/language.md.
pub fn program_of(alloc: Global, bytes: &[u8]) -> Result<Program, ProgramFault>
    requires { length bytes.now < 2 ^ 31 }
    ensures ok { IfOk result (λ p. (code : Block) × Stands p.script code × IsScript bytes.now code × Meets code) }
    ensures fault { IfErr result (λ f. IsProgramFault f bytes.now) }
{
    no_fault_in_script();
    let script = match read_script(alloc, bytes) {
        Ok(script) => script,
        Err(ScriptFault::Syntax { at }) => return Err(ProgramFault::Syntax { at }),
        Err(ScriptFault::NoMemory) => return Err(ProgramFault::NoMemory),
    };
    match check(alloc, script) {
        Ok(program) => Ok(program),
        Err(fault) => match fault.cause {
            CheckCause::Bad { rule, node } => Err(ProgramFault::Bad { rule, node }),
            CheckCause::NoMemory => Err(ProgramFault::NoMemory),
        },
    }
}
