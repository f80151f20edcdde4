// The five rules.
ghost use Rattle.std.specs.Prelude.{◌≡◌, Some, IfOk, IfErr, IsErrOf, ℕ};
ghost use Rattle.rx_rules.specs.Code.{Block, work};
ghost use Rattle.rx_syntax.specs.Shape.{Stands};
ghost use Rattle.rx_check.specs.Rules.{verdict};
ghost use Rattle.rx_check.specs.Checked.{Meets};
ghost use Rattle.rx_check.specs.declared.checker.CheckCause.TheVariants.{Bad, NoMemory};

use crate::Program;
use crate::walk::Walk;
use rx_syntax::{Script, whole};
use std::alloc::{AllocFailed, Global};

/// Why a script was not accepted.
#[derive(Clone, Copy, Debug, PartialEq, Eq)]
pub enum CheckCause {
    /// It fails a rule: `node` is the least statement that fails one of the rules 1 to 4, and `rule` the least that it fails; or the
    /// rule is 5 and the node 0.
    Bad { rule: u8, node: u32 },
    /// There is no memory left.
    NoMemory,
}

impl<T: Drop> From<AllocFailed<T>> for CheckCause {
    ghost from_gives = { λ _ e. e ≡ NoMemory };

    fn from(_: AllocFailed<T>) -> Self {
        CheckCause::NoMemory
    }
}

/// A script that was not accepted, and why.
#[derive(Drop)]
pub struct CheckFault {
    pub cause: CheckCause,
    pub script: Script,
}

/// Checks a script. `Bad` comes exactly where it fails a rule. A refusal hands the script back.
pub fn check(alloc: Global, script: Script) -> Result<Program, CheckFault>
    ensures ok { IfOk result (λ p. (p.script ≡ script) × ((t : Block) → Stands script t → Meets t × (p.work ≡ work t))) }
    ensures back { IfErr result (λ f. f.script ≡ script) }
    ensures bad { IfErr result (λ f. (rule node : ℕ) → f.cause ≡ Bad rule node → (t : Block) → Stands script t
        → verdict t ≡ Some (rule, node)) }
{
    match judge(alloc, &script) {
        Ok(work) => Ok(Program { script, work }),
        Err(cause) => Err(CheckFault { cause, script }),
    }
}

// The work of a script that meets the rules.
fn judge(alloc: Global, script: &Script) -> Result<u64, CheckCause>
    ensures ok { IfOk result (λ w. (t : Block) → Stands script.now t → Meets t × (w ≡ work t)) }
    ensures bad { (rule node : ℕ) → IsErrOf result (Bad rule node) → (t : Block) → Stands script.now t → verdict t ≡ Some (rule, node) }
{
    whole(script);
    let mut walk = Walk {
        seen: Vec::new(alloc),
        known: Vec::new(alloc),
        count: 0,
    };
    let work = walk.block(alloc, script, script.top(), 0)?;
    if work > 100_000 {
        return Err(CheckCause::Bad { rule: 5, node: 0 });
    }
    Ok(work)
}
