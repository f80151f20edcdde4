// What the source gives.
ghost use Rattle.std.specs.Prelude.{◌≡◌, ◌⊎◌, ◌+◌, ◌<◌, ◌≤◌, ◌^◌, ℕ, false, List, length, Some, IfOk, IfErr, IsErrOf};
ghost use Rattle.std.specs.Io.KnownBytes.{Consumes};
ghost use Rattle.rx_base.specs.Outside.{Rose};
ghost use Rattle.rx_rules.specs.Code.{Block};
ghost use Rattle.rx_syntax.specs.Shape.{Stands};
ghost use Rattle.rx_program.specs.declared.status.Status.TheVariants.{Syntax, Bad, Pair, BadTrace, TooLong, ReadFault, NoMemory as NoRoom};
ghost use Rattle.rx_program.specs.Top.{WasRead, WasScript, IsGoodScript, IsUnmade};
ghost use Rattle.rx_program.specs.Refusals.{GaveNoScript, GaveBadScript, GaveTooMuch, TookNoMore};

use crate::outside::{ReadStop, read_all};
use crate::status::Status;
use rx_base::Source;
use rx_check::Program;
use rx_script::{ProgramFault, program_of, programs_have_no_fault};
use std::alloc::Global;

// The bytes that the source gives, if they are no more than so many, or the status of what it gives.
pub(crate) fn read_bytes<S: Source>(
    alloc: Global,
    input: &mut S,
    most: usize,
) -> Result<Vec<u8>, Status>
    requires { most < 2 ^ 31 }
    ensures ok { IfOk result (λ bytes. WasRead most (S.left input.old) (S.left input.new) bytes.items) }
    ensures kind { IfErr result (λ status. (status ≡ TooLong) ⊎ (status ≡ ReadFault) ⊎ (status ≡ NoRoom)) }
    ensures too_long { IsErrOf result TooLong → (bytes : List ℕ)
        × Consumes (S.left input.old) (S.left input.new) bytes × (length bytes ≡ most + 1) }
    ensures read_fault { IsErrOf result ReadFault → Rose (S.faults input.old) (S.faults input.new) }
    ensures taken { (bytes : List ℕ) × Consumes (S.left input.old) (S.left input.new) bytes × (length bytes ≤ most + 1) }
    ensures complete { (bytes : List ℕ) → S.left input.old ≡ Some bytes → length bytes ≤ most
        → (Rose (S.faults input.old) (S.faults input.new) → ⊥) → IfErr result (λ status. status ≡ NoRoom) }
    ensures later { S.faults input.old ≤ S.faults input.new }
{
    match read_all(alloc, input, most) {
        Ok(bytes) => Ok(bytes),
        Err(ReadStop::NoMemory) => Err(Status::NoMemory),
        Err(ReadStop::TooLong) => Err(Status::TooLong),
        Err(ReadStop::Fault) => Err(Status::ReadFault),
    }
}

// The program that the source gives, or the status of what it gives.
pub(crate) fn read_program<S: Source>(alloc: Global, input: &mut S) -> Result<Program, Status>
    ensures ok { IfOk result (λ p. (code : Block) × Stands p.script code × WasScript (S.left input.old) (S.left input.new) code) }
    ensures kind { IfErr result IsUnmade }
    ensures no_pair { IsErrOf result Pair → ⊥ }
    ensures no_bad_trace { (number : ℕ) → IsErrOf result (BadTrace number) → ⊥ }
    ensures syntax { (at : ℕ) → IsErrOf result (Syntax at) → GaveNoScript false (S.left input.old) (S.left input.new) at }
    ensures bad { (rule node : ℕ) → IsErrOf result (Bad rule node) → GaveBadScript false (S.left input.old) (S.left input.new) rule node }
    ensures too_long { IsErrOf result TooLong → GaveTooMuch false (S.left input.old) (S.left input.new) }
    ensures read_fault { IsErrOf result ReadFault → Rose (S.faults input.old) (S.faults input.new) }
    ensures taken { TookNoMore false (S.left input.old) (S.left input.new) }
    ensures complete { (bytes : List ℕ) → S.left input.old ≡ Some bytes → IsGoodScript bytes
        → (Rose (S.faults input.old) (S.faults input.new) → ⊥) → IfErr result (λ status. status ≡ NoRoom) }
    ensures later { S.faults input.old ≤ S.faults input.new }
{
    programs_have_no_fault();
    let bytes = match read_bytes(alloc, input, 65_536) {
        Ok(bytes) => bytes,
        Err(status) => return Err(status),
    };
    match program_of(alloc, &bytes) {
        Ok(program) => Ok(program),
        Err(ProgramFault::Syntax { at }) => Err(Status::Syntax { at }),
        Err(ProgramFault::Bad { rule, node }) => Err(Status::Bad { rule, node }),
        Err(ProgramFault::NoMemory) => Err(Status::NoMemory),
    }
}
