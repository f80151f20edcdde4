// `verify` and `span`: from the source to the text of the answer.
ghost use Rattle.std.specs.Prelude.{◌≡◌, ◌≤◌, ℕ, true, List, Some, IfOk, IfErr, IsErrOf};
ghost use Rattle.rx_base.specs.Outside.{Rose};
ghost use Rattle.rx_program.specs.declared.status.Status.TheVariants.{Syntax, Bad, Pair, BadTrace, TooLong, ReadFault, NoMemory as NoRoom};
ghost use Rattle.rx_program.specs.Top.{IsAnswered, IsGoodPair, IsUnmade, status_by};
ghost use Rattle.rx_program.specs.Refusals.{GaveNoScript, GaveBadScript, GaveNoPair, GaveBadTrace, GaveTooMuch, TookNoMore};

use crate::source::read_bytes;
use crate::status::Status;
use rx_answers::laws::cases_have_no_fault;
use rx_answers::{CaseFault, Question, answer};
use rx_base::Source;
use std::alloc::Global;

// The text of the answer to the pair that the source gives, and whether it is a yes, or the status of what the source gives.
pub(crate) fn answer_text<S: Source>(
    alloc: Global,
    input: &mut S,
    question: Question,
) -> Result<(Vec<u8>, bool), Status>
    ensures ok { IfOk result (λ r. IsAnswered question (S.left input.old) (S.left input.new) r.0.items (status_by r.1)) }
    ensures kind { IfErr result IsUnmade }
    ensures syntax { (at : ℕ) → IsErrOf result (Syntax at) → GaveNoScript true (S.left input.old) (S.left input.new) at }
    ensures bad { (rule node : ℕ) → IsErrOf result (Bad rule node) → GaveBadScript true (S.left input.old) (S.left input.new) rule node }
    ensures pair { IsErrOf result Pair → GaveNoPair (S.left input.old) (S.left input.new) }
    ensures bad_trace { (number : ℕ) → IsErrOf result (BadTrace number) → GaveBadTrace (S.left input.old) (S.left input.new) number }
    ensures too_long { IsErrOf result TooLong → GaveTooMuch true (S.left input.old) (S.left input.new) }
    ensures read_fault { IsErrOf result ReadFault → Rose (S.faults input.old) (S.faults input.new) }
    ensures taken { TookNoMore true (S.left input.old) (S.left input.new) }
    ensures complete { (bytes : List ℕ) → S.left input.old ≡ Some bytes → IsGoodPair bytes
        → (Rose (S.faults input.old) (S.faults input.new) → ⊥) → IfErr result (λ status. status ≡ NoRoom) }
    ensures later { S.faults input.old ≤ S.faults input.new }
{
    cases_have_no_fault();
    let bytes = match read_bytes(alloc, input, 16_777_216) {
        Ok(bytes) => bytes,
        Err(status) => return Err(status),
    };
    match answer(alloc, question, &bytes) {
        Ok(answer) => Ok(answer),
        Err(CaseFault::Pair) => Err(Status::Pair),
        Err(CaseFault::Syntax { at }) => Err(Status::Syntax { at }),
        Err(CaseFault::Bad { rule, node }) => Err(Status::Bad { rule, node }),
        Err(CaseFault::BadTrace { number }) => Err(Status::BadTrace { number }),
        Err(CaseFault::NoMemory) => Err(Status::NoMemory),
    }
}
