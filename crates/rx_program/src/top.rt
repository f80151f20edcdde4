// The program, over any source and sink.
ghost use Rattle.std.specs.Prelude.{◌≡◌, ◌⊎◌, ◌<◌, ◌≤◌, ℕ, true, List, Option, length, take, Some, None, Ok, IfOk, IfErr, IsErrOf};
ghost use Rattle.std.specs.Io.KnownBytes.{Appends};
ghost use Rattle.rx_base.specs.Outside.{Rose};
ghost use Rattle.rx_rules.specs.Run.{Given};
ghost use Rattle.rx_words.specs.Words.{Asked, Gen, asked, told_number, BadWord, source};
ghost use Rattle.rx_words.specs.Commands.{IsAsked, IsProper, source_of};
ghost use Rattle.rx_program.specs.declared.status.Status.{Status as Told};
ghost use Rattle.rx_program.specs.declared.status.Status.TheVariants.{Usage, Syntax, Bad, TooLong, ReadFault, WriteFault, NoMemory as NoRoom};
ghost use Rattle.rx_program.specs.declared.status.Status.TheVariants.{Pair, BadTrace};
ghost use Rattle.rx_program.specs.Top.{takes_pair, IsOutcome, CanDo, IsUnmade, IsOver, status_by};
ghost use Rattle.rx_program.specs.Refusals.{GaveNoScript, GaveBadScript, GaveNoPair, GaveBadTrace, GaveTooMuch, TookNoMore};
ghost use Rattle.rx_program.specs.Inside.Takes.{takes};

use crate::pair::answer_text;
use crate::run::{make_counts, make_trace, tell_work};
use crate::source::read_program;
use crate::status::Status;
use rx_answers::Question;
use rx_base::{NoMemory, RxWord, Sink, Source, write_all};
use rx_words::{Command, PickWords, WordFault, read_words};
use std::alloc::Global;

/// Does what the words say. `step` runs the script that the source gives, with the picks that the words ask for, and writes its
/// trace to the sink; `gen` runs a script that it makes, and writes the numbers of its history; `check` writes the work of the script
/// that the source gives; `verify` and `span` write the verdict on the trace, or the longest chain of the run, that the source gives
/// with its script. It always returns. The source is read to its end or until 65,537 bytes have come (of `verify` and `span` until
/// 16,777,217), by `gen` not at all, and the whole text is made before the first write. docs/commands.md states the words, each
/// status and its cause.
pub fn rx10_step<S: Source, K: Sink>(
    alloc: Global,
    words: &[RxWord],
    input: &mut S,
    out: &mut K,
) -> Status
    // The words, from both sides, unless memory runs out. Bad words leave the source as it was.
    ensures usage { (word : ℕ) → result ≡ Usage word → (k : ℕ) × (asked words.now ≡ BadWord k) × (word ≡ told_number k) }
    ensures words { (k : ℕ) → asked words.now ≡ BadWord k → ((result ≡ Usage (told_number k)) ⊎ (result ≡ NoRoom))
        × (input.new ≡ input.old) }
    // `gen` does not touch the source.
    ensures unread { (size : ℕ) (U : Given) (seed : Option ℕ) → asked words.now ≡ Gen size U seed → input.new ≡ input.old }
    // The theorem: what was read is a script that meets the rules, and what was written is what the words ask for: of `step`, the
    // trace of a run of it; of `verify`, the verdict on the trace that was read with it; of `span`, the longest chain of its run.
    ensures over { IsOver result → (text : List ℕ)
        × IsOutcome (asked words.now) (S.left input.old) (S.left input.new) text result
        × Appends (K.written out.old) (K.written out.new) text }
    // The causes of the refusals.
    ensures syntax { (at : ℕ) → result ≡ Syntax at → GaveNoScript (takes_pair (asked words.now)) (S.left input.old) (S.left input.new) at }
    ensures bad { (rule node : ℕ) → result ≡ Bad rule node →
        GaveBadScript (takes_pair (asked words.now)) (S.left input.old) (S.left input.new) rule node }
    ensures pair { result ≡ Pair → (takes_pair (asked words.now) ≡ true) × GaveNoPair (S.left input.old) (S.left input.new) }
    ensures bad_trace { (number : ℕ) → result ≡ BadTrace number → (takes_pair (asked words.now) ≡ true)
        × GaveBadTrace (S.left input.old) (S.left input.new) number }
    ensures too_long { result ≡ TooLong → GaveTooMuch (takes_pair (asked words.now)) (S.left input.old) (S.left input.new) }
    ensures read_fault { result ≡ ReadFault → Rose (S.faults input.old) (S.faults input.new) }
    ensures write_fault { result ≡ WriteFault → Rose (K.faults out.old) (K.faults out.new) }
    // What a fault of the sink leaves, and that no other refusal touches the sink.
    ensures write_front { result ≡ WriteFault → (text : List ℕ) × (status : Told) × (n : ℕ)
        × IsOutcome (asked words.now) (S.left input.old) (S.left input.new) text status
        × (n < length text)
        × Appends (K.written out.old) (K.written out.new) (take n text) }
    ensures untouched { (IsOver result → ⊥) → (result ≡ WriteFault → ⊥) → out.new ≡ out.old }
    ensures taken { TookNoMore (takes_pair (asked words.now)) (S.left input.old) (S.left input.new) }
    // What can be done, and is read and written without a fault, is done, unless memory runs out.
    ensures complete { CanDo (asked words.now) (S.left input.old) →
        (Rose (S.faults input.old) (S.faults input.new) → ⊥) → (Rose (K.faults out.old) (K.faults out.new) → ⊥) →
        IsOver result ⊎ (result ≡ NoRoom) }
    ensures read_later { S.faults input.old ≤ S.faults input.new }
    ensures write_later { K.faults out.old ≤ K.faults out.new }
{
    let command = match read_words(alloc, words) {
        Ok(command) => command,
        Err(WordFault::Bad { word }) => return Status::Usage { word },
        Err(WordFault::NoMemory) => return Status::NoMemory,
    };
    match make_text(alloc, command, input) {
        Ok((text, clean)) => put_text(out, &text, clean),
        Err(status) => status,
    }
}

// The text that is asked for, and whether the run that it tells of lost nothing and threw nothing at the root.
fn make_text<S: Source>(
    alloc: Global,
    command: Command,
    input: &mut S,
) -> Result<(Vec<u8>, bool), Status>
    requires { IsProper command }
    ensures ok { IfOk result (λ r. (asked : Asked) → IsAsked command asked
        → IsOutcome asked (S.left input.old) (S.left input.new) r.0.items (status_by r.1)) }
    ensures unread { (size : ℕ) (U : Given) (seed : Option ℕ) → IsAsked command (Gen size U seed) → input.new ≡ input.old }
    ensures kind { IfErr result IsUnmade }
    ensures syntax { (at : ℕ) → IsErrOf result (Syntax at) → GaveNoScript (takes command) (S.left input.old) (S.left input.new) at }
    ensures bad { (rule node : ℕ) → IsErrOf result (Bad rule node) →
        GaveBadScript (takes command) (S.left input.old) (S.left input.new) rule node }
    ensures pair { IsErrOf result Pair → (takes command ≡ true) × GaveNoPair (S.left input.old) (S.left input.new) }
    ensures bad_trace { (number : ℕ) → IsErrOf result (BadTrace number) → (takes command ≡ true)
        × GaveBadTrace (S.left input.old) (S.left input.new) number }
    ensures too_long { IsErrOf result TooLong → GaveTooMuch (takes command) (S.left input.old) (S.left input.new) }
    ensures read_fault { IsErrOf result ReadFault → Rose (S.faults input.old) (S.faults input.new) }
    ensures taken { TookNoMore (takes command) (S.left input.old) (S.left input.new) }
    ensures complete { (asked : Asked) → IsAsked command asked → CanDo asked (S.left input.old)
        → (Rose (S.faults input.old) (S.faults input.new) → ⊥) → IfErr result (λ status. status ≡ NoRoom) }
    ensures later { S.faults input.old ≤ S.faults input.new }
{
    match command {
        Command::Step { setup, picks } => match read_program(alloc, input) {
            Ok(program) => made(make_trace(alloc, &program, setup, picks)),
            Err(status) => Err(status),
        },
        Command::Gen { size, setup, seed } => {
            made(make_counts(alloc, size, setup, seeded(seed)))
        }
        Command::Check => match read_program(alloc, input) {
            Ok(program) => made(tell_work(alloc, &program)),
            Err(status) => Err(status),
        },
        Command::Verify => answer_text(alloc, input, Question::Verify),
        Command::Span => answer_text(alloc, input, Question::Span),
    }
}

// Out of memory, as a status.
pub(crate) fn made(text: Result<(Vec<u8>, bool), NoMemory>) -> Result<(Vec<u8>, bool), Status>
    ensures ok { IfOk result (λ r. text ≡ Ok r) }
    ensures err { IfErr result (λ status. status ≡ NoRoom) }
{
    match text {
        Ok(made) => Ok(made),
        Err(_) => Err(Status::NoMemory),
    }
}

// The picks of a seed, or else 0.
fn seeded(seed: Option<u64>) -> PickWords
    ensures { source_of result ≡ source None seed }
{
    match seed {
        Some(seed) => PickWords::Seed(seed),
        None => PickWords::Zeros,
    }
}

// Writes a text, and tells the status of the run.
pub(crate) fn put_text<K: Sink>(out: &mut K, text: &[u8], clean: bool) -> Status
    ensures over { IsOver result → (result ≡ status_by clean) × Appends (K.written out.old) (K.written out.new) text.now }
    ensures kind { IsOver result ⊎ (result ≡ WriteFault) }
    ensures front { result ≡ WriteFault → (n : ℕ) × (n < length text.now)
        × Appends (K.written out.old) (K.written out.new) (take n text.now) }
    ensures fault { result ≡ WriteFault → Rose (K.faults out.old) (K.faults out.new) }
    ensures later { K.faults out.old ≤ K.faults out.new }
{
    match write_all(out, text) {
        Ok(()) => { if clean { Status::Done } else { Status::Faulted } }
        Err(_) => Status::WriteFault,
    }
}
