// The program with threads, over any source, sink and gate.
ghost use Rattle.std.specs.Prelude.{◌≡◌, ◌⊎◌, ◌<◌, ◌≤◌, ℕ, true, false, List, Option, length, take, Some, IfOk, IfErr, IsErrOf};
ghost use Rattle.std.specs.Io.KnownBytes.{Appends};
ghost use Rattle.rx_base.specs.Outside.{Rose};
ghost use Rattle.rx_rules.specs.Run.{Given};
ghost use Rattle.rx_words.specs.Words.{Asked, Gen, asked_any, told_number, BadWord};
ghost use Rattle.rx_words.specs.Commands.{IsLiveCommand};
ghost use Rattle.rx_program.specs.declared.status.Status.{Status as Told};
ghost use Rattle.rx_program.specs.declared.status.Status.TheVariants.{Usage, Syntax, Bad, TooLong, ReadFault, WriteFault, NoMemory as NoRoom};
ghost use Rattle.rx_program.specs.declared.status.Status.TheVariants.{Pair, BadTrace};
ghost use Rattle.rx_program.specs.Top.{takes_pair, IsOutcome, CanDo, IsUnmade, IsOver, status_by};
ghost use Rattle.rx_program.specs.Refusals.{GaveNoScript, GaveBadScript, GaveNoPair, GaveBadTrace, GaveTooMuch, TookNoMore};

use crate::run::make_live;
use crate::source::read_program;
use crate::status::Status;
use crate::top::{made, put_text, rx10_step};
use rx_base::{Gate, RxWord, Sink, Source};
use rx_words::{LiveWords, WordFault, read_live};
use std::alloc::Global;
use std::sync::Wait;
use std::thread::Threads;

/// Does what the words say, as `rx10_step` does, and `live` besides: it runs the script that the source gives with several workers,
/// which come by the gate before their turns, and writes the trace of the run that they made. What it promises holds where it
/// returns: a run of `live` may wait.
pub fn rx10<S: Source, K: Sink, G: Gate + Sync, R: Threads + Wait + Sync>(
    rt: &R,
    alloc: Global,
    words: &[RxWord],
    input: &mut S,
    out: &mut K,
    gate: &G,
) -> Status
    // The words, from both sides, unless memory runs out. Bad words leave the source as it was.
    ensures usage { (word : ℕ) → result ≡ Usage word → (k : ℕ) × (asked_any words.now ≡ BadWord k) × (word ≡ told_number k) }
    ensures words { (k : ℕ) → asked_any words.now ≡ BadWord k → ((result ≡ Usage (told_number k)) ⊎ (result ≡ NoRoom))
        × (input.new ≡ input.old) }
    // `gen` does not touch the source.
    ensures unread { (size : ℕ) (U : Given) (seed : Option ℕ) → asked_any words.now ≡ Gen size U seed → input.new ≡ input.old }
    // The theorem: what was read is a script that meets the rules, and what was written is what the words ask for: of `step` and
    // `live`, the trace of a run of it.
    ensures over { IsOver result → (text : List ℕ)
        × IsOutcome (asked_any words.now) (S.left input.old) (S.left input.new) text result
        × Appends (K.written out.old) (K.written out.new) text }
    // The causes of the refusals.
    ensures syntax { (at : ℕ) → result ≡ Syntax at →
        GaveNoScript (takes_pair (asked_any words.now)) (S.left input.old) (S.left input.new) at }
    ensures bad { (rule node : ℕ) → result ≡ Bad rule node →
        GaveBadScript (takes_pair (asked_any words.now)) (S.left input.old) (S.left input.new) rule node }
    ensures pair { result ≡ Pair → (takes_pair (asked_any words.now) ≡ true) × GaveNoPair (S.left input.old) (S.left input.new) }
    ensures bad_trace { (number : ℕ) → result ≡ BadTrace number → (takes_pair (asked_any words.now) ≡ true)
        × GaveBadTrace (S.left input.old) (S.left input.new) number }
    ensures too_long { result ≡ TooLong → GaveTooMuch (takes_pair (asked_any words.now)) (S.left input.old) (S.left input.new) }
    ensures read_fault { result ≡ ReadFault → Rose (S.faults input.old) (S.faults input.new) }
    ensures write_fault { result ≡ WriteFault → Rose (K.faults out.old) (K.faults out.new) }
    // What a fault of the sink leaves, and that no other refusal touches the sink.
    ensures write_front { result ≡ WriteFault → (text : List ℕ) × (status : Told) × (n : ℕ)
        × IsOutcome (asked_any words.now) (S.left input.old) (S.left input.new) text status
        × (n < length text)
        × Appends (K.written out.old) (K.written out.new) (take n text) }
    ensures untouched { (IsOver result → ⊥) → (result ≡ WriteFault → ⊥) → out.new ≡ out.old }
    ensures taken { TookNoMore (takes_pair (asked_any words.now)) (S.left input.old) (S.left input.new) }
    // What can be done, and is read and written without a fault, is done, unless memory runs out.
    ensures complete { CanDo (asked_any words.now) (S.left input.old) →
        (Rose (S.faults input.old) (S.faults input.new) → ⊥) → (Rose (K.faults out.old) (K.faults out.new) → ⊥) →
        IsOver result ⊎ (result ≡ NoRoom) }
    ensures read_later { S.faults input.old ≤ S.faults input.new }
    ensures write_later { K.faults out.old ≤ K.faults out.new }
{
    let live = match read_live(alloc, words) {
        Ok(Some(live)) => live,
        Ok(None) => return rx10_step(alloc, words, input, out),
        Err(WordFault::Bad { word }) => return Status::Usage { word },
        Err(WordFault::NoMemory) => return Status::NoMemory,
    };
    match live_text(rt, alloc, &live, input, gate) {
        Ok((text, clean)) => put_text(out, &text, clean),
        Err(status) => status,
    }
}

// The text of the trace of a run with several workers, and whether it lost nothing and threw nothing at the root.
fn live_text<S: Source, G: Gate + Sync, R: Threads + Wait + Sync>(
    rt: &R,
    alloc: Global,
    live: &LiveWords,
    input: &mut S,
    gate: &G,
) -> Result<(Vec<u8>, bool), Status>
    requires { (asked : Asked) × IsLiveCommand live.now asked }
    ensures ok { IfOk result (λ r. (asked : Asked) → IsLiveCommand live.now asked →
        IsOutcome asked (S.left input.old) (S.left input.new) r.0.items (status_by r.1)) }
    ensures kind { IfErr result IsUnmade }
    ensures no_pair { IsErrOf result Pair → ⊥ }
    ensures no_bad_trace { (number : ℕ) → IsErrOf result (BadTrace number) → ⊥ }
    ensures syntax { (at : ℕ) → IsErrOf result (Syntax at) → GaveNoScript false (S.left input.old) (S.left input.new) at }
    ensures bad { (rule node : ℕ) → IsErrOf result (Bad rule node) → GaveBadScript false (S.left input.old) (S.left input.new) rule node }
    ensures too_long { IsErrOf result TooLong → GaveTooMuch false (S.left input.old) (S.left input.new) }
    ensures read_fault { IsErrOf result ReadFault → Rose (S.faults input.old) (S.faults input.new) }
    ensures taken { TookNoMore false (S.left input.old) (S.left input.new) }
    ensures complete { (asked : Asked) → IsLiveCommand live.now asked → CanDo asked (S.left input.old) →
        (Rose (S.faults input.old) (S.faults input.new) → ⊥) → IfErr result (λ status. status ≡ NoRoom) }
    ensures later { S.faults input.old ≤ S.faults input.new }
{
    match read_program(alloc, input) {
        Ok(program) => made(make_live(rt, alloc, &program, live, gate)),
        Err(status) => Err(status),
    }
}
