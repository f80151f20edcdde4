// From bytes to the text of an answer.
ghost use Rattle.std.specs.Prelude.{◌≡◌, ◌≤◌, ◌<◌, ◌^◌, length, IfOk, IfErr};
ghost use Rattle.rx_rules.specs.Code.{Block};
ghost use Rattle.rx_rules.specs.Order.{told};
ghost use Rattle.rx_rules.specs.Run.{IsRun};
ghost use Rattle.rx_syntax.specs.Shape.{Stands};
ghost use Rattle.rx_history.specs.Events.{events_of};
ghost use Rattle.rx_history.specs.Setups.{given};
ghost use Rattle.rx_verdict.specs.declared.verdict.Verdict.TheVariants.{Run};
ghost use Rattle.rx_answers.specs.Lines.{verdict_line};
ghost use Rattle.rx_answers.specs.Answers.{is_run as no_flaw, IsChainText, IsTextOf, IsAnswer};
ghost use Rattle.rx_answers.specs.Faults.{IsCaseFault};

use crate::case::{Case, CaseFault, read_case};
use crate::lines::{put_span, put_verdict};
use rx_base::NoMemory;
use rx_check::checked;
use rx_history_laws::each_is_told_once;
use rx_span::laws::run_tells_paths;
use rx_span::span;
use rx_verdict::{Verdict, run_has_verdict, verdict_is_one, verdict_is_run};
use rx_verify::verify;
use std::alloc::Global;

/// What is asked of a pair of a script and a trace.
#[derive(Clone, Copy, Debug, PartialEq, Eq)]
pub enum Question {
    /// Whether the trace is one of a whole run of the script.
    Verify,
    /// The longest chain of the statements of that run.
    Span,
}

/// The text of the answer, and whether the trace is one of a whole run of the script. `Verify` is answered by the line of the verdict,
/// and so is `Span` where the verdict is not `run`; a whole run it answers by the lines of its longest chain. The condition is at most
/// 16,777,216 bytes.
pub fn answer(alloc: Global, question: Question, bytes: &[u8]) -> Result<(Vec<u8>, bool), CaseFault>
    requires { length bytes.now ≤ 16777216 }
    ensures ok { IfOk result (λ r. IsAnswer question bytes.now r.0.items r.1) }
    ensures fault { IfErr result (λ f. IsCaseFault f bytes.now) }
{
    let case = read_case(alloc, bytes)?;
    verdict_is_run();
    run_has_verdict();
    verdict_is_one();
    let verdict = verify(alloc, &case.program, &case.history, &case.journals)?;
    let text = text_of(alloc, question, &case, verdict)?;
    Ok((text, is_run(verdict)))
}

// Whether no flaw was found.
fn is_run(verdict: Verdict) -> bool
    ensures { result ≡ no_flaw verdict }
{
    verdict == Verdict::Run
}

// The text of an answer.
fn text_of(
    alloc: Global,
    question: Question,
    case: &Case,
    verdict: Verdict,
) -> Result<Vec<u8>, NoMemory>
    requires run { verdict ≡ Run → (code : Block) → Stands case.now.program.script code
        → IsRun code (given case.now.history.setup) case.now.history.entries (events_of case.now.journals) }
    requires few { length (told case.now.history.entries) < 2 ^ 32 }
    ensures { IfOk result (λ text. (code : Block) → Stands case.now.program.script code
        → IsTextOf question verdict code (told case.now.history.entries) text.items) }
{
    match question {
        Question::Verify => verdict_text(alloc, verdict),
        Question::Span => span_text(alloc, case, verdict),
    }
}

// The text of the answer to `span`.
fn span_text(alloc: Global, case: &Case, verdict: Verdict) -> Result<Vec<u8>, NoMemory>
    requires run { verdict ≡ Run → (code : Block) → Stands case.now.program.script code
        → IsRun code (given case.now.history.setup) case.now.history.entries (events_of case.now.journals) }
    requires few { length (told case.now.history.entries) < 2 ^ 32 }
    ensures { IfOk result (λ text. (code : Block) → Stands case.now.program.script code
        → IsTextOf Question.Span verdict code (told case.now.history.entries) text.items) }
{
    match verdict {
        Verdict::Run => chain_text(alloc, case),
        flaw => verdict_text(alloc, flaw),
    }
}

// The text of a verdict.
fn verdict_text(alloc: Global, verdict: Verdict) -> Result<Vec<u8>, NoMemory>
    ensures { IfOk result (λ text. text.items ≡ verdict_line verdict) }
{
    let mut text = Vec::new(alloc);
    put_verdict(&mut text, verdict)?;
    Ok(text)
}

// The text of the longest chain of a whole run.
fn chain_text(alloc: Global, case: &Case) -> Result<Vec<u8>, NoMemory>
    requires run { (code : Block) → Stands case.now.program.script code
        → IsRun code (given case.now.history.setup) case.now.history.entries (events_of case.now.journals) }
    requires few { length (told case.now.history.entries) < 2 ^ 32 }
    ensures { IfOk result (λ text. (code : Block) → Stands case.now.program.script code
        → IsChainText code (told case.now.history.entries) text.items) }
{
    checked(&case.program);
    each_is_told_once();
    run_tells_paths();
    let longest = span(alloc, &case.program, &case.history)?;
    let mut text = Vec::new(alloc);
    put_span(&mut text, longest.statements, &longest.chain)?;
    Ok(text)
}
