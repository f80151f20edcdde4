//! Laws of answers. They do nothing when they run.
ghost use Rattle.rx_answers.specs.Faults.{CasesHaveNoFault};
ghost use Rattle.rx_answers.specs.Laws.{AnswerIsOne, TextTellsAnswer, WorkedLines};

use crate::parts_are_one;
use rx_script::{one_script, programs_have_no_fault};
use rx_span::laws::one_span;
use rx_trace::laws::{texts_have_no_bad_line, texts_tell_the_pair};
use rx_verdict::verdict_is_one;

/// The same bytes have one answer to a question.
pub fn answer_is_one()
    ensures { AnswerIsOne }
{
    parts_are_one();
    one_script();
    texts_tell_the_pair();
    verdict_is_one();
    one_span();
}

/// The text of an answer tells whether it is a yes.
pub fn text_tells_answer()
    ensures { TextTellsAnswer }
{}

/// Lines of answers, whole.
pub fn worked_lines()
    ensures { WorkedLines }
{}

/// Bytes that give something to judge are refused only for lack of memory.
pub fn cases_have_no_fault()
    ensures { CasesHaveNoFault }
{
    parts_are_one();
    programs_have_no_fault();
    texts_have_no_bad_line();
}
