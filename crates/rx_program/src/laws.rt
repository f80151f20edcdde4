// Laws of outcomes: an answer of the program leaves free running out of memory and faults of the outside alone. They do nothing
// when they run.
ghost use Rattle.rx_program.specs.Outcomes.{TextTellsStatus, OneOutcome};

use rx_answers::laws::{answer_is_one, text_tells_answer};
use rx_runs::picked_run_is_one;
use rx_script::one_script;
use rx_words::laws::setups_are_proper;

/// Two outcomes of the same words with the same text have the same status, whatever the source gave.
pub fn text_tells_status()
    ensures { TextTellsStatus }
{
    picked_run_is_one();
    setups_are_proper();
    text_tells_answer();
}

/// The same words and the same bytes of the source have one outcome, one text and one status, where no threads are started.
pub fn one_outcome()
    ensures { OneOutcome }
{
    one_script();
    picked_run_is_one();
    setups_are_proper();
    answer_is_one();
    text_tells_answer();
}
