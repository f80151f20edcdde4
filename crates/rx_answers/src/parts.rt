// Laws of pairs. They do nothing when they run.
ghost use Rattle.rx_answers.specs.Pair.{PartsAreOne, WorkedPair};

use rx_text::naturals_have_one_text;

/// Bytes are the pair of one script and one trace at most.
pub fn parts_are_one()
    ensures { PartsAreOne }
{
    naturals_have_one_text();
}

/// A pair, whole: with a script of eight bytes.
pub fn worked_pair_is_one()
    ensures { WorkedPair }
{}
