// Laws of the text: worked histories have the texts that docs/trace.md shows. They do nothing when they run.
ghost use Rattle.rx_trace.specs.Worked.{OrdinaryCaseHasItsText, LossInTransitHasItsText, MaskedFaultHasItsText};
ghost use Rattle.rx_trace.specs.Worked.{JoiningPlaceHasItsText, BriefPlaceHasItsText};
ghost use Rattle.rx_trace.specs.Reading.{TextsTellThePair, TextsHaveNoBadLine};

/// The text of the ordinary case, whole.
pub fn ordinary_case_has_its_text()
    ensures { OrdinaryCaseHasItsText }
{}

/// The text of the loss in transit, whole: with a kill, a death, a lost place, thrown faults and a closed journal.
pub fn loss_in_transit_has_its_text()
    ensures { LossInTransitHasItsText }
{}

/// The text of the masked fault, whole: with a release that names how many faults were masked.
pub fn masked_fault_has_its_text()
    ensures { MaskedFaultHasItsText }
{}

/// The text of a place that joins, whole: with a join, a census, and a journal of the place.
pub fn joining_place_has_its_text()
    ensures { JoiningPlaceHasItsText }
{}

/// The text of a place that joins and dies at once, whole: with the close of its journal.
pub fn brief_place_has_its_text()
    ensures { BriefPlaceHasItsText }
{}

/// Two pairs within the limits that have one text are equal.
pub fn texts_tell_the_pair()
    ensures { TextsTellThePair }
{}

/// The text of a pair within the limits has no bad line.
pub fn texts_have_no_bad_line()
    ensures { TextsHaveNoBadLine }
{}
