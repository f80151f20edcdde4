// Laws of stores, of their journals, and of marks. They do nothing when they run.
ghost use Rattle.rx_verdict.specs.Asks.{OneAnswer};
ghost use Rattle.rx_verdict.specs.Lawful.{OneLawfulCount};
ghost use Rattle.rx_verdict.specs.Marked.{NoMarks, OneMark};
ghost use Rattle.rx_verdict.specs.Judged.{FlawIsBad, EventsDecide, MadeMarksTell};
ghost use Rattle.rx_verdict.specs.Worked.{WorkedCounts};

/// To one call, in one state of a store, the law of stores allows one answer.
pub fn one_answer()
    ensures { OneAnswer }
{}

/// A journal has one number of lawful events at most.
pub fn lawful_count_is_one()
    ensures { OneLawfulCount }
{}

/// Before the first mark no event is marked, and there is a mark for each.
pub fn marks_begin_empty()
    ensures { NoMarks }
{}

/// A mark marks its event and no other.
pub fn marks_are_added()
    ensures { OneMark }
{}

/// Where the marks tell which events are made, the first event that is not sound is the first that is not good.
pub fn first_flaw_is_first_bad()
    ensures { FlawIsBad }
{}

/// Where the marks tell which events are made, no marked event asks for a block of no words, if each `new` of the script asks for
/// a word or more.
pub fn made_marks_tell()
    ensures { MadeMarksTell }
{}

/// Where all entries are a part of a run and the marks tell which events are made, the verdict of the events is the verdict.
pub fn events_decide()
    ensures { EventsDecide }
{}

/// How many events of the worked journals are lawful.
pub fn worked_counts()
    ensures { WorkedCounts }
{}
