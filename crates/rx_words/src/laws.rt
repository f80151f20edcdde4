// Laws of what words ask for. They do nothing when they run.
ghost use Rattle.rx_words.specs.Moments.{OneMomentOrder};
ghost use Rattle.rx_words.specs.Proper.{SetupsAreProper};

/// Whatever the words, the setup that they ask for is proper.
pub fn setups_are_proper()
    ensures { SetupsAreProper }
{}

/// Moments stand in order in one list alone.
pub fn joins_have_one_order()
    ensures { OneMomentOrder }
{}
