// Laws of the spelling. They do nothing when they run.
ghost use Rattle.rx_text.specs.Spelling.{WrittenNumbersStand, NumbersHaveOneText, NaturalsHaveOneText, PathsHaveOneText};

/// A number that `put_num` appended is scanned back by `scan_num`, where no digit follows it.
pub fn written_numbers_stand()
    ensures { WrittenNumbersStand }
{}

/// No two numbers have one text, also where more follows that does not begin with a digit.
pub fn numbers_have_one_text()
    ensures { NumbersHaveOneText }
{}

/// The same of numbers that have no sign.
pub fn naturals_have_one_text()
    ensures { NaturalsHaveOneText }
{}

/// The same of paths, where what follows begins with neither a digit nor a dot.
pub fn paths_have_one_text()
    ensures { PathsHaveOneText }
{}
