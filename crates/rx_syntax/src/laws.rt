// A law of the grammar, the contract of a function that does nothing.
ghost use Rattle.rx_syntax.specs.Named.{NamesAreNumbered};

/// A law: a script mentions exactly the numbers below the count of its names.
pub fn names_are_numbered()
    ensures { NamesAreNumbered }
{}
