// Laws of the grammar, each the contract of a function that does nothing.
ghost use Rattle.rx_script.specs.Faults.{OneScript, OneFault, NoFault};
ghost use Rattle.rx_script.specs.Writing.{WrittenReadsBack, ScriptsAreSpelled};

/// A law: bytes are one script at most, with one list of names.
pub fn one_script()
    ensures { OneScript }
{}

/// A law: bytes have one place at most where they can't go on.
pub fn one_fault()
    ensures { OneFault }
{}

/// A law: a script has no such place.
pub fn no_fault_in_script()
    ensures { NoFault }
{}

/// A law: what `write_script` appends is a script with the same names and the same tree.
pub fn written_script_reads_back()
    ensures { WrittenReadsBack }
{}

/// A law: the numbers of a script lie from 0 to the greatest, as its bytes spell them.
pub fn scripts_are_spelled()
    ensures { ScriptsAreSpelled }
{}
