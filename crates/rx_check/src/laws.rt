// Laws of the rules, each the contract of a function that does nothing.
ghost use Rattle.rx_check.specs.Defined.{AlwaysDefined, FewNames};

use rx_syntax::names_are_numbered;

/// A law: in a script that meets the rules, whenever a task comes to a statement, each name that its expressions use has a number,
/// its target has a reference, and there is a variable for the name that it assigns.
pub fn steps_are_defined()
    ensures { AlwaysDefined }
{
    names_are_numbered();
}

/// A law: a script that meets the rules has at most 32 names.
pub fn names_are_few()
    ensures { FewNames }
{
    names_are_numbered();
}
