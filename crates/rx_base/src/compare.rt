// Whether two paths, or two lists of faults, are the same.
ghost use Rattle.std.specs.Prelude.{◌≡◌, ◌↔◌, IsTrue};

use crate::{Faults, Path};

/// Whether two paths are the same.
pub fn same_path(a: &Path, b: &Path) -> bool
    ensures { IsTrue result ↔ (a.now ≡ b.now) }
{
    let mut left = [0; 7];
    let mut right = [0; 7];
    a.numbers(&mut left) == b.numbers(&mut right)
}

/// Whether two lists of faults are the same.
pub fn same_faults(a: &Faults, b: &Faults) -> bool
    ensures { IsTrue result ↔ (a.now ≡ b.now) }
{
    if a.len() != b.len() {
        return false;
    }
    for i in 0..a.len() {
        if a.item(i) != b.item(i) {
            return false;
        }
    }
    true
}
