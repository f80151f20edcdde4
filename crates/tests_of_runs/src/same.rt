// How tests compare. An `assert_eq!` beside values that still live takes seconds to prove; a call takes a fraction of one.
use std::fmt::Debug;
use std::process::Abort;

pub(crate) fn same<T: PartialEq + Debug + Drop>(rt: &impl Abort, left: T, right: T) {
    assert_eq!(rt; left, right);
}
