//! What is asserted of what was found.

use std::fmt::Debug;
use std::process::Abort;

/// What was found is what is wanted.
pub fn same<T: PartialEq + Debug>(rt: &impl Abort, row: &impl Debug, found: &T, wanted: &T) {
    assert_eq!(rt; found, wanted, "{row:?}");
}

/// What is said of the row is so.
pub fn holds(rt: &impl Abort, row: &impl Debug, so: bool) {
    assert!(rt; so, "{row:?}");
}
