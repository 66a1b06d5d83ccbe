//! What is found is what is wanted.

use std::fmt::Debug;
use std::process::Abort;

/// What is found of a row is what is wanted.
pub fn is<R: Debug + Copy, T: PartialEq + Debug + Copy>(
    rt: &impl Abort,
    row: R,
    found: T,
    wanted: T,
) {
    assert_eq!(rt; found, wanted, "{row:?}");
}

/// What is said of the row is so.
pub fn holds<R: Debug + Copy>(rt: &impl Abort, row: R, so: bool) {
    assert!(rt; so, "{row:?}");
}
