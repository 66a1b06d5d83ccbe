//! What is asserted of what was found.

use std::fmt::Debug;
use std::process::Abort;

/// What is said of the row is so.
pub fn holds(rt: &impl Abort, row: &impl Debug, so: bool) {
    assert!(rt; so, "{row:?}");
}
