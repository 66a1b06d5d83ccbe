//! What is found is what is wanted.

ghost use Rattle.std.specs.Prelude.{◌<◌};

use std::fmt::Debug;
use std::process::Abort;

/// What is found of a row is what is wanted.
pub fn is<R: Debug + Copy, T: PartialEq + Debug + Copy>(
    rt: &impl Abort,
    row: R,
    found: T,
    wanted: T,
) {
    assert_eq!(rt; found, wanted, "{row:?}");
}

/// The code of a row is a septet.
pub fn is_septet(rt: &impl Abort, row: &str, code: u8)
    ensures { code < 128 }
{
    assert!(rt; code < 128, "{row}: {code}");
}
