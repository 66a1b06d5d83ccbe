//! What is found is what is wanted.

ghost use Rattle.std.specs.Prelude.{◌<◌, IfOk};
ghost use Rattle.sms_text.specs.Bits.{AreSeptets};

use sms_text::gsm_of;
use std::alloc::Global;
use std::fmt::Debug;
use std::process::Abort;
use std::test::Fail;

/// What is found of a row is what is wanted.
pub fn is<R: Debug + Copy, T: PartialEq + Debug + Copy>(
    rt: &impl Abort,
    row: R,
    found: T,
    wanted: T,
) {
    assert_eq!(rt; found, wanted, "{row:?}");
}

/// A number of a row is below a bound.
pub fn is_below(rt: &impl Abort, row: &str, number: u8, bound: u8)
    ensures { number < bound }
{
    assert!(rt; number < bound, "{row}: {number}");
}

/// The septets of a text that has some.
pub fn septets_of(alloc: Global, text: &str) -> Result<Vec<u8>, Fail>
    ensures { IfOk result (λ septets. AreSeptets septets.items) }
{
    match gsm_of(alloc, text)? {
        Some(septets) => Ok(septets),
        None => Err("no septets".into()),
    }
}
