//! Texts encoded as what is sent.

mod rows;

use rows::ENCODED;
use sms_trial::are_fed;
use std::test::Fail;

#[test]
fn encodes_segments(rt: HostRuntime) -> Result<(), Fail> {
    are_fed(rt.alloc(), ENCODED.as_slice())
}
