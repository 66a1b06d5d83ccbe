//! Units that are joined into texts.

mod rows;

use rows::JOINED;
use sms_trial::are_fed;
use std::test::Fail;

#[test]
fn joins_units(rt: HostRuntime) -> Result<(), Fail> {
    are_fed(rt.alloc(), JOINED.as_slice())
}
