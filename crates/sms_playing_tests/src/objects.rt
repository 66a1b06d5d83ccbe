//! Units and segments as objects in JSON.

mod rows;

use rows::{FAULTS, KINDS, SEGMENTS, UNITS};
use sms_trial::{are_fed, are_fed_as_json};
use std::test::Fail;

#[test]
fn shows_units_as_objects(rt: HostRuntime) -> Result<(), Fail> {
    are_fed_as_json(rt.alloc(), UNITS.as_slice())
}

#[test]
fn shows_faults_as_members(rt: HostRuntime) -> Result<(), Fail> {
    are_fed_as_json(rt.alloc(), FAULTS.as_slice())
}

#[test]
fn shows_any_kind(rt: HostRuntime) -> Result<(), Fail> {
    are_fed(rt.alloc(), KINDS.as_slice())
}

#[test]
fn splits_into_objects(rt: HostRuntime) -> Result<(), Fail> {
    are_fed_as_json(rt.alloc(), SEGMENTS.as_slice())
}
