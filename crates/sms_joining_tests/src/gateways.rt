//! Units for many recipients that are joined, and how long texts are remembered.

mod rows;

use rows::{ALONE, FORGOTTEN, OBJECTS, RECIPIENTS, WRONG};
use sms_trial::{are_fed, are_fed_as_json};
use std::test::Fail;

#[test]
fn joins_for_each_recipient(rt: HostRuntime) -> Result<(), Fail> {
    are_fed(rt.alloc(), RECIPIENTS.as_slice())
}

#[test]
fn tells_recipients_in_objects(rt: HostRuntime) -> Result<(), Fail> {
    are_fed_as_json(rt.alloc(), OBJECTS.as_slice())
}

#[test]
fn forgets_by_age(rt: HostRuntime) -> Result<(), Fail> {
    are_fed(rt.alloc(), FORGOTTEN.as_slice())
}

#[test]
fn passes_texts_in_one_piece(rt: HostRuntime) -> Result<(), Fail> {
    are_fed(rt.alloc(), ALONE.as_slice())
}

#[test]
fn refuses_options_alone(rt: HostRuntime) -> Result<(), Fail> {
    are_fed(rt.alloc(), WRONG.as_slice())
}
