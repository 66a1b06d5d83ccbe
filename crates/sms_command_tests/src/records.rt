//! Records of a card that are shown, and joined.

mod rows;

use crate::found::{are_answered, holds};
use rows::{FAULTS, JOINED, LISTED, OBJECTS, RECORDS};
use sms_trial::{answers, are_fed, are_fed_as_json};
use std::test::Fail;

#[test]
fn shows_records(rt: HostRuntime) -> Result<(), Fail> {
    are_answered(&rt, rt.alloc(), "record", RECORDS.as_slice(), 0)
}

#[test]
fn tells_faults_of_records(rt: HostRuntime) -> Result<(), Fail> {
    are_answered(&rt, rt.alloc(), "record", FAULTS.as_slice(), 1)
}

#[test]
fn shows_records_in_lines(rt: HostRuntime) -> Result<(), Fail> {
    are_fed(rt.alloc(), LISTED.as_slice())
}

#[test]
fn shows_records_as_objects(rt: HostRuntime) -> Result<(), Fail> {
    are_fed_as_json(rt.alloc(), OBJECTS.as_slice())
}

#[test]
fn joins_records(rt: HostRuntime) -> Result<(), Fail> {
    are_fed(rt.alloc(), JOINED.as_slice())
}

#[test]
fn refuses_a_long_record(rt: HostRuntime) -> Result<(), Fail> {
    let long = "FF".repeat(rt.alloc(), 176)?;
    let octets = format!(in rt.alloc(); "00{long}")?;
    let words = ["sms", "show", "record", octets.as_str()];
    let told = answers(rt.alloc(), &words, 1, "at 176: other length\n")?;
    holds(&rt, &"177 octets", told);
    Ok(())
}

#[test]
fn refuses_options_of_units(rt: HostRuntime) -> Result<(), Fail> {
    for option in [
        "--sca",
        "--any",
        "--from=phone",
        "--dcs=00",
        "--header",
        "--udl=1",
    ] {
        let words = ["sms", "show", "record", "00", option];
        let told = answers(rt.alloc(), &words, 2, "option not for this kind\n")?;
        holds(&rt, &option, told);
    }
    Ok(())
}
