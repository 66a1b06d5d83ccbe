//! Ends of validity periods.

mod rows;

use crate::found::is;
use rows::{RANGES, Steps};
use sms_field::{Stamp, Validity, ValidityFault};
use std::process::Abort;

/// The period of an octet ends as many seconds after its start.
fn ends(rt: &impl Abort, octet: u8, end: u64) {
    is(rt, octet, Validity::Relative(octet).ends(0), Ok(end));
}

/// The periods of a range end where they must.
fn all_end(rt: &impl Abort, row: &Steps) {
    let mut end = row.seconds;
    for octet in row.first..=row.last {
        ends(rt, octet, end);
        end = end.wrapping_add(row.step);
    }
}

#[test]
fn ranges(rt: HostRuntime) {
    for row in RANGES.as_slice() {
        all_end(&rt, row);
    }
}

/// The period of an octet, begun at 1000, ends as many seconds later.
fn ends_after(rt: &impl Abort, octet: u8, seconds: u64) {
    let end = Validity::Relative(octet).ends(1_000).ok();
    is(rt, octet, end, seconds.checked_add(1_000));
}

#[test]
fn ends_of_ranges(rt: HostRuntime) {
    for row in RANGES.as_slice() {
        ends_after(&rt, row.first, row.seconds);
        ends_after(&rt, row.last, row.last_seconds);
    }
}

/// A period that begins at 1000 ends so.
fn begun(rt: &impl Abort, validity: Validity, end: Result<u64, ValidityFault>) {
    is(rt, validity, validity.ends(1_000), end);
}

#[test]
fn ends_of_validities(rt: HostRuntime) {
    let east = Stamp::new([0x99, 0x30, 0x92, 0x51, 0x61, 0x95, 0x80]);
    let no_date = Stamp::new([0x00; 7]);
    begun(&rt, Validity::Absent, Ok(173_800));
    begun(
        &rt,
        Validity::Enhanced([0x00; 7]),
        Err(ValidityFault::EnhancedValidity),
    );
    begun(&rt, Validity::Absolute(east), Ok(3_131_788_619));
    begun(
        &rt,
        Validity::Absolute(no_date),
        Err(ValidityFault::NoMoment),
    );
}
