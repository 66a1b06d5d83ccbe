//! Moments of stamps, and stamps of moments.

mod rows;

use crate::found::is;
use rows::{ENDS, End, MONTHS, Month, WITHOUT, YEARS, Year};
use sms_field::Stamp;
use std::process::Abort;

/// A moment has this stamp in a zone.
fn is_at(rt: &impl Abort, moment: u64, quarters: i8, stamp: Option<Stamp>) {
    is(rt, (moment, quarters), Stamp::at(moment, quarters), stamp);
}

/// The octets of a stamp have this moment.
fn is_of(rt: &impl Abort, octets: [u8; 7], moment: Option<u64>) {
    is(rt, octets, Stamp::new(octets).moment(), moment);
}

/// A stamp in a zone and a moment belong to each other.
fn belong_in(rt: &impl Abort, octets: [u8; 7], moment: u64, quarters: i8) {
    is_at(rt, moment, quarters, Some(Stamp::new(octets)));
    is_of(rt, octets, Some(moment));
}

/// A stamp in UTC and a moment belong to each other.
fn belong(rt: &impl Abort, octets: [u8; 7], moment: u64) {
    belong_in(rt, octets, moment, 0);
}

/// A month in a leap year or another one.
fn month_in(leap: bool, month: Month) -> Month {
    if leap && month.month == 0x20 {
        Month {
            month: 0x20,
            last: 0x92,
            days: 29,
        }
    } else {
        month
    }
}

/// The first and the last second of a month that begins at a moment are what they must be; the
/// moment after it.
fn is_month(rt: &impl Abort, year: u8, row: Month, first: u64) -> u64 {
    let next = first.wrapping_add(row.days.wrapping_mul(86_400));
    belong(rt, [year, row.month, 0x10, 0x00, 0x00, 0x00, 0x00], first);
    let last = [year, row.month, row.last, 0x32, 0x95, 0x95, 0x00];
    belong(rt, last, next.wrapping_sub(1));
    next
}

/// The months of a year are what they must be.
fn is_year(rt: &impl Abort, row: &Year) {
    let mut next = row.before.wrapping_mul(86_400);
    for month in MONTHS.as_slice() {
        next = is_month(rt, row.year, month_in(row.leap, *month), next);
    }
}

#[test]
fn months(rt: HostRuntime) {
    for row in YEARS.as_slice() {
        is_year(&rt, row);
    }
}

/// The days around 29 February.
#[test]
fn leap_days(rt: HostRuntime) {
    belong(
        &rt,
        [0x00, 0x20, 0x82, 0x32, 0x95, 0x95, 0x00],
        59 * 86_400 - 1,
    );
    belong(&rt, [0x00, 0x20, 0x92, 0x00, 0x00, 0x00, 0x00], 59 * 86_400);
    belong(
        &rt,
        [0x69, 0x20, 0x82, 0x32, 0x95, 0x95, 0x00],
        35_123 * 86_400 - 1,
    );
    belong(
        &rt,
        [0x69, 0x20, 0x92, 0x00, 0x00, 0x00, 0x00],
        35_123 * 86_400,
    );
}

/// A moment in a zone has the stamp of its row, which has the moment.
fn is_end(rt: &impl Abort, row: &End) {
    match row.octets {
        Some(octets) => belong_in(rt, octets, row.moment, row.quarters),
        None => is_at(rt, row.moment, row.quarters, None),
    }
}

#[test]
fn moments_and_stamps(rt: HostRuntime) {
    for row in ENDS.as_slice() {
        is_end(&rt, row);
    }
}

#[test]
fn stamps_without_moments(rt: HostRuntime) {
    for octets in WITHOUT.as_slice() {
        is_of(&rt, *octets, None);
    }
}
