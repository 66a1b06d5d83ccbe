//! Stamps that are dates, and stamps that are not.

mod rows;

ghost use Rattle.std.specs.Prelude.{◌<◌};

use crate::found::is;
use rows::{FEBRUARY, FIRST, PLACES, ZONES, Zone};
use sms_field::{Fault, FieldFault, Stamp, StampDate};
use std::process::Abort;

/// Whether the first moment, with another octet in one place, is a date.
fn is_date_with(place: usize, octet: u8) -> bool
    requires { place < 7 }
{
    let mut octets = FIRST;
    octets[place] = octet;
    Stamp::new(octets).date().is_some()
}

/// The first moment with another octet in one place is a date, or is none.
fn is_with(rt: &impl Abort, place: usize, octet: u8, is_date: bool) {
    assert!(rt; place < 7, "{place}");
    is(rt, (octet, place), is_date_with(place, octet), is_date);
}

#[test]
fn dates_and_others(rt: HostRuntime) {
    for row in PLACES.as_slice() {
        is_with(&rt, row.place, row.octet, row.is_date);
    }
}

#[test]
fn no_digits(rt: HostRuntime) {
    for place in 0..6 {
        is_with(&rt, place, 0xA0, false);
        is_with(&rt, place, 0x0A, false);
    }
}

/// A day of February is a date, or is none.
fn is_day(rt: &impl Abort, year: u8, day: u8, is_date: bool) {
    let stamp = Stamp::new([year, 0x20, day, 0x00, 0x00, 0x00, 0x00]);
    is(rt, (year, day), stamp.date().is_some(), is_date);
}

#[test]
fn last_days_of_february(rt: HostRuntime) {
    for row in FEBRUARY.as_slice() {
        is_day(&rt, row.year, row.day, row.is_date);
    }
}

/// A stamp has this date.
fn has_date(rt: &impl Abort, octets: [u8; 7], date: StampDate) {
    is(rt, octets, Stamp::new(octets).date(), Some(date));
}

/// Octets are read as their stamp, and are its octets.
fn is_read(rt: &impl Abort, octets: [u8; 7]) {
    is(
        rt,
        octets,
        Stamp::read(&octets),
        Ok((Stamp::new(octets), 7)),
    );
    is(rt, octets, Stamp::new(octets).octets(), octets);
}

/// A moment in the zone of a row says its date.
fn says(rt: &impl Abort, row: &Zone) {
    let octets = [0x99, 0x30, 0x92, 0x51, 0x61, 0x95, row.octet];
    let want = StampDate {
        year: 2099,
        month: 3,
        day: 29,
        hour: 15,
        minute: 16,
        second: 59,
        quarters: row.quarters,
    };
    has_date(rt, octets, want);
    is_read(rt, octets);
}

#[test]
fn what_a_date_says(rt: HostRuntime) {
    for row in ZONES.as_slice() {
        says(&rt, row);
    }
}

#[test]
fn short_stamp(rt: HostRuntime) {
    let short = Fault {
        place: 6,
        why: FieldFault::Short,
    };
    is(&rt, "six octets", Stamp::read(&FIRST[..6]), Err(short));
}
