//! Stamps that jump by more than a week, each case of the rule by hand.

mod rows;

use crate::found::holds;
use rows::{BORNE_OUT, FIRST, ROWS_AHEAD, Row, Unit, WRONG};
use sms_field::Stamp;
use sms_trial::{digits_of, fed_with};
use std::alloc::Global;
use std::process::Abort;
use std::test::Fail;

/// The octets from the origin to the data coding scheme, of +1001, +1002 and +1003.
static ORIGINS: [&str; 3] = ["049101100008", "049101200008", "049101300008"];

/// The stamp of a moment, or one without a date.
pub fn stamp_of(alloc: Global, moment: Option<u64>) -> Result<String, Fail> {
    match moment.and_then(|moment| Stamp::at(moment, 0)) {
        Some(stamp) => digits_of(alloc, &stamp.octets()),
        None => Ok("FFFFFFFFFFFFFF".to_string(alloc)?),
    }
}

/// The octets from the origin to the data coding scheme of an origin, counted from 0.
pub fn origin_of(origin: usize) -> &'static str {
    ORIGINS[origin % 3]
}

/// The line of a unit: one segment of three, with a letter.
fn line_of(alloc: Global, unit: Unit) -> Result<String, Fail> {
    let Unit(origin, reference, sequence, moment) = unit;
    let stamp = stamp_of(alloc, moment)?;
    let place = format!(in alloc; "{reference:02X}03{sequence:02X}")?;
    Ok(format!(in alloc; "44{}{stamp}08050003{place}0061\n", origin_of(origin))?)
}

/// The lines of units.
fn lines_of(alloc: Global, units: &[Unit]) -> Result<String, Fail> {
    let mut lines = String::new(alloc);
    for unit in units {
        let line = line_of(alloc, *unit)?;
        lines.push_str(&line)?;
    }
    Ok(lines)
}

/// Whether the units of a row are told as it says.
fn is_told(alloc: Global, row: &Row) -> Result<bool, Fail> {
    let input = lines_of(alloc, row.units)?;
    let (status, output) = fed_with(alloc, &["sms", "join", "--verbose"], &input)?;
    Ok(status == 0 && output.as_str() == row.told)
}

/// Each row is told as it says.
fn are_told(rt: &impl Abort, alloc: Global, rows: &[Row]) -> Result<(), Fail> {
    for row in rows {
        let told = is_told(alloc, row)?;
        holds(rt, &row.what, told);
    }
    Ok(())
}

#[test]
fn drops_nothing_for_one_wrong_year(rt: HostRuntime) -> Result<(), Fail> {
    are_told(&rt, rt.alloc(), WRONG.as_slice())
}

#[test]
fn goes_by_the_first_origin_for_want_of_another(rt: HostRuntime) -> Result<(), Fail> {
    are_told(&rt, rt.alloc(), FIRST.as_slice())
}

#[test]
fn goes_on_where_stamps_are_borne_out(rt: HostRuntime) -> Result<(), Fail> {
    are_told(&rt, rt.alloc(), BORNE_OUT.as_slice())
}

#[test]
fn drops_sets_that_were_opened_ahead(rt: HostRuntime) -> Result<(), Fail> {
    are_told(&rt, rt.alloc(), ROWS_AHEAD.as_slice())
}
