//! Stamps of units, and numbers in decimal, beside those that are written one digit pair after
//! another.

mod pairs;

use crate::found::holds;
use pairs::{put_date, put_decimal, put_zone, rfc_3339};
use sms_field::{Stamp, Validity};
use sms_trial::{Made, digits_of, fed_with};
use std::alloc::Global;
use std::process::Abort;
use std::test::Fail;

/// A number below 100 as the octet of a stamp.
fn semi_octets(number: u8) -> u8 {
    number % 10 * 16 + number / 10 % 10
}

/// The stamp of a day, at an hour, with a zone.
fn stamp_of(year: u8, month: u8, day: u8, hour: u8, zone: u8) -> [u8; 7] {
    let (year, month, day) = (semi_octets(year), semi_octets(month), semi_octets(day));
    let minute = semi_octets(59 - day % 60);
    [year, month, day, semi_octets(hour), minute, 0x95, zone]
}

/// A stamp of which most are dates.
fn made_stamp(made: &mut Made) -> [u8; 7] {
    let mut stamp = [0; 7];
    for (own, count) in stamp.iter_mut().zip([100u8, 13, 32, 25, 61, 61, 1]) {
        *own = semi_octets(made.octet() % count.max(1));
    }
    stamp[6] = made.octet();
    if made.octet() < 16 {
        stamp[made.below(7) % 7] = made.octet();
    }
    stamp
}

/// Stamps: leap days and the days around them, all zones, the ends of a day, and made ones.
fn stamps(alloc: Global) -> Result<Vec<[u8; 7]>, Fail> {
    let mut made = Made::new(9);
    let mut stamps = Vec::new(alloc);
    for year in 0..=99 {
        for (month, day) in [(2, 28), (2, 29), (3, 1), (12, 31)] {
            stamps.push(stamp_of(year, month, day, year % 25, 0))?;
        }
    }
    for zone in 0..=255 {
        stamps.push(stamp_of(24, zone % 14, zone % 32, zone % 24, zone))?;
    }
    for _ in 0..600 {
        stamps.push(made_stamp(&mut made))?;
    }
    Ok(stamps)
}

/// The line of a stamp.
fn line_of(alloc: Global, stamp: Stamp) -> Result<String, Fail> {
    let Some(date) = stamp.date() else {
        let digits = digits_of(alloc, &stamp.octets())?;
        return Ok(format!(in alloc; "stamp: raw {digits}")?);
    };
    let mut line = Vec::new(alloc);
    line.extend_from_slice(b"stamp: ")?;
    put_date(&mut line, date, b' ')?;
    line.push(b' ')?;
    put_zone(&mut line, date.quarters)?;
    Ok(String::from_utf8(line)?)
}

/// The date of a stamp in JSON.
fn date_of(alloc: Global, stamp: Stamp) -> Result<String, Fail> {
    let Some(date) = stamp.date() else {
        return Ok("null".to_string(alloc)?);
    };
    let text = String::from_utf8(rfc_3339(date).to_vec(alloc)?)?;
    Ok(format!(in alloc; "\"{text}\"")?)
}

/// The moment of a stamp in JSON.
fn moment_of(alloc: Global, stamp: Stamp) -> Result<String, Fail> {
    let mut number = Vec::new(alloc);
    match stamp.moment() {
        Some(moment) => put_decimal(&mut number, moment)?,
        None => number.extend_from_slice(b"null")?,
    }
    Ok(String::from_utf8(number)?)
}

/// The part of an object that tells a stamp.
fn part_of(alloc: Global, stamp: Stamp) -> Result<String, Fail> {
    let date = date_of(alloc, stamp)?;
    let moment = moment_of(alloc, stamp)?;
    let digits = digits_of(alloc, &stamp.octets())?;
    let parts = [
        "\"stamp\":{\"date\":",
        date.as_str(),
        ",\"moment\":",
        moment.as_str(),
        ",\"octets\":\"",
        digits.as_str(),
        "\"},",
    ];
    Ok(parts.concat(alloc)?)
}

/// The lines of units with these stamps.
fn units_of(alloc: Global, stamps: &[[u8; 7]]) -> Result<String, Fail> {
    let mut input = String::new(alloc);
    for stamp in stamps {
        let digits = digits_of(alloc, stamp)?;
        let line = format!(in alloc; "04049110100000{digits}00\n")?;
        input.push_str(&line)?;
    }
    Ok(input)
}

/// Whether a line stands in what a unit is shown as.
fn has_line(alloc: Global, shown: &str, stamp: Stamp) -> Result<bool, Fail> {
    let line = line_of(alloc, stamp)?;
    Ok(shown.lines().any(|own| own == line.as_str()))
}

/// Whether an object tells a stamp.
fn has_part(alloc: Global, object: &str, stamp: Stamp) -> Result<bool, Fail> {
    let part = part_of(alloc, stamp)?;
    Ok(object.contains(part.as_str()))
}

/// Stamps are shown as they are written pair after pair, in lines and in objects.
fn are_shown(rt: &impl Abort, alloc: Global, stamps: &[[u8; 7]]) -> Result<(), Fail> {
    let input = units_of(alloc, stamps)?;
    let words = ["sms", "show", "deliver", "--lines", "--json"];
    let (status, plain) = fed_with(alloc, &words[..4], &input)?;
    let (_, objects) = fed_with(alloc, &words, &input)?;
    holds(rt, &"status", status == 0);
    let (mut shown, mut objects) = (plain.split("\n\n"), objects.lines());
    for stamp in stamps {
        let (unit, object) = (shown.next().unwrap_or(""), objects.next().unwrap_or(""));
        holds(rt, stamp, has_line(alloc, unit, Stamp::new(*stamp))?);
        holds(
            rt,
            &("json", *stamp),
            has_part(alloc, object, Stamp::new(*stamp))?,
        );
    }
    holds(
        rt,
        &"end",
        shown.next().is_none() && objects.next().is_none(),
    );
    Ok(())
}

#[test]
fn shows_stamps_as_pair_after_pair(rt: HostRuntime) -> Result<(), Fail> {
    let stamps = stamps(rt.alloc())?;
    are_shown(&rt, rt.alloc(), &stamps)
}

/// The line of a relative validity period.
fn validity_line(alloc: Global, octet: u8) -> Result<String, Fail> {
    let mut line = Vec::new(alloc);
    line.extend_from_slice(b"\nvalidity: relative ")?;
    put_decimal(&mut line, u64::from(octet))?;
    line.push(b' ')?;
    put_decimal(&mut line, Validity::Relative(octet).ends(0).unwrap_or(0))?;
    line.push(b'\n')?;
    Ok(String::from_utf8(line)?)
}

/// Whether the relative validity period of an octet is shown.
fn is_validity_shown(alloc: Global, octet: u8) -> Result<bool, Fail> {
    let unit = format!(in alloc; "1100049110100000{octet:02X}00\n")?;
    let line = validity_line(alloc, octet)?;
    let (status, shown) = fed_with(alloc, &["sms", "show", "submit", "--lines"], &unit)?;
    Ok(status == 0 && shown.contains(line.as_str()))
}

#[test]
fn shows_numbers_in_decimal(rt: HostRuntime) -> Result<(), Fail> {
    for octet in 0..=255 {
        holds(&rt, &octet, is_validity_shown(rt.alloc(), octet)?);
    }
    Ok(())
}
