//! Dates and zones, written one number after another: the plain form, with which the other is
//! compared.

use sms_field::StampDate;
use std::alloc::AllocError;

/// Adds a number below 100 in two decimal digits.
fn put_two_digits(page: &mut Vec<u8>, number: u8) -> Result<(), AllocError> {
    page.extend_from_slice(&[b'0' + number / 10 % 10, b'0' + number % 10])
}

/// Adds the date and the time of day of a stamp, with a character between them.
pub fn put_date(page: &mut Vec<u8>, date: StampDate, between: u8) -> Result<(), AllocError> {
    put_two_digits(page, (date.year / 100 % 100) as u8)?;
    put_two_digits(page, (date.year % 100) as u8)?;
    page.extend_from_slice(b"-")?;
    put_two_digits(page, date.month)?;
    page.extend_from_slice(b"-")?;
    put_two_digits(page, date.day)?;
    page.extend_from_slice(&[between])?;
    put_two_digits(page, date.hour)?;
    page.extend_from_slice(b":")?;
    put_two_digits(page, date.minute)?;
    page.extend_from_slice(b":")?;
    put_two_digits(page, date.second)
}

/// Adds a zone, of which the quarters of an hour east of UTC are given.
pub fn put_zone(page: &mut Vec<u8>, quarters: i8) -> Result<(), AllocError> {
    page.extend_from_slice(if quarters < 0 { b"-" } else { b"+" })?;
    let quarters = quarters.unsigned_abs();
    put_two_digits(page, quarters / 4)?;
    page.extend_from_slice(b":")?;
    put_two_digits(page, quarters % 4 * 15)
}

/// The two decimal digits of a number below 100.
fn two_digits(number: u8) -> [u8; 2] {
    [b'0' + number / 10 % 10, b'0' + number % 10]
}

/// A date, a time of day and a zone, as RFC 3339 writes them.
pub fn rfc_3339(date: StampDate) -> [u8; 25] {
    let [y1, y2] = two_digits((date.year / 100 % 100) as u8);
    let [y3, y4] = two_digits((date.year % 100) as u8);
    let [m1, m2] = two_digits(date.month);
    let [d1, d2] = two_digits(date.day);
    let [h1, h2] = two_digits(date.hour);
    let [n1, n2] = two_digits(date.minute);
    let [s1, s2] = two_digits(date.second);
    let sign = if date.quarters < 0 { b'-' } else { b'+' };
    let quarters = date.quarters.unsigned_abs();
    let [z1, z2] = two_digits(quarters / 4);
    let [q1, q2] = two_digits(quarters % 4 * 15);
    [
        y1, y2, y3, y4, b'-', m1, m2, b'-', d1, d2, b'T', h1, h2, b':', n1, n2, b':', s1, s2, sign,
        z1, z2, b':', q1, q2,
    ]
}

/// Adds a number in decimal digits.
pub fn put_decimal(page: &mut Vec<u8>, number: u64) -> Result<(), AllocError> {
    let mut digits = itoa::Buffer::new();
    page.extend_from_slice(digits.format(number).as_bytes())
}
