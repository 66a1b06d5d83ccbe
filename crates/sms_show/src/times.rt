//! Stamps and validity periods, as they are printed.

ghost use Rattle.std.specs.Prelude.{◌≡◌, true};
ghost use Rattle.std.specs.List.{list_all};
ghost use Rattle.sms_page.specs.Plain.{is_plain};

use sms_answer::{Line, Members, Printed};
use sms_field::{Stamp, StampDate, Validity};

/// A stamp as its date, time of day and zone, or as its octets where it is no date. JSON has the
/// date, the moment and the octets.
#[derive(Clone, Copy)]
pub struct StampText(pub Stamp);

impl Printed for StampText {
    #[tactic(auto, using(crate::proofs::PlainLemmas::plain_in_line))]
    fn plain(&self, line: &mut Line) {
        match self.0.date() {
            Some(date) => line.put_few(&date_text(date)),
            None => {
                line.put_few(b"raw ");
                line.put_hexadecimal(&self.0.octets());
            }
        }
    }

    fn json(&self, members: &mut Members) {
        members.open();
        members.name("date");
        match self.0.date() {
            Some(date) => members.plain_text(&rfc_3339(date)),
            None => members.nothing(),
        }
        members.name("moment");
        match self.0.moment() {
            Some(moment) => members.number(moment),
            None => members.nothing(),
        }
        members.octets_named("octets", &self.0.octets());
        members.close();
    }
}

/// The two decimal digits of a number below 100.
fn two_digits(number: u8) -> [u8; 2]
    ensures { list_all (is_plain 34) result ≡ true }
{
    [b'0' + number / 10 % 10, b'0' + number % 10]
}

/// A date, a time of day and a zone, as RFC 3339 writes them.
fn rfc_3339(date: StampDate) -> [u8; 25]
    ensures { list_all (is_plain 34) result ≡ true }
{
    let [y1, y2] = two_digits((date.year / 100 % 100) as u8);
    let [y3, y4] = two_digits((date.year % 100) as u8);
    let [m1, m2] = two_digits(date.month);
    let [d1, d2] = two_digits(date.day);
    let [h1, h2] = two_digits(date.hour);
    let [n1, n2] = two_digits(date.minute);
    let [s1, s2] = two_digits(date.second);
    let sign = if date.quarters < 0 { b'-' } else { b'+' };
    let quarters = date.quarters.unsigned_abs();
    let [z1, z2] = two_digits(quarters / 4);
    let [q1, q2] = two_digits(quarters % 4 * 15);
    [
        y1, y2, y3, y4, b'-', m1, m2, b'-', d1, d2, b'T', h1, h2, b':', n1, n2, b':', s1, s2, sign,
        z1, z2, b':', q1, q2,
    ]
}

/// A date, a time of day and a zone, with blanks between them.
fn date_text(date: StampDate) -> [u8; 26]
    ensures { list_all (is_plain 34) result ≡ true }
{
    let [
        y1,
        y2,
        y3,
        y4,
        _,
        m1,
        m2,
        _,
        d1,
        d2,
        _,
        h1,
        h2,
        _,
        n1,
        n2,
        _,
        s1,
        s2,
        sign,
        z1,
        z2,
        _,
        q1,
        q2,
    ] = rfc_3339(date);
    [
        y1, y2, y3, y4, b'-', m1, m2, b'-', d1, d2, b' ', h1, h2, b':', n1, n2, b':', s1, s2, b' ',
        sign, z1, z2, b':', q1, q2,
    ]
}

/// A validity period, in its format.
#[derive(Clone, Copy)]
pub struct ValidityText(pub Validity);

impl Printed for ValidityText {
    fn plain(&self, line: &mut Line) {
        match self.0 {
            Validity::Absent => line.put_few(b"none"),
            Validity::Relative(octet) => {
                line.put(b"relative ");
                line.put_decimal(u64::from(octet));
                line.put_one(b' ');
                line.put_decimal(seconds_of(octet));
            }
            Validity::Enhanced(octets) => {
                line.put(b"enhanced ");
                line.put_hexadecimal(octets.as_slice());
            }
            Validity::Absolute(stamp) => {
                line.put(b"absolute ");
                StampText(stamp).plain(line);
            }
        }
    }

    fn json(&self, members: &mut Members) {
        match self.0 {
            Validity::Absent => members.nothing(),
            Validity::Relative(octet) => {
                members.open();
                members.number_named("relative", u64::from(octet));
                members.number_named("seconds", seconds_of(octet));
                members.close();
            }
            Validity::Enhanced(octets) => {
                members.open();
                members.octets_named("enhanced", octets.as_slice());
                members.close();
            }
            Validity::Absolute(stamp) => {
                members.open();
                members.name("absolute");
                StampText(stamp).json(members);
                members.close();
            }
        }
    }
}

/// The seconds of a relative validity period.
fn seconds_of(octet: u8) -> u64 {
    match Validity::Relative(octet).ends(0) {
        Ok(seconds) => seconds,
        Err(_) => unreachable!(),
    }
}
