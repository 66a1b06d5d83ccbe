//! Time stamps of a service centre (3GPP TS 23.040, 9.2.3.11).

ghost use Rattle.std.specs.Prelude.{◌≡◌, ◌↔◌, ◌<◌, ◌/◌, ◌+◌, length, IsSome, IfSome, IfOk, IfErr};
ghost use Rattle.sms_field.specs.Time.Days.{IsDay};
ghost use Rattle.sms_field.specs.Field.{IsLawful};
ghost use Rattle.sms_field.specs.declared.fault.FieldFault.TheVariants.{Short};
ghost use Rattle.sms_field.specs.Reading.{Reads};
ghost use Rattle.sms_field.specs.Reading.Answer.{Sees};
ghost use Rattle.sms_field.specs.Reading.WholeAnswer.{IsFaultOf, SeesExactly};
ghost use Rattle.sms_field.specs.Time.Stamp.{stamp, IsStamp};
ghost use Rattle.sms_field.specs.Time.StampDate.{HasTwoDigits, value_in, quarters_in, date_in, IsDate};

use crate::bit::has_bit;
use crate::calendar::is_day;
use crate::cursor::Cursor;
use crate::fault::FieldFault;
use crate::refusal::{Fault, Reason};
use std::marker::Model;

/// A time stamp, as TP-SCTS: seven octets, kept as they came.
#[derive(Clone, Copy, Debug, PartialEq, Eq, Hash)]
pub struct Stamp {
    octets: [u8; 7],
}

impl Model for Stamp {
    ghost use Rattle.std.specs.Prelude.{List, ℕ};
    ghost use Rattle.sms_field.specs.Time.Stamp.{IsStamp};

    ghost Value = { List ℕ };

    ghost view = { λ s. s.octets };

    ghost inverse = { λ octets. record { octets = octets } };

    ghost invariant = { λ s. IsStamp s.octets };
}

/// A local date and time of day, and how far its zone lies from UTC.
#[derive(Clone, Copy, Debug, PartialEq, Eq)]
pub struct StampDate {
    /// 2000 to 2099.
    pub year: u16,
    /// 1 to 12.
    pub month: u8,
    /// 1 to the last day of the month.
    pub day: u8,
    /// 0 to 23.
    pub hour: u8,
    /// 0 to 59.
    pub minute: u8,
    /// 0 to 59.
    pub second: u8,
    /// Local time less UTC, in quarters of an hour: -79 to 79.
    pub quarters: i8,
}

/// The octets, which are seven.
#[inline(always)]
fn seven_of(octets: &[u8]) -> [u8; 7]
    requires { length octets.now ≡ 7 }
    ensures { result ≡ octets.now }
{
    match octets.first_chunk::<7>() {
        Some(seven) => *seven,
        None => unreachable!(),
    }
}

/// The value of two decimal digits, the tens in the low half.
fn two_digits(octet: u8) -> Option<u8>
    ensures found { IsSome result ↔ HasTwoDigits octet }
    ensures value { IfSome result (λ n. n ≡ value_in octet) }
{
    let (tens, units) = (octet % 16, octet / 16);
    if tens < 10 && units < 10 {
        Some(tens * 10 + units)
    } else {
        None
    }
}

/// The year, month and day that three octets say; none where there is no such day.
fn day_of(year: u8, month: u8, day: u8) -> Option<(u16, u8, u8)>
    ensures found { IsSome result ↔ HasTwoDigits year × HasTwoDigits month × HasTwoDigits day
        × IsDay (2000 + value_in year) (value_in month) (value_in day) }
    ensures value { IfSome result (λ d. (d.0 ≡ 2000 + value_in year)
        × (d.1 ≡ value_in month) × (d.2 ≡ value_in day)) }
{
    let year = 2000 + u16::from(two_digits(year)?);
    let month = two_digits(month)?;
    let day = two_digits(day)?;
    is_day(year, month, day).then_some((year, month, day))
}

/// The hour, minute and second that three octets say; none where there is no such time of day.
fn time_of(hour: u8, minute: u8, second: u8) -> Option<(u8, u8, u8)>
    ensures found { IsSome result
        ↔ HasTwoDigits hour × HasTwoDigits minute × HasTwoDigits second
        × (value_in hour < 24) × (value_in minute < 60) × (value_in second < 60) }
    ensures value { IfSome result (λ t. (t.0 ≡ value_in hour)
        × (t.1 ≡ value_in minute) × (t.2 ≡ value_in second)) }
{
    let hour = two_digits(hour)?;
    let minute = two_digits(minute)?;
    let second = two_digits(second)?;
    (hour < 24 && minute < 60 && second < 60).then_some((hour, minute, second))
}

/// The zone, in quarters of an hour.
fn quarters_of(zone: u8) -> Option<i8>
    ensures found { IsSome result ↔ (zone / 16 < 10) }
    ensures value { IfSome result (λ q. q ≡ quarters_in zone) }
{
    let units = zone / 16;
    if units > 9 {
        return None;
    }
    let quarters = (zone % 8 * 10 + units) as i8;
    if has_bit(zone, 3) {
        Some(-quarters)
    } else {
        Some(quarters)
    }
}

impl Stamp {
    /// The stamp of seven octets, which need not be a date.
    pub fn new(octets: [u8; 7]) -> Stamp
        ensures is { result ≡ octets }
        ensures in_range { IsStamp result }
    {
        let [year, month, day, hour, minute, second, zone] = octets;
        Stamp {
            octets: [year, month, day, hour, minute, second, zone],
        }
    }

    /// The seven octets of the stamp.
    pub fn octets(&self) -> [u8; 7]
        ensures are { result ≡ self.now }
        ensures in_range { IsStamp self.now }
    {
        self.octets
    }

    /// The date that the octets say; none where they are no date.
    pub fn date(&self) -> Option<StampDate>
        ensures found { IsSome result ↔ IsDate self.now }
        ensures value { IfSome result (λ d. d ≡ date_in self.now) }
    {
        let [year, month, day, hour, minute, second, zone] = self.octets;
        let (year, month, day) = day_of(year, month, day)?;
        let (hour, minute, second) = time_of(hour, minute, second)?;
        let quarters = quarters_of(zone)?;
        Some(StampDate {
            year,
            month,
            day,
            hour,
            minute,
            second,
            quarters,
        })
    }

    /// Reads a stamp at the front of the octets, and says how many it takes.
    pub fn read(input: &[u8]) -> Result<(Stamp, usize), Fault<FieldFault>>
        ensures found { IfOk result (λ x. Reads (stamp Short) x.0 input.now x.1) }
        ensures refused { IfErr result (IsFaultOf (stamp Short) Short input.now) }
        ensures exact { SeesExactly (λ stamp. stamp) (stamp Short) input.now result }
        ensures lawful { IsLawful Short (stamp Short) }
    {
        let mut cursor = Cursor::new(input);
        let stamp = Stamp::read_at(&mut cursor)?;
        Ok((stamp, cursor.place()))
    }

    /// Reads a stamp at a cursor.
    #[inline(always)]
    pub fn read_at<W: Reason>(input: &mut Cursor) -> Result<Stamp, Fault<W>>
        ensures in_range { IfOk result IsStamp }
        ensures read { Sees (stamp W.short) input.old result input.new }
    {
        let octets = input.take_octets(7)?;
        Ok(Stamp::new(seven_of(octets)))
    }
}
