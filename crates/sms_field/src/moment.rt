//! Time stamps as moments (3GPP TS 23.040, 9.2.3.11): seconds from 2000-01-01 00:00:00 UTC.

ghost use Rattle.std.specs.Prelude.{◌≡◌, ◌↔◌, ◌+◌, ◌*◌, ◌<◌, ◌*ℤ◌, ◌≤ℤ◌, pos, negsuc, IsSome, IfSome};
ghost use Rattle.sms_field.specs.Time.StampDate.{HasTwoDigits, value_in};
ghost use Rattle.sms_field.specs.Time.Moment.{MomentIs};
ghost use Rattle.sms_field.specs.Time.Stamp.{IsStamp};
ghost use Rattle.sms_field.specs.Time.Computed.{stamp_octets, moment_of};
ghost use Rattle.sms_field.specs.Time.Stamping.{HasStamp, IsStampAt, zone_octet};

use crate::bit::bit_weight;
use crate::calendar::{date_of, days_since_2000};
use crate::stamp::Stamp;

/// The first moment after 2099, in seconds since the beginning of 2000, UTC.
pub const END_OF_2099: u64 = 3_155_760_000;

/// Two decimal digits in an octet, the tens in the low half.
fn octet_of(value: u8) -> u8
    requires { value < 100 }
    ensures digits { HasTwoDigits result }
    ensures value { value_in result ≡ value }
{
    value % 10 * 16 + value / 10
}

/// The octet of a zone, which has the sign in bit 3.
fn octet_of_zone(quarters: i8) -> u8
    requires west { negsuc 78 ≤ℤ quarters }
    requires east { quarters ≤ℤ pos 79 }
    ensures { result ≡ zone_octet quarters }
{
    let value = quarters.unsigned_abs();
    value % 10 * 16 + bit_weight(3, quarters < 0) + value / 10
}

/// The seconds of a zone, given in quarters of an hour.
fn seconds_of_zone(quarters: i8) -> i64
    ensures { result ≡ pos 900 *ℤ quarters }
{
    900 * i64::from(quarters)
}

/// The seconds of a day up to a time.
fn seconds_of_day(hour: u8, minute: u8, second: u8) -> u64
    ensures { result ≡ hour * 3_600 + minute * 60 + second }
{
    u64::from(hour) * 3_600 + u64::from(minute) * 60 + u64::from(second)
}

impl Stamp {
    /// The stamp of a moment in a zone, given in quarters of an hour east of UTC.
    ///
    /// None where the local time lies outside the years 2000 to 2099, or the quarters outside -79
    /// to 79.
    pub fn at(seconds: u64, quarters: i8) -> Option<Stamp>
        ensures found { IsSome result ↔ HasStamp seconds quarters }
        ensures value { IfSome result (IsStampAt seconds quarters) }
        ensures octets { quarters ≡ pos 0 →
            IfSome result (λ stamp. stamp ≡ stamp_octets seconds) }
        ensures in_range { IfSome result IsStamp }
    {
        if quarters < -79 || quarters > 79 {
            return None;
        }
        let local = seconds.checked_add_signed(seconds_of_zone(quarters))?;
        if local >= END_OF_2099 {
            return None;
        }
        let (days, time) = (local / 86_400, local % 86_400);
        let (year, month, day) = date_of(days);
        Some(Stamp::new([
            octet_of((year - 2000) as u8),
            octet_of(month),
            octet_of(day),
            octet_of((time / 3_600) as u8),
            octet_of((time / 60 % 60) as u8),
            octet_of((time % 60) as u8),
            octet_of_zone(quarters),
        ]))
    }

    /// The moment of the stamp: its local time less 900 seconds for each quarter of its zone.
    ///
    /// None where the stamp is no date, or the moment lies before 2000.
    pub fn moment(&self) -> Option<u64>
        ensures is { MomentIs self.now result }
        ensures value { result ≡ moment_of self.now }
    {
        let date = self.date()?;
        let days = days_since_2000(date.year, date.month, date.day)?;
        let time = seconds_of_day(date.hour, date.minute, date.second);
        (days * 86_400 + time).checked_sub_signed(seconds_of_zone(date.quarters))
    }
}
