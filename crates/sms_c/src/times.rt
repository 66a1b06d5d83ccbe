//! Stamps and validity periods.

ghost use Rattle.std.specs.Prelude.{◌≡◌, ◌<◌, ◌≤◌, ◌^◌, ◌↔◌, IfSome, MatchOption};
ghost use Rattle.sms_field.specs.Time.StampDate.{date_in, IsDate};
ghost use Rattle.sms_field.specs.Time.Stamping.{HasStamp, IsStampAt};
ghost use Rattle.sms_field.specs.Time.Computed.{moment_of};
ghost use Rattle.sms_tpdu.specs.Submit.ValidityPeriod.{IsInRange};
ghost use Rattle.sms_c.specs.Times as seen;

use crate::status::{Failure, OK};
use sms_field::{Stamp, StampDate, Validity};

/// The octets of a stamp.
#[repr(C)]
#[derive(Clone, Copy)]
pub struct StampOctets {
    pub octets: [u8; 7],
}

impl StampOctets {
    /// The octets of this stamp.
    pub fn of(stamp: Stamp) -> StampOctets
        ensures { result.octets ≡ stamp }
    {
        StampOctets {
            octets: stamp.octets(),
        }
    }
}

/// A validity period: its format, and its octets.
#[repr(C)]
#[derive(Clone, Copy)]
pub struct ValidityOctets {
    pub format: u8,
    pub octets: [u8; 7],
}

impl ValidityOctets {
    /// The octets of a validity period.
    pub fn of(validity: &Validity) -> ValidityOctets
        ensures { result ≡ seen.validity_seen validity.now }
    {
        match validity {
            Validity::Absent => ValidityOctets {
                format: 0,
                octets: [0, 0, 0, 0, 0, 0, 0],
            },
            Validity::Relative(octet) => ValidityOctets {
                format: 1,
                octets: [*octet, 0, 0, 0, 0, 0, 0],
            },
            Validity::Enhanced(octets) => ValidityOctets {
                format: 2,
                octets: *octets,
            },
            Validity::Absolute(stamp) => ValidityOctets {
                format: 3,
                octets: stamp.octets(),
            },
        }
    }

    /// The validity period, where the format is one.
    pub fn validity(self) -> Option<Validity>
        ensures is { result ≡ seen.validity_of self }
        ensures in_range { IfSome result IsInRange }
        ensures format { MatchOption result (4 ≤ self.format) (λ _. self.format < 4) }
    {
        match self.format {
            0 => Some(Validity::Absent),
            1 => {
                let [first, ..] = self.octets;
                Some(Validity::Relative(first))
            }
            2 => Some(Validity::Enhanced(Stamp::new(self.octets).octets())),
            3 => Some(Validity::Absolute(Stamp::new(self.octets))),
            _ => None,
        }
    }
}

/// A local date and time of day.
#[repr(C)]
#[derive(Clone, Copy)]
pub struct Date {
    pub year: u16,
    pub month: u8,
    pub day: u8,
    pub hour: u8,
    pub minute: u8,
    pub second: u8,
    pub quarters: i8,
}

/// The date that a stamp says.
#[unsafe(no_mangle)]
pub extern "C" fn sms_stamp_date(stamp: &StampOctets, out: &mut Date) -> u32
    ensures found { (result ≡ 0) ↔ IsDate stamp.now.octets }
    ensures date { result ≡ 0 → out.new ≡ seen.date_seen (date_in stamp.now.octets) }
    ensures none { (result ≡ 0 → ⊥) → (result ≡ 8) × (out.new ≡ out.old) }
{
    let Some(date) = Stamp::new(stamp.octets).date() else {
        return Failure::NotThere.status();
    };
    let StampDate {
        year,
        month,
        day,
        hour,
        minute,
        second,
        quarters,
    } = date;
    *out = Date {
        year,
        month,
        day,
        hour,
        minute,
        second,
        quarters,
    };
    OK
}

/// The moment of a stamp.
#[unsafe(no_mangle)]
pub extern "C" fn sms_stamp_moment(stamp: &StampOctets, seconds: &mut u64) -> u32
    ensures { seen.MomentTold (moment_of stamp.now.octets) seconds.old seconds.new result }
{
    let Some(moment) = Stamp::new(stamp.octets).moment() else {
        return Failure::NotThere.status();
    };
    *seconds = moment;
    OK
}

/// The stamp of a moment in a zone.
#[unsafe(no_mangle)]
pub extern "C" fn sms_stamp_at(seconds: u64, quarters: i8, out: &mut StampOctets) -> u32
    ensures found { (result ≡ 0) ↔ HasStamp seconds quarters }
    ensures stamp { result ≡ 0 → IsStampAt seconds quarters out.new.octets }
    ensures none { (result ≡ 0 → ⊥) → (result ≡ 7) × (out.new ≡ out.old) }
{
    let Some(stamp) = Stamp::at(seconds, quarters) else {
        return Failure::OutOfRange.status();
    };
    *out = StampOctets::of(stamp);
    OK
}

/// The end of a validity period of a message that was accepted at a moment.
#[unsafe(no_mangle)]
pub extern "C" fn sms_validity_end(
    validity: &ValidityOctets,
    accepted: u64,
    seconds: &mut u64,
) -> u32
    ensures late { 2 ^ 63 ≤ accepted → (result ≡ 7) × (seconds.new ≡ seconds.old) }
    ensures told { accepted < 2 ^ 63 → seen.EndTold (seen.validity_of validity.now) accepted
        seconds.old seconds.new result }
{
    if accepted >= 0x8000_0000_0000_0000 {
        return Failure::OutOfRange.status();
    }
    let Some(validity) = validity.validity() else {
        return Failure::OutOfRange.status();
    };
    match validity.ends(accepted) {
        Ok(end) => {
            *seconds = end;
            OK
        }
        Err(_) => Failure::NotThere.status(),
    }
}
