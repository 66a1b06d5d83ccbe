//! Validity periods (3GPP TS 23.040, 9.2.3.12).

ghost use Rattle.std.specs.Prelude.{◌≡◌, ◌<◌, ◌^◌};
ghost use Rattle.sms_field.specs.Time.Computed.{end_of};
ghost use Rattle.sms_field.specs.Time.Validity.{relative_seconds, EndIs};

use crate::stamp::Stamp;
use thiserror::Error;

/// TP-VP: how long a service centre keeps a message that it cannot deliver.
#[derive(Clone, Copy, Debug, PartialEq, Eq)]
pub enum Validity {
    /// None is given; the service centre's own period holds.
    Absent,
    /// An octet that stands for a length of time.
    Relative(u8),
    /// The enhanced format, which is kept and not interpreted.
    Enhanced([u8; 7]),
    /// The time at which the period ends.
    Absolute(Stamp),
}

/// Why a validity period has no end.
#[derive(Clone, Copy, Debug, PartialEq, Eq, Error)]
pub enum ValidityFault {
    /// The enhanced format is not interpreted.
    #[error("enhanced validity")]
    EnhancedValidity,
    /// The stamp of an absolute period has no moment.
    #[error("no moment")]
    NoMoment,
}

/// Seconds of a period that nobody gave: two days.
const DEFAULT_PERIOD: u64 = 172_800;

/// The seconds of a relative validity period.
fn seconds_of(relative: u8) -> u64
    ensures { result ≡ relative_seconds relative }
{
    let value = u64::from(relative);
    match relative {
        0..=143 => (value + 1) * 5 * 60,
        144..=167 => 12 * 3_600 + (value - 143) * 30 * 60,
        168..=196 => (value - 166) * 86_400,
        197..=255 => (value - 192) * 7 * 86_400,
    }
}

impl Validity {
    /// The moment at which the validity period ends of a message that was accepted at `accepted`,
    /// which is below 2^63. Both are seconds from 2000-01-01 00:00:00 UTC.
    ///
    /// An enhanced period has no end, nor has an absolute one whose stamp has no moment.
    pub fn ends(&self, accepted: u64) -> Result<u64, ValidityFault>
        requires { accepted < 2 ^ 63 }
        ensures is { EndIs self.now accepted result }
        ensures value { result ≡ end_of self.now accepted }
    {
        match self {
            Validity::Absent => Ok(accepted + DEFAULT_PERIOD),
            Validity::Relative(octet) => Ok(accepted + seconds_of(*octet)),
            Validity::Enhanced(_) => Err(ValidityFault::EnhancedValidity),
            Validity::Absolute(stamp) => stamp.moment().ok_or(ValidityFault::NoMoment),
        }
    }
}
