//! Stamps that the centre gives.

ghost use Rattle.std.specs.Prelude.{◌≡◌, ◌<◌};
ghost use Rattle.sms_field.specs.Time.Computed.{end_of_2099, stamp_octets};

use sms_field::Stamp;

/// The stamp of a moment, in zone 0.
pub(crate) fn stamp_of(moment: u64) -> Stamp
    requires { moment < end_of_2099 }
    ensures { result ≡ stamp_octets moment }
{
    match Stamp::at(moment, 0) {
        Some(stamp) => stamp,
        None => unreachable!(),
    }
}
