//! The limits of the code that definitions name, as numbers.

ghost use Rattle.std.specs.Prelude.{◌≡◌};
ghost use Rattle.sms_join.specs.declared.cut.TheConstants.{SEGMENTS_MAX};

/// The limit that the definitions name: the segments of a concatenated short message (3GPP TS
/// 23.040, 9.2.3.24.1: its maximum is one octet).
pub fn limits_are_told()
    ensures { SEGMENTS_MAX ≡ 255 }
{}
