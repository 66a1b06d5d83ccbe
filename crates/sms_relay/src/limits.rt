//! The limits of the code that definitions name, as numbers.

ghost use Rattle.std.specs.Prelude.{◌≡◌};
ghost use Rattle.sms_relay.specs.declared.cp.TheConstants.{CP_USER_DATA_MAX};
ghost use Rattle.sms_relay.specs.declared.user.TheConstants.{USER_DATA_MAX};

/// The limits that the definitions name: the octets of RP-User data (3GPP TS 24.011, 8.2.5.3), and
/// those of CP-User data, which their length octet can say (8.1.4.1).
pub fn limits_are_told()
    ensures relay { USER_DATA_MAX ≡ 233 }
    ensures connection { CP_USER_DATA_MAX ≡ 255 }
{}
