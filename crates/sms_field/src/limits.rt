//! The limits of the code that definitions name, as numbers.

ghost use Rattle.std.specs.Prelude.{◌≡◌};
ghost use Rattle.sms_field.specs.declared.digits.TheConstants.{DIGITS_MAX};
ghost use Rattle.sms_field.specs.declared.name.TheConstants.{NAME_MAX};
ghost use Rattle.sms_field.specs.declared.relay_address_view.TheConstants.{RP_LENGTH_MAX};

/// The limits that the definitions name: the digits and the septets of an address (3GPP TS 23.040,
/// 9.1.2.5: 10 octets), and the greatest length of an RP-Originator or RP-Destination Address (3GPP
/// TS 24.011, 8.2.5.1 and 8.2.5.2).
pub fn limits_are_told()
    ensures digits { DIGITS_MAX ≡ 20 }
    ensures name { NAME_MAX ≡ 11 }
    ensures relay { RP_LENGTH_MAX ≡ 11 }
{}
