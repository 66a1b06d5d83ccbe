//! The limits of the code that definitions name, as numbers.

ghost use Rattle.std.specs.Prelude.{◌≡◌};
ghost use Rattle.sms_saved.specs.declared.address.TheConstants.{ADDRESS_MAX};

/// The limit that the definitions name: the octets of an address (3GPP TS 23.040, 9.1.2.5).
pub fn limits_are_told()
    ensures { ADDRESS_MAX ≡ 12 }
{}
