//! The limits of the code that definitions name, as numbers.

ghost use Rattle.std.specs.Prelude.{◌≡◌};
ghost use Rattle.sms_card.specs.declared.padding.TheConstants.{PAD};
ghost use Rattle.sms_card.specs.declared.stored.TheConstants.{RECORD_LENGTH};

/// The limits that the definitions name: the octets of a record and the one that fills it
/// (TS 51.011, 10.5.3).
pub fn limits_are_told()
    ensures length { RECORD_LENGTH ≡ 176 }
    ensures padding { PAD ≡ 255 }
{}
