//! The limits of the code that definitions name, as numbers.

ghost use Rattle.std.specs.Prelude.{◌≡◌};
ghost use Rattle.sms_party.specs.declared.sender.TheConstants.{PENDING_MAX};

/// The limit that the definitions name, the profile's own: the texts of a sender that may wait.
pub fn limits_are_told()
    ensures { PENDING_MAX ≡ 1000 }
{}
