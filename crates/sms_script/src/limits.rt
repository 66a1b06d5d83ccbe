//! The limits of the code that definitions name, as numbers.

ghost use Rattle.std.specs.Prelude.{◌≡◌};
ghost use Rattle.sms_script.specs.declared.meaning.known.TheConstants.{PHONE_LIMIT};
ghost use Rattle.sms_script.specs.declared.meaning.statement.TheConstants.{HELD_LIMIT, OPEN_LIMIT, REMEMBERED_LIMIT, STORE_LIMIT};

/// The limits that the definitions name, the profile's own: the phones of a script, and the most
/// that its settings give: messages that the centre holds, open sets and remembered keys of a
/// phone, and texts of its store.
pub fn limits_are_told()
    ensures phones { PHONE_LIMIT ≡ 100 }
    ensures held { HELD_LIMIT ≡ 1000 }
    ensures open { OPEN_LIMIT ≡ 16 }
    ensures remembered { REMEMBERED_LIMIT ≡ 32 }
    ensures store { STORE_LIMIT ≡ 500 }
{}
