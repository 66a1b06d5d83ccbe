//! The text of 16-bit units.

ghost use Rattle.std.specs.Prelude.{◌≡◌, IfOk};
ghost use Rattle.std.specs.Char.Utf16.{utf16_lossy_chars};
ghost use Rattle.std.specs.Str.{chars};
ghost use Rattle.std.specs.String.{string_bytes};

use sms_text::{octets_of_units, text_of_ucs2, text_of_ucs2_octets, units_come_back};
use std::alloc::{AllocError, Global};

/// Whether each unit is a character of one octet in UTF-8.
fn is_ascii(units: &[u16]) -> bool {
    units.iter().all(|unit| *unit < 128)
}

/// The text of 16-bit units; an unpaired half is U+FFFD (3GPP TS 23.038, 6.2.3). It is made of their
/// octets, four units at a time. Where each is a character of one octet, a list of octets would be
/// one request for memory more than the text alone needs.
pub(crate) fn text_of_wide(alloc: Global, units: &[u16]) -> Result<String, AllocError>
    ensures { IfOk result (λ text. chars (string_bytes text) ≡ utf16_lossy_chars units.now) }
{
    if is_ascii(units) {
        return text_of_ucs2(alloc, units);
    }
    units_come_back();
    let octets = octets_of_units(alloc, units)?;
    text_of_ucs2_octets(alloc, &octets)
}
