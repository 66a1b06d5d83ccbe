//! The telephone number that a text of C says.

ghost use Rattle.std.specs.Prelude.{◌≡◌, ◌<◌, Ok, IfSome};
ghost use Rattle.std.specs.Str.{chars, IsAscii, IsUtf8};
ghost use Rattle.sms_field.specs.Address.DigitText.{digits_of_text};
ghost use Rattle.sms_field.specs.Address.Text.{address_of_text, few_digits, telephone_of};

use sms_field::{Address, Symbols, plain_digits};

/// A telephone number of this type, whose digits are said so.
#[inline(always)]
fn telephone_with(type_of_number: u8, octets: &[u8]) -> Option<Address>
    requires { type_of_number < 2 }
    ensures { IfSome result (λ address. IsAscii octets.now
        × (telephone_of type_of_number (few_digits (digits_of_text octets.now)) ≡ Ok address)) }
{
    let digits = plain_digits(octets)?;
    Some(Address {
        type_of_number,
        plan: 1,
        symbols: Symbols::Digits(digits),
    })
}

/// The telephone number that a text says, where each octet is the character `0` to `9`, but for
/// a `+` at the front: most are so, and are looked at once.
pub(crate) fn telephone_given(text: &[u8]) -> Option<Address>
    ensures { IfSome result (λ address. IsUtf8 text.now
        × (address_of_text (chars text.now) ≡ Ok address)) }
{
    let [first, digits @ ..] = text else {
        return telephone_with(0, text);
    };
    if *first == b'+' {
        telephone_with(1, digits)
    } else {
        telephone_with(0, text)
    }
}
