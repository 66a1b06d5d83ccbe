//! Addresses of digits, straight as the octets that they are written as.

ghost use Rattle.std.specs.Prelude.{◌≡◌, ◌<◌, ◌∷◌, All};
ghost use Rattle.sms_field.specs.Address.{address_octets};
ghost use Rattle.sms_field.specs.Address.DigitOctets.{digit_octets};
ghost use Rattle.sms_field.specs.declared.symbols.Symbols.TheVariants as symbols;

use sms_field::{DIGITS_MAX, Digits};
use sms_saved::{ADDRESS_MAX, AddressOctets};

/// Two octets, and behind them all digits of a room, two an octet, the first in the low half.
#[inline(always)]
fn in_pairs(first: u8, second: u8, digits: &[u8; DIGITS_MAX]) -> [u8; ADDRESS_MAX]
    requires { All (λ digit. digit < 15) digits.now }
    ensures { result ≡ first ∷ second ∷ digit_octets digits.now }
{
    let mut octets = [0; ADDRESS_MAX];
    octets[0] = first;
    octets[1] = second;
    for place in 0..DIGITS_MAX / 2 {
        octets[2 + place] = digits[2 * place] + 16 * digits[2 * place + 1];
    }
    octets
}

/// The octets of an address of digits. All pairs of their room are written at once, and then the
/// high half after an odd last digit becomes 15.
#[inline(always)]
pub(crate) fn octets_of_digits(type_of_number: u8, plan: u8, digits: &Digits) -> AddressOctets
    requires kind { type_of_number < 8 }
    requires plan { plan < 16 }
    ensures { result ≡ address_octets (record {
      kind = type_of_number;
      plan = plan;
      symbols = symbols.Digits digits.now;
    }) }
{
    let values = digits.as_slice();
    let count = values.len();
    let address_type = 128 + 16 * type_of_number + plan;
    let mut octets = in_pairs(count as u8, address_type, digits.as_room());
    if count % 2 == 1 {
        octets[2 + count / 2] = 240 + values[count - 1];
    }
    AddressOctets::in_room(octets, (2 + count.div_ceil(2)) as u8)
}
