//! Addresses of digits, straight from the octets that they are written as.

ghost use Rattle.std.specs.Prelude.{◌≡◌, ◌+◌, ◌*◌, ◌/◌, ◌<◌, ◌≤◌, length, IfSome};
ghost use Rattle.sms_field.specs.Address.DigitOctets.{digit_octets};
ghost use Rattle.sms_field.specs.Address.DigitValues.{AreDigits};
ghost use Rattle.sms_keep.specs.Inside.Restoring.{IsWrittenAs};

use crate::plain::ALPHANUMERIC;
use sms_field::{Address, DIGITS_MAX, Digits, Symbols};

/// The digits in both halves of an octet, the low half first.
#[inline(always)]
fn halves_of(octet: u8) -> Option<(u8, u8)>
    ensures { IfSome result (λ two. (octet ≡ 16 * two.1 + two.0)
        × (two.0 < 15) × (two.1 < 15)) }
{
    let (low, high) = (octet % 16, octet / 16);
    if low < 15 && high < 15 {
        Some((low, high))
    } else {
        None
    }
}

/// The digit in the low half of an octet whose high half is 15.
#[inline(always)]
fn last_of(octet: u8) -> Option<u8>
    ensures { IfSome result (λ digit. (octet ≡ 240 + digit) × (digit < 15)) }
{
    if octet >= 240 && octet < 255 {
        Some(octet - 240)
    } else {
        None
    }
}

/// The digits that are written as these octets, so many of them.
#[inline(always)]
fn digits_from(count: u8, symbols: &[u8]) -> Option<Digits>
    requires few { count ≤ DIGITS_MAX }
    requires whole { length symbols.now ≡ (count + 1) / 2 }
    ensures { IfSome result (λ digits. AreDigits digits × (length digits ≡ count)
        × (digit_octets digits ≡ symbols.now)) }
{
    let pairs = usize::from(count / 2);
    let mut values = [0; DIGITS_MAX];
    for place in 0..pairs {
        let (low, high) = halves_of(symbols[place])?;
        values[2 * place] = low;
        values[2 * place + 1] = high;
    }
    if count % 2 == 1 {
        values[2 * pairs] = last_of(symbols[pairs])?;
    }
    Some(Digits::in_room(values, count))
}

/// The address that is written as these octets, where it is one of digits: most are, and they are
/// looked at once.
pub(crate) fn telephone_from(octets: &[u8]) -> Option<Address>
    ensures { IfSome result (IsWrittenAs octets.now) }
{
    let [count, address_type, symbols @ ..] = octets else {
        return None;
    };
    let type_of_number = *address_type / 16 % 8;
    if *address_type < 128 || type_of_number == ALPHANUMERIC {
        return None;
    }
    if usize::from(*count) > DIGITS_MAX || symbols.len() != usize::from(count.div_ceil(2)) {
        return None;
    }
    let digits = digits_from(*count, symbols)?;
    Some(Address {
        type_of_number,
        plan: *address_type % 16,
        symbols: Symbols::Digits(digits),
    })
}
