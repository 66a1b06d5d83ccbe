//! Single bits of an octet, numbered from 0, the lowest.

ghost use Rattle.std.specs.Prelude.{◌≡◌, ◌<◌, ◌≤◌, ◌^◌};
ghost use Rattle.sms_field.specs.Bit.{bit, weight};

/// Whether a bit of an octet is 1.
pub fn has_bit(octet: u8, number: u8) -> bool
    requires { number < 8 }
    ensures { result ≡ bit number octet }
{
    octet >> number & 1 == 1
}

/// What a bit adds to its octet where it is set, and 0 where it is not.
pub fn bit_weight(number: u8, set: bool) -> u8
    requires { number < 8 }
    ensures is { result ≡ weight number set }
    ensures few { result ≤ 2 ^ number }
{
    if set { 1 << number } else { 0 }
}
