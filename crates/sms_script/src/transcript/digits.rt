//! Digits of numbers and of octets.

ghost use Rattle.std.specs.Prelude.{◌≡◌, ◌++◌, OnOk, decimal};
ghost use Rattle.hex.specs.Hex.{encode_upper};

use sms_page::put_digits;
use std::alloc::AllocError;

/// Adds a number in decimal digits.
pub fn push_decimal(out: &mut Vec<u8>, number: u64) -> Result<(), AllocError>
    ensures { OnOk result (out.new.items ≡ out.old.items ++ decimal number) }
{
    let mut digits = itoa::Buffer::new();
    out.extend_from_slice(digits.format(number).as_bytes())
}

/// Adds octets in upper case hexadecimal digits, two an octet.
pub fn push_hexadecimal(out: &mut Vec<u8>, octets: &[u8]) -> Result<(), AllocError>
    ensures { OnOk result (out.new.items ≡ out.old.items ++ encode_upper octets.now) }
{
    let start = out.len();
    out.reserve(2 * octets.len())?;
    out.resize(start + 2 * octets.len(), 0)?;
    put_digits(&mut out.as_mut_slice()[start..], octets);
    Ok(())
}
