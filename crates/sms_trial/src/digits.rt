//! Octets in hexadecimal digits.

use std::alloc::Global;
use std::test::Fail;

/// Octets in upper case hexadecimal digits.
pub fn digits_of(alloc: Global, octets: &[u8]) -> Result<String, Fail> {
    let mut digits = String::new(alloc);
    for octet in octets {
        let pair = format!(in alloc; "{octet:02X}")?;
        digits.push_str(&pair)?;
    }
    Ok(digits)
}
