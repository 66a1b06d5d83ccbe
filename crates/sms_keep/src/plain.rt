//! Whether octets that are read as an address are those that it is written as.

ghost use Rattle.std.specs.Prelude.{◌≡◌, ◌+◌, ◌*◌, ◌/◌, ◌<◌, length};
ghost use Rattle.sms_text.specs.Octets.{IsOctets};
ghost use Rattle.sms_keep.specs.Inside.Plain.{are_needed, are_plain, is_clear, is_filled, is_plain};

/// The type of number of names.
pub(crate) const ALPHANUMERIC: u8 = 5;

/// Whether the high half after an odd last digit is 15.
fn is_filled(count: u8, symbols: &[u8]) -> bool
    requires { length symbols.now ≡ (count + 1) / 2 }
    ensures { result ≡ is_filled count symbols.now }
{
    count % 2 == 0 || symbols[usize::from(count / 2)] >= 240
}

/// Whether all bits of the last octet after so many septets are 0.
fn is_clear(septets: usize, symbols: &[u8]) -> bool
    requires few { septets < 256 }
    requires whole { length symbols.now ≡ (7 * septets + 7) / 8 }
    ensures { result ≡ is_clear septets symbols.now }
{
    septets % 8 == 0 || symbols[7 * septets / 8] >> (8 - septets % 8) == 0
}

/// Whether a name has no more semi-octets than its septets need.
fn are_needed(count: usize, septets: usize) -> bool
    requires { septets < 256 }
    ensures { result ≡ are_needed count septets }
{
    count == (7 * septets).div_ceil(4)
}

/// Whether all of the name or the digits that means nothing is as it is written.
fn are_plain(is_name: bool, count: u8, symbols: &[u8]) -> bool
    requires { length symbols.now ≡ (count + 1) / 2 }
    ensures { result ≡ are_plain is_name count symbols.now }
{
    if is_name {
        let count = usize::from(count);
        let septets = 4 * count / 7;
        are_needed(count, septets) && is_clear(septets, symbols)
    } else {
        is_filled(count, symbols)
    }
}

/// Whether no octet follows those of an address, and all that means nothing is as it is written.
pub(crate) fn is_plain(octets: &[u8]) -> bool
    ensures value { result ≡ is_plain octets.now }
    ensures octets { IsOctets octets.now }
{
    let [count, address_type, symbols @ ..] = octets else {
        return false;
    };
    symbols.len() == usize::from(*count).div_ceil(2)
        && *address_type >= 128
        && are_plain(*address_type / 16 % 8 == ALPHANUMERIC, *count, symbols)
}
