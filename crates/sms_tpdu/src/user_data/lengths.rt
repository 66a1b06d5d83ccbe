//! The lengths of user data (TP-UDL), of their header, and the octets that they take.

ghost use Rattle.std.specs.Prelude.{◌≡◌, ◌≤◌, ◌<◌};
ghost use Rattle.sms_tpdu.specs.UserData.Lengths as lengths;

use sms_field::Alphabet;

/// The most septets of user data, those that a header takes among them (3GPP TS 23.040, 9.2.3.24).
pub const SEPTETS_MAX: usize = 160;

/// The most octets of user data, those of a header among them (3GPP TS 23.040, 9.2.3.24).
pub const OCTETS_MAX: usize = 140;

/// The greatest user data length under an alphabet: septets for Gsm7, else octets.
pub fn greatest_length(alphabet: Alphabet) -> usize
    ensures { result ≡ lengths.greatest_length alphabet }
{
    match alphabet {
        Alphabet::Gsm7 => SEPTETS_MAX,
        _ => OCTETS_MAX,
    }
}

/// How many octets user data of a length take.
pub fn octets_of_length(alphabet: Alphabet, count: u8) -> usize
    ensures { result ≡ lengths.octets_of_length alphabet count }
{
    match alphabet {
        Alphabet::Gsm7 => (7 * count as usize).div_ceil(8),
        _ => count as usize,
    }
}

/// How much of TP-UDL a header takes, from its octets with their length octet. `octets` is at most
/// 256.
pub fn length_of_header(alphabet: Alphabet, octets: usize) -> usize
    requires { octets ≤ 256 }
    ensures { result ≡ lengths.length_of_header alphabet octets }
{
    match alphabet {
        Alphabet::Gsm7 => (8 * octets).div_ceil(7),
        _ => octets,
    }
}

/// The bits between the octets of a header and the next septet.
pub fn fill_bits(octets: usize) -> u8
    requires { octets ≤ 256 }
    ensures is { result ≡ lengths.fill_bits octets }
    ensures few { result < 7 }
{
    (7 * length_of_header(Alphabet::Gsm7, octets) - 8 * octets) as u8
}
