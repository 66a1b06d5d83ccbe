//! The data coding scheme (3GPP TS 23.038, 4).

ghost use Rattle.std.specs.Prelude.{◌≡◌};
ghost use Rattle.sms_field.specs.Coding.{alphabet_at};

use crate::bit::has_bit;

/// How a text is coded.
#[derive(Clone, Copy, Debug, PartialEq, Eq)]
pub enum Alphabet {
    /// The default alphabet, in packed septets.
    Gsm7,
    /// Octets without a meaning as text.
    EightBit,
    /// Units of 16 bits.
    Ucs2,
    /// Octets of a compressed text.
    Compressed,
}

/// The alphabet that a TP-DCS names (3GPP TS 23.038, 4).
#[inline(always)]
#[tactic(auto, unfolding(crate::specs::Coding::alphabet_at))]
pub fn alphabet_of(dcs: u8) -> Alphabet
    ensures { result ≡ alphabet_at dcs }
{
    match dcs {
        0..=127 => match (has_bit(dcs, 5), dcs / 4 % 4) {
            (true, _) => Alphabet::Compressed,
            (_, 1) => Alphabet::EightBit,
            (_, 2) => Alphabet::Ucs2,
            (_, _) => Alphabet::Gsm7,
        },
        128..=223 => Alphabet::Gsm7,
        224..=239 => Alphabet::Ucs2,
        240..=255 => {
            if has_bit(dcs, 2) {
                Alphabet::EightBit
            } else {
                Alphabet::Gsm7
            }
        }
    }
}
