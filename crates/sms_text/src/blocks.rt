//! Eight septets in a word of 64 bits: each in an octet, or one after another.

ghost use Rattle.std.specs.Prelude.{◌≡◌, ◌+◌, ◌*◌, ◌/◌, ◌%◌};
ghost use Rattle.sms_text.specs.Bits.{AreSeptets};
ghost use Rattle.sms_text.specs.Inside.Words.{low_octets, low_septets};

/// The lowest seven bits of the octets 0, 2, 4 and 6.
fn low_of_pairs(word: u64) -> u64
    ensures { result ≡ word % 128 + 65536 * (word / 65536 % 128
        + 65536 * (word / 65536 / 65536 % 128 + 65536 * (word / 65536 / 65536 / 65536 % 128))) }
{
    word & 0x007F_007F_007F_007F
}

/// The lowest fourteen bits of both halves.
fn low_of_halves(word: u64) -> u64
    ensures { result ≡ word % 16384 + 4294967296 * (word / 4294967296 % 16384) }
{
    word & 0x0000_3FFF_0000_3FFF
}

/// The eight septets of octets, one after another.
pub fn squeezed(octets: u64) -> u64
    requires { AreSeptets (low_octets 8 octets) }
    ensures { low_septets 8 result ≡ low_octets 8 octets }
{
    let first = low_of_pairs(octets);
    let pairs = first + (octets - first) / 2;
    let second = low_of_halves(pairs);
    let halves = second + (pairs - second) / 4;
    let third = halves % 0x1000_0000;
    third + (halves - third) / 16
}

/// The lowest eight septets, each in an octet.
pub fn spread(word: u64) -> u64
    ensures { low_octets 8 result ≡ low_septets 8 word }
{
    let septets = word % 0x100_0000_0000_0000;
    let first = septets % 0x1000_0000;
    let halves = first + (septets - first) * 16;
    let second = low_of_halves(halves);
    let pairs = second + (halves - second) * 4;
    let third = low_of_pairs(pairs);
    third + (pairs - third) * 2
}
