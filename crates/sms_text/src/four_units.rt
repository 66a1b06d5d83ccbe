//! Four units of UCS-2 at a time, of which none takes three octets in UTF-8.

ghost use Rattle.std.specs.Prelude.{◌≡◌, ◌≤◌, ◌<◌, ◌+◌, ◌*◌, ◌++◌, ◌∷◌, [], length, take, slice_index, IfSome, MatchOption};
ghost use Rattle.std.specs.Str.{encode_utf8_all, IsUtf8};
ghost use Rattle.std.specs.Char.Utf16.{utf16_lossy_chars};
ghost use Rattle.sms_text.specs.Utf16.{units_high_first};

use std::simd::prelude::*;

/// For each set of units among four, a bit for each that takes two octets, the places of what is
/// kept of two octets for each unit.
static PLACES: [[u8; 16]; 16] = [
    [0, 2, 4, 6, 15, 15, 15, 15, 15, 15, 15, 15, 15, 15, 15, 15],
    [0, 1, 2, 4, 6, 15, 15, 15, 15, 15, 15, 15, 15, 15, 15, 15],
    [0, 2, 3, 4, 6, 15, 15, 15, 15, 15, 15, 15, 15, 15, 15, 15],
    [0, 1, 2, 3, 4, 6, 15, 15, 15, 15, 15, 15, 15, 15, 15, 15],
    [0, 2, 4, 5, 6, 15, 15, 15, 15, 15, 15, 15, 15, 15, 15, 15],
    [0, 1, 2, 4, 5, 6, 15, 15, 15, 15, 15, 15, 15, 15, 15, 15],
    [0, 2, 3, 4, 5, 6, 15, 15, 15, 15, 15, 15, 15, 15, 15, 15],
    [0, 1, 2, 3, 4, 5, 6, 15, 15, 15, 15, 15, 15, 15, 15, 15],
    [0, 2, 4, 6, 7, 15, 15, 15, 15, 15, 15, 15, 15, 15, 15, 15],
    [0, 1, 2, 4, 6, 7, 15, 15, 15, 15, 15, 15, 15, 15, 15, 15],
    [0, 2, 3, 4, 6, 7, 15, 15, 15, 15, 15, 15, 15, 15, 15, 15],
    [0, 1, 2, 3, 4, 6, 7, 15, 15, 15, 15, 15, 15, 15, 15, 15],
    [0, 2, 4, 5, 6, 7, 15, 15, 15, 15, 15, 15, 15, 15, 15, 15],
    [0, 1, 2, 4, 5, 6, 7, 15, 15, 15, 15, 15, 15, 15, 15, 15],
    [0, 2, 3, 4, 5, 6, 7, 15, 15, 15, 15, 15, 15, 15, 15, 15],
    [0, 1, 2, 3, 4, 5, 6, 7, 15, 15, 15, 15, 15, 15, 15, 15],
];

/// For each such set how many octets are kept.
static COUNTS: [u8; 16] = [4, 5, 5, 6, 5, 6, 6, 7, 5, 6, 6, 7, 6, 7, 7, 8];

/// The first four units of octets, the high octet of each first, and four zeros after them.
#[inline(always)]
fn first_four(octets: &[u8]) -> u16x8
    requires { 8 ≤ length octets.now }
    ensures { result ≡ (256 * slice_index octets.now 0 + slice_index octets.now 1)
        ∷ (256 * slice_index octets.now 2 + slice_index octets.now 3)
        ∷ (256 * slice_index octets.now 4 + slice_index octets.now 5)
        ∷ (256 * slice_index octets.now 6 + slice_index octets.now 7)
        ∷ 0 ∷ 0 ∷ 0 ∷ 0 ∷ [] }
{
    let low_first = u8x8::from_slice(octets).shuffle(
        u8x8::splat(0),
        [1, 0, 3, 2, 5, 4, 7, 6, 8, 8, 8, 8, 8, 8, 8, 8],
    );
    u16x8::from_le_bytes(low_first)
}

/// The UTF-8 of four units below U+0800, and how many octets it is.
#[inline(always)]
fn four_spelled(units: u16x8) -> (u8x16, usize)
    requires four { units ≡ slice_index units 0 ∷ slice_index units 1 ∷ slice_index units 2
        ∷ slice_index units 3 ∷ 0 ∷ 0 ∷ 0 ∷ 0 ∷ [] }
    requires low { (slice_index units 0 < 2048) × (slice_index units 1 < 2048)
        × (slice_index units 2 < 2048) × (slice_index units 3 < 2048) }
    ensures spelled { take result.1 result.0 ≡ encode_utf8_all (take 4 units) }
    ensures few { result.1 ≤ 8 }
    ensures lanes { length result.0 ≡ 16 }
{
    let two = (units >> u16x8::splat(6))
        + ((units & u16x8::splat(63)) << u16x8::splat(8))
        + u16x8::splat(0x80C0);
    let longer = units.simd_ge(u16x8::splat(128));
    let octets = longer.select(two, units).to_le_bytes();
    let set = longer.to_bitmask() as usize;
    (
        octets.swizzle_dyn_within::<16>(u8x16::from_array(PLACES[set])),
        COUNTS[set] as usize,
    )
}

/// Writes the text of the first four units, where there are so many and none takes three octets,
/// and returns the place after it and the octets that are left. Sixteen octets may change.
#[inline(always)]
pub(crate) fn put_four<'a>(out: &mut [u8], at: usize, octets: &'a [u8]) -> Option<(usize, &'a [u8])>
    requires { at + 16 ≤ length out.old }
    ensures text { MatchOption result (out.new ≡ out.old) (λ parts. take parts.0 out.new
        ++ encode_utf8_all (utf16_lossy_chars (units_high_first parts.1.now))
        ≡ take at out.old ++ encode_utf8_all (utf16_lossy_chars (units_high_first octets.now))) }
    ensures utf8 { IfSome result (λ parts.
        IsUtf8 (take at out.old) → IsUtf8 (take parts.0 out.new)) }
    ensures place { IfSome result (λ parts. parts.0 ≤ at + 8) }
    ensures left { IfSome result (λ parts. length parts.1.now + 8 ≡ length octets.now) }
{
    match octets {
        [a, _, c, _, e, _, g, _, others @ ..] if *a < 8 && *c < 8 && *e < 8 && *g < 8 => {
            let (spelled, count) = four_spelled(first_four(octets));
            spelled.copy_to_slice(&mut out[at..]);
            Some((at + count, others))
        }
        _ => None,
    }
}
