//! Pairs of halves in UCS-2, each the character of its two units in UTF-16, and halves alone.

ghost use Rattle.std.specs.Prelude.{◌≡◌, ◌≤◌, ◌<◌, ◌+◌, ◌*◌, ◌/◌, ◌++◌, length, take, slice_index};
ghost use Rattle.std.specs.Char.{encode_utf8};
ghost use Rattle.std.specs.Char.Utf16.{surrogate_pair_char, utf16_lossy_chars};
ghost use Rattle.std.specs.Str.{encode_utf8_all, IsUtf8};
ghost use Rattle.sms_text.specs.Utf16.{units_high_first};

use crate::ucs2::unit;
use crate::written::put_word;

/// U+FFFD, as `unit_word` gives it.
const REPLACEMENT: u32 = 0x3BD_BFEF;

/// The UTF-8 of the character of a high half and a low half.
#[inline(always)]
fn pair_spelled(high: u16, low: u16) -> [u8; 4]
    requires high { (0xD800 ≤ high) × (high < 0xDC00) }
    requires low { (0xDC00 ≤ low) × (low < 0xE000) }
    ensures { result ≡ encode_utf8 (surrogate_pair_char high low) }
{
    let code = 0x1_0000 + (high as u32 - 0xD800) * 0x400 + (low as u32 - 0xDC00);
    [
        (240 + code / 262_144) as u8,
        (128 + code / 4096 % 64) as u8,
        (128 + code / 64 % 64) as u8,
        (128 + code % 64) as u8,
    ]
}

/// Writes the character of the half in front: that of the pair that it begins, or U+FFFD where it
/// is without the other. Returns the place after it and the octets that are left; four octets may
/// change.
#[inline(always)]
pub(crate) fn put_half<'a>(out: &mut [u8], at: usize, octets: &'a [u8]) -> (usize, &'a [u8])
    requires room { at + 4 ≤ length out.old }
    requires unit { 2 ≤ length octets.now }
    requires half { (0xD8 ≤ slice_index octets.now 0) × (slice_index octets.now 0 < 0xE0) }
    ensures text { take result.0 out.new
        ++ encode_utf8_all (utf16_lossy_chars (units_high_first result.1.now))
        ≡ take at out.old ++ encode_utf8_all (utf16_lossy_chars (units_high_first octets.now)) }
    ensures utf8 { IsUtf8 (take at out.old) → IsUtf8 (take result.0 out.new) }
    ensures room { result.0 + 3 * (length result.1.now / 2) ≤ at + 3 * (length octets.now / 2) }
    ensures left { length result.1.now < length octets.now }
{
    match octets {
        [a @ 0xD8..=0xDB, b, c @ 0xDC..=0xDF, d, others @ ..] => {
            let spelled = pair_spelled(unit(*a, *b), unit(*c, *d));
            out[at..at + 4].copy_from_slice(&spelled);
            (at + 4, others)
        }
        _ => (put_word(out, at, REPLACEMENT), &octets[2..]),
    }
}
