//! The text of octets in UCS-2, with no list of units.

ghost use Rattle.std.specs.Prelude.{◌≡◌, ◌≤◌, ◌+◌, ◌*◌, ◌/◌, ◌++◌, length, take, IfOk};
ghost use Rattle.std.specs.Str.{chars, encode_utf8_all, IsUtf8};
ghost use Rattle.std.specs.String.{string_bytes};
ghost use Rattle.std.specs.Char.Utf16.{utf16_lossy_chars};
ghost use Rattle.sms_text.specs.Utf16.{units_high_first};

use crate::four_units::put_four;
use crate::pairs::put_half;
use crate::spelled::unit_word;
use crate::ucs2::unit;
use crate::written::{put_word, text_of_utf8};
use std::alloc::{AllocError, Global};

/// Writes the text of octets from a place on, a unit or a pair at a time, and stops where at most
/// so many octets are left, or one, which it returns with the place after the text.
#[inline(always)]
fn put_each<'a>(out: &mut [u8], at: usize, octets: &'a [u8], stop: usize) -> (usize, &'a [u8])
    requires room { at + 3 * (length octets.now / 2) + 16 ≤ length out.old }
    requires utf8 { IsUtf8 (take at out.old) }
    ensures text { take result.0 out.new
        ++ encode_utf8_all (utf16_lossy_chars (units_high_first result.1.now))
        ≡ take at out.old ++ encode_utf8_all (utf16_lossy_chars (units_high_first octets.now)) }
    ensures utf8 { IsUtf8 (take result.0 out.new) }
    ensures room { result.0 + 3 * (length result.1.now / 2) + 16 ≤ length out.new }
    ensures left { length result.1.now ≤ stop + 1 }
{
    let mut rest = octets;
    let mut place = at;
    while rest.len() > stop {
        let [high, low, others @ ..] = rest else {
            break;
        };
        if let Some(word) = unit_word(unit(*high, *low)) {
            place = put_word(out, place, word);
            rest = others;
        } else {
            (place, rest) = put_half(out, place, rest);
        }
    }
    (place, rest)
}

/// Writes the text of octets from the front on, and returns where it ends.
#[inline(never)]
fn put_ucs2(out: &mut [u8], octets: &[u8]) -> usize
    requires { 3 * (length octets.now / 2) + 16 ≤ length out.old }
    ensures within { result ≤ length out.new }
    ensures text { IsUtf8 (take result out.new) }
    ensures spelled { take result out.new
        ≡ encode_utf8_all (utf16_lossy_chars (units_high_first octets.now)) }
{
    let mut rest = octets;
    let mut at = 0;
    while rest.len() > 1 {
        if let Some((after, left)) = put_four(out, at, rest) {
            at = after;
            rest = left;
        } else {
            (at, rest) = put_each(out, at, rest, rest.len().saturating_sub(8));
        }
    }
    at
}

/// The text of octets in UCS-2, the high octet of each unit first; an odd last octet is dropped,
/// and an unpaired half is U+FFFD (3GPP TS 23.038, 6.2.3).
pub fn text_of_ucs2_octets(alloc: Global, octets: &[u8]) -> Result<String, AllocError>
    ensures { IfOk result (λ text.
        chars (string_bytes text) ≡ utf16_lossy_chars (units_high_first octets.now)) }
{
    let room = octets.len() / 2 * 3 + 16;
    let mut text = Vec::with_capacity(alloc, room)?;
    text.resize(room, 0)?;
    let end = put_ucs2(&mut text, octets);
    text.truncate(end);
    Ok(text_of_utf8(text))
}
