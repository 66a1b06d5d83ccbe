//! Texts written into octets that are there.

ghost use Rattle.std.specs.Prelude.{◌≡◌, ◌≢◌, ◌≤◌, ◌+◌, ◌*◌, ◌/◌, ◌<◌, ◌++◌, true, length, take, slice_index, MatchOption, IfOk, IfSome, []};
ghost use Rattle.sms_text.specs.Inside.Same.{AreSame};
ghost use Rattle.std.specs.Char.{encode_utf8};
ghost use Rattle.std.specs.Str.{chars, encode_utf8_all, IsUtf8};
ghost use Rattle.std.specs.String.{string_bytes};
ghost use Rattle.sms_text.specs.Bits.{AreSeptets, unpacked};
ghost use Rattle.sms_text.specs.Inside.Words.{low_octets};
ghost use Rattle.sms_text.specs.Inside.Spelled.{StartsText};
ghost use Rattle.sms_text.specs.TextOfSeptets.{plain_character, text_of_septets};

use crate::alphabet::all_same;
use crate::packing::unpack;
use crate::same::same_sixteen;
use crate::spelled::{escaped_word, plain_word};
use crate::tables::ESCAPE;
use std::alloc::{AllocError, Global};

/// A space, as `plain_word` gives it.
const SPACE: u32 = 0x100_0020;

/// The text whose UTF-8 these octets are. All texts that are made of octets here are made by it.
#[inline(always)]
pub(crate) fn text_of_utf8(octets: Vec<u8>) -> String
    requires { IsUtf8 octets.items }
    ensures { string_bytes result ≡ octets.items }
{
    // what it needs is what this function requires
    unsafe { String::from_utf8_unchecked(octets) }
}

/// Writes the UTF-8 of a character, and returns the place after it. Four octets may change.
#[inline(always)]
pub(crate) fn put_word(out: &mut [u8], at: usize, word: u32) -> usize
    requires few { word / 16777216 < 4 }
    requires room { at + 4 ≤ length out.old }
    ensures place { result ≡ at + word / 16777216 }
    ensures octets { take result out.new
        ≡ take at out.old ++ low_octets (word / 16777216) word }
{
    out[at..at + 4].copy_from_slice(&word.to_le_bytes());
    at + (word >> 24) as usize
}

/// The UTF-8 of the first character of septets, and the septets after it.
#[inline(always)]
fn first_word(septets: &[u8]) -> Option<(u32, &[u8])>
    requires { AreSeptets septets.now }
    ensures { MatchOption result
        (septets.now ≡ [])
        (λ first. StartsText septets.now first.0 first.1.now) }
{
    match septets {
        [] => None,
        [code, others @ ..] if *code != ESCAPE => Some((plain_word(*code), others)),
        [_] => Some((SPACE, &[])),
        [_, code, others @ ..] => Some((escaped_word(*code), others)),
    }
}

/// Whether none of four septets is the escape, tested in one word; `false` leaves it open.
#[inline(always)]
fn has_no_escape(codes: [u8; 4]) -> bool
    requires { AreSeptets codes }
    ensures { result ≡ true → (slice_index codes 0 ≢ 27) × (slice_index codes 1 ≢ 27)
        × (slice_index codes 2 ≢ 27) × (slice_index codes 3 ≢ 27) }
{
    let word = u32::from_le_bytes(codes);
    // the highest bit of an octet says whether the code is 28 or more, and whether it is 27 or more
    (word + 0x6464_6464) & 0x8080_8080 == (word + 0x6565_6565) & 0x8080_8080
}

/// Writes the character of a code that stands alone, and returns the place after it.
#[inline(always)]
fn put_plain(out: &mut [u8], at: usize, code: u8) -> usize
    requires code { code < 128 }
    requires room { at + 4 ≤ length out.old }
    ensures place { result ≤ at + 2 }
    ensures text { take result out.new ≡ take at out.old ++ encode_utf8 (plain_character code) }
{
    put_word(out, at, plain_word(code))
}

/// Writes the text of the first four septets, where none of them is an escape, and returns the
/// place after it and the septets that are left.
#[inline(always)]
fn put_four<'a>(out: &mut [u8], at: usize, septets: &'a [u8]) -> Option<(usize, &'a [u8])>
    requires septets { AreSeptets septets.now }
    requires room { at + 2 * length septets.now + 2 ≤ length out.old }
    ensures text { MatchOption result (out.new ≡ out.old) (λ parts.
        take parts.0 out.new ++ encode_utf8_all (text_of_septets parts.1.now)
        ≡ take at out.old ++ encode_utf8_all (text_of_septets septets.now)) }
    ensures septets { IfSome result (λ parts. AreSeptets parts.1.now) }
    ensures place { IfSome result (λ parts. parts.0 ≤ at + 8) }
    ensures left { IfSome result (λ parts. length parts.1.now + 4 ≡ length septets.now) }
{
    match septets {
        [a, b, c, d, others @ ..] if has_no_escape([*a, *b, *c, *d]) => {
            let second = put_plain(out, at, *a);
            let third = put_plain(out, second, *b);
            let fourth = put_plain(out, third, *c);
            Some((put_plain(out, fourth, *d), others))
        }
        _ => None,
    }
}

/// Writes the text of septets from a place on, of four septets or of one character at a time, and
/// stops where at most so many septets are left, which it returns with the place after the text.
#[inline(always)]
fn put_singly<'a>(out: &mut [u8], at: usize, septets: &'a [u8], stop: usize) -> (usize, &'a [u8])
    requires septets { AreSeptets septets.now }
    requires room { at + 2 * length septets.now + 2 ≤ length out.old }
    ensures septets { AreSeptets result.1.now }
    ensures room { result.0 + 2 * length result.1.now + 2 ≤ length out.new }
    ensures left { length result.1.now ≤ stop }
    ensures text { take result.0 out.new ++ encode_utf8_all (text_of_septets result.1.now)
        ≡ take at out.old ++ encode_utf8_all (text_of_septets septets.now) }
{
    let mut rest = septets;
    let mut place = at;
    while rest.len() > stop {
        if let Some((after, others)) = put_four(out, place, rest) {
            place = after;
            rest = others;
            continue;
        }
        let Some((word, others)) = first_word(rest) else {
            break;
        };
        place = put_word(out, place, word);
        rest = others;
    }
    (place, rest)
}

/// Writes the text of septets from the front on, and returns where it ends.
#[inline(never)]
fn put_text(out: &mut [u8], septets: &[u8]) -> usize
    requires septets { AreSeptets septets.now }
    requires room { 2 * length septets.now + 2 ≤ length out.old }
    ensures within { result ≤ length out.new }
    ensures text { take result out.new ≡ encode_utf8_all (text_of_septets septets.now) }
{
    let mut rest = septets;
    let mut at = 0;
    while !rest.is_empty() {
        if let Some((block, others)) = same_sixteen(rest) {
            out[at..at + 16].copy_from_slice(block);
            at += 16;
            rest = others;
        } else {
            (at, rest) = put_singly(out, at, rest, rest.len().saturating_sub(32));
        }
    }
    at
}

/// The text of septets, with room for two octets of each.
#[inline(never)]
fn text_of_mixed(alloc: Global, septets: &[u8]) -> Result<String, AllocError>
    requires septets { AreSeptets septets.now }
    ensures { IfOk result (λ text. chars (string_bytes text) ≡ text_of_septets septets.now) }
{
    let room = septets.len().saturating_mul(2).saturating_add(2);
    let mut octets = Vec::with_capacity(alloc, room)?;
    octets.resize(room, 0)?;
    let end = put_text(&mut octets, septets);
    octets.truncate(end);
    Ok(text_of_utf8(octets))
}

/// The text of septets, each below 128. An escape before a code that the extension table lacks is
/// passed over, a second or a last escape is a space (3GPP TS 23.038, 6.2.1.1).
pub fn text_of_gsm(alloc: Global, septets: &[u8]) -> Result<String, AllocError>
    requires septets { AreSeptets septets.now }
    ensures { IfOk result (λ text. chars (string_bytes text) ≡ text_of_septets septets.now) }
{
    if !all_same(septets) {
        return text_of_mixed(alloc, septets);
    }
    let octets = Vec::from_slice(alloc, septets)?;
    Ok(text_of_utf8(octets))
}

/// The text of septets, each below 128. Where all of them are the codes of their own characters in
/// ASCII, they are the text themselves, and no memory is asked for.
pub fn text_from_gsm(alloc: Global, septets: Vec<u8>) -> Result<String, AllocError>
    requires septets { AreSeptets septets.items }
    ensures { IfOk result (λ text. chars (string_bytes text) ≡ text_of_septets septets.items) }
{
    if !all_same(&septets) {
        return text_of_mixed(alloc, &septets);
    }
    Ok(text_of_utf8(septets))
}

/// The text of `count` septets after `fill` bits, 0 to 6, or `None` where there are too few octets.
pub fn text_of_packed(
    alloc: Global,
    octets: &[u8],
    fill: u8,
    count: usize,
) -> Result<Option<String>, AllocError>
    requires { fill < 7 }
    ensures { IfOk result (λ found. MatchOption found
        (8 * length octets.now < fill + 7 * count)
        (λ text. (chars (string_bytes text) ≡ text_of_septets (unpacked fill count octets.now))
        × (fill + 7 * count ≤ 8 * length octets.now))) }
{
    match unpack(alloc, octets, fill, count)? {
        Some(septets) => Ok(Some(text_from_gsm(alloc, septets)?)),
        None => Ok(None),
    }
}
