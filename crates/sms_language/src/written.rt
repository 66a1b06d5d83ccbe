//! Texts written into octets that are there.

ghost use Rattle.std.specs.Prelude.{◌≡◌, ◌≤◌, ◌+◌, ◌*◌, ◌/◌, ◌<◌, ◌++◌, [], length, take, MatchOption, IfOk};
ghost use Rattle.std.specs.Str.{chars, encode_utf8_all, IsUtf8};
ghost use Rattle.std.specs.String.{string_bytes};
ghost use Rattle.sms_text.specs.Bits.{AreSeptets, unpacked};
ghost use Rattle.sms_text.specs.Inside.Words.{low_octets};
ghost use Rattle.sms_language.specs.Tables.{single_table};
ghost use Rattle.sms_text.specs.Inside.Spelled.{SpellsIn};
ghost use Rattle.sms_language.specs.TextUnder.{plain_character, escaped_character, text_under};
ghost use Rattle.sms_language.specs.Inside.Words.{AreWords, AreWordsOf, StartsText};

use crate::tables::{Locking, Single, Tables};
use crate::words::{plain_words, single_words};
use sms_text::{ESCAPE, text_of_gsm, unpack};
use std::alloc::{AllocError, Global};

/// A space.
const SPACE: u32 = 0x100_0020;

/// The text whose UTF-8 these octets are.
#[inline(always)]
fn text_of_utf8(octets: Vec<u8>) -> String
    requires { IsUtf8 octets.items }
    ensures { string_bytes result ≡ octets.items }
{
    // what it needs is what this function requires
    unsafe { String::from_utf8_unchecked(octets) }
}

/// Writes the UTF-8 of a character, and returns the place after it. Four octets may change.
#[inline(always)]
fn put_word(out: &mut [u8], at: usize, word: u32) -> usize
    requires few { word / 16777216 < 4 }
    requires room { at + 4 ≤ length out.old }
    ensures place { result ≡ at + word / 16777216 }
    ensures octets { take result out.new
        ≡ take at out.old ++ low_octets (word / 16777216) word }
{
    out[at..at + 4].copy_from_slice(&word.to_le_bytes());
    at + (word >> 24) as usize
}

/// The UTF-8 of the character of a code after the escape: by the single shift table, or by the
/// locking shift table where the former leaves it reserved.
#[inline(always)]
fn escaped_word(tables: Tables, plain: &[u32; 128], single: &[u32; 128], code: u8) -> u32
    requires plain { AreWords plain.now (plain_character tables) }
    requires single { AreWordsOf single.now (single_table tables.single) }
    requires code { code < 128 }
    ensures { SpellsIn result (escaped_character tables code) }
{
    let word = single[code as usize];
    if word == 0 {
        plain[code as usize]
    } else {
        word
    }
}

/// The UTF-8 of the first character of septets, and the septets after it.
#[inline(always)]
fn first_word<'a>(
    tables: Tables,
    plain: &[u32; 128],
    single: &[u32; 128],
    septets: &'a [u8],
) -> Option<(u32, &'a [u8])>
    requires plain { AreWords plain.now (plain_character tables) }
    requires single { AreWordsOf single.now (single_table tables.single) }
    requires septets { AreSeptets septets.now }
    ensures { MatchOption result
        (septets.now ≡ [])
        (λ first. StartsText tables septets.now first.0 first.1.now) }
{
    match septets {
        [] => None,
        [code, others @ ..] if *code != ESCAPE => Some((plain[*code as usize], others)),
        [_] => Some((SPACE, &[])),
        [_, code, others @ ..] => Some((escaped_word(tables, plain, single, *code), others)),
    }
}

/// Writes the text of septets from the front on, and returns where it ends.
#[inline(never)]
fn put_text(
    out: &mut [u8],
    septets: &[u8],
    tables: Tables,
    plain: &[u32; 128],
    single: &[u32; 128],
) -> usize
    requires septets { AreSeptets septets.now }
    requires plain { AreWords plain.now (plain_character tables) }
    requires single { AreWordsOf single.now (single_table tables.single) }
    requires room { 3 * length septets.now + 1 ≤ length out.old }
    ensures within { result ≤ length out.new }
    ensures text { take result out.new ≡ encode_utf8_all (text_under tables septets.now) }
{
    let mut rest = septets;
    let mut at = 0;
    while let Some((word, others)) = first_word(tables, plain, single, rest) {
        at = put_word(out, at, word);
        rest = others;
    }
    at
}

/// The text of septets, with room for three octets of each.
#[inline(never)]
fn text_of_mixed(alloc: Global, septets: &[u8], tables: Tables) -> Result<String, AllocError>
    requires { AreSeptets septets.now }
    ensures { IfOk result (λ text. chars (string_bytes text) ≡ text_under tables septets.now) }
{
    let room = septets.len().saturating_mul(3).saturating_add(1);
    let mut octets = Vec::with_capacity(alloc, room)?;
    octets.resize(room, 0)?;
    let plain = plain_words(tables);
    let single = single_words(tables);
    let end = put_text(&mut octets, septets, tables, plain, single);
    octets.truncate(end);
    Ok(text_of_utf8(octets))
}

/// The text of septets, each below 128, under tables. A second or a last escape is a space.
pub fn text_of_septets(alloc: Global, septets: &[u8], tables: Tables) -> Result<String, AllocError>
    requires { AreSeptets septets.now }
    ensures { IfOk result (λ text. chars (string_bytes text) ≡ text_under tables septets.now) }
{
    match (tables.locking, tables.single) {
        (Locking::Default, Single::Default) => text_of_gsm(alloc, septets),
        _ => text_of_mixed(alloc, septets, tables),
    }
}

/// The text of `count` septets after `fill` bits, 0 to 6, under tables, or `None` where there are
/// too few octets.
pub fn text_of_packed(
    alloc: Global,
    octets: &[u8],
    fill: u8,
    count: usize,
    tables: Tables,
) -> Result<Option<String>, AllocError>
    requires { fill < 7 }
    ensures { IfOk result (λ found. MatchOption found
        (8 * length octets.now < fill + 7 * count)
        (λ text. (chars (string_bytes text) ≡ text_under tables (unpacked fill count octets.now))
        × (fill + 7 * count ≤ 8 * length octets.now))) }
{
    match unpack(alloc, octets, fill, count)? {
        Some(septets) => Ok(Some(text_of_septets(alloc, &septets, tables)?)),
        None => Ok(None),
    }
}
