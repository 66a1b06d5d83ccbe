//! The septets of texts, written into octets that are there.

ghost use Rattle.std.specs.Prelude.{◌≡◌, ◌≤◌, ◌+◌, ◌*◌, length, take, IfOk, IfSome, MatchOption, Some, None};
ghost use Rattle.std.specs.Str.{chars};
ghost use Rattle.sms_text.specs.Bits.{AreSeptets};
ghost use Rattle.sms_text.specs.SeptetsOfText.{septets_of_character, septets_of_text, appended};

use crate::same::same_sixteen;
use crate::tables::{ESCAPE, extension_code, main_code};
use std::alloc::{AllocError, Global};

/// Writes the septets of a character, and returns the place after them, where it has some.
#[inline(always)]
fn put_character(out: &mut [u8], at: usize, c: char) -> Option<usize>
    requires { at + 2 ≤ length out.old }
    ensures septets { MatchOption result
        (septets_of_character c ≡ None)
        (λ place. appended (Some (take at out.old)) (septets_of_character c)
        ≡ Some (take place out.new)) }
    ensures place { IfSome result (λ place. place ≤ at + 2) }
{
    if let Some(code) = main_code(c) {
        out[at] = code;
        return Some(at + 1);
    }
    let Some(code) = extension_code(c) else {
        return None;
    };
    out[at] = ESCAPE;
    out[at + 1] = code;
    Some(at + 2)
}

/// Writes the septets of a text from a place on, a character at a time, and stops where at most so
/// many octets of it are left, which it returns with the place after the septets.
#[inline(always)]
fn put_each<'a>(out: &mut [u8], at: usize, text: &'a str, stop: usize) -> Option<(usize, &'a str)>
    requires { at + 2 * length text.now ≤ length out.old }
    ensures septets { MatchOption result
        (appended (Some (take at out.old)) (septets_of_text (chars text.now)) ≡ None)
        (λ parts. appended (Some (take parts.0 out.new)) (septets_of_text (chars parts.1.now))
        ≡ appended (Some (take at out.old)) (septets_of_text (chars text.now))) }
    ensures room { IfSome result (λ parts. parts.0 + 2 * length parts.1.now ≤ length out.new) }
    ensures left { IfSome result (λ parts. length parts.1.now ≤ stop) }
{
    let mut rest = text;
    let mut place = at;
    while rest.len() > stop {
        let mut characters = rest.chars();
        let Some(c) = characters.next() else {
            break;
        };
        let Some(after) = put_character(out, place, c) else {
            return None;
        };
        place = after;
        rest = characters.as_str();
    }
    Some((place, rest))
}

/// Writes the septets of a text from the front on, and returns where they end, where each of its
/// characters has some.
#[inline(never)]
fn put_septets(out: &mut [u8], text: &str) -> Option<usize>
    requires { 2 * length text.now ≤ length out.old }
    ensures within { IfSome result (λ end. end ≤ length out.new) }
    ensures septets { MatchOption result
        (septets_of_text (chars text.now) ≡ None)
        (λ end. septets_of_text (chars text.now) ≡ Some (take end out.new)) }
{
    let mut rest = text;
    let mut at = 0;
    while !rest.is_empty() {
        if let Some((block, _)) = same_sixteen(rest.as_bytes()) {
            out[at..at + 16].copy_from_slice(block);
            at += 16;
            rest = rest.split_at(16).1;
        } else {
            let Some(after) = put_each(out, at, rest, rest.len().saturating_sub(16)) else {
                return None;
            };
            (at, rest) = after;
        }
    }
    Some(at)
}

/// The septets of a text, with room for two of each of its octets.
#[inline(never)]
pub(crate) fn septets_of_mixed(alloc: Global, text: &str) -> Result<Option<Vec<u8>>, AllocError>
    ensures exact { IfOk result (λ found. MatchOption found
        (septets_of_text (chars text.now) ≡ None)
        (λ septets. septets_of_text (chars text.now) ≡ Some septets.items)) }
    ensures septets { IfOk result (λ found. IfSome found (λ septets. AreSeptets septets.items)) }
{
    let room = text.len().saturating_mul(2);
    let mut septets = Vec::with_capacity(alloc, room)?;
    septets.resize(room, 0)?;
    let Some(end) = put_septets(&mut septets, text) else {
        return Ok(None);
    };
    septets.truncate(end);
    Ok(Some(septets))
}
