//! Texts of the user data that C has seen in octets.

ghost use Rattle.std.specs.Prelude.{◌≡◌, ◌≢◌, ◌<◌, ◌⊎◌, ◌↔◌, length, Err, None, IfOk, IfErr, IsTrue, OnErr};
ghost use Rattle.std.specs.Str.{chars};
ghost use Rattle.std.specs.String.{string_bytes};
ghost use Rattle.sms_text.specs.Bits.{unpacked};
ghost use Rattle.sms_text.specs.TextOfSeptets.{text_of_septets};
ghost use Rattle.sms_c.specs.Fitting.{FitsUser, HasNoText, HasSeptets, IsAnswered};
ghost use Rattle.sms_c.specs.HandedOut.{ArePut, LackRoom, OfText};
ghost use Rattle.sms_c.specs.Parts as seen;
ghost use Rattle.sms_c.specs.Status.{IsNotRoom, status_in, status_of as number_of};
ghost use Rattle.sms_c.specs.declared.status.Failure.TheVariants.{NoRoom};

use crate::handed_out::hand_out;
use crate::parts::UserSeen;
use crate::status::{Failure, status_of};
use sms_text::{text_of_packed, text_of_ucs2_octets};
use std::alloc::Global;

/// Whether so many septets lie in octets after fill bits.
fn has_septets(octets: &[u8], fill: u8, count: u8) -> bool
    ensures { IsTrue result ↔ HasSeptets (length octets.now) fill count }
{
    let bits = usize::from(fill) + 7 * usize::from(count);
    fill < 7 && (bits + 7) / 8 <= octets.len()
}

/// The text of septets that lie in octets after fill bits.
fn text_of_count(alloc: Global, octets: &[u8], fill: u8, count: u8) -> Result<String, Failure>
    ensures text { IfOk result (λ text. chars (string_bytes text)
        ≡ text_of_septets (unpacked fill count octets.now)) }
    ensures range { (status_in result ≡ 7)
        ↔ (HasSeptets (length octets.now) fill count → ⊥) }
    ensures other { IfErr result (λ why. (number_of why ≡ 7) ⊎ (number_of why ≡ 2)) }
{
    if !has_septets(octets, fill, count) {
        return Err(Failure::OutOfRange);
    }
    match text_of_packed(alloc, octets, fill, usize::from(count))? {
        Some(text) => Ok(text),
        None => unreachable!(),
    }
}

/// The text of user data.
fn text_in(alloc: Global, octets: &[u8], user: &UserSeen) -> Result<String, Failure>
    ensures text { IfOk result (λ text.
        chars (string_bytes text) ≡ seen.user_chars octets.now user.now) }
    ensures range { (status_in result ≡ 7) ↔ (FitsUser octets.now user.now → ⊥) }
    ensures not_there { (status_in result ≡ 8) ↔ HasNoText octets.now user.now }
    ensures other { IfErr result (λ why.
        (number_of why ≡ 7) ⊎ (number_of why ≡ 8) ⊎ (number_of why ≡ 2)) }
{
    let Some(octets) = user.body.of(octets) else {
        return Err(Failure::OutOfRange);
    };
    match user.alphabet {
        0 => text_of_count(alloc, octets, user.fill, user.count),
        2 => Ok(text_of_ucs2_octets(alloc, octets)?),
        _ => Err(Failure::NotThere),
    }
}

/// Hands out the text of user data.
fn user_text(
    alloc: Global,
    octets: &[u8],
    user: &UserSeen,
    out: &mut [u8],
    needed: &mut usize,
) -> Result<(), Failure>
    ensures range { (status_in result ≡ 7) ↔ (FitsUser octets.now user.now → ⊥) }
    ensures not_there { (status_in result ≡ 8) ↔ HasNoText octets.now user.now }
    ensures answered { status_in result ≢ 7 → status_in result ≢ 8
        → IsAnswered (status_in result) }
    ensures put { IfOk result (λ _. OfText (seen.user_chars octets.now user.now)
        (ArePut out.old out.new needed.new)) }
    ensures no_room { result ≡ Err NoRoom → OfText (seen.user_chars octets.now user.now)
        (LackRoom out.old out.new needed.new) }
    ensures none { OnErr result (out.new ≡ out.old) }
    ensures needed { IfErr result (λ why. IsNotRoom why → needed.new ≡ needed.old) }
{
    let text = text_in(alloc, octets, user)?;
    hand_out(text.as_bytes(), out, needed)
}

/// The text of user data that were seen in these octets.
#[unsafe(no_mangle)]
pub extern "C" fn sms_user_text(
    alloc: Global,
    octets: &[u8],
    user: &UserSeen,
    out: &mut [u8],
    needed: &mut usize,
) -> u32
    ensures range { (result ≡ 7) ↔ (FitsUser octets.now user.now → ⊥) }
    ensures not_there { (result ≡ 8) ↔ HasNoText octets.now user.now }
    ensures answered { result ≢ 7 → result ≢ 8 → IsAnswered result }
    ensures put { result ≡ 0 → OfText (seen.user_chars octets.now user.now)
        (ArePut out.old out.new needed.new) }
    ensures no_room { result ≡ 3 → OfText (seen.user_chars octets.now user.now)
        (LackRoom out.old out.new needed.new) }
    ensures none { (result ≡ 0 → ⊥) → out.new ≡ out.old }
    ensures needed { (result ≡ 0 → ⊥) → (result ≡ 3 → ⊥) → needed.new ≡ 0 }
{
    *needed = 0;
    status_of(user_text(alloc, octets, user, out, needed))
}
