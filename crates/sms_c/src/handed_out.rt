//! Answers handed to C, and texts taken from it.

ghost use Rattle.std.specs.Prelude.{◌≡◌, ◌⊎◌, true, false, IfOk, IfErr, MatchResult};
ghost use Rattle.std.specs.Str.{is_utf8, IsUtf8};
ghost use Rattle.sms_c.specs.HandedOut.{ArePut, LackRoom};
ghost use Rattle.sms_c.specs.Status.{status_in};
ghost use Rattle.sms_c.specs.declared.status.Failure.TheVariants.{NoRoom, NotUtf8};

use crate::status::Failure;

/// Hands octets out where there is room for all of them, and tells how many there are.
pub fn hand_out(octets: &[u8], out: &mut [u8], needed: &mut usize) -> Result<(), Failure>
    ensures put { IfOk result (λ _. ArePut out.old out.new needed.new octets.now) }
    ensures no_room { IfErr result (λ why. (why ≡ NoRoom)
        × LackRoom out.old out.new needed.new octets.now) }
    ensures status { (status_in result ≡ 0) ⊎ (status_in result ≡ 3) }
{
    *needed = octets.len();
    if octets.len() > out.len() {
        return Err(Failure::NoRoom);
    }
    out[..octets.len()].copy_from_slice(octets);
    Ok(())
}

/// The text that octets spell in UTF-8.
pub fn text_of(octets: &[u8]) -> Result<&str, Failure>
    ensures text { IfOk result (λ text. text.now ≡ octets.now) }
    ensures utf8 { IfOk result (λ _. IsUtf8 octets.now) }
    ensures test { MatchResult result (λ _. is_utf8 octets.now ≡ true)
        (λ _. is_utf8 octets.now ≡ false) }
    ensures none { IfErr result (λ why. (why ≡ NotUtf8) × (IsUtf8 octets.now → ⊥)) }
{
    match str::from_utf8(octets) {
        Ok(text) => Ok(text),
        Err(_) => Err(Failure::NotUtf8),
    }
}
