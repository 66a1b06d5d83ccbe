//! The text of the address of a service centre.

ghost use Rattle.std.specs.Prelude.{◌≡◌, ℕ, false, Option, Some, Ok, Err, MatchResult, IfOk, IfErr, OnErr};
ghost use Rattle.std.specs.Str.{chars};
ghost use Rattle.std.specs.String.{string_bytes};
ghost use Rattle.sms_field.specs.RelayAddress.Text.{relay_address_text as text_of_address};
ghost use Rattle.sms_field.specs.RelayAddress.Value.{RelayAddressValue};
ghost use Rattle.sms_c.specs.Answered.{Answers, AnswersSo, Fails};
ghost use Rattle.sms_c.specs.CentreText.{LiesThere, LiesAstray, IsCentreAt, IsRefusedCentre, text_of_centre, HasNoCentre, OfCentre};
ghost use Rattle.sms_c.specs.HandedOut.{ArePut, LackRoom};
ghost use Rattle.sms_c.specs.Status.{IsNotRoom};
ghost use Rattle.sms_c.specs.Writing.{is_set};
ghost use Rattle.sms_c.specs.declared.status.Failure.TheVariants.{NoRoom, NotThere, OutOfRange, Refused};

use crate::handed_out::hand_out;
use crate::lying::part_of;
use crate::relay::RpSeen;
use crate::status::{Failure, status_of};
use crate::writing::is_set;
use sms_field::RpAddressView;
use std::alloc::Global;

/// The address that lies in the octets; none where its length octet is 0.
fn centre_in<'a>(octets: &'a [u8], rp: &RpSeen) -> Result<Option<RpAddressView<'a>>, Failure>
    ensures centre { IfOk result (λ address. (used : ℕ)
        × IsCentreAt octets.now rp.now address used) }
    ensures absent { is_set rp.now.has_address ≡ false → result ≡ Err NotThere }
    ensures not_there { result ≡ Err NotThere → is_set rp.now.has_address ≡ false }
    ensures astray { LiesAstray octets.now rp.now → result ≡ Err OutOfRange }
    ensures range { result ≡ Err OutOfRange → LiesAstray octets.now rp.now }
    ensures refused { result ≡ Err Refused → IsRefusedCentre octets.now rp.now }
    ensures exact { (address : Option RelayAddressValue) (used : ℕ)
        → IsCentreAt octets.now rp.now address used
        → MatchResult result (λ view. view ≡ address) (λ _. ⊥) }
    ensures room { IfErr result IsNotRoom }
{
    if !is_set(rp.has_address) {
        return Err(Failure::NotThere);
    }
    let Some(part) = part_of(octets, rp.address) else {
        return Err(Failure::OutOfRange);
    };
    match RpAddressView::read(part) {
        Ok((view, _)) => Ok(view),
        Err(_) => Err(Failure::Refused),
    }
}

/// The text of the address.
fn text_of(alloc: Global, octets: &[u8], rp: &RpSeen) -> Result<String, Failure>
    ensures text { IfOk result (λ text. (address : RelayAddressValue) × (used : ℕ)
        × IsCentreAt octets.now rp.now (Some address) used
        × (chars (string_bytes text) ≡ text_of_address address)) }
    ensures absent { is_set rp.now.has_address ≡ false → result ≡ Err NotThere }
    ensures not_there { result ≡ Err NotThere → HasNoCentre octets.now rp.now }
    ensures astray { LiesAstray octets.now rp.now → result ≡ Err OutOfRange }
    ensures range { result ≡ Err OutOfRange → LiesAstray octets.now rp.now }
    ensures refused { result ≡ Err Refused → IsRefusedCentre octets.now rp.now }
    ensures exact { (address : Option RelayAddressValue) (used : ℕ)
        → IsCentreAt octets.now rp.now address used
        → MatchResult result (λ text. text_of_centre address ≡ Ok (chars (string_bytes text)))
        (λ why. Fails (text_of_centre address) why) }
    ensures room { IfErr result IsNotRoom }
{
    let Some(view) = centre_in(octets, rp)? else {
        return Err(Failure::NotThere);
    };
    Ok(view.to_value(alloc)?.to_text(alloc)?)
}

/// Hands out the text of the address.
fn put_text(
    alloc: Global,
    octets: &[u8],
    rp: &RpSeen,
    out: &mut [u8],
    needed: &mut usize,
) -> Result<(), Failure>
    ensures put { IfOk result (λ _. OfCentre octets.now rp.now
        (ArePut out.old out.new needed.new)) }
    ensures no_room { result ≡ Err NoRoom → OfCentre octets.now rp.now
        (LackRoom out.old out.new needed.new) }
    ensures none { OnErr result (out.new ≡ out.old) }
    ensures needed { IfErr result (λ why. IsNotRoom why → needed.new ≡ needed.old) }
    ensures absent { is_set rp.now.has_address ≡ false → result ≡ Err NotThere }
    ensures not_there { result ≡ Err NotThere → HasNoCentre octets.now rp.now }
    ensures astray { LiesAstray octets.now rp.now → result ≡ Err OutOfRange }
    ensures range { result ≡ Err OutOfRange → LiesAstray octets.now rp.now }
    ensures refused { result ≡ Err Refused → IsRefusedCentre octets.now rp.now }
    ensures exact { (address : Option RelayAddressValue) (used : ℕ)
        → IsCentreAt octets.now rp.now address used
        → AnswersSo (text_of_centre address) result }
{
    let text = text_of(alloc, octets, rp)?;
    hand_out(text.as_bytes(), out, needed)
}

/// The text of the address of the service centre that was seen in these octets.
#[unsafe(no_mangle)]
pub extern "C" fn sms_relay_address_text(
    alloc: Global,
    octets: &[u8],
    rp: &RpSeen,
    out: &mut [u8],
    needed: &mut usize,
) -> u32
    ensures put { result ≡ 0 → OfCentre octets.now rp.now
        (ArePut out.old out.new needed.new) }
    ensures no_room { result ≡ 3 → OfCentre octets.now rp.now
        (LackRoom out.old out.new needed.new) }
    ensures none { (result ≡ 0 → ⊥) → out.new ≡ out.old }
    ensures needed { (result ≡ 0 → ⊥) → (result ≡ 3 → ⊥) → needed.new ≡ 0 }
    ensures absent { is_set rp.now.has_address ≡ false → result ≡ 8 }
    ensures not_there { result ≡ 8 → HasNoCentre octets.now rp.now }
    ensures astray { LiesAstray octets.now rp.now → result ≡ 7 }
    ensures range { result ≡ 7 → LiesAstray octets.now rp.now }
    ensures refused { result ≡ 1 → IsRefusedCentre octets.now rp.now }
    ensures status { (address : Option RelayAddressValue) (used : ℕ)
        → IsCentreAt octets.now rp.now address used → Answers (text_of_centre address) result }
{
    *needed = 0;
    status_of(put_text(alloc, octets, rp, out, needed))
}
