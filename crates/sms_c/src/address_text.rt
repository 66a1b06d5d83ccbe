//! Texts of the addresses that C has seen in octets.

ghost use Rattle.std.specs.Prelude.{◌≡◌, ◌≢◌, ◌<◌, ◌↔◌, ℕ, Err, IfOk, IfErr, OnErr};
ghost use Rattle.std.specs.Str.{chars};
ghost use Rattle.std.specs.String.{string_bytes};
ghost use Rattle.sms_field.specs.Reading.{Reads};
ghost use Rattle.sms_field.specs.Address.{address as address_field};
ghost use Rattle.sms_field.specs.Address.Value.{AddressValue};
ghost use Rattle.sms_field.specs.Address.Text.{address_text as text_of_address};
ghost use Rattle.sms_c.specs.Fitting.{EndsBeyond, HoldNoAddress, IsAnswered, IsAtNoAddress};
ghost use Rattle.sms_c.specs.HandedOut.{ArePut, LackRoom};
ghost use Rattle.sms_c.specs.Parts as seen;
ghost use Rattle.sms_c.specs.Parts.{OfAddress};
ghost use Rattle.sms_c.specs.Status.{IsNotRoom, status_in, status_of as number_of};
ghost use Rattle.sms_c.specs.declared.status.Failure.TheVariants.{NoRoom};

use crate::handed_out::hand_out;
use crate::parts::AddressSeen;
use crate::status::{Failure, status_of};
use sms_field::AddressView;
use std::alloc::Global;

/// The text of the address at the front of octets.
fn address_in(alloc: Global, octets: &[u8]) -> Result<String, Failure>
    ensures text { IfOk result (λ text. (value : AddressValue) × (used : ℕ)
        × Reads address_field value octets.now used
        × (chars (string_bytes text) ≡ text_of_address value)) }
    ensures refused { (status_in result ≡ 1) ↔ HoldNoAddress octets.now }
    ensures other { IfErr result (λ why. number_of why < 3) }
{
    let Ok((view, _)) = AddressView::read(octets) else {
        return Err(Failure::Refused);
    };
    Ok(view.to_value(alloc)?.to_text(alloc)?)
}

/// Hands out the text of an address.
fn put_address(
    alloc: Global,
    octets: &[u8],
    address: &AddressSeen,
    out: &mut [u8],
    needed: &mut usize,
) -> Result<(), Failure>
    ensures range { (status_in result ≡ 7) ↔ EndsBeyond octets.now address.now.octets }
    ensures refused { (status_in result ≡ 1) ↔ IsAtNoAddress octets.now address.now.octets }
    ensures answered { status_in result ≢ 1 → status_in result ≢ 7
        → IsAnswered (status_in result) }
    ensures put { IfOk result (λ _. OfAddress (seen.octets_at octets.now address.now.octets)
        (ArePut out.old out.new needed.new)) }
    ensures no_room { result ≡ Err NoRoom
        → OfAddress (seen.octets_at octets.now address.now.octets)
        (LackRoom out.old out.new needed.new) }
    ensures none { OnErr result (out.new ≡ out.old) }
    ensures needed { IfErr result (λ why. IsNotRoom why → needed.new ≡ needed.old) }
{
    let Some(octets) = address.octets.of(octets) else {
        return Err(Failure::OutOfRange);
    };
    let text = address_in(alloc, octets)?;
    hand_out(text.as_bytes(), out, needed)
}

/// The text of an address that was seen in these octets.
#[unsafe(no_mangle)]
pub extern "C" fn sms_address_text(
    alloc: Global,
    octets: &[u8],
    address: &AddressSeen,
    out: &mut [u8],
    needed: &mut usize,
) -> u32
    ensures range { (result ≡ 7) ↔ EndsBeyond octets.now address.now.octets }
    ensures refused { (result ≡ 1) ↔ IsAtNoAddress octets.now address.now.octets }
    ensures answered { result ≢ 1 → result ≢ 7 → IsAnswered result }
    ensures put { result ≡ 0 → OfAddress (seen.octets_at octets.now address.now.octets)
        (ArePut out.old out.new needed.new) }
    ensures no_room { result ≡ 3 → OfAddress (seen.octets_at octets.now address.now.octets)
        (LackRoom out.old out.new needed.new) }
    ensures none { (result ≡ 0 → ⊥) → out.new ≡ out.old }
    ensures needed { (result ≡ 0 → ⊥) → (result ≡ 3 → ⊥) → needed.new ≡ 0 }
{
    *needed = 0;
    status_of(put_address(alloc, octets, address, out, needed))
}
