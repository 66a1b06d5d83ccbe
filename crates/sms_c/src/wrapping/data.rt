//! Units in an RP-DATA.

ghost use Rattle.std.specs.Prelude.{◌≡◌, ◌≤◌, length, Some, None, Err, IfOk, IfErr, MatchResult, OnErr};
ghost use Rattle.sms_c.specs.HandedOut.{ArePut, LackRoom};
ghost use Rattle.sms_c.specs.RecordWriting.{centre_told};
ghost use Rattle.sms_c.specs.SeenRelay as seen;
ghost use Rattle.sms_c.specs.Status.{IsNotRoom, status_in};
ghost use Rattle.sms_c.specs.Wrapping.{IsCentre, OfData};
ghost use Rattle.sms_c.specs.WrappingFaults.{centre_fault, data_fault, transaction_fault, IsTold};
ghost use Rattle.sms_c.specs.declared.status.Failure.TheVariants.{NoRoom};

use crate::handed_out::text_of;
use crate::status::{Failure, status_of};
use crate::wrapping::{Envelope, check_unit, put_message, side_of, unit_of};
use sms_field::RpAddress;
use sms_relay::{RpBody, RpMessage, Side};
use std::alloc::Global;

/// The address of a service centre that a text spells; none of no text.
pub fn centre_of(alloc: Global, text: &[u8]) -> Result<Option<RpAddress>, Failure>
    ensures fault { MatchResult result (λ _. centre_fault text.now ≡ None)
        (λ why. centre_fault text.now ≡ Some why) }
    ensures centre { IfOk result (IsCentre text.now) }
    ensures told { IfOk result (λ centre. centre ≡ centre_told text.now) }
{
    if text.is_empty() {
        return Ok(None);
    }
    let text = text_of(text)?;
    Ok(Some(RpAddress::from_text(alloc, text)?))
}

/// The side and the address of an RP-DATA, where it has no fault.
fn data_of(
    alloc: Global,
    envelope: Envelope,
    address: &[u8],
    unit: &[u8],
) -> Result<(Side, Option<RpAddress>), Failure>
    ensures fault { MatchResult result
        (λ _. data_fault envelope address.now unit.now ≡ None)
        (λ why. data_fault envelope address.now unit.now ≡ Some why) }
    ensures side { IfOk result (λ of. envelope.side ≡ seen.side_number of.0) }
    ensures centre { IfOk result (λ of. IsCentre address.now of.1) }
    ensures transaction { IfOk result (λ _. transaction_fault envelope ≡ None) }
    ensures fits { IfOk result (λ _. length unit.now ≤ 233) }
{
    let side = side_of(envelope)?;
    let centre = centre_of(alloc, address)?;
    check_unit(unit)?;
    Ok((side, centre))
}

/// Puts out the packet of an RP-DATA.
fn put_data(
    alloc: Global,
    envelope: Envelope,
    address: &[u8],
    unit: &[u8],
    out: &mut [u8],
    needed: &mut usize,
) -> Result<(), Failure>
    ensures told { IsTold (status_in result) (data_fault envelope address.now unit.now) }
    ensures put { IfOk result (λ _. OfData envelope address.now unit.now
        (ArePut out.old out.new needed.new)) }
    ensures no_room { result ≡ Err NoRoom → OfData envelope address.now unit.now
        (LackRoom out.old out.new needed.new) }
    ensures none { OnErr result (out.new ≡ out.old) }
    ensures needed { IfErr result (λ why. IsNotRoom why → needed.new ≡ needed.old) }
{
    let (side, address) = data_of(alloc, envelope, address, unit)?;
    let user = unit_of(alloc, unit)?;
    let message = RpMessage {
        side,
        reference: envelope.reference,
        body: RpBody::Transfer { address, user },
    };
    put_message(alloc, envelope, message, out, needed)
}

/// Writes a CP-DATA around an RP-DATA around a unit.
#[unsafe(no_mangle)]
pub extern "C" fn sms_wrap_data(
    alloc: Global,
    envelope: &Envelope,
    address: &[u8],
    unit: &[u8],
    out: &mut [u8],
    needed: &mut usize,
) -> u32
    ensures told { IsTold result (data_fault envelope.now address.now unit.now) }
    ensures put { result ≡ 0 → OfData envelope.now address.now unit.now
        (ArePut out.old out.new needed.new) }
    ensures no_room { result ≡ 3 → OfData envelope.now address.now unit.now
        (LackRoom out.old out.new needed.new) }
    ensures none { (result ≡ 0 → ⊥) → out.new ≡ out.old }
    ensures needed { (result ≡ 0 → ⊥) → (result ≡ 3 → ⊥) → needed.new ≡ 0 }
{
    *needed = 0;
    status_of(put_data(alloc, *envelope, address, unit, out, needed))
}
