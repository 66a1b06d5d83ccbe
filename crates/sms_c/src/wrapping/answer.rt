//! Units, or none, in an RP-ACK and in an RP-ERROR.

ghost use Rattle.std.specs.Prelude.{◌≡◌, ◌≤◌, length, Some, None, Err, IfOk, IfErr, MatchResult, OnErr};
ghost use Rattle.sms_c.specs.HandedOut.{ArePut, LackRoom};
ghost use Rattle.sms_c.specs.SeenRelay as seen;
ghost use Rattle.sms_c.specs.Status.{IsNotRoom, status_in};
ghost use Rattle.sms_c.specs.Wrapping.{OfAnswer};
ghost use Rattle.sms_c.specs.WrappingFaults.{ack_fault, error_fault, transaction_fault, IsTold};
ghost use Rattle.sms_c.specs.declared.status.Failure.TheVariants.{NoRoom};

use crate::status::{Failure, status_of};
use crate::wrapping::{Envelope, check_unit, put_message, side_of, some_unit};
use sms_relay::{RpBody, RpMessage, Side};
use std::alloc::Global;

/// The side of an RP-ACK, where it has no fault.
fn ack_of(envelope: Envelope, unit: &[u8]) -> Result<Side, Failure>
    ensures fault { MatchResult result (λ _. ack_fault envelope unit.now ≡ None)
        (λ why. ack_fault envelope unit.now ≡ Some why) }
    ensures side { IfOk result (λ side. envelope.side ≡ seen.side_number side) }
    ensures transaction { IfOk result (λ _. transaction_fault envelope ≡ None) }
    ensures fits { IfOk result (λ _. length unit.now ≤ 233) }
{
    let side = side_of(envelope)?;
    check_unit(unit)?;
    Ok(side)
}

/// The side of an RP-ERROR, where it has no fault.
fn error_of(envelope: Envelope, cause: u8, unit: &[u8]) -> Result<Side, Failure>
    ensures fault { MatchResult result (λ _. error_fault envelope cause unit.now ≡ None)
        (λ why. error_fault envelope cause unit.now ≡ Some why) }
    ensures side { IfOk result (λ side. envelope.side ≡ seen.side_number side) }
    ensures transaction { IfOk result (λ _. transaction_fault envelope ≡ None) }
    ensures cause { IfOk result (λ _. cause ≤ 127) }
    ensures fits { IfOk result (λ _. length unit.now ≤ 233) }
{
    if cause > 127 {
        return Err(Failure::OutOfRange);
    }
    ack_of(envelope, unit)
}

/// Puts out the packet of an RP-ACK.
fn put_ack(
    alloc: Global,
    envelope: Envelope,
    unit: &[u8],
    out: &mut [u8],
    needed: &mut usize,
) -> Result<(), Failure>
    ensures told { IsTold (status_in result) (ack_fault envelope unit.now) }
    ensures put { IfOk result (λ _. OfAnswer envelope None unit.now
        (ArePut out.old out.new needed.new)) }
    ensures no_room { result ≡ Err NoRoom → OfAnswer envelope None unit.now
        (LackRoom out.old out.new needed.new) }
    ensures none { OnErr result (out.new ≡ out.old) }
    ensures needed { IfErr result (λ why. IsNotRoom why → needed.new ≡ needed.old) }
{
    let side = ack_of(envelope, unit)?;
    let user = some_unit(alloc, unit)?;
    let message = RpMessage {
        side,
        reference: envelope.reference,
        body: RpBody::Ack { user },
    };
    put_message(alloc, envelope, message, out, needed)
}

/// Writes a CP-DATA around an RP-ACK, with a unit or without.
#[unsafe(no_mangle)]
pub extern "C" fn sms_wrap_ack(
    alloc: Global,
    envelope: &Envelope,
    unit: &[u8],
    out: &mut [u8],
    needed: &mut usize,
) -> u32
    ensures told { IsTold result (ack_fault envelope.now unit.now) }
    ensures put { result ≡ 0 → OfAnswer envelope.now None unit.now
        (ArePut out.old out.new needed.new) }
    ensures no_room { result ≡ 3 → OfAnswer envelope.now None unit.now
        (LackRoom out.old out.new needed.new) }
    ensures none { (result ≡ 0 → ⊥) → out.new ≡ out.old }
    ensures needed { (result ≡ 0 → ⊥) → (result ≡ 3 → ⊥) → needed.new ≡ 0 }
{
    *needed = 0;
    status_of(put_ack(alloc, *envelope, unit, out, needed))
}

/// Puts out the packet of an RP-ERROR.
fn put_error(
    alloc: Global,
    envelope: Envelope,
    cause: u8,
    unit: &[u8],
    out: &mut [u8],
    needed: &mut usize,
) -> Result<(), Failure>
    ensures told { IsTold (status_in result) (error_fault envelope cause unit.now) }
    ensures put { IfOk result (λ _. OfAnswer envelope (Some cause) unit.now
        (ArePut out.old out.new needed.new)) }
    ensures no_room { result ≡ Err NoRoom → OfAnswer envelope (Some cause) unit.now
        (LackRoom out.old out.new needed.new) }
    ensures none { OnErr result (out.new ≡ out.old) }
    ensures needed { IfErr result (λ why. IsNotRoom why → needed.new ≡ needed.old) }
{
    let side = error_of(envelope, cause, unit)?;
    let user = some_unit(alloc, unit)?;
    let message = RpMessage {
        side,
        reference: envelope.reference,
        body: RpBody::Fail {
            cause,
            diagnostic: None,
            user,
        },
    };
    put_message(alloc, envelope, message, out, needed)
}

/// Writes a CP-DATA around an RP-ERROR, with a unit or without.
#[unsafe(no_mangle)]
pub extern "C" fn sms_wrap_error(
    alloc: Global,
    envelope: &Envelope,
    cause: u8,
    unit: &[u8],
    out: &mut [u8],
    needed: &mut usize,
) -> u32
    ensures told { IsTold result (error_fault envelope.now cause unit.now) }
    ensures put { result ≡ 0 → OfAnswer envelope.now (Some cause) unit.now
        (ArePut out.old out.new needed.new) }
    ensures no_room { result ≡ 3 → OfAnswer envelope.now (Some cause) unit.now
        (LackRoom out.old out.new needed.new) }
    ensures none { (result ≡ 0 → ⊥) → out.new ≡ out.old }
    ensures needed { (result ≡ 0 → ⊥) → (result ≡ 3 → ⊥) → needed.new ≡ 0 }
{
    *needed = 0;
    status_of(put_error(alloc, *envelope, cause, unit, out, needed))
}
