//! The packets of the connection that carry no message of the relay.

ghost use Rattle.std.specs.Prelude.{◌≡◌};
ghost use Rattle.sms_relay.specs.declared.cp.CpBody.TheVariants as cp;
ghost use Rattle.sms_c.specs.HandedOut.{ArePut, LackRoom};
ghost use Rattle.sms_c.specs.Wrapping.{OfCp};
ghost use Rattle.sms_c.specs.WrappingFaults.{transaction_fault, IsTold};

use crate::status::status_of;
use crate::wrapping::{Envelope, put_packet};
use sms_relay::CpBody;
use std::alloc::Global;

/// Writes a CP-ACK.
#[unsafe(no_mangle)]
pub extern "C" fn sms_cp_ack(
    alloc: Global,
    envelope: &Envelope,
    out: &mut [u8],
    needed: &mut usize,
) -> u32
    ensures told { IsTold result (transaction_fault envelope.now) }
    ensures put { result ≡ 0 → OfCp envelope.now cp.Ack
        (ArePut out.old out.new needed.new) }
    ensures no_room { result ≡ 3 → OfCp envelope.now cp.Ack
        (LackRoom out.old out.new needed.new) }
    ensures none { (result ≡ 0 → ⊥) → out.new ≡ out.old }
    ensures needed { (result ≡ 0 → ⊥) → (result ≡ 3 → ⊥) → needed.new ≡ 0 }
{
    *needed = 0;
    status_of(put_packet(alloc, *envelope, CpBody::Ack, out, needed))
}

/// Writes a CP-ERROR.
#[unsafe(no_mangle)]
pub extern "C" fn sms_cp_error(
    alloc: Global,
    envelope: &Envelope,
    cause: u8,
    out: &mut [u8],
    needed: &mut usize,
) -> u32
    ensures told { IsTold result (transaction_fault envelope.now) }
    ensures put { result ≡ 0 → OfCp envelope.now (cp.Fail cause)
        (ArePut out.old out.new needed.new) }
    ensures no_room { result ≡ 3 → OfCp envelope.now (cp.Fail cause)
        (LackRoom out.old out.new needed.new) }
    ensures none { (result ≡ 0 → ⊥) → out.new ≡ out.old }
    ensures needed { (result ≡ 0 → ⊥) → (result ≡ 3 → ⊥) → needed.new ≡ 0 }
{
    *needed = 0;
    status_of(put_packet(alloc, *envelope, CpBody::Fail(cause), out, needed))
}
