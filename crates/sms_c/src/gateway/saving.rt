//! What a joiner for many recipients of C holds, as octets.

ghost use Rattle.std.specs.Prelude.{◌≡◌, ◌≢◌, None, Err, IsSome, IfSome, IfOk, IfErr, OnErr};
ghost use Rattle.sms_keep.specs.Held.{CanBeSaved};
ghost use Rattle.sms_c.specs.Fitting.{IsAnswered};
ghost use Rattle.sms_c.specs.GatewayStates.{octets_of_state};
ghost use Rattle.sms_c.specs.HandedOut.{ArePut, LackRoom};
ghost use Rattle.sms_c.specs.Status.{status_in, IsNotRoom};
ghost use Rattle.sms_c.specs.declared.status.Failure.TheVariants.{NoRoom};

use crate::gateway::GatewayHandle;
use crate::gateway::inside::Inside;
use crate::handed_out::hand_out;
use crate::status::{Failure, status_of};
use sms_keep::written;
use std::alloc::Global;
use std::mem;

/// Hands out what the joiner holds, as octets. Its checksum is made only where there is room.
fn put_state(
    alloc: Global,
    inside: &Inside,
    taken: u64,
    out: &mut [u8],
    needed: &mut usize,
) -> Result<(), Failure>
    ensures put { IfOk result (λ _. ArePut out.old out.new needed.new
        (octets_of_state inside.now.gateway taken)) }
    ensures no_room { result ≡ Err NoRoom → LackRoom out.old out.new needed.new
        (octets_of_state inside.now.gateway taken) }
    ensures fits { IfOk result (λ _. CanBeSaved inside.now.gateway taken) }
    ensures none { OnErr result (out.new ≡ out.old) }
    ensures needed { IfErr result (λ why. IsNotRoom why → needed.new ≡ needed.old) }
    ensures answered { IsAnswered (status_in result) }
{
    let state = written(alloc, &inside.gateway, taken)?;
    let count = state.count_with_sum();
    if count > out.len() {
        *needed = count;
        return Err(Failure::NoRoom);
    }
    let octets = state.end()?;
    hand_out(&octets, out, needed)
}

/// Hands out all that the joiner holds, and how much of its input the caller has taken, as octets.
#[unsafe(no_mangle)]
pub extern "C" fn sms_gateway_save(
    alloc: Global,
    gateway: &mut GatewayHandle,
    taken: u64,
    out: &mut [u8],
    needed: &mut usize,
) -> u32
    ensures closed { gateway.old.kept.held ≡ None → result ≡ 10 }
    ensures same { gateway.new.kept.held ≡ gateway.old.kept.held }
    ensures answered { IsSome gateway.old.kept.held → IsAnswered result }
    ensures put { result ≡ 0 → IfSome gateway.old.kept.held (λ inside.
        ArePut out.old out.new needed.new (octets_of_state inside.gateway taken)) }
    ensures no_room { result ≡ 3 → IfSome gateway.old.kept.held (λ inside.
        LackRoom out.old out.new needed.new (octets_of_state inside.gateway taken)) }
    // So it is read back, by `again` of `sms_gateway_read`.
    ensures fits { result ≡ 0 → IfSome gateway.old.kept.held (λ inside.
        CanBeSaved inside.gateway taken) }
    ensures none { (result ≡ 0 → ⊥) → out.new ≡ out.old }
    ensures needed { (result ≡ 0 → ⊥) → (result ≡ 3 → ⊥) → needed.new ≡ 0 }
{
    *needed = 0;
    let Some(inside) = mem::replace(gateway, GatewayHandle::closed(alloc)).into_box() else {
        return Failure::Closed.status();
    };
    let answer = put_state(alloc, &inside, taken, out, needed);
    *gateway = GatewayHandle::of(inside);
    status_of(answer)
}
