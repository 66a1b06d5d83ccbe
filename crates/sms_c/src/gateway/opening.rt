//! A joiner for many recipients of C opened.

ghost use Rattle.std.specs.Prelude.{[], ◌≡◌, ◌≢◌, ◌⊎◌, ◌↔◌, false, true, None, IfSome, IfOk, IfErr};
ghost use Rattle.std.specs.String.{string_bytes};
ghost use Rattle.sms_c.specs.GatewayKept.{count};
ghost use Rattle.sms_c.specs.GatewayLimits.{fits_limits, limits_of as limits_told, new_gateway};
ghost use Rattle.sms_c.specs.declared.status.Failure.TheVariants.{Memory};
ghost use Rattle.sms_join.specs.Joiner.{new_joiner};

use crate::gateway::GatewayHandle;
use crate::gateway::inside::Inside;
use crate::gateway::limits::{Limits, fits, limits_of, seed_of};
use crate::status::{Failure, OK};
use sms_join::Gateway;
use std::alloc::{AllocError, Global};
use std::mem;

/// A joiner that holds nothing. With a seed its tables hash by that.
fn empty(alloc: Global, limits: &Limits) -> Result<Gateway, AllocError>
    requires { fits_limits limits.now ≡ true }
    ensures { IfOk result (λ gateway. gateway ≡ new_gateway limits.now) }
{
    match seed_of(limits) {
        None => Gateway::new(alloc, limits_of(limits)),
        Some(seed) => Gateway::with_seed(alloc, limits_of(limits), seed),
    }
}

/// A box with a joiner that holds nothing.
fn opened(alloc: Global, limits: &Limits) -> Result<Box<Inside, Global>, Failure>
    requires { fits_limits limits.now ≡ true }
    ensures holds { IfOk result (λ inside. inside.value.gateway ≡ new_gateway limits.now) }
    ensures text { IfOk result (λ inside. string_bytes inside.value.text ≡ []) }
    ensures changes { IfOk result (λ inside. inside.value.changes ≡ 1) }
    ensures memory { IfErr result (λ why. why ≡ Memory) }
{
    let gateway = empty(alloc, limits)?;
    let inside = Inside {
        gateway,
        text: String::new(alloc),
        changes: 1,
    };
    Ok(Box::new(alloc, inside)?)
}

/// Opens a joiner for many recipients, which is closed first, unless there cannot be such limits:
/// then it is as it was.
#[unsafe(no_mangle)]
pub extern "C" fn sms_gateway_open(
    alloc: Global,
    gateway: &mut GatewayHandle,
    limits: &Limits,
) -> u32
    ensures range { (result ≡ 7) ↔ (fits_limits limits.now ≡ false) }
    ensures same { result ≡ 7 → gateway.new ≡ gateway.old }
    ensures closed { result ≢ 0 → result ≢ 7 → gateway.new.kept.held ≡ None }
    ensures answered { result ≢ 7 → (result ≡ 0) ⊎ (result ≡ 2) }
    ensures held { result ≡ 0 → count gateway.new.kept.held ≡ 1 }
    ensures text { result ≡ 0 → IfSome gateway.new.kept.held (λ inside.
        string_bytes inside.text ≡ []) }
    ensures holds { result ≡ 0 → IfSome gateway.new.kept.held (λ inside.
        inside.gateway ≡ new_gateway limits.now) }
    ensures changes { result ≡ 0 → IfSome gateway.new.kept.held (λ inside.
        inside.changes ≡ 1) }
{
    if !fits(limits) {
        return Failure::OutOfRange.status();
    }
    let old = mem::replace(gateway, GatewayHandle::closed(alloc)).into_box();
    drop(old);
    match opened(alloc, limits) {
        Ok(inside) => {
            *gateway = GatewayHandle::of(inside);
            OK
        }
        Err(failure) => failure.status(),
    }
}
