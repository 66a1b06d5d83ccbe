//! A joiner for many recipients that C keeps.

ghost use Rattle.std.specs.Prelude.{◌≡◌, ◌≤◌, ◌<◌, length, Some, None, MatchOption, IfSome};
ghost use Rattle.std.specs.String.{string_bytes};
ghost use Rattle.sms_c.specs.Changes.{next_number};
ghost use Rattle.sms_c.specs.GatewayKept.{count};
ghost use Rattle.sms_c.specs.GatewayOffers.{IsAged};
ghost use Rattle.sms_c.specs.HandedOut.{ArePut, LackRoom};

pub mod data_finishing;
pub mod data_offering;
pub mod ends;
mod finishing;
pub mod inside;
pub mod kept;
pub mod limits;
mod offering;
mod opening;
mod origin;
mod recipient;
mod restoring;
mod saving;
mod taking;
pub mod telling;

use crate::gateway::inside::Inside;
use crate::gateway::kept::GatewayKept;
use crate::handed_out::hand_out;
use crate::joiner::parts::Parts;
use crate::status::{Failure, OK, status_of};
use std::alloc::Global;
use std::mem;

/// A joiner for many recipients in C's memory: closed, or with what it holds.
#[repr(C)]
#[derive(Drop)]
pub struct GatewayHandle {
    open: u32,
    kept: GatewayKept,
    ghost fits: { «open» ≡ count kept.held },
}

impl GatewayHandle {
    pub fn closed(alloc: Global) -> GatewayHandle
        ensures { result.kept.held ≡ None }
    {
        GatewayHandle {
            open: 0,
            kept: GatewayKept::nothing(alloc),
        }
    }

    pub fn of(inside: Box<Inside, Global>) -> GatewayHandle
        ensures { result.kept.held ≡ Some inside.value }
    {
        GatewayHandle {
            open: 1,
            kept: GatewayKept::of_parts(Parts::of(inside)),
        }
    }

    pub fn into_box(self) -> Option<Box<Inside, Global>>
        ensures { MatchOption result (self.kept.held ≡ None)
            (λ inside. self.kept.held ≡ Some inside.value) }
    {
        let GatewayHandle { open, kept } = self;
        if open == 0 {
            return None;
        }
        Some(kept.into_parts().into_box())
    }
}

/// Frees what a joiner holds.
#[unsafe(no_mangle)]
pub extern "C" fn sms_gateway_close(alloc: Global, gateway: &mut GatewayHandle)
    ensures { gateway.new.kept.held ≡ None }
{
    let held = mem::replace(gateway, GatewayHandle::closed(alloc)).into_box();
    drop(held);
}

/// Hands out the text that finished last.
#[unsafe(no_mangle)]
pub extern "C" fn sms_gateway_text(
    alloc: Global,
    gateway: &mut GatewayHandle,
    out: &mut [u8],
    needed: &mut usize,
) -> u32
    ensures closed { gateway.old.kept.held ≡ None → (result ≡ 10) × (needed.new ≡ 0) }
    ensures same { gateway.new.kept.held ≡ gateway.old.kept.held }
    ensures none { (result ≡ 0 → ⊥) → out.new ≡ out.old }
    ensures put { IfSome gateway.old.kept.held (λ inside.
        length (string_bytes inside.text) ≤ length out.old
        → (result ≡ 0) × ArePut out.old out.new needed.new (string_bytes inside.text)) }
    ensures no_room { IfSome gateway.old.kept.held (λ inside.
        length out.old < length (string_bytes inside.text)
        → (result ≡ 3) × LackRoom out.old out.new needed.new (string_bytes inside.text)) }
{
    *needed = 0;
    let Some(inside) = mem::replace(gateway, GatewayHandle::closed(alloc)).into_box() else {
        return Failure::Closed.status();
    };
    let answer = hand_out(inside.text.as_bytes(), out, needed);
    *gateway = GatewayHandle::of(inside);
    status_of(answer)
}

/// Drops the messages that have waited, and forgets the finished ones that have been remembered,
/// for as long as the limits say.
#[unsafe(no_mangle)]
pub extern "C" fn sms_gateway_age(alloc: Global, gateway: &mut GatewayHandle, seconds: u64) -> u32
    ensures closed { gateway.old.kept.held ≡ None → result ≡ 10 }
    ensures held { count gateway.new.kept.held ≡ count gateway.old.kept.held }
    ensures aged { IfSome gateway.old.kept.held (λ before. (result ≡ 0)
        × IfSome gateway.new.kept.held (λ after.
        IsAged seconds before.gateway after.gateway)) }
    ensures text { IfSome gateway.old.kept.held (λ before.
        IfSome gateway.new.kept.held (λ after.
        string_bytes after.text ≡ string_bytes before.text)) }
    ensures changes { IfSome gateway.old.kept.held (λ before.
        IfSome gateway.new.kept.held (λ after.
        after.changes ≡ next_number before.changes)) }
{
    let Some(mut inside) = mem::replace(gateway, GatewayHandle::closed(alloc)).into_box() else {
        return Failure::Closed.status();
    };
    inside.gateway.age(seconds);
    inside.count_change();
    *gateway = GatewayHandle::of(inside);
    OK
}
