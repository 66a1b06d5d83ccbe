//! A pointer that C keeps to what a joiner for many recipients holds.

ghost use Rattle.std.specs.Prelude.{◌≡◌, Option, Some, None, IsSome};
ghost use Rattle.sms_c.specs.declared.gateway.inside.Inside.{Inside as TheInside};
ghost use Rattle.sms_c.specs.GatewayKept.{held_code};

use crate::gateway::inside::Inside;
use crate::joiner::parts::Parts;
use std::alloc::Global;
use std::marker::{Model, Send};

/// What C keeps: nothing, or what a joiner for many recipients holds.
#[repr(C)]
#[derive(Drop)]
pub struct GatewayKept {
    at: *mut u8,
    alloc: Global,
    pub ghost held: { Option TheInside } by { held_code },
}

impl Model for GatewayKept {
    ghost use Rattle.sms_c.specs.GatewayKept.{kept};

    ghost also_owns = { λ k. kept k.alloc k.at k.held };
}

impl GatewayKept {
    /// Nothing is kept.
    pub fn nothing(alloc: Global) -> GatewayKept
        ensures { result.held ≡ None }
    {
        GatewayKept {
            at: std::ptr::null_mut(),
            alloc,
        }
    }

    /// What a box holds is kept.
    pub fn of_parts(parts: Parts<Inside, Global>) -> GatewayKept
        ensures { result.held ≡ Some parts.value }
    {
        let Parts { ptr, alloc } = parts;
        GatewayKept {
            at: ptr as *mut u8,
            alloc,
        }
    }

    /// What is kept, where something is.
    pub fn into_parts(self) -> Parts<Inside, Global>
        requires { IsSome self.held }
        ensures { self.held ≡ Some result.value }
    {
        let GatewayKept { at, alloc } = self;
        Parts {
            ptr: at as *mut Inside,
            alloc,
        }
    }
}

// C may hand it to another thread, as it may the joiner that it holds.
unsafe impl Send for GatewayKept {}
