//! A pointer that C keeps to what a joiner holds.

ghost use Rattle.std.specs.Prelude.{◌≡◌, Option, Some, None, IsSome};
ghost use Rattle.sms_c.specs.declared.joiner.inside.Inside.{Inside as TheInside};
ghost use Rattle.sms_c.specs.Kept.{held_code};

use crate::joiner::inside::Inside;
use crate::joiner::parts::Parts;
use std::alloc::Global;
use std::marker::{Model, Send};

/// What C keeps: nothing, or what a joiner holds.
#[repr(C)]
#[derive(Drop)]
pub struct Kept {
    at: *mut u8,
    alloc: Global,
    pub ghost held: { Option TheInside } by { held_code },
}

impl Model for Kept {
    ghost use Rattle.sms_c.specs.Kept.{kept};

    ghost also_owns = { λ k. kept k.alloc k.at k.held };
}

impl Kept {
    /// Nothing is kept.
    pub fn nothing(alloc: Global) -> Kept
        ensures { result.held ≡ None }
    {
        Kept {
            at: std::ptr::null_mut(),
            alloc,
        }
    }

    /// What a box holds is kept.
    pub fn of_parts(parts: Parts<Inside, Global>) -> Kept
        ensures { result.held ≡ Some parts.value }
    {
        let Parts { ptr, alloc } = parts;
        Kept {
            at: ptr as *mut u8,
            alloc,
        }
    }

    /// What is kept, where something is.
    pub fn into_parts(self) -> Parts<Inside, Global>
        requires { IsSome self.held }
        ensures { self.held ≡ Some result.value }
    {
        let Kept { at, alloc } = self;
        Parts {
            ptr: at as *mut Inside,
            alloc,
        }
    }
}

// C may hand it to another thread, as it may the joiner that it holds.
unsafe impl Send for Kept {}
