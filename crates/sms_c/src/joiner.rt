//! A joiner that C keeps.

ghost use Rattle.std.specs.Prelude.{◌≡◌, ◌≤◌, ◌<◌, length, Some, None, MatchOption, IfSome};
ghost use Rattle.std.specs.String.{string_bytes};
ghost use Rattle.sms_join.specs.Joiner.Aging.{aged};
ghost use Rattle.sms_join.specs.Joiner.Value.{SameLimits};
ghost use Rattle.sms_join.specs.Joiner.Same.{IsSame};
ghost use Rattle.sms_c.specs.Changes.{next_number};
ghost use Rattle.sms_c.specs.HandedOut.{ArePut, LackRoom};
ghost use Rattle.sms_c.specs.Kept.{count};

mod data_finishing;
pub mod data_offering;
mod data_units;
pub mod data_view;
mod finishing;
pub mod inside;
pub mod kept;
mod offering;
mod opening;
mod origin;
pub mod parts;
pub mod reading;
mod taking;
pub mod telling;

use crate::handed_out::hand_out;
use crate::joiner::inside::Inside;
use crate::joiner::kept::Kept;
use crate::joiner::parts::Parts;
use crate::status::{Failure, OK, status_of};
use std::alloc::Global;
use std::mem;

/// A joiner in C's memory: closed, or with what it holds.
#[repr(C)]
#[derive(Drop)]
pub struct Handle {
    open: u32,
    kept: Kept,
    ghost fits: { «open» ≡ count kept.held },
}

impl Handle {
    pub fn closed(alloc: Global) -> Handle
        ensures { result.kept.held ≡ None }
    {
        Handle {
            open: 0,
            kept: Kept::nothing(alloc),
        }
    }

    pub fn of(inside: Box<Inside, Global>) -> Handle
        ensures { result.kept.held ≡ Some inside.value }
    {
        Handle {
            open: 1,
            kept: Kept::of_parts(Parts::of(inside)),
        }
    }

    pub fn into_box(self) -> Option<Box<Inside, Global>>
        ensures { MatchOption result (self.kept.held ≡ None)
            (λ inside. self.kept.held ≡ Some inside.value) }
    {
        let Handle { open, kept } = self;
        if open == 0 {
            return None;
        }
        Some(kept.into_parts().into_box())
    }
}

/// Frees what a joiner holds.
#[unsafe(no_mangle)]
pub extern "C" fn sms_joiner_close(alloc: Global, handle: &mut Handle)
    ensures { handle.new.kept.held ≡ None }
{
    let held = mem::replace(handle, Handle::closed(alloc)).into_box();
    drop(held);
}

/// Hands out the text that finished last.
#[unsafe(no_mangle)]
pub extern "C" fn sms_joiner_text(
    alloc: Global,
    handle: &mut Handle,
    out: &mut [u8],
    needed: &mut usize,
) -> u32
    ensures closed { handle.old.kept.held ≡ None → (result ≡ 10) × (needed.new ≡ 0) }
    ensures same { handle.new.kept.held ≡ handle.old.kept.held }
    ensures none { (result ≡ 0 → ⊥) → out.new ≡ out.old }
    ensures put { IfSome handle.old.kept.held (λ inside.
        length (string_bytes inside.text) ≤ length out.old
        → (result ≡ 0) × ArePut out.old out.new needed.new (string_bytes inside.text)) }
    ensures no_room { IfSome handle.old.kept.held (λ inside.
        length out.old < length (string_bytes inside.text)
        → (result ≡ 3) × LackRoom out.old out.new needed.new (string_bytes inside.text)) }
{
    *needed = 0;
    let Some(inside) = mem::replace(handle, Handle::closed(alloc)).into_box() else {
        return Failure::Closed.status();
    };
    let answer = hand_out(inside.text.as_bytes(), out, needed);
    *handle = Handle::of(inside);
    status_of(answer)
}

/// Drops the messages that have waited for a week.
#[unsafe(no_mangle)]
pub extern "C" fn sms_joiner_age(alloc: Global, handle: &mut Handle, seconds: u64) -> u32
    ensures closed { handle.old.kept.held ≡ None → result ≡ 10 }
    ensures held { count handle.new.kept.held ≡ count handle.old.kept.held }
    ensures aged { IfSome handle.old.kept.held (λ before. (result ≡ 0)
        × IfSome handle.new.kept.held (λ after.
        IsSame after.joiner.holds (aged seconds before.joiner.holds)
        × SameLimits after.joiner before.joiner)) }
    ensures text { IfSome handle.old.kept.held (λ before.
        IfSome handle.new.kept.held (λ after.
        string_bytes after.text ≡ string_bytes before.text)) }
    ensures changes { IfSome handle.old.kept.held (λ before.
        IfSome handle.new.kept.held (λ after.
        after.changes ≡ next_number before.changes)) }
{
    let Some(mut inside) = mem::replace(handle, Handle::closed(alloc)).into_box() else {
        return Failure::Closed.status();
    };
    inside.joiner.age(seconds);
    inside.count_change();
    *handle = Handle::of(inside);
    OK
}
