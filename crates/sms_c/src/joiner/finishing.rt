//! Whether an SMS-DELIVER would finish its message in a joiner of C.

ghost use Rattle.std.specs.Prelude.{◌≡◌, ◌<◌, ◌⊎◌, ◌↔◌, Some, None, Err, IsSome, IfSome, IfErr};
ghost use Rattle.sms_c.specs.Offers.{HasNoText, IsUnread, LacksText, OnOkIs, RefusesUnit, WouldFinish};
ghost use Rattle.sms_c.specs.Status as numbers;

use crate::joiner::Handle;
use crate::joiner::inside::Inside;
use crate::joiner::reading::told;
use crate::parts::bit;
use crate::status::{Failure, OK, Refused, status_of};
use std::alloc::Global;
use std::mem;

/// Whether an SMS-DELIVER with a text would finish its message: 1, or 0.
fn finishes(
    alloc: Global,
    inside: &Inside,
    octets: &[u8],
    refused: &mut Refused,
) -> Result<u8, Failure>
    ensures refused { RefusesUnit (numbers.status_in result) octets.now refused.new }
    ensures no_text { (numbers.status_in result ≡ 8) ↔ HasNoText octets.now }
    ensures unread { (numbers.status_in result ≡ 1) ↔ IsUnread octets.now }
    ensures untold { (numbers.status_in result ≡ 1 → ⊥) → refused.new ≡ refused.old }
    ensures answered { IfErr result (λ why. (numbers.status_of why ≡ 1)
        ⊎ (numbers.status_of why ≡ 8)) }
    ensures finishes { OnOkIs result (WouldFinish inside.now octets.now) }
{
    let view = told(octets, refused)?;
    let origin = view.origin.to_value(alloc)?;
    let place = view.user.concat();
    Ok(bit(inside.joiner.would_finish(&origin, view.stamp, place)))
}

/// Tells whether an SMS-DELIVER would finish its message.
#[unsafe(no_mangle)]
pub extern "C" fn sms_joiner_would_finish(
    alloc: Global,
    handle: &mut Handle,
    octets: &[u8],
    answer: &mut u8,
    refused: &mut Refused,
) -> u32
    ensures closed { handle.old.kept.held ≡ None → result ≡ 10 }
    ensures same { handle.new.kept.held ≡ handle.old.kept.held }
    ensures none { (result ≡ 0 → ⊥) → answer.new ≡ answer.old }
    ensures refused { RefusesUnit result octets.now refused.new }
    ensures no_text { LacksText result octets.now }
    ensures not_there { IsSome handle.old.kept.held → HasNoText octets.now → result ≡ 8 }
    ensures unread { IsSome handle.old.kept.held → (result ≡ 1) ↔ IsUnread octets.now }
    ensures untold { (result ≡ 1 → ⊥) → refused.new ≡ refused.old }
    ensures answered { IsSome handle.old.kept.held
        → (result ≡ 0) ⊎ (result ≡ 1) ⊎ (result ≡ 8) }
    ensures finishes { result ≡ 0 → IfSome handle.old.kept.held (λ inside.
        WouldFinish inside octets.now answer.new) }
{
    let Some(inside) = mem::replace(handle, Handle::closed(alloc)).into_box() else {
        return Failure::Closed.status();
    };
    let found = finishes(alloc, &inside, octets, refused);
    *handle = Handle::of(inside);
    match found {
        Ok(finishes) => {
            *answer = finishes;
            OK
        }
        Err(failure) => failure.status(),
    }
}
