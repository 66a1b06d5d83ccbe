//! An SMS-DELIVER offered to a joiner of C.

ghost use Rattle.std.specs.Prelude.{◌≡◌, ◌<◌, ◌⊎◌, ◌↔◌, Some, None, Err, IsSome, IfSome, IfErr, OnErr};
ghost use Rattle.sms_c.specs.Offers.{HasNoText, HasText, IsUnread, LacksText, OpensTooMany, Offers, OnOkIs, RefusesUnit};
ghost use Rattle.sms_c.specs.Changes.{next_number};
ghost use Rattle.sms_c.specs.Kept.{count};
ghost use Rattle.sms_c.specs.Status as numbers;

use crate::joiner::Handle;
use crate::joiner::inside::Inside;
use crate::joiner::reading::{told, units_of};
use crate::joiner::taking::take;
use crate::status::{Failure, OK, Refused};
use std::alloc::Global;
use std::mem;

/// Offers an SMS-DELIVER, and says what becomes of it.
fn offered(
    alloc: Global,
    inside: &mut Inside,
    seconds: u64,
    octets: &[u8],
    refused: &mut Refused,
) -> Result<u32, Failure>
    ensures same { OnErr result (inside.new ≡ inside.old) }
    ensures refused { RefusesUnit (numbers.status_in result) octets.now refused.new }
    ensures no_text { (numbers.status_in result ≡ 8) ↔ HasNoText octets.now }
    ensures unread { (numbers.status_in result ≡ 1) ↔ IsUnread octets.now }
    ensures untold { (numbers.status_in result ≡ 1 → ⊥) → refused.new ≡ refused.old }
    ensures too_many { numbers.status_in result ≡ 9
        → OpensTooMany inside.old seconds octets.now }
    ensures turned { OpensTooMany inside.old seconds octets.now
        → (numbers.status_in result ≡ 9) ⊎ (numbers.status_in result ≡ 2) }
    ensures memory { numbers.status_in result ≡ 2 → HasText octets.now }
    ensures answered { IfErr result (λ why. numbers.status_of why < 10
        × (numbers.status_of why < 3 ⊎ 7 < numbers.status_of why)) }
    ensures offers { OnOkIs result (Offers inside.old inside.new seconds octets.now) }
    ensures changes { inside.new.changes ≡ inside.old.changes }
{
    let view = told(octets, refused)?;
    let units = units_of(alloc, &view)?;
    let origin = view.origin.to_value(alloc)?;
    let place = view.user.concat();
    take(inside, seconds, &origin, view.stamp, place, units)
}

/// Offers a joiner an SMS-DELIVER that came at a moment.
#[unsafe(no_mangle)]
pub extern "C" fn sms_joiner_offer(
    alloc: Global,
    handle: &mut Handle,
    seconds: u64,
    octets: &[u8],
    outcome: &mut u32,
    refused: &mut Refused,
) -> u32
    ensures closed { handle.old.kept.held ≡ None → result ≡ 10 }
    ensures held { count handle.new.kept.held ≡ count handle.old.kept.held }
    ensures same { (result ≡ 0 → ⊥) → handle.new.kept.held ≡ handle.old.kept.held }
    ensures outcome { (result ≡ 0 → ⊥) → outcome.new ≡ outcome.old }
    ensures refused { RefusesUnit result octets.now refused.new }
    ensures no_text { LacksText result octets.now }
    ensures not_there { IsSome handle.old.kept.held → HasNoText octets.now → result ≡ 8 }
    ensures unread { IsSome handle.old.kept.held → (result ≡ 1) ↔ IsUnread octets.now }
    ensures untold { (result ≡ 1 → ⊥) → refused.new ≡ refused.old }
    ensures too_many { result ≡ 9 → IfSome handle.old.kept.held (λ before.
        OpensTooMany before seconds octets.now) }
    ensures turned { IfSome handle.old.kept.held (λ before.
        OpensTooMany before seconds octets.now → (result ≡ 9) ⊎ (result ≡ 2)) }
    ensures memory { result ≡ 2 → HasText octets.now }
    ensures answered { IsSome handle.old.kept.held
        → (result < 10) × ((result < 3) ⊎ (7 < result)) }
    ensures offers { result ≡ 0 → IfSome handle.old.kept.held (λ before.
        IfSome handle.new.kept.held (λ after.
        Offers before after seconds octets.now outcome.new)) }
    ensures changes { result ≡ 0 → IfSome handle.old.kept.held (λ before.
        IfSome handle.new.kept.held (λ after.
        after.changes ≡ next_number before.changes)) }
{
    let Some(mut inside) = mem::replace(handle, Handle::closed(alloc)).into_box() else {
        return Failure::Closed.status();
    };
    match offered(alloc, &mut inside, seconds, octets, refused) {
        Ok(what) => {
            inside.count_change();
            *handle = Handle::of(inside);
            *outcome = what;
            OK
        }
        Err(failure) => {
            *handle = Handle::of(inside);
            failure.status()
        }
    }
}
