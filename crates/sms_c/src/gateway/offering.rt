//! An SMS-DELIVER for a recipient offered to a joiner of C.

ghost use Rattle.std.specs.Prelude.{◌≡◌, ◌≢◌, ◌<◌, ◌⊎◌, ◌↔◌, None, IsSome, IfSome, IfErr, OnErr};
ghost use Rattle.std.specs.Str.{IsUtf8};
ghost use Rattle.sms_c.specs.Changes.{next_number};
ghost use Rattle.sms_c.specs.GatewayKept.{count};
ghost use Rattle.sms_c.specs.GatewayOffers.{OffersTo, OpensTooManyTo};
ghost use Rattle.sms_c.specs.Offers.{HasNoText, HasText, IsUnread, OnOkIs, RefusesUnit};
ghost use Rattle.sms_c.specs.Status as numbers;
ghost use Rattle.sms_c.specs.WritingFaults.{SaysNoAddress};

use crate::gateway::GatewayHandle;
use crate::gateway::ends::recipient_in;
use crate::gateway::inside::Inside;
use crate::gateway::taking::take;
use crate::joiner::reading::{told, units_of};
use crate::status::{Failure, OK, Refused};
use std::alloc::Global;
use std::mem;

/// Offers an SMS-DELIVER for a recipient, and says what becomes of it.
fn offered(
    alloc: Global,
    inside: &mut Inside,
    seconds: u64,
    recipient: &[u8],
    octets: &[u8],
    refused: &mut Refused,
) -> Result<u32, Failure>
    ensures same { OnErr result (inside.new ≡ inside.old) }
    ensures refused { RefusesUnit (numbers.status_in result) octets.now refused.new }
    ensures unread { (numbers.status_in result ≡ 1) ↔ IsUnread octets.now }
    ensures no_text { (numbers.status_in result ≡ 8) ↔ HasNoText octets.now }
    ensures untold { (numbers.status_in result ≡ 1 → ⊥) → refused.new ≡ refused.old }
    ensures not_utf8 { (numbers.status_in result ≡ 4)
        ↔ HasText octets.now × (IsUtf8 recipient.now → ⊥) }
    ensures bad_address { numbers.status_in result ≡ 5
        → HasText octets.now × IsUtf8 recipient.now × SaysNoAddress recipient.now }
    ensures address { HasText octets.now → IsUtf8 recipient.now → SaysNoAddress recipient.now
        → (numbers.status_in result ≡ 5) ⊎ (numbers.status_in result ≡ 2) }
    ensures too_many { numbers.status_in result ≡ 9
        → OpensTooManyTo inside.old seconds recipient.now octets.now }
    ensures turned { OpensTooManyTo inside.old seconds recipient.now octets.now
        → (numbers.status_in result ≡ 9) ⊎ (numbers.status_in result ≡ 2) }
    ensures memory { numbers.status_in result ≡ 2 → HasText octets.now × IsUtf8 recipient.now }
    ensures answered { IfErr result (λ why. (numbers.status_of why < 10)
        × (numbers.status_of why ≢ 0) × (numbers.status_of why ≢ 3)
        × (numbers.status_of why ≢ 6) × (numbers.status_of why ≢ 7)) }
    ensures offers { OnOkIs result
        (OffersTo inside.old inside.new seconds recipient.now octets.now) }
    ensures changes { inside.new.changes ≡ inside.old.changes }
{
    let view = told(octets, refused)?;
    let recipient = recipient_in(alloc, recipient)?;
    let units = units_of(alloc, &view)?;
    let origin = view.origin.to_value(alloc)?;
    let place = view.user.concat();
    let to = recipient.as_ref();
    take(inside, seconds, to, &origin, view.stamp, place, units)
}

/// Offers a joiner an SMS-DELIVER for a recipient that came at a moment.
#[unsafe(no_mangle)]
pub extern "C" fn sms_gateway_offer(
    alloc: Global,
    gateway: &mut GatewayHandle,
    seconds: u64,
    recipient: &[u8],
    octets: &[u8],
    outcome: &mut u32,
    refused: &mut Refused,
) -> u32
    ensures closed { gateway.old.kept.held ≡ None → result ≡ 10 }
    ensures held { count gateway.new.kept.held ≡ count gateway.old.kept.held }
    ensures same { (result ≡ 0 → ⊥) → gateway.new.kept.held ≡ gateway.old.kept.held }
    ensures outcome { (result ≡ 0 → ⊥) → outcome.new ≡ outcome.old }
    ensures refused { RefusesUnit result octets.now refused.new }
    ensures unread { IsSome gateway.old.kept.held → (result ≡ 1) ↔ IsUnread octets.now }
    ensures no_text { IsSome gateway.old.kept.held → (result ≡ 8) ↔ HasNoText octets.now }
    ensures untold { (result ≡ 1 → ⊥) → refused.new ≡ refused.old }
    ensures not_utf8 { IsSome gateway.old.kept.held → (result ≡ 4)
        ↔ HasText octets.now × (IsUtf8 recipient.now → ⊥) }
    ensures bad_address { result ≡ 5
        → HasText octets.now × IsUtf8 recipient.now × SaysNoAddress recipient.now }
    ensures address { IsSome gateway.old.kept.held → HasText octets.now → IsUtf8 recipient.now
        → SaysNoAddress recipient.now → (result ≡ 5) ⊎ (result ≡ 2) }
    ensures too_many { result ≡ 9 → IfSome gateway.old.kept.held (λ before.
        OpensTooManyTo before seconds recipient.now octets.now) }
    ensures turned { IfSome gateway.old.kept.held (λ before.
        OpensTooManyTo before seconds recipient.now octets.now
        → (result ≡ 9) ⊎ (result ≡ 2)) }
    ensures memory { result ≡ 2 → HasText octets.now × IsUtf8 recipient.now }
    ensures answered { IsSome gateway.old.kept.held → (result < 10)
        × (result ≢ 3) × (result ≢ 6) × (result ≢ 7) }
    ensures offers { result ≡ 0 → IfSome gateway.old.kept.held (λ before.
        IfSome gateway.new.kept.held (λ after.
        OffersTo before after seconds recipient.now octets.now outcome.new)) }
    ensures changes { result ≡ 0 → IfSome gateway.old.kept.held (λ before.
        IfSome gateway.new.kept.held (λ after.
        after.changes ≡ next_number before.changes)) }
{
    let Some(mut inside) = mem::replace(gateway, GatewayHandle::closed(alloc)).into_box() else {
        return Failure::Closed.status();
    };
    match offered(alloc, &mut inside, seconds, recipient, octets, refused) {
        Ok(what) => {
            inside.count_change();
            *gateway = GatewayHandle::of(inside);
            *outcome = what;
            OK
        }
        Err(failure) => {
            *gateway = GatewayHandle::of(inside);
            failure.status()
        }
    }
}
