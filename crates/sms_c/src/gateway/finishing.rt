//! Whether an SMS-DELIVER for a recipient would finish its message in a joiner of C.

ghost use Rattle.std.specs.Prelude.{◌≡◌, ◌≢◌, ◌<◌, ◌⊎◌, ◌↔◌, None, IsSome, IfSome, IfErr};
ghost use Rattle.std.specs.Str.{IsUtf8};
ghost use Rattle.sms_c.specs.GatewayOffers.{WouldFinishTo};
ghost use Rattle.sms_c.specs.Offers.{HasNoText, HasText, IsUnread, OnOkIs, RefusesUnit};
ghost use Rattle.sms_c.specs.Status as numbers;
ghost use Rattle.sms_c.specs.WritingFaults.{SaysNoAddress};

use crate::gateway::GatewayHandle;
use crate::gateway::ends::recipient_in;
use crate::gateway::inside::Inside;
use crate::joiner::reading::told;
use crate::parts::bit;
use crate::status::{Failure, OK, Refused};
use std::alloc::Global;
use std::mem;

/// Whether an SMS-DELIVER with a text would finish its message: 1, or 0.
fn finishes(
    alloc: Global,
    inside: &Inside,
    recipient: &[u8],
    octets: &[u8],
    refused: &mut Refused,
) -> Result<u8, Failure>
    ensures refused { RefusesUnit (numbers.status_in result) octets.now refused.new }
    ensures unread { (numbers.status_in result ≡ 1) ↔ IsUnread octets.now }
    ensures no_text { (numbers.status_in result ≡ 8) ↔ HasNoText octets.now }
    ensures untold { (numbers.status_in result ≡ 1 → ⊥) → refused.new ≡ refused.old }
    ensures not_utf8 { (numbers.status_in result ≡ 4)
        ↔ HasText octets.now × (IsUtf8 recipient.now → ⊥) }
    ensures bad_address { numbers.status_in result ≡ 5
        → HasText octets.now × IsUtf8 recipient.now × SaysNoAddress recipient.now }
    ensures address { HasText octets.now → IsUtf8 recipient.now → SaysNoAddress recipient.now
        → (numbers.status_in result ≡ 5) ⊎ (numbers.status_in result ≡ 2) }
    ensures memory { numbers.status_in result ≡ 2 → HasText octets.now × IsUtf8 recipient.now }
    ensures answered { IfErr result (λ why. (numbers.status_of why < 9)
        × (numbers.status_of why ≢ 0) × (numbers.status_of why ≢ 3)
        × (numbers.status_of why ≢ 6) × (numbers.status_of why ≢ 7)) }
    ensures finishes { OnOkIs result (WouldFinishTo inside.now recipient.now octets.now) }
{
    let view = told(octets, refused)?;
    let recipient = recipient_in(alloc, recipient)?;
    let origin = view.origin.to_value(alloc)?;
    let place = view.user.concat();
    let to = recipient.as_ref();
    Ok(bit(inside.gateway.would_finish(to, &origin, view.stamp, place)))
}

/// Tells whether an SMS-DELIVER for a recipient would finish its message.
#[unsafe(no_mangle)]
pub extern "C" fn sms_gateway_would_finish(
    alloc: Global,
    gateway: &mut GatewayHandle,
    recipient: &[u8],
    octets: &[u8],
    answer: &mut u8,
    refused: &mut Refused,
) -> u32
    ensures closed { gateway.old.kept.held ≡ None → result ≡ 10 }
    ensures same { gateway.new.kept.held ≡ gateway.old.kept.held }
    ensures none { (result ≡ 0 → ⊥) → answer.new ≡ answer.old }
    ensures refused { RefusesUnit result octets.now refused.new }
    ensures unread { IsSome gateway.old.kept.held → (result ≡ 1) ↔ IsUnread octets.now }
    ensures no_text { IsSome gateway.old.kept.held → (result ≡ 8) ↔ HasNoText octets.now }
    ensures untold { (result ≡ 1 → ⊥) → refused.new ≡ refused.old }
    ensures not_utf8 { IsSome gateway.old.kept.held → (result ≡ 4)
        ↔ HasText octets.now × (IsUtf8 recipient.now → ⊥) }
    ensures bad_address { result ≡ 5
        → HasText octets.now × IsUtf8 recipient.now × SaysNoAddress recipient.now }
    ensures address { IsSome gateway.old.kept.held → HasText octets.now → IsUtf8 recipient.now
        → SaysNoAddress recipient.now → (result ≡ 5) ⊎ (result ≡ 2) }
    ensures memory { result ≡ 2 → HasText octets.now × IsUtf8 recipient.now }
    ensures answered { IsSome gateway.old.kept.held → (result < 9)
        × (result ≢ 3) × (result ≢ 6) × (result ≢ 7) }
    ensures finishes { result ≡ 0 → IfSome gateway.old.kept.held (λ inside.
        WouldFinishTo inside recipient.now octets.now answer.new) }
{
    let Some(inside) = mem::replace(gateway, GatewayHandle::closed(alloc)).into_box() else {
        return Failure::Closed.status();
    };
    let found = finishes(alloc, &inside, recipient, octets, refused);
    *gateway = GatewayHandle::of(inside);
    match found {
        Ok(finishes) => {
            *answer = finishes;
            OK
        }
        Err(failure) => failure.status(),
    }
}
