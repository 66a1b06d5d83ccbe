//! For whom an open message of a joiner for many recipients of C is.

ghost use Rattle.std.specs.Prelude.{◌≡◌, ◌≢◌, ◌↔◌, Some, None, Err, IsSome, IfSome, IfOk, IfErr, OnErr};
ghost use Rattle.std.specs.Str.{chars};
ghost use Rattle.std.specs.String.{string_bytes};
ghost use Rattle.sms_field.specs.Address.Text.{address_text};
ghost use Rattle.sms_field.specs.Address.Value.{AddressValue};
ghost use Rattle.sms_c.specs.Fitting.{IsAnswered};
ghost use Rattle.sms_c.specs.GatewayMessages.{recipient_as, OfRecipient};
ghost use Rattle.sms_c.specs.HandedOut.{ArePut, LackRoom};
ghost use Rattle.sms_c.specs.Status.{status_in, IsNotRoom};
ghost use Rattle.sms_c.specs.declared.status.Failure.TheVariants.{NoRoom, NotThere};

use crate::gateway::GatewayHandle;
use crate::gateway::inside::Inside;
use crate::handed_out::hand_out;
use crate::status::{Failure, status_of};
use std::alloc::Global;
use std::mem;

/// The text of the recipient of the open message of an opening.
fn text_of(alloc: Global, inside: &Inside, opening: u64) -> Result<String, Failure>
    ensures text { IfOk result (λ text. (recipient : AddressValue)
        × (recipient_as opening inside.now.gateway.told ≡ Some recipient)
        × (chars (string_bytes text) ≡ address_text recipient)) }
    ensures not_there { (status_in result ≡ 8)
        ↔ (recipient_as opening inside.now.gateway.told ≡ None) }
    ensures memory { status_in result ≢ 0 → status_in result ≢ 8 → status_in result ≡ 2 }
{
    let Some(set) = inside.gateway.open_from(opening) else {
        return Err(Failure::NotThere);
    };
    if set.turn() != opening {
        return Err(Failure::NotThere);
    }
    let Some(recipient) = set.key().recipient() else {
        return Err(Failure::NotThere);
    };
    Ok(recipient.to_text(alloc)?)
}

/// Hands out the text of the recipient of the open message of an opening.
fn put_recipient(
    alloc: Global,
    inside: &Inside,
    opening: u64,
    out: &mut [u8],
    needed: &mut usize,
) -> Result<(), Failure>
    ensures not_there { (status_in result ≡ 8)
        ↔ (recipient_as opening inside.now.gateway.told ≡ None) }
    ensures answered { status_in result ≢ 8 → IsAnswered (status_in result) }
    ensures put { IfOk result (λ _. OfRecipient opening inside.now.gateway.told
        (ArePut out.old out.new needed.new)) }
    ensures no_room { result ≡ Err NoRoom → OfRecipient opening inside.now.gateway.told
        (LackRoom out.old out.new needed.new) }
    ensures none { OnErr result (out.new ≡ out.old) }
    ensures needed { IfErr result (λ why. IsNotRoom why → needed.new ≡ needed.old) }
{
    let text = text_of(alloc, inside, opening)?;
    hand_out(text.as_bytes(), out, needed)
}

/// Hands out the text of the recipient of the open message of an opening.
#[unsafe(no_mangle)]
pub extern "C" fn sms_gateway_recipient(
    alloc: Global,
    gateway: &mut GatewayHandle,
    opening: u64,
    out: &mut [u8],
    needed: &mut usize,
) -> u32
    ensures closed { gateway.old.kept.held ≡ None → result ≡ 10 }
    ensures same { gateway.new.kept.held ≡ gateway.old.kept.held }
    ensures not_there { IfSome gateway.old.kept.held (λ inside. (result ≡ 8)
        ↔ (recipient_as opening inside.gateway.told ≡ None)) }
    ensures answered { IsSome gateway.old.kept.held → result ≢ 8 → IsAnswered result }
    ensures put { result ≡ 0 → IfSome gateway.old.kept.held (λ inside.
        OfRecipient opening inside.gateway.told (ArePut out.old out.new needed.new)) }
    ensures no_room { result ≡ 3 → IfSome gateway.old.kept.held (λ inside.
        OfRecipient opening inside.gateway.told (LackRoom out.old out.new needed.new)) }
    ensures none { (result ≡ 0 → ⊥) → out.new ≡ out.old }
    ensures needed { (result ≡ 0 → ⊥) → (result ≡ 3 → ⊥) → needed.new ≡ 0 }
{
    *needed = 0;
    let Some(inside) = mem::replace(gateway, GatewayHandle::closed(alloc)).into_box() else {
        return Failure::Closed.status();
    };
    let answer = put_recipient(alloc, &inside, opening, out, needed);
    *gateway = GatewayHandle::of(inside);
    status_of(answer)
}
