//! The open messages of a joiner for many recipients of C, one after another.

ghost use Rattle.std.specs.Prelude.{◌≡◌, None, IfSome, IfOk};
ghost use Rattle.sms_join.specs.Joiner.Sets.{open_sets};
ghost use Rattle.sms_join.specs.Key.{maximum_of};
ghost use Rattle.sms_join.specs.OpenSets.{IsOpen};
ghost use Rattle.sms_join.specs.declared.key.Key.TheVariants.{Segmented};
ghost use Rattle.sms_c.specs.Changes.{next_number};
ghost use Rattle.sms_c.specs.GatewayMessages.{ShowsAs, ShowsFirstTo, ShowsSetTo};
ghost use Rattle.sms_c.specs.OpenMessages.{step_status};
ghost use Rattle.sms_c.specs.Status.{status_in};

use crate::gateway::GatewayHandle;
use crate::gateway::inside::Inside;
use crate::joiner::telling::{Cursor, OpenMessage, bits_of, come_of};
use crate::status::{Failure, OK};
use sms_field::Address;
use sms_join::{Key, OpenSet};
use sms_tpdu::Width;
use std::alloc::Global;
use std::mem;

/// A message of which some segments have come, and not all.
#[repr(C)]
#[derive(Clone, Copy)]
pub struct MessageTo {
    pub message: OpenMessage,
    /// Whether it is for a recipient: 0 or 1.
    pub has_recipient: u8,
}

/// What C sees of an open set of segments from an origin.
fn shown_as(
    set: &OpenSet,
    origin: &Address,
    width: Width,
    reference: u16,
    maximum: u8,
) -> OpenMessage
    requires is_open { IsOpen set.now }
    requires maximum { maximum ≡ maximum_of set.now.key }
    ensures { ShowsAs (Segmented origin.now width reference maximum) set.now result }
{
    OpenMessage {
        seconds: set.moment(),
        opening: set.turn(),
        width: bits_of(width),
        reference,
        maximum,
        count: set.count() as u8,
        type_of_number: origin.type_of_number,
        plan: origin.plan,
        come: come_of(set, maximum),
    }
}

/// What C sees of an open set.
fn shown(set: &OpenSet) -> MessageTo
    requires { IsOpen set.now }
    ensures { ShowsSetTo set.now result }
{
    match set.key() {
        Key::Segmented {
            origin,
            width,
            reference,
            maximum,
        } => MessageTo {
            message: shown_as(set, origin, *width, *reference, *maximum),
            has_recipient: 0,
        },
        Key::SegmentedTo {
            origin,
            width,
            reference,
            maximum,
            ..
        } => MessageTo {
            message: shown_as(set, origin, *width, *reference, *maximum),
            has_recipient: 1,
        },
        _ => unreachable!(),
    }
}

/// The open message that a cursor comes to.
fn reached(inside: &Inside, cursor: Cursor) -> Result<MessageTo, Failure>
    ensures status { status_in result
        ≡ step_status inside.now.changes inside.now.gateway.told cursor }
    ensures shows { IfOk result (ShowsFirstTo cursor.opening inside.now.gateway.told) }
{
    if cursor.change != 0 && cursor.change != inside.changes {
        return Err(Failure::Changed);
    }
    match inside.gateway.open_from(cursor.opening) {
        None => Err(Failure::NotThere),
        Some(set) => Ok(shown(&set)),
    }
}

/// Tells how many messages are open.
#[unsafe(no_mangle)]
pub extern "C" fn sms_gateway_count(
    alloc: Global,
    gateway: &mut GatewayHandle,
    open_count: &mut usize,
) -> u32
    ensures closed { gateway.old.kept.held ≡ None
        → (result ≡ 10) × (open_count.new ≡ open_count.old) }
    ensures same { gateway.new.kept.held ≡ gateway.old.kept.held }
    ensures count { IfSome gateway.old.kept.held (λ inside.
        (result ≡ 0) × (open_count.new ≡ open_sets inside.gateway.holds.kept)) }
{
    let Some(inside) = mem::replace(gateway, GatewayHandle::closed(alloc)).into_box() else {
        return Failure::Closed.status();
    };
    *open_count = inside.gateway.open_count();
    *gateway = GatewayHandle::of(inside);
    OK
}

/// Tells the next open message, and goes on to the one after it.
#[unsafe(no_mangle)]
pub extern "C" fn sms_gateway_each(
    alloc: Global,
    gateway: &mut GatewayHandle,
    cursor: &mut Cursor,
    message: &mut MessageTo,
) -> u32
    ensures closed { gateway.old.kept.held ≡ None → result ≡ 10 }
    ensures same { gateway.new.kept.held ≡ gateway.old.kept.held }
    ensures none { (result ≡ 0 → ⊥)
        → (cursor.new ≡ cursor.old) × (message.new ≡ message.old) }
    ensures status { IfSome gateway.old.kept.held (λ inside.
        result ≡ step_status inside.changes inside.gateway.told cursor.old) }
    ensures shows { result ≡ 0 → IfSome gateway.old.kept.held (λ inside.
        ShowsFirstTo cursor.old.opening inside.gateway.told message.new) }
    ensures stands { result ≡ 0 → IfSome gateway.old.kept.held (λ inside.
        (cursor.new.change ≡ inside.changes)
        × (cursor.new.opening ≡ next_number message.new.message.opening)) }
{
    let Some(inside) = mem::replace(gateway, GatewayHandle::closed(alloc)).into_box() else {
        return Failure::Closed.status();
    };
    let change = inside.changes;
    let found = reached(&inside, *cursor);
    *gateway = GatewayHandle::of(inside);
    match found {
        Ok(reached) => {
            let opening = reached.message.opening.saturating_add(1);
            *cursor = Cursor { change, opening };
            *message = reached;
            OK
        }
        Err(failure) => failure.status(),
    }
}
