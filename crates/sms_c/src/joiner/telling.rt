//! The open messages of a joiner of C, one after another.

ghost use Rattle.std.specs.Prelude.{◌≡◌, None, IfSome, IfOk};
ghost use Rattle.sms_tpdu.specs.declared.user_data.concat.Width.{Width as TheWidth};
ghost use Rattle.sms_join.specs.Joiner.Sets.{open_sets};
ghost use Rattle.sms_join.specs.Key.{maximum_of, recipient_of};
ghost use Rattle.sms_join.specs.OpenSets.{IsOpen};
ghost use Rattle.sms_c.specs.Changes.{next_number};
ghost use Rattle.sms_c.specs.OpenMessages.{step_status, ShowsFirst, ShowsSequences, ShowsSet};
ghost use Rattle.sms_c.specs.Parts as seen;
ghost use Rattle.sms_c.specs.Status.{status_in};

use crate::joiner::Handle;
use crate::joiner::inside::Inside;
use crate::status::{Failure, OK};
use sms_join::{Key, OpenSet};
use sms_tpdu::Width;
use std::alloc::Global;
use std::mem;

/// How many octets have a bit for each sequence.
const COME: usize = 32;

/// A message of which some segments have come, and not all.
#[repr(C)]
#[derive(Clone, Copy)]
pub struct OpenMessage {
    /// The moment at which its first segment was offered.
    pub seconds: u64,
    /// The number of its opening.
    pub opening: u64,
    /// The bits of the reference, 8 or 16.
    pub width: u16,
    pub reference: u16,
    pub maximum: u8,
    /// How many segments have come.
    pub count: u8,
    /// Of the origin (TP-OA).
    pub type_of_number: u8,
    pub plan: u8,
    /// Which segments have come, a bit each.
    pub come: [u8; COME],
}

/// Where a caller stands among the open messages.
#[repr(C)]
#[derive(Clone, Copy)]
pub struct Cursor {
    /// The number of the joiner's changes where it began; 0 before.
    pub change: u64,
    /// The number of opening from which it goes on.
    pub opening: u64,
}

/// How many bits a reference has.
pub fn bits_of(width: Width) -> u16
    ensures { result ≡ seen.bits_of width }
{
    match width {
        Width::Eight => 8,
        Width::Sixteen => 16,
    }
}

/// Which sequences of an open set have come, each by its bit.
pub fn come_of(set: &OpenSet, maximum: u8) -> [u8; COME]
    requires is_open { IsOpen set.now }
    requires maximum { maximum ≡ maximum_of set.now.key }
    ensures { ShowsSequences set.now.sequences result }
{
    let mut come = [0; COME];
    for index in 0..maximum {
        let sequence = index + 1;
        if set.has(sequence) {
            come[usize::from(sequence / 8)] |= 1 << (sequence % 8);
        }
    }
    come
}

/// What C sees of an open set.
fn shown(set: &OpenSet) -> OpenMessage
    requires is_open { IsOpen set.now }
    requires recipient { recipient_of set.now.key ≡ None }
    ensures { ShowsSet set.now result }
{
    let Key::Segmented {
        origin,
        width,
        reference,
        maximum,
    } = set.key()
    else {
        unreachable!()
    };
    OpenMessage {
        seconds: set.moment(),
        opening: set.turn(),
        width: bits_of(*width),
        reference: *reference,
        maximum: *maximum,
        count: set.count() as u8,
        type_of_number: origin.type_of_number,
        plan: origin.plan,
        come: come_of(set, *maximum),
    }
}

/// The open message that a cursor comes to.
fn reached(inside: &Inside, cursor: Cursor) -> Result<OpenMessage, Failure>
    ensures status { status_in result
        ≡ step_status inside.now.changes inside.now.joiner.told cursor }
    ensures shows { IfOk result (ShowsFirst cursor.opening inside.now.joiner.told) }
{
    if cursor.change != 0 && cursor.change != inside.changes {
        return Err(Failure::Changed);
    }
    match inside.joiner.open_from(cursor.opening) {
        None => Err(Failure::NotThere),
        Some(set) => Ok(shown(&set)),
    }
}

/// Tells how many messages are open.
#[unsafe(no_mangle)]
pub extern "C" fn sms_joiner_count(
    alloc: Global,
    handle: &mut Handle,
    open_count: &mut usize,
) -> u32
    ensures closed { handle.old.kept.held ≡ None
        → (result ≡ 10) × (open_count.new ≡ open_count.old) }
    ensures same { handle.new.kept.held ≡ handle.old.kept.held }
    ensures count { IfSome handle.old.kept.held (λ inside.
        (result ≡ 0) × (open_count.new ≡ open_sets inside.joiner.holds.kept)) }
{
    let Some(inside) = mem::replace(handle, Handle::closed(alloc)).into_box() else {
        return Failure::Closed.status();
    };
    *open_count = inside.joiner.open_count();
    *handle = Handle::of(inside);
    OK
}

/// Tells the next open message, and goes on to the one after it.
#[unsafe(no_mangle)]
pub extern "C" fn sms_joiner_each(
    alloc: Global,
    handle: &mut Handle,
    cursor: &mut Cursor,
    message: &mut OpenMessage,
) -> u32
    ensures closed { handle.old.kept.held ≡ None → result ≡ 10 }
    ensures same { handle.new.kept.held ≡ handle.old.kept.held }
    ensures none { (result ≡ 0 → ⊥)
        → (cursor.new ≡ cursor.old) × (message.new ≡ message.old) }
    ensures status { IfSome handle.old.kept.held (λ inside.
        result ≡ step_status inside.changes inside.joiner.told cursor.old) }
    ensures shows { result ≡ 0 → IfSome handle.old.kept.held (λ inside.
        ShowsFirst cursor.old.opening inside.joiner.told message.new) }
    ensures stands { result ≡ 0 → IfSome handle.old.kept.held (λ inside.
        (cursor.new.change ≡ inside.changes)
        × (cursor.new.opening ≡ next_number message.new.opening)) }
{
    let Some(inside) = mem::replace(handle, Handle::closed(alloc)).into_box() else {
        return Failure::Closed.status();
    };
    let change = inside.changes;
    let found = reached(&inside, *cursor);
    *handle = Handle::of(inside);
    match found {
        Ok(reached) => {
            let opening = reached.opening.saturating_add(1);
            *cursor = Cursor { change, opening };
            *message = reached;
            OK
        }
        Err(failure) => failure.status(),
    }
}
