//! A moment before which no set was opened.

ghost use Rattle.std.specs.Prelude.{◌≡◌, ◌<◌, ◌≤◌, ℕ, IfSome, min, true};
ghost use Rattle.std.specs.List.{fold};
ghost use Rattle.indexmap.specs.IndexMap.{values};
ghost use Rattle.sms_join.specs.Inside.Lines.{AreInTime, AreSince, InLine};
ghost use Rattle.sms_join.specs.Inside.Slots.{AreSlots, sets_of};

use crate::hashing::Hashing;
use crate::key::Key;
use crate::line::{Opening, lies};
use crate::slot::Slot;
use indexmap::IndexMap;
use std::collections::VecDeque;

/// One that holds of so many sets, after one more is opened.
pub(crate) fn earliest_with(count: usize, earliest: u64, now: u64) -> u64
    ensures opened { result ≤ now }
    ensures before { 0 < count → result ≤ earliest }
{
    if count == 0 { now } else { earliest.min(now) }
}

/// The moment of the set that was opened first, by the moments.
fn least_moment(slots: &IndexMap<Key, Slot, Hashing>) -> u64
    ensures { result ≡ fold (λ least slot. min least slot.opened) 18446744073709551615
        (values slots.now) }
{
    slots.values().fold(
        u64::MAX,
        |least: u64, slot: &Slot| -> u64
            ensures { result ≡ min least slot.now.opened }
        { least.min(slot.opened()) },
    )
}

/// The moment of the set whose opening stands first in the line, if it is there.
fn first_moment(slots: &IndexMap<Key, Slot, Hashing>, line: &VecDeque<Opening>) -> Option<u64>
    requires { AreSlots slots.now.entries }
    ensures { IfSome result (λ first. (t latest : ℕ)
        → InLine t line.now.items (sets_of slots.now.entries)
        → AreInTime latest (sets_of slots.now.entries)
        → AreSince first (sets_of slots.now.entries)) }
{
    let opening = *line.front()?;
    if !lies(slots, opening) {
        return None;
    }
    Some(slots[opening.index].opened())
}

/// One that holds of the sets that are left, and is not passed by while they are young. Of those
/// that were opened in time it looks at the first alone.
pub(crate) fn earliest_left(
    in_time: bool,
    earliest: u64,
    slots: &IndexMap<Key, Slot, Hashing>,
    line: &VecDeque<Opening>,
) -> u64
    requires slots { AreSlots slots.now.entries }
    requires time { in_time ≡ true
        → (latest : ℕ) × AreInTime latest (sets_of slots.now.entries) }
    requires line { (t : ℕ) × InLine t line.now.items (sets_of slots.now.entries) }
    ensures { AreSince earliest (sets_of slots.now.entries)
        → AreSince result (sets_of slots.now.entries) }
{
    if !in_time {
        return least_moment(slots);
    }
    if slots.is_empty() {
        return u64::MAX;
    }
    match first_moment(slots, line) {
        Some(first) => first,
        None => earliest,
    }
}
