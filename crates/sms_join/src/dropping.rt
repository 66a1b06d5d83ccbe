//! How open sets go: the last one of the table takes the place of each.

ghost use Rattle.std.specs.Prelude.{◌≡◌, ℕ, ◌<◌, ◌≤◌, ◌+◌, length, slice_get, true};
ghost use Rattle.std.specs.List.{swap_remove};
ghost use Rattle.sms_join.specs.Inside.Slots.{At, AreSlots, sets_of};
ghost use Rattle.sms_join.specs.Inside.Lines.{InLine, AreInTime, AreSeated, noted_at};
ghost use Rattle.sms_join.specs.Inside.Dropping.{DropsOld};

use crate::age::Age;
use crate::hashing::Hashing;
use crate::key::Key;
use crate::line::{Opening, lies, note};
use crate::slot::Slot;
use indexmap::IndexMap;
use std::collections::VecDeque;

/// Drops the set at an index. The last one takes its place, which is noted at the seat of its
/// opening.
pub(crate) fn drop_at(
    slots: &mut IndexMap<Key, Slot, Hashing>,
    line: &mut VecDeque<Opening>,
    front: usize,
    index: usize,
)
    requires there { index < length (sets_of slots.old.entries) }
    requires slots { AreSlots slots.old.entries }
    requires line { (t : ℕ) × InLine t line.old.items (sets_of slots.old.entries) }
    requires seats { AreSeated front line.old.items slots.old.entries }
    ensures slots { AreSlots slots.new.entries }
    ensures seats { AreSeated front line.new.items slots.new.entries }
    ensures sets { At (sets_of slots.old.entries) index (λ set. sets_of slots.new.entries
        ≡ swap_remove (sets_of slots.old.entries) index set) }
    ensures line { line.new.items
        ≡ noted_at (slice_get (sets_of slots.new.entries) index) index line.old.items }
{
    let _dropped = slots.swap_remove_index(index);
    if let Some((_, moved)) = slots.get_index(index) {
        note(line, moved.seat() - front, index);
    }
}

/// Drops the sets that were opened too long ago. Where the sets were opened in time, it looks at
/// none but these and one more. Says at which seat the first opening stands from then on.
pub(crate) fn drop_old(
    slots: &mut IndexMap<Key, Slot, Hashing>,
    line: &mut VecDeque<Opening>,
    front: usize,
    age: Age,
    in_time: bool,
) -> usize
    requires slots { AreSlots slots.old.entries }
    requires time { in_time ≡ true
        → (latest : ℕ) × AreInTime latest (sets_of slots.old.entries) }
    requires line { (t : ℕ) × InLine t line.old.items (sets_of slots.old.entries) }
    requires seats { AreSeated front line.old.items slots.old.entries }
    requires end { front + length line.old.items ≤ 18446744073709551615 }
    ensures slots { AreSlots slots.new.entries }
    ensures seats { AreSeated result line.new.items slots.new.entries }
    ensures end { result + length line.new.items ≤ front + length line.old.items }
    ensures line { (t : ℕ) → InLine t line.old.items (sets_of slots.old.entries)
        → InLine t line.new.items (sets_of slots.new.entries) }
    ensures sets { DropsOld age (sets_of slots.old.entries) (sets_of slots.new.entries) }
{
    let mut first = front;
    let mut place = 0;
    while place < line.len() {
        let opening = line[place];
        if lies(slots, opening) {
            if slots[opening.index].is_old(age) {
                drop_at(slots, line, first, opening.index);
            } else if in_time {
                return first;
            }
        }
        if in_time {
            line.pop_front();
            first += 1;
        } else {
            place += 1;
        }
    }
    first
}
