//! The line of openings, in which open sets are found in the order in which they were opened.

ghost use Rattle.std.specs.Prelude.{◌≡◌, ◌<◌, ◌≤◌, ◌+◌, ℕ, nat_lt, true, false, length, drop, slice_get, Some, IfSome};
ghost use Rattle.std.specs.List.{filter};
ghost use Rattle.sms_join.specs.declared.line.Opening.{Opening as TheOpening};
ghost use Rattle.sms_join.specs.Inside.Slots.{AreSlots, sets_of};
ghost use Rattle.sms_join.specs.Inside.Lines.{Climbs, Splits, noted, lies, walked, walked_at, InLine, AreSeated};

use crate::hashing::Hashing;
use crate::key::Key;
use crate::slot::Slot;
use indexmap::IndexMap;
use std::collections::VecDeque;

/// How many openings are not looked through for those whose sets have gone.
const FEW_OPENINGS: usize = 32;

/// An opening: its number, and the index at which its set was noted last. Where the set there is of
/// another opening, or there is none, the set has gone.
#[derive(Clone, Copy)]
pub(crate) struct Opening {
    pub(crate) turn: u64,
    pub(crate) index: usize,
}

/// The place of the first opening of this number or above.
pub(crate) fn place_from(line: &VecDeque<Opening>, turn: u64) -> usize
    requires { Climbs line.now.items }
    ensures { Splits turn result line.now.items }
{
    line.partition_point(
        |opening: &Opening| -> bool
            ensures { result ≡ nat_lt opening.now.turn turn }
        { opening.turn < turn },
    )
}

/// Notes that the set of the opening at this place lies at another index.
pub(crate) fn note(line: &mut VecDeque<Opening>, place: usize, index: usize)
    requires climbs { Climbs line.old.items }
    requires there { place < length line.old.items }
    ensures { (opening : TheOpening) → slice_get line.old.items place ≡ Some opening
        → line.new.items ≡ noted opening.turn index line.old.items }
{
    line[place].index = index;
}

/// Whether the set of the opening lies where it was noted.
pub(crate) fn lies(slots: &IndexMap<Key, Slot, Hashing>, opening: Opening) -> bool
    ensures { result ≡ lies (sets_of slots.now.entries) opening }
{
    match slots.get_index(opening.index) {
        None => false,
        Some((_, slot)) => slot.turn() == opening.turn,
    }
}

/// The first place of the line, this one or one after it, of an opening whose set is there.
pub(crate) fn first_place(
    slots: &IndexMap<Key, Slot, Hashing>,
    line: &VecDeque<Opening>,
    place: usize,
) -> Option<usize>
    ensures passed { walked (sets_of slots.now.entries) (drop place line.now.items)
        ≡ walked_at (sets_of slots.now.entries) line.now.items result }
    ensures there { IfSome result (λ found. found < length line.now.items) }
    ensures lies { IfSome result (λ found. (opening : TheOpening)
        → slice_get line.now.items found ≡ Some opening
        → lies (sets_of slots.now.entries) opening ≡ true) }
{
    for at in place..line.len() {
        if lies(slots, line[at]) {
            return Some(at);
        }
    }
    None
}

/// Has each set take the seat at which its opening stands, where the first one stands at 0.
fn take_seats(slots: &mut IndexMap<Key, Slot, Hashing>, line: &VecDeque<Opening>)
    ensures sets { sets_of slots.new.entries ≡ sets_of slots.old.entries }
    ensures slots { AreSlots slots.old.entries → AreSlots slots.new.entries }
    ensures seats { (t : ℕ) → InLine t line.now.items (sets_of slots.old.entries)
        → AreSeated 0 line.now.items slots.new.entries }
{
    for seat in 0..line.len() {
        let opening = line[seat];
        if lies(slots, opening) {
            slots[opening.index].take_seat(seat);
        }
    }
}

/// Forgets the openings whose sets have gone.
fn forget_gone(line: &mut VecDeque<Opening>, slots: &IndexMap<Key, Slot, Hashing>)
    ensures { line.new.items ≡ filter (lies (sets_of slots.now.entries)) line.old.items }
{
    line.retain(
        |opening: &Opening| -> bool
            ensures { result ≡ lies (sets_of slots.entry.now.entries) opening.now }
        { lies(slots, *opening) },
    );
}

/// Forgets the openings whose sets have gone, where they are more than half, gives their room back,
/// and says at which seat the first one stands from then on. That takes as long as the openings
/// need which have come since the last time.
pub(crate) fn tidy(
    line: &mut VecDeque<Opening>,
    slots: &mut IndexMap<Key, Slot, Hashing>,
    front: usize,
) -> usize
    ensures sets { sets_of slots.new.entries ≡ sets_of slots.old.entries }
    ensures slots { AreSlots slots.old.entries → AreSlots slots.new.entries }
    ensures line { (t : ℕ) → InLine t line.old.items (sets_of slots.old.entries)
        → InLine t line.new.items (sets_of slots.new.entries) }
    ensures seats { (t : ℕ) → InLine t line.old.items (sets_of slots.old.entries)
        → AreSeated front line.old.items slots.old.entries
        → AreSeated result line.new.items slots.new.entries }
    ensures end { result + length line.new.items ≤ front + length line.old.items }
{
    let few = (2 * slots.len()).max(FEW_OPENINGS);
    if line.len() <= few {
        return front;
    }
    forget_gone(line, slots);
    line.shrink_to(few);
    take_seats(slots, line);
    0
}
