//! The table of open sets.

ghost use Rattle.std.specs.Prelude.{◌≡◌, ◌≤◌, length, option_copied, position};
ghost use Rattle.indexmap.specs.IndexMap.{keys};
ghost use Rattle.sms_join.specs.Key.{same_key};
ghost use Rattle.sms_join.specs.Piece.{key_to};
ghost use Rattle.sms_join.specs.Inside.MostSets.{Follows};

use crate::hashing::Hashing;
use crate::key::Key;
use crate::slot::Slot;
use indexmap::IndexMap;
use sms_field::{Address, Stamp};
use sms_tpdu::Concat;

/// Up to how many sets are looked through one by one, which then takes less time than to hash a
/// key.
pub(crate) const FEW_SETS: usize = 16;

/// How many times as many sets as there are may have been there since room was last given back.
const MOST_PER_SET: usize = 16;

/// Which of the sets such a message or segment is of.
pub(crate) fn find_key(
    slots: &IndexMap<Key, Slot, Hashing>,
    to: Option<&Address>,
    origin: &Address,
    stamp: Stamp,
    concat: Option<Concat>,
) -> Option<usize>
    ensures { let asked = key_to (option_copied to.entry) origin.now stamp concat in
        result ≡ position (λ key. same_key key asked) (keys slots.now) }
{
    slots
        .keys()
        .position(|key| key.is_of(to, origin, stamp, concat))
}

/// Where few are left of the most sets that have been there, gives back the room of the others,
/// and says how many count as the most from then on.
///
/// The map makes its index anew for it, in room that it has, so that no look-up passes groups any
/// more that were full of sets which have gone. That takes as long as the sets need that are left,
/// and more than these have gone since the last time. It never fails: what cannot be given back
/// stays. But sets that are opened later ask for that room again, and may be refused it.
pub(crate) fn give_room_back(slots: &mut IndexMap<Key, Slot, Hashing>, most: usize) -> usize
    requires { length slots.old.entries ≤ most }
    ensures entries { slots.new.entries ≡ slots.old.entries }
    ensures most { Follows (length slots.old.entries) result }
{
    let few = slots.len().max(FEW_SETS);
    if most / MOST_PER_SET <= few {
        return most;
    }
    slots.shrink_to(2 * few);
    few
}
