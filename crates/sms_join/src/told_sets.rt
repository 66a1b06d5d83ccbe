//! The open sets, one after another.

ghost use Rattle.std.specs.Prelude.{◌≡◌, drop};
ghost use Rattle.sms_join.specs.Inside.Lines.{walked};
ghost use Rattle.sms_join.specs.Inside.Slots.{AreSlots, sets_of};

use crate::hashing::Hashing;
use crate::key::Key;
use crate::line::{Opening, first_place};
use crate::open_set::OpenSet;
use crate::slot::Slot;
use indexmap::IndexMap;
use std::collections::VecDeque;
use std::marker::Model;

/// The open sets that are left to be told, in the order in which they were opened. Contracts see
/// them as their list.
#[derive(Drop)]
pub struct ToldSets<'a> {
    slots: &'a IndexMap<Key, Slot, Hashing>,
    line: &'a VecDeque<Opening>,
    /// How many openings of the line have been passed.
    place: usize,
}

impl<'a> Model for ToldSets<'a> {
    ghost use Rattle.std.specs.Prelude.{List, drop};
    ghost use Rattle.sms_join.specs.OpenSets.{SetValue};
    ghost use Rattle.sms_join.specs.Inside.Lines.{walked};
    ghost use Rattle.sms_join.specs.Inside.Slots.{AreSlots, sets_of};

    ghost Value = { List SetValue };

    ghost view = { λ t. walked (sets_of t.slots.now.entries) (drop t.place t.line.now.items) };

    ghost invariant = { λ t. AreSlots t.slots.now.entries };
}

impl<'a> ToldSets<'a> {
    /// Those of these slots whose openings stand at this place of the line or after it.
    pub(crate) fn new(
        slots: &'a IndexMap<Key, Slot, Hashing>,
        line: &'a VecDeque<Opening>,
        place: usize,
    ) -> ToldSets<'a>
        requires { AreSlots slots.now.entries }
        ensures { result ≡ walked (sets_of slots.now.entries) (drop place line.now.items) }
    {
        ToldSets { slots, line, place }
    }
}

impl<'a> Iterator for ToldSets<'a> {
    ghost use Rattle.std.specs.Iterator.{YieldsFirst, item_count};

    type Item = OpenSet<'a>;

    ghost remaining = { item_count (λ left. left) };

    ghost next_gives = { YieldsFirst (λ left. left) };

    fn next(&mut self) -> Option<OpenSet<'a>> {
        let place = first_place(self.slots, self.line, self.place)?;
        self.place = place + 1;
        let (key, slot) = self.slots.get_index(self.line[place].index)?;
        Some(OpenSet::new(key, slot))
    }
}
