//! The sets of pieces that are not whole.

mod opening;

ghost use Rattle.std.specs.Prelude.{◌≡◌, ℕ, suc, ◌<◌, ◌≤◌, ◌-◌, ◌^◌, [], ◌==◌, length, option_copied, position, slice_get, true, false, IfOk};
ghost use Rattle.std.proofs.Math.ListN.{set};
ghost use Rattle.std.specs.List.{swap_remove};
ghost use Rattle.std.specs.Str.{chars};
ghost use Rattle.std.specs.String.{string_bytes};
ghost use Rattle.indexmap.specs.IndexMap.{keys};
ghost use Rattle.sms_join.specs.Joiner.Finishing.{lacks_only};
ghost use Rattle.sms_join.specs.Key.{same_key, maximum_of};
ghost use Rattle.sms_join.specs.OpenSets.{has_set, is_in, with_piece};
ghost use Rattle.sms_join.specs.Piece.{key_to};
ghost use Rattle.sms_join.specs.Reading.{text_of_segments};
ghost use Rattle.sms_join.specs.Inside.MostSets.{Follows};
ghost use Rattle.sms_join.specs.Inside.Slots.{At, HasPlace, AreSlots, sets_of};
ghost use Rattle.sms_join.specs.Inside.Turns.{AreBefore, HaveTurns, arranged};
ghost use Rattle.sms_join.specs.Inside.Lines.{InLine, AreInTime, noted_at};
ghost use Rattle.sms_join.specs.Inside.Ages.{old_of};
ghost use Rattle.sms_join.specs.Inside.Dropping.{DropsOld};
ghost use Rattle.sms_join.specs.OpenSets.Told.{first_from, AreUnder};

use crate::age::Age;
use crate::dropping::{drop_at, drop_old};
use crate::earliest::earliest_left;
use crate::hashing::Hashing;
use crate::key::Key;
use crate::line::{Opening, place_from, tidy};
use crate::open_set::OpenSet;
use crate::slot::Slot;
use crate::table::{FEW_SETS, find_key, give_room_back};
use crate::told_sets::ToldSets;
use crate::units::Units;
use indexmap::IndexMap;
use sms_field::{Address, Stamp};
use sms_tpdu::Concat;
use std::alloc::{AllocError, Global};
use std::collections::VecDeque;
use std::marker::Model;

/// The open sets, each known by its key.
#[derive(Drop)]
pub(crate) struct OpenSets {
    slots: IndexMap<Key, Slot, Hashing>,
    /// The most sets that have been there since room was last given back.
    most: usize,
    /// The openings of the sets, and some whose sets have gone.
    line: VecDeque<Opening>,
    /// At which seat the first of them stands. The others have the seats that follow.
    front: usize,
    /// How many openings there have been.
    turns: u64,
    /// The moment of the last of them.
    latest: u64,
    /// Whether none of the sets was opened at an earlier moment than one before it.
    in_time: bool,
    /// A moment before which none of the sets was opened.
    earliest: u64,
}

impl Model for OpenSets {
    ghost use Rattle.std.specs.Prelude.{◌≡◌, ◌+◌, ◌≤◌, List, length, true};
    ghost use Rattle.sms_join.specs.OpenSets.{SetValue};
    ghost use Rattle.sms_join.specs.Inside.MostSets.{Follows};
    ghost use Rattle.sms_join.specs.Inside.Slots.{AreSlots, sets_of};
    ghost use Rattle.sms_join.specs.Inside.Lines.{InLine, AreInTime, AreSince, AreSeated};

    ghost Value = { List SetValue };

    ghost view = { λ o. sets_of o.slots.entries };

    ghost invariant = { λ o. AreSlots o.slots.entries × Follows (length o.slots.entries) o.most
        × InLine o.turns o.line.items (sets_of o.slots.entries)
        × (o.in_time ≡ true → AreInTime o.latest (sets_of o.slots.entries))
        × AreSince o.earliest (sets_of o.slots.entries)
        × AreSeated o.front o.line.items o.slots.entries
        × (o.front + length o.line.items ≤ o.turns) };
}

impl OpenSets {
    /// None, in a table that hashes so.
    pub(crate) fn new(alloc: Global, hashing: Hashing) -> OpenSets
        ensures { result ≡ [] }
    {
        OpenSets {
            slots: IndexMap::with_hasher(alloc, hashing),
            most: 0,
            line: VecDeque::new(alloc),
            front: 0,
            turns: 0,
            latest: 0,
            in_time: true,
            earliest: u64::MAX,
        }
    }

    /// That they were opened one after another. It does nothing.
    pub(crate) fn have_turns(&self)
        ensures { (t : ℕ) × HaveTurns t self.now }
    {
        let _turns = self.turns;
    }

    /// How many openings there have been.
    fn openings(&self) -> u64
        ensures { AreBefore result self.now }
    {
        self.turns
    }

    /// That there is a number after that of each opening. It does nothing.
    pub(crate) fn have_numbers(&self)
        ensures { AreUnder (2 ^ 64 - 1) (arranged self.now) }
    {
        let _turns = self.openings();
    }

    /// How many there are.
    pub(crate) fn count(&self) -> usize
        ensures { result ≡ length self.now }
    {
        self.slots.len()
    }

    /// Which of them such a message or segment is of. It takes no memory.
    ///
    /// Where the hashers are all alike, whoever picks keys of one hash makes it look through them,
    /// and through groups of the index that were full when they came and are not any more. As room
    /// is given back, the index never has more than some seven groups for each set that is open.
    pub(crate) fn find(
        &self,
        alloc: Global,
        to: Option<&Address>,
        origin: &Address,
        stamp: Stamp,
        concat: Option<Concat>,
    ) -> Option<usize>
        ensures { let asked = key_to (option_copied to.entry) origin.now stamp concat in
            result ≡ position (λ set. same_key set.key asked) self.now }
    {
        if self.slots.len() <= FEW_SETS {
            return find_key(&self.slots, to, origin, stamp, concat);
        }
        let key = Key::of(alloc, to, origin, stamp, concat);
        self.slots.get_index_of(&key)
    }

    /// Whether this piece of the set has come.
    pub(crate) fn has(&self, index: usize, sequence: u8) -> bool
        requires { HasPlace self.now index sequence }
        ensures { At self.now index (λ set. result ≡ is_in sequence set.sequences) }
    {
        self.slots[index].has(sequence)
    }

    /// Whether all pieces of the set but one have come.
    pub(crate) fn lacks_one(&self, index: usize) -> bool
        requires { index < length self.now }
        ensures { At self.now index (λ set. result
            ≡ (suc (length set.sequences) == maximum_of set.key)) }
    {
        self.slots[index].lacks_one()
    }

    /// Adds a piece of the set that has not come. It takes no memory.
    pub(crate) fn put(&mut self, index: usize, sequence: u8, units: Units)
        requires place { HasPlace self.old index sequence }
        requires missing { At self.old index (λ set. is_in sequence set.sequences ≡ false) }
        ensures { At self.old index (λ own. self.new
            ≡ set self.old index (with_piece own sequence units)) }
    {
        self.slots[index].put(sequence, units);
    }

    /// The text of the set with these units for the piece that has not come.
    pub(crate) fn text_with(
        &self,
        alloc: Global,
        index: usize,
        units: Units,
    ) -> Result<String, AllocError>
        requires { index < length self.now }
        ensures { IfOk result (λ text. At self.now index (λ set.
            (n : ℕ) → 0 < n → n ≤ maximum_of set.key → lacks_only set n ≡ true
            → chars (string_bytes text)
            ≡ text_of_segments (with_piece set n units).units)) }
    {
        self.slots[index].text_with(alloc, &units)
    }

    /// Drops the set. The last one takes its place. Where few are left, room is given back.
    pub(crate) fn remove(&mut self, index: usize)
        requires { index < length self.old }
        ensures { At self.old index (λ set. self.new ≡ swap_remove self.old index set) }
    {
        drop_at(&mut self.slots, &mut self.line, self.front, index);
        self.most = give_room_back(&mut self.slots, self.most);
        self.front = tidy(&mut self.line, &mut self.slots, self.front);
    }

    /// All of them, in order of opening.
    pub(crate) fn told(&self) -> ToldSets<'_>
        ensures { result ≡ arranged self.now }
    {
        ToldSets::new(&self.slots, &self.line, 0)
    }

    /// The first of them, in order of opening, whose number of opening is this one or above.
    pub(crate) fn open_from(&self, turn: u64) -> Option<OpenSet<'_>>
        ensures { result ≡ first_from turn (arranged self.now) }
    {
        let place = place_from(&self.line, turn);
        ToldSets::new(&self.slots, &self.line, place).next()
    }

    /// The same of those alone that were opened too long ago.
    pub(crate) fn old_from(&self, turn: u64, age: Age) -> Option<OpenSet<'_>>
        ensures { result ≡ first_from turn (old_of age (arranged self.now)) }
    {
        let _openings = self.openings();
        let mut next = turn;
        while let Some(set) = self.open_from(next) {
            if set.is_old(age) {
                return Some(set);
            }
            if self.in_time {
                return None;
            }
            next = set.turn() + 1;
        }
        None
    }

    /// Drops those that were opened too long ago. It takes no memory. Where there are none, as
    /// nearly always, it looks at no set but one, or goes through all where they were not opened in
    /// time, and then not again before the earliest of them is too old. Where few are left, room is
    /// given back.
    pub(crate) fn age(&mut self, age: Age)
        ensures { DropsOld age self.old self.new }
    {
        if !age.is_past(self.earliest) {
            return;
        }
        self.front = drop_old(
            &mut self.slots,
            &mut self.line,
            self.front,
            age,
            self.in_time,
        );
        self.earliest = earliest_left(self.in_time, self.earliest, &self.slots, &self.line);
        self.most = give_room_back(&mut self.slots, self.most);
        self.front = tidy(&mut self.line, &mut self.slots, self.front);
    }
}
