//! How a set is opened, or put back.

ghost use Rattle.std.specs.Prelude.{◌≡◌, ℕ, suc, ◌<◌, ◌≤◌, [], ◌∷◌, ◌++◌, length, false, IfOk, OnOk, OnErr};
ghost use Rattle.sms_join.specs.Key.{maximum_of};
ghost use Rattle.sms_join.specs.OpenSets.{has_set};
ghost use Rattle.sms_join.specs.OpenSets.Places.{filled, set_by};
ghost use Rattle.sms_join.specs.Inside.Turns.{HaveTurns};

use crate::earliest::earliest_with;
use crate::key::Key;
use crate::line::{Opening, tidy};
use crate::open_sets::OpenSets;
use crate::slot::{Slot, count_filled, places_with};
use crate::units::Units;
use std::alloc::{AllocError, Global};

/// The number after this one.
fn next_turn(turn: u64) -> Result<u64, AllocError>
    ensures { IfOk result (λ next. next ≡ suc turn) }
{
    turn.checked_add(1).ok_or(AllocError)
}

impl OpenSets {
    /// Opens a set with its first piece. If memory runs out, nothing has changed.
    pub(crate) fn open(
        &mut self,
        alloc: Global,
        key: Key,
        now: u64,
        sequence: u8,
        units: Units,
    ) -> Result<(), AllocError>
        requires first { 0 < sequence }
        requires last { sequence ≤ maximum_of key }
        requires closed { has_set self.old key ≡ false }
        ensures ok { OnOk result ((t : ℕ) × HaveTurns t self.old
            × (self.new ≡ self.old ++ record {
              key = key;
              opened = now;
              turn = t;
              sequences = sequence ∷ [];
              units = units ∷ [];
            } ∷ [])) }
        ensures err { OnErr result (self.new ≡ self.old) }
    {
        let places = places_with(alloc, key.maximum(), sequence, units)?;
        self.add(key, now, 1, places)
    }

    /// Opens a set at the moment of its first piece, with the pieces that have come at its places.
    /// If memory runs out, nothing has changed.
    pub(crate) fn put_back(
        &mut self,
        key: Key,
        opened: u64,
        places: Vec<Option<Units>>,
    ) -> Result<(), AllocError>
        requires places { length places.items ≡ maximum_of key }
        requires closed { has_set self.old key ≡ false }
        ensures ok { OnOk result ((t : ℕ) × HaveTurns t self.old
            × (self.new ≡ self.old ++ set_by key opened t places.items ∷ [])) }
        ensures err { OnErr result (self.new ≡ self.old) }
    {
        let count = count_filled(&places);
        self.add(key, opened, count, places)
    }

    /// Adds a set of these places, of which so many are filled.
    fn add(
        &mut self,
        key: Key,
        now: u64,
        count: usize,
        places: Vec<Option<Units>>,
    ) -> Result<(), AllocError>
        requires places { length places.items ≡ maximum_of key }
        requires count { count ≡ length (filled places.items) }
        requires closed { has_set self.old key ≡ false }
        ensures ok { OnOk result ((t : ℕ) × HaveTurns t self.old
            × (self.new ≡ self.old ++ set_by key now t places.items ∷ [])) }
        ensures err { OnErr result (self.new ≡ self.old) }
    {
        let turn = self.turns;
        let index = self.slots.len();
        let next = next_turn(turn)?;
        self.front = tidy(&mut self.line, &mut self.slots, self.front);
        let seat = self.front + self.line.len();
        self.line.push_back(Opening { turn, index })?;
        self.turns = next;
        self.slots
            .insert(key, Slot::new(now, turn, seat, count, places))?;
        self.most = self.slots.len().max(self.most);
        self.in_time = index == 0 || (self.in_time && self.latest <= now);
        self.latest = now;
        self.earliest = earliest_with(index, self.earliest, now);
        Ok(())
    }
}
