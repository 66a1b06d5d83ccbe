//! A set that is open, where it lies.

ghost use Rattle.std.specs.Prelude.{◌≡◌, ◌+◌, ◌<◌, ◌≤◌, nat_le, length, option_copied};
ghost use Rattle.sms_join.specs.Key.{maximum_of};
ghost use Rattle.sms_join.specs.OpenSets.{is_in, units_for};
ghost use Rattle.sms_join.specs.Inside.Slots.{set_of};

use crate::age::Age;
use crate::key::Key;
use crate::slot::Slot;
use crate::units::Units;
use std::marker::Model;

/// A set of which some pieces have come, and not all. Contracts see its key, the moment of its
/// first piece, the number of its opening, and the sequences and the units that have come.
#[derive(Drop)]
pub struct OpenSet<'a> {
    key: &'a Key,
    slot: &'a Slot,
}

impl<'a> Model for OpenSet<'a> {
    ghost use Rattle.std.specs.Prelude.{◌≡◌, length};
    ghost use Rattle.sms_join.specs.Key.{maximum_of};
    ghost use Rattle.sms_join.specs.OpenSets.{SetValue};
    ghost use Rattle.sms_join.specs.Inside.Slots.{set_of};

    ghost Value = { SetValue };

    ghost view = { λ s. set_of (s.key.now, s.slot.now) };

    ghost invariant = { λ s. length s.slot.now.places ≡ maximum_of s.key.now };
}

impl<'a> OpenSet<'a> {
    /// The set of this key and slot.
    pub(crate) fn new(key: &'a Key, slot: &'a Slot) -> OpenSet<'a>
        requires { length slot.now.places ≡ maximum_of key.now }
        ensures { result ≡ set_of (key.now, slot.now) }
    {
        OpenSet { key, slot }
    }

    /// What its pieces share.
    pub fn key(&self) -> &'a Key
        ensures { result.now ≡ self.now.key }
    {
        self.key
    }

    /// How many pieces it has.
    pub fn maximum(&self) -> u8
        ensures { result ≡ maximum_of self.now.key }
    {
        self.key.maximum()
    }

    /// The moment of its first piece, in seconds from the start of 2000.
    pub fn moment(&self) -> u64
        ensures { result ≡ self.now.opened }
    {
        self.slot.opened()
    }

    /// Whether it was opened too long ago.
    pub(crate) fn is_old(&self, age: Age) -> bool
        ensures { result ≡ nat_le (self.now.opened + age.longest) age.now }
    {
        self.slot.is_old(age)
    }

    /// The number of its opening: a set that is opened later has a greater one.
    pub fn turn(&self) -> u64
        ensures { result ≡ self.now.turn }
    {
        self.slot.turn()
    }

    /// How many of its pieces have come.
    pub fn count(&self) -> usize
        ensures { result ≡ length self.now.sequences }
    {
        self.slot.count()
    }

    /// Whether the piece of this sequence has come. The sequence is from 1 to the maximum.
    pub fn has(&self, sequence: u8) -> bool
        requires first { 0 < sequence }
        requires last { sequence ≤ maximum_of self.now.key }
        ensures { result ≡ is_in sequence self.now.sequences }
    {
        self.slot.has(sequence)
    }

    /// The units of the piece of this sequence, where it has come. The sequence is from 1 to the
    /// maximum.
    pub fn units(&self, sequence: u8) -> Option<&'a Units>
        requires first { 0 < sequence }
        requires last { sequence ≤ maximum_of self.now.key }
        ensures { option_copied result
            ≡ units_for sequence self.now.sequences self.now.units }
    {
        self.slot.units(sequence)
    }
}
