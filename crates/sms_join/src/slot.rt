//! The places of a set of pieces that is not whole.

ghost use Rattle.std.specs.Prelude.{◌≡◌, suc, ◌-◌, ◌<◌, ◌≤◌, ◌+◌, ◌==◌, length, nat_le, false, None, Some, option_copied, IfOk};
ghost use Rattle.std.proofs.Math.ListN.{set, replicate};
ghost use Rattle.std.specs.Str.{chars};
ghost use Rattle.std.specs.String.{string_bytes};
ghost use Rattle.sms_join.specs.OpenSets.{is_in, units_for};
ghost use Rattle.sms_join.specs.Reading.{text_of_segments};
ghost use Rattle.sms_join.specs.OpenSets.Places.{filled, filled_from};
ghost use Rattle.sms_join.specs.Inside.Slots.{filled_with, first_places};

use crate::age::Age;
use crate::reading::{lend_with, read_lent};
use crate::units::Units;
use std::alloc::{AllocError, Global};
use std::marker::Model;

/// The pieces of a message that have come, each at the place of its sequence.
#[derive(Drop)]
pub(crate) struct Slot {
    /// When the first piece was offered.
    opened: u64,
    /// How many sets had been opened before.
    turn: u64,
    /// At which seat of the line its opening stands.
    seat: usize,
    /// How many places are filled.
    filled: usize,
    places: Vec<Option<Units>>,
}

impl Model for Slot {
    ghost use Rattle.std.specs.Prelude.{◌≡◌, length};
    ghost use Rattle.sms_join.specs.OpenSets.Places.{filled as come};
    ghost use Rattle.sms_join.specs.Inside.Slots.{SlotValue};

    ghost Value = { SlotValue };

    ghost view = { λ s. record {
      opened = s.opened;
      turn = s.turn;
      seat = s.seat;
      places = s.places.items;
    } };

    ghost invariant = { λ s. s.filled ≡ length (come s.places.items) };
}

/// As many places as `count` says, all empty.
fn empty_places(alloc: Global, count: usize) -> Result<Vec<Option<Units>>, AllocError>
    ensures { IfOk result (λ places. places.items ≡ replicate count None) }
{
    let mut places = Vec::with_capacity(alloc, count)?;
    for place in 0..count {
        places.push(None)?;
    }
    Ok(places)
}

/// A place for each piece of a set, of which one has come.
pub(crate) fn places_with(
    alloc: Global,
    maximum: u8,
    sequence: u8,
    units: Units,
) -> Result<Vec<Option<Units>>, AllocError>
    requires first { 0 < sequence }
    requires last { sequence ≤ maximum }
    ensures { IfOk result (λ places. places.items ≡ first_places maximum sequence units) }
{
    let mut places = empty_places(alloc, usize::from(maximum))?;
    places[usize::from(sequence) - 1] = Some(units);
    Ok(places)
}

/// How many of the places are filled.
pub(crate) fn count_filled(places: &[Option<Units>]) -> usize
    ensures { result ≡ length (filled places.now) }
{
    let mut count = 0;
    for place in places {
        if place.is_some() {
            count += 1;
        }
    }
    count
}

impl Slot {
    /// The set of these places, of which so many are filled.
    pub(crate) fn new(
        opened: u64,
        turn: u64,
        seat: usize,
        count: usize,
        places: Vec<Option<Units>>,
    ) -> Slot
        requires { count ≡ length (filled places.items) }
        ensures { result ≡ record {
          opened = opened;
          turn = turn;
          seat = seat;
          places = places.items;
        } }
    {
        Slot {
            opened,
            turn,
            seat,
            filled: count,
            places,
        }
    }

    /// Whether it was opened too long ago.
    pub(crate) fn is_old(&self, age: Age) -> bool
        ensures { result ≡ nat_le (self.now.opened + age.longest) age.now }
    {
        age.is_past(self.opened)
    }

    /// How many sets had been opened before.
    pub(crate) fn turn(&self) -> u64
        ensures { result ≡ self.now.turn }
    {
        self.turn
    }

    /// At which seat of the line its opening stands.
    pub(crate) fn seat(&self) -> usize
        ensures { result ≡ self.now.seat }
    {
        self.seat
    }

    /// Its opening stands at this seat from now on.
    pub(crate) fn take_seat(&mut self, seat: usize)
        ensures { self.new ≡ record self.old { seat = seat } }
    {
        self.seat = seat;
    }

    /// When it was opened.
    pub(crate) fn opened(&self) -> u64
        ensures { result ≡ self.now.opened }
    {
        self.opened
    }

    /// How many pieces have come.
    pub(crate) fn count(&self) -> usize
        ensures { result ≡ length (filled self.now.places) }
    {
        self.filled
    }

    /// Whether this piece has come.
    pub(crate) fn has(&self, sequence: u8) -> bool
        requires first { 0 < sequence }
        requires last { sequence ≤ length self.now.places }
        ensures { result ≡ is_in sequence (filled_from 1 self.now.places) }
    {
        self.places[usize::from(sequence) - 1].is_some()
    }

    /// The units of this piece, where it has come.
    pub(crate) fn units(&self, sequence: u8) -> Option<&Units>
        requires first { 0 < sequence }
        requires last { sequence ≤ length self.now.places }
        ensures { option_copied result
            ≡ units_for sequence (filled_from 1 self.now.places) (filled self.now.places) }
    {
        self.places[usize::from(sequence) - 1].as_ref()
    }

    /// Whether all pieces but one have come.
    pub(crate) fn lacks_one(&self) -> bool
        ensures { result ≡ (suc (length (filled self.now.places)) == length self.now.places) }
    {
        self.filled + 1 == self.places.len()
    }

    /// Adds a piece that has not come. It takes no memory.
    pub(crate) fn put(&mut self, sequence: u8, units: Units)
        requires first { 0 < sequence }
        requires last { sequence ≤ length self.old.places }
        requires missing { is_in sequence (filled_from 1 self.old.places) ≡ false }
        ensures { self.new ≡ record self.old {
          places = set self.old.places (sequence - 1) (Some units);
        } }
    {
        self.places[usize::from(sequence) - 1] = Some(units);
        self.filled += 1;
    }

    /// The text of the pieces, with these units at each place that is empty.
    pub(crate) fn text_with(&self, alloc: Global, units: &Units) -> Result<String, AllocError>
        ensures { IfOk result (λ text. chars (string_bytes text)
            ≡ text_of_segments (filled_with units.now self.now.places)) }
    {
        let pieces = lend_with(alloc, &self.places, units)?;
        read_lent(alloc, &pieces)
    }
}
