//! What a joiner keeps, in the order of its table.

mod putting_back;

ghost use Rattle.std.specs.Prelude.{◌≡◌, ℕ, ◌<◌, ◌≤◌, ◌-◌, ◌^◌, Bool, false, [], ◌∷◌, take, slice_get, option_copied, IfOk, OnOk, OnErr};
ghost use Rattle.sms_join.specs.declared.units.Units.{Units as TheUnits};
ghost use Rattle.sms_join.specs.Joiner.Finishing.{would_finish};
ghost use Rattle.sms_join.specs.Piece.{piece_to, key_to};
ghost use Rattle.sms_tpdu.specs.UserData.ConcatenationFound.{IsPlace};
ghost use Rattle.sms_join.specs.Joiner.Sets.{is_open, open_sets};
ghost use Rattle.sms_join.specs.Joiner.{Finished, new_joiner, is_among, offered};
ghost use Rattle.sms_join.specs.Joiner.Value.{SameLimits};
ghost use Rattle.sms_join.specs.Joiner.Same.{IsSame};
ghost use Rattle.sms_join.specs.Joiner.Offering.{Says, SaysAnswer};
ghost use Rattle.sms_join.specs.OpenSets.Offered.{TellsOffer};
ghost use Rattle.sms_join.specs.OpenSets.Told.{first_from, AreUnder};
ghost use Rattle.sms_join.specs.Inside.Ages.{old_of, young_of};
ghost use Rattle.sms_join.specs.Inside.Keeping.{IsKept};
ghost use Rattle.sms_join.specs.Inside.Turns.{arranged};

use crate::age::Age;
use crate::hashing::Hashing;
use crate::key::Key;
use crate::last_keys::LastKeys;
use crate::offer::{Offer, OfferFault};
use crate::open_set::OpenSet;
use crate::open_sets::OpenSets;
use crate::place::{sequence_of, size_of};
use crate::reading::text_of_one;
use crate::told_sets::ToldSets;
use crate::units::Units;
use sms_field::{Address, Stamp};
use sms_tpdu::Concat;
use std::alloc::{AllocError, Global};
use std::marker::Model;

/// The segments of messages that are not whole, and which messages finished last. Contracts see the
/// open sets in the order of their table.
#[derive(Drop)]
pub(crate) struct Keeper {
    alloc: Global,
    open_max: usize,
    sets: OpenSets,
    finished: LastKeys,
}

impl Model for Keeper {
    ghost use Rattle.std.specs.Prelude.{◌≤◌, length};
    ghost use Rattle.sms_join.specs.Joiner.Value.{JoinerValue};
    ghost use Rattle.sms_join.specs.OpenSets.{all_pieces, AreOpen};

    ghost Value = { JoinerValue };

    ghost view = { λ j. record {
      open_max = j.open_max;
      remembered = j.finished.limit;
      holds = record { kept = all_pieces j.sets; finished = j.finished.keys };
      told = j.sets;
    } };

    ghost invariant = { λ j. AreOpen j.sets × (length j.sets ≤ j.open_max) };
}

impl Keeper {
    /// None of either, in tables that hash so.
    #[tactic(auto, unfolding(crate::specs::Joiner::new_joiner))]
    pub(crate) fn new(
        alloc: Global,
        open_max: usize,
        remembered: usize,
        hashing: Hashing,
    ) -> Result<Keeper, AllocError>
        requires sets { 0 < open_max }
        requires keys { 0 < remembered }
        ensures { IfOk result (λ keeper. keeper ≡ record {
          open_max = open_max;
          remembered = remembered;
          holds = new_joiner;
          told = [];
        }) }
    {
        Ok(Keeper {
            alloc,
            open_max,
            sets: OpenSets::new(alloc, hashing),
            finished: LastKeys::new(alloc, remembered, hashing)?,
        })
    }

    /// That the sets are open, and were opened one after another. It does nothing.
    pub(crate) fn have_kept(&self)
        ensures { IsKept self.now }
    {
        self.sets.have_turns();
    }

    /// That there is a number after that of each opening. It does nothing.
    pub(crate) fn have_numbers(&self)
        ensures { AreUnder (2 ^ 64 - 1) (arranged self.now.told) }
    {
        self.sets.have_numbers();
    }

    /// As `Joiner::offer` says.
    pub(crate) fn offer(
        &mut self,
        now: u64,
        to: Option<&Address>,
        origin: &Address,
        stamp: Stamp,
        concat: Option<Concat>,
        units: Units,
    ) -> Result<Offer, OfferFault>
        requires { IsPlace concat }
        ensures says { let piece =
            piece_to now (option_copied to.entry) origin.now stamp concat units in
            Says self.old.open_max self.old.holds piece result }
        ensures holds { let piece =
            piece_to now (option_copied to.entry) origin.now stamp concat units in
            OnOk result (IsSame self.new.holds
            (offered self.old.open_max self.old.remembered self.old.holds piece)) }
        ensures told { let piece =
            piece_to now (option_copied to.entry) origin.now stamp concat units in
            IfOk result (TellsOffer (arranged self.old.told) (arranged self.new.told) piece) }
        ensures limits { SameLimits self.new self.old }
        ensures refused { OnErr result (self.new ≡ self.old) }
    {
        self.sets.have_turns();
        if self.finished.contains(to, origin, stamp, concat) {
            return Ok(Offer::Repeat);
        }
        let Some(index) = self.sets.find(self.alloc, to, origin, stamp, concat) else {
            return self.begin(now, to, origin, stamp, concat, units);
        };
        let sequence = sequence_of(concat);
        if self.sets.has(index, sequence) {
            return Ok(Offer::Repeat);
        }
        if !self.sets.lacks_one(index) {
            self.sets.put(index, sequence, units);
            return Ok(Offer::Kept);
        }
        let text = self.sets.text_with(self.alloc, index, units)?;
        let key = Key::of(self.alloc, to, origin, stamp, concat);
        self.finished.push(key);
        self.sets.remove(index);
        Ok(Offer::Finished(text))
    }

    /// Gives the text of a message in one piece, and keeps and remembers nothing of it.
    pub(crate) fn pass(&self, units: Units) -> Result<Offer, OfferFault>
        ensures { (first : Bool) → SaysAnswer (Finished (units ∷ [])) first result }
    {
        let text = text_of_one(self.alloc, units)?;
        Ok(Offer::Finished(text))
    }

    /// How many sets are open.
    pub(crate) fn open_count(&self) -> usize
        ensures count { result ≡ open_sets self.now.holds.kept }
        ensures few { result ≤ self.now.open_max }
    {
        self.sets.count()
    }

    /// All sets, in order of opening.
    pub(crate) fn told(&self) -> ToldSets<'_>
        ensures { result ≡ arranged self.now.told }
    {
        self.sets.told()
    }

    /// The first set of the numbers of opening from this one on.
    pub(crate) fn open_from(&self, turn: u64) -> Option<OpenSet<'_>>
        ensures { result ≡ first_from turn (arranged self.now.told) }
    {
        self.sets.open_from(turn)
    }

    /// The first old one of the numbers of opening from this one on.
    pub(crate) fn old_from(&self, turn: u64, age: Age) -> Option<OpenSet<'_>>
        ensures { result ≡ first_from turn (old_of age (arranged self.now.told)) }
    {
        self.sets.old_from(turn, age)
    }

    /// As `Joiner::would_finish` says.
    pub(crate) fn would_finish(
        &self,
        to: Option<&Address>,
        origin: &Address,
        stamp: Stamp,
        concat: Option<Concat>,
    ) -> bool
        requires { IsPlace concat }
        ensures { (now : ℕ) (units : TheUnits)
            → result
            ≡ would_finish self.now.holds
            (piece_to now (option_copied to.entry) origin.now stamp concat units) }
    {
        if self.finished.contains(to, origin, stamp, concat) {
            return false;
        }
        let Some(index) = self.sets.find(self.alloc, to, origin, stamp, concat) else {
            return size_of(concat) == 1;
        };
        !self.sets.has(index, sequence_of(concat)) && self.sets.lacks_one(index)
    }

    /// Drops the sets that are too old.
    pub(crate) fn age(&mut self, age: Age)
        ensures finished { self.new.holds.finished ≡ self.old.holds.finished }
        ensures limits { SameLimits self.new self.old }
        ensures told { arranged self.new.told ≡ young_of age (arranged self.old.told) }
    {
        self.sets.have_turns();
        self.sets.age(age);
    }

    /// The key that finished before so many others.
    pub(crate) fn key_at(&self, after: usize) -> Option<&Key>
        ensures { option_copied result ≡ slice_get self.now.holds.finished after }
    {
        self.finished.get(after)
    }

    /// Forgets all keys but so many of those that finished last.
    pub(crate) fn keep(&mut self, count: usize)
        ensures { self.new ≡ record {
          open_max = self.old.open_max;
          remembered = self.old.remembered;
          holds = record {
            kept = self.old.holds.kept;
            finished = take count self.old.holds.finished;
          };
          told = self.old.told;
        } }
    {
        self.finished.keep(count);
    }

    /// Takes the first piece of a set.
    fn begin(
        &mut self,
        now: u64,
        to: Option<&Address>,
        origin: &Address,
        stamp: Stamp,
        concat: Option<Concat>,
        units: Units,
    ) -> Result<Offer, OfferFault>
        requires place { IsPlace concat }
        requires fresh { is_among self.old.holds.finished
            (key_to (option_copied to) origin.now stamp concat) ≡ false }
        requires closed { is_open self.old.holds.kept
            (key_to (option_copied to) origin.now stamp concat) ≡ false }
        ensures says { let piece =
            piece_to now (option_copied to.entry) origin.now stamp concat units in
            Says self.old.open_max self.old.holds piece result }
        ensures holds { let piece =
            piece_to now (option_copied to.entry) origin.now stamp concat units in
            OnOk result (IsSame self.new.holds
            (offered self.old.open_max self.old.remembered self.old.holds piece)) }
        ensures told { let piece =
            piece_to now (option_copied to.entry) origin.now stamp concat units in
            IfOk result (TellsOffer (arranged self.old.told) (arranged self.new.told) piece) }
        ensures limits { SameLimits self.new self.old }
        ensures refused { OnErr result (self.new ≡ self.old) }
    {
        if size_of(concat) == 1 {
            let text = text_of_one(self.alloc, units)?;
            let key = Key::of(self.alloc, to, origin, stamp, concat);
            self.finished.push(key);
            return Ok(Offer::Finished(text));
        }
        if self.sets.count() >= self.open_max {
            return Err(OfferFault::TooManyOpen);
        }
        let key = Key::of(self.alloc, to, origin, stamp, concat);
        self.sets
            .open(self.alloc, key, now, sequence_of(concat), units)?;
        Ok(Offer::Kept)
    }
}
