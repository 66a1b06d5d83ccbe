//! A joiner of segments.

ghost use Rattle.std.specs.Prelude.{◌≡◌, ℕ, ◌<◌, ◌≤◌, [], None, IfOk, OnOk, OnErr};
ghost use Rattle.sms_join.specs.declared.units.Units.{Units as TheUnits};
ghost use Rattle.sms_join.specs.Joiner.Aging.{aged};
ghost use Rattle.sms_join.specs.Joiner.Finishing.{would_finish};
ghost use Rattle.sms_join.specs.Piece.{piece_of};
ghost use Rattle.sms_tpdu.specs.UserData.ConcatenationFound.{IsPlace};
ghost use Rattle.sms_join.specs.Joiner.Sets.{open_sets};
ghost use Rattle.sms_join.specs.Joiner.{new_joiner, offered};
ghost use Rattle.sms_join.specs.Joiner.Value.{SameLimits};
ghost use Rattle.sms_join.specs.Joiner.Same.{IsSame};
ghost use Rattle.sms_join.specs.Joiner.Offering.{Says};
ghost use Rattle.sms_join.specs.OpenSets.{all_pieces, AreOpen};
ghost use Rattle.sms_join.specs.OpenSets.Offered.{TellsOffer};
ghost use Rattle.sms_join.specs.OpenSets.Told.{first_from, old_sets, young_sets, AreFor, RiseInTurn};

use crate::age::Age;
use crate::hashing::Hashing;
use crate::keeper::Keeper;
use crate::offer::{Offer, OfferFault};
use crate::open_set::OpenSet;
use crate::told_sets::ToldSets;
use crate::units::Units;
use sms_field::{Address, Stamp};
use sms_tpdu::Concat;
use std::alloc::{AllocError, Global};
use std::marker::Model;

/// Joins the segments of messages (3GPP TS 23.040, 9.2.3.24.1 and 9.2.3.24.8).
///
/// It keeps the segments of messages that are not whole, and remembers which messages finished
/// last, so that none finishes twice.
#[derive(Drop)]
pub struct Joiner {
    keeper: Keeper,
}

impl Model for Joiner {
    ghost use Rattle.sms_join.specs.Joiner.Value.{JoinerValue};
    ghost use Rattle.std.specs.Prelude.{None};
    ghost use Rattle.sms_join.specs.Inside.Keeping.{in_order, AreKeptFor};

    ghost Value = { JoinerValue };

    ghost view = { λ j. in_order j.keeper };

    ghost invariant = { λ j. AreKeptFor None j.keeper.holds.kept };
}

impl Joiner {
    /// A joiner that holds nothing, for at most `open_max` open sets and `remembered` keys. Both
    /// must be above 0. It makes the room for the keys.
    #[tactic(auto, unfolding(crate::specs::Joiner::new_joiner))]
    pub fn new(alloc: Global, open_max: usize, remembered: usize) -> Result<Joiner, AllocError>
        requires sets { 0 < open_max }
        requires keys { 0 < remembered }
        ensures { IfOk result (λ joiner. joiner ≡ record {
          open_max = open_max;
          remembered = remembered;
          holds = new_joiner;
          told = [];
        }) }
    {
        let keeper = Keeper::new(alloc, open_max, remembered, Hashing::Fixed)?;
        Ok(Joiner { keeper })
    }

    /// The same, whose tables hash with a seed: whoever sends and does not know it cannot pick keys
    /// that lie together. It answers as one without.
    #[tactic(auto, unfolding(crate::specs::Joiner::new_joiner))]
    pub fn with_seed(
        alloc: Global,
        open_max: usize,
        remembered: usize,
        seed: u128,
    ) -> Result<Joiner, AllocError>
        requires sets { 0 < open_max }
        requires keys { 0 < remembered }
        ensures { IfOk result (λ joiner. joiner ≡ record {
          open_max = open_max;
          remembered = remembered;
          holds = new_joiner;
          told = [];
        }) }
    {
        let keeper = Keeper::new(alloc, open_max, remembered, Hashing::seeded(seed)?)?;
        Ok(Joiner { keeper })
    }

    /// Takes a message or a segment: the moment, whom it is from (TP-OA), its time stamp (TP-SCTS),
    /// its place among the segments of its message, if it is one, and its units. The moment is in
    /// seconds from the start of 2000, like that of `age`. A place has a sequence from 1 to its
    /// maximum, and with `Width::Eight` a reference below 256.
    ///
    /// A segment whose set is not whole is kept; the last one finishes the set with its text. A
    /// piece that is there already, or whose set is among those that finished last, is a repeat. A
    /// segment that would open a set is refused where as many sets are open as may be; a piece that
    /// opens a set, or makes one whole, is refused where memory runs out. After a refusal the same
    /// piece may be offered again.
    pub fn offer(
        &mut self,
        now: u64,
        origin: &Address,
        stamp: Stamp,
        concat: Option<Concat>,
        units: Units,
    ) -> Result<Offer, OfferFault>
        requires { IsPlace concat }
        ensures says { let piece = piece_of now origin.now stamp concat units in
            Says self.old.open_max self.old.holds piece result }
        ensures holds { let piece = piece_of now origin.now stamp concat units in
            OnOk result (IsSame self.new.holds
            (offered self.old.open_max self.old.remembered self.old.holds piece)) }
        ensures told { let piece = piece_of now origin.now stamp concat units in
            IfOk result (TellsOffer self.old.told self.new.told piece) }
        ensures limits { SameLimits self.new self.old }
        ensures refused { OnErr result (self.new ≡ self.old) }
    {
        self.keeper.have_kept();
        let answer = self.keeper.offer(now, None, origin, stamp, concat, units);
        self.keeper.have_kept();
        answer
    }

    /// How many sets are open: never more than may be.
    pub fn open_count(&self) -> usize
        ensures count { result ≡ open_sets self.now.holds.kept }
        ensures few { result ≤ self.now.open_max }
    {
        self.keeper.have_kept();
        self.keeper.open_count()
    }

    /// The open sets, one after another as they were opened. It takes no memory.
    pub fn open_sets(&self) -> ToldSets<'_>
        ensures told { result ≡ self.now.told }
        ensures pieces { all_pieces self.now.told ≡ self.now.holds.kept }
        ensures open { AreOpen self.now.told }
        ensures rise { RiseInTurn self.now.told }
        ensures recipients { AreFor None self.now.told }
    {
        self.keeper.have_kept();
        self.keeper.told()
    }

    /// The first open set, in order of opening, whose number of opening is this one or above: none
    /// where there is none. From 0 on it is the first of all, and from the number of a set and one
    /// more the one that was opened next. It takes no memory.
    pub fn open_from(&self, turn: u64) -> Option<OpenSet<'_>>
        ensures first { result ≡ first_from turn self.now.told }
        ensures pieces { all_pieces self.now.told ≡ self.now.holds.kept }
        ensures open { AreOpen self.now.told }
        ensures rise { RiseInTurn self.now.told }
        ensures recipients { AreFor None self.now.told }
    {
        self.keeper.have_kept();
        self.keeper.open_from(turn)
    }

    /// The same of those alone that `age` drops at a moment: whose first piece came 604,800 seconds
    /// before it, or earlier. It takes no memory.
    pub fn old_from(&self, turn: u64, now: u64) -> Option<OpenSet<'_>>
        ensures { result ≡ first_from turn (old_sets now self.now.told) }
    {
        self.keeper.have_kept();
        self.keeper.old_from(turn, Age::week(now))
    }

    /// Whether such a message or segment would finish its set. Its place, if it has one, is as for
    /// `offer`. It takes no memory.
    pub fn would_finish(&self, origin: &Address, stamp: Stamp, concat: Option<Concat>) -> bool
        requires { IsPlace concat }
        ensures { (now : ℕ) (units : TheUnits)
            → result
            ≡ would_finish self.now.holds (piece_of now origin.now stamp concat units) }
    {
        self.keeper.have_kept();
        self.keeper.would_finish(None, origin, stamp, concat)
    }

    /// Drops the sets whose first piece came 604,800 seconds before the moment, or earlier. It
    /// takes no memory.
    pub fn age(&mut self, now: u64)
        ensures holds { IsSame self.new.holds (aged now self.old.holds) }
        ensures told { self.new.told ≡ young_sets now self.old.told }
        ensures order { self.new.holds.kept ≡ (aged now self.old.holds).kept }
        ensures limits { SameLimits self.new self.old }
    {
        self.keeper.have_kept();
        self.keeper.age(Age::week(now));
        self.keeper.have_kept();
    }
}
