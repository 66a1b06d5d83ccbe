//! A joiner of segments for many recipients.

mod putting_back;
mod recalling;

ghost use Rattle.std.specs.Prelude.{◌≡◌, ℕ, ◌<◌, ◌≤◌, ◌-◌, ◌^◌, [], length, option_copied, true, IfOk, OnOk, OnErr};
ghost use Rattle.sms_join.specs.declared.units.Units.{Units as TheUnits};
ghost use Rattle.sms_join.specs.Piece.{piece_to};
ghost use Rattle.sms_tpdu.specs.UserData.ConcatenationFound.{IsPlace};
ghost use Rattle.sms_join.specs.Joiner.Sets.{open_sets};
ghost use Rattle.sms_join.specs.Joiner.{new_joiner};
ghost use Rattle.sms_join.specs.Joiner.Same.{IsSame};
ghost use Rattle.sms_join.specs.Joiner.Offering.{is_first, SaysAnswer};
ghost use Rattle.sms_join.specs.Gateway.Answers.{is_passed, gateway_aged, gateway_answer, gateway_finishings, gateway_offered, gateway_would_finish};
ghost use Rattle.sms_join.specs.Gateway.Distinct.{AreDistinct};
ghost use Rattle.sms_join.specs.Gateway.Finishings.{finishings_at, Fall};
ghost use Rattle.sms_join.specs.Gateway.Remembered.{IsRememberedAt};
ghost use Rattle.sms_join.specs.OpenSets.{all_pieces, AreOpen};
ghost use Rattle.sms_join.specs.OpenSets.Offered.{TellsOffer};
ghost use Rattle.sms_join.specs.OpenSets.Told.{first_from, old_after, young_after, AreUnder, RiseInTurn};

use crate::age::Age;
use crate::finishings::{forget_by, note_answer};
pub use crate::gateway::recalling::Recalling;
use crate::gateway_limits::{Alone, GatewayLimits};
use crate::hashing::Hashing;
use crate::keeper::Keeper;
use crate::key::Key;
use crate::offer::{Offer, OfferFault};
use crate::open_set::OpenSet;
use crate::told_sets::ToldSets;
use crate::units::Units;
use circular_buffer::HeapCircularBuffer;
use sms_field::{Address, Stamp};
use sms_tpdu::Concat;
use std::alloc::{AllocError, Global};
use std::marker::Model;

/// A key that is remembered.
#[derive(Clone, Copy)]
pub struct RememberedKey<'a> {
    /// What the pieces of the message shared.
    pub key: &'a Key,
    /// When it finished, in seconds from the start of 2000.
    pub moment: u64,
}

/// Joins the segments of messages for many recipients (3GPP TS 23.040, 9.2.3.24.1 and
/// 9.2.3.24.8), as a gateway gets them in one stream.
///
/// It is a `Joiner` whose sets are known by their recipient too: segments for one recipient are
/// never joined into a text for another. A recipient is an address as the gateway has it; messages
/// without one are as for a recipient of their own. The limits are for all recipients together.
#[derive(Drop)]
pub struct Gateway {
    keeper: Keeper,
    alone: Alone,
    open_for: u64,
    remember_for: Option<u64>,
    /// When the keys that are remembered finished; the newest is the first.
    finishings: HeapCircularBuffer<u64>,
}

impl Model for Gateway {
    ghost use Rattle.sms_join.specs.Gateway.Value.{GatewayValue};
    ghost use Rattle.sms_join.specs.Inside.Gateways.{gateway_of, AreTimed};
    ghost use Rattle.sms_join.specs.Inside.Keeping.{in_order};
    ghost use Rattle.sms_join.specs.Gateway.Distinct.{AreDistinct};

    ghost Value = { GatewayValue };

    ghost view = { λ g. gateway_of g.alone g.open_for g.remember_for (in_order g.keeper)
        g.finishings.items };

    ghost invariant = { λ g. AreTimed g.keeper g.finishings.items g.finishings.capacity
        × AreDistinct g.keeper.holds };
}

impl Gateway {
    /// One that holds nothing, with these limits. It makes the room for the keys.
    pub fn new(alloc: Global, limits: GatewayLimits) -> Result<Gateway, AllocError>
        ensures { IfOk result (λ gateway. gateway ≡ record {
          limits = limits;
          holds = new_joiner;
          told = [];
          finishings = [];
        }) }
    {
        Gateway::hashing(alloc, limits, Hashing::Fixed)
    }

    /// The same, whose tables hash with a seed: whoever sends and does not know it cannot pick keys
    /// that lie together. It answers as one without.
    pub fn with_seed(
        alloc: Global,
        limits: GatewayLimits,
        seed: u128,
    ) -> Result<Gateway, AllocError>
        ensures { IfOk result (λ gateway. gateway ≡ record {
          limits = limits;
          holds = new_joiner;
          told = [];
          finishings = [];
        }) }
    {
        let hashing = Hashing::seeded(seed)?;
        Gateway::hashing(alloc, limits, hashing)
    }

    /// One whose tables hash so.
    #[tactic(auto, unfolding(crate::specs::Joiner::new_joiner))]
    fn hashing(
        alloc: Global,
        limits: GatewayLimits,
        hashing: Hashing,
    ) -> Result<Gateway, AllocError>
        ensures { IfOk result (λ gateway. gateway ≡ record {
          limits = limits;
          holds = new_joiner;
          told = [];
          finishings = [];
        }) }
    {
        let keeper = Keeper::new(alloc, limits.open_max(), limits.remembered(), hashing)?;
        let finishings = HeapCircularBuffer::with_capacity(alloc, limits.remembered())?;
        Ok(Gateway {
            keeper,
            alone: limits.of_alone(),
            open_for: limits.longest_open(),
            remember_for: limits.longest_remembered(),
            finishings,
        })
    }

    /// Takes a message or a segment: the moment, for whom it is, if that is known, whom it is from
    /// (TP-OA), its time stamp (TP-SCTS), its place among the segments of its message, if it is
    /// one, and its units. The moment is in seconds from the start of 2000, like that of `age`. A
    /// place has a sequence from 1 to its maximum, and with `Width::Eight` a reference below 256.
    ///
    /// It is answered as by a `Joiner`, where recipients tell sets apart. With `Alone::Passed` a
    /// message without a place finishes each time with its text, and nothing is kept or remembered
    /// of it. After a refusal the same piece may be offered again.
    pub fn offer(
        &mut self,
        now: u64,
        recipient: Option<&Address>,
        origin: &Address,
        stamp: Stamp,
        concat: Option<Concat>,
        units: Units,
    ) -> Result<Offer, OfferFault>
        requires { IsPlace concat }
        ensures says { let piece =
            piece_to now (option_copied recipient.entry) origin.now stamp concat units in
            SaysAnswer (gateway_answer self.old.limits self.old.holds piece)
            (is_first self.old.holds piece) result }
        ensures holds { let piece =
            piece_to now (option_copied recipient.entry) origin.now stamp concat units in
            OnOk result (IsSame self.new.holds
            (gateway_offered self.old.limits self.old.holds piece)) }
        ensures told { let piece =
            piece_to now (option_copied recipient.entry) origin.now stamp concat units in
            IfOk result (TellsOffer self.old.told self.new.told piece) }
        ensures finishings { let piece =
            piece_to now (option_copied recipient.entry) origin.now stamp concat units in
            OnOk result (self.new.finishings ≡ gateway_finishings self.old.limits self.old.holds
            self.old.finishings piece) }
        ensures passed { let piece =
            piece_to now (option_copied recipient.entry) origin.now stamp concat units in
            is_passed self.old.limits.alone piece.key ≡ true → self.new ≡ self.old }
        ensures limits { self.new.limits ≡ self.old.limits }
        ensures refused { OnErr result (self.new ≡ self.old) }
    {
        self.keeper.have_kept();
        if self.alone.passes(concat) {
            return self.keeper.pass(units);
        }
        let answer = self
            .keeper
            .offer(now, recipient, origin, stamp, concat, units);
        self.keeper.have_kept();
        note_answer(&mut self.finishings, now, &answer);
        answer
    }

    /// How many sets are open, of all recipients: never more than may be. There is a number after
    /// that of each opening.
    pub fn open_count(&self) -> usize
        ensures count { result ≡ open_sets self.now.holds.kept }
        ensures few { result ≤ self.now.limits.open_max }
        ensures told { result ≡ length self.now.told }
        ensures turns { AreUnder (2 ^ 64 - 1) self.now.told }
    {
        self.keeper.have_kept();
        self.keeper.have_numbers();
        self.keeper.open_count()
    }

    /// The open sets of all recipients, one after another as they were opened. It takes no memory.
    pub fn open_sets(&self) -> ToldSets<'_>
        ensures told { result ≡ self.now.told }
        ensures pieces { all_pieces self.now.told ≡ self.now.holds.kept }
        ensures open { AreOpen self.now.told }
        ensures rise { RiseInTurn self.now.told }
    {
        self.keeper.have_kept();
        self.keeper.told()
    }

    /// The first open set, in order of opening, whose number of opening is this one or above: none
    /// where there is none. From 0 on it is the first of all, and from the number of a set and one
    /// more the one that was opened next. It takes no memory.
    pub fn open_from(&self, turn: u64) -> Option<OpenSet<'_>>
        ensures first { result ≡ first_from turn self.now.told }
        ensures pieces { all_pieces self.now.told ≡ self.now.holds.kept }
        ensures open { AreOpen self.now.told }
        ensures rise { RiseInTurn self.now.told }
    {
        self.keeper.have_kept();
        self.keeper.open_from(turn)
    }

    /// The same of those alone that `age` drops at a moment. It takes no memory.
    pub fn old_from(&self, turn: u64, now: u64) -> Option<OpenSet<'_>>
        ensures { result
            ≡ first_from turn (old_after self.now.limits.open_for now self.now.told) }
    {
        self.keeper.have_kept();
        let longest = self.open_for;
        self.keeper.old_from(turn, Age { now, longest })
    }

    /// How many keys are remembered: never more than may be.
    pub fn remembered_count(&self) -> usize
        ensures count { result ≡ length self.now.holds.finished }
        ensures few { result ≤ self.now.limits.remembered }
        ensures moments { length self.now.finishings ≡ length self.now.holds.finished }
        ensures fall { Fall self.now.finishings }
        ensures distinct { AreDistinct self.now.holds }
    {
        self.keeper.have_kept();
        self.finishings.len()
    }

    /// The key of a message that finished before so many others, and the moment at which it counts
    /// as finished; none where as many are not remembered. It takes no memory.
    pub fn remembered_at(&self, after: usize) -> Option<RememberedKey<'_>>
        ensures { IsRememberedAt self.now after result }
    {
        let key = self.keeper.key_at(after)?;
        let moment = self.finishings.get(after)?;
        Some(RememberedKey {
            key,
            moment: *moment,
        })
    }

    /// Whether such a message or segment would finish its set. Its place, if it has one, is as for
    /// `offer`. It takes no memory.
    pub fn would_finish(
        &self,
        recipient: Option<&Address>,
        origin: &Address,
        stamp: Stamp,
        concat: Option<Concat>,
    ) -> bool
        requires { IsPlace concat }
        ensures { (now : ℕ) (units : TheUnits)
            → result ≡ gateway_would_finish self.now.limits self.now.holds
            (piece_to now (option_copied recipient.entry) origin.now stamp concat units) }
    {
        self.keeper.have_kept();
        self.alone.passes(concat) || self.keeper.would_finish(recipient, origin, stamp, concat)
    }

    /// Drops the sets whose first piece came before the moment by as many seconds as a set may be
    /// open, or more, and forgets the keys whose messages finished before it by as many seconds as
    /// a key is remembered, or more. It takes no memory.
    pub fn age(&mut self, now: u64)
        ensures holds { IsSame self.new.holds (gateway_aged self.old now) }
        ensures told { self.new.told
            ≡ young_after self.old.limits.open_for now self.old.told }
        ensures order { self.new.holds.kept ≡ (gateway_aged self.old now).kept }
        ensures finishings { self.new.finishings
            ≡ finishings_at self.old.limits.remember_for now self.old.finishings }
        ensures limits { self.new.limits ≡ self.old.limits }
    {
        self.keeper.have_kept();
        let longest = self.open_for;
        self.keeper.age(Age { now, longest });
        forget_by(&mut self.finishings, self.remember_for, now);
        self.keeper.keep(self.finishings.len());
        self.keeper.have_kept();
    }
}
