//! The keys that a joiner remembered before, put back all together.

ghost use Rattle.std.specs.Prelude.{◌≡◌, ◌<◌, [], length, IfOk, MatchOption};
ghost use Rattle.sms_join.specs.Joiner.{new_joiner};
ghost use Rattle.sms_join.specs.Gateway.Distinct.{NoneTwice};
ghost use Rattle.sms_join.specs.Gateway.Remembering.{remembering};

use crate::finishings::note_finishing;
use crate::gateway::Gateway;
use crate::gateway_limits::GatewayLimits;
use crate::hashing::Hashing;
use crate::keeper::Keeper;
use crate::key::Key;
use crate::last_keys::GatheredKeys;
use circular_buffer::HeapCircularBuffer;
use std::alloc::{AllocError, Global};
use std::marker::Model;

/// A joiner for many recipients while the keys that it remembered before are put back, one after
/// another, before anything else. Whether a key came twice is told at the end, of all at once,
/// which takes less time than `Gateway::remember_new` for each. To clauses it is the joiner that
/// remembers these keys.
#[derive(Drop)]
pub struct Recalling {
    alloc: Global,
    limits: GatewayLimits,
    hashing: Hashing,
    keys: GatheredKeys,
    /// When they finished; the newest is the first.
    finishings: HeapCircularBuffer<u64>,
}

impl Model for Recalling {
    ghost use Rattle.std.specs.Prelude.{◌≡◌, []};
    ghost use Rattle.sms_join.specs.Gateway.Value.{GatewayValue};
    ghost use Rattle.sms_join.specs.Inside.Gateways.{AreTimed};
    ghost use Rattle.sms_join.specs.Inside.Keeping.{with_keys};

    ghost Value = { GatewayValue };

    ghost view = { λ r. record {
      limits = r.limits;
      holds = record { kept = []; finished = r.keys.keys };
      told = [];
      finishings = r.finishings.items;
    } };

    ghost invariant = { λ r. AreTimed (with_keys r.limits.open_max r.keys) r.finishings.items
        r.finishings.capacity × (r.keys.limit ≡ r.limits.remembered) };
}

impl Recalling {
    /// One that holds nothing, with these limits. Its tables hash with the seed, if there is one,
    /// as those of `Gateway::with_seed`. It makes the room for the keys.
    #[tactic(auto, unfolding(crate::specs::Joiner::new_joiner))]
    pub fn new(
        alloc: Global,
        limits: GatewayLimits,
        seed: Option<u128>,
    ) -> Result<Recalling, AllocError>
        ensures { IfOk result (λ recalling. recalling ≡ record {
          limits = limits;
          holds = new_joiner;
          told = [];
          finishings = [];
        }) }
    {
        let hashing = match seed {
            None => Hashing::Fixed,
            Some(seed) => Hashing::seeded(seed)?,
        };
        let keys = GatheredKeys::new(alloc, limits.remembered(), hashing)?;
        let finishings = HeapCircularBuffer::with_capacity(alloc, limits.remembered())?;
        Ok(Recalling {
            alloc,
            limits,
            hashing,
            keys,
            finishings,
        })
    }

    /// Remembers the key of a message that finished before, at this moment in seconds from the
    /// start of 2000, as that of the last one. It counts at no earlier moment than the one before
    /// it. Fewer keys are remembered than may be. It takes no memory.
    #[inline(always)]
    pub fn remember(&mut self, key: Key, moment: u64)
        requires { length self.old.holds.finished < self.old.limits.remembered }
        ensures { self.new ≡ remembering self.old key moment }
    {
        self.keys.push(key);
        note_finishing(&mut self.finishings, moment);
    }

    /// The joiner that remembers the keys; none where one of them came twice.
    pub fn end(self) -> Option<Gateway>
        ensures { MatchOption result (NoneTwice self.holds.finished → ⊥)
            (λ gateway. (gateway ≡ self) × NoneTwice self.holds.finished) }
    {
        let Recalling {
            alloc,
            limits,
            hashing,
            keys,
            finishings,
        } = self;
        let keeper = Keeper::with_keys(alloc, limits.open_max(), hashing, keys.end()?);
        Some(Gateway {
            keeper,
            alone: limits.of_alone(),
            open_for: limits.longest_open(),
            remember_for: limits.longest_remembered(),
            finishings,
        })
    }
}
