//! Keys that are remembered again all together.

ghost use Rattle.std.specs.Prelude.{◌≡◌, ◌<◌, [], ◌∷◌, length, IfOk, MatchOption};
ghost use Rattle.sms_join.specs.Gateway.Distinct.{NoneTwice};
ghost use Rattle.sms_join.specs.Inside.Gathered.{gathered_keys, AreGathered};
ghost use Rattle.sms_join.specs.Inside.Remembered.{last_keys};

use crate::hashing::Hashing;
use crate::key::Key;
use crate::key_ring::LooseKeys;
use crate::key_row::KeyRow;
use crate::last_keys::{LastKeys, Remembered};
use std::alloc::{AllocError, Global};
use std::marker::Model;

/// Where the keys lie.
#[derive(Drop)]
enum Gathered {
    /// Where each is looked for as it comes, and it is known whether none has come twice.
    Few { row: KeyRow, none_twice: bool },
    /// Where they are linked once all have come.
    Many(LooseKeys),
}

impl Gathered {
    /// No keys, in the room of what remembers none.
    fn of(keys: Remembered) -> Gathered
        requires { (last_keys keys).keys ≡ [] }
        ensures none { gathered_keys result ≡ record {
          limit = (last_keys keys).limit;
          keys = [];
        } }
        ensures is { AreGathered result }
    {
        match keys {
            Remembered::Few(row) => Gathered::Few {
                row,
                none_twice: true,
            },
            Remembered::Many(ring) => Gathered::Many(LooseKeys::of(ring)),
        }
    }

    /// Adds a key to so many.
    #[inline(always)]
    fn push(&mut self, count: usize, key: Key)
        requires is { AreGathered self.old }
        requires count { length (gathered_keys self.old).keys ≡ count }
        requires room { count < (gathered_keys self.old).limit }
        ensures pushed { gathered_keys self.new ≡ record {
          limit = (gathered_keys self.old).limit;
          keys = key ∷ (gathered_keys self.old).keys;
        } }
        ensures is { AreGathered self.new }
    {
        match self {
            Gathered::Few { row, none_twice } => {
                let (stamp, concat) = key.piece();
                let is_twice = row.contains(count, key.recipient(), key.origin(), stamp, concat);
                *none_twice = *none_twice && !is_twice;
                row.push(key);
            }
            Gathered::Many(keys) => keys.push(key),
        }
    }

    /// The keys where they are looked for, unless one of them has come twice.
    fn end(self) -> Option<Remembered>
        requires { AreGathered self }
        ensures { MatchOption result (NoneTwice (gathered_keys self).keys → ⊥)
            (λ keys. (last_keys keys ≡ gathered_keys self)
            × NoneTwice (gathered_keys self).keys) }
    {
        match self {
            Gathered::Few {
                row,
                none_twice: true,
            } => Some(Remembered::Few(row)),
            Gathered::Few {
                none_twice: false,
                ..
            } => None,
            Gathered::Many(keys) => Some(Remembered::Many(keys.link()?)),
        }
    }
}

/// Keys that are remembered again, as many as the limit at most.
#[derive(Drop)]
pub(crate) struct GatheredKeys {
    keys: Gathered,
    limit: usize,
    count: usize,
}

impl Model for GatheredKeys {
    ghost use Rattle.std.specs.Prelude.{◌≡◌, ◌≤◌, length};
    ghost use Rattle.sms_join.specs.Inside.LastKeys.{LastKeysValue};
    ghost use Rattle.sms_join.specs.Inside.Gathered.{gathered_keys, AreGathered};

    ghost Value = { LastKeysValue };

    ghost view = { λ r. gathered_keys r.keys };

    ghost invariant = { λ r. (r.limit ≡ (gathered_keys r.keys).limit)
        × (r.count ≡ length (gathered_keys r.keys).keys) × (r.count ≤ r.limit)
        × AreGathered r.keys };
}

impl GatheredKeys {
    /// None, with room for the limit.
    pub(crate) fn new(
        alloc: Global,
        limit: usize,
        hashing: Hashing,
    ) -> Result<GatheredKeys, AllocError>
        requires { 0 < limit }
        ensures { IfOk result (λ keys. keys ≡ record { limit = limit; keys = [] }) }
    {
        Ok(GatheredKeys {
            keys: Gathered::of(Remembered::new(alloc, limit, hashing)?),
            limit,
            count: 0,
        })
    }

    /// Adds a key. It takes no memory.
    #[inline(always)]
    pub(crate) fn push(&mut self, key: Key)
        requires { length self.old.keys < self.old.limit }
        ensures { self.new ≡ record {
          limit = self.old.limit;
          keys = key ∷ self.old.keys;
        } }
    {
        self.keys.push(self.count, key);
        self.count += 1;
    }

    /// The keys where they are looked for, unless one of them has come twice.
    pub(crate) fn end(self) -> Option<LastKeys>
        ensures { MatchOption result (NoneTwice self.keys → ⊥)
            (λ keys. (keys ≡ self) × NoneTwice self.keys) }
    {
        let GatheredKeys { keys, limit, count } = self;
        Some(LastKeys {
            keys: keys.end()?,
            limit,
            count,
        })
    }
}
