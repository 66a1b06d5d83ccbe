//! The keys of the last sets that finished.

mod gathered_keys;

ghost use Rattle.std.specs.Prelude.{◌≡◌, ◌<◌, true, false, not, [], ◌∷◌, take, slice_get, option_copied, IfOk};
ghost use Rattle.sms_join.specs.Inside.Remembered.{last_keys};
ghost use Rattle.sms_join.specs.Joiner.{is_among};
ghost use Rattle.sms_join.specs.Piece.{key_to};

use crate::hashing::Hashing;
use crate::key::Key;
use crate::key_ring::{KeyRing, PLACES_MAX};
use crate::key_row::KeyRow;
pub(crate) use crate::last_keys::gathered_keys::GatheredKeys;
use sms_field::{Address, Stamp};
use sms_tpdu::Concat;
use std::alloc::{AllocError, Global};
use std::marker::Model;

/// Up to which limit keys lie in a row, where all their tags are compared at once: that takes no
/// more time than to hash a key.
const FEW_KEYS: usize = 32;

/// Where the keys lie.
#[derive(Drop)]
pub(crate) enum Remembered {
    /// Where they are found by their tags, or looked through one by one.
    Few(KeyRow),
    /// Where they are found by their hashes.
    Many(KeyRing),
}

impl Remembered {
    /// None, with room for the limit.
    fn new(alloc: Global, limit: usize, hashing: Hashing) -> Result<Remembered, AllocError>
        requires { 0 < limit }
        ensures { IfOk result (λ keys. last_keys keys ≡ record { limit = limit; keys = [] }) }
    {
        if limit <= FEW_KEYS || limit > PLACES_MAX {
            Ok(Remembered::Few(KeyRow::new(alloc, limit)?))
        } else {
            Ok(Remembered::Many(KeyRing::new(alloc, limit, hashing)?))
        }
    }

    /// Whether the key of such a message or segment is among the last so many.
    fn contains(
        &self,
        last: usize,
        to: Option<&Address>,
        origin: &Address,
        stamp: Stamp,
        concat: Option<Concat>,
    ) -> bool
        ensures { result ≡ is_among (take last (last_keys self.now).keys)
            (key_to (option_copied to.entry) origin.now stamp concat) }
    {
        match self {
            Remembered::Few(row) => row.contains(last, to, origin, stamp, concat),
            Remembered::Many(ring) => ring.contains(last, to, origin, stamp, concat),
        }
    }

    /// The key that came before so many others.
    fn get(&self, after: usize) -> Option<&Key>
        ensures { option_copied result ≡ slice_get (last_keys self.now).keys after }
    {
        match self {
            Remembered::Few(row) => row.get(after),
            Remembered::Many(ring) => ring.get(after),
        }
    }

    /// Adds a key.
    fn push(&mut self, key: Key)
        ensures { last_keys self.new ≡ record {
          limit = (last_keys self.old).limit;
          keys = take (last_keys self.old).limit (key ∷ (last_keys self.old).keys);
        } }
    {
        match self {
            Remembered::Few(row) => row.push(key),
            Remembered::Many(ring) => ring.push(key),
        }
    }

    /// Adds a key, unless it is among the last so many: whether it was not.
    fn push_new(&mut self, last: usize, key: Key) -> bool
        ensures is_new { result ≡ not (is_among (take last (last_keys self.old).keys) key) }
        ensures added { result ≡ true → last_keys self.new ≡ record {
          limit = (last_keys self.old).limit;
          keys = take (last_keys self.old).limit (key ∷ (last_keys self.old).keys);
        } }
        ensures kept { result ≡ false → last_keys self.new ≡ last_keys self.old }
    {
        match self {
            Remembered::Few(row) => row.push_new(last, key),
            Remembered::Many(ring) => ring.push_new(last, key),
        }
    }

    /// Makes ready for so many keys.
    fn expect(&mut self, count: usize)
        ensures { last_keys self.new ≡ last_keys self.old }
    {
        match self {
            Remembered::Few(_) => {}
            Remembered::Many(ring) => ring.expect(count),
        }
    }
}

/// As many keys as the limit at most. A further one takes the place of the oldest.
#[derive(Drop)]
pub(crate) struct LastKeys {
    keys: Remembered,
    limit: usize,
    /// How many of the last ones are not forgotten. The others lie there still, and room is kept
    /// for as many as the limit anyway.
    count: usize,
}

impl Model for LastKeys {
    ghost use Rattle.std.specs.Prelude.{◌≡◌, ◌≤◌, take};
    ghost use Rattle.sms_join.specs.Inside.LastKeys.{LastKeysValue};
    ghost use Rattle.sms_join.specs.Inside.Remembered.{last_keys};

    ghost Value = { LastKeysValue };

    ghost view = { λ l. record { limit = l.limit; keys = take l.count (last_keys l.keys).keys } };

    ghost invariant = { λ l. (l.limit ≡ (last_keys l.keys).limit) × (l.count ≤ l.limit) };
}

impl LastKeys {
    /// No keys, with room for the limit.
    pub(crate) fn new(alloc: Global, limit: usize, hashing: Hashing) -> Result<LastKeys, AllocError>
        requires { 0 < limit }
        ensures { IfOk result (λ keys. keys ≡ record { limit = limit; keys = [] }) }
    {
        Ok(LastKeys {
            keys: Remembered::new(alloc, limit, hashing)?,
            limit,
            count: 0,
        })
    }

    /// How many there are at most.
    pub(crate) fn limit(&self) -> usize
        ensures { result ≡ self.now.limit }
    {
        self.limit
    }

    /// Whether the key of such a message or segment is among them.
    pub(crate) fn contains(
        &self,
        to: Option<&Address>,
        origin: &Address,
        stamp: Stamp,
        concat: Option<Concat>,
    ) -> bool
        ensures { result ≡ is_among self.now.keys
            (key_to (option_copied to.entry) origin.now stamp concat) }
    {
        self.keys.contains(self.count, to, origin, stamp, concat)
    }

    /// The key that came before so many others.
    pub(crate) fn get(&self, after: usize) -> Option<&Key>
        ensures { option_copied result ≡ slice_get self.now.keys after }
    {
        if after >= self.count {
            return None;
        }
        self.keys.get(after)
    }

    /// Adds a key. It takes no memory.
    pub(crate) fn push(&mut self, key: Key)
        ensures { self.new ≡ record {
          limit = self.old.limit;
          keys = take self.old.limit (key ∷ self.old.keys);
        } }
    {
        self.keys.push(key);
        if self.count < self.limit {
            self.count += 1;
        }
    }

    /// Adds a key, unless it is among them: whether it was not. It takes no memory.
    pub(crate) fn push_new(&mut self, key: Key) -> bool
        ensures is_new { result ≡ not (is_among self.old.keys key) }
        ensures added { result ≡ true → self.new ≡ record {
          limit = self.old.limit;
          keys = take self.old.limit (key ∷ self.old.keys);
        } }
        ensures kept { result ≡ false → self.new ≡ self.old }
    {
        if !self.keys.push_new(self.count, key) {
            return false;
        }
        if self.count < self.limit {
            self.count += 1;
        }
        true
    }

    /// Makes ready for so many keys.
    pub(crate) fn expect(&mut self, count: usize)
        ensures { self.new ≡ self.old }
    {
        self.keys.expect(count);
    }

    /// Forgets all but so many of the last ones.
    pub(crate) fn keep(&mut self, count: usize)
        ensures { self.new ≡ record {
          limit = self.old.limit;
          keys = take count self.old.keys;
        } }
    {
        self.count = self.count.min(count);
    }
}
