//! What was kept before, put back.

ghost use Rattle.std.specs.Prelude.{◌≡◌, ℕ, ◌<◌, true, false, not, [], ◌∷◌, ◌++◌, length, OnOk, OnErr};
ghost use Rattle.sms_join.specs.Key.{maximum_of};
ghost use Rattle.sms_join.specs.Joiner.{is_among};
ghost use Rattle.sms_join.specs.Joiner.Value.{SameLimits};
ghost use Rattle.sms_join.specs.OpenSets.{has_set};
ghost use Rattle.sms_join.specs.OpenSets.Places.{filled, set_by};
ghost use Rattle.sms_join.specs.Inside.Keeping.{with_key, with_keys};
ghost use Rattle.sms_join.specs.Inside.Turns.{arranged};

use crate::hashing::Hashing;
use crate::keeper::Keeper;
use crate::key::Key;
use crate::last_keys::LastKeys;
use crate::open_sets::OpenSets;
use crate::units::Units;
use std::alloc::{AllocError, Global};

impl Keeper {
    /// No open sets, in a table that hashes so, and these keys.
    pub(crate) fn with_keys(
        alloc: Global,
        open_max: usize,
        hashing: Hashing,
        finished: LastKeys,
    ) -> Keeper
        ensures { result ≡ with_keys open_max finished }
    {
        Keeper {
            alloc,
            open_max,
            sets: OpenSets::new(alloc, hashing),
            finished,
        }
    }

    /// How many sets may be open.
    pub(crate) fn open_max(&self) -> usize
        ensures { result ≡ self.now.open_max }
    {
        self.open_max
    }

    /// How many keys are remembered at most.
    pub(crate) fn remembered(&self) -> usize
        ensures { result ≡ self.now.remembered }
    {
        self.finished.limit()
    }

    /// Opens a set at the moment of its first piece, with the pieces that have come at its places.
    pub(crate) fn put_back(
        &mut self,
        key: Key,
        moment: u64,
        places: Vec<Option<Units>>,
    ) -> Result<(), AllocError>
        requires closed { has_set self.old.told key ≡ false }
        requires few { length self.old.told < self.old.open_max }
        requires places { length places.items ≡ maximum_of key }
        requires some { 0 < length (filled places.items) }
        requires part { length (filled places.items) < maximum_of key }
        ensures told { OnOk result ((turn : ℕ) × (arranged self.new.told
            ≡ arranged self.old.told ++ set_by key moment turn places.items ∷ [])) }
        ensures finished { self.new.holds.finished ≡ self.old.holds.finished }
        ensures limits { SameLimits self.new self.old }
        ensures refused { OnErr result (self.new ≡ self.old) }
    {
        self.sets.put_back(key, moment, places)
    }

    /// Whether a key is remembered.
    pub(crate) fn remembers(&self, key: &Key) -> bool
        ensures { result ≡ is_among self.now.holds.finished key.now }
    {
        let (stamp, concat) = key.piece();
        self.finished
            .contains(key.recipient(), key.origin(), stamp, concat)
    }

    /// Remembers a key, as that of the message that finished last.
    pub(crate) fn remember(&mut self, key: Key)
        ensures { self.new ≡ with_key self.old key }
    {
        self.finished.push(key);
    }

    /// The same, unless the key is remembered: whether it was not.
    pub(crate) fn remember_new(&mut self, key: Key) -> bool
        ensures is_new { result ≡ not (is_among self.old.holds.finished key) }
        ensures remembered { result ≡ true → self.new ≡ with_key self.old key }
        ensures kept { result ≡ false → self.new ≡ self.old }
    {
        self.finished.push_new(key)
    }

    /// Makes ready for so many keys to be remembered.
    pub(crate) fn expect(&mut self, keys: usize)
        ensures { self.new ≡ self.old }
    {
        self.finished.expect(keys);
    }
}
