//! What a joiner held before, put back.

ghost use Rattle.std.specs.Prelude.{◌≡◌, ℕ, ◌<◌, true, false, not, [], ◌∷◌, ◌++◌, length, OnOk, OnErr};
ghost use Rattle.sms_join.specs.Key.{maximum_of};
ghost use Rattle.sms_join.specs.Joiner.{is_among};
ghost use Rattle.sms_join.specs.Gateway.Remembering.{remembering};
ghost use Rattle.sms_join.specs.OpenSets.{all_pieces, has_set};
ghost use Rattle.sms_join.specs.OpenSets.Places.{filled, set_by};

use crate::finishings::note_finishing;
use crate::gateway::Gateway;
use crate::gateway_limits::GatewayLimits;
use crate::key::Key;
use crate::units::Units;
use std::alloc::AllocError;

impl Gateway {
    /// What it was made with.
    pub fn limits(&self) -> GatewayLimits
        ensures { result ≡ self.now.limits }
    {
        let limits = GatewayLimits::new(self.keeper.open_max(), self.keeper.remembered())
            .alone(self.alone)
            .open_for(self.open_for);
        match self.remember_for {
            None => limits,
            Some(seconds) => limits.remember_for(seconds),
        }
    }

    /// Opens a set that was open before: its key, the moment of its first piece, in seconds from
    /// the start of 2000, and for each of its pieces, in order of sequence, the units, where it has
    /// come. It is then the set that was opened last. If memory runs out, nothing has changed.
    ///
    /// Fewer sets are open than may be, the key is neither open nor remembered, and of the pieces
    /// some have come and some not.
    pub fn put_back(
        &mut self,
        key: Key,
        moment: u64,
        places: Vec<Option<Units>>,
    ) -> Result<(), AllocError>
        requires few { length self.old.told < self.old.limits.open_max }
        requires closed { has_set self.old.told key ≡ false }
        requires fresh { is_among self.old.holds.finished key ≡ false }
        requires places { length places.items ≡ maximum_of key }
        requires some { 0 < length (filled places.items) }
        requires part { length (filled places.items) < maximum_of key }
        ensures told { OnOk result ((turn : ℕ) × (self.new.told
            ≡ self.old.told ++ set_by key moment turn places.items ∷ [])) }
        ensures kept { self.new.holds.kept ≡ all_pieces self.new.told }
        ensures finished { self.new.holds.finished ≡ self.old.holds.finished }
        ensures finishings { self.new.finishings ≡ self.old.finishings }
        ensures limits { self.new.limits ≡ self.old.limits }
        ensures refused { OnErr result (self.new ≡ self.old) }
    {
        self.keeper.have_kept();
        let done = self.keeper.put_back(key, moment, places);
        self.keeper.have_kept();
        done
    }

    /// Whether the key is that of a message that finished, and is remembered. It takes no memory.
    pub fn remembers(&self, key: &Key) -> bool
        ensures { result ≡ is_among self.now.holds.finished key.now }
    {
        self.keeper.remembers(key)
    }

    /// Remembers the key of a message that finished before, at this moment in seconds from the
    /// start of 2000, as that of the last one: in place of the oldest, where as many are remembered
    /// as may be. It counts at no earlier moment than the one before it. The key is neither open
    /// nor remembered. It takes no memory.
    pub fn remember(&mut self, key: Key, moment: u64)
        requires closed { has_set self.old.told key ≡ false }
        requires fresh { is_among self.old.holds.finished key ≡ false }
        ensures { self.new ≡ remembering self.old key moment }
    {
        self.keeper.have_kept();
        self.keeper.remember(key);
        note_finishing(&mut self.finishings, moment);
    }

    /// Remembers the key as `remember` does, unless it is remembered: whether it was not. The key is
    /// not open. It takes no memory.
    pub fn remember_new(&mut self, key: Key, moment: u64) -> bool
        requires closed { has_set self.old.told key ≡ false }
        ensures is_new { result ≡ not (is_among self.old.holds.finished key) }
        ensures remembered { result ≡ true → self.new ≡ remembering self.old key moment }
        ensures kept { result ≡ false → self.new ≡ self.old }
    {
        self.keeper.have_kept();
        if !self.keeper.remember_new(key) {
            return false;
        }
        note_finishing(&mut self.finishings, moment);
        true
    }

    /// Makes the tables ready for so many keys, so that those that come are not put in order again
    /// each time that they outgrow a table. What is held and told stays as it is. It takes no
    /// memory.
    pub fn expect(&mut self, keys: usize)
        ensures { self.new ≡ self.old }
    {
        self.keeper.expect(keys);
    }
}
