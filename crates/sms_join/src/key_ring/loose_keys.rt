//! Keys in a ring that are linked once all have come.

ghost use Rattle.std.specs.Prelude.{◌≡◌, ◌+◌, ◌<◌, true, false, not, [], ◌∷◌, ◌++◌, length, take, reverse, slice_index_or, MatchOption, MatchBool};
ghost use Rattle.sms_join.specs.declared.key.Key.{Key as TheKey};
ghost use Rattle.sms_join.specs.Joiner.{is_among};
ghost use Rattle.sms_join.specs.Key.{same_key};
ghost use Rattle.sms_join.specs.Gateway.Distinct.{NoneTwice};
ghost use Rattle.sms_join.specs.Inside.KeyHashes.{hash_of};

use crate::hashing::Hashing;
use crate::key::Key;
use crate::key_hash::key_hash;
use crate::key_ring::{KeyRing, NONE, head_of};
use circular_buffer::HeapCircularBuffer;
use std::marker::Model;

/// Keys that are added one after another, up to the limit, and are then linked as those of a ring,
/// the oldest first. To link each as it comes would wait each time for a head that lies elsewhere;
/// these waits overlap where nothing else is done between them.
#[derive(Drop)]
pub(crate) struct LooseKeys {
    hashing: Hashing,
    /// The newest is the last.
    keys: HeapCircularBuffer<Key>,
    /// For each the hash.
    hashes: Vec<u32>,
    /// For each that is linked the place of the next older one whose key has the same head.
    next: Vec<u32>,
    /// For each head the place of the newest of its keys that are linked.
    heads: Vec<u32>,
}

impl Model for LooseKeys {
    ghost use Rattle.std.specs.Prelude.{◌≡◌, ◌*◌, ◌≤◌, length, map, take};
    ghost use Rattle.std.specs.Vec.{vec_capacity};
    ghost use Rattle.sms_join.specs.Inside.LooseKeys.{LooseKeysValue};
    ghost use Rattle.sms_join.specs.Inside.KeyHashes.{hash_of};
    ghost use Rattle.sms_join.specs.Inside.KeyRings.{IsChained};

    ghost Value = { LooseKeysValue };

    ghost view = { λ l. record {
      limit = l.keys.capacity;
      keys = l.keys.items;
      hashing = l.hashing;
      linked = length l.next.items;
    } };

    ghost invariant = { λ l. IsChained (λ hash. hash) l.keys.capacity 0
        (take (length l.next.items) l.hashes.items) l.next.items l.heads.items
        × (l.hashes.items ≡ map (hash_of l.hashing) l.keys.items)
        × (length l.next.items ≤ length l.keys.items)
        × (vec_capacity l.hashes ≡ l.keys.capacity)
        × (vec_capacity l.next ≡ l.keys.capacity)
        × (2 * l.keys.capacity ≤ vec_capacity l.heads) };
}

/// Whether two keys are the same. It stands by itself: few keys have one hash.
#[inline(never)]
fn is_same(one: &Key, other: &Key) -> bool
    ensures { result ≡ same_key one.now other.now }
{
    let (stamp, concat) = other.piece();
    one.is_of(other.recipient(), other.origin(), stamp, concat)
}

impl LooseKeys {
    /// None, in the room of a ring without keys.
    pub(crate) fn of(ring: KeyRing) -> LooseKeys
        requires { ring.keys ≡ [] }
        ensures { result ≡ record {
          limit = ring.limit;
          keys = [];
          hashing = ring.hashing;
          linked = 0;
        } }
    {
        let KeyRing {
            hashing,
            keys,
            oldest: _,
            hashes,
            next,
            heads,
        } = ring;
        LooseKeys {
            hashing,
            keys,
            hashes,
            next,
            heads,
        }
    }

    /// Adds a key. It takes no memory.
    #[inline(always)]
    pub(crate) fn push(&mut self, key: Key)
        requires { length self.old.keys < self.old.limit }
        ensures { self.new ≡ record {
          limit = self.old.limit;
          keys = self.old.keys ++ key ∷ [];
          hashing = self.old.hashing;
          linked = self.old.linked;
        } }
    {
        self.hashes.push_reserved(key_hash(self.hashing, &key));
        self.keys.push_back(key);
    }

    /// Makes at least as many heads as there are keys, of which none is linked.
    fn spread(&mut self)
        requires { self.old.linked ≡ 0 }
        ensures { self.new ≡ self.old }
    {
        let count = self.keys.len().next_power_of_two();
        self.heads.clear();
        self.heads.resize(count, NONE).unwrap();
    }

    /// The key at a place.
    #[inline(always)]
    fn key_at(&self, place: usize) -> &Key
        requires { place < length self.now.keys }
        ensures { result.now ≡ slice_index_or self.now.keys place result.now }
    {
        self.keys.get(place).unwrap()
    }

    /// Whether a key of this hash is among those that are linked.
    #[inline(always)]
    fn has_linked(&self, hash: u32, key: &Key) -> bool
        requires { hash ≡ hash_of self.now.hashing key.now }
        ensures { result ≡ is_among (reverse (take self.now.linked self.now.keys)) key.now }
    {
        let mut place = self.heads[head_of(hash, self.heads.len())];
        while place != NONE {
            let at = place as usize;
            if self.hashes[at] == hash && is_same(self.key_at(at), key) {
                return true;
            }
            place = self.next[at];
        }
        false
    }

    /// Links the next key, unless it is among those that are linked: whether it was not.
    #[inline(always)]
    fn link_next(&mut self) -> bool
        requires { self.old.linked < length self.old.keys }
        ensures is_new { (key : TheKey) → key ≡ slice_index_or self.old.keys self.old.linked key
            → result ≡ not (is_among (reverse (take self.old.linked self.old.keys)) key) }
        ensures linked { result ≡ true → self.new ≡ record {
          limit = self.old.limit;
          keys = self.old.keys;
          hashing = self.old.hashing;
          linked = self.old.linked + 1;
        } }
        ensures kept { result ≡ false → self.new ≡ self.old }
    {
        let place = self.next.len();
        let hash = self.hashes[place];
        if self.has_linked(hash, self.key_at(place)) {
            return false;
        }
        let head = head_of(hash, self.heads.len());
        self.next.push_reserved(self.heads[head]);
        self.heads[head] = place as u32;
        true
    }

    /// Links all keys, up to the first that is there twice: whether none is.
    fn link_all(&mut self) -> bool
        requires { self.old.linked ≡ 0 }
        ensures linked { result ≡ true → self.new ≡ record {
          limit = self.old.limit;
          keys = self.old.keys;
          hashing = self.old.hashing;
          linked = length self.old.keys;
        } }
        ensures once { MatchBool result (NoneTwice (reverse self.old.keys))
            (NoneTwice (reverse self.old.keys) → ⊥) }
    {
        self.spread();
        for _ in 0..self.keys.len() {
            if !self.link_next() {
                return false;
            }
        }
        true
    }

    /// The ring in which the keys are found, unless one of them is there twice.
    pub(crate) fn link(mut self) -> Option<KeyRing>
        requires { self.linked ≡ 0 }
        ensures { MatchOption result (NoneTwice (reverse self.keys) → ⊥)
            (λ ring. (ring ≡ record {
              limit = self.limit;
              keys = reverse self.keys;
              hashing = self.hashing;
            }) × NoneTwice (reverse self.keys)) }
    {
        if !self.link_all() {
            return None;
        }
        let LooseKeys {
            hashing,
            keys,
            hashes,
            next,
            heads,
        } = self;
        Some(KeyRing {
            hashing,
            keys,
            oldest: 0,
            hashes,
            next,
            heads,
        })
    }
}
