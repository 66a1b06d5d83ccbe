//! Keys in a ring, and chains of the places of those that share a head.

mod loose_keys;

ghost use Rattle.std.specs.Prelude.{◌≡◌, ◌+◌, ◌-◌, ◌<◌, ◌≤◌, ◌^◌, ◌==◌, true, false, not, [], ◌∷◌, take, if◌then◌else◌, IfOk, bit_and, length, replicate, option_copied, slice_set, slice_index, slice_index_or, slice_get};
ghost use Rattle.sms_join.specs.Joiner.{is_among};
ghost use Rattle.sms_join.specs.Piece.{key_to};
ghost use Rattle.sms_join.specs.Inside.KeyHashes.{hash_of};
ghost use Rattle.sms_join.specs.Inside.KeyRings.{laid, entries, newer, LieIn, LieApart, AreLinked};
ghost use Rattle.sms_join.specs.Inside.KeyRings as rings;

use crate::hashing::Hashing;
use crate::key::Key;
use crate::key_hash::{hash_of, key_hash};
pub(crate) use crate::key_ring::loose_keys::LooseKeys;
use circular_buffer::HeapCircularBuffer;
use sms_field::{Address, Stamp};
use sms_tpdu::Concat;
use std::alloc::{AllocError, Global};
use std::marker::Model;

/// No place.
const NONE: u32 = u32::MAX;

/// How many places a ring has at most: four octets tell one.
pub(crate) const PLACES_MAX: usize = 1 << 31;

/// As many keys as the limit at most. A further one takes the place of the oldest. All room is made
/// at once, and written only as keys come: there become more heads where the keys are more.
#[derive(Drop)]
pub(crate) struct KeyRing {
    hashing: Hashing,
    /// The newest is the last.
    keys: HeapCircularBuffer<Key>,
    /// The place of the oldest, once there are as many as the limit; 0 before.
    oldest: usize,
    /// For each place that has been taken the hash of its key.
    hashes: Vec<u32>,
    /// For each place that has been taken the next older one whose key has the same head.
    next: Vec<u32>,
    /// For each head the place of its newest key.
    heads: Vec<u32>,
}

impl Model for KeyRing {
    ghost use Rattle.std.specs.Prelude.{◌≡◌, ◌*◌, ◌≤◌, map, reverse};
    ghost use Rattle.std.specs.Vec.{vec_capacity};
    ghost use Rattle.sms_join.specs.Inside.LastKeys.{HashedKeysValue};
    ghost use Rattle.sms_join.specs.Inside.KeyHashes.{hash_of};
    ghost use Rattle.sms_join.specs.Inside.KeyRings.{laid, IsChained};

    ghost Value = { HashedKeysValue };

    ghost view = { λ r. record {
      limit = r.keys.capacity;
      keys = reverse r.keys.items;
      hashing = r.hashing;
    } };

    ghost invariant = { λ r. IsChained (λ hash. hash) r.keys.capacity r.oldest
        r.hashes.items r.next.items r.heads.items
        × (r.hashes.items ≡ map (hash_of r.hashing) (laid r.oldest r.keys.items))
        × (vec_capacity r.hashes ≡ r.keys.capacity)
        × (vec_capacity r.next ≡ r.keys.capacity)
        × (2 * r.keys.capacity ≤ vec_capacity r.heads) };
}

/// The place after this one, round the ring.
fn place_after(place: usize, limit: usize) -> usize
    requires { place < limit }
    ensures { result ≡ (if place + 1 == limit then 0 else place + 1) }
{
    if place + 1 == limit { 0 } else { place + 1 }
}

/// The head of a hash, of as many heads, which are a power of two.
fn head_of(hash: u32, heads: usize) -> usize
    requires { 0 < heads }
    ensures is { result ≡ bit_and hash (heads - 1) }
    ensures within { result < heads }
{
    hash as usize & (heads - 1)
}

/// The key at a place, where the oldest lies at another.
fn key_at(keys: &HeapCircularBuffer<Key>, oldest: usize, place: usize) -> &Key
    requires oldest { oldest ≤ length keys.now.items }
    requires place { place < length keys.now.items }
    ensures { result.now ≡ slice_index_or (laid oldest keys.now.items) place result.now }
{
    let index = if place >= oldest {
        place - oldest
    } else {
        keys.len() - oldest + place
    };
    keys.get(index).unwrap()
}

/// How many of so many keys came after the one at a place.
fn came_after(oldest: usize, count: usize, place: usize) -> usize
    requires oldest { oldest ≤ count }
    requires place { place < count }
    ensures { result ≡ rings.came_after oldest count place }
{
    if place < oldest {
        oldest - 1 - place
    } else {
        oldest + (count - 1 - place)
    }
}

/// Puts the place in front of the chain of a head.
fn link(heads: &mut [u32], next: &mut [u32], head: usize, place: usize)
    requires head { head < length heads.old }
    requires place { place < length next.old }
    requires fits { place < 2 ^ 32 }
    ensures next { next.new ≡ slice_set next.old place (slice_index heads.old head) }
    ensures heads { heads.new ≡ slice_set heads.old head place }
{
    next[place] = heads[head];
    heads[head] = place as u32;
}

/// Takes the place of the oldest key out of its chain, whose last it is.
fn unlink(hashes: &[u32], oldest: usize, heads: &mut [u32], next: &mut [u32])
    requires there { oldest < length hashes.now }
    requires heads { 0 < length heads.old }
    requires next { length hashes.now ≤ length next.old }
    requires small { length next.old < NONE }
    requires lie { LieIn hashes.now (entries oldest hashes.now) }
    requires apart { LieApart (entries oldest hashes.now) }
    requires linked { AreLinked (rings.head_of (λ hash. hash) (length heads.old))
        next.old heads.old (entries oldest hashes.now) }
    ensures { AreLinked (rings.head_of (λ hash. hash) (length heads.old))
        next.new heads.new (newer oldest hashes.now) }
{
    let head = head_of(hashes[oldest], heads.len());
    let mut place = heads[head] as usize;
    if place == oldest {
        heads[head] = next[oldest];
        return;
    }
    while next[place] as usize != oldest {
        place = next[place] as usize;
    }
    next[place] = next[oldest];
}

/// Links all places anew, from that of the oldest on, where the oldest lies at the first.
fn relink(hashes: &[u32], heads: &mut [u32], next: &mut [u32])
    requires some { 0 < length heads.old }
    requires none { heads.old ≡ replicate (length heads.old) NONE }
    requires next { length next.old ≡ length hashes.now }
    requires small { length next.old < NONE }
    ensures { AreLinked (rings.head_of (λ hash. hash) (length heads.old))
        next.new heads.new (entries 0 hashes.now) }
{
    for place in 0..hashes.len() {
        let head = head_of(hashes[place], heads.len());
        link(heads, next, head, place);
    }
}

impl KeyRing {
    /// No keys, with room for the limit.
    pub(crate) fn new(alloc: Global, limit: usize, hashing: Hashing) -> Result<KeyRing, AllocError>
        requires some { 0 < limit }
        requires few { limit ≤ PLACES_MAX }
        ensures { IfOk result (λ ring. ring ≡ record {
          limit = limit;
          keys = [];
          hashing = hashing;
        }) }
    {
        let keys = HeapCircularBuffer::with_capacity(alloc, limit)?;
        let hashes = Vec::with_capacity(alloc, limit)?;
        let next = Vec::with_capacity(alloc, limit)?;
        let mut heads = Vec::with_capacity(alloc, 2 * limit)?;
        heads.push_reserved(NONE);
        Ok(KeyRing {
            hashing,
            keys,
            oldest: 0,
            hashes,
            next,
            heads,
        })
    }

    /// Whether the key of such a message or segment is among the last so many.
    pub(crate) fn contains(
        &self,
        last: usize,
        to: Option<&Address>,
        origin: &Address,
        stamp: Stamp,
        concat: Option<Concat>,
    ) -> bool
        ensures { result ≡ is_among (take last self.now.keys)
            (key_to (option_copied to.entry) origin.now stamp concat) }
    {
        let hash = hash_of(self.hashing, to, origin, stamp, concat);
        self.contains_hashed(hash, last, to, origin, stamp, concat)
    }

    /// The same by the hash of that key. A key of another hash is not looked at.
    ///
    /// Where the hashers are all alike, whoever picks keys of one head makes it look through them
    /// one by one.
    #[inline(always)]
    fn contains_hashed(
        &self,
        hash: u32,
        last: usize,
        to: Option<&Address>,
        origin: &Address,
        stamp: Stamp,
        concat: Option<Concat>,
    ) -> bool
        requires { hash ≡ hash_of self.now.hashing
            (key_to (option_copied to) origin.now stamp concat) }
        ensures { result ≡ is_among (take last self.now.keys)
            (key_to (option_copied to.entry) origin.now stamp concat) }
    {
        let count = self.keys.len();
        let mut place = self.heads[head_of(hash, self.heads.len())];
        while place != NONE {
            let at = place as usize;
            if self.hashes[at] == hash {
                let key = key_at(&self.keys, self.oldest, at);
                let found = key.is_of(to, origin, stamp, concat);
                if found && came_after(self.oldest, count, at) < last {
                    return true;
                }
            }
            place = self.next[at];
        }
        false
    }

    /// The key that came before so many others.
    pub(crate) fn get(&self, after: usize) -> Option<&Key>
        ensures { option_copied result ≡ slice_get self.now.keys after }
    {
        self.keys.nth_back(after)
    }

    /// Adds a key. It takes no memory.
    pub(crate) fn push(&mut self, key: Key)
        ensures { self.new ≡ record {
          limit = self.old.limit;
          keys = take self.old.limit (key ∷ self.old.keys);
          hashing = self.old.hashing;
        } }
    {
        let hash = key_hash(self.hashing, &key);
        self.push_hashed(hash, key);
    }

    /// Adds a key, unless it is among the last so many: whether it was not. It is hashed once.
    pub(crate) fn push_new(&mut self, last: usize, key: Key) -> bool
        ensures is_new { result ≡ not (is_among (take last self.old.keys) key) }
        ensures added { result ≡ true → self.new ≡ record {
          limit = self.old.limit;
          keys = take self.old.limit (key ∷ self.old.keys);
          hashing = self.old.hashing;
        } }
        ensures kept { result ≡ false → self.new ≡ self.old }
    {
        let hash = key_hash(self.hashing, &key);
        let (stamp, concat) = key.piece();
        if self.contains_hashed(hash, last, key.recipient(), key.origin(), stamp, concat) {
            return false;
        }
        self.push_hashed(hash, key);
        true
    }

    /// Adds a key of this hash.
    #[inline(always)]
    fn push_hashed(&mut self, hash: u32, key: Key)
        requires { hash ≡ hash_of self.old.hashing key }
        ensures { self.new ≡ record {
          limit = self.old.limit;
          keys = take self.old.limit (key ∷ self.old.keys);
          hashing = self.old.hashing;
        } }
    {
        let head = head_of(hash, self.heads.len());
        let limit = self.keys.capacity();
        let count = self.keys.len();
        if count < limit {
            self.hashes.push_reserved(hash);
            self.next.push_reserved(self.heads[head]);
            self.heads[head] = count as u32;
            self.keys.push_back(key);
            self.spread();
            return;
        }
        let place = self.oldest;
        unlink(&self.hashes, place, &mut self.heads, &mut self.next);
        self.hashes[place] = hash;
        link(&mut self.heads, &mut self.next, head, place);
        self.keys.push_back(key);
        self.oldest = place_after(place, limit);
    }

    /// Makes the heads four times as many where they are fewer than the keys, or twice where there
    /// is no room for that. A fourth of the keys, or half of them, have come since the last time.
    #[inline(always)]
    fn spread(&mut self)
        ensures { self.new ≡ self.old }
    {
        let count = self.heads.len();
        if self.keys.len() <= count {
            return;
        }
        if self.heads.capacity() / 4 >= count {
            self.widen(4 * count);
        } else {
            self.widen(2 * count);
        }
    }

    /// Makes ready for so many keys: they are not linked anew then, as they come.
    pub(crate) fn expect(&mut self, count: usize)
        ensures { self.new ≡ self.old }
    {
        if count <= PLACES_MAX {
            self.widen(count.next_power_of_two());
        }
    }

    /// Makes the heads as many, where they are fewer, there is room for as many, and the ring has
    /// not turned. All keys are linked anew then.
    fn widen(&mut self, wanted: usize)
        ensures { self.new ≡ self.old }
    {
        if wanted <= self.heads.len() || self.heads.capacity() < wanted {
            return;
        }
        if self.oldest > 0 {
            return;
        }
        self.heads.clear();
        self.heads.resize(wanted, NONE).unwrap();
        relink(&self.hashes, &mut self.heads, &mut self.next);
    }
}
