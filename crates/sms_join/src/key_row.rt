//! Keys in a row that are looked through where one has the tag of the key that is asked for.

ghost use Rattle.std.specs.Prelude.{◌≡◌, true, false, not, [], ◌∷◌, ◌==◌, length, drop, take, slice_get, option_copied, IfOk};
ghost use Rattle.std.specs.List.{list_any};
ghost use Rattle.sms_join.specs.Key.{same_key};
ghost use Rattle.sms_join.specs.Joiner.{is_among};
ghost use Rattle.sms_join.specs.Piece.{key_to};

use crate::key::Key;
use crate::key_tag::{key_tag, tag_of};
use circular_buffer::HeapCircularBuffer;
use sms_field::{Address, Stamp};
use sms_tpdu::Concat;
use std::alloc::{AllocError, Global};
use std::marker::Model;
use std::simd::prelude::*;

/// How many tags of keys there are.
const TAGS: usize = 32;

/// As many keys as the limit at most. A further one takes the place of the oldest.
#[derive(Drop)]
pub(crate) struct KeyRow {
    /// The newest is the last.
    keys: HeapCircularBuffer<Key>,
    /// The tags of the newest keys; the tag of the newest is the first.
    tags: [u16; TAGS],
}

impl Model for KeyRow {
    ghost use Rattle.std.specs.Prelude.{reverse};
    ghost use Rattle.sms_join.specs.Inside.LastKeys.{LastKeysValue};
    ghost use Rattle.sms_join.specs.Inside.KeyTags.{HaveTags};

    ghost Value = { LastKeysValue };

    ghost view = { λ r. record { limit = r.keys.capacity; keys = reverse r.keys.items } };

    ghost invariant = { λ r. HaveTags (reverse r.keys.items) r.tags };
}

/// Whether the key of such a message or segment is there, after so many of the first ones. It
/// stands by itself: most answers come without it.
#[inline(never)]
fn has_key(
    keys: &HeapCircularBuffer<Key>,
    skipped: usize,
    to: Option<&Address>,
    origin: &Address,
    stamp: Stamp,
    concat: Option<Concat>,
) -> bool
    ensures { let asked = key_to (option_copied to.entry) origin.now stamp concat in
        result ≡ list_any (λ key. same_key key asked) (drop skipped keys.now.items) }
{
    keys.iter()
        .skip(skipped)
        .any(|key| key.is_of(to, origin, stamp, concat))
}

/// Whether the tag is there. All are compared at once.
#[inline(always)]
fn has_tag(tags: &[u16; TAGS], tag: u16) -> bool
    ensures is { result ≡ list_any (λ own. own == tag) tags.now }
    ensures as_many { length tags.now ≡ TAGS }
{
    let same = u16x32::from_array(*tags).simd_eq(u16x32::splat(tag));
    same.to_bitmask() != 0
}

impl KeyRow {
    /// No keys, with room for the limit.
    pub(crate) fn new(alloc: Global, limit: usize) -> Result<KeyRow, AllocError>
        ensures { IfOk result (λ row. row ≡ record { limit = limit; keys = [] }) }
    {
        Ok(KeyRow {
            keys: HeapCircularBuffer::with_capacity(alloc, limit)?,
            tags: [0; TAGS],
        })
    }

    /// Whether the key of such a message or segment is among the last so many.
    #[inline(always)]
    pub(crate) fn contains(
        &self,
        last: usize,
        to: Option<&Address>,
        origin: &Address,
        stamp: Stamp,
        concat: Option<Concat>,
    ) -> bool
        ensures { result ≡ is_among (take last self.now.keys)
            (key_to (option_copied to.entry) origin.now stamp concat) }
    {
        // A key has its tag: where the tag is none of those of all keys, no key is looked at.
        if self.keys.len() <= TAGS && !has_tag(&self.tags, tag_of(to, origin, stamp, concat)) {
            return false;
        }
        let skipped = self.keys.len().saturating_sub(last);
        has_key(&self.keys, skipped, to, origin, stamp, concat)
    }

    /// The key that came before so many others.
    pub(crate) fn get(&self, after: usize) -> Option<&Key>
        ensures { option_copied result ≡ slice_get self.now.keys after }
    {
        self.keys.nth_back(after)
    }

    /// Adds a key. It takes no memory.
    #[inline(always)]
    pub(crate) fn push(&mut self, key: Key)
        ensures { self.new ≡ record {
          limit = self.old.limit;
          keys = take self.old.limit (key ∷ self.old.keys);
        } }
    {
        let mut tags = [key_tag(&key); TAGS];
        tags[1..].copy_from_slice(&self.tags[..TAGS - 1]);
        self.tags = tags;
        self.keys.push_back(key);
    }

    /// Adds a key, unless it is among the last so many: whether it was not.
    pub(crate) fn push_new(&mut self, last: usize, key: Key) -> bool
        ensures is_new { result ≡ not (is_among (take last self.old.keys) key) }
        ensures added { result ≡ true → self.new ≡ record {
          limit = self.old.limit;
          keys = take self.old.limit (key ∷ self.old.keys);
        } }
        ensures kept { result ≡ false → self.new ≡ self.old }
    {
        let (stamp, concat) = key.piece();
        if self.contains(last, key.recipient(), key.origin(), stamp, concat) {
            return false;
        }
        self.push(key);
        true
    }
}
