//! The messages that the centre holds.

ghost use Rattle.std.specs.Prelude.{◌≡◌, ◌≢◌, [], length, All, OnOk, OnErr};
ghost use Rattle.indexmap.specs.IndexMap.{IsUnique};
ghost use Rattle.sms_centre.specs.Centre.Value.{key_eq};
ghost use Rattle.sms_centre.specs.Centre.Kept.{is_kept};
ghost use Rattle.sms_centre.specs.Inside.Kept.{HoldsAlso, ForgetsEnded, ForgetsFirst};

use indexmap::IndexMap;
use std::alloc::{AllocError, Global};
use std::collections::BTreeMap;
use std::marker::Model;

/// What tells a duplicate: the originating phone, the message reference and the recipient (3GPP TS
/// 23.040, 9.2.3.25).
#[derive(Clone, Copy, Debug, PartialEq, Eq, Hash)]
pub struct HeldKey {
    /// The originating phone, counted from 0.
    pub phone: usize,
    /// TP-MR.
    pub reference: u8,
    /// The phone that has the recipient's address, counted from 0.
    pub recipient: usize,
}

/// When a held message ends, and which it is: no two messages to one recipient have one stamp.
#[derive(Clone, Copy, Debug, PartialEq, Eq, PartialOrd, Ord, Drop)]
pub struct Ending {
    /// The end of its validity (TP-VP), in seconds since the beginning of 2000.
    pub end: u64,
    /// The phone that has the recipient's address, counted from 0.
    pub recipient: usize,
    /// The moment of its TP-SCTS, in seconds since the beginning of 2000.
    pub stamp: u64,
}

/// The messages whose validity has not ended, delivered or not.
#[derive(Drop)]
pub(crate) struct HeldMessages {
    /// The key of each, by its ending.
    endings: BTreeMap<Ending, HeldKey>,
    /// For each key the greatest end of those that have it.
    last: IndexMap<HeldKey, u64>,
}

impl Model for HeldMessages {
    ghost use Rattle.indexmap.specs.IndexMap.{IsUnique};
    ghost use Rattle.std.specs.Map.{keys_of};
    ghost use Rattle.sms_centre.specs.Centre.Value.{HeldValue, key_eq};
    ghost use Rattle.sms_centre.specs.Inside.Kept.{AreOfMessages};

    ghost Value = { HeldValue };

    ghost view = { λ h. record {
      endings = keys_of h.endings.entries;
      messages = h.endings.entries;
      last = h.last.entries;
    } };

    ghost invariant = { λ h.
        IsUnique key_eq h.last × AreOfMessages h.endings.entries h.last.entries };
}

/// Whether a message with this key ends after a moment.
fn is_kept(last: &IndexMap<HeldKey, u64>, key: HeldKey, now: u64) -> bool
    ensures { result ≡ is_kept last.now.entries key now }
{
    match last.get(&key) {
        Some(end) => *end > now,
        None => false,
    }
}

/// Forgets a key, if the last message with it has ended.
fn forget_key(last: &mut IndexMap<HeldKey, u64>, key: HeldKey, now: u64)
    requires { IsUnique key_eq last.old }
    ensures ended { ForgetsEnded now key last.old.entries last.new.entries }
    ensures unique { IsUnique key_eq last.new }
{
    if !is_kept(last, key, now) {
        last.swap_remove(&key);
    }
}

impl HeldMessages {
    /// None.
    pub(crate) fn new(alloc: Global) -> HeldMessages
        ensures { result ≡ record { endings = []; messages = []; last = [] } }
    {
        HeldMessages {
            endings: BTreeMap::new(alloc),
            last: IndexMap::new(alloc),
        }
    }

    /// How many there are.
    pub(crate) fn count(&self) -> usize
        ensures { result ≡ length self.now.endings }
    {
        self.endings.len()
    }

    /// Whether one with this key ends after a moment.
    pub(crate) fn is_held(&self, key: HeldKey, now: u64) -> bool
        ensures { result ≡ is_kept self.now.last key now }
    {
        is_kept(&self.last, key, now)
    }

    /// Forgets the one that ends first, if it has ended. A key goes when the last message with it
    /// ends.
    pub(crate) fn forget_first(&mut self, now: u64) -> Option<Ending>
        ensures { ForgetsFirst now self.old result self.new }
    {
        let (first, _) = self.endings.first_key_value()?;
        if first.end > now {
            return None;
        }
        let (ending, key) = self.endings.pop_first()?;
        forget_key(&mut self.last, key, now);
        Some(ending)
    }

    /// Holds one more, with this key and ending. If memory runs out, nothing has changed.
    pub(crate) fn hold(&mut self, key: HeldKey, ending: Ending) -> Result<(), AllocError>
        requires { All (λ e. e ≢ ending) self.old.endings }
        ensures ok { OnOk result (HoldsAlso self.old key ending self.new) }
        ensures err { OnErr result (self.new ≡ self.old) }
    {
        self.last.reserve(1)?;
        self.endings.insert(ending, key)?;
        let greatest = match self.last.get(&key) {
            Some(other) => ending.end.max(*other),
            None => ending.end,
        };
        self.last.insert(key, greatest)?;
        Ok(())
    }
}
