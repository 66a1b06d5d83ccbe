//! The keys that were read.

ghost use Rattle.std.specs.Prelude.{◌≡◌, ◌++◌, ◌∷◌, [], not, false, OnOk, IfOk};
ghost use Rattle.sms_saved.specs.Fits.{is_among};

use crate::key_octets::KeyOctets;
use indexmap::IndexSet;
use std::alloc::{AllocError, Global};
use std::hash::RandomState;
use std::io;
use std::marker::Model;
use std::random::RandomSource;

/// The keys that were read, as their octets, where these lie. A sender picks keys, so they are
/// hashed with a seed.
#[derive(Drop)]
pub(crate) struct Seen<'a> {
    keys: IndexSet<KeyOctets<'a>, RandomState>,
}

impl<'a> Model for Seen<'a> {
    ghost use Rattle.std.specs.Prelude.{ℕ, List};

    ghost Value = { List (List ℕ) };

    ghost view = { λ s. s.keys.keys };
}

/// The octets of a seed, the lowest first, as often as they are asked for.
#[derive(Drop)]
struct Seed {
    octets: [u8; 16],
}

impl RandomSource for Seed {
    fn fill_bytes(&self, buf: &mut [u8]) -> io::Result<()> {
        for part in buf.chunks_mut(16) {
            let count = part.len().min(16);
            part.copy_from_slice(&self.octets[..count]);
        }
        Ok(())
    }
}

/// A hasher's keys by a seed.
fn seeded(seed: u128) -> Result<RandomState, AllocError> {
    let source = Seed {
        octets: seed.to_le_bytes(),
    };
    RandomState::new(&source).map_err(|_| AllocError)
}

impl<'a> Seen<'a> {
    /// None.
    pub(crate) fn new(alloc: Global, seed: u128) -> Result<Seen<'a>, AllocError>
        ensures { IfOk result (λ s. s ≡ []) }
    {
        let keys = IndexSet::with_hasher(alloc, seeded(seed)?);
        Ok(Seen { keys })
    }

    /// Makes room for so many more.
    pub(crate) fn expect(&mut self, count: usize) -> Result<(), AllocError>
        ensures { self.new ≡ self.old }
    {
        self.keys.reserve(count)
    }

    /// Notes a key, and says whether it is new.
    pub(crate) fn note(&mut self, key: &'a [u8]) -> Result<bool, AllocError>
        ensures is_new { IfOk result (λ is_new. is_new ≡ not (is_among self.old key.now)) }
        ensures noted { is_among self.old key.now ≡ false
            → OnOk result (self.new ≡ self.old ++ key.now ∷ []) }
    {
        let (_, is_new) = self.keys.insert_full(KeyOctets::new(key))?;
        Ok(is_new)
    }
}
