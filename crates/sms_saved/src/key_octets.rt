//! The octets of a key, as they are told apart.

ghost use Rattle.std.specs.Prelude.{◌≡◌, ◌≤◌, [], ◌∷◌, length, nat_eq};
ghost use Rattle.std.specs.Cmp.Lexicographic.{pointwise};
ghost use Rattle.std.specs.Cmp.Rules.{comparing, hashing};
ghost use Rattle.std.proofs.Common.{rules};
ghost use Rattle.sms_saved.specs.Inside.KeyHashes.{hashed_octets, padded};

use std::hash::{Hash, Hasher};
use std::marker::Model;

/// How many octets of whole words are hashed of most keys, whose addresses have few digits.
const FEW_WORDS: usize = 24;

/// How many are of the others. No key has more than 35.
const WORDS: usize = 40;

/// Octets of which there are few, and octets that are 0.
#[inline(always)]
fn padded<const N: usize>(octets: &[u8]) -> [u8; N]
    requires { length octets.now ≤ N }
    ensures { result ≡ padded N octets.now }
{
    let mut words = [0; N];
    words[..octets.len()].copy_from_slice(octets);
    words
}

/// The octets of a key, where they lie. A hasher gets them all at once, in whole words: of a slice
/// it would get each by itself, and it takes octets that end a word one by one.
#[derive(Drop)]
pub(crate) struct KeyOctets<'a> {
    octets: &'a [u8],
}

impl<'a> Model for KeyOctets<'a> {
    ghost use Rattle.std.specs.Prelude.{ℕ, List};

    ghost Value = { List ℕ };

    ghost view = { λ k. k.octets.now };
}

impl<'a> PartialEq for KeyOctets<'a> {
    ghost eq = { λ a b. pointwise nat_eq a b };

    ghost laws = { Prim.search (comparing, rules) };

    fn eq(&self, other: &KeyOctets<'a>) -> bool {
        self.octets == other.octets
    }
}

impl<'a> Eq for KeyOctets<'a> {
    ghost laws = { Prim.search (comparing, rules) };
}

impl<'a> Hash for KeyOctets<'a> {
    ghost hash_input = { λ k. hashed_octets k ∷ [] };

    ghost respects_eq = { Prim.search (hashing, rules) };

    fn hash<H: Hasher>(&self, state: &mut H) {
        if self.octets.len() <= FEW_WORDS {
            state.write(&padded::<FEW_WORDS>(self.octets));
        } else if self.octets.len() <= WORDS {
            state.write(&padded::<WORDS>(self.octets));
        } else {
            state.write(self.octets);
        }
    }
}

impl<'a> KeyOctets<'a> {
    /// These octets.
    pub(crate) fn new(octets: &'a [u8]) -> KeyOctets<'a>
        ensures { result ≡ octets.now }
    {
        KeyOctets { octets }
    }
}
