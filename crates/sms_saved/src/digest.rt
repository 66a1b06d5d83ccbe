//! The checksum of a state.

ghost use Rattle.std.specs.Prelude.{◌≡◌};
ghost use Rattle.sms_saved.specs.Spelling.{digest};

use sha2::{Digest, Sha512_256};

/// SHA-512/256 of the octets.
#[tactic(auto, unfolding(crate::specs::Spelling::digest))]
pub(crate) fn digest_of(octets: &[u8]) -> [u8; 32]
    ensures { result ≡ digest octets.now }
{
    Sha512_256::digest(octets)
}
