//! A state in parts, for whoever takes its remembered keys as they are read.

ghost use Rattle.std.specs.Prelude.{◌≡◌, ◌++◌, ℕ, List, IfOk, IfSome, IsSomeAnd};
ghost use Rattle.sms_saved.specs.declared.state.Remembered.{Remembered};
ghost use Rattle.sms_saved.specs.Fits.{RememberedFits};
ghost use Rattle.sms_saved.specs.Parts.{is_sealed, view_front, FrontValue, IsFront};
ghost use Rattle.sms_saved.specs.Spelling.{remembered};
ghost use Rattle.sms_saved.specs.Views.{seen_remembered};

use crate::digest::digest_of;
use crate::fault::Stop;
use crate::key_view::RememberedView;
use crate::reading::{front_of, remembered_view_of};
use crate::state::{Limits, OpenSet};
use std::alloc::{AllocError, Global};

/// What stands before the remembered keys of a state.
#[derive(Debug, Drop)]
pub struct Front<'a> {
    /// How many lines of the joiner's input were taken.
    pub taken: u64,
    /// The number of the next opening.
    pub next: u64,
    /// The open sets, in order of their openings.
    pub sets: Vec<OpenSet>,
    /// How many keys are remembered.
    pub count: u64,
    /// The octets from the first of them on.
    pub rest: &'a [u8],
}

/// What stands before the remembered keys of a state of a joiner with these limits; none where the
/// octets do not begin so: `read` tells why. Keys of sets are hashed with the seed; it does not
/// show.
pub fn read_front(
    alloc: Global,
    seed: u128,
    limits: Limits,
    octets: &[u8],
) -> Result<Option<Front<'_>>, AllocError>
    // What is read stands there.
    ensures found { IfOk result (λ front. IfSome front
        (λ f. IsFront limits octets.now (view_front f))) }
    // What stands there is read, unless memory runs out.
    ensures only { (f : FrontValue) → IsFront limits octets.now f
        → IfOk result (λ front. IsSomeAnd front (λ own. view_front own ≡ f)) }
{
    match front_of(alloc, seed, limits, octets) {
        Ok(front) => Ok(Some(front)),
        Err(Stop::Memory) => Err(AllocError),
        Err(Stop::At(_)) => Ok(None),
    }
}

/// A remembered key at the front of the octets, and those after it; none where none stands there.
/// It takes no memory.
#[inline(always)]
pub fn read_remembered(octets: &[u8]) -> Option<(RememberedView<'_>, &[u8])>
    // What is read stands there.
    ensures found { IfSome result (λ x. (octets.now ≡ remembered (seen_remembered x.0) ++ x.1.now)
        × RememberedFits (seen_remembered x.0)) }
    // What stands there is read.
    ensures only { (r : Remembered) (rest : List ℕ) → RememberedFits r
        → octets.now ≡ remembered r ++ rest
        → IsSomeAnd result (λ x. (seen_remembered x.0 ≡ r) × (x.1.now ≡ rest)) }
{
    match remembered_view_of(octets) {
        Ok(read) => Some(read),
        Err(_) => None,
    }
}

/// Whether the last 32 octets are the checksum of those before them.
pub fn is_sealed(octets: &[u8]) -> bool
    ensures { result ≡ is_sealed octets.now }
{
    let (body, sum) = octets.split_at(octets.len().saturating_sub(32));
    sum == digest_of(body).as_slice()
}
