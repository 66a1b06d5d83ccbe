//! Whether octets are the codes of their own characters, sixteen at a time.

ghost use Rattle.std.specs.Prelude.{◌≡◌, ◌++◌, true, length, IfSome};
ghost use Rattle.sms_text.specs.Inside.Same.{AreSame};

use std::simd::prelude::*;

/// A bit for each high half of a code, the same for those that take the same low halves; 0 where
/// with any low half the code is that of its own character.
const HIGH_HALVES: [u8; 16] = [1, 2, 4, 0, 8, 16, 8, 16, 2, 2, 2, 2, 2, 2, 2, 2];

/// For each low half the bits of the high halves with which it is no such code.
const LOW_HALVES: [u8; 16] = [11, 3, 3, 3, 7, 3, 3, 3, 3, 3, 2, 19, 19, 18, 19, 19];

/// Whether lanes are the codes of their own characters; `false` leaves it open.
#[inline(always)]
fn are_lanes_same(codes: u8x16) -> bool
    ensures { result ≡ true → AreSame codes }
{
    let low = u8x16::from_array(LOW_HALVES).swizzle_dyn_within::<16>(codes & u8x16::splat(15));
    let high = u8x16::from_array(HIGH_HALVES).swizzle_dyn_within::<16>(codes >> u8x16::splat(4));
    (low & high).simd_ne(u8x16::splat(0)).to_bitmask() == 0
}

/// Whether sixteen octets are the codes of their own characters; `false` leaves it open.
#[inline(always)]
pub(crate) fn are_sixteen_same(octets: &[u8]) -> bool
    requires { length octets.now ≡ 16 }
    ensures { result ≡ true → AreSame octets.now }
{
    are_lanes_same(u8x16::from_slice(octets))
}

/// Sixteen octets at the front that are the codes of their own characters, and the octets after
/// them.
#[inline(always)]
pub(crate) fn same_sixteen(octets: &[u8]) -> Option<(&[u8], &[u8])>
    ensures { IfSome result (λ parts. (octets.now ≡ parts.0.now ++ parts.1.now)
        × AreSame parts.0.now × (length parts.0.now ≡ 16)) }
{
    if octets.len() < 16 {
        return None;
    }
    let (block, rest) = octets.split_at(16);
    are_sixteen_same(block).then_some((block, rest))
}
