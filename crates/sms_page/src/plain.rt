//! Where the octets of a text stand as they are: blocks of them are tested at once.

ghost use Rattle.std.specs.Prelude.{◌≡◌, ◌+◌, ◌-◌, ◌<◌, ◌≤◌, length, drop, map};
ghost use Rattle.std.specs.List.{prefix_len};
ghost use Rattle.std.specs.Simd.Lanes.{mask_l};
ghost use Rattle.sms_page.specs.Plain.{is_plain, is_stop};

use std::simd::Simd;
use std::simd::prelude::*;

/// How many octets a block has.
const BLOCK: usize = 32;

/// Whether an octet stands as it is.
#[inline(always)]
pub fn is_plain<const OTHER: u8>(octet: u8) -> bool
    ensures { result ≡ is_plain OTHER octet }
{
    octet >= b' ' && octet != b'\\' && octet != OTHER
}

/// Which octets of a block don't stand as they are: control characters, a backslash, and one other.
#[inline(always)]
fn stops<const N: usize, const OTHER: u8>(block: Simd<u8, N>) -> u64
    requires { N ≤ 64 }
    ensures { result ≡ mask_l (map (is_stop OTHER) block.entry) }
{
    let is_stop = block.simd_lt(Simd::<u8, N>::splat(b' '))
        | block.simd_eq(Simd::<u8, N>::splat(b'\\'))
        | block.simd_eq(Simd::<u8, N>::splat(OTHER));
    is_stop.to_bitmask()
}

/// Where plain octets end from a place on that stands in the last block.
#[inline(always)]
fn last_end<const N: usize, const OTHER: u8>(octets: &[u8], from: usize) -> usize
    requires long { (N ≤ length octets.now) × (0 < N) × (N ≤ 32) }
    requires few { (from ≤ length octets.now) × (length octets.now ≤ from + N) }
    ensures { result ≡ from + prefix_len (is_plain OTHER) (drop from octets.now) }
{
    let start = octets.len() - N;
    let found = stops::<N, OTHER>(Simd::<u8, N>::from_slice(&octets[start..])) >> (from - start);
    if found == 0 {
        return octets.len();
    }
    from + found.trailing_zeros() as usize
}

/// Where plain octets end from a place on behind which one block stands, or two at most: the first
/// is tested, and the last, which may lie over it.
#[inline(always)]
fn short_end<const N: usize, const OTHER: u8>(octets: &[u8], from: usize) -> usize
    requires small { (0 < N) × (N ≤ 32) }
    requires long { from + N ≤ length octets.now }
    requires few { length octets.now ≤ from + N + N }
    ensures { result ≡ from + prefix_len (is_plain OTHER) (drop from octets.now) }
{
    let found = stops::<N, OTHER>(Simd::<u8, N>::from_slice(&octets[from..]));
    if found != 0 {
        return from + found.trailing_zeros() as usize;
    }
    last_end::<N, OTHER>(octets, from + N)
}

/// Where plain octets end from a place on behind which few stand, one octet after another.
#[inline(always)]
fn few_end<const OTHER: u8>(octets: &[u8], from: usize) -> usize
    requires { from ≤ length octets.now }
    ensures { result ≡ from + prefix_len (is_plain OTHER) (drop from octets.now) }
{
    let mut at = from;
    while at < octets.len() && octets[at] >= b' ' && octets[at] != b'\\' && octets[at] != OTHER {
        at += 1;
    }
    at
}

/// Where plain octets end from a place on of a text that has fewer than 16.
#[inline(always)]
fn end_of_short<const OTHER: u8>(octets: &[u8], from: usize) -> usize
    requires few { (from ≤ length octets.now) × (length octets.now < 16) }
    ensures { result ≡ from + prefix_len (is_plain OTHER) (drop from octets.now) }
{
    let rest = octets.len() - from;
    if rest >= 8 {
        short_end::<8, OTHER>(octets, from)
    } else if rest >= 4 {
        short_end::<4, OTHER>(octets, from)
    } else {
        few_end::<OTHER>(octets, from)
    }
}

/// Where plain octets end from a place on behind which at most as many octets stand as a block has.
#[inline(always)]
fn end_behind<const OTHER: u8>(octets: &[u8], from: usize) -> usize
    requires few { (from ≤ length octets.now) × (length octets.now ≤ from + BLOCK) }
    ensures { result ≡ from + prefix_len (is_plain OTHER) (drop from octets.now) }
{
    if octets.len() < 16 {
        end_of_short::<OTHER>(octets, from)
    } else if octets.len() >= BLOCK {
        last_end::<BLOCK, OTHER>(octets, from)
    } else if octets.len() - from >= 16 {
        short_end::<16, OTHER>(octets, from)
    } else {
        last_end::<16, OTHER>(octets, from)
    }
}

/// Where the octets end that stand as they are from a place on: at the first other one, or at the
/// end.
#[inline(never)]
pub fn plain_end<const OTHER: u8>(octets: &[u8], from: usize) -> usize
    requires { from ≤ length octets.now }
    ensures end { result ≡ from + prefix_len (is_plain OTHER) (drop from octets.now) }
    ensures within { result ≤ length octets.now }
{
    let mut at = from;
    while octets.len() - at > BLOCK {
        let found = stops::<BLOCK, OTHER>(u8x32::from_slice(&octets[at..]));
        if found != 0 {
            return at + found.trailing_zeros() as usize;
        }
        at += BLOCK;
    }
    end_behind::<OTHER>(octets, at)
}
