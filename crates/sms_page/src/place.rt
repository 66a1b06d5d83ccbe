//! Octets that are copied to a place of room, few of them without a loop.

ghost use Rattle.std.specs.Prelude.{◌≡◌, ◌+◌, ◌≤◌, ◌<◌, length, drop, take};
ghost use Rattle.sms_page.specs.Inside.Place.{IsPut};

use std::simd::Simd;

/// Copies as many octets as are moved at once.
#[inline(always)]
fn put_front<const N: usize>(room: &mut [u8], at: usize, octets: &[u8])
    requires { (N ≤ length octets.now) × (at + N ≤ length room.old) }
    ensures put { IsPut room.old room.new at (take N octets.now) }
    ensures behind { drop (at + N) room.new ≡ drop (at + N) room.old }
{
    Simd::<u8, N>::from_slice(octets).copy_to_slice(&mut room[at..]);
}

/// Copies the octets of both ends, which may overlap: each copy is of a fixed size.
#[inline(always)]
fn put_ends<const N: usize>(room: &mut [u8], at: usize, octets: &[u8])
    requires covers { (N ≤ length octets.now) × (length octets.now ≤ N + N) }
    requires fits { at + length octets.now ≤ length room.old }
    ensures put { IsPut room.old room.new at octets.now }
    ensures behind { drop (at + length octets.now) room.new
        ≡ drop (at + length octets.now) room.old }
{
    let last = octets.len() - N;
    put_front::<N>(room, at, octets);
    put_front::<N>(room, at + last, &octets[last..]);
}

/// Copies octets to a place in one copy, which is of a fixed size where their number is known.
#[inline(always)]
pub fn put_once(room: &mut [u8], at: usize, octets: &[u8])
    requires { at + length octets.now ≤ length room.old }
    ensures put { IsPut room.old room.new at octets.now }
    ensures behind { drop (at + length octets.now) room.new
        ≡ drop (at + length octets.now) room.old }
{
    room[at..at + octets.len()].copy_from_slice(octets);
}

/// Copies many octets. It stands by itself, so that a short copy needs no room on the stack.
#[inline(never)]
fn put_long(room: &mut [u8], at: usize, octets: &[u8])
    requires { at + length octets.now ≤ length room.old }
    ensures put { IsPut room.old room.new at octets.now }
    ensures behind { drop (at + length octets.now) room.new
        ≡ drop (at + length octets.now) room.old }
{
    put_once(room, at, octets);
}

/// Copies octets to a place.
#[inline(always)]
pub fn put_whole(room: &mut [u8], at: usize, octets: &[u8])
    requires { at + length octets.now ≤ length room.old }
    ensures put { IsPut room.old room.new at octets.now }
    ensures behind { drop (at + length octets.now) room.new
        ≡ drop (at + length octets.now) room.old }
{
    let count = octets.len();
    if count > 32 {
        put_long(room, at, octets);
    } else if count >= 16 {
        put_ends::<16>(room, at, octets);
    } else if count >= 8 {
        put_ends::<8>(room, at, octets);
    } else if count >= 4 {
        put_ends::<4>(room, at, octets);
    } else if count >= 2 {
        put_ends::<2>(room, at, octets);
    } else if count == 1 {
        put_front::<1>(room, at, octets);
    }
}
