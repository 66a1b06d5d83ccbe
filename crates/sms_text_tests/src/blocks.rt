//! Blocks of octets and single bits are packed and unpacked alike.

ghost use Rattle.std.specs.Prelude.{◌<◌, ◌≤◌, ◌+◌, ◌*◌, length, IfOk};
ghost use Rattle.sms_text.specs.Bits.{AreSeptets};

use crate::found::{is, septets_of};
use sms_text::{pack, unpack};
use std::alloc::Global;
use std::process::Abort;
use std::test::Fail;

/// Forty letters.
const LETTERS: &str = "Pack my box with five dozen liquor jugs!";

/// Octets with all kinds of bits, more than forty septets need.
const NOISE: &str = "Θέλει αρετή και τόλμη";

/// The octets of septets, put there bit by bit, and zeros after them.
fn packed_bit_by_bit(septets: &[u8], fill: usize) -> [u8; 36]
    requires few { length septets.now ≤ 40 }
    requires fill { fill < 7 }
{
    let mut octets = [0; 36];
    for place in 0..7 * septets.len() {
        let bit = septets[place / 7] >> (place % 7) & 1;
        octets[(fill + place) / 8] |= bit << ((fill + place) % 8);
    }
    octets
}

/// As many septets after the fill bits, taken bit by bit, and zeros after them.
fn unpacked_bit_by_bit(octets: &[u8], fill: usize, count: usize) -> [u8; 40]
    requires few { count ≤ 40 }
    requires fill { fill < 7 }
    requires enough { fill + 7 * count ≤ 8 * length octets.now }
{
    let mut septets = [0; 40];
    for place in 0..7 * count {
        let bit = octets[(fill + place) / 8] >> ((fill + place) % 8) & 1;
        septets[place / 7] |= bit << (place % 7);
    }
    septets
}

/// There are at most 40 septets.
fn are_few(rt: &impl Abort, septets: &[u8])
    ensures { length septets.now ≤ 40 }
{
    assert!(rt; septets.len() <= 40);
}

/// The septets of as many letters.
fn letters(alloc: Global, count: usize) -> Result<Vec<u8>, Fail>
    ensures { IfOk result (λ septets. AreSeptets septets.items) }
{
    match LETTERS.get(..count) {
        Some(letters) => septets_of(alloc, letters),
        None => Err("too few letters".into()),
    }
}

/// Blocks and single bits give the same octets.
fn pack_alike(rt: &impl Abort, alloc: Global, fill: u8, septets: &[u8]) -> Result<(), Fail>
    requires fill { fill < 7 }
    requires septets { AreSeptets septets.now }
{
    are_few(rt, septets);
    let octets = pack(alloc, septets, fill)?;
    let bits = packed_bit_by_bit(septets, fill as usize);
    let bits = bits.get(..octets.len());
    is(
        rt,
        ("packed", fill, septets.len()),
        bits,
        Some(octets.as_slice()),
    );
    Ok(())
}

/// The same for as many letters.
fn letters_alike(rt: &impl Abort, alloc: Global, fill: u8, count: usize) -> Result<(), Fail>
    requires { fill < 7 }
{
    let septets = letters(alloc, count)?;
    pack_alike(rt, alloc, fill, &septets)
}

/// As many septets after the fill bits of the noise.
fn unpacked(alloc: Global, fill: u8, count: usize) -> Result<Vec<u8>, Fail>
    requires fill { fill < 7 }
{
    match unpack(alloc, NOISE.as_bytes(), fill, count)? {
        Some(septets) => Ok(septets),
        None => Err("too few octets".into()),
    }
}

/// Blocks and single bits give the same septets.
fn unpack_alike(rt: &impl Abort, alloc: Global, fill: u8, count: usize) -> Result<(), Fail>
    requires fill { fill < 7 }
    requires few { count ≤ 40 }
{
    let septets = unpacked(alloc, fill, count)?;
    let bits = unpacked_bit_by_bit(NOISE.as_bytes(), fill as usize, count);
    is(
        rt,
        ("unpacked", fill, count),
        bits.get(..count),
        Some(septets.as_slice()),
    );
    Ok(())
}

#[test]
fn blocks_are_bits(rt: HostRuntime) -> Result<(), Fail> {
    for place in 0..7 * 41 {
        let (fill, count) = ((place % 7) as u8, place / 7);
        letters_alike(&rt, rt.alloc(), fill, count)?;
        unpack_alike(&rt, rt.alloc(), fill, count)?;
    }
    Ok(())
}
