//! States that are cut, that go on, or of which one bit is changed.

use crate::back::fault_of;
use crate::found::holds;
use crate::joiner::limits;
use crate::rows::SAMPLE;
use std::alloc::Global;
use std::process::Abort;
use std::test::Fail;

/// Puts an octet at a place.
fn put(octets: &mut Vec<u8>, place: usize, octet: u8) {
    if let Some(own) = octets.get_mut(place) {
        *own = octet;
    }
}

/// The sample with one bit of an octet changed.
fn changes_are_refused(rt: &impl Abort, octets: &mut Vec<u8>, alloc: Global, place: usize) {
    let kept = octets.get(place).copied().unwrap_or(0);
    for bit in [1, 2, 4, 8, 16, 32, 64, 128] {
        put(octets, place, kept ^ bit);
        let refused = fault_of(alloc, limits(), octets).is_some();
        holds(rt, (place, bit), refused);
    }
    put(octets, place, kept);
}

#[test]
fn no_changed_bit_is_read(rt: HostRuntime) -> Result<(), Fail> {
    let mut octets = Vec::from_slice(rt.alloc(), SAMPLE)?;
    for place in 0..SAMPLE.len() {
        changes_are_refused(&rt, &mut octets, rt.alloc(), place);
    }
    Ok(())
}

/// The sample with an octet more at a place.
fn added_is_refused(rt: &impl Abort, alloc: Global, place: usize) -> Result<(), Fail> {
    let mut made = Vec::from_slice(alloc, SAMPLE.get(..place).unwrap_or(&[]))?;
    made.push(0)?;
    made.extend_from_slice(SAMPLE.get(place..).unwrap_or(&[]))?;
    let refused = fault_of(alloc, limits(), &made).is_some();
    holds(rt, ("added", place), refused);
    Ok(())
}

#[test]
fn no_state_cut_or_longer_is_read(rt: HostRuntime) -> Result<(), Fail> {
    for place in 0..SAMPLE.len() {
        let cut = SAMPLE.get(..place).unwrap_or(&[]);
        let refused = fault_of(rt.alloc(), limits(), cut).is_some();
        holds(&rt, ("cut", place), refused);
        added_is_refused(&rt, rt.alloc(), place)?;
    }
    Ok(())
}
