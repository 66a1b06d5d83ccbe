//! States that are cut, that go on, or of which one octet is changed.

use crate::found::{holds, is};
use crate::rows::SAMPLE;
use crate::seen::{LIMITS, fault_of};
use sms_saved::StateFault;
use std::alloc::{AllocError, Global};
use std::process::Abort;
use std::test::Fail;

/// Puts an octet at a place.
fn put(octets: &mut Vec<u8>, place: usize, octet: u8) {
    if let Some(own) = octets.get_mut(place) {
        *own = octet;
    }
}

/// The sample with one bit of an octet changed.
fn changes_are_refused(rt: &impl Abort, octets: &mut Vec<u8>, alloc: Global, place: usize) {
    let kept = octets.get(place).copied().unwrap_or(0);
    for bit in [1, 2, 4, 8, 16, 32, 64, 128] {
        put(octets, place, kept ^ bit);
        holds(rt, (place, bit), fault_of(alloc, LIMITS, octets).is_some());
    }
    put(octets, place, kept);
}

#[test]
fn no_changed_bit_is_read(rt: HostRuntime) -> Result<(), Fail> {
    let mut octets = Vec::from_slice(rt.alloc(), SAMPLE)?;
    for place in 0..SAMPLE.len() {
        changes_are_refused(&rt, &mut octets, rt.alloc(), place);
    }
    Ok(())
}

/// The sample with these octets between those before a place and those from another on.
fn spliced(alloc: Global, end: usize, octets: &[u8], start: usize) -> Result<Vec<u8>, AllocError> {
    let mut made = Vec::from_slice(alloc, SAMPLE.get(..end).unwrap_or(&[]))?;
    made.extend_from_slice(octets)?;
    made.extend_from_slice(SAMPLE.get(start..).unwrap_or(&[]))?;
    Ok(made)
}

/// The sample with an octet more at a place.
fn added_is_refused(rt: &impl Abort, alloc: Global, place: usize) -> Result<(), Fail> {
    for octet in [0, 1, 255] {
        let made = spliced(alloc, place, &[octet], place)?;
        let refused = fault_of(alloc, LIMITS, &made).is_some();
        holds(rt, (place, octet), refused);
    }
    Ok(())
}

#[test]
fn no_state_cut_or_longer_is_read(rt: HostRuntime) -> Result<(), Fail> {
    let alloc = rt.alloc();
    for place in 0..SAMPLE.len() {
        let cut = SAMPLE.get(..place).unwrap_or(&[]);
        holds(&rt, ("cut", place), fault_of(alloc, LIMITS, cut).is_some());
        let made = spliced(alloc, place, &[], place.saturating_add(1))?;
        holds(
            &rt,
            ("without", place),
            fault_of(alloc, LIMITS, &made).is_some(),
        );
        added_is_refused(&rt, alloc, place)?;
    }
    Ok(())
}

#[test]
fn an_octet_after_the_end_is_trailing(rt: HostRuntime) -> Result<(), Fail> {
    let made = spliced(rt.alloc(), SAMPLE.len(), &[0], SAMPLE.len())?;
    let why = fault_of(rt.alloc(), LIMITS, &made).map(|fault| fault.why);
    is(&rt, "after", why, Some(StateFault::Trailing));
    Ok(())
}

/// The sample up to its checksum, with the number at a place at its greatest.
fn greatest_fault(alloc: Global, place: usize) -> Result<Option<StateFault>, Fail> {
    let mut made = spliced(alloc, place, &[255; 8], place.saturating_add(8))?;
    made.truncate(SAMPLE.len().saturating_sub(32));
    Ok(fault_of(alloc, LIMITS, &made).map(|fault| fault.why))
}

/// Whatever a number says, room is asked for no more entries than the octets can hold: of septets,
/// of 16-bit units and of remembered keys.
#[test]
fn numbers_ask_for_no_room(rt: HostRuntime) -> Result<(), Fail> {
    for place in [104, 147, 160] {
        let why = greatest_fault(rt.alloc(), place)?;
        is(&rt, place, why, Some(StateFault::Short));
    }
    Ok(())
}
