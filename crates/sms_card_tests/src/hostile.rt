//! Records that are cut, that go on, or of which one octet is changed.

use crate::found::holds;
use crate::judged::judged;
use crate::rows::{ROWS, Row};
use crate::seen::padded;
use sms_card::RecordView;
use std::alloc::Global;
use std::process::Abort;
use std::test::Fail;

/// Whether octets are answered as the standard says.
fn is_judged(octets: &[u8]) -> bool {
    match (RecordView::read(octets).err(), judged(octets)) {
        (None, None) => true,
        (Some(fault), Some(wanted)) => fault.place == wanted.place && fault.why == wanted.why,
        _ => false,
    }
}

#[test]
fn cut_and_long_records_are_judged(rt: HostRuntime) -> Result<(), Fail> {
    for row in &ROWS {
        let long = padded(rt.alloc(), row.octets, 200)?;
        for count in 0..=long.len() {
            let cut = long.get(..count).unwrap_or(&[]);
            holds(&rt, (row.says, count), is_judged(cut));
        }
    }
    Ok(())
}

/// Puts an octet at a place.
fn put(octets: &mut Vec<u8>, place: usize, octet: u8) {
    if let Some(own) = octets.get_mut(place) {
        *own = octet;
    }
}

/// Octets of which the one at a place is changed to each of these.
fn change_is_judged(rt: &impl Abort, row: &Row, octets: &mut Vec<u8>, place: usize, most: u8) {
    let kept = octets.get(place).copied().unwrap_or(0);
    for octet in 0..=most {
        put(octets, place, octet);
        holds(rt, (row.says, place, octet), is_judged(octets));
    }
    put(octets, place, kept);
}

/// A row of which each octet is changed: to each other one up to the first of the padding, and in
/// the padding to two.
fn changes_are_judged(rt: &impl Abort, alloc: Global, row: &Row, count: usize) -> Result<(), Fail> {
    let mut octets = padded(alloc, row.octets, count)?;
    for place in 0..octets.len() {
        let most = if place <= row.octets.len() { 255 } else { 1 };
        change_is_judged(rt, row, &mut octets, place, most);
    }
    Ok(())
}

#[test]
fn changed_records_are_judged(rt: HostRuntime) -> Result<(), Fail> {
    for row in &ROWS {
        changes_are_judged(&rt, rt.alloc(), row, 176)?;
    }
    Ok(())
}

#[test]
fn changed_records_without_padding_are_judged(rt: HostRuntime) -> Result<(), Fail> {
    for row in &ROWS {
        changes_are_judged(&rt, rt.alloc(), row, row.octets.len())?;
    }
    Ok(())
}
