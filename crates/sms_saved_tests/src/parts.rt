//! A state that is read in parts.

use crate::found::{holds, is};
use crate::rows::{EMPTY, ROWS, SAMPLE};
use crate::seen::{LIMITS, SEED, first_is_so, second_is_so};
use sms_saved::{Front, is_sealed, read_front, read_remembered};
use std::alloc::{AllocError, Global};
use std::process::Abort;
use std::test::Fail;

/// What stands before the keys of the sample is as it was made.
fn front_is_so(rt: &impl Abort, front: &Front<'_>) {
    is(rt, "taken and next", (front.taken, front.next), (12, 10));
    is(rt, "count", front.count, 2);
    if let [first, second] = front.sets.as_slice() {
        first_is_so(rt, first);
        second_is_so(rt, second);
    } else {
        holds(rt, "sets", false);
    }
}

/// The moments of the two keys at the front of the octets, and how many octets are left.
fn moments_of(octets: &[u8]) -> Option<(u64, u64, usize)> {
    let (one, behind) = read_remembered(octets)?;
    let (other, rest) = read_remembered(behind)?;
    Some((one.moment, other.moment, rest.len()))
}

#[test]
fn a_state_is_read_in_parts(rt: HostRuntime) -> Result<(), Fail> {
    let found = read_front(rt.alloc(), SEED, LIMITS, SAMPLE)?;
    let Some(front) = found else {
        return Err("no front".into());
    };
    front_is_so(&rt, &front);
    let moments = moments_of(front.rest);
    is(&rt, "keys", moments, Some((799_999_999, 800_000_001, 32)));
    Ok(())
}

/// Whether what stands before the keys is read.
fn has_front(alloc: Global, octets: &[u8]) -> Result<bool, AllocError> {
    Ok(read_front(alloc, SEED, LIMITS, octets)?.is_some())
}

/// Of states that are refused for their sets or limits nothing is read; of those that are refused
/// for their keys the front is.
#[test]
fn fronts_are_told_apart(rt: HostRuntime) -> Result<(), Fail> {
    for row in &ROWS {
        let wanted = matches!(row.place, 75 | 85 | 178 | 190);
        is(&rt, row.says, has_front(rt.alloc(), row.octets)?, wanted);
    }
    Ok(())
}

#[test]
fn checksums_are_those_of_what_stands_before(rt: HostRuntime) {
    for (says, octets) in [("sample", SAMPLE), ("empty", EMPTY)] {
        holds(&rt, says, is_sealed(octets));
        holds(&rt, says, !is_sealed(octets.get(1..).unwrap_or(&[])));
    }
    holds(&rt, "no octets", !is_sealed(&[]));
}

/// Whether what stands before the keys of the sample is read, or refused for want of memory.
fn comes(alloc: Global) -> bool {
    match has_front(alloc, SAMPLE) {
        Ok(is_there) => is_there,
        Err(AllocError) => true,
    }
}

#[test]
fn fronts_come_after_a_refused_growth(rt: HostRuntime) -> Result<(), Fail> {
    for row in ["first", "again"] {
        holds(&rt, row, comes(rt.alloc()));
    }
    Ok(())
}
