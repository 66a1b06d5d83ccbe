//! What is told of octets that are no state.

use crate::found::is;
use crate::rows::{ROWS, SAMPLE};
use crate::seen::{LIMITS, fault_of};
use sms_saved::{Fault, ReadFault, StateFault};
use std::alloc::Global;
use std::process::Abort;
use std::test::Fail;

#[test]
fn states_are_refused_for_what_they_say(rt: HostRuntime) {
    for row in &ROWS {
        let wanted = Fault {
            place: row.place,
            why: row.why,
        };
        is(
            &rt,
            row.says,
            fault_of(rt.alloc(), LIMITS, row.octets),
            Some(wanted),
        );
    }
}

/// An octet of the sample that is put at a place, and the fault of that.
const CHANGES: [(usize, u8, usize, StateFault); 16] = [
    (0, 0, 0, StateFault::NotAState),
    (7, 0, 0, StateFault::NotAState),
    (8, 0, 8, StateFault::NotAState),
    (8, 2, 8, StateFault::Newer(2)),
    (8, 255, 8, StateFault::Newer(255)),
    (33, 2, 33, StateFault::Flag),
    (42, 7, 42, StateFault::Flag),
    // more sets than 10
    (66, 11, 59, StateFault::TooMany),
    // an address that passes the end
    (67, 255, 67, StateFault::Short),
    // a flag of a recipient, and the form of a message
    (76, 2, 76, StateFault::Flag),
    (82, 3, 82, StateFault::Flag),
    // the form of a place, and septets that pass the end
    (103, 3, 103, StateFault::Flag),
    (104, 255, 104, StateFault::Short),
    (115, 105, 221, StateFault::Checksum),
    (221, 0, 221, StateFault::Checksum),
    (252, 0, 221, StateFault::Checksum),
];

/// The fault of the sample with one octet changed.
fn changed_fault(alloc: Global, place: usize, octet: u8) -> Result<Option<Fault>, Fail> {
    let mut octets = Vec::from_slice(alloc, SAMPLE)?;
    if let Some(own) = octets.get_mut(place) {
        *own = octet;
    }
    Ok(fault_of(alloc, LIMITS, &octets))
}

#[test]
fn faults_have_their_places(rt: HostRuntime) -> Result<(), Fail> {
    for (place, octet, at, why) in CHANGES {
        let wanted = Fault { place: at, why };
        let found = changed_fault(rt.alloc(), place, octet)?;
        is(&rt, (place, octet), found, Some(wanted));
    }
    Ok(())
}

/// The sample cut at a length, and the fault of that.
const CUTS: [(usize, usize, StateFault); 8] = [
    (0, 0, StateFault::NotAState),
    (7, 0, StateFault::NotAState),
    (8, 8, StateFault::Short),
    (16, 9, StateFault::Short),
    (33, 33, StateFault::Short),
    (42, 42, StateFault::Short),
    (66, 59, StateFault::Short),
    (252, 221, StateFault::Short),
];

#[test]
fn cut_states_are_short(rt: HostRuntime) {
    for (count, place, why) in CUTS {
        let front = SAMPLE.get(..count).unwrap_or(&[]);
        let wanted = Fault { place, why };
        is(
            &rt,
            count,
            fault_of(rt.alloc(), LIMITS, front),
            Some(wanted),
        );
    }
}

/// What is said of a fault.
fn is_said(rt: &(impl Abort + AllocGlobal), fault: ReadFault, line: &str) -> Result<(), Fail> {
    let said = format!(in rt.alloc(); "{fault}")?;
    is(rt, line, said.as_str(), line);
    Ok(())
}

#[test]
fn faults_are_said(rt: HostRuntime) -> Result<(), Fail> {
    is_said(&rt, ReadFault::Memory, "out of memory")?;
    for (place, why, line) in [
        (0, StateFault::NotAState, "at 0: no saved state"),
        (8, StateFault::Newer(2), "at 8: saved state of version 2"),
        (9, StateFault::OtherLimits, "at 9: other limits"),
        (20, StateFault::Short, "at 20: short"),
        (33, StateFault::Flag, "at 33: bad flag"),
        (67, StateFault::LongAddress, "at 67: address too long"),
        (67, StateFault::NotSeptet, "at 67: not a septet"),
        (59, StateFault::TooMany, "at 59: too many"),
        (67, StateFault::NotOpen, "at 67: set not open"),
        (67, StateFault::OutOfOrder, "at 67: openings out of order"),
        (67, StateFault::Repeated, "at 67: key repeated"),
        (221, StateFault::Trailing, "at 221: octets after the end"),
        (221, StateFault::Checksum, "at 221: bad checksum"),
    ] {
        is_said(&rt, ReadFault::At(Fault { place, why }), line)?;
    }
    Ok(())
}
