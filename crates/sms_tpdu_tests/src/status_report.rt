//! Status reports. The first four are read so by others too: three stand in the tests of oFono
//! 1.31, one in those of Gammu 1.42.

use crate::again::rewritten;
use crate::alike::{Kind, agree_everywhere};
use crate::found::{are, holds};
use crate::report::{Data, are_data};
use crate::submit::digits_in;
use sms_field::Address;
use sms_tpdu::{Refusal, StatusReport, Unit, UnitFault};
use std::alloc::Global;
use std::process::Abort;
use std::test::Fail;

/// A status report as its octets, what they say, and how it is written.
struct Row {
    octets: &'static [u8],
    more: bool,
    looped: bool,
    qualifier: bool,
    has_header: bool,
    reference: u8,
    type_of_number: u8,
    digits: &'static [u8],
    stamp: [u8; 7],
    discharged: [u8; 7],
    status: u8,
    pid: Option<u8>,
    dcs: Option<u8>,
    user: Option<Data>,
    /// The octets up to TP-ST, which are a report by themselves.
    least: usize,
    written: &'static [u8],
}

/// The first second of 2001, in the zone of Greenwich.
const NEW_YEAR: [u8; 7] = [0x10, 0x10, 0x10, 0x00, 0x00, 0x00, 0x00];

/// A minute later.
const NEXT_MINUTE: [u8; 7] = [0x10, 0x10, 0x10, 0x00, 0x10, 0x00, 0x00];

/// The digits of a number in Germany.
const GERMAN: [u8; 13] = [4, 9, 1, 5, 2, 5, 9, 9, 1, 1, 6, 3, 0];

static OTHERS: [Row; 4] = [
    Row {
        octets: b"\x06\x04\x0D\x91\x94\x51\x52\x99\x11\x36\xF0\x01\x60\x12\x41\x30\x34\x0A\x01\x60\x12\x41\x30\x94\x0A\x00",
        more: false,
        looped: false,
        qualifier: false,
        has_header: false,
        reference: 0x04,
        type_of_number: 1,
        digits: &GERMAN,
        stamp: [0x01, 0x60, 0x12, 0x41, 0x30, 0x34, 0x0A],
        discharged: [0x01, 0x60, 0x12, 0x41, 0x30, 0x94, 0x0A],
        status: 0x00,
        pid: None,
        dcs: None,
        user: None,
        least: 26,
        written: b"\x06\x04\x0D\x91\x94\x51\x52\x99\x11\x36\xF0\x01\x60\x12\x41\x30\x34\x0A\x01\x60\x12\x41\x30\x94\x0A\x00",
    },
    Row {
        octets: b"\x06\x05\x0D\x91\x94\x51\x52\x99\x11\x36\xF0\x01\x60\x12\x41\x30\x64\x0A\x01\x60\x12\x41\x30\x45\x0A\x00",
        more: false,
        looped: false,
        qualifier: false,
        has_header: false,
        reference: 0x05,
        type_of_number: 1,
        digits: &GERMAN,
        stamp: [0x01, 0x60, 0x12, 0x41, 0x30, 0x64, 0x0A],
        discharged: [0x01, 0x60, 0x12, 0x41, 0x30, 0x45, 0x0A],
        status: 0x00,
        pid: None,
        dcs: None,
        user: None,
        least: 26,
        written: b"\x06\x05\x0D\x91\x94\x51\x52\x99\x11\x36\xF0\x01\x60\x12\x41\x30\x64\x0A\x01\x60\x12\x41\x30\x45\x0A\x00",
    },
    // the zones are no numbers of quarters
    Row {
        octets: b"\x06\x06\x09\x81\x21\x43\x65\x87\xF9\x01\x90\x12\x41\x30\x64\xA0\x01\x90\x12\x41\x30\x45\xA0\x00",
        more: false,
        looped: false,
        qualifier: false,
        has_header: false,
        reference: 0x06,
        type_of_number: 0,
        digits: &[1, 2, 3, 4, 5, 6, 7, 8, 9],
        stamp: [0x01, 0x90, 0x12, 0x41, 0x30, 0x64, 0xA0],
        discharged: [0x01, 0x90, 0x12, 0x41, 0x30, 0x45, 0xA0],
        status: 0x00,
        pid: None,
        dcs: None,
        user: None,
        least: 24,
        written: b"\x06\x06\x09\x81\x21\x43\x65\x87\xF9\x01\x90\x12\x41\x30\x64\xA0\x01\x90\x12\x41\x30\x45\xA0\x00",
    },
    Row {
        octets: b"\x06\xE8\x0C\x91\x66\x66\x66\x66\x66\x66\x90\x90\x70\x61\x84\x22\x80\x90\x90\x70\x61\x84\x62\x80\x00",
        more: false,
        looped: false,
        qualifier: false,
        has_header: false,
        reference: 0xE8,
        type_of_number: 1,
        digits: &[6, 6, 6, 6, 6, 6, 6, 6, 6, 6, 6, 6],
        stamp: [0x90, 0x90, 0x70, 0x61, 0x84, 0x22, 0x80],
        discharged: [0x90, 0x90, 0x70, 0x61, 0x84, 0x62, 0x80],
        status: 0x00,
        pid: None,
        dcs: None,
        user: None,
        least: 25,
        written: b"\x06\xE8\x0C\x91\x66\x66\x66\x66\x66\x66\x90\x90\x70\x61\x84\x22\x80\x90\x90\x70\x61\x84\x62\x80\x00",
    },
];

static ROWS: [Row; 3] = [
    // all flags and all parts; the free bits of the first octet are 1, and a further octet of TP-PI
    Row {
        octets: b"\xFA\x07\x02\x81\x21\x10\x10\x10\x00\x00\x00\x00\x10\x10\x10\x00\x10\x00\x00\x46\x87\x00\x7F\x04\x02\xAA\xBB",
        more: true,
        looped: true,
        qualifier: true,
        has_header: true,
        reference: 0x07,
        type_of_number: 0,
        digits: &[1, 2],
        stamp: NEW_YEAR,
        discharged: NEXT_MINUTE,
        status: 0x46,
        pid: Some(0x7F),
        dcs: Some(0x04),
        user: Some(Data {
            length: 2,
            octets: b"\xAA\xBB",
        }),
        least: 20,
        written: b"\x6A\x07\x02\x81\x21\x10\x10\x10\x00\x00\x00\x00\x10\x10\x10\x00\x10\x00\x00\x46\x07\x7F\x04\x02\xAA\xBB",
    },
    // TP-PI of no parts
    Row {
        octets: b"\x06\x08\x02\x81\x21\x10\x10\x10\x00\x00\x00\x00\x10\x10\x10\x00\x10\x00\x00\x30\x00",
        more: false,
        looped: false,
        qualifier: false,
        has_header: false,
        reference: 0x08,
        type_of_number: 0,
        digits: &[1, 2],
        stamp: NEW_YEAR,
        discharged: NEXT_MINUTE,
        status: 0x30,
        pid: None,
        dcs: None,
        user: None,
        least: 20,
        written: b"\x06\x08\x02\x81\x21\x10\x10\x10\x00\x00\x00\x00\x10\x10\x10\x00\x10\x00\x00\x30",
    },
    // two septets without a coding scheme
    Row {
        octets: b"\x46\x09\x02\x81\x21\x10\x10\x10\x00\x00\x00\x00\x10\x10\x10\x00\x10\x00\x00\x61\x04\x02\xE8\x34",
        more: false,
        looped: false,
        qualifier: false,
        has_header: true,
        reference: 0x09,
        type_of_number: 0,
        digits: &[1, 2],
        stamp: NEW_YEAR,
        discharged: NEXT_MINUTE,
        status: 0x61,
        pid: None,
        dcs: None,
        user: Some(Data {
            length: 2,
            octets: b"\xE8\x34",
        }),
        least: 20,
        written: b"\x46\x09\x02\x81\x21\x10\x10\x10\x00\x00\x00\x00\x10\x10\x10\x00\x10\x00\x00\x61\x04\x02\xE8\x34",
    },
];

/// Whether an address is the telephone number of a row.
fn is_number(address: &Address, row: &Row) -> bool {
    (address.type_of_number, address.plan) == (row.type_of_number, 1)
        && digits_in(&address.symbols) == Some(row.digits)
}

/// Whether the flags of a report are those of a row.
fn has_flags(report: &StatusReport, row: &Row) -> bool {
    (report.more, report.looped) == (row.more, row.looped)
        && (report.qualifier, report.has_header) == (row.qualifier, row.has_header)
}

/// Whether the fields of a report are those of a row.
fn has_fields(report: &StatusReport, row: &Row) -> bool {
    has_flags(report, row)
        && (report.reference, report.status) == (row.reference, row.status)
        && is_number(&report.recipient, row)
        && report.stamp.octets() == row.stamp
        && report.discharged.octets() == row.discharged
        && (report.pid, report.dcs) == (row.pid, row.dcs)
        && are_data(&report.user, row.user)
}

/// Whether a report is read as its row says.
fn is_read(alloc: Global, row: &Row) -> Result<bool, Fail> {
    let (report, used) = StatusReport::read(alloc, row.octets)?;
    Ok(used == row.octets.len() && has_fields(&report, row))
}

/// What is written of the report that is read, and read again.
fn written(alloc: Global, octets: &[u8]) -> Result<Vec<u8>, Refusal<UnitFault>> {
    let (report, _) = StatusReport::read(alloc, octets)?;
    rewritten(alloc, &report)
}

/// Each report is read and written as its row says.
fn are_right(rt: &impl Abort, alloc: Global, rows: &[Row]) -> Result<(), Fail> {
    for row in rows {
        let read = is_read(alloc, row)?;
        holds(rt, &row.octets, read);
        let written = written(alloc, row.octets)?;
        are(rt, &row.octets, &written, row.written);
    }
    Ok(())
}

#[test]
fn reads_the_status_reports_of_others(rt: HostRuntime) -> Result<(), Fail> {
    are_right(&rt, rt.alloc(), &OTHERS)
}

#[test]
fn reads_and_writes_status_reports(rt: HostRuntime) -> Result<(), Fail> {
    are_right(&rt, rt.alloc(), &ROWS)
}

/// Whether octets are refused as a status report at this place for this reason.
fn is_refused(alloc: Global, octets: &[u8], place: usize, why: UnitFault) -> bool {
    match StatusReport::read(alloc, octets) {
        Ok(_) => false,
        Err(refusal) => refusal == Refusal::At { place, why },
    }
}

/// Of all fronts of a report only that up to TP-ST is one.
fn needs_all(rt: &impl Abort, alloc: Global, row: &Row) {
    for n in 0..row.octets.len() {
        let short = is_refused(alloc, &row.octets[..n], n, UnitFault::Short);
        holds(rt, &(row.octets, n), short == (n != row.least));
    }
}

/// Each front of each row is refused as too short, and a value and its view agree.
fn are_refused(rt: &impl Abort, alloc: Global, rows: &[Row]) -> Result<(), Fail> {
    for row in rows {
        needs_all(rt, alloc, row);
        agree_everywhere(rt, alloc, Kind::StatusReport, row.octets)?;
    }
    Ok(())
}

#[test]
fn refuses_damaged_status_reports_of_others(rt: HostRuntime) -> Result<(), Fail> {
    are_refused(&rt, rt.alloc(), &OTHERS)
}

#[test]
fn refuses_damaged_status_reports(rt: HostRuntime) -> Result<(), Fail> {
    are_refused(&rt, rt.alloc(), &ROWS)
}

/// Octets that are no status report, and the place and the reason of the refusal.
struct Refused {
    octets: &'static [u8],
    place: usize,
    why: UnitFault,
}

static REFUSED: [Refused; 6] = [
    Refused {
        octets: b"\x04",
        place: 0,
        why: UnitFault::WrongType,
    },
    Refused {
        octets: b"\x07",
        place: 0,
        why: UnitFault::WrongType,
    },
    Refused {
        octets: b"\x06\x00\x15",
        place: 2,
        why: UnitFault::AddressTooLong,
    },
    Refused {
        octets: b"\x06\x00\x02\x91\x1F",
        place: 4,
        why: UnitFault::BadDigit,
    },
    Refused {
        octets: b"\x06\x00\x00\x81\x10\x10\x10\x00\x00\x00\x00\x10\x10\x10\x00\x00\x00\x00\x00\x04\xB6",
        place: 20,
        why: UnitFault::DataTooLong,
    },
    Refused {
        octets: b"\x06\x00\x00\x81\x10\x10\x10\x00\x00\x00\x00\x10\x10\x10\x00\x00\x00\x00\x00\x84\x80",
        place: 21,
        why: UnitFault::Short,
    },
];

#[test]
fn refuses_what_is_no_status_report(rt: HostRuntime) {
    for row in REFUSED.as_slice() {
        let refused = is_refused(rt.alloc(), row.octets, row.place, row.why);
        holds(&rt, &row.octets, refused);
    }
}
