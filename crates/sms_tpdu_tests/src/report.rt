//! Reports whose octets are known from the standard's tables.

use crate::again::rewritten;
use crate::found::{are, holds, same};
use sms_tpdu::{
    DeliverAck, DeliverError, Refusal, Report, ReportData, ReportPart, ReportStamp, SubmitAck,
    SubmitError, Unit, UnitFault,
};
use std::alloc::{AllocError, Global};
use std::process::Abort;
use std::test::Fail;

/// The four kinds of report.
#[derive(Clone, Copy, Debug)]
enum Kind {
    SubmitAck,
    SubmitError,
    DeliverAck,
    DeliverError,
}

/// What a report says. A kind without a cause says 0 for it, one without a stamp seven times 0.
#[derive(Drop)]
struct Said {
    has_header: bool,
    cause: u8,
    stamp: [u8; 7],
    pid: Option<u8>,
    dcs: Option<u8>,
    user: Option<ReportData>,
}

/// The data of a report: the length that stands before them, and their octets.
#[derive(Clone, Copy)]
pub struct Data {
    pub length: u8,
    pub octets: &'static [u8],
}

/// A report as its octets, what they say, and how it is written.
struct Row {
    kind: Kind,
    octets: &'static [u8],
    has_header: bool,
    cause: u8,
    stamp: [u8; 7],
    pid: Option<u8>,
    dcs: Option<u8>,
    user: Option<Data>,
    written: &'static [u8],
}

/// The first second of 2001, in the zone of Greenwich.
const NEW_YEAR: [u8; 7] = [0x10, 0x10, 0x10, 0x00, 0x00, 0x00, 0x00];

/// No stamp.
const NONE: [u8; 7] = [0; 7];

static ROWS: [Row; 14] = [
    Row {
        kind: Kind::SubmitAck,
        octets: b"\x01\x00\x10\x10\x10\x00\x00\x00\x00",
        has_header: false,
        cause: 0,
        stamp: NEW_YEAR,
        pid: None,
        dcs: None,
        user: None,
        written: b"\x01\x00\x10\x10\x10\x00\x00\x00\x00",
    },
    // all parts, in octets; the free bits of the first octet and of the indicator are 1
    Row {
        kind: Kind::SubmitAck,
        octets: b"\xFD\x7F\x10\x10\x10\x00\x00\x00\x00\x7F\x04\x02\xAA\xBB",
        has_header: true,
        cause: 0,
        stamp: NEW_YEAR,
        pid: Some(0x7F),
        dcs: Some(0x04),
        user: Some(Data {
            length: 2,
            octets: b"\xAA\xBB",
        }),
        written: b"\x41\x07\x10\x10\x10\x00\x00\x00\x00\x7F\x04\x02\xAA\xBB",
    },
    // two further octets of the indicator; eight septets without a coding scheme
    Row {
        kind: Kind::SubmitAck,
        octets: b"\x01\x84\xFF\x07\x10\x10\x10\x00\x00\x00\x00\x08\x01\x02\x03\x04\x05\x06\x07",
        has_header: false,
        cause: 0,
        stamp: NEW_YEAR,
        pid: None,
        dcs: None,
        user: Some(Data {
            length: 8,
            octets: b"\x01\x02\x03\x04\x05\x06\x07",
        }),
        written: b"\x01\x04\x10\x10\x10\x00\x00\x00\x00\x08\x01\x02\x03\x04\x05\x06\x07",
    },
    Row {
        kind: Kind::SubmitError,
        octets: b"\x01\xC5\x00\x10\x10\x10\x00\x00\x00\x00",
        has_header: false,
        cause: 0xC5,
        stamp: NEW_YEAR,
        pid: None,
        dcs: None,
        user: None,
        written: b"\x01\xC5\x00\x10\x10\x10\x00\x00\x00\x00",
    },
    // a cause like an indicator of all parts; the coding scheme alone
    Row {
        kind: Kind::SubmitError,
        octets: b"\x01\x87\x02\x10\x10\x10\x00\x00\x00\x00\x08",
        has_header: false,
        cause: 0x87,
        stamp: NEW_YEAR,
        pid: None,
        dcs: Some(0x08),
        user: None,
        written: b"\x01\x87\x02\x10\x10\x10\x00\x00\x00\x00\x08",
    },
    // no data, with a length
    Row {
        kind: Kind::SubmitError,
        octets: b"\x41\xFF\x84\x00\x10\x10\x10\x00\x00\x00\x00\x00",
        has_header: true,
        cause: 0xFF,
        stamp: NEW_YEAR,
        pid: None,
        dcs: None,
        user: Some(Data {
            length: 0,
            octets: b"",
        }),
        written: b"\x41\xFF\x04\x10\x10\x10\x00\x00\x00\x00\x00",
    },
    Row {
        kind: Kind::DeliverAck,
        octets: b"\x00\x00",
        has_header: false,
        cause: 0,
        stamp: NONE,
        pid: None,
        dcs: None,
        user: None,
        written: b"\x00\x00",
    },
    // the identifier alone
    Row {
        kind: Kind::DeliverAck,
        octets: b"\x40\x01\x41",
        has_header: true,
        cause: 0,
        stamp: NONE,
        pid: Some(0x41),
        dcs: None,
        user: None,
        written: b"\x40\x01\x41",
    },
    // one letter in UCS-2
    Row {
        kind: Kind::DeliverAck,
        octets: b"\x00\x06\x08\x02\x04\x36",
        has_header: false,
        cause: 0,
        stamp: NONE,
        pid: None,
        dcs: Some(0x08),
        user: Some(Data {
            length: 2,
            octets: b"\x04\x36",
        }),
        written: b"\x00\x06\x08\x02\x04\x36",
    },
    // two septets of the 7-bit alphabet, with bits to spare
    Row {
        kind: Kind::DeliverAck,
        octets: b"\x00\x86\x00\x00\x02\xE8\xF4",
        has_header: false,
        cause: 0,
        stamp: NONE,
        pid: None,
        dcs: Some(0x00),
        user: Some(Data {
            length: 2,
            octets: b"\xE8\xF4",
        }),
        written: b"\x00\x06\x00\x02\xE8\xF4",
    },
    Row {
        kind: Kind::DeliverError,
        octets: b"\x00\xD3\x00",
        has_header: false,
        cause: 0xD3,
        stamp: NONE,
        pid: None,
        dcs: None,
        user: None,
        written: b"\x00\xD3\x00",
    },
    // the identifier and one septet
    Row {
        kind: Kind::DeliverError,
        octets: b"\xBC\x90\x05\x00\x01\x61",
        has_header: false,
        cause: 0x90,
        stamp: NONE,
        pid: Some(0x00),
        dcs: None,
        user: Some(Data {
            length: 1,
            octets: b"\x61",
        }),
        written: b"\x00\x90\x05\x00\x01\x61",
    },
    // the identifier and the coding scheme
    Row {
        kind: Kind::DeliverError,
        octets: b"\x00\xB0\x03\x10\xF5",
        has_header: false,
        cause: 0xB0,
        stamp: NONE,
        pid: Some(0x10),
        dcs: Some(0xF5),
        user: None,
        written: b"\x00\xB0\x03\x10\xF5",
    },
    // compressed text is counted in octets
    Row {
        kind: Kind::DeliverError,
        octets: b"\x00\xFF\x06\x20\x03\x01\x02\x03",
        has_header: false,
        cause: 0xFF,
        stamp: NONE,
        pid: None,
        dcs: Some(0x20),
        user: Some(Data {
            length: 3,
            octets: b"\x01\x02\x03",
        }),
        written: b"\x00\xFF\x06\x20\x03\x01\x02\x03",
    },
];

/// What a report says, how many octets it takes, and how it is written when it has been read again.
#[derive(Drop)]
struct Read {
    said: Said,
    used: usize,
    written: Vec<u8>,
}

/// What a report says that was read, with this failure cause and stamp.
fn read_with<C: ReportPart, S: ReportStamp>(
    alloc: Global,
    report: Report<C, S>,
    used: usize,
    cause: u8,
    stamp: [u8; 7],
) -> Result<Read, Refusal<UnitFault>> {
    let written = rewritten(alloc, &report)?;
    let said = Said {
        has_header: report.has_header,
        cause,
        stamp,
        pid: report.pid,
        dcs: report.dcs,
        user: report.user,
    };
    Ok(Read {
        said,
        used,
        written,
    })
}

/// What octets say as the report on a submission that was taken.
fn submit_ack(alloc: Global, octets: &[u8]) -> Result<Read, Refusal<UnitFault>> {
    let (report, used) = SubmitAck::read(alloc, octets)?;
    let stamp = report.stamp.octets();
    read_with(alloc, report, used, 0, stamp)
}

/// The same where it was not.
fn submit_error(alloc: Global, octets: &[u8]) -> Result<Read, Refusal<UnitFault>> {
    let (report, used) = SubmitError::read(alloc, octets)?;
    let (cause, stamp) = (report.cause, report.stamp.octets());
    read_with(alloc, report, used, cause, stamp)
}

/// What octets say as the report on a delivery that was taken.
fn deliver_ack(alloc: Global, octets: &[u8]) -> Result<Read, Refusal<UnitFault>> {
    let (report, used) = DeliverAck::read(alloc, octets)?;
    read_with(alloc, report, used, 0, NONE)
}

/// The same where it was not.
fn deliver_error(alloc: Global, octets: &[u8]) -> Result<Read, Refusal<UnitFault>> {
    let (report, used) = DeliverError::read(alloc, octets)?;
    let cause = report.cause;
    read_with(alloc, report, used, cause, NONE)
}

/// What octets say as a report of a kind.
fn report(alloc: Global, kind: Kind, octets: &[u8]) -> Result<Read, Refusal<UnitFault>> {
    match kind {
        Kind::SubmitAck => submit_ack(alloc, octets),
        Kind::SubmitError => submit_error(alloc, octets),
        Kind::DeliverAck => deliver_ack(alloc, octets),
        Kind::DeliverError => deliver_error(alloc, octets),
    }
}

/// Whether data are these.
pub fn are_data(user: &Option<ReportData>, wanted: Option<Data>) -> bool {
    match (user, wanted) {
        (Some(user), Some(wanted)) => {
            user.length == wanted.length && user.octets.as_slice() == wanted.octets
        }
        (None, None) => true,
        _ => false,
    }
}

/// Whether a report says what its row says.
fn says(said: &Said, row: &Row) -> bool {
    said.has_header == row.has_header
        && (said.cause, said.stamp) == (row.cause, row.stamp)
        && (said.pid, said.dcs) == (row.pid, row.dcs)
        && are_data(&said.user, row.user)
}

/// The octets, and others after them.
fn with_others(alloc: Global, octets: &[u8]) -> Result<Vec<u8>, AllocError> {
    let mut octets = Vec::from_slice(alloc, octets)?;
    octets.extend_from_slice(b"\x00\xFF")?;
    Ok(octets)
}

/// Whether the octets of a row, and others after them, are read and written as the row says.
fn is_right(alloc: Global, row: &Row) -> Result<bool, Fail> {
    let octets = with_others(alloc, row.octets)?;
    let found = report(alloc, row.kind, &octets)?;
    Ok(
        says(&found.said, row)
            && found.used == row.octets.len()
            && found.written.as_slice() == row.written,
    )
}

#[test]
fn reads_and_writes_reports(rt: HostRuntime) -> Result<(), Fail> {
    for row in ROWS.as_slice() {
        let right = is_right(rt.alloc(), row)?;
        holds(&rt, &(row.kind, row.octets), right);
    }
    Ok(())
}

/// Whether octets are refused as a kind of report at this place for this reason.
fn is_refused(alloc: Global, kind: Kind, octets: &[u8], place: usize, why: UnitFault) -> bool {
    match report(alloc, kind, octets) {
        Ok(_) => false,
        Err(refusal) => refusal == Refusal::At { place, why },
    }
}

/// Octets that are no report of a kind, and the place and the reason of the refusal.
struct Refused {
    kind: Kind,
    octets: &'static [u8],
    place: usize,
    why: UnitFault,
}

static REFUSED: [Refused; 10] = [
    Refused {
        kind: Kind::SubmitAck,
        octets: b"\x00",
        place: 0,
        why: UnitFault::WrongType,
    },
    Refused {
        kind: Kind::SubmitError,
        octets: b"\x03",
        place: 0,
        why: UnitFault::WrongType,
    },
    Refused {
        kind: Kind::DeliverAck,
        octets: b"\x01",
        place: 0,
        why: UnitFault::WrongType,
    },
    Refused {
        kind: Kind::DeliverError,
        octets: b"\x42",
        place: 0,
        why: UnitFault::WrongType,
    },
    Refused {
        kind: Kind::SubmitAck,
        octets: b"\x01\x04\x10\x10\x10\x00\x00\x00\x00\xB6",
        place: 9,
        why: UnitFault::DataTooLong,
    },
    Refused {
        kind: Kind::DeliverAck,
        octets: b"\x00\x04\xB5",
        place: 3,
        why: UnitFault::Short,
    },
    Refused {
        kind: Kind::DeliverAck,
        octets: b"\x00\x04\xB6",
        place: 2,
        why: UnitFault::DataTooLong,
    },
    Refused {
        kind: Kind::DeliverError,
        octets: b"\x00\xD3\x06\x04\x9F",
        place: 5,
        why: UnitFault::Short,
    },
    Refused {
        kind: Kind::DeliverError,
        octets: b"\x00\xD3\x06\x04\xA0",
        place: 4,
        why: UnitFault::DataTooLong,
    },
    Refused {
        kind: Kind::DeliverAck,
        octets: b"\x00\x80\x80\xFF",
        place: 4,
        why: UnitFault::Short,
    },
];

/// All fronts of a report are refused, as too short.
fn needs_all(rt: &impl Abort, alloc: Global, row: &Row) {
    for n in 0..row.octets.len() {
        let short = is_refused(alloc, row.kind, &row.octets[..n], n, UnitFault::Short);
        holds(rt, &(row.kind, row.octets, n), short);
    }
}

#[test]
fn refuses_cut_reports(rt: HostRuntime) {
    for row in ROWS.as_slice() {
        needs_all(&rt, rt.alloc(), row);
    }
}

#[test]
fn refuses_what_is_no_report(rt: HostRuntime) {
    for row in REFUSED.as_slice() {
        let refused = is_refused(rt.alloc(), row.kind, row.octets, row.place, row.why);
        holds(&rt, &(row.kind, row.octets), refused);
    }
}

/// The octets of a report on a delivery with 181 septets, which are 159 octets.
fn longest(alloc: Global) -> Result<Vec<u8>, Fail> {
    let mut octets = Vec::from_slice(alloc, b"\x00\x04\xB5")?;
    octets.extend_from_slice(&[0x55; 159])?;
    Ok(octets)
}

#[test]
fn reads_and_writes_the_longest_report(rt: HostRuntime) -> Result<(), Fail> {
    let octets = longest(rt.alloc())?;
    let read = deliver_ack(rt.alloc(), &octets)?;
    same(&rt, &"octets", &read.used, &162);
    are(&rt, &"written", &read.written, &octets);
    Ok(())
}
