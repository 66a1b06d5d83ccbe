//! Commands.

use crate::again::rewritten;
use crate::alike::{Kind, agree_everywhere};
use crate::found::{are, holds};
use crate::submit::digits_in;
use sms_field::Address;
use sms_tpdu::{Command, Refusal, Unit, UnitFault};
use std::alloc::Global;
use std::process::Abort;
use std::test::Fail;

/// A command as its octets, what they say, and how it is written.
struct Row {
    octets: &'static [u8],
    has_header: bool,
    report: bool,
    reference: u8,
    pid: u8,
    kind: u8,
    message: u8,
    type_of_number: u8,
    digits: &'static [u8],
    data: &'static [u8],
    written: &'static [u8],
}

static ROWS: [Row; 3] = [
    // delete the message 5
    Row {
        octets: b"\x02\x07\x00\x02\x05\x04\x91\x01\x20\x00",
        has_header: false,
        report: false,
        reference: 0x07,
        pid: 0x00,
        kind: 0x02,
        message: 0x05,
        type_of_number: 1,
        digits: &[1, 0, 0, 2],
        data: b"",
        written: b"\x02\x07\x00\x02\x05\x04\x91\x01\x20\x00",
    },
    // an enquiry with data; the free bits of the first octet are 1
    Row {
        octets: b"\xFE\x08\x41\x00\x06\x02\x81\x21\x03\xAA\xBB\xCC",
        has_header: true,
        report: true,
        reference: 0x08,
        pid: 0x41,
        kind: 0x00,
        message: 0x06,
        type_of_number: 0,
        digits: &[1, 2],
        data: b"\xAA\xBB\xCC",
        written: b"\x62\x08\x41\x00\x06\x02\x81\x21\x03\xAA\xBB\xCC",
    },
    // a command of the service centre's own; no digits
    Row {
        octets: b"\x22\x09\x00\xE0\x00\x00\x91\x01\xFF",
        has_header: false,
        report: true,
        reference: 0x09,
        pid: 0x00,
        kind: 0xE0,
        message: 0x00,
        type_of_number: 1,
        digits: &[],
        data: b"\xFF",
        written: b"\x22\x09\x00\xE0\x00\x00\x91\x01\xFF",
    },
];

/// Whether an address is the telephone number of a row.
fn is_number(address: &Address, row: &Row) -> bool {
    (address.type_of_number, address.plan) == (row.type_of_number, 1)
        && digits_in(&address.symbols) == Some(row.digits)
}

/// Whether the fields of a command are those of a row.
fn has_fields(command: &Command, row: &Row) -> bool {
    (command.has_header, command.report) == (row.has_header, row.report)
        && (command.reference, command.pid) == (row.reference, row.pid)
        && (command.kind, command.message) == (row.kind, row.message)
        && is_number(&command.target, row)
        && command.octets.as_slice() == row.data
}

/// Whether a command is read as its row says.
fn is_read(alloc: Global, row: &Row) -> Result<bool, Fail> {
    let (command, used) = Command::read(alloc, row.octets)?;
    Ok(used == row.octets.len() && has_fields(&command, row))
}

/// What is written of the command that is read, and read again.
fn written(alloc: Global, octets: &[u8]) -> Result<Vec<u8>, Refusal<UnitFault>> {
    let (command, _) = Command::read(alloc, octets)?;
    rewritten(alloc, &command)
}

#[test]
fn reads_and_writes_commands(rt: HostRuntime) -> Result<(), Fail> {
    for row in ROWS.as_slice() {
        let read = is_read(rt.alloc(), row)?;
        holds(&rt, &row.octets, read);
        let written = written(rt.alloc(), row.octets)?;
        are(&rt, &row.octets, &written, row.written);
    }
    Ok(())
}

/// Whether octets are refused as a command at this place for this reason.
fn is_refused(alloc: Global, octets: &[u8], place: usize, why: UnitFault) -> bool {
    match Command::read(alloc, octets) {
        Ok(_) => false,
        Err(refusal) => refusal == Refusal::At { place, why },
    }
}

/// All fronts of a command are refused, as too short.
fn needs_all(rt: &impl Abort, alloc: Global, row: &Row) {
    for n in 0..row.octets.len() {
        let short = is_refused(alloc, &row.octets[..n], n, UnitFault::Short);
        holds(rt, &(row.octets, n), short);
    }
}

#[test]
fn refuses_damaged_commands(rt: HostRuntime) -> Result<(), Fail> {
    for row in ROWS.as_slice() {
        needs_all(&rt, rt.alloc(), row);
        agree_everywhere(&rt, rt.alloc(), Kind::Command, row.octets)?;
    }
    Ok(())
}

/// Octets that are no command, and the place and the reason of the refusal.
struct Refused {
    octets: &'static [u8],
    place: usize,
    why: UnitFault,
}

static REFUSED: [Refused; 6] = [
    Refused {
        octets: b"\x01",
        place: 0,
        why: UnitFault::WrongType,
    },
    Refused {
        octets: b"\x03",
        place: 0,
        why: UnitFault::WrongType,
    },
    Refused {
        octets: b"\x02\x00\x00\x00\x00\x15",
        place: 5,
        why: UnitFault::AddressTooLong,
    },
    Refused {
        octets: b"\x02\x00\x00\x00\x00\x01\x81\x0F",
        place: 7,
        why: UnitFault::BadDigit,
    },
    // 157 octets of data, and one more
    Refused {
        octets: b"\x02\x00\x00\x00\x00\x00\x81\x9D",
        place: 8,
        why: UnitFault::Short,
    },
    Refused {
        octets: b"\x02\x00\x00\x00\x00\x00\x81\x9E",
        place: 7,
        why: UnitFault::DataTooLong,
    },
];

#[test]
fn refuses_what_is_no_command(rt: HostRuntime) {
    for row in REFUSED.as_slice() {
        let refused = is_refused(rt.alloc(), row.octets, row.place, row.why);
        holds(&rt, &row.octets, refused);
    }
}
