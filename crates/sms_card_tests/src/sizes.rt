//! Records that just have room, and those that have none.

use crate::found::is;
use sms_card::{RECORD_LENGTH, ReceivedUnit, Record, WriteFault};
use sms_tpdu::{StatusReport, Unit};
use std::alloc::Global;
use std::test::Fail;

/// A status report up to its indicator, the coding scheme of octets after it.
const FRONT: &[u8] =
    b"\x06\x05\x04\x91\x01\x10\x00\x10\x10\x00\x00\x00\x00\x00\x10\x10\x00\x00\x00\x00\x00\x07\x00\x04";

/// A record of a status report with so many octets of data, and without a centre.
pub fn record_with(alloc: Global, count: u8) -> Result<Record, Fail> {
    let mut octets = Vec::from_slice(alloc, FRONT)?;
    octets.push(count)?;
    let length = octets.len().saturating_add(usize::from(count));
    octets.resize(length, 0x41)?;
    let (report, _) = StatusReport::read(alloc, &octets)?;
    Ok(Record::Received {
        unread: true,
        centre: None,
        unit: ReceivedUnit::StatusReport(report),
    })
}

/// How many octets a record with so many octets of data is written in.
fn written(alloc: Global, count: u8) -> Result<Result<usize, WriteFault>, Fail> {
    let record = record_with(alloc, count)?;
    match record.write(alloc) {
        Ok(octets) => Ok(Ok(octets.len())),
        Err(fault) => Ok(Err(fault)),
    }
}

#[test]
fn a_record_has_room_for_149_octets(rt: HostRuntime) -> Result<(), Fail> {
    for (count, wanted) in [
        (0, Ok(RECORD_LENGTH)),
        (148, Ok(RECORD_LENGTH)),
        (149, Ok(RECORD_LENGTH)),
        (150, Err(WriteFault::TooLong)),
        (159, Err(WriteFault::TooLong)),
    ] {
        is(&rt, count, written(rt.alloc(), count)?, wanted);
    }
    Ok(())
}
