//! Records that are seen, and written again.

use crate::found::{holds, is};
use crate::rows::{FREE, Inside, REFUSED, ROWS, Row};
use sms_card::{
    OriginatedUnit, OriginatedView, RECORD_LENGTH, ReceivedUnit, ReceivedView, Record, RecordView,
    Status,
};
use sms_field::RpAddress;
use sms_tpdu::Unit;
use std::alloc::{AllocError, Global};
use std::process::Abort;
use std::test::Fail;

/// A record of a front, with FF to so many octets.
pub fn padded(alloc: Global, front: &[u8], count: usize) -> Result<Vec<u8>, AllocError> {
    let mut octets = Vec::from_slice(alloc, front)?;
    octets.resize(count.max(front.len()), 0xFF)?;
    Ok(octets)
}

/// What a view has inside.
fn inside(view: &RecordView<'_>) -> Inside {
    match view {
        RecordView::Free => Inside::Nothing,
        RecordView::Received { unit, .. } => match unit {
            ReceivedView::Deliver(_) => Inside::Deliver,
            ReceivedView::StatusReport(_) => Inside::StatusReport,
        },
        RecordView::Originated { unit, .. } => match unit {
            OriginatedView::Submit(_) => Inside::Submit,
            OriginatedView::Command(_) => Inside::Command,
        },
    }
}

/// The octets of the unit of a record.
fn unit_of(alloc: Global, record: &Record) -> Result<Vec<u8>, AllocError> {
    match record {
        Record::Free => Ok(Vec::new(alloc)),
        Record::Received { unit, .. } => match unit {
            ReceivedUnit::Deliver(deliver) => deliver.write(alloc),
            ReceivedUnit::StatusReport(report) => report.write(alloc),
        },
        Record::Originated { unit, .. } => match unit {
            OriginatedUnit::Submit(submit) => submit.write(alloc),
            OriginatedUnit::Command(command) => command.write(alloc),
        },
    }
}

/// The centre of a record.
fn centre_of(record: &Record) -> Option<&RpAddress> {
    match record {
        Record::Free => None,
        Record::Received { centre, .. } => centre.as_ref(),
        Record::Originated { centre, .. } => centre.as_ref(),
    }
}

/// Whether an address, or none, has a text.
fn is_number(
    alloc: Global,
    address: Option<&RpAddress>,
    wanted: Option<&str>,
) -> Result<bool, AllocError> {
    match (address, wanted) {
        (None, None) => Ok(true),
        (Some(address), Some(wanted)) => {
            let text = address.to_text(alloc)?;
            Ok(text.as_str() == wanted)
        }
        _ => Ok(false),
    }
}

/// Whether a record has the centre and the unit of a row.
fn has_parts(alloc: Global, row: &Row, record: &Record) -> Result<bool, AllocError> {
    let unit = unit_of(alloc, record)?;
    let same = Some(unit.as_slice()) == row.octets.get(row.unit..);
    Ok(same && is_number(alloc, centre_of(record), row.centre)?)
}

/// Whether a record is written in these octets.
fn is_written(alloc: Global, record: &Record, octets: &[u8]) -> Result<bool, Fail> {
    let written = record.write(alloc)?;
    Ok(written.as_slice() == octets)
}

/// Whether octets are seen as the record of a row, which is written with padding.
fn is_seen(alloc: Global, row: &Row, octets: &[u8], whole: &[u8]) -> Result<bool, Fail> {
    let view = match RecordView::read(octets) {
        Ok(view) => view,
        Err(_) => return Ok(false),
    };
    let record = view.to_value(alloc)?;
    let stands = view.status() == row.status && record.status() == row.status;
    let same = stands && inside(&view) == row.inside;
    Ok(same && has_parts(alloc, row, &record)? && is_written(alloc, &record, whole)?)
}

/// A row is seen however many of its FF were cut.
fn row_is_seen(rt: &impl Abort, alloc: Global, row: &Row) -> Result<(), Fail> {
    let whole = padded(alloc, row.octets, RECORD_LENGTH)?;
    for count in row.octets.len()..=RECORD_LENGTH {
        let cut = whole.get(..count).unwrap_or(&[]);
        let seen = is_seen(alloc, row, cut, &whole)?;
        holds(rt, (row.says, count), seen);
    }
    Ok(())
}

#[test]
fn records_are_seen_and_written(rt: HostRuntime) -> Result<(), Fail> {
    for row in &ROWS {
        row_is_seen(&rt, rt.alloc(), row)?;
    }
    Ok(())
}

/// Whether octets are free space.
fn is_free(octets: &[u8]) -> bool {
    match RecordView::read(octets) {
        Ok(view) => view.status() == Status::Free,
        Err(_) => false,
    }
}

#[test]
fn free_space_is_anything(rt: HostRuntime) {
    for octets in FREE {
        holds(&rt, octets, is_free(octets));
    }
}

#[test]
fn bad_records_are_refused(rt: HostRuntime) {
    for row in &REFUSED {
        let fault = RecordView::read(row.octets).err();
        let found = fault.map(|fault| (fault.place, fault.why));
        is(&rt, row.octets, found, Some((row.place, row.why)));
    }
}
