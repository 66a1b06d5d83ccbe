//! Records, while one request for memory is refused.

use crate::found::holds;
use crate::rows::{ROWS, Row};
use crate::seen::padded;
use sms_card::{RECORD_LENGTH, RecordView, WriteFault};
use std::alloc::Global;
use std::test::Fail;

/// Whether the record of a row is written as it was, or refused for want of memory.
fn comes_back(alloc: Global, row: &Row, whole: &[u8]) -> bool {
    let view = match RecordView::read(whole) {
        Ok(view) => view,
        Err(_) => return false,
    };
    let record = match view.to_value(alloc) {
        Ok(record) => record,
        Err(_) => return true,
    };
    match record.write(alloc) {
        Ok(octets) => octets.as_slice() == whole && view.status() == row.status,
        Err(fault) => fault == WriteFault::Memory,
    }
}

#[test]
fn records_come_back_after_a_refused_growth(rt: HostRuntime) -> Result<(), Fail> {
    for row in &ROWS {
        let Ok(whole) = padded(rt.alloc(), row.octets, RECORD_LENGTH) else {
            continue;
        };
        let so = comes_back(rt.alloc(), row, &whole);
        let again = comes_back(rt.alloc(), row, &whole);
        holds(&rt, row.says, so && again);
    }
    Ok(())
}
