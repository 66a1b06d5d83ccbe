//! The texts of reports where they lie.

use crate::found::{holds, same};
use sms_tpdu::{DeliverAckView, Refusal, StatusReportView, UnitFault};
use std::alloc::Global;
use std::process::Abort;
use std::test::Fail;

/// An SMS-DELIVER-REPORT for RP-ACK, and the text of its data.
struct Row {
    what: &'static str,
    octets: &'static [u8],
    text: Option<&'static str>,
}

static ROWS: [Row; 9] = [
    Row {
        what: "no data",
        octets: b"\x00\x00",
        text: None,
    },
    Row {
        what: "two septets without a coding scheme",
        octets: b"\x00\x04\x02\xE8\x34",
        text: Some("hi"),
    },
    Row {
        what: "two septets under one",
        octets: b"\x00\x06\x00\x02\xE8\x34",
        text: Some("hi"),
    },
    Row {
        what: "two units of UCS-2",
        octets: b"\x00\x06\x08\x04\x00\x68\x20\xAC",
        text: Some("h€"),
    },
    Row {
        what: "octets",
        octets: b"\x00\x06\x04\x02\x68\x69",
        text: None,
    },
    Row {
        what: "two septets after a header and a fill bit",
        octets: b"\x40\x04\x09\x05\x00\x03\x07\x02\x01\xD0\x69",
        text: Some("hi"),
    },
    Row {
        what: "a header that is cut",
        octets: b"\x40\x04\x02\x05\x00",
        text: None,
    },
    Row {
        what: "a header in one septet",
        octets: b"\x40\x04\x01\x00",
        text: None,
    },
    Row {
        what: "a header alone",
        octets: b"\x40\x06\x08\x01\x00",
        text: Some(""),
    },
];

/// An SMS-STATUS-REPORT with two septets.
static STATUS: [u8; 30] = [
    0x06, 0x04, 0x0D, 0x91, 0x94, 0x51, 0x52, 0x99, 0x11, 0x36, 0xF0, 0x01, 0x60, 0x12, 0x41, 0x30,
    0x34, 0x0A, 0x01, 0x60, 0x12, 0x41, 0x30, 0x94, 0x0A, 0x00, 0x04, 0x02, 0xE8, 0x34,
];

/// The text of a row's report.
fn text_of(alloc: Global, row: &Row) -> Result<Option<String>, Refusal<UnitFault>> {
    let (view, _) = DeliverAckView::read(row.octets)?;
    Ok(view.text(alloc)?)
}

/// Whether the status report has its text.
fn has_text(alloc: Global) -> Result<bool, Refusal<UnitFault>> {
    let (view, _) = StatusReportView::read(&STATUS)?;
    let text = view.text(alloc)?;
    Ok(text.as_deref() == Some("hi"))
}

/// The row has its text.
fn is_told(rt: &impl Abort, row: &Row, text: Option<String>) {
    same(rt, &row.what, &text.as_deref(), &row.text);
}

#[test]
fn the_texts_of_reports(rt: HostRuntime) -> Result<(), Fail> {
    for row in &ROWS {
        let text = text_of(rt.alloc(), row)?;
        is_told(&rt, row, text);
    }
    Ok(())
}

#[test]
fn the_text_of_a_status_report(rt: HostRuntime) -> Result<(), Fail> {
    let has = has_text(rt.alloc())?;
    holds(&rt, &"hi", has);
    Ok(())
}

#[test]
fn the_text_of_a_status_report_after_a_refused_growth(rt: HostRuntime) -> Result<(), Fail> {
    let has = match has_text(rt.alloc()) {
        Err(Refusal::Memory) => has_text(rt.alloc())?,
        answer => answer?,
    };
    holds(&rt, &"hi", has);
    Ok(())
}
