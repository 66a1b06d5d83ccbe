//! Reports whose fields are shown.

mod rows;

use crate::found::{are_answered_after_a_centre, holds, is_answered};
use rows::{DELIVER_REPORTS, NO_REPORTS, REPORTS_AFTER_CENTRES, Report, SUBMIT_REPORTS};
use std::alloc::Global;
use std::process::Abort;
use std::test::Fail;

/// The octets of each row as its kind have a status, and its answer.
fn are_answered(rt: &impl Abort, alloc: Global, rows: &[Report], status: u8) -> Result<(), Fail> {
    for row in rows {
        let answered = is_answered(alloc, row.kind, row.octets, row.answer, status)?;
        holds(rt, &(row.kind, row.octets), answered);
    }
    Ok(())
}

#[test]
fn shows_submit_reports(rt: HostRuntime) -> Result<(), Fail> {
    are_answered(&rt, rt.alloc(), SUBMIT_REPORTS.as_slice(), 0)
}

#[test]
fn shows_deliver_reports(rt: HostRuntime) -> Result<(), Fail> {
    are_answered(&rt, rt.alloc(), DELIVER_REPORTS.as_slice(), 0)
}

#[test]
fn refuses_what_is_no_report(rt: HostRuntime) -> Result<(), Fail> {
    are_answered(&rt, rt.alloc(), NO_REPORTS.as_slice(), 1)
}

#[test]
fn shows_reports_after_a_centre(rt: HostRuntime) -> Result<(), Fail> {
    are_answered_after_a_centre(&rt, rt.alloc(), REPORTS_AFTER_CENTRES.as_slice())
}
