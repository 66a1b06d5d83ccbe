//! Octets and words, and what the command answers to them.

use sms_trial::answers;
use std::alloc::{AllocError, Global};
use std::fmt::Debug;
use std::process::Abort;
use std::test::Fail;

/// Octets, and the answer where they are shown: its lines, or some of them.
pub struct Shown {
    pub octets: &'static str,
    pub lines: &'static str,
}

/// A kind of unit, octets that begin with the address of a service centre, the status and the
/// answer.
pub struct AfterCentre {
    pub kind: &'static str,
    pub octets: &'static str,
    pub status: u8,
    pub answer: &'static str,
}

/// What is said of the row is so.
pub fn holds(rt: &impl Abort, row: &impl Debug, so: bool) {
    assert!(rt; so, "{row:?}");
}

/// Whether octets as a kind have a status and an answer.
pub fn is_answered(
    alloc: Global,
    kind: &str,
    octets: &str,
    lines: &str,
    wanted: u8,
) -> Result<bool, Fail> {
    answers(alloc, &["sms", "show", kind, octets], wanted, lines)
}

/// The octets of each row as a kind have a status, and its lines as their answer.
pub fn are_answered(
    rt: &impl Abort,
    alloc: Global,
    kind: &str,
    rows: &[Shown],
    status: u8,
) -> Result<(), Fail> {
    for row in rows {
        let answered = is_answered(alloc, kind, row.octets, row.lines, status)?;
        holds(rt, &(kind, row.octets), answered);
    }
    Ok(())
}

/// Whether octets that begin with a centre have the status and the answer of a row.
fn is_answered_after_a_centre(alloc: Global, row: &AfterCentre) -> Result<bool, Fail> {
    let words = ["sms", "show", "--sca", row.kind, row.octets];
    answers(alloc, &words, row.status, row.answer)
}

/// The octets of each row, which begin with a centre, have its status and its answer.
pub fn are_answered_after_a_centre(
    rt: &impl Abort,
    alloc: Global,
    rows: &[AfterCentre],
) -> Result<(), Fail> {
    for row in rows {
        let answered = is_answered_after_a_centre(alloc, row)?;
        holds(rt, &(row.kind, row.octets), answered);
    }
    Ok(())
}

/// What is said of octets that are short at a place.
fn short_at(alloc: Global, place: usize) -> Result<String, AllocError> {
    format!(in alloc; "at {place}: short\n")
}

/// Whether a front of the octets of a unit is refused as short at its end.
pub fn is_missed(alloc: Global, kind: &str, front: &str) -> Result<bool, Fail> {
    let line = short_at(alloc, front.len() / 2)?;
    is_answered(alloc, kind, front, &line, 1)
}
