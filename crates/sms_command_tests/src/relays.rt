//! Relay and connection messages whose fields are shown.

mod rows;

use crate::found::{AfterCentre, are_answered, holds};
use rows::{
    AFTER_CENTRES, CP_DATA, CP_WITHOUT_DATA, FAULTS_IN_ANSWERS, FAULTS_IN_TRANSFERS,
    FAULTS_OF_RP_IN_CP, FAULTS_OF_UNITS_IN_CP, NO_CP_MESSAGES, NO_RP_MESSAGES, RP_ANSWERS, RP_DATA,
};
use sms_trial::answers;
use std::alloc::Global;
use std::test::Fail;

#[test]
fn shows_rp_data(rt: HostRuntime) -> Result<(), Fail> {
    are_answered(&rt, rt.alloc(), "rp", RP_DATA.as_slice(), 0)
}

#[test]
fn shows_rp_acknowledgements_and_errors(rt: HostRuntime) -> Result<(), Fail> {
    are_answered(&rt, rt.alloc(), "rp", RP_ANSWERS.as_slice(), 0)
}

#[test]
fn refuses_what_is_no_rp_message(rt: HostRuntime) -> Result<(), Fail> {
    are_answered(&rt, rt.alloc(), "rp", NO_RP_MESSAGES.as_slice(), 1)
}

#[test]
fn shows_faults_in_transfers(rt: HostRuntime) -> Result<(), Fail> {
    are_answered(&rt, rt.alloc(), "rp", FAULTS_IN_TRANSFERS.as_slice(), 1)
}

#[test]
fn shows_faults_in_answers(rt: HostRuntime) -> Result<(), Fail> {
    are_answered(&rt, rt.alloc(), "rp", FAULTS_IN_ANSWERS.as_slice(), 1)
}

#[test]
fn shows_cp_data(rt: HostRuntime) -> Result<(), Fail> {
    are_answered(&rt, rt.alloc(), "cp", CP_DATA.as_slice(), 0)
}

#[test]
fn shows_cp_messages_without_data(rt: HostRuntime) -> Result<(), Fail> {
    are_answered(&rt, rt.alloc(), "cp", CP_WITHOUT_DATA.as_slice(), 0)
}

#[test]
fn refuses_what_is_no_cp_message(rt: HostRuntime) -> Result<(), Fail> {
    are_answered(&rt, rt.alloc(), "cp", NO_CP_MESSAGES.as_slice(), 1)
}

#[test]
fn shows_faults_of_rp_in_cp(rt: HostRuntime) -> Result<(), Fail> {
    are_answered(&rt, rt.alloc(), "cp", FAULTS_OF_RP_IN_CP.as_slice(), 1)
}

#[test]
fn shows_faults_of_units_in_cp(rt: HostRuntime) -> Result<(), Fail> {
    are_answered(&rt, rt.alloc(), "cp", FAULTS_OF_UNITS_IN_CP.as_slice(), 1)
}

/// Whether octets that begin with a centre have the status and the answer of a row, the option
/// last.
fn is_answered_after_a_centre(alloc: Global, row: &AfterCentre) -> Result<bool, Fail> {
    let words = ["sms", "show", row.kind, row.octets, "--sca"];
    answers(alloc, &words, row.status, row.answer)
}

#[test]
fn shows_messages_after_a_centre(rt: HostRuntime) -> Result<(), Fail> {
    for row in AFTER_CENTRES.as_slice() {
        let answered = is_answered_after_a_centre(rt.alloc(), row)?;
        holds(&rt, &(row.kind, row.octets), answered);
    }
    Ok(())
}
