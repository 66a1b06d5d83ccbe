//! Whether the runs of scripts were orderly, as it is told after their transcripts.

mod rows;

use crate::found::holds;
use rows::{BROKEN, KEPT, OBJECTS, Ordered, PHONES, TWO_PHONES, WHOLES, WRONGS, Wrong};
use sms_trial::{are_fed, are_fed_as_json, expanded, fed_with};
use std::alloc::Global;
use std::process::Abort;
use std::test::Fail;

/// A script after its phones, its parts expanded.
pub fn script_of(alloc: Global, phones: &str, parts: &str) -> Result<String, Fail> {
    let script = expanded(alloc, parts)?;
    let whole = [phones, &script].concat(alloc);
    drop(script);
    Ok(whole?)
}

/// The transcript of a script, and what is told of its run.
fn transcript_of(alloc: Global, script: &str, told: &str) -> Result<String, Fail> {
    let (_, transcript) = fed_with(alloc, &["sms", "play"], script)?;
    let whole = [transcript.as_str(), told].concat(alloc);
    drop(transcript);
    Ok(whole?)
}

/// Whether with these words the transcript of a script stands as it does else, and after it what is
/// told of its run.
pub fn is_told(alloc: Global, words: &[&str], script: &str, told: &str) -> Result<bool, Fail> {
    let wanted = transcript_of(alloc, script, told)?;
    let (status, output) = fed_with(alloc, words, script)?;
    Ok(status == 0 && output == wanted)
}

/// Whether a row's order is told.
fn is_row_told(alloc: Global, row: &Ordered) -> Result<bool, Fail> {
    let script = script_of(alloc, PHONES, row.script)?;
    let told = is_told(alloc, &["sms", "play", "--orderly"], &script, row.order);
    drop(script);
    told
}

/// The order of each row is told.
fn are_told(rt: &impl Abort, alloc: Global, rows: &[Ordered]) -> Result<(), Fail> {
    for row in rows {
        let told = is_row_told(alloc, row)?;
        holds(rt, &row.script, told);
    }
    Ok(())
}

#[test]
fn tells_runs_that_are_orderly(rt: HostRuntime) -> Result<(), Fail> {
    are_told(&rt, rt.alloc(), KEPT.as_slice())
}

#[test]
fn tells_the_first_event_out_of_order(rt: HostRuntime) -> Result<(), Fail> {
    are_told(&rt, rt.alloc(), BROKEN.as_slice())
}

/// Whether with these words the output of a script ends so.
pub fn ends_with(alloc: Global, words: &[&str], script: &str, ends: &str) -> Result<bool, Fail> {
    let wanted = expanded(alloc, ends)?;
    let (status, output) = fed_with(alloc, words, script)?;
    Ok(status == 0 && output.ends_with(wanted.as_str()))
}

/// Whether a row goes wrong so.
fn goes_wrong(alloc: Global, row: &Wrong) -> Result<bool, Fail> {
    let script = script_of(alloc, TWO_PHONES, row.script)?;
    let ends = ends_with(alloc, &["sms", "play", "--orderly"], &script, row.ends);
    drop(script);
    ends
}

#[test]
fn tells_what_goes_wrong_without_each_condition(rt: HostRuntime) -> Result<(), Fail> {
    for row in WRONGS.as_slice() {
        let wrong = goes_wrong(rt.alloc(), row)?;
        holds(&rt, &row.script, wrong);
    }
    Ok(())
}

#[test]
fn tells_the_order_after_whole_transcripts(rt: HostRuntime) -> Result<(), Fail> {
    are_fed(rt.alloc(), WHOLES.as_slice())
}

#[test]
fn tells_the_order_as_an_object(rt: HostRuntime) -> Result<(), Fail> {
    are_fed_as_json(rt.alloc(), OBJECTS.as_slice())
}
