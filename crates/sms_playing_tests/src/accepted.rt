//! Whether `accepted` means accepted in the runs of scripts, as it is told after their transcripts.

mod rows;

use crate::found::holds;
use crate::orders::{ends_with, is_told, script_of};
use rows::{DOUBTED, ENDS, Ending, MEANT, OBJECTS, PHONES, Trusted, WHOLES};
use sms_trial::{are_fed, are_fed_as_json};
use std::alloc::Global;
use std::process::Abort;
use std::test::Fail;

/// The words that ask for it.
const ALONE: [&str; 3] = ["sms", "play", "--accepted"];

/// The words that ask for both.
const BOTH: [&str; 4] = ["sms", "play", "--orderly", "--accepted"];

/// Whether both are told of a script, its order first.
fn are_both_told(alloc: Global, script: &str, row: &Trusted) -> Result<bool, Fail> {
    let lines = [row.order, row.accepted].concat(alloc)?;
    let told = is_told(alloc, &BOTH, script, &lines);
    drop(lines);
    told
}

/// Whether it is told of a script, alone and after its order.
fn is_script_told(alloc: Global, script: &str, row: &Trusted) -> Result<bool, Fail> {
    let alone = is_told(alloc, &ALONE, script, row.accepted)?;
    Ok(alone && are_both_told(alloc, script, row)?)
}

/// Whether it is told of a row.
fn is_row_told(alloc: Global, row: &Trusted) -> Result<bool, Fail> {
    let script = script_of(alloc, PHONES, row.script)?;
    let told = is_script_told(alloc, &script, row);
    drop(script);
    told
}

/// It is told of each row.
fn are_told(rt: &impl Abort, alloc: Global, rows: &[Trusted]) -> Result<(), Fail> {
    for row in rows {
        let told = is_row_told(alloc, row)?;
        holds(rt, &row.script, told);
    }
    Ok(())
}

#[test]
fn tells_that_accepted_means_accepted(rt: HostRuntime) -> Result<(), Fail> {
    are_told(&rt, rt.alloc(), MEANT.as_slice())
}

#[test]
fn tells_the_first_event_after_which_it_need_not(rt: HostRuntime) -> Result<(), Fail> {
    are_told(&rt, rt.alloc(), DOUBTED.as_slice())
}

/// Whether the output of a row ends so.
fn ends_so(alloc: Global, row: &Ending) -> Result<bool, Fail> {
    let script = script_of(alloc, PHONES, row.script)?;
    let ends = ends_with(alloc, row.words, &script, row.ends);
    drop(script);
    ends
}

#[test]
fn tells_what_goes_wrong_without_each_condition(rt: HostRuntime) -> Result<(), Fail> {
    for row in ENDS.as_slice() {
        let wrong = ends_so(rt.alloc(), row)?;
        holds(&rt, &row.script, wrong);
    }
    Ok(())
}

#[test]
fn tells_it_after_whole_transcripts(rt: HostRuntime) -> Result<(), Fail> {
    are_fed(rt.alloc(), WHOLES.as_slice())
}

#[test]
fn tells_it_as_an_object(rt: HostRuntime) -> Result<(), Fail> {
    are_fed_as_json(rt.alloc(), OBJECTS.as_slice())
}
