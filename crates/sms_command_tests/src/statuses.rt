//! Status reports and commands that are shown, by themselves and in what carries them.

mod rows;

use crate::found::{are_answered, are_answered_after_a_centre, holds};
use rows::{
    AFTER_CENTRES, ASKED, Any, CARRIED, COMMANDS, NO_COMMANDS, NO_STATUS_REPORTS, PARTS,
    STATUS_REPORTS, STATUSES, TOLD, Told, Words,
};
use sms_trial::{answers, answers_with};
use std::alloc::Global;
use std::process::Abort;
use std::test::Fail;

#[test]
fn shows_status_reports_of_others(rt: HostRuntime) -> Result<(), Fail> {
    are_answered(
        &rt,
        rt.alloc(),
        "status-report",
        STATUS_REPORTS.as_slice(),
        0,
    )
}

#[test]
fn shows_what_follows_in_status_reports(rt: HostRuntime) -> Result<(), Fail> {
    are_answered(&rt, rt.alloc(), "status-report", PARTS.as_slice(), 0)
}

#[test]
fn refuses_what_is_no_status_report(rt: HostRuntime) -> Result<(), Fail> {
    are_answered(
        &rt,
        rt.alloc(),
        "status-report",
        NO_STATUS_REPORTS.as_slice(),
        1,
    )
}

#[test]
fn shows_commands(rt: HostRuntime) -> Result<(), Fail> {
    are_answered(&rt, rt.alloc(), "command", COMMANDS.as_slice(), 0)
}

#[test]
fn refuses_what_is_no_command(rt: HostRuntime) -> Result<(), Fail> {
    are_answered(&rt, rt.alloc(), "command", NO_COMMANDS.as_slice(), 1)
}

#[test]
fn shows_status_reports_and_commands_after_a_centre(rt: HostRuntime) -> Result<(), Fail> {
    are_answered_after_a_centre(&rt, rt.alloc(), AFTER_CENTRES.as_slice())
}

/// Octets of a kind in which an octet stands, and the name of its line.
struct Place {
    kind: &'static str,
    before: &'static str,
    after: &'static str,
    name: &'static str,
}

/// A status report up to TP-ST.
static STATUS: Place = Place {
    kind: "status-report",
    before: "06080281219930925161958099309251619580",
    after: "",
    name: "status",
};

/// A command around TP-CT.
static COMMAND: Place = Place {
    kind: "command",
    before: "020700",
    after: "0502812100",
    name: "command",
};

/// Whether an octet in its place has its words.
fn has_words(alloc: Global, place: &Place, row: &Words) -> Result<bool, Fail> {
    let octets = format!(in alloc; "{}{}{}", place.before, row.octet, place.after)?;
    let line = format!(in alloc; "\n{}: {} {}\n", place.name, row.octet, row.words)?;
    answers_with(alloc, &["sms", "show", place.kind, &octets], 0, &line)
}

/// Each octet in its place has its words.
fn have_words(rt: &impl Abort, alloc: Global, place: &Place, rows: &[Words]) -> Result<(), Fail> {
    for row in rows {
        let has = has_words(alloc, place, row)?;
        holds(rt, &row.octet, has);
    }
    Ok(())
}

#[test]
fn says_each_status(rt: HostRuntime) -> Result<(), Fail> {
    have_words(&rt, rt.alloc(), &STATUS, STATUSES.as_slice())
}

#[test]
fn says_what_a_command_asks(rt: HostRuntime) -> Result<(), Fail> {
    have_words(&rt, rt.alloc(), &COMMAND, ASKED.as_slice())
}

/// Whether a message that may be any has the status and the answer of its row.
fn is_any(alloc: Global, row: &Any) -> Result<bool, Fail> {
    let words = ["sms", "show", "--any", row.kind, row.octets];
    answers(alloc, &words, row.status, row.answer)
}

#[test]
fn shows_any_message(rt: HostRuntime) -> Result<(), Fail> {
    for row in CARRIED.as_slice() {
        let shown = is_any(rt.alloc(), row)?;
        holds(&rt, &(row.kind, row.octets), shown);
    }
    Ok(())
}

/// Whether words are answered with the part of their row.
fn is_told(alloc: Global, row: &Told) -> Result<bool, Fail> {
    answers_with(alloc, row.words, 0, row.part)
}

#[test]
fn tells_status_reports_and_commands(rt: HostRuntime) -> Result<(), Fail> {
    for row in TOLD.as_slice() {
        let told = is_told(rt.alloc(), row)?;
        holds(&rt, &row.words, told);
    }
    Ok(())
}
