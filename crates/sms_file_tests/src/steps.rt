//! Each step refused in turn, and what is said of a refusal.

use crate::found::is;
use crate::refusing::Refusing;
use sms_file::{FileFault, Step, Why, replace};
use std::process::Abort;
use std::test::Fail;

/// The steps, and the line of each with the reason `refused`.
const STEPS: [(Step, &str); 5] = [
    (Step::Write, "not written: refused"),
    (Step::Rights, "rights not kept: refused"),
    (Step::Sync, "not synced: refused"),
    (Step::Rename, "not renamed: refused"),
    (Step::SyncFolder, "folder not synced: refused"),
];

/// A call that refuses the step of a number, and how many steps it took.
fn refused_at(at: usize) -> (Result<(), FileFault>, usize) {
    let mut folder = Refusing { at, steps: 0 };
    let answer = replace(&mut folder, b"octets");
    (answer, folder.steps)
}

#[test]
fn no_step_follows_a_refused_one(rt: HostRuntime) {
    for (at, (step, _)) in STEPS.iter().enumerate() {
        let fault = FileFault {
            step: *step,
            why: Why::Refused,
        };
        let steps = at.saturating_add(1);
        is(&rt, at, refused_at(at), (Err(fault), steps));
    }
    is(&rt, 5, refused_at(5), (Ok(()), 5));
}

/// What is said of a fault.
fn is_said(rt: &(impl Abort + AllocGlobal), fault: FileFault, line: &str) -> Result<(), Fail> {
    let said = format!(in rt.alloc(); "{fault}")?;
    is(rt, line, said.as_str(), line);
    Ok(())
}

#[test]
fn each_fault_is_said(rt: HostRuntime) -> Result<(), Fail> {
    for (step, line) in &STEPS {
        let fault = FileFault {
            step: *step,
            why: Why::Refused,
        };
        is_said(&rt, fault, line)?;
    }
    for (step, why, line) in [
        (Step::Open, Why::NotFound, "folder not opened: not found"),
        (Step::Lock, Why::InUse, "not locked: in use"),
        (Step::Read, Why::NoRight, "not read: no right"),
        (Step::Write, Why::NoRoom, "not written: no room"),
        (Step::Read, Why::Memory, "not read: out of memory"),
    ] {
        is_said(&rt, FileFault { step, why }, line)?;
    }
    Ok(())
}
