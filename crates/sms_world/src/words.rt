//! The words of a transcript.

pub(crate) mod doubts;
pub(crate) mod order;

ghost use Rattle.std.specs.Prelude.{◌≡◌, ◌++◌, OnOk, codes, decimal};
ghost use Rattle.sms_message.specs.declared.outcome.Outcome.TheVariants.{Segment, Failed, Refused};
ghost use Rattle.sms_script.specs.Transcript.Appended.{◌⊕◌};
ghost use Rattle.sms_world.specs.Words.{failure_text, outcome_text, dropped_text, fault_text, told_text, status_text};

use crate::fault::WorldFault;
use sms_message::{Dropped, Outcome};
use sms_party::Status;
use sms_script::{push_decimal, push_hexadecimal};
use std::alloc::AllocError;

/// Adds a failure cause (TP-FCS) in two digits, none as `-`.
fn push_failure(out: &mut Vec<u8>, failure: Option<u8>) -> Result<(), AllocError>
    ensures { OnOk result (out.new.items ≡ out.old.items ++ failure_text failure) }
{
    match failure {
        Some(failure) => push_hexadecimal(out, &[failure]),
        None => out.extend_from_slice(b"-"),
    }
}

/// Adds words, and after them the number of a text.
fn push_numbered(out: &mut Vec<u8>, words: &str, text: usize) -> Result<(), AllocError>
    ensures { let all = words.now ⊕ codes " " ⊕ decimal text in
        OnOk result (out.new.items ≡ out.old.items ++ all) }
{
    out.extend_from_slice(words.as_bytes())?;
    out.push(b' ')?;
    push_decimal(out, text as u64)
}

/// Adds which segment of a text was accepted, in words.
fn push_segment(out: &mut Vec<u8>, text: usize, segment: usize) -> Result<(), AllocError>
    ensures { let all = outcome_text (Segment text segment) in
        OnOk result (out.new.items ≡ out.old.items ++ all) }
{
    push_numbered(out, "segment", text)?;
    out.push(b' ')?;
    push_decimal(out, segment as u64)
}

/// Adds the cause of a refusal, and its failure cause, each after a space.
fn push_causes(out: &mut Vec<u8>, cause: u8, failure: Option<u8>) -> Result<(), AllocError>
    ensures { let all = codes " " ⊕ decimal cause ⊕ codes " " ⊕ failure_text failure in
        OnOk result (out.new.items ≡ out.old.items ++ all) }
{
    out.push(b' ')?;
    push_decimal(out, u64::from(cause))?;
    out.push(b' ')?;
    push_failure(out, failure)
}

/// Adds which text an RP-ERROR has ended, and why, in words.
fn push_failed(
    out: &mut Vec<u8>,
    text: usize,
    cause: u8,
    failure: Option<u8>,
) -> Result<(), AllocError>
    ensures { let all = outcome_text (Failed text cause failure) in
        OnOk result (out.new.items ≡ out.old.items ++ all) }
{
    push_numbered(out, "failed", text)?;
    push_causes(out, cause, failure)
}

/// Adds why a party refused what came, in words.
fn push_refused(out: &mut Vec<u8>, cause: u8, failure: Option<u8>) -> Result<(), AllocError>
    ensures { let all = outcome_text (Refused cause failure) in
        OnOk result (out.new.items ≡ out.old.items ++ all) }
{
    out.extend_from_slice(b"refused")?;
    push_causes(out, cause, failure)
}

/// Adds what a party did, in words.
fn push_outcome(out: &mut Vec<u8>, outcome: Outcome) -> Result<(), AllocError>
    ensures { OnOk result (out.new.items ≡ out.old.items ++ outcome_text outcome) }
{
    let words = match outcome {
        Outcome::Typed { text } => return push_numbered(out, "typed", text),
        Outcome::Segment { text, segment } => return push_segment(out, text, segment),
        Outcome::Accepted { text } => return push_numbered(out, "accepted", text),
        Outcome::Failed {
            text,
            cause,
            failure,
        } => return push_failed(out, text, cause, failure),
        Outcome::Repeated { text } => return push_numbered(out, "repeated", text),
        Outcome::GaveUp { text } => return push_numbered(out, "gave up", text),
        Outcome::Idle => "idle",
        Outcome::Held => "held",
        Outcome::Refused { cause, failure } => return push_refused(out, cause, failure),
        Outcome::Pushed => "pushed",
        Outcome::NothingWaits => "nothing waits",
        Outcome::Delivered => "delivered",
        Outcome::Returned => "returned",
        Outcome::Abandoned => "abandoned",
        Outcome::Finished => "finished",
        Outcome::Kept => "kept",
        Outcome::Repeat => "repeat",
        Outcome::Ticked => "ticked",
        Outcome::Noted => "noted",
    };
    out.extend_from_slice(words.as_bytes())
}

/// Why a party dropped what came, in words.
fn dropped_text(why: Dropped) -> &'static str
    ensures { result.now ≡ dropped_text why }
{
    match why {
        Dropped::NotCp => "drop not cp",
        Dropped::Unmatched => "drop unmatched",
        Dropped::Busy => "drop busy",
        Dropped::Memory => "drop memory",
        Dropped::TooManySegments => "drop too many segments",
    }
}

/// Why nothing came of an event, in words.
fn fault_text(fault: WorldFault) -> &'static str
    ensures { result.now ≡ fault_text fault }
{
    match fault {
        WorldFault::NoSuchPacket => "fault no such packet",
        WorldFault::NoSuchPhone => "fault no such phone",
        WorldFault::ClockEnd => "fault clock end",
        WorldFault::Party(why) => dropped_text(why),
    }
}

/// Writes what was answered to an event, in words, in the place of what stands there.
pub fn write_told(words: &mut Vec<u8>, told: &Result<Outcome, WorldFault>) -> Result<(), AllocError>
    ensures { OnOk result (words.new.items ≡ told_text told.now) }
{
    words.clear();
    match told {
        Ok(outcome) => push_outcome(words, *outcome),
        Err(fault) => words.extend_from_slice(fault_text(*fault).as_bytes()),
    }
}

/// What became of a text, in a word.
pub fn status_text(status: Status) -> &'static str
    ensures { result.now ≡ status_text status }
{
    match status {
        Status::Waiting => "waiting",
        Status::Accepted => "accepted",
        Status::Failed => "failed",
    }
}
