//! What an event has answered, in a word and values.

ghost use Rattle.std.specs.Prelude.{◌≡◌};
ghost use Rattle.sms_command.specs.Inside.Outcomes.{is_fault};

use sms_answer::{Escaped, Lines, Octet};
use sms_world::{Dropped, Outcome, WorldFault};

/// What an event has answered. What is `None` does not belong to the word.
#[derive(Clone, Copy)]
pub struct Told {
    pub word: &'static str,
    /// A text of the phone, counted from 1.
    pub text: Option<usize>,
    /// A segment of the text, counted from 1.
    pub segment: Option<usize>,
    /// RP-Cause.
    pub cause: Option<u8>,
    /// TP-FCS, where the RP-ERROR has a report.
    pub failure: Option<u8>,
}

/// A word without values.
fn bare(word: &'static str) -> Told {
    Told {
        word,
        text: None,
        segment: None,
        cause: None,
        failure: None,
    }
}

/// A word with the number of a text.
fn of_text(word: &'static str, text: usize) -> Told {
    Told {
        word,
        text: Some(text),
        segment: None,
        cause: None,
        failure: None,
    }
}

/// The word of an outcome without values.
fn word_of(outcome: Outcome) -> &'static str {
    match outcome {
        Outcome::Typed { .. } => "typed",
        Outcome::Segment { .. } => "segment",
        Outcome::Accepted { .. } => "accepted",
        Outcome::Failed { .. } => "failed",
        Outcome::Repeated { .. } => "repeated",
        Outcome::GaveUp { .. } => "gave up",
        Outcome::Idle => "idle",
        Outcome::Held => "held",
        Outcome::Refused { .. } => "refused",
        Outcome::Pushed => "pushed",
        Outcome::NothingWaits => "nothing waits",
        Outcome::Delivered => "delivered",
        Outcome::Returned => "returned",
        Outcome::Abandoned => "abandoned",
        Outcome::Finished => "finished",
        Outcome::Kept => "kept",
        Outcome::Repeat => "repeat",
        Outcome::Ticked => "ticked",
        Outcome::Noted => "noted",
    }
}

/// What an outcome says.
fn outcome_told(outcome: Outcome) -> Told {
    let word = word_of(outcome);
    match outcome {
        Outcome::Typed { text }
        | Outcome::Accepted { text }
        | Outcome::Repeated { text }
        | Outcome::GaveUp { text } => of_text(word, text),
        Outcome::Segment { text, segment } => Told {
            segment: Some(segment),
            ..of_text(word, text)
        },
        Outcome::Failed {
            text,
            cause,
            failure,
        } => Told {
            cause: Some(cause),
            failure,
            ..of_text(word, text)
        },
        Outcome::Refused { cause, failure } => Told {
            cause: Some(cause),
            failure,
            ..bare(word)
        },
        _ => bare(word),
    }
}

/// Why a party dropped what came.
fn dropped_told(why: Dropped) -> &'static str {
    match why {
        Dropped::NotCp => "drop not cp",
        Dropped::Unmatched => "drop unmatched",
        Dropped::Busy => "drop busy",
        Dropped::Memory => "drop memory",
        Dropped::TooManySegments => "drop too many segments",
    }
}

/// What an event has answered.
pub fn told_of(answer: Result<Outcome, WorldFault>) -> Told {
    match answer {
        Ok(outcome) => outcome_told(outcome),
        Err(WorldFault::NoSuchPacket) => bare("fault no such packet"),
        Err(WorldFault::NoSuchPhone) => bare("fault no such phone"),
        Err(WorldFault::ClockEnd) => bare("fault clock end"),
        Err(WorldFault::Party(why)) => bare(dropped_told(why)),
    }
}

/// Whether an event named nothing.
pub fn is_fault(answer: Result<Outcome, WorldFault>) -> bool
    ensures { result ≡ is_fault answer }
{
    match answer {
        Ok(_) | Err(WorldFault::Party(_)) => false,
        Err(_) => true,
    }
}

impl Told {
    /// Adds the word and its values as members.
    pub fn put(&self, lines: &mut Lines)
        ensures { lines.new ≡ lines.old }
    {
        lines.put("word", Escaped(self.word));
        if let Some(text) = self.text {
            lines.put("text", text);
        }
        if let Some(segment) = self.segment {
            lines.put("segment", segment);
        }
        if let Some(cause) = self.cause {
            lines.put("cause", cause);
        }
        if let Some(failure) = self.failure {
            lines.put("failure", Octet(failure));
        }
    }
}
