//! The line that tells after a transcript whether its run was orderly.

ghost use Rattle.std.specs.Prelude.{◌≡◌, IfOk};
ghost use Rattle.std.specs.String.{string_bytes};
ghost use Rattle.sms_world.specs.Words.Order.{disorder_text, number_told, segment_text, order_line};

use crate::order::{Breach, Disorder, TextSegment};
use sms_script::Script;
use std::alloc::{AllocError, Global};

/// How an event came out of order, in words.
pub fn disorder_text(disorder: Disorder) -> &'static str
    ensures { result.now ≡ disorder_text disorder }
{
    match disorder {
        Disorder::RepeatAfterTheEnd => "repeat after the end",
        Disorder::RepeatWithoutRejection => "repeat without rejection",
        Disorder::KeyUsedAgain => "key used again",
        Disorder::LateSegmentForgotten => "late segment forgotten",
        Disorder::Injected => "injected",
    }
}

/// The number that the transcript of a script gives to the event of this number of its run. The
/// tick with which the script's clock starts has none there.
pub fn number_told(script: &Script, number: u64) -> u64
    ensures { result ≡ number_told script.now number }
{
    match script.clock() {
        Some(_) => number.saturating_sub(1),
        None => number,
    }
}

/// A segment of a text in words, after a space: the name of its phone, and the two numbers.
pub(crate) fn segment_text(
    alloc: Global,
    script: &Script,
    segment: Option<TextSegment>,
) -> Result<String, AllocError>
    ensures { IfOk result (λ s. string_bytes s ≡ segment_text script.now segment) }
{
    let Some(
        TextSegment {
            phone,
            text,
            segment,
        },
    ) = segment
    else {
        return Ok(String::new(alloc));
    };
    let name = script.name(phone);
    format!(in alloc; " {name} {text} {segment}")
}

/// The line that tells of a script's run whether it was orderly: `order: kept`, or the first event
/// that came out of order, by the number that it has in the transcript; how; and which segment it
/// brought.
pub fn order_line(
    alloc: Global,
    script: &Script,
    breach: Option<Breach>,
) -> Result<String, AllocError>
    ensures { IfOk result (λ s. string_bytes s ≡ order_line script.now breach) }
{
    let Some(breach) = breach else {
        return "order: kept\n".to_string(alloc);
    };
    let number = number_told(script, breach.event);
    let words = disorder_text(breach.disorder);
    let segment = segment_text(alloc, script, breach.segment)?;
    format!(in alloc; "order: event {number}: {words}{segment}\n")
}
