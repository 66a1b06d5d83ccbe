//! The line that tells after a transcript whether `accepted` means accepted in its run.

ghost use Rattle.std.specs.Prelude.{◌≡◌, IfOk, codes};
ghost use Rattle.std.specs.String.{string_bytes};
ghost use Rattle.sms_script.specs.Meaning.Known.{name_of};
ghost use Rattle.sms_script.specs.Transcript.Appended.{◌⊕◌};
ghost use Rattle.sms_world.specs.Words.Doubts.{ground_text, bearer_text, accepted_line, order_if, verdict_lines};

use crate::doubt::{Doubt, Ground};
use crate::order::Breach;
use crate::playing::trusted::Verdicts;
use crate::words::order::{number_told, order_line, segment_text};
use sms_script::Script;
use std::alloc::{AllocError, Global};

/// How an event broke a condition under which `accepted` means accepted, in words.
pub fn ground_text(why: Ground) -> &'static str
    ensures { result.now ≡ ground_text why }
{
    match why {
        Ground::AnswerToAnother { .. } => "answer to an earlier submission",
        Ground::ReferenceUsedAgain { .. } => "reference used again",
        Ground::Injected => "injected",
    }
}

/// The name of a phone, after a space.
fn phone_text(alloc: Global, script: &Script, phone: usize) -> Result<String, AllocError>
    ensures { IfOk result
        (λ s. string_bytes s ≡ codes " " ⊕ name_of script.now.known.names phone) }
{
    let name = script.name(phone);
    format!(in alloc; " {name}")
}

/// The phone to which an answer came, or the segment that was brought, after a space.
fn bearer_text(alloc: Global, script: &Script, why: Ground) -> Result<String, AllocError>
    ensures { IfOk result (λ s. string_bytes s ≡ bearer_text script.now why) }
{
    match why {
        Ground::AnswerToAnother { phone } => phone_text(alloc, script, phone),
        Ground::ReferenceUsedAgain { segment } => segment_text(alloc, script, Some(segment)),
        Ground::Injected => Ok(String::new(alloc)),
    }
}

/// The line that tells of a script's run whether `accepted` means accepted: `accepted: means
/// accepted`, or the first event after which it need not, by the number that it has in the
/// transcript; how it broke a condition; and of which phone the answer or which segment it brought.
pub fn accepted_line(
    alloc: Global,
    script: &Script,
    doubt: Option<Doubt>,
) -> Result<String, AllocError>
    ensures { IfOk result (λ s. string_bytes s ≡ accepted_line script.now doubt) }
{
    let Some(doubt) = doubt else {
        return "accepted: means accepted\n".to_string(alloc);
    };
    let number = number_told(script, doubt.event);
    let words = ground_text(doubt.why);
    let bearer = bearer_text(alloc, script, doubt.why)?;
    format!(in alloc; "accepted: event {number}: {words}{bearer}\n")
}

/// The line that tells of the order of a script's run, where it is asked for.
fn order_if(
    alloc: Global,
    script: &Script,
    tells_order: bool,
    breach: Option<Breach>,
) -> Result<String, AllocError>
    ensures { IfOk result (λ s. string_bytes s ≡ order_if tells_order script.now breach) }
{
    if tells_order {
        order_line(alloc, script, breach)
    } else {
        Ok(String::new(alloc))
    }
}

/// The lines that tell what is told of a script's run: of its order, where it is asked for, and
/// whether `accepted` means accepted.
pub fn verdict_lines(
    alloc: Global,
    script: &Script,
    tells_order: bool,
    verdicts: Verdicts,
) -> Result<String, AllocError>
    ensures { IfOk result
        (λ s. string_bytes s ≡ verdict_lines tells_order script.now verdicts) }
{
    let order = order_if(alloc, script, tells_order, verdicts.breach)?;
    let accepted = accepted_line(alloc, script, verdicts.doubt)?;
    format!(in alloc; "{order}{accepted}")
}
