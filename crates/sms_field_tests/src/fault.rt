//! The words of reasons.

use crate::found::is;
use sms_field::{AddressFault, FieldFault, Refusal, TextFault};
use std::alloc::Global;
use std::process::Abort;
use std::test::Fail;

/// A refusal has these words.
fn refused(
    rt: &impl Abort,
    alloc: Global,
    refusal: Refusal<FieldFault>,
    words: &str,
) -> Result<(), Fail> {
    let found = refusal.to_string(alloc)?;
    is(rt, words, found.as_str(), words);
    Ok(())
}

/// The reason of a field has these words.
fn of_field(rt: &impl Abort, alloc: Global, why: FieldFault, words: &str) -> Result<(), Fail> {
    let found = why.to_string(alloc)?;
    is(rt, words, found.as_str(), words);
    Ok(())
}

/// The reason of a text has these words.
fn of_text(rt: &impl Abort, alloc: Global, why: TextFault, words: &str) -> Result<(), Fail> {
    let found = why.to_string(alloc)?;
    is(rt, words, found.as_str(), words);
    Ok(())
}

/// A reason for an address has its words also in a field and in a text.
#[test]
fn words_of_reasons(rt: HostRuntime) -> Result<(), Fail> {
    let alloc = rt.alloc();
    let refusal = Refusal::At {
        place: 2,
        why: FieldFault::Address(AddressFault::BadDigit),
    };
    let text = TextFault::Address(AddressFault::AddressTooLong);
    refused(&rt, alloc, refusal, "at 2: bad digit")?;
    of_text(&rt, alloc, text, "address too long")?;
    of_field(&rt, alloc, FieldFault::Short, "short")?;
    of_text(&rt, alloc, TextFault::Memory, "out of memory")
}
