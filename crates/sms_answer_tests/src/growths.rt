//! Answers that are written while one request for memory is refused.

use crate::answers::{JSON, PLAIN, answer, are_parts};
use sms_told::Form;
use std::alloc::Global;
use std::test::Fail;

/// Whether both forms are written whole; none where memory runs out.
fn are_whole(alloc: Global) -> Option<bool> {
    let plain = answer(alloc, Form::Plain, None).ok()?;
    let json = answer(alloc, Form::Json, Some(1)).ok()?;
    Some(
        are_parts(&plain, &[b"before\n", PLAIN])
            && are_parts(&json, &[b"before\n{\"line\":1,", JSON]),
    )
}

/// One growth is refused, whichever it is (docs/CONTRIBUTING.md says how): a second try does what
/// the first would have done.
#[test]
fn answers_are_whole_after_a_refused_growth(rt: HostRuntime) -> Result<(), Fail> {
    let whole = are_whole(rt.alloc()).or(are_whole(rt.alloc()));
    assert_eq!(rt; whole, Some(true));
    Ok(())
}
