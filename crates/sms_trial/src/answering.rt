//! Words without an input, and what the command answers to them.

use crate::fed::fed_with;
use std::alloc::Global;
use std::test::Fail;

/// The status and the whole output.
pub fn answer_to(alloc: Global, words: &[&str]) -> Result<(u8, String), Fail> {
    fed_with(alloc, words, "")
}

/// Whether an answer has these lines, or this part of a line.
pub fn says(answer: &str, part: &str) -> bool {
    answer.contains(part)
}

/// Whether words have a status, and this as their whole answer.
pub fn answers(alloc: Global, words: &[&str], wanted: u8, lines: &str) -> Result<bool, Fail> {
    let (status, answer) = answer_to(alloc, words)?;
    Ok(status == wanted && answer.as_str() == lines)
}

/// Whether words have a status, and this part in their answer.
pub fn answers_with(alloc: Global, words: &[&str], wanted: u8, part: &str) -> Result<bool, Fail> {
    let (status, answer) = answer_to(alloc, words)?;
    Ok(status == wanted && says(&answer, part))
}
