//! Texts of parts.

use std::alloc::Global;
use std::test::Fail;

/// Adds a part, as many times as the number after its asterisk says, else once.
fn put_part(text: &mut String, part: &str) -> Result<(), Fail> {
    let (unit, times) = part.split_once('*').unwrap_or((part, "1"));
    for _ in 0..times.parse::<usize>()? {
        text.push_str(unit)?;
    }
    Ok(())
}

/// Adds the parts between bars.
fn put_parts(text: &mut String, parts: &str) -> Result<(), Fail> {
    for part in parts.split('|') {
        put_part(text, part)?;
    }
    Ok(())
}

/// The text of parts between bars, each as many times as the number after its asterisk says, else
/// once.
pub fn expanded(alloc: Global, parts: &str) -> Result<String, Fail> {
    let mut text = String::new(alloc);
    put_parts(&mut text, parts)?;
    Ok(text)
}

/// Whether an answer is what these parts say.
pub fn is_expanded(alloc: Global, answer: &str, parts: &str) -> Result<bool, Fail> {
    let text = expanded(alloc, parts)?;
    Ok(answer == text.as_str())
}
