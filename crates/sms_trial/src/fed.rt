//! Words with an input, and what the command answers to them.

use json::{Scratch, is_valid};
use sms_command::command;
use std::alloc::{AllocError, Global};
use std::io::Read;
use std::test::Fail;

/// Words with an input: the status and the whole output.
pub struct Fed {
    pub words: &'static [&'static str],
    pub input: &'static str,
    pub status: u8,
    pub output: &'static str,
}

/// The status and the whole output, for a reader.
pub fn fed_from<R: Read>(
    alloc: Global,
    words: &[&str],
    input: &mut R,
) -> Result<(u8, String), Fail> {
    let mut output = Vec::new(alloc);
    let status = command(alloc, words, input, &mut output);
    Ok((status, String::from_utf8(output)?))
}

/// The status and the whole output, for an input.
pub fn fed_with(alloc: Global, words: &[&str], input: &str) -> Result<(u8, String), Fail> {
    let mut input = input.as_bytes();
    fed_from(alloc, words, &mut input)
}

/// Whether an input has a status and a whole output.
pub fn is_fed(
    alloc: Global,
    words: &[&str],
    input: &str,
    wanted: u8,
    whole: &str,
) -> Result<bool, Fail> {
    let (status, output) = fed_with(alloc, words, input)?;
    Ok(status == wanted && output.as_str() == whole)
}

/// Each row has its status and its whole output; else the failure names the first that has not.
pub fn are_fed(alloc: Global, rows: &[Fed]) -> Result<(), Fail> {
    for row in rows {
        if !is_fed(alloc, row.words, row.input, row.status, row.output)? {
            return Err(Fail::from((row.words, row.input)));
        }
    }
    Ok(())
}

/// Whether a line is a value in JSON.
fn is_json(alloc: Global, line: &str) -> Result<bool, AllocError> {
    let mut scratch = Scratch::new(alloc);
    let valid = is_valid(line, &mut scratch);
    drop(scratch);
    valid
}

/// Whether all lines of an output are values in JSON.
fn are_json(alloc: Global, output: &str) -> Result<bool, AllocError> {
    for line in output.lines() {
        if !is_json(alloc, line)? {
            return Ok(false);
        }
    }
    Ok(true)
}

/// Each row has its status and its whole output, whose lines are values in JSON; else the failure
/// names the first that has not.
pub fn are_fed_as_json(alloc: Global, rows: &[Fed]) -> Result<(), Fail> {
    are_fed(alloc, rows)?;
    for row in rows {
        if !are_json(alloc, row.output)? {
            return Err(Fail::from((row.words, "no JSON")));
        }
    }
    Ok(())
}
