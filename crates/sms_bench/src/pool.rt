//! Units of many texts, in hexadecimal, of which others are made by another origin, stamp and
//! reference.

ghost use Rattle.std.specs.Prelude.{◌≡◌, ◌+◌, ◌*◌, ◌/◌};

use crate::chance::Chance;
use crate::texts::{long_text, short_text};
use anyhow::{Result, bail, ensure};
use hex::decode;
use sms_command::command;
use std::alloc::Global;

/// The units of one text.
#[derive(Drop)]
pub struct Units {
    /// For each segment its SMS-DELIVER in hexadecimal.
    pub lines: Vec<String>,
    /// Whether their origin (TP-OA) is a name.
    pub is_named: bool,
    /// Where among their digits the stamp begins (TP-SCTS).
    pub stamp: usize,
}

/// A telephone number of eleven digits, of which the last seven are put anew.
pub static NUMBER: &str = "+46700000000";

/// Where the stamp begins among the digits of an SMS-DELIVER, the origin of which has so many half
/// octets: behind the octets of TP-MTI, of that length, of the type of number, of the half octets,
/// of TP-PID and of TP-DCS.
fn stamp_place(half_octets: u8) -> usize
    ensures { result ≡ 2 * (5 + (half_octets + 1) / 2) }
{
    2 * (5 + (usize::from(half_octets) + 1) / 2)
}

/// How many half octets the origin of an SMS-DELIVER has.
fn half_octets_of(alloc: Global, line: &str) -> Result<u8> {
    let octets = decode(alloc, line.as_bytes())?;
    let [_, half_octets, ..] = octets.as_slice() else {
        bail!("no unit");
    };
    Ok(*half_octets)
}

/// Where the stamp begins among the digits of each of some units.
fn stamp_in(alloc: Global, lines: &[String]) -> Result<usize> {
    let Some(line) = lines.first() else {
        bail!("no units");
    };
    Ok(stamp_place(half_octets_of(alloc, line.as_str())?))
}

/// The lines of an output.
fn lines_of(alloc: Global, output: &str) -> Result<Vec<String>> {
    let mut lines = Vec::new(alloc);
    for line in output.lines() {
        lines.push(line.to_string(alloc)?)?;
    }
    Ok(lines)
}

/// The units of a text from an origin, as the command encodes them.
fn units_of(alloc: Global, origin: &str, text: &str) -> Result<Units> {
    let words = ["sms", "encode", "deliver", origin, text, "--split"];
    let mut input = b"".as_slice();
    let mut output = Vec::new(alloc);
    let status = command(alloc, &words, &mut input, &mut output);
    ensure!(status == 0, "not encoded");
    let output = String::from_utf8(output)?;
    let lines = lines_of(alloc, output.as_str())?;
    let stamp = stamp_in(alloc, lines.as_slice())?;
    Ok(Units {
        lines,
        is_named: !origin.starts_with('+'),
        stamp,
    })
}

/// The units of a text from an origin. A text of several units begins with a star and a blank, so
/// that it is known where it is whole.
pub fn marked_units(alloc: Global, origin: &str, text: &str) -> Result<Units> {
    let units = units_of(alloc, origin, text)?;
    if units.lines.len() < 2 {
        return Ok(units);
    }
    let marked = format!(in alloc; "* {text}")?;
    units_of(alloc, origin, marked.as_str())
}

/// A text: of four, three are short.
fn some_text(alloc: Global, chance: &mut Chance) -> Result<String> {
    if chance.once_in(4) {
        return Ok(long_text(alloc, chance)?);
    }
    Ok(short_text(alloc, chance)?)
}

/// The units of some text from a number.
fn some_units(alloc: Global, chance: &mut Chance) -> Result<Units> {
    let text = some_text(alloc, chance)?;
    marked_units(alloc, NUMBER, text.as_str())
}

/// The units of so many texts.
pub fn pool_of(alloc: Global, chance: &mut Chance, count: usize) -> Result<Vec<Units>> {
    let mut pool = Vec::new(alloc);
    for _ in 0..count {
        pool.push(some_units(alloc, chance)?)?;
    }
    Ok(pool)
}
