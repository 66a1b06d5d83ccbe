//! Outputs that are longer than a page, of which a write fails, beside the pieces that they are put
//! together from.

use crate::found::holds;
use sms_command::command;
use sms_trial::{Made, digits_of, fed_with};
use std::alloc::Global;
use std::io::{ErrorKind, Write};
use std::process::Abort;
use std::test::Fail;

/// How many octets are collected before they are written.
const ENOUGH: usize = 32_768;

/// How an answer is written.
#[derive(Clone, Copy, Debug, PartialEq, Eq)]
enum Form {
    Plain,
    Json,
}

impl Form {
    /// The words that ask for it.
    fn words(self) -> &'static [&'static str] {
        match self {
            Form::Plain => &["sms", "show", "deliver", "--lines"],
            Form::Json => &["sms", "show", "deliver", "--lines", "--json"],
        }
    }
}

/// The line of a unit, and what it is shown as where it is the first one.
#[derive(Drop)]
struct Piece {
    line: String,
    plain: String,
    object: String,
}

/// The line of a unit with user data in a coding scheme.
fn line_of(alloc: Global, coding: u8, octets: &[u8]) -> Result<String, Fail> {
    let count = octets.len();
    let digits = digits_of(alloc, octets)?;
    let front = "040B911326880736F400";
    Ok(format!(in alloc; "{front}{coding:02X}99309251619580{count:02X}{digits}\n")?)
}

/// What a unit is shown as by itself.
fn piece_of(alloc: Global, coding: u8, octets: &[u8]) -> Result<Piece, Fail> {
    let line = line_of(alloc, coding, octets)?;
    let (_, plain) = fed_with(alloc, Form::Plain.words(), &line)?;
    let (_, object) = fed_with(alloc, Form::Json.words(), &line)?;
    Ok(Piece {
        line,
        plain,
        object,
    })
}

/// The octets of a text in UCS-2, of characters of which some stand as an escape.
fn made_text(alloc: Global, made: &mut Made) -> Result<Vec<u8>, Fail> {
    let mut octets = Vec::new(alloc);
    for _ in 0..made.below(36).saturating_add(35) {
        octets.push(made.octet() / 128)?;
        octets.push(made.octet())?;
    }
    Ok(octets)
}

/// As many octets as may be, or some fewer.
fn made_data(alloc: Global, made: &mut Made) -> Result<Vec<u8>, Fail> {
    let mut octets = Vec::new(alloc);
    for _ in 0..made.below(71).saturating_add(70) {
        octets.push(made.octet())?;
    }
    Ok(octets)
}

/// A unit with a text or with data.
fn made_piece(alloc: Global, made: &mut Made) -> Result<Piece, Fail> {
    if made.octet() % 2 == 0 {
        let octets = made_text(alloc, made)?;
        piece_of(alloc, 8, &octets)
    } else {
        let octets = made_data(alloc, made)?;
        piece_of(alloc, 4, &octets)
    }
}

/// As many units.
fn made_pieces(alloc: Global, count: usize, seed: u64) -> Result<Vec<Piece>, Fail> {
    let mut made = Made::new(seed);
    let mut pieces = Vec::new(alloc);
    for _ in 0..count {
        pieces.push(made_piece(alloc, &mut made)?)?;
    }
    Ok(pieces)
}

/// Adds what a unit is shown as, as that of the line of a number.
fn push_shown(
    alloc: Global,
    output: &mut String,
    piece: &Piece,
    number: usize,
    form: Form,
) -> Result<(), Fail> {
    if form == Form::Plain {
        output.push_str(if number > 1 { "\n" } else { "" })?;
        output.push_str(&piece.plain)?;
        return Ok(());
    }
    let rest = piece.object.strip_prefix("{\"line\":1").unwrap_or("");
    let front = format!(in alloc; "{{\"line\":{number}")?;
    output.push_str(&front)?;
    output.push_str(rest)?;
    Ok(())
}

/// What units are shown as, and the places up to which it is written at once: after each unit where
/// enough was collected, and at the end.
#[derive(Drop)]
struct Answer {
    output: String,
    ends: Vec<usize>,
}

/// The answer to units, put together from what each is shown as by itself.
fn answer_of(alloc: Global, pieces: &[Piece], form: Form) -> Result<Answer, Fail> {
    let mut output = String::new(alloc);
    let mut ends = Vec::new(alloc);
    let mut start = 0;
    for (place, piece) in pieces.iter().enumerate() {
        push_shown(alloc, &mut output, piece, place.saturating_add(1), form)?;
        if output.len().saturating_sub(start) >= ENOUGH {
            start = output.len();
            ends.push(start)?;
        }
    }
    if output.len() > start {
        ends.push(output.len())?;
    }
    Ok(Answer { output, ends })
}

/// The lines of units.
fn input_of(alloc: Global, pieces: &[Piece]) -> Result<String, Fail> {
    let mut input = String::new(alloc);
    for piece in pieces {
        input.push_str(&piece.line)?;
    }
    Ok(input)
}

/// Takes all octets that are written, but at one write, which fails.
#[derive(Drop)]
struct Failing {
    taken: Vec<u8>,
    /// How many writes there are before the one that fails.
    before: usize,
    has_failed: bool,
}

impl Write for Failing {
    fn write(&mut self, octets: &[u8]) -> std::io::Result<usize> {
        if self.before == 0 && !self.has_failed {
            self.has_failed = true;
            return Err(std::io::Error::from(ErrorKind::Other));
        }
        self.before = self.before.saturating_sub(1);
        match self.taken.extend_from_slice(octets) {
            Ok(()) => Ok(octets.len()),
            Err(_) => Err(std::io::Error::from(ErrorKind::OutOfMemory)),
        }
    }

    fn flush(&mut self) -> std::io::Result<()> {
        Ok(())
    }
}

/// What is taken where a write fails, after as many octets of the whole output.
fn taken_after(alloc: Global, output: &str, end: usize) -> Result<String, Fail> {
    let front = output.get(..end).unwrap_or("");
    Ok([front, "write failed\n"].concat(alloc)?)
}

/// Whether a failed write after as many others is told, and what stands before it is what was
/// written up to this end.
fn is_failure_told(
    alloc: Global,
    input: &str,
    form: Form,
    before: usize,
    wanted: &str,
) -> Result<bool, Fail> {
    let mut input = input.as_bytes();
    let mut output = Failing {
        taken: Vec::new(alloc),
        before,
        has_failed: false,
    };
    let status = command(alloc, form.words(), &mut input, &mut output);
    Ok(status == 3 && output.taken.as_slice() == wanted.as_bytes())
}

/// Each write of an answer fails in turn.
fn failures_are_told(
    rt: &impl Abort,
    alloc: Global,
    pieces: &[Piece],
    form: Form,
) -> Result<(), Fail> {
    let input = input_of(alloc, pieces)?;
    let answer = answer_of(alloc, pieces, form)?;
    let mut start = 0;
    for (before, end) in answer.ends.iter().enumerate() {
        let wanted = taken_after(alloc, &answer.output, start)?;
        let told = is_failure_told(alloc, &input, form, before, &wanted)?;
        holds(rt, &(before, form), told);
        start = *end;
    }
    holds(rt, &answer.output.len(), answer.ends.len() > 2);
    Ok(())
}

#[test]
fn tells_each_write_that_fails(rt: HostRuntime) -> Result<(), Fail> {
    let pieces = made_pieces(rt.alloc(), 220, 11)?;
    failures_are_told(&rt, rt.alloc(), &pieces, Form::Plain)?;
    failures_are_told(&rt, rt.alloc(), &pieces, Form::Json)
}
