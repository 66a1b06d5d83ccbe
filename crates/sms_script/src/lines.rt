//! Lines read from a source.

ghost use Rattle.std.specs.Prelude.{◌≡◌, ◌≢◌, ◌≤◌, ◌+◌, ◌-◌, ◌++◌, ◌∷◌, [], ℕ, List, Option, Ok, Err, IfOk, IsOk, IsErr, true, false, length, nat_lt, take};
ghost use Rattle.std.specs.Io.KnownBytes.{Consumes};
ghost use Rattle.std.specs.Vec.{vec_len, vec_capacity};
ghost use Rattle.sms_script.specs.Inside.Parts.{EndsPart, TakesPart};
ghost use Rattle.sms_script.specs.Lines.{line_limit, strip_carriage_return, HasNoLineFeed};
ghost use Rattle.sms_script.specs.Lines.Reading.{ReadsLine};
ghost use Rattle.sms_script.specs.declared.lines.LineFault.TheVariants.{Memory};

use crate::devices::{DeviceFailed, Source, next_octet};
use std::alloc::AllocFailed;
use thiserror::Error;

/// The greatest length of a line in octets, without its line feed and the carriage return before
/// it.
pub const LINE_LIMIT: usize = 4096;

/// How a line ended.
#[derive(Clone, Copy, Debug, PartialEq, Eq)]
pub enum LineEnd {
    LineFeed,
    EndOfSource,
}

/// Why a line could not be read.
#[derive(Clone, Copy, Debug, PartialEq, Eq, Error)]
pub enum LineFault {
    /// The source failed.
    #[error("read failed")]
    Read,
    /// The line has more octets than a line may have.
    #[error("line too long")]
    TooLong,
    /// Memory ran out.
    #[error("out of memory")]
    Memory,
}

impl<T: Drop> From<AllocFailed<T>> for LineFault {
    ghost from_gives = { λ _ e. e ≡ Memory };

    fn from(_e: AllocFailed<T>) -> LineFault {
        LineFault::Memory
    }
}

/// Drops the carriage return at the end, if there is one.
fn drop_carriage_return(line: &mut Vec<u8>)
    ensures { line.new.items ≡ strip_carriage_return line.old.items }
{
    if line.last().copied() == Some(b'\r') {
        line.pop();
    }
}

/// Whether a line is longer than a line may be, with an octet more.
fn is_longer(line: &[u8], octet: u8) -> bool
    ensures { let longer = strip_carriage_return (line.now ++ octet ∷ []) in
        result ≡ nat_lt line_limit (length longer) }
{
    let length = if octet == b'\r' {
        line.len()
    } else {
        line.len() + 1
    };
    length > LINE_LIMIT
}

/// The most octets of a line that are kept: those of a line, and a carriage return.
const ROOM: usize = LINE_LIMIT + 1;

/// How many octets are read at once, if there are so many.
const PART: usize = 16;

/// A line of fewer octets is short.
const SHORT: usize = 4;

/// What follows a part of a line.
#[derive(Clone, Copy, Debug, PartialEq, Eq)]
enum Part {
    /// More of the line, or its end.
    More,
    /// Its line feed came.
    LineFeed,
    /// The source told its end.
    EndOfSource,
}

/// Adds the front of octets, for all of which there is room: as many as a part has are copied
/// sooner than a number that differs from line to line.
fn push_front(line: &mut Vec<u8>, octets: &[u8], count: usize)
    requires count { count ≤ length octets.now }
    requires room { vec_len line.old + length octets.now ≤ vec_capacity line.old }
    ensures items { line.new.items ≡ line.old.items ++ take count octets.now }
    ensures capacity { vec_capacity line.old ≤ vec_capacity line.new }
{
    let end = line.len() + count;
    if line.extend_from_slice(octets).is_err() {
        unreachable!();
    }
    line.truncate(end);
}

/// Adds the octets in front of a part that were read, of which none but the last can be a line
/// feed, which is not kept. There is room for the whole part.
fn end_part(line: &mut Vec<u8>, part: &[u8], given: usize) -> Part
    requires given { given ≤ length part.now }
    requires room { vec_len line.old + length part.now ≤ vec_capacity line.old }
    requires line { HasNoLineFeed (take (given - 1) part.now) }
    ensures ends { EndsPart line.old.items line.new.items (take given part.now) result }
    ensures capacity { vec_capacity line.old ≤ vec_capacity line.new }
{
    let Some((last, front)) = part[..given].split_last() else {
        return Part::EndOfSource;
    };
    if *last == b'\n' {
        push_front(line, part, front.len());
        return Part::LineFeed;
    }
    push_front(line, part, given);
    Part::More
}

/// Reads more octets of a line, up to its line feed, which is not kept. With as many as a part has,
/// the line is not too long.
fn read_part<S: Source>(source: &mut S, line: &mut Vec<u8>) -> Result<Part, DeviceFailed>
    requires works { S.has_failed source.old ≡ false }
    requires goes_on { S.has_ended source.old ≡ false }
    requires short { vec_len line.old + 16 ≤ line_limit }
    requires room { line_limit + 1 ≤ vec_capacity line.old }
    ensures takes { let old = S.remaining source.old in
        TakesPart old (S.remaining source.new) line.old.items line.new.items result }
    ensures room { line_limit + 1 ≤ vec_capacity line.new }
    ensures fails { IsErr result → S.has_failed source.new ≡ true }
    ensures works { IsOk result → S.has_failed source.new ≡ false }
    ensures goes_on { IfOk result (λ part. part ≢ Part.EndOfSource
        → S.has_ended source.new ≡ false) }
{
    let mut part = [0u8; PART];
    let given = source.read_in_line(&mut part)?;
    Ok(end_part(line, &part, given))
}

/// Reads the rest of a line octet by octet.
fn read_rest<S: Source>(source: &mut S, line: &mut Vec<u8>) -> Result<LineEnd, LineFault>
    requires works { S.has_failed source.old ≡ false }
    requires goes_on { S.has_ended source.old ≡ false }
    requires no_feed { HasNoLineFeed line.old.items }
    requires few { length (strip_carriage_return line.old.items) ≤ line_limit }
    requires room { line_limit + 1 ≤ vec_capacity line.old }
    ensures reads { (start : Option (List ℕ))
        → Consumes start (S.remaining source.old) line.old.items
        → ReadsLine start (S.remaining source.new) line.new.items result }
    ensures fails { result ≡ Err LineFault.Read → S.has_failed source.new ≡ true }
    ensures works { result ≢ Err LineFault.Read → S.has_failed source.new ≡ false }
    ensures goes_on { result ≡ Ok LineEnd.LineFeed → S.has_ended source.new ≡ false }
{
    loop {
        match next_octet(source) {
            Ok(Some(b'\n')) => {
                drop_carriage_return(line);
                return Ok(LineEnd::LineFeed);
            }
            Ok(Some(octet)) => {
                if is_longer(line, octet) {
                    return Err(LineFault::TooLong);
                }
                line.push_reserved(octet);
            }
            Ok(None) => {
                if line.len() > LINE_LIMIT {
                    return Err(LineFault::TooLong);
                }
                return Ok(LineEnd::EndOfSource);
            }
            Err(_) => return Err(LineFault::Read),
        }
    }
}

/// Reads one line, without its line feed and the carriage return before it, from a source that must
/// not have failed yet, nor told its end. Of a line that is too long no octet is read after the one
/// that shows it.
pub fn read_line<S: Source>(source: &mut S, line: &mut Vec<u8>) -> Result<LineEnd, LineFault>
    requires works { S.has_failed source.old ≡ false }
    requires goes_on { S.has_ended source.old ≡ false }
    ensures reads { let old = S.remaining source.old in
        ReadsLine old (S.remaining source.new) line.new.items result }
    ensures fails { result ≡ Err LineFault.Read → S.has_failed source.new ≡ true }
    ensures works { result ≢ Err LineFault.Read → S.has_failed source.new ≡ false }
    ensures goes_on { result ≡ Ok LineEnd.LineFeed → S.has_ended source.new ≡ false }
{
    // after a short line another is likely, which is read soonest octet by octet
    let is_short = line.len() < SHORT;
    line.clear();
    if line.reserve(ROOM).is_err() {
        return Err(LineFault::Memory);
    }
    while !is_short && source.gives_lines() && line.len() + PART <= LINE_LIMIT {
        match read_part(source, line) {
            Ok(Part::More) => {}
            Ok(Part::LineFeed) => {
                drop_carriage_return(line);
                return Ok(LineEnd::LineFeed);
            }
            Ok(Part::EndOfSource) => return Ok(LineEnd::EndOfSource),
            Err(_) => return Err(LineFault::Read),
        }
    }
    read_rest(source, line)
}
