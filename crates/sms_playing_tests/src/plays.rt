//! Scripts that are played.

mod rows;

use crate::found::holds;
use rows::{
    AT_THE_CENTRE, IN_SEGMENTS, INJECTED, PHONES, Played, STORED, UNANSWERED, WAY, WAY_TOLD,
    WHOLES, Whole,
};
use sms_command::command;
use sms_trial::expanded;
use std::alloc::{AllocError, Global};
use std::io::{ErrorKind, Read};
use std::process::Abort;
use std::test::Fail;

/// The status and the whole output where a reader gives the script.
fn playing_from<R: Read>(alloc: Global, input: &mut R) -> Result<(u8, String), Fail> {
    let mut output = Vec::new(alloc);
    let words = ["sms", "play"].as_slice();
    let status = command(alloc, words, input, &mut output);
    Ok((status, String::from_utf8(output)?))
}

/// The status and the whole output where the input is a script.
fn playing_of(alloc: Global, script: &str) -> Result<(u8, String), Fail> {
    let mut input = script.as_bytes();
    playing_from(alloc, &mut input)
}

/// The number with which the line of a packet begins.
fn number_in(line: &str) -> Option<&str> {
    let (number, _) = line.split_once(' ')?;
    if number.starts_with('#') {
        Some(number)
    } else {
        None
    }
}

/// Adds a line of a transcript: of a packet its number, to the line of its event; another line
/// after a line feed.
fn put_line(events: &mut String, line: &str) -> Result<(), AllocError> {
    match number_in(line) {
        Some(number) => {
            events.push(' ')?;
            events.push_str(number)
        }
        None => {
            events.push('\n')?;
            events.push_str(line)
        }
    }
}

/// Adds the lines of a transcript, and a line feed.
fn put_events(events: &mut String, transcript: &str) -> Result<(), AllocError> {
    for line in transcript.lines() {
        put_line(events, line)?;
    }
    events.push('\n')
}

/// The lines of a transcript with the numbers of packets at the end of their event's line, each
/// between line feeds.
fn events_in(alloc: Global, transcript: &str) -> Result<String, AllocError> {
    let mut events = String::new(alloc);
    put_events(&mut events, transcript)?;
    Ok(events)
}

/// Whether a text stands there between line feeds.
fn has_between(alloc: Global, lines: &str, text: &str) -> Result<bool, AllocError> {
    let between = ["\n", text, "\n"].concat(alloc)?;
    Ok(lines.contains(between.as_str()))
}

/// Whether lines stand there, from the beginning of one line to the end of another.
fn has_lines(alloc: Global, lines: &str, wanted: &str) -> Result<bool, Fail> {
    let wanted = expanded(alloc, wanted)?;
    let stand = has_between(alloc, lines, &wanted);
    drop(wanted);
    Ok(stand?)
}

/// Whether all these lines stand there.
fn have_lines(alloc: Global, lines: &str, wanted: &[&str]) -> Result<bool, Fail> {
    for part in wanted {
        if !has_lines(alloc, lines, part)? {
            return Ok(false);
        }
    }
    Ok(true)
}

/// The script of a row, after its phones.
fn script_of(alloc: Global, row: &Played) -> Result<String, Fail> {
    let script = expanded(alloc, row.script)?;
    let whole = [PHONES, &script].concat(alloc);
    drop(script);
    Ok(whole?)
}

/// The status and the whole output where the input is the script of a row.
fn playing_of_row(alloc: Global, row: &Played) -> Result<(u8, String), Fail> {
    let script = script_of(alloc, row)?;
    let played = playing_of(alloc, &script);
    drop(script);
    played
}

/// Whether a transcript says all that a row wants of events.
fn has_events(alloc: Global, transcript: &str, row: &Played) -> Result<bool, Fail> {
    let events = events_in(alloc, transcript)?;
    let told = have_lines(alloc, &events, row.says);
    drop(events);
    told
}

/// Whether a transcript says all that a row wants.
fn has_all(alloc: Global, transcript: &str, row: &Played) -> Result<bool, Fail> {
    Ok(has_events(alloc, transcript, row)? && have_lines(alloc, transcript, row.packets)?)
}

/// Whether the transcript of a row's script says all that the row wants.
fn is_played(alloc: Global, row: &Played) -> Result<bool, Fail> {
    let (status, transcript) = playing_of_row(alloc, row)?;
    let told = has_all(alloc, &transcript, row);
    drop(transcript);
    Ok(told? && status == 0)
}

/// The script of each row is played, and its transcript says all that the row wants.
fn are_played(rt: &impl Abort, alloc: Global, rows: &[Played]) -> Result<(), Fail> {
    for row in rows {
        let played = is_played(alloc, row)?;
        holds(rt, &row.script, played);
    }
    Ok(())
}

#[test]
fn plays_stored_texts(rt: HostRuntime) -> Result<(), Fail> {
    are_played(&rt, rt.alloc(), STORED.as_slice())
}

#[test]
fn plays_texts_in_segments(rt: HostRuntime) -> Result<(), Fail> {
    are_played(&rt, rt.alloc(), IN_SEGMENTS.as_slice())
}

#[test]
fn plays_what_the_centre_refuses(rt: HostRuntime) -> Result<(), Fail> {
    are_played(&rt, rt.alloc(), AT_THE_CENTRE.as_slice())
}

#[test]
fn plays_what_is_unanswered(rt: HostRuntime) -> Result<(), Fail> {
    are_played(&rt, rt.alloc(), UNANSWERED.as_slice())
}

#[test]
fn plays_packets_that_no_party_put_out(rt: HostRuntime) -> Result<(), Fail> {
    are_played(&rt, rt.alloc(), INJECTED.as_slice())
}

/// Whether a whole script has the status and the output of a row.
fn is_whole(alloc: Global, row: &Whole) -> Result<bool, Fail> {
    let (status, output) = playing_of(alloc, row.script)?;
    Ok(status == row.status && output.as_str() == row.output)
}

#[test]
fn plays_whole_scripts(rt: HostRuntime) -> Result<(), Fail> {
    for row in WHOLES.as_slice() {
        let played = is_whole(rt.alloc(), row)?;
        holds(&rt, &row.script, played);
    }
    Ok(())
}

/// Gives one octet at a time, and fails after as many.
#[derive(Drop)]
struct Breaks<'a> {
    octets: &'a [u8],
}

impl Read for Breaks<'_> {
    fn read(&mut self, buffer: &mut [u8]) -> std::io::Result<usize> {
        if buffer.is_empty() {
            return Ok(0);
        }
        match self.octets.split_first() {
            Some((octet, rest)) => {
                buffer[0] = *octet;
                self.octets = rest;
                Ok(1)
            }
            None => Err(std::io::Error::from(ErrorKind::Other)),
        }
    }
}

/// How much of a transcript stands before the line that begins so.
fn front_before<'a>(alloc: Global, transcript: &'a str, line: &str) -> Result<&'a str, Fail> {
    let begin = ["\n", line].concat(alloc)?;
    let found = transcript.find(begin.as_str());
    drop(begin);
    match found {
        Some(place) => Ok(transcript.get(..place + 1).ok_or("no front")?),
        None => Ok(""),
    }
}

/// How the line begins that is told after as many lines of the script.
fn line_after(alloc: Global, lines: usize) -> Result<String, AllocError> {
    match lines {
        8 => "sent".to_string(alloc),
        _ => format!(in alloc; "{} ", lines.saturating_sub(1)),
    }
}

/// What is told where a read fails after as many lines.
fn told_before(alloc: Global, lines: usize) -> Result<String, Fail> {
    let next = line_after(alloc, lines)?;
    let told = front_before(alloc, WAY_TOLD, &next);
    drop(next);
    Ok([told?, "read failed\n"].concat(alloc)?)
}

/// The status and the whole output where no more than a front is read.
fn playing_of_front(alloc: Global, front: &str) -> Result<(u8, String), Fail> {
    let mut input = Breaks {
        octets: front.as_bytes(),
    };
    playing_from(alloc, &mut input)
}

/// Whether an output is what is told where a read fails after as many lines.
fn is_told_before(alloc: Global, output: &str, lines: usize) -> Result<bool, Fail> {
    let wanted = told_before(alloc, lines)?;
    Ok(output == wanted.as_str())
}

/// Whether the lines of a front are told where no more is read.
fn is_told(alloc: Global, front: &str) -> Result<bool, Fail> {
    let (status, output) = playing_of_front(alloc, front)?;
    let told = is_told_before(alloc, &output, front.matches('\n').count());
    drop(output);
    Ok(told? && status == 3)
}

#[test]
fn tells_the_lines_before_a_read_that_fails(rt: HostRuntime) -> Result<(), Fail> {
    for count in 0..=WAY.len() {
        let front = WAY.get(..count).ok_or("no front")?;
        let told = is_told(rt.alloc(), front)?;
        holds(&rt, &count, told);
    }
    Ok(())
}

/// Whether the front of the transcript fills an output with as much room, and then no more is
/// played.
fn is_filled(alloc: Global, room: usize) -> bool {
    let mut space = [0; 600];
    let mut input = WAY.as_bytes();
    let Some(mut output) = space.get_mut(..room) else {
        return false;
    };
    let status = command(alloc, ["sms", "play"].as_slice(), &mut input, &mut output);
    status == 3 && space.get(..room) == WAY_TOLD.as_bytes().get(..room)
}

#[test]
fn plays_until_the_output_is_full(rt: HostRuntime) -> Result<(), Fail> {
    for room in 0..WAY_TOLD.len() {
        let filled = is_filled(rt.alloc(), room);
        holds(&rt, &room, filled);
    }
    Ok(())
}
