//! Scripts that are told in other ways than a transcript, and outputs that are flushed in time.

ghost use Rattle.std.specs.Prelude.{◌≤◌, length};

mod rows;

use crate::found::holds;
use rows::{CHECKED, OBJECTS};
use sms_command::command;
use sms_trial::{are_fed, are_fed_as_json, fed_with, says};
use std::alloc::Global;
use std::cell::Cell;
use std::io::{Read, Write};
use std::process::Abort;
use std::test::Fail;

#[test]
fn plays_as_objects(rt: HostRuntime) -> Result<(), Fail> {
    are_fed_as_json(rt.alloc(), OBJECTS.as_slice())
}

#[test]
fn checks_scripts(rt: HostRuntime) -> Result<(), Fail> {
    are_fed(rt.alloc(), CHECKED.as_slice())
}

/// A run in which a packet is lost, one is carried twice, the clock goes on, and an event names
/// nothing.
const CHARTED: &str = "\
phone a +1001
phone b +1002
type a +1002 a<b & c
carry 1
carry 1
push b
carry 6
tick 60
carry 99
";

/// Parts of the chart of that run.
static CHART_PARTS: [&str; 12] = [
    "<svg xmlns=\"http://www.w3.org/2000/svg\" width=\"880\"",
    ">centre</text>",
    ">1 type a +1002 a&lt;b &amp; c</text>",
    ">#1 SUBMIT</text>",
    ">2 held</text>",
    ">3 held</text>",
    "<line class=\"again\"",
    "<line class=\"cross\"",
    ">4 push b</text>",
    ">6 tick 60: ticked</text>",
    ">7 carry 99: fault no such packet</text>",
    ">store b 1</text>",
];

#[test]
fn draws_charts(rt: HostRuntime) -> Result<(), Fail> {
    let (status, chart) = fed_with(rt.alloc(), &["sms", "chart"], CHARTED)?;
    holds(&rt, &"status", status == 0 && chart.ends_with("</svg>\n"));
    for part in CHART_PARTS {
        let has = says(&chart, part);
        holds(&rt, &part, has);
    }
    Ok(())
}

/// What an input and an output know of each other: how many octets were written, how many of them
/// were flushed, and whether more was read while some were not.
#[derive(Drop)]
struct Talk {
    written: Cell<usize>,
    flushed: Cell<usize>,
    was_early: Cell<bool>,
}

/// Gives a line at a time.
#[derive(Drop)]
struct Asking<'a> {
    talk: &'a Talk,
    left: &'a str,
}

impl Read for Asking<'_> {
    fn read(&mut self, buffer: &mut [u8]) -> std::io::Result<usize> {
        if self.talk.flushed.get() < self.talk.written.get() {
            self.talk.was_early.set(true);
        }
        let line = match self.left.split_once('\n') {
            Some((line, rest)) => {
                self.left = rest;
                line
            }
            None => return Ok(0),
        };
        Ok(copy_line(line.as_bytes(), buffer))
    }
}

/// Copies a line and its line feed to the front of a buffer, which has room for them.
fn copy_line(line: &[u8], buffer: &mut [u8]) -> usize
    ensures { result ≤ length buffer.old }
{
    let count = line.len().min(buffer.len());
    buffer[..count].copy_from_slice(&line[..count]);
    if count == buffer.len() {
        return count;
    }
    buffer[count] = b'\n';
    count + 1
}

/// Counts what is written.
#[derive(Drop)]
struct Answering<'a> {
    talk: &'a Talk,
}

impl Write for Answering<'_> {
    fn write(&mut self, octets: &[u8]) -> std::io::Result<usize> {
        let written = self.talk.written.get().saturating_add(octets.len());
        self.talk.written.set(written);
        Ok(octets.len())
    }

    fn flush(&mut self) -> std::io::Result<()> {
        self.talk.flushed.set(self.talk.written.get());
        Ok(())
    }
}

/// Whether all that was written was flushed before more was read.
fn is_in_time(alloc: Global, words: &[&str], lines: &str) -> bool {
    let talk = Talk {
        written: Cell::new(0),
        flushed: Cell::new(0),
        was_early: Cell::new(false),
    };
    let mut input = Asking {
        talk: &talk,
        left: lines,
    };
    let mut output = Answering { talk: &talk };
    command(alloc, words, &mut input, &mut output);
    talk.written.get() > 0 && !talk.was_early.get()
}

#[test]
fn flushes_before_it_reads(rt: HostRuntime) -> Result<(), Fail> {
    let script = "phone a +1001\ntype a +1001 hi\ncarry 1\ncarry 3\n";
    for words in [
        ["sms", "play"].as_slice(),
        ["sms", "play", "--json"].as_slice(),
        ["sms", "show", "any", "--lines"].as_slice(),
        ["sms", "join"].as_slice(),
    ] {
        let in_time = is_in_time(rt.alloc(), words, script);
        holds(&rt, &words, in_time);
    }
    Ok(())
}
