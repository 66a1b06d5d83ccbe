//! Scripts that come in parts, or of which a read fails, beside the same that are read octet by
//! octet.

use crate::ear::{Ear, Mouth, Outlet, write_page};
use crate::found::holds;
use crate::parts::script_of;
use sms_trial::{Made, fed_from};
use sms_world::{PlayFault, play};
use std::alloc::{AllocError, Global};
use std::cell::RefCell;
use std::io::{ErrorKind, Read};
use std::process::Abort;
use std::test::Fail;

/// Sizes of parts: around those that are read at once, that of the longest line, and that of the
/// room for what is read; and all at once.
static SIZES: [usize; 13] = [
    1, 2, 3, 63, 64, 65, 4_095, 4_096, 4_097, 8_191, 8_192, 8_193, 1_000_000,
];

/// How many octets come before a read fails.
static FRONTS: [usize; 15] = [
    0, 1, 2, 3, 4, 63, 64, 65, 4_095, 4_096, 4_097, 4_098, 8_191, 8_192, 8_193,
];

/// Gives at most so many octets at a time, and after the last tells the end or fails.
#[derive(Drop)]
struct Given<'a> {
    octets: &'a [u8],
    most: usize,
    fails: bool,
}

impl Read for Given<'_> {
    fn read(&mut self, buffer: &mut [u8]) -> std::io::Result<usize> {
        if self.octets.is_empty() && self.fails {
            return Err(std::io::Error::from(ErrorKind::Other));
        }
        let count = self.most.min(buffer.len()).min(self.octets.len());
        let (front, rest) = self.octets.split_at(count);
        buffer[..count].copy_from_slice(front);
        self.octets = rest;
        Ok(count)
    }
}

/// Plays a script that is read octet by octet.
fn play_from(
    alloc: Global,
    input: &mut Given<'_>,
    output: &mut Vec<u8>,
) -> Result<Result<(), PlayFault>, AllocError> {
    let outlet = RefCell::new(Outlet::new(alloc, output)?);
    let mut ear = Ear::new(alloc, input, &outlet)?;
    let mut mouth = Mouth::new(&outlet);
    let played = play(alloc, &mut ear, &mut mouth);
    let is_mute = ear.is_mute();
    drop(ear);
    if is_mute || !write_page(&outlet) {
        return Ok(Err(PlayFault::Write));
    }
    Ok(played)
}

/// The exit status after a script was played.
fn status_of(played: Result<(), PlayFault>) -> u8 {
    match played {
        Ok(()) => 0,
        Err(PlayFault::Script { .. }) => 1,
        Err(_) => 3,
    }
}

/// The status and the whole output for a script that is read octet by octet.
fn played_plainly(alloc: Global, input: &mut Given<'_>) -> Result<(u8, String), Fail> {
    let mut output = Vec::new(alloc);
    let played = play_from(alloc, input, &mut output)?;
    if let Err(fault) = played {
        let line = format!(in alloc; "{fault}\n")?;
        output.extend_from_slice(line.as_bytes())?;
    }
    Ok((status_of(played), String::from_utf8(output)?))
}

/// A script that is given at once.
fn whole(script: &[u8], fails: bool) -> Given<'_> {
    Given {
        octets: script,
        most: script.len(),
        fails,
    }
}

/// Whether a script that comes in parts has a status and a whole output.
fn is_same(alloc: Global, mut input: Given<'_>, wanted: u8, output: &str) -> Result<bool, Fail> {
    let (status, played) = fed_from(alloc, &["sms", "play"], &mut input)?;
    Ok(status == wanted && played.as_str() == output)
}

/// A script is played as it is octet by octet, in parts of each size.
fn is_heard(
    rt: &impl Abort,
    alloc: Global,
    script: &[u8],
    fails: bool,
    sizes: &[usize],
) -> Result<(), Fail> {
    let mut input = whole(script, fails);
    let (status, output) = played_plainly(alloc, &mut input)?;
    for most in sizes {
        let mut input = whole(script, fails);
        input.most = *most;
        let same = is_same(alloc, input, status, &output)?;
        holds(rt, &(fails, *most, script.len()), same);
    }
    Ok(())
}

#[test]
fn plays_as_octet_by_octet(rt: HostRuntime) -> Result<(), Fail> {
    let long = "x".repeat(rt.alloc(), 4_097)?;
    for (seed, ending) in [
        (20, b"tick 5".as_slice()),
        (21, b"tick 5\r\n\n"),
        (22, b"type a +1002 \xF0\x9F\x98\n"),
        (23, long.as_bytes()),
        (24, long.as_bytes().get(1..).unwrap_or(&[])),
    ] {
        let script = script_of(rt.alloc(), seed, ending)?;
        is_heard(&rt, rt.alloc(), &script, false, &SIZES)?;
    }
    Ok(())
}

/// A script of which a read fails after as many octets is played as it is octet by octet.
fn failure_is_heard(
    rt: &impl Abort,
    alloc: Global,
    script: &[u8],
    count: usize,
) -> Result<(), Fail> {
    let front = script.get(..count).unwrap_or(script);
    is_heard(rt, alloc, front, true, &[1, 3, 64, 1_000_000])
}

/// A script whose first line is a comment of so many octets.
fn commented(alloc: Global, count: usize) -> Result<Vec<u8>, Fail> {
    let mut script = b"#".as_slice().repeat(alloc, count)?;
    script.extend_from_slice(b"\r\nphone a +1\ntype a +1 text\ncarry 1\n")?;
    Ok(script)
}

#[test]
fn tells_reads_that_fail_after_some_octets(rt: HostRuntime) -> Result<(), Fail> {
    for count in [4_094, 4_096, 4_097] {
        let script = commented(rt.alloc(), count)?;
        for front in FRONTS {
            failure_is_heard(&rt, rt.alloc(), &script, front)?;
        }
    }
    Ok(())
}

#[test]
fn tells_reads_that_fail_at_each_octet(rt: HostRuntime) -> Result<(), Fail> {
    let script = commented(rt.alloc(), 62)?;
    for front in 0..=script.len() {
        failure_is_heard(&rt, rt.alloc(), &script, front)?;
    }
    Ok(())
}

#[test]
fn tells_reads_that_fail_within_lines(rt: HostRuntime) -> Result<(), Fail> {
    let mut made = Made::new(3);
    let script = script_of(rt.alloc(), 25, b"tick 5\n")?;
    for front in FRONTS {
        failure_is_heard(&rt, rt.alloc(), &script, front)?;
    }
    for _ in 0..16 {
        failure_is_heard(&rt, rt.alloc(), &script, made.below(script.len()))?;
    }
    Ok(())
}
