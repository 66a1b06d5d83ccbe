//! Scripts that come in parts, beside those that come octet by octet.

use crate::found::holds;
use sms_trial::{Made, Slow, fed_from};
use std::alloc::Global;
use std::process::Abort;
use std::test::Fail;

/// Sizes of parts: around those that are read at once, that of the longest line, and that of the
/// room for what is read.
static SIZES: [usize; 10] = [2, 63, 64, 65, 4_095, 4_096, 4_097, 8_191, 8_192, 8_193];

/// Adds a line of a script: a comment, an empty line, a text that is typed, or a packet that is
/// carried.
fn push_line(alloc: Global, script: &mut Vec<u8>, made: &mut Made) -> Result<(), Fail> {
    let line = match made.below(8) {
        0 => {
            let letters = "é".repeat(alloc, made.below(2_048))?;
            format!(in alloc; "#{letters}\n")?
        }
        1 => format!(in alloc; "\r\n")?,
        2 => {
            let text = "a€😀".repeat(alloc, made.below(20))?;
            format!(in alloc; "type a +1002 {text}\r\n")?
        }
        3 => format!(in alloc; "push b\n")?,
        _ => format!(in alloc; "carry {}\n", made.below(40))?,
    };
    script.extend_from_slice(line.as_bytes())?;
    Ok(())
}

/// A script of made lines, and what follows them.
pub fn script_of(alloc: Global, seed: u64, ending: &[u8]) -> Result<Vec<u8>, Fail> {
    let mut made = Made::new(seed);
    let mut script = Vec::new(alloc);
    script.extend_from_slice(b"phone a +1001\nphone b +1002\n")?;
    for _ in 0..80 {
        push_line(alloc, &mut script, &mut made)?;
    }
    script.extend_from_slice(ending)?;
    Ok(script)
}

/// The status and the whole output for a script that comes in parts of a size.
fn played_by(alloc: Global, script: &[u8], most: usize) -> Result<(u8, String), Fail> {
    let mut input = Slow {
        octets: script,
        most,
        is_interrupted: false,
    };
    fed_from(alloc, &["sms", "play"], &mut input)
}

/// A script is played alike however it comes.
fn is_played_alike(rt: &impl Abort, alloc: Global, script: &[u8], wanted: u8) -> Result<(), Fail> {
    let (status, single) = played_by(alloc, script, 1)?;
    holds(rt, &(wanted, status), status == wanted);
    for most in SIZES {
        let (status, output) = played_by(alloc, script, most)?;
        let is_alike = status == wanted && output.as_str() == single.as_str();
        holds(rt, &(wanted, most), is_alike);
    }
    Ok(())
}

#[test]
fn plays_the_same_however_it_is_read(rt: HostRuntime) -> Result<(), Fail> {
    let long = "x".repeat(rt.alloc(), 4_097)?;
    for seed in 12..15 {
        for (ending, status) in [
            (b"tick 5".as_slice(), 0),
            (b"tick 5\r\n\n", 0),
            (b"type a +1002 \xF0\x9F\x98\n", 1),
            (long.as_bytes(), 1),
        ] {
            let script = script_of(rt.alloc(), seed, ending)?;
            is_played_alike(&rt, rt.alloc(), &script, status)?;
        }
    }
    Ok(())
}
