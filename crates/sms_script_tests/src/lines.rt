//! Lines of the greatest length, and how they end.

ghost use Rattle.std.specs.Prelude.{None};

use crate::found::same;
use sms_script::{DeviceFailed, LineEnd, LineFault, Source, Watched, copy_in_line, read_line};
use std::alloc::{AllocError, Global};
use std::process::Abort;
use std::test::Fail;

/// As many letters, what follows them, and what is read.
#[derive(Clone, Copy)]
struct Reading {
    letters: usize,
    ending: &'static [u8],
    end: Result<LineEnd, LineFault>,
    length: usize,
}

static READINGS: [Reading; 11] = [
    Reading {
        letters: 4096,
        ending: b"\n",
        end: Ok(LineEnd::LineFeed),
        length: 4096,
    },
    Reading {
        letters: 4096,
        ending: b"\r\n",
        end: Ok(LineEnd::LineFeed),
        length: 4096,
    },
    Reading {
        letters: 4096,
        ending: b"",
        end: Ok(LineEnd::EndOfSource),
        length: 4096,
    },
    Reading {
        letters: 4095,
        ending: b"\r",
        end: Ok(LineEnd::EndOfSource),
        length: 4096,
    },
    Reading {
        letters: 4095,
        ending: b"\r\r\n",
        end: Ok(LineEnd::LineFeed),
        length: 4096,
    },
    Reading {
        letters: 4097,
        ending: b"\n",
        end: Err(LineFault::TooLong),
        length: 4096,
    },
    Reading {
        letters: 4097,
        ending: b"\r\n",
        end: Err(LineFault::TooLong),
        length: 4096,
    },
    Reading {
        letters: 4096,
        ending: b"\r",
        end: Err(LineFault::TooLong),
        length: 4097,
    },
    Reading {
        letters: 0,
        ending: b"\r\n",
        end: Ok(LineEnd::LineFeed),
        length: 0,
    },
    Reading {
        letters: 0,
        ending: b"\r",
        end: Ok(LineEnd::EndOfSource),
        length: 1,
    },
    Reading {
        letters: 0,
        ending: b"",
        end: Ok(LineEnd::EndOfSource),
        length: 0,
    },
];

/// The letters of a row, and what follows them.
fn octets_of(alloc: Global, row: &Reading) -> Result<Vec<u8>, AllocError> {
    let mut octets = vec![in alloc; b'a'; row.letters]?;
    octets.extend_from_slice(row.ending)?;
    Ok(octets)
}

/// How the first line of octets ends, and how long it is.
fn read(alloc: Global, octets: &[u8]) -> (Result<LineEnd, LineFault>, usize) {
    let mut source = Watched::new(octets);
    let mut line = Vec::new(alloc);
    let end = read_line(&mut source, &mut line);
    (end, line.len())
}

/// What was read is what the row wants.
fn is(rt: &impl Abort, row: &Reading, found: (Result<LineEnd, LineFault>, usize)) {
    let wanted = (row.end, row.length);
    same(rt, &(row.letters, row.ending), &found, &wanted);
}

#[test]
fn lines_as_long_as_may_be(rt: HostRuntime) -> Result<(), Fail> {
    for row in READINGS.as_slice() {
        let octets = octets_of(rt.alloc(), row)?;
        is(&rt, row, read(rt.alloc(), &octets));
    }
    Ok(())
}

/// Octets that give as many of a line as are asked for.
#[derive(Drop)]
struct Given<'a> {
    octets: &'a [u8],
    failed: bool,
    ended: bool,
}

impl<'a> Source for Given<'a> {
    ghost remaining = { λ _. None };

    ghost has_failed = { λ g. g.failed };

    ghost has_ended = { λ g. g.ended };

    fn read(&mut self, buffer: &mut [u8]) -> Result<usize, DeviceFailed> {
        let count = self.octets.len().min(buffer.len());
        buffer[..count].copy_from_slice(&self.octets[..count]);
        self.octets = &self.octets[count..];
        self.ended = count == 0 && !buffer.is_empty();
        Ok(count)
    }

    fn failed(&self) -> bool {
        self.failed
    }

    fn gives_lines(&self) -> bool {
        true
    }

    fn read_in_line(&mut self, buffer: &mut [u8]) -> Result<usize, DeviceFailed> {
        let count = copy_in_line(self.octets, buffer);
        self.octets = &self.octets[count..];
        self.ended = count == 0 && !buffer.is_empty();
        Ok(count)
    }
}

/// The first line of octets is read alike from a source that gives lines and from one that gives
/// octets singly, and as much is left.
fn alike(rt: &impl Abort, alloc: Global, octets: &[u8]) {
    let mut given = Given {
        octets,
        failed: false,
        ended: false,
    };
    let mut single = Watched::new(octets);
    let mut line = Vec::new(alloc);
    let mut wanted = Vec::new(alloc);
    let found = read_line(&mut given, &mut line);
    let end = read_line(&mut single, &mut wanted);
    same(rt, &octets.len(), &found, &end);
    same(rt, &octets.len(), &line.as_slice(), &wanted.as_slice());
    same(rt, &octets.len(), &given.octets, &single.inner);
}

#[test]
fn lines_by_parts(rt: HostRuntime) -> Result<(), Fail> {
    for row in READINGS.as_slice() {
        let octets = octets_of(rt.alloc(), row)?;
        alike(&rt, rt.alloc(), &octets);
    }
    for letters in 0..200 {
        for ending in [b"\nmore\n".as_slice(), b"\r\n", b"\r", b"", b"\n"] {
            let mut octets = vec![in rt.alloc(); b'a'; letters]?;
            octets.extend_from_slice(ending)?;
            alike(&rt, rt.alloc(), &octets);
        }
    }
    Ok(())
}
