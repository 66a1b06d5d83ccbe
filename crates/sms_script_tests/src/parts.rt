//! Lines that a source gives by parts, beside those that are read octet by octet.

ghost use Rattle.std.specs.Prelude.{◌≡◌, None};

use crate::found::same;
use sms_script::{DeviceFailed, LineEnd, Source, Watched, copy_in_line, read_line};
use std::alloc::{AllocError, Global};
use std::process::Abort;
use std::test::Fail;

/// Sizes of parts: around those of the parts of a line that are read at once, of the longest line,
/// and of twice as many octets.
static SIZES: [usize; 11] = [1, 2, 63, 64, 65, 4_095, 4_096, 4_097, 8_191, 8_192, 8_193];

/// Octets that come in parts of a size, of which as many of a line are given as are asked for.
#[derive(Drop)]
pub struct Parts<'a> {
    pub octets: &'a [u8],
    /// How many octets a part has.
    pub size: usize,
    /// How many octets of the part that came last are not given yet.
    pub left: usize,
    pub failed: bool,
    pub ended: bool,
}

impl<'a> Parts<'a> {
    /// The octets of a part that are not given yet: of the next one where all are given.
    fn at_hand(&mut self) -> &'a [u8]
        ensures { self.new.failed ≡ self.old.failed }
    {
        if self.left == 0 {
            self.left = self.size.min(self.octets.len());
        }
        self.octets.get(..self.left).unwrap_or(&[])
    }

    /// So many octets were given.
    fn pass(&mut self, count: usize)
        ensures { self.new.failed ≡ self.old.failed }
    {
        self.octets = self.octets.get(count..).unwrap_or(&[]);
        self.left = self.left.saturating_sub(count);
    }
}

impl<'a> Source for Parts<'a> {
    ghost remaining = { λ _. None };

    ghost has_failed = { λ p. p.failed };

    ghost has_ended = { λ p. p.ended };

    fn read(&mut self, buffer: &mut [u8]) -> Result<usize, DeviceFailed> {
        let octets = self.at_hand();
        let count = octets.len().min(buffer.len());
        buffer[..count].copy_from_slice(&octets[..count]);
        self.pass(count);
        self.ended = count == 0 && !buffer.is_empty();
        Ok(count)
    }

    fn failed(&self) -> bool {
        self.failed
    }

    fn gives_lines(&self) -> bool {
        true
    }

    fn read_in_line(&mut self, buffer: &mut [u8]) -> Result<usize, DeviceFailed> {
        let octets = self.at_hand();
        let count = copy_in_line(octets, buffer);
        self.pass(count);
        self.ended = count == 0 && !buffer.is_empty();
        Ok(count)
    }
}

/// The first line of octets is read alike by parts and octet by octet, and as much is left. What is
/// left after a line feed, and how many octets of it are those of a part, is answered.
fn line_is_alike<'a>(
    rt: &impl Abort,
    alloc: Global,
    octets: &'a [u8],
    size: usize,
    left: usize,
) -> Option<(&'a [u8], usize)> {
    let mut parts = Parts {
        octets,
        size,
        left,
        failed: false,
        ended: false,
    };
    let mut single = Watched::new(octets);
    let mut line = Vec::new(alloc);
    let mut wanted = Vec::new(alloc);
    let found = read_line(&mut parts, &mut line);
    let end = read_line(&mut single, &mut wanted);
    let row = (size, octets.len());
    same(rt, &row, &found, &end);
    same(rt, &row, &line.as_slice(), &wanted.as_slice());
    same(rt, &row, &parts.octets, &single.inner);
    if found == Ok(LineEnd::LineFeed) {
        Some((parts.octets, parts.left))
    } else {
        None
    }
}

/// The lines of octets are read alike by parts and octet by octet, up to the last one or to one
/// that is too long.
fn lines_are_alike(rt: &impl Abort, alloc: Global, octets: &[u8], size: usize) {
    let mut rest = octets;
    let mut left = 0;
    for _ in 0..octets.len() {
        let Some((after, own)) = line_is_alike(rt, alloc, rest, size, left) else {
            break;
        };
        rest = after;
        left = own;
    }
}

/// What ends the line at the end of a part, and lines after it.
static ENDINGS: [&[u8]; 3] = [b"\n", b"\r\n", b"\n\r\n\n"];

/// The last line: as many letters, and what follows them.
#[derive(Clone, Copy, Debug)]
struct Tail {
    letters: usize,
    ending: &'static [u8],
}

static TAILS: [Tail; 12] = [
    Tail {
        letters: 0,
        ending: b"",
    },
    Tail {
        letters: 0,
        ending: b"\r",
    },
    Tail {
        letters: 1,
        ending: b"\n",
    },
    Tail {
        letters: 63,
        ending: b"\r\n",
    },
    Tail {
        letters: 64,
        ending: b"",
    },
    Tail {
        letters: 65,
        ending: b"\n",
    },
    Tail {
        letters: 4_095,
        ending: b"\r",
    },
    Tail {
        letters: 4_095,
        ending: b"\r\r\n",
    },
    Tail {
        letters: 4_096,
        ending: b"\r\n",
    },
    Tail {
        letters: 4_096,
        ending: b"\r",
    },
    Tail {
        letters: 4_096,
        ending: b"",
    },
    Tail {
        letters: 4_097,
        ending: b"\n",
    },
];

/// As many octets: lines of letters, the last one without an end.
fn front_of(alloc: Global, count: usize) -> Result<Vec<u8>, AllocError> {
    let mut octets = Vec::new(alloc);
    for place in 0..count {
        octets.push(if place % 1_000 == 999 { b'\n' } else { b'a' })?;
    }
    Ok(octets)
}

/// A front, the end of its last line, and the last line of all.
fn octets_of(
    alloc: Global,
    front: &[u8],
    ending: &[u8],
    tail: &Tail,
) -> Result<Vec<u8>, AllocError> {
    let mut octets = front.to_vec(alloc)?;
    octets.extend_from_slice(ending)?;
    octets.resize(octets.len().saturating_add(tail.letters), b'b')?;
    octets.extend_from_slice(tail.ending)?;
    Ok(octets)
}

/// A front with each end of its last line, and one of some other lines after it, is read alike.
fn endings_are_alike(
    rt: &impl Abort,
    alloc: Global,
    front: &[u8],
    tails: &[Tail],
    size: usize,
) -> Result<(), Fail> {
    for (ending, tail) in ENDINGS.iter().zip(tails) {
        let octets = octets_of(alloc, front, ending, tail)?;
        lines_are_alike(rt, alloc, &octets, size);
    }
    Ok(())
}

/// Lines that end before, at and after the end of a part of a size are read alike, with each of the
/// last lines after them.
fn size_is_alike(rt: &impl Abort, alloc: Global, size: usize) -> Result<(), Fail> {
    for (more, tails) in TAILS.chunks(3).enumerate() {
        let count = size.saturating_add(more).saturating_sub(3);
        let front = front_of(alloc, count)?;
        endings_are_alike(rt, alloc, &front, tails, size)?;
    }
    Ok(())
}

#[test]
fn lines_around_the_ends_of_parts(rt: HostRuntime) -> Result<(), Fail> {
    for size in SIZES {
        size_is_alike(&rt, rt.alloc(), size)?;
    }
    Ok(())
}
