//! Lines by parts from a source that fails inside a line, and very short lines by parts, beside the
//! same lines octet by octet.

ghost use Rattle.std.specs.Prelude.{◌≡◌, None, false};

use crate::found::same;
use crate::parts::Parts;
use sms_script::{DeviceFailed, Source, read_line};
use std::alloc::{AllocError, Global};
use std::process::Abort;
use std::test::Fail;

/// Sizes of the parts that octets come in.
static SIZES: [usize; 9] = [1, 2, 3, 15, 16, 17, 64, 4_096, 8_192];

/// What the line had before: nothing, as after an empty line, and as much as a longer one has.
static BEFORE: [&[u8]; 3] = [b"", b"x", b"xyz"];

/// How many octets of a line a source gives before it fails.
static GIVEN: [usize; 24] = [
    0, 1, 2, 3, 4, 15, 16, 17, 18, 63, 64, 65, 66, 4_079, 4_080, 4_081, 4_082, 4_094, 4_095, 4_096,
    4_097, 4_098, 4_099, 5_000,
];

/// What follows the letters of a line, and is followed by another, if any is.
static ENDINGS: [&[u8]; 6] = [b"\n", b"\r\n", b"", b"\r", b"\n\n", b"\r\nx"];

/// Octets that come in parts, and are given so or octet by octet; after the last one a read fails,
/// or tells the end.
#[derive(Drop)]
struct Halting<'a> {
    parts: Parts<'a>,
    by_parts: bool,
    fails: bool,
}

impl<'a> Halting<'a> {
    /// Whether the next read fails.
    fn is_broken(&self) -> bool {
        self.fails && self.parts.octets.is_empty()
    }
}

impl<'a> Source for Halting<'a> {
    ghost remaining = { λ _. None };

    ghost has_failed = { λ h. h.parts.failed };

    ghost has_ended = { λ h. h.parts.ended };

    fn read(&mut self, buffer: &mut [u8]) -> Result<usize, DeviceFailed> {
        if self.is_broken() {
            self.parts.failed = true;
            return Err(DeviceFailed);
        }
        self.parts.read(buffer)
    }

    fn failed(&self) -> bool {
        self.parts.failed
    }

    fn gives_lines(&self) -> bool {
        self.by_parts
    }

    fn read_in_line(&mut self, buffer: &mut [u8]) -> Result<usize, DeviceFailed> {
        if self.is_broken() {
            self.parts.failed = true;
            return Err(DeviceFailed);
        }
        self.parts.read_in_line(buffer)
    }
}

/// Octets as a source gives them, and the line that they are read into.
#[derive(Clone, Copy, Debug)]
struct Way<'a> {
    octets: &'a [u8],
    size: usize,
    fails: bool,
    before: &'a [u8],
}

/// The source of octets, that gives them by parts or octet by octet.
fn source_of<'a>(way: &Way<'a>, by_parts: bool) -> Halting<'a>
    ensures works { result.parts.failed ≡ false }
    ensures goes_on { result.parts.ended ≡ false }
{
    let parts = Parts {
        octets: way.octets,
        size: way.size,
        left: 0,
        failed: false,
        ended: false,
    };
    Halting {
        parts,
        by_parts,
        fails: way.fails,
    }
}

/// The first line is read alike by parts and octet by octet, or fails alike after as many octets.
fn is_alike(rt: &impl Abort, alloc: Global, way: &Way<'_>) -> Result<(), AllocError> {
    let mut parts = source_of(way, true);
    let mut single = source_of(way, false);
    let mut line = way.before.to_vec(alloc)?;
    let mut wanted = way.before.to_vec(alloc)?;
    let found = read_line(&mut parts, &mut line);
    let end = read_line(&mut single, &mut wanted);
    let row = (way.octets.len(), way.size, way.before.len());
    same(rt, &row, &found, &end);
    same(rt, &row, &line.as_slice(), &wanted.as_slice());
    same(rt, &row, &parts.parts.octets, &single.parts.octets);
    same(rt, &row, &parts.failed(), &single.failed());
    Ok(())
}

/// The same in parts of each size, after each of the lines before.
fn all_are_alike(
    rt: &impl Abort,
    alloc: Global,
    octets: &[u8],
    fails: bool,
) -> Result<(), AllocError> {
    for size in SIZES {
        for before in BEFORE {
            let way = Way {
                octets,
                size,
                fails,
                before,
            };
            is_alike(rt, alloc, &way)?;
        }
    }
    Ok(())
}

/// So many letters, and what follows them.
fn line_of(alloc: Global, letters: usize, ending: &[u8]) -> Result<Vec<u8>, AllocError> {
    let mut octets = Vec::new(alloc);
    octets.resize(letters, b'a')?;
    octets.extend_from_slice(ending)?;
    Ok(octets)
}

#[test]
fn reads_that_fail_inside_a_line(rt: HostRuntime) -> Result<(), Fail> {
    for given in GIVEN {
        let letters = line_of(rt.alloc(), given, b"")?;
        all_are_alike(&rt, rt.alloc(), &letters, true)?;
        let returned = line_of(rt.alloc(), given, b"\r")?;
        all_are_alike(&rt, rt.alloc(), &returned, true)?;
    }
    Ok(())
}

#[test]
fn very_short_lines(rt: HostRuntime) -> Result<(), Fail> {
    for letters in 0..21 {
        for ending in ENDINGS {
            let octets = line_of(rt.alloc(), letters, ending)?;
            all_are_alike(&rt, rt.alloc(), &octets, false)?;
        }
    }
    Ok(())
}
