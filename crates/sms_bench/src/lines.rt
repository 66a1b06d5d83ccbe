//! Lines that are made as they are read.

ghost use Rattle.std.specs.Prelude.{◌≡◌, length, min};

use std::alloc::{AllocError, Global};
use std::io::{self, ErrorKind, Read};

/// How many octets are made at once.
const ENOUGH: usize = 65_536;

/// What makes lines, one after another.
pub trait Maker: Drop {
    /// Adds a line, or some, each with its line feed, and says whether there was one.
    fn make(&mut self, room: &mut Vec<u8>) -> Result<bool, AllocError>;
}

/// A reader of the lines that are made.
#[derive(Drop)]
pub struct Made<M: Maker> {
    maker: M,
    room: Vec<u8>,
    /// How many octets of the room were read.
    start: usize,
}

/// Makes lines until there are enough, or no more.
fn make_enough<M: Maker>(maker: &mut M, room: &mut Vec<u8>) -> Result<(), AllocError> {
    for _ in 0..u64::MAX {
        if room.len() >= ENOUGH || !maker.make(room)? {
            break;
        }
    }
    Ok(())
}

impl<M: Maker> Made<M> {
    /// A reader of all lines.
    pub fn new(alloc: Global, maker: M) -> Made<M> {
        Made {
            maker,
            room: Vec::new(alloc),
            start: 0,
        }
    }
}

/// Copies as many octets to the front of a buffer as it has room for, and says how many.
fn copy_front(octets: &[u8], buffer: &mut [u8]) -> usize
    ensures count { result ≡ min (length octets.now) (length buffer.old) }
{
    let count = octets.len().min(buffer.len());
    buffer[..count].copy_from_slice(&octets[..count]);
    count
}

impl<M: Maker> Made<M> {
    /// What was made and not read.
    fn left(&self) -> &[u8] {
        self.room.get(self.start..).unwrap_or(&[])
    }

    /// Makes lines where all were read, and says whether there was memory for them.
    fn refill(&mut self) -> bool {
        if self.start < self.room.len() {
            return true;
        }
        self.start = 0;
        self.room.clear();
        make_enough(&mut self.maker, &mut self.room).is_ok()
    }
}

impl<M: Maker> Read for Made<M> {
    fn read(&mut self, buffer: &mut [u8]) -> io::Result<usize> {
        if !self.refill() {
            return Err(io::Error::from(ErrorKind::OutOfMemory));
        }
        let count = copy_front(self.left(), buffer);
        self.start = self.start.saturating_add(count);
        Ok(count)
    }
}
