//! What a script is read from.

ghost use Rattle.std.specs.Prelude.{◌≡◌, ◌≤◌, length, true, false, None, IfOk, IsErr, IsOk};

use crate::talk::outlet::{Outlet, flush};
use sms_script::{copy_in_line, read_again};
use sms_world::{DeviceFailed, Source};
use std::alloc::{AllocError, Global};
use std::cell::RefCell;
use std::io::{Read, Write};

/// How many octets are read at once.
const ROOM: usize = 8_192;

/// What octets are read from.
#[derive(Drop)]
pub struct Ear<'a, 'b, 'c, R: Read, W: Write> {
    input: &'c mut R,
    outlet: &'b RefCell<Outlet<'a, W>>,
    room: Vec<u8>,
    /// Where the octets begin that were read and not given.
    start: usize,
    /// Where they end.
    end: usize,
    /// Whether a call of it failed.
    pub failed: bool,
    /// Whether a call told the end.
    pub ended: bool,
    /// Whether it was the output that failed, which could not be flushed.
    is_mute: bool,
}

impl<'a, 'b, 'c, R: Read, W: Write> Ear<'a, 'b, 'c, R, W> {
    /// One that has not failed, and has not told its end.
    pub fn new(
        alloc: Global,
        input: &'c mut R,
        outlet: &'b RefCell<Outlet<'a, W>>,
    ) -> Result<Ear<'a, 'b, 'c, R, W>, AllocError>
        ensures failed { IfOk result (λ ear. ear.failed ≡ false) }
        ensures ended { IfOk result (λ ear. ear.ended ≡ false) }
    {
        Ok(Ear {
            input,
            outlet,
            room: vec![in alloc; 0; ROOM]?,
            start: 0,
            end: 0,
            failed: false,
            ended: false,
            is_mute: false,
        })
    }

    /// Whether the output failed, which could not be flushed.
    pub fn is_mute(&self) -> bool {
        self.is_mute
    }
}

/// Why no more is read.
#[derive(Clone, Copy, PartialEq, Eq)]
enum Silence {
    /// The input failed.
    Deaf,
    /// The output failed, which could not be flushed.
    Mute,
}

/// Reads more, after the output is flushed, and says how many octets.
fn fill<R: Read, W: Write>(
    input: &mut R,
    outlet: &RefCell<Outlet<'_, W>>,
    room: &mut Vec<u8>,
) -> Result<usize, Silence> {
    if !flush(outlet) {
        return Err(Silence::Mute);
    }
    read_again(input, room.as_mut_slice()).map_err(|_| Silence::Deaf)
}

/// Copies the front of octets into a buffer, and says how many.
fn copy_front(octets: &[u8], buffer: &mut [u8]) -> usize
    ensures { result ≤ length buffer.old }
{
    let count = octets.len().min(buffer.len());
    buffer[..count].copy_from_slice(&octets[..count]);
    count
}

impl<R: Read, W: Write> Ear<'_, '_, '_, R, W> {
    /// The next of the octets that were read and not given.
    fn next_read(&mut self) -> Option<u8>
        ensures failed { self.new.failed ≡ self.old.failed }
    {
        if self.start >= self.end {
            return None;
        }
        let octet = self.room.get(self.start).copied();
        self.start = self.start.saturating_add(1);
        octet
    }

    /// Reads more, where no octet is left that was read and not given.
    fn fill_empty(&mut self) -> Result<(), DeviceFailed>
        ensures fails { IsErr result → self.new.failed ≡ true }
        ensures works { IsOk result → self.new.failed ≡ self.old.failed }
    {
        if self.start < self.end {
            return Ok(());
        }
        match fill(self.input, self.outlet, &mut self.room) {
            Ok(count) => {
                self.start = 0;
                self.end = count;
                Ok(())
            }
            Err(silence) => {
                self.is_mute = silence == Silence::Mute;
                self.failed = true;
                Err(DeviceFailed)
            }
        }
    }

    /// Gives the front of the octets that were read, more of which are read where none are left.
    #[inline(never)]
    fn read_front(&mut self, buffer: &mut [u8]) -> Result<usize, DeviceFailed>
        ensures bound { IfOk result (λ n. n ≤ length buffer.new) }
        ensures fails { IsErr result → self.new.failed ≡ true }
        ensures works { IsOk result → self.new.failed ≡ self.old.failed }
    {
        self.fill_empty()?;
        let count = match self.room.get(self.start..self.end) {
            Some(left) => copy_front(left, buffer),
            None => 0,
        };
        self.start = self.start.saturating_add(count);
        Ok(count)
    }
}

impl<R: Read, W: Write> Source for Ear<'_, '_, '_, R, W> {
    ghost remaining = { λ _. None };

    ghost has_failed = { λ e. e.failed };

    ghost has_ended = { λ e. e.ended };

    fn read(&mut self, buffer: &mut [u8]) -> Result<usize, DeviceFailed> {
        if let [place] = &mut *buffer
            && let Some(octet) = self.next_read()
        {
            *place = octet;
            self.ended = false;
            return Ok(1);
        }
        let count = self.read_front(buffer)?;
        self.ended = count == 0 && !buffer.is_empty();
        Ok(count)
    }

    fn failed(&self) -> bool {
        self.failed
    }

    fn gives_lines(&self) -> bool {
        true
    }

    fn read_in_line(&mut self, buffer: &mut [u8]) -> Result<usize, DeviceFailed> {
        self.fill_empty()?;
        let count = match self.room.get(self.start..self.end) {
            Some(left) => copy_in_line(left, buffer),
            None => 0,
        };
        self.start = self.start.saturating_add(count);
        self.ended = count == 0 && !buffer.is_empty();
        Ok(count)
    }
}
