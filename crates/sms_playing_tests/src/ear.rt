//! An input that gives octet by octet, and an output: before more is read, which may take long, all
//! that was written is flushed. It is the plain form, with which the other is compared.

ghost use Rattle.std.specs.Prelude.{◌≡◌, ◌≤◌, length, true, false, None, IfOk, IsErr, IsOk};

use sms_world::{DeviceFailed, Sink, Source};
use std::alloc::{AllocError, Global};
use std::cell::RefCell;
use std::io::{ErrorKind, Read, Write};

/// How many octets are read at once.
const ROOM: usize = 8_192;

/// How many octets are collected before they are written.
const ENOUGH: usize = 32_768;

/// An output, and the octets that are collected before they are written into it.
#[derive(Drop)]
pub struct Outlet<'a, W: Write> {
    output: &'a mut W,
    page: Vec<u8>,
}

impl<'a, W: Write> Outlet<'a, W> {
    /// One with an empty page.
    pub fn new(alloc: Global, output: &'a mut W) -> Result<Outlet<'a, W>, AllocError> {
        Ok(Outlet {
            output,
            page: Vec::with_capacity(alloc, ENOUGH)?,
        })
    }

    /// Writes what was collected, and says whether it could be written.
    pub fn write_page(&mut self) -> bool {
        let written = self.output.write_all(&self.page);
        self.page.clear();
        written.is_ok()
    }

    /// Takes octets, and says whether what was collected could be written, where that was needed.
    fn take(&mut self, octets: &[u8]) -> bool {
        let is_full = self.page.len().saturating_add(octets.len()) > ENOUGH;
        if is_full && !self.write_page() {
            return false;
        }
        if octets.len() > ENOUGH {
            return self.output.write_all(octets).is_ok();
        }
        self.page.extend_from_slice(octets).is_ok()
    }

    /// Writes what was collected, flushes the output, and says whether that could be done.
    fn flush(&mut self) -> bool {
        self.write_page() && self.output.flush().is_ok()
    }
}

/// What octets are written into.
#[derive(Drop)]
pub struct Mouth<'a, 'b, W: Write> {
    outlet: &'b RefCell<Outlet<'a, W>>,
    /// Whether a call of it failed.
    pub failed: bool,
}

impl<'a, 'b, W: Write> Mouth<'a, 'b, W> {
    /// One that has not failed.
    pub fn new(outlet: &'b RefCell<Outlet<'a, W>>) -> Mouth<'a, 'b, W>
        ensures { result.failed ≡ false }
    {
        Mouth {
            outlet,
            failed: false,
        }
    }
}

/// Takes octets, and says whether they could be taken.
fn take_all<W: Write>(outlet: &RefCell<Outlet<'_, W>>, octets: &[u8]) -> bool {
    match outlet.try_borrow_mut() {
        Ok(mut outlet) => outlet.take(octets),
        Err(_) => false,
    }
}

/// Writes what was collected, and says whether it could be written.
pub fn write_page<W: Write>(outlet: &RefCell<Outlet<'_, W>>) -> bool {
    match outlet.try_borrow_mut() {
        Ok(mut outlet) => outlet.write_page(),
        Err(_) => false,
    }
}

/// Writes what was collected, flushes an output, and says whether that could be done.
fn flush<W: Write>(outlet: &RefCell<Outlet<'_, W>>) -> bool {
    match outlet.try_borrow_mut() {
        Ok(mut outlet) => outlet.flush(),
        Err(_) => false,
    }
}

impl<W: Write> Sink for Mouth<'_, '_, W> {
    ghost contents = { λ _. None };

    ghost has_failed = { λ m. m.failed };

    fn write(&mut self, octets: &[u8]) -> Result<usize, DeviceFailed> {
        if !take_all(self.outlet, octets) {
            self.failed = true;
            return Err(DeviceFailed);
        }
        Ok(octets.len())
    }

    fn failed(&self) -> bool {
        self.failed
    }
}

/// What octets are read from.
#[derive(Drop)]
pub struct Ear<'a, 'b, 'c, R: Read, W: Write> {
    input: &'c mut R,
    outlet: &'b RefCell<Outlet<'a, W>>,
    room: Vec<u8>,
    /// Where the octets begin that were read and not given.
    start: usize,
    /// Where they end.
    end: usize,
    /// Whether a call of it failed.
    pub failed: bool,
    /// Whether a call told the end.
    pub ended: bool,
    /// Whether it was the output that failed, which could not be flushed.
    is_mute: bool,
}

impl<'a, 'b, 'c, R: Read, W: Write> Ear<'a, 'b, 'c, R, W> {
    /// One that has not failed, and has not told its end.
    pub fn new(
        alloc: Global,
        input: &'c mut R,
        outlet: &'b RefCell<Outlet<'a, W>>,
    ) -> Result<Ear<'a, 'b, 'c, R, W>, AllocError>
        ensures failed { IfOk result (λ ear. ear.failed ≡ false) }
        ensures ended { IfOk result (λ ear. ear.ended ≡ false) }
    {
        Ok(Ear {
            input,
            outlet,
            room: vec![in alloc; 0; ROOM]?,
            start: 0,
            end: 0,
            failed: false,
            ended: false,
            is_mute: false,
        })
    }

    /// Whether the output failed, which could not be flushed.
    pub fn is_mute(&self) -> bool {
        self.is_mute
    }
}

/// Why no more is read.
#[derive(Clone, Copy, PartialEq, Eq)]
enum Silence {
    /// The input failed.
    Deaf,
    /// The output failed, which could not be flushed.
    Mute,
}

/// Reads more, after the output is flushed, and says how many octets.
fn fill<R: Read, W: Write>(
    input: &mut R,
    outlet: &RefCell<Outlet<'_, W>>,
    room: &mut Vec<u8>,
) -> Result<usize, Silence> {
    if !flush(outlet) {
        return Err(Silence::Mute);
    }
    match read_some(input, room.as_mut_slice()) {
        Some(count) => Ok(count),
        None => Err(Silence::Deaf),
    }
}

/// Copies the front of octets into a buffer, and says how many.
fn copy_front(octets: &[u8], buffer: &mut [u8]) -> usize
    ensures { result ≤ length buffer.old }
{
    let count = octets.len().min(buffer.len());
    buffer[..count].copy_from_slice(&octets[..count]);
    count
}

impl<R: Read, W: Write> Ear<'_, '_, '_, R, W> {
    /// The next of the octets that were read and not given.
    fn next_read(&mut self) -> Option<u8>
        ensures failed { self.new.failed ≡ self.old.failed }
    {
        if self.start >= self.end {
            return None;
        }
        let octet = self.room.get(self.start).copied();
        self.start = self.start.saturating_add(1);
        octet
    }

    /// Gives the front of the octets that were read, more of which are read where none are left.
    #[inline(never)]
    fn read_front(&mut self, buffer: &mut [u8]) -> Result<usize, DeviceFailed>
        ensures bound { IfOk result (λ n. n ≤ length buffer.new) }
        ensures fails { IsErr result → self.new.failed ≡ true }
        ensures works { IsOk result → self.new.failed ≡ self.old.failed }
    {
        if self.start >= self.end {
            match fill(self.input, self.outlet, &mut self.room) {
                Ok(count) => {
                    self.start = 0;
                    self.end = count;
                }
                Err(silence) => {
                    self.is_mute = silence == Silence::Mute;
                    self.failed = true;
                    return Err(DeviceFailed);
                }
            }
        }
        let count = match self.room.get(self.start..self.end) {
            Some(left) => copy_front(left, buffer),
            None => 0,
        };
        self.start = self.start.saturating_add(count);
        Ok(count)
    }
}

impl<R: Read, W: Write> Source for Ear<'_, '_, '_, R, W> {
    ghost remaining = { λ _. None };

    ghost has_failed = { λ e. e.failed };

    ghost has_ended = { λ e. e.ended };

    fn read(&mut self, buffer: &mut [u8]) -> Result<usize, DeviceFailed> {
        if let [place] = &mut *buffer
            && let Some(octet) = self.next_read()
        {
            *place = octet;
            self.ended = false;
            return Ok(1);
        }
        let count = self.read_front(buffer)?;
        self.ended = count == 0 && !buffer.is_empty();
        Ok(count)
    }

    fn failed(&self) -> bool {
        self.failed
    }
}

/// Reads some octets, again where a read was interrupted, and says how many; none where it fails.
fn read_some<R: Read>(input: &mut R, room: &mut [u8]) -> Option<usize> {
    for _ in 0..u64::MAX {
        match input.read(room) {
            Ok(count) => return Some(count),
            Err(error) if error.kind() == ErrorKind::Interrupted => {}
            Err(_) => return None,
        }
    }
    None
}
