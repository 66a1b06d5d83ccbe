//! Reads and writes that take turns.

use crate::lines::Teller;
use sms_feed::take_lines;
use std::cell::Cell;
use std::io::{Read, Write};
use std::test::Fail;

/// What was done, in order: a digit for each call.
#[derive(Drop)]
struct Log {
    digits: Cell<u64>,
}

const READ: u64 = 1;

const WRITTEN: u64 = 2;

const FLUSHED: u64 = 3;

impl Log {
    fn note(&self, digit: u64) {
        let digits = self.digits.get().saturating_mul(10).saturating_add(digit);
        self.digits.set(digits);
    }
}

/// Gives one line of two octets at a time.
#[derive(Drop)]
struct Given<'a> {
    log: &'a Log,
    octets: &'a [u8],
}

impl Read for Given<'_> {
    fn read(&mut self, buffer: &mut [u8]) -> std::io::Result<usize> {
        self.log.note(READ);
        let count = buffer.len().min(self.octets.len()).min(2);
        let (front, rest) = self.octets.split_at(count);
        buffer[..count].copy_from_slice(front);
        self.octets = rest;
        Ok(count)
    }
}

/// Takes all.
#[derive(Drop)]
struct Taken<'a> {
    log: &'a Log,
}

impl Write for Taken<'_> {
    fn write(&mut self, octets: &[u8]) -> std::io::Result<usize> {
        self.log.note(WRITTEN);
        Ok(octets.len())
    }

    fn flush(&mut self) -> std::io::Result<()> {
        self.log.note(FLUSHED);
        Ok(())
    }
}

/// Before each read all that is told is written and flushed.
#[test]
fn all_is_flushed_before_more_is_read(rt: HostRuntime) -> Result<(), Fail> {
    let log = Log {
        digits: Cell::new(0),
    };
    let mut input = Given {
        log: &log,
        octets: b"a\nb\n",
    };
    let mut output = Taken { log: &log };
    let mut teller = Teller { fails: 0 };
    let taken = take_lines(rt.alloc(), &mut teller, &mut input, &mut output);
    drop(input);
    drop(output);
    assert!(rt; taken.is_ok());
    assert_eq!(rt; log.digits.get(), 312_312_312);
    Ok(())
}
