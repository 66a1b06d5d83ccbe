//! Flushes that fail, after a command has written.

use crate::found::holds;
use sms_command::finish;
use std::alloc::Global;
use std::io::{ErrorKind, Write};

/// Takes all, and fails where it is flushed.
#[derive(Drop)]
struct Unflushed {
    kind: ErrorKind,
}

impl Write for Unflushed {
    fn write(&mut self, octets: &[u8]) -> std::io::Result<usize> {
        Ok(octets.len())
    }

    fn flush(&mut self) -> std::io::Result<()> {
        Err(std::io::Error::from(self.kind))
    }
}

/// The status of a command, and why the flush after it fails.
#[derive(Clone, Copy, Debug)]
struct Flush {
    status: u8,
    kind: ErrorKind,
}

static FLUSHES: [Flush; 4] = [
    Flush {
        status: 0,
        kind: ErrorKind::Other,
    },
    Flush {
        status: 0,
        kind: ErrorKind::OutOfMemory,
    },
    Flush {
        status: 1,
        kind: ErrorKind::InvalidData,
    },
    Flush {
        status: 3,
        kind: ErrorKind::Interrupted,
    },
];

/// Whether a flush that fails for the reason of a row is told as a write that failed.
fn is_told(alloc: Global, row: Flush) -> bool {
    let mut device = Vec::new(alloc);
    let mut output = Unflushed { kind: row.kind };
    let ended = finish(row.status, &mut output, &mut device);
    ended == 3 && device.as_slice() == b"write failed\n".as_slice()
}

#[test]
fn tells_a_flush_that_fails(rt: HostRuntime) {
    for row in FLUSHES.iter() {
        holds(&rt, row, is_told(rt.alloc(), *row));
    }
}

/// Whether the status stays where the flush succeeds, and nothing more is written.
fn stays(alloc: Global, status: u8) -> bool {
    let mut output = Vec::new(alloc);
    let mut device = Vec::new(alloc);
    let ended = finish(status, &mut output, &mut device);
    ended == status && output.is_empty() && device.is_empty()
}

#[test]
fn keeps_the_status_after_a_flush(rt: HostRuntime) {
    for status in 0..=3 {
        holds(&rt, &status, stays(rt.alloc(), status));
    }
}

#[test]
fn fails_where_the_device_takes_nothing(rt: HostRuntime) {
    let mut output = Unflushed {
        kind: ErrorKind::Other,
    };
    let mut device = [0; 5];
    let ended = finish(0, &mut output, &mut device.as_mut_slice());
    holds(&rt, &device, ended == 3);
}
