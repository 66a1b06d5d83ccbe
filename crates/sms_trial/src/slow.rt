//! A reader that gives a few octets at a time.

use std::io::{ErrorKind, Read};

/// Gives at most so many octets at a time, and is interrupted before each time.
#[derive(Drop)]
pub struct Slow<'a> {
    pub octets: &'a [u8],
    pub most: usize,
    pub is_interrupted: bool,
}

impl Read for Slow<'_> {
    fn read(&mut self, buffer: &mut [u8]) -> std::io::Result<usize> {
        self.is_interrupted = !self.is_interrupted;
        if self.is_interrupted {
            return Err(std::io::Error::from(ErrorKind::Interrupted));
        }
        let count = self.most.min(buffer.len()).min(self.octets.len());
        let (front, rest) = self.octets.split_at(count);
        buffer[..count].copy_from_slice(front);
        self.octets = rest;
        Ok(count)
    }
}
