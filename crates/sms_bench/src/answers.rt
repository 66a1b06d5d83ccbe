//! What takes a job's answers: it makes a digest of them, and counts them.

use crate::counts::{Counts, Form};
use crate::digest::Digest;
use memchr::{memchr, memmem};
use std::alloc::Global;
use std::fmt;
use std::io::{self, ErrorKind, Write};

/// The answers of a job.
#[derive(Drop)]
pub struct Answers {
    pub digest: Digest,
    pub counts: Counts,
    /// Whose answers come.
    form: Form,
    /// What came of an answer that has no end yet.
    begun: Vec<u8>,
}

/// Where the first line ends, or the first answer of some lines, after which an empty one stands.
fn end_of(form: Form, octets: &[u8]) -> Option<usize> {
    match form {
        Form::Shown => memmem::find(octets, b"\n\n"),
        _ => memchr(b'\n', octets),
    }
}

/// How many octets an end has.
fn length_of_end(form: Form) -> usize {
    match form {
        Form::Shown => 2,
        _ => 1,
    }
}

/// Counts the answers that have an end, and says how many octets they are.
fn count_whole(form: Form, octets: &[u8], counts: &mut Counts) -> usize {
    let mut rest = octets;
    for _ in 0..octets.len() {
        let Some(end) = end_of(form, rest) else {
            break;
        };
        counts.take(form, rest.get(..end).unwrap_or(&[]));
        let next = end.saturating_add(length_of_end(form));
        rest = rest.get(next..).unwrap_or(&[]);
    }
    octets.len().saturating_sub(rest.len())
}

impl Answers {
    /// No answers.
    pub fn new(alloc: Global) -> Answers {
        Answers {
            digest: Digest::new(),
            counts: Counts::new(),
            form: Form::Drawn,
            begun: Vec::new(alloc),
        }
    }

    /// Answers of a form begin.
    pub fn begin(&mut self, form: Form) {
        self.form = form;
        self.begun.clear();
    }

    /// Answers end, the last one maybe in fewer octets than an end has, with a status.
    pub fn finish(&mut self, status: u8) {
        self.digest.take(&[status]);
        if let [last @ .., b'\n'] = self.begun.as_slice() {
            self.counts.take(self.form, last);
        }
        self.begun.clear();
    }
}

impl Write for Answers {
    fn write(&mut self, octets: &[u8]) -> io::Result<usize> {
        if self.begun.extend_from_slice(octets).is_err() {
            return Err(io::Error::from(ErrorKind::OutOfMemory));
        }
        self.digest.take(octets);
        let whole = count_whole(self.form, self.begun.as_slice(), &mut self.counts);
        if whole >= self.begun.len() {
            self.begun.clear();
        } else {
            drop(self.begun.drain(..whole));
        }
        Ok(octets.len())
    }

    fn flush(&mut self) -> io::Result<()> {
        Ok(())
    }
}

impl fmt::Display for Answers {
    fn fmt<W: fmt::Write>(&self, f: &mut fmt::Formatter<W>) -> fmt::Result {
        let digest = &self.digest;
        let counts = &self.counts;
        write!(f, "{digest}{counts}")
    }
}
