//! A reader or writer of std that remembers whether it failed.

ghost use Rattle.std.specs.Prelude.{◌≡◌, false};
ghost use Rattle.sms_script.specs.Devices.{count_read, count_written};

use crate::devices::again::{read_again, write_again};
use crate::devices::sink::Sink;
use crate::devices::source::{DeviceFailed, Source};
use std::io::{Read, Write};

/// A reader or writer of std that remembers whether a call answered an error, or a write took
/// nothing; and whether a read told the end. A call that was interrupted has not failed: it is
/// repeated.
#[derive(Drop)]
pub struct Watched<T> {
    /// The reader or writer.
    pub inner: T,
    /// Whether a call of it failed.
    pub failed: bool,
    /// Whether a read of it told the end.
    pub ended: bool,
}

impl<T> Watched<T> {
    /// One that has not failed, and has not told its end.
    pub fn new(inner: T) -> Watched<T>
        ensures inner { result.inner ≡ inner }
        ensures failed { result.failed ≡ false }
        ensures ended { result.ended ≡ false }
    {
        Watched {
            inner,
            failed: false,
            ended: false,
        }
    }

    /// The reader or writer itself.
    pub fn into_inner(self) -> T
        ensures { result ≡ self.inner }
    {
        let Watched {
            inner,
            failed: _,
            ended: _,
        } = self;
        inner
    }
}

/// How many octets a read gave, by what the reader answered; none where it failed.
fn count_read(answered: std::io::Result<usize>) -> Option<usize>
    ensures { result ≡ count_read answered }
{
    match answered {
        Ok(count) => Some(count),
        Err(_) => None,
    }
}

/// How many octets of as many a write took, by what the writer answered; none where it failed. To
/// take none of some is to fail.
fn count_written(answered: std::io::Result<usize>, given: usize) -> Option<usize>
    ensures { result ≡ count_written answered given }
{
    match answered {
        Ok(0) if given > 0 => None,
        Ok(count) => Some(count),
        Err(_) => None,
    }
}

impl<R: Read> Source for Watched<R> {
    ghost remaining = { λ w. R.remaining w.inner };

    ghost has_failed = { λ w. w.failed };

    ghost has_ended = { λ w. w.ended };

    fn read(&mut self, buffer: &mut [u8]) -> Result<usize, DeviceFailed> {
        let Some(count) = count_read(read_again(&mut self.inner, buffer)) else {
            self.failed = true;
            return Err(DeviceFailed);
        };
        self.ended = count == 0 && !buffer.is_empty();
        Ok(count)
    }

    fn failed(&self) -> bool {
        self.failed
    }
}

impl<W: Write> Sink for Watched<W> {
    ghost contents = { λ w. W.contents w.inner };

    ghost has_failed = { λ w. w.failed };

    fn write(&mut self, octets: &[u8]) -> Result<usize, DeviceFailed> {
        let Some(count) = count_written(write_again(&mut self.inner, octets), octets.len()) else {
            self.failed = true;
            return Err(DeviceFailed);
        };
        Ok(count)
    }

    fn failed(&self) -> bool {
        self.failed
    }
}
