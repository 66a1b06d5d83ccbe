//! Reads and writes that are repeated where they were interrupted.

ghost use Rattle.std.specs.Prelude.{◌≡◌, ◌≢◌, ◌↔◌, ◌≤◌, IfErr, IfOk, length, true};
ghost use Rattle.std.specs.Io.KnownBytes.{ReadConsumes, WriteAppends};
ghost use Rattle.std.specs.IoError.{error_kind};

use std::io::{Error, ErrorKind, Read, Write};

/// Whether an error says that a call was interrupted, as by a signal, and did nothing.
fn is_interrupted(error: &Error) -> bool
    ensures { (result ≡ true) ↔ (error_kind error.now ≡ ErrorKind.Interrupted) }
{
    error.kind() == ErrorKind::Interrupted
}

/// Reads some octets into the front of a buffer, and answers how many: none only at the end, or
/// where the buffer has no room. A read that was interrupted took nothing, and is repeated, so that
/// no error says that.
pub fn read_again<R: Read>(input: &mut R, buffer: &mut [u8]) -> std::io::Result<usize>
    ensures bound { IfOk result (λ n. n ≤ length buffer.new) }
    ensures octets { ReadConsumes (R.remaining input.old) (R.remaining input.new) result
        buffer.new }
    ensures again { IfErr result (λ e. error_kind e ≢ ErrorKind.Interrupted) }
{
    for _ in 0..u64::MAX {
        match input.read(buffer) {
            Ok(count) => return Ok(count),
            Err(error) => {
                if !is_interrupted(&error) {
                    return Err(error);
                }
            }
        }
    }
    Err(Error::from(ErrorKind::Other))
}

/// Writes some of the octets, from the first on, and answers how many. A write that was interrupted
/// took nothing, and is repeated, so that no error says that.
pub fn write_again<W: Write>(output: &mut W, octets: &[u8]) -> std::io::Result<usize>
    ensures bound { IfOk result (λ n. n ≤ length octets.now) }
    ensures octets { WriteAppends (W.contents output.old) (W.contents output.new) result
        octets.now }
    ensures again { IfErr result (λ e. error_kind e ≢ ErrorKind.Interrupted) }
{
    for _ in 0..u64::MAX {
        match output.write(octets) {
            Ok(count) => return Ok(count),
            Err(error) => {
                if !is_interrupted(&error) {
                    return Err(error);
                }
            }
        }
    }
    Err(Error::from(ErrorKind::Other))
}
