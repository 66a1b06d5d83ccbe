//! The room of what was read.

ghost use Rattle.std.specs.Prelude.{◌≡◌, ◌≤◌, ◌<◌, ◌+◌, ◌-◌, length, take, drop, IfOk};
ghost use Rattle.std.specs.Io.KnownBytes.{ReadConsumes};
ghost use Rattle.sms_feed.specs.Inside.Room.{kept};

use crate::line::LINE_LIMIT;
use sms_script::read_again;
use std::io::Read;

/// The most octets of a line that may be kept, with the carriage return at its end.
pub(crate) const KEPT_MAX: usize = LINE_LIMIT + 1;

/// Keeps what lies between two places at the front, or nothing where it is longer than a line may
/// be, and answers how many octets that are.
pub(crate) fn keep(room: &mut Vec<u8>, start: usize, end: usize) -> usize
    requires { (start ≤ end) × (end ≤ length room.old.items) }
    ensures kept { take result room.new.items
        ≡ kept (take (end - start) (drop start room.old.items)) }
    ensures count { result ≡ length (kept (take (end - start) (drop start room.old.items))) }
    ensures few { result ≤ KEPT_MAX }
    ensures room { length room.new.items ≡ length room.old.items }
{
    let count = end - start;
    if count > KEPT_MAX {
        return 0;
    }
    room.as_mut_slice().copy_within(start..end, 0);
    count
}

/// Reads behind what is kept at the front, and answers how many octets were read.
pub(crate) fn read_behind<R: Read>(
    input: &mut R,
    room: &mut Vec<u8>,
    count: usize,
) -> std::io::Result<usize>
    requires { count < length room.old.items }
    ensures kept { take count room.new.items ≡ take count room.old.items }
    ensures bound { IfOk result (λ read. count + read ≤ length room.new.items) }
    ensures octets { ReadConsumes (R.remaining input.old) (R.remaining input.new) result
        (drop count room.new.items) }
    ensures room { length room.new.items ≡ length room.old.items }
{
    read_again(input, &mut room.as_mut_slice()[count..])
}
