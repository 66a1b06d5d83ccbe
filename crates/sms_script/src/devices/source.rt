//! What gives octets.

ghost use Rattle.std.specs.Prelude.{◌≡◌, ◌≤◌, ◌<◌, ◌-◌, List, ℕ, Option, Bool, true, false, IfOk, IsErr, IsOk, is_none, length, take};
ghost use Rattle.std.specs.Io.KnownBytes.{ReadConsumes};
ghost use Rattle.sms_script.specs.Devices.{GivesOctet};
ghost use Rattle.sms_script.specs.Lines.{HasNoLineFeed};

use std::simd::prelude::*;
use thiserror::Error;

/// A device answered an error, or took nothing.
#[derive(Clone, Copy, Debug, PartialEq, Eq, Error)]
#[error("device failed")]
pub struct DeviceFailed;

/// What gives octets.
pub trait Source {
    /// The octets that it will give from here on, where they are known.
    ghost remaining: { Self → Option (List ℕ) };

    /// Whether a call has failed.
    ghost has_failed: { Self → Bool };

    /// Whether a call has told the end.
    ghost has_ended: { Self → Bool };

    /// Reads some octets into the front of the buffer, and answers how many: none only at the end,
    /// or where the buffer has no room. No call may have failed yet, nor told the end.
    fn read(&mut self, buffer: &mut [u8]) -> Result<usize, DeviceFailed>
        requires works { has_failed self.old ≡ false }
        requires goes_on { has_ended self.old ≡ false }
        ensures bound { IfOk result (λ n. n ≤ length buffer.new) }
        ensures octets { ReadConsumes (remaining self.old) (remaining self.new) result buffer.new }
        ensures fails { IsErr result → has_failed self.new ≡ true }
        ensures works { IsOk result → has_failed self.new ≡ false }
        ensures goes_on { IfOk result (λ n. 0 < n → has_ended self.new ≡ false) }
        ensures ends { IfOk result (λ n. n ≡ 0 → 0 < length buffer.new
            → has_ended self.new ≡ true) };

    /// Whether a call has failed. Once it has, it stays so.
    fn failed(&self) -> bool
        ensures { result ≡ has_failed self.now };

    /// Whether `read_in_line` gives many octets at once. It changes no line, but the time that one
    /// takes.
    fn gives_lines(&self) -> bool {
        false
    }

    /// Reads as `read` does, but no octet after a line feed: a source that has many octets at hand
    /// can give all of a line that the buffer has room for, as `copy_in_line` does.
    fn read_in_line(&mut self, buffer: &mut [u8]) -> Result<usize, DeviceFailed>
        requires works { has_failed self.old ≡ false }
        requires goes_on { has_ended self.old ≡ false }
        ensures bound { IfOk result (λ n. n ≤ length buffer.new) }
        ensures octets { ReadConsumes (remaining self.old) (remaining self.new) result buffer.new }
        ensures line { IfOk result (λ n. HasNoLineFeed (take (n - 1) buffer.new)) }
        ensures fails { IsErr result → has_failed self.new ≡ true }
        ensures works { IsOk result → has_failed self.new ≡ false }
        ensures goes_on { IfOk result (λ n. 0 < n → has_ended self.new ≡ false) }
        ensures ends { IfOk result (λ n. n ≡ 0 → 0 < length buffer.new
            → has_ended self.new ≡ true) }
    {
        let count = buffer.len().min(1);
        self.read(&mut buffer[..count])
    }
}

/// How many octets there are up to the first line feed, which is counted too.
fn count_in_line(octets: &[u8]) -> usize
    ensures bound { result ≤ length octets.now }
    ensures line { HasNoLineFeed (take (result - 1) octets.now) }
    ensures some { 0 < length octets.now → 0 < result }
{
    for place in 0..octets.len() {
        if octets[place] == b'\n' {
            return place + 1;
        }
    }
    octets.len()
}

/// How many of sixteen octets come before the first line feed: all of them, where none is one.
#[inline(always)]
fn before_line_feed(octets: &[u8]) -> usize
    requires { length octets.now ≡ 16 }
    ensures bound { result ≤ 16 }
    ensures line { HasNoLineFeed (take result octets.now) }
{
    let block = u8x16::from_slice(octets);
    let feeds = block.simd_eq(u8x16::splat(b'\n')).to_bitmask();
    if feeds == 0 {
        16
    } else {
        feeds.trailing_zeros() as usize
    }
}

/// Copies octets into the front of a buffer, as many as it has room for and up to the first line
/// feed, which is copied too, and says how many. Into a buffer of sixteen they are copied soonest.
pub fn copy_in_line(octets: &[u8], buffer: &mut [u8]) -> usize
    ensures bound { result ≤ length buffer.new }
    ensures there { result ≤ length octets.now }
    ensures octets { take result buffer.new ≡ take result octets.now }
    ensures line { HasNoLineFeed (take (result - 1) buffer.new) }
    ensures some { 0 < length octets.now → 0 < length buffer.new → 0 < result }
{
    if buffer.len() == 16 && octets.len() >= 16 {
        let block = &octets[..16];
        buffer.copy_from_slice(block);
        return (before_line_feed(block) + 1).min(16);
    }
    let room = octets.len().min(buffer.len());
    let count = count_in_line(&octets[..room]);
    buffer[..count].copy_from_slice(&octets[..count]);
    count
}

/// The next octet, and `None` at the end. The source must not have failed yet, nor told its end.
pub fn next_octet<S: Source>(source: &mut S) -> Result<Option<u8>, DeviceFailed>
    requires works { S.has_failed source.old ≡ false }
    requires goes_on { S.has_ended source.old ≡ false }
    ensures gives { GivesOctet (S.remaining source.old) (S.remaining source.new) result }
    ensures fails { IsErr result → S.has_failed source.new ≡ true }
    ensures works { IsOk result → S.has_failed source.new ≡ false }
    ensures ended { IfOk result (λ octet. S.has_ended source.new ≡ is_none octet) }
{
    let mut octet = [0u8];
    if source.read(&mut octet)? == 0 {
        return Ok(None);
    }
    Ok(Some(octet[0]))
}
