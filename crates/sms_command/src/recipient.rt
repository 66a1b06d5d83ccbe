//! Lines that begin with their recipient, as gateways have it beside what the network hands over.

ghost use Rattle.std.specs.Prelude.{◌≡◌, ◌++◌, ◌∷◌, length, option_map, IfSome};
ghost use Rattle.memchr.specs.Find.{IsFirstByte, is_byte};

use crate::fault::Fault;
use memchr::memchr;
use sms_encode::address_of;
use sms_field::Address;
use std::alloc::Global;

/// A line in two parts.
#[derive(Clone, Copy)]
struct Parts<'a> {
    /// What stands before the first blank.
    front: &'a [u8],
    /// What stands after it.
    rest: &'a [u8],
}

/// The parts of a line, where it has a blank.
fn parts_of<'a>(line: &'a [u8]) -> Option<Parts<'a>>
    ensures first { IsFirstByte (is_byte 32) line.now
        (option_map (λ p. length p.front.now) result) }
    ensures parts { IfSome result (λ p. line.now ≡ p.front.now ++ 32 ∷ p.rest.now) }
{
    let end = memchr(b' ', line)?;
    Some(Parts {
        front: &line[..end],
        rest: &line[end + 1..],
    })
}

/// A line with its recipient.
#[derive(Drop)]
pub struct Addressed<'a> {
    /// For whom it is, as the gateway says, where it says so.
    pub recipient: Option<Address>,
    /// The line without it.
    pub line: &'a [u8],
}

/// The recipient in front of a line, and the line.
pub fn addressed_in<'a>(alloc: Global, line: &'a [u8]) -> Result<Addressed<'a>, Fault> {
    let Some(parts) = parts_of(line) else {
        return Err(Fault::BadLine);
    };
    let Ok(word) = str::from_utf8(parts.front) else {
        return Err(Fault::BadLine);
    };
    Ok(Addressed {
        recipient: Some(address_of(alloc, word)?),
        line: parts.rest.trim_ascii_start(),
    })
}
