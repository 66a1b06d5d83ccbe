//! The tags of keys: numbers that keys of one message share, and that other keys seldom have.

ghost use Rattle.std.specs.Prelude.{◌≡◌, None, option_copied};
ghost use Rattle.sms_join.specs.Piece.{key_to};
ghost use Rattle.sms_join.specs.Inside.KeyTags.{symbols_of, mark_of, mark_to, mixed, tag_of};

use crate::key::Key;
use sms_field::{Address, Stamp, Symbols};
use sms_tpdu::Concat;

/// The digits of an address, or the septets of its name.
#[inline(always)]
pub(crate) fn symbols_of(origin: &Address) -> &[u8]
    ensures { result.now ≡ symbols_of origin.now }
{
    match &origin.symbols {
        Symbols::Digits(digits) => digits.as_slice(),
        Symbols::Name(name) => name.as_slice(),
    }
}

/// A number of the last two symbols of an address, which differ most from one origin to another.
#[inline(always)]
fn mark_of(symbols: &[u8]) -> u16
    ensures { result ≡ mark_of symbols.now }
{
    match symbols {
        [.., next, last] => 16 * u16::from(*next) + u16::from(*last),
        _ => 0,
    }
}

/// The same of a recipient, 0 where there is none.
#[inline(always)]
fn mark_to(to: Option<&Address>) -> u16
    ensures { result ≡ mark_to (option_copied to.entry) }
{
    match to {
        None => 0,
        Some(recipient) => mark_of(symbols_of(recipient)),
    }
}

/// A tag of two numbers, the recipient and the origin.
#[inline(always)]
fn mixed(high: u16, low: u16, to: Option<&Address>, origin: &Address) -> u16
    ensures { result ≡ mixed high low (option_copied to.entry) origin.now }
{
    let mark = u32::from(mark_of(symbols_of(origin))) + u32::from(mark_to(to));
    let wide = 256 * (u32::from(high) + mark) + u32::from(low);
    (wide % 65_536) as u16
}

/// The tag of a message in one piece.
#[inline(always)]
fn tag_of_single(to: Option<&Address>, origin: &Address, stamp: Stamp) -> u16
    ensures { result ≡ tag_of (key_to (option_copied to.entry) origin.now stamp None) }
{
    let [_, _, day, hour, minute, second, _] = stamp.octets();
    let high = u16::from(day) + u16::from(hour) + u16::from(minute);
    mixed(high, u16::from(second), to, origin)
}

/// The tag of the key of a message, or of the message that a segment is of.
#[inline(always)]
pub(crate) fn tag_of(
    to: Option<&Address>,
    origin: &Address,
    stamp: Stamp,
    concat: Option<Concat>,
) -> u16
    ensures { result ≡ tag_of (key_to (option_copied to.entry) origin.now stamp concat) }
{
    match concat {
        None => tag_of_single(to, origin, stamp),
        Some(concat) => mixed(u16::from(concat.maximum), concat.reference, to, origin),
    }
}

/// The tag of a key.
pub(crate) fn key_tag(key: &Key) -> u16
    ensures { result ≡ tag_of key.now }
{
    match key {
        Key::Single { origin, stamp } => tag_of_single(None, origin, *stamp),
        Key::SingleTo {
            recipient,
            origin,
            stamp,
        } => tag_of_single(Some(recipient), origin, *stamp),
        Key::Segmented {
            origin,
            reference,
            maximum,
            ..
        } => mixed(u16::from(*maximum), *reference, None, origin),
        Key::SegmentedTo {
            recipient,
            origin,
            reference,
            maximum,
            ..
        } => mixed(u16::from(*maximum), *reference, Some(recipient), origin),
    }
}
