//! Keys.

ghost use Rattle.std.specs.Prelude.{◌≡◌, IfErr, IfOk, option_map};
ghost use Rattle.sms_saved.specs.declared.state.Width.TheVariants as widths;
ghost use Rattle.sms_saved.specs.Fits.{KeyFits};
ghost use Rattle.sms_saved.specs.Spelling.{key};
ghost use Rattle.sms_saved.specs.Views.{seen_key};
ghost use Rattle.sms_saved.specs.Reading.Fields.{Gives, IsHalt, optional_at};
ghost use Rattle.sms_saved.specs.Reading.Keys.{address_at, segmented_at, message_at, key_at};

use crate::address::ADDRESS_MAX;
use crate::fault::{StateFault, Stop, halted};
use crate::key_view::KeyView;
use crate::reading::fields::{octet_of, seven_of, u16_of};
use crate::state::{Key, Message, Width};

/// The octets of an address.
#[tactic(auto, unfolding(crate::specs::Reading::Fields::tested_at, crate::specs::Reading::Fields::string_at))]
#[inline(always)]
fn address_of(bytes: &[u8]) -> Result<(&[u8], &[u8]), Stop>
    ensures read { Gives (λ x. (x.0.now, x.1.now)) result (address_at bytes.now) }
    ensures halts { IfErr result IsHalt }
{
    let (count, behind) = octet_of(bytes)?;
    if behind.len() < usize::from(count) {
        return Err(halted(bytes, StateFault::Short));
    }
    if usize::from(count) > ADDRESS_MAX {
        return Err(halted(bytes, StateFault::LongAddress));
    }
    Ok(behind.split_at(usize::from(count)))
}

/// The octets of a recipient, or none.
#[tactic(auto, unfolding(crate::specs::Reading::Fields::optional_at))]
#[inline(always)]
fn recipient_of(bytes: &[u8]) -> Result<(Option<&[u8]>, &[u8]), Stop>
    ensures read { Gives (λ x. (option_map (λ octets. octets.now) x.0, x.1.now)) result
        (optional_at address_at bytes.now) }
    ensures halts { IfErr result IsHalt }
{
    match bytes {
        [] => Err(halted(bytes, StateFault::Short)),
        [0, rest @ ..] => Ok((None, rest)),
        [1, rest @ ..] => {
            let (octets, rest) = address_of(rest)?;
            Ok((Some(octets), rest))
        }
        [_, ..] => Err(halted(bytes, StateFault::Flag)),
    }
}

/// Reference and maximum.
#[tactic(auto, unfolding(crate::specs::Reading::Keys::segmented_at))]
fn segmented_of(width: Width, bytes: &[u8]) -> Result<(Message, &[u8]), Stop>
    ensures read { Gives (λ x. (x.0, x.1.now)) result (segmented_at width bytes.now) }
    ensures halts { IfErr result IsHalt }
{
    let (reference, rest) = u16_of(bytes)?;
    let (maximum, rest) = octet_of(rest)?;
    let message = Message::Segmented {
        width,
        reference,
        maximum,
    };
    Ok((message, rest))
}

/// Which message it is.
#[tactic(auto, unfolding(crate::specs::Reading::Keys::message_at))]
fn message_of(bytes: &[u8]) -> Result<(Message, &[u8]), Stop>
    ensures read { Gives (λ x. (x.0, x.1.now)) result (message_at bytes.now) }
    ensures halts { IfErr result IsHalt }
{
    match bytes {
        [] => Err(halted(bytes, StateFault::Short)),
        [0, rest @ ..] => {
            let (stamp, rest) = seven_of(rest)?;
            Ok((Message::Single { stamp }, rest))
        }
        [1, rest @ ..] => segmented_of(Width::Eight, rest),
        [2, rest @ ..] => segmented_of(Width::Sixteen, rest),
        [_, ..] => Err(halted(bytes, StateFault::Flag)),
    }
}

/// A key, whose addresses are lent.
#[tactic(auto, unfolding(crate::specs::Reading::Keys::key_at))]
#[inline(always)]
pub(crate) fn key_view_of(bytes: &[u8]) -> Result<(KeyView<'_>, &[u8]), Stop>
    ensures read { Gives (λ x. (seen_key x.0, x.1.now)) result (key_at bytes.now) }
    ensures fits { IfOk result (λ x. KeyFits (seen_key x.0)) }
    ensures halts { IfErr result IsHalt }
{
    let (origin, rest) = address_of(bytes)?;
    let (recipient, rest) = recipient_of(rest)?;
    let (message, rest) = message_of(rest)?;
    let key = KeyView {
        origin,
        recipient,
        message,
    };
    Ok((key, rest))
}

/// A key, its octets, and those after it.
pub(crate) fn key_of(bytes: &[u8]) -> Result<(Key, &[u8], &[u8]), Stop>
    ensures read { Gives (λ x. (x.0, x.2.now)) result (key_at bytes.now) }
    ensures octets { IfOk result (λ x. x.1.now ≡ key x.0) }
{
    let (view, rest) = key_view_of(bytes)?;
    let count = bytes.len().saturating_sub(rest.len());
    Ok((view.to_key(), &bytes[..count], rest))
}
