//! Fields of any kind.

ghost use Rattle.std.specs.Prelude.{◌≡◌, IfErr};
ghost use Rattle.std.specs.Int.{w16, w64};
ghost use Rattle.sms_saved.specs.Reading.Fields.{Gives, IsHalt, octet_at, number_at, octets_at, string_at, optional_at, flag_at};

use crate::fault::{StateFault, Stop, halted};

/// An octet.
pub(crate) fn octet_of(bytes: &[u8]) -> Result<(u8, &[u8]), Stop>
    ensures read { Gives (λ x. (x.0, x.1.now)) result (octet_at bytes.now) }
    ensures halts { IfErr result IsHalt }
{
    match bytes {
        [] => Err(halted(bytes, StateFault::Short)),
        [n, rest @ ..] => Ok((*n, rest)),
    }
}

/// A number in two octets.
pub(crate) fn u16_of(bytes: &[u8]) -> Result<(u16, &[u8]), Stop>
    ensures read { Gives (λ x. (x.0, x.1.now)) result (number_at w16 bytes.now) }
    ensures halts { IfErr result IsHalt }
{
    if bytes.len() < 2 {
        return Err(halted(bytes, StateFault::Short));
    }
    let (front, rest) = bytes.split_at(2);
    let number = u16::from_be_bytes([front[0], front[1]]);
    Ok((number, rest))
}

/// A number in eight octets.
pub(crate) fn u64_of(bytes: &[u8]) -> Result<(u64, &[u8]), Stop>
    ensures read { Gives (λ x. (x.0, x.1.now)) result (number_at w64 bytes.now) }
    ensures halts { IfErr result IsHalt }
{
    if bytes.len() < 8 {
        return Err(halted(bytes, StateFault::Short));
    }
    let (front, rest) = bytes.split_at(8);
    let number = u64::from_be_bytes([
        front[0], front[1], front[2], front[3], front[4], front[5], front[6], front[7],
    ]);
    Ok((number, rest))
}

/// Seven octets.
pub(crate) fn seven_of(bytes: &[u8]) -> Result<([u8; 7], &[u8]), Stop>
    ensures read { Gives (λ x. (x.0, x.1.now)) result (octets_at 7 bytes.now) }
    ensures halts { IfErr result IsHalt }
{
    if bytes.len() < 7 {
        return Err(halted(bytes, StateFault::Short));
    }
    let (front, rest) = bytes.split_at(7);
    let octets = [
        front[0], front[1], front[2], front[3], front[4], front[5], front[6],
    ];
    Ok((octets, rest))
}

/// Octets behind their number in eight octets.
#[tactic(auto, unfolding(crate::specs::Reading::Fields::string_at))]
pub(crate) fn long_string_of(bytes: &[u8]) -> Result<(&[u8], &[u8]), Stop>
    ensures { Gives (λ x. (x.0.now, x.1.now)) result (string_at (number_at w64) bytes.now) }
{
    let (count, rest) = u64_of(bytes)?;
    if (rest.len() as u64) < count {
        return Err(halted(bytes, StateFault::Short));
    }
    Ok(rest.split_at(count as usize))
}

/// An age, or none.
#[tactic(auto, unfolding(crate::specs::Reading::Fields::optional_at))]
pub(crate) fn age_of(bytes: &[u8]) -> Result<(Option<u64>, &[u8]), Stop>
    ensures { Gives (λ x. (x.0, x.1.now)) result (optional_at (number_at w64) bytes.now) }
{
    match bytes {
        [] => Err(halted(bytes, StateFault::Short)),
        [0, rest @ ..] => Ok((None, rest)),
        [1, rest @ ..] => {
            let (age, rest) = u64_of(rest)?;
            Ok((Some(age), rest))
        }
        [_, ..] => Err(halted(bytes, StateFault::Flag)),
    }
}

/// Yes or no.
#[tactic(auto, unfolding(crate::specs::Reading::Fields::flag_at))]
pub(crate) fn flag_of(bytes: &[u8]) -> Result<(bool, &[u8]), Stop>
    ensures { Gives (λ x. (x.0, x.1.now)) result (flag_at bytes.now) }
{
    match bytes {
        [] => Err(halted(bytes, StateFault::Short)),
        [0, rest @ ..] => Ok((false, rest)),
        [1, rest @ ..] => Ok((true, rest)),
        [_, ..] => Err(halted(bytes, StateFault::Flag)),
    }
}
