//! Open sets and remembered keys.

ghost use Rattle.std.specs.Prelude.{◌≡◌, IfErr, IfOk};
ghost use Rattle.std.specs.Int.{w16};
ghost use Rattle.std.specs.List.{list_any};
ghost use Rattle.sms_saved.specs.Value.{maximum_of, view_place, view_places, view_set};
ghost use Rattle.sms_saved.specs.Fits.{is_open};
ghost use Rattle.sms_saved.specs.Spelling.{key};
ghost use Rattle.sms_saved.specs.Views.{seen_remembered};
ghost use Rattle.sms_saved.specs.Inside.Places.{lies_there, lies_not_there};
ghost use Rattle.sms_saved.specs.Reading.Fields.{Gives, IsHalt, number_at, items_at};
ghost use Rattle.sms_saved.specs.Reading.Sets.{are_septets, septets_at, wide_at, place_at, any_set_at, set_at, remembered_at};

use crate::fault::{StateFault, Stop, halted};
use crate::key_view::RememberedView;
use crate::reading::fields::{long_string_of, u16_of, u64_of};
use crate::reading::keys::{key_of, key_view_of};
use crate::state::{Message, OpenSet, Remembered, Units};
use std::alloc::Global;

/// Whether all are septets. None is left out, so that many are looked at together.
fn are_septets(octets: &[u8]) -> bool
    ensures { result ≡ are_septets octets.now }
{
    let mut are = true;
    for octet in octets {
        are &= *octet < 128;
    }
    are
}

/// Septets, one an octet.
#[tactic(auto, unfolding(crate::specs::Reading::Fields::tested_at))]
fn septets_of(alloc: Global, bytes: &[u8]) -> Result<(Vec<u8>, &[u8]), Stop>
    ensures { Gives (λ x. (x.0.items, x.1.now)) result (septets_at bytes.now) }
{
    let (octets, rest) = long_string_of(bytes)?;
    if !are_septets(octets) {
        return Err(halted(bytes, StateFault::NotSeptet));
    }
    Ok((Vec::from_slice(alloc, octets)?, rest))
}

/// So many 16-bit units. Room is made once, for no more than these octets can be.
fn units_of(alloc: Global, count: u64, bytes: &[u8]) -> Result<(Vec<u16>, &[u8]), Stop>
    ensures { Gives (λ x. (x.0.items, x.1.now)) result
        (items_at (number_at w16) count bytes.now) }
{
    let mut units = Vec::with_capacity(alloc, (count as usize).min(bytes.len() / 2))?;
    let mut rest = bytes;
    for _ in 0..count {
        let (unit, after) = u16_of(rest)?;
        units.push(unit)?;
        rest = after;
    }
    Ok((units, rest))
}

/// 16-bit units behind their number.
#[tactic(auto, unfolding(crate::specs::Reading::Fields::counted_at))]
fn wide_of(alloc: Global, bytes: &[u8]) -> Result<(Vec<u16>, &[u8]), Stop>
    ensures { Gives (λ x. (x.0.items, x.1.now)) result (wide_at bytes.now) }
{
    let (count, rest) = u64_of(bytes)?;
    units_of(alloc, count, rest)
}

/// The units of a piece, or none.
#[tactic(auto, unfolding(crate::specs::Reading::Sets::place_at))]
fn place_of(alloc: Global, bytes: &[u8]) -> Result<(Option<Units>, &[u8]), Stop>
    ensures { Gives (λ x. (view_place x.0, x.1.now)) result (place_at bytes.now) }
{
    match bytes {
        [] => Err(halted(bytes, StateFault::Short)),
        [0, rest @ ..] => Ok((None, rest)),
        [1, rest @ ..] => {
            let (septets, rest) = septets_of(alloc, rest)?;
            Ok((Some(Units::Gsm(septets)), rest))
        }
        [2, rest @ ..] => {
            let (units, rest) = wide_of(alloc, rest)?;
            Ok((Some(Units::Ucs2(units)), rest))
        }
        [_, ..] => Err(halted(bytes, StateFault::Flag)),
    }
}

/// So many places. Room is made once, for no more than these octets can be.
fn places_of(alloc: Global, count: u8, bytes: &[u8]) -> Result<(Vec<Option<Units>>, &[u8]), Stop>
    ensures { Gives (λ x. (view_places x.0.items, x.1.now)) result
        (items_at place_at count bytes.now) }
{
    let mut places = Vec::with_capacity(alloc, usize::from(count).min(bytes.len()))?;
    let mut rest = bytes;
    for _ in 0..count {
        let (place, after) = place_of(alloc, rest)?;
        places.push(place)?;
        rest = after;
    }
    Ok((places, rest))
}

/// Whether a piece has come.
fn has_units(places: &[Option<Units>]) -> bool
    ensures { result ≡ list_any lies_there places.now }
{
    places.iter().any(|units| units.is_some())
}

/// Whether a piece has not come.
fn has_gap(places: &[Option<Units>]) -> bool
    ensures { result ≡ list_any lies_not_there places.now }
{
    places.iter().any(|units| units.is_none())
}

/// Whether some of the pieces have come, and some have not.
#[tactic(auto, using(crate::proofs::Places::units_seen, crate::proofs::Places::gap_seen))]
fn is_open(places: &[Option<Units>]) -> bool
    ensures { result ≡ is_open (view_places places.now) }
{
    has_units(places) && has_gap(places)
}

/// How many pieces a message has.
fn maximum_of(message: Message) -> u8
    ensures { result ≡ maximum_of message }
{
    match message {
        Message::Single { .. } => 1,
        Message::Segmented { maximum, .. } => maximum,
    }
}

/// A set, be it open or not, and the octets of its key.
#[tactic(auto, unfolding(crate::specs::Reading::Sets::any_set_at))]
#[inline(always)]
fn any_set_of(alloc: Global, bytes: &[u8]) -> Result<(OpenSet, &[u8], &[u8]), Stop>
    ensures read { Gives (λ x. (view_set x.0, x.2.now)) result (any_set_at bytes.now) }
    ensures octets { IfOk result (λ x. x.1.now ≡ key x.0.key) }
{
    let (key, octets, rest) = key_of(bytes)?;
    let (moment, rest) = u64_of(rest)?;
    let (opening, rest) = u64_of(rest)?;
    let (places, rest) = places_of(alloc, maximum_of(key.message), rest)?;
    let set = OpenSet {
        key,
        moment,
        opening,
        places,
    };
    Ok((set, octets, rest))
}

/// An open set, and the octets of its key.
#[tactic(auto, unfolding(crate::specs::Reading::Fields::tested_at))]
pub(crate) fn set_of(alloc: Global, bytes: &[u8]) -> Result<(OpenSet, &[u8], &[u8]), Stop>
    ensures read { Gives (λ x. (view_set x.0, x.2.now)) result (set_at bytes.now) }
    ensures octets { IfOk result (λ x. x.1.now ≡ key x.0.key) }
{
    let (set, octets, rest) = any_set_of(alloc, bytes)?;
    if !is_open(&set.places) {
        return Err(halted(bytes, StateFault::NotOpen));
    }
    Ok((set, octets, rest))
}

/// A remembered key, and the octets of the key.
#[tactic(auto, unfolding(crate::specs::Reading::Sets::remembered_at))]
pub(crate) fn remembered_of(bytes: &[u8]) -> Result<(Remembered, &[u8], &[u8]), Stop>
    ensures read { Gives (λ x. (x.0, x.2.now)) result (remembered_at bytes.now) }
    ensures octets { IfOk result (λ x. x.1.now ≡ key x.0.key) }
{
    let (key, octets, rest) = key_of(bytes)?;
    let (moment, rest) = u64_of(rest)?;
    Ok((Remembered { key, moment }, octets, rest))
}

/// A remembered key, whose addresses are lent.
#[tactic(auto, unfolding(crate::specs::Reading::Sets::remembered_at))]
#[inline(always)]
pub(crate) fn remembered_view_of(bytes: &[u8]) -> Result<(RememberedView<'_>, &[u8]), Stop>
    ensures read { Gives (λ x. (seen_remembered x.0, x.1.now)) result (remembered_at bytes.now) }
    ensures halts { IfErr result IsHalt }
{
    let (key, rest) = key_view_of(bytes)?;
    let (moment, rest) = u64_of(rest)?;
    Ok((RememberedView { key, moment }, rest))
}
