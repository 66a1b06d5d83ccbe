//! What a gateway's joiner held before, put back.

ghost use Rattle.std.specs.Prelude.{◌≡◌, [], length, IfOk};
ghost use Rattle.sms_join.specs.OpenSets.Places.{filled};

use crate::found::same;
use crate::joiner::checked;
use sms_field::{Address, Stamp};
use sms_join::{Gateway, GatewayLimits, Key, Offer, OfferFault, Ucs2Units, Units};
use sms_tpdu::{Concat, Width};
use std::alloc::{AllocError, Global};
use std::process::Abort;
use std::test::Fail;

/// Whom all is from.
fn origin_of(alloc: Global) -> Result<Address, AllocError> {
    match Address::from_text(alloc, "+1001") {
        Ok(address) => Ok(address),
        Err(_) => Err(AllocError),
    }
}

/// The units of one letter.
fn letter(alloc: Global, unit: u16) -> Result<Units, AllocError> {
    let units = vec![in alloc; unit]?;
    Ok(Units::Ucs2(Ucs2Units::new(units)))
}

/// The places of two segments, of which the second has come.
fn places_of(alloc: Global) -> Result<Vec<Option<Units>>, AllocError>
    ensures { IfOk result (λ places.
        (length places.items ≡ 2) × (length (filled places.items) ≡ 1)) }
{
    let mut places = Vec::with_capacity(alloc, 2)?;
    places.push(None)?;
    let second = letter(alloc, 0x62)?;
    places.push(Some(second))?;
    Ok(places)
}

/// A joiner that remembers a message in one piece, and holds the second of two segments.
#[tactic(auto, unfolding(sms_join::specs::Joiner::new_joiner, sms_join::specs::Key::same_key))]
fn put_back(alloc: Global) -> Result<Gateway, AllocError> {
    let mut gateway = Gateway::new(alloc, GatewayLimits::new(4, 8))?;
    let single = Key::Single {
        origin: origin_of(alloc)?,
        stamp: Stamp::new([1; 7]),
    };
    gateway.remember(single, 50);
    let segmented = Key::Segmented {
        origin: origin_of(alloc)?,
        width: Width::Sixteen,
        reference: 7,
        maximum: 2,
    };
    gateway.put_back(segmented, 100, places_of(alloc)?)?;
    Ok(gateway)
}

/// The place of a segment of it.
fn place_of(sequence: u8) -> Option<Concat> {
    Some(Concat {
        width: Width::Sixteen,
        reference: 7,
        maximum: 2,
        sequence,
    })
}

/// What is answered to a message, or to a segment.
#[derive(Clone, Copy, Debug, PartialEq, Eq)]
enum Told {
    Repeat,
    Finished,
    Other,
}

/// What an answer tells; none where memory ran out.
fn told_of(answer: &Result<Offer, OfferFault>) -> Option<Told> {
    match answer {
        Ok(Offer::Repeat) => Some(Told::Repeat),
        Ok(Offer::Finished(text)) if text.as_str() == "ab" => Some(Told::Finished),
        Err(OfferFault::Memory) => None,
        _ => Some(Told::Other),
    }
}

/// What is answered to a piece.
fn answer_to(
    alloc: Global,
    gateway: &mut Gateway,
    place: Option<Concat>,
    unit: u16,
) -> Result<Told, AllocError> {
    let origin = origin_of(alloc)?;
    let units = letter(alloc, unit)?;
    let answer = gateway.offer(
        200,
        None,
        &origin,
        Stamp::new([1; 7]),
        checked(place),
        units,
    );
    told_of(&answer).ok_or(AllocError)
}

/// The same, and once more where memory ran out.
fn answer_again(
    alloc: Global,
    gateway: &mut Gateway,
    place: Option<Concat>,
    unit: u16,
) -> Result<Told, AllocError> {
    match answer_to(alloc, gateway, place, unit) {
        Ok(told) => Ok(told),
        Err(_) => answer_to(alloc, gateway, place, unit),
    }
}

/// A joiner goes on with what was put back: a segment that had come is a repeat, the one that its
/// set lacks finishes it, and a message that had finished is a repeat.
#[test]
fn goes_on_after_a_refused_growth(rt: HostRuntime) -> Result<(), Fail> {
    let mut gateway = match put_back(rt.alloc()) {
        Ok(gateway) => gateway,
        Err(_) => put_back(rt.alloc())?,
    };
    same(&rt, &"open", &gateway.open_count(), &1);
    let second = answer_again(rt.alloc(), &mut gateway, place_of(2), 0x62)?;
    same(&rt, &"second", &second, &Told::Repeat);
    let first = answer_again(rt.alloc(), &mut gateway, place_of(1), 0x61)?;
    same(&rt, &"first", &first, &Told::Finished);
    let single = answer_again(rt.alloc(), &mut gateway, None, 0x63)?;
    same(&rt, &"message in one piece", &single, &Told::Repeat);
    Ok(())
}

/// The key of a message in one piece, by a number.
fn single_of(alloc: Global, number: u8) -> Result<Key, AllocError> {
    let origin = origin_of(alloc)?;
    let stamp = Stamp::new([number; 7]);
    Ok(Key::Single { origin, stamp })
}

/// Whether a key was remembered, and whether it was new then; how many are remembered, and the
/// moment of the last one.
type Remembered = (bool, bool, usize, Option<u64>);

/// Remembers the key of a number, where no set is open.
fn remember(gateway: &mut Gateway, key: Key, moment: u64) -> Remembered
    requires { gateway.old.told ≡ [] }
    ensures { gateway.new.told ≡ [] }
{
    let known = gateway.remembers(&key);
    let new = gateway.remember_new(key, moment);
    let last = gateway.remembered_at(0).map(|last| last.moment);
    (known, new, gateway.remembered_count(), last)
}

/// A key is new once, as long as it is not forgotten: where it comes again, nothing changes.
fn is_new_once(rt: &impl Abort, alloc: Global, gateway: &mut Gateway) -> Result<(), Fail>
    requires { gateway.old.told ≡ [] }
{
    let first = remember(gateway, single_of(alloc, 1)?, 50);
    same(rt, &"first", &first, &(false, true, 1, Some(50)));
    let again = remember(gateway, single_of(alloc, 1)?, 90);
    same(rt, &"again", &again, &(true, false, 1, Some(50)));
    let other = remember(gateway, single_of(alloc, 2)?, 90);
    same(rt, &"other", &other, &(false, true, 2, Some(90)));
    gateway.age(100);
    let forgotten = remember(gateway, single_of(alloc, 1)?, 120);
    same(rt, &"forgotten", &forgotten, &(false, true, 2, Some(120)));
    let known = remember(gateway, single_of(alloc, 2)?, 130);
    same(rt, &"known", &known, &(true, false, 2, Some(120)));
    Ok(())
}

/// With a few keys that are remembered, and with many.
#[test]
fn remembers_a_key_once(rt: HostRuntime) -> Result<(), Fail> {
    let limits = GatewayLimits::new(4, 8).remember_for(50);
    let mut few = Gateway::new(rt.alloc(), limits)?;
    is_new_once(&rt, rt.alloc(), &mut few)?;
    let limits = GatewayLimits::new(4, 100).remember_for(50);
    let mut many = Gateway::with_seed(rt.alloc(), limits, 9)?;
    is_new_once(&rt, rt.alloc(), &mut many)
}
