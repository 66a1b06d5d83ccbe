//! A state as it was made, and what is told of octets.

use crate::found::{holds, is};
use crate::rows::{EMPTY, SAMPLE};
use sms_saved::{Fault, Key, Limits, Message, OpenSet, ReadFault, State, Units, Width, read};
use std::alloc::Global;
use std::process::Abort;
use std::test::Fail;

/// The limits of the states that were made.
pub const LIMITS: Limits = Limits {
    sets: 10,
    keys: u64::MAX,
    age_of_sets: 604_800,
    age_of_keys: Some(86_400),
    passes_singles: true,
};

/// The seed of the tests.
pub const SEED: u128 = 7;

/// The fault of octets, as of a joiner with these limits.
pub fn fault_of(alloc: Global, limits: Limits, octets: &[u8]) -> Option<Fault> {
    match read(alloc, SEED, limits, octets) {
        Err(ReadFault::At(fault)) => Some(fault),
        _ => None,
    }
}

/// Whether a key is from whom and for whom.
fn is_between(key: &Key, origin: &[u8], recipient: Option<&[u8]>) -> bool {
    let told = match (&key.recipient, recipient) {
        (None, None) => true,
        (Some(own), Some(recipient)) => own.as_slice() == recipient,
        _ => false,
    };
    told && key.origin.as_slice() == origin
}

/// Whether a place has these septets.
fn has_septets(place: &Option<Units>, wanted: &[u8]) -> bool {
    match place {
        Some(Units::Gsm(septets)) => septets.as_slice() == wanted,
        _ => false,
    }
}

/// Whether a place has these units.
fn has_wide(place: &Option<Units>, wanted: &[u16]) -> bool {
    match place {
        Some(Units::Ucs2(units)) => units.as_slice() == wanted,
        _ => false,
    }
}

/// The first set: the second of three pieces.
pub fn first_is_so(rt: &impl Abort, set: &OpenSet) {
    let message = Message::Segmented {
        width: Width::Sixteen,
        reference: 515,
        maximum: 3,
    };
    is(rt, "first message", set.key.message, message);
    let between = is_between(
        &set.key,
        b"\x0B\x91\x72\x38\x88\x09\x00\xF1",
        Some(b"\x04\x91\x01\x10"),
    );
    holds(rt, "first key", between);
    is(
        rt,
        "first times",
        (set.moment, set.opening),
        (800_000_000, 4),
    );
    if let [before, own, after] = set.places.as_slice() {
        let so = before.is_none() && has_septets(own, &[104, 105, 27, 101]) && after.is_none();
        holds(rt, "first places", so);
    } else {
        holds(rt, "first count", false);
    }
}

/// The second set: the first of two pieces.
pub fn second_is_so(rt: &impl Abort, set: &OpenSet) {
    let message = Message::Segmented {
        width: Width::Eight,
        reference: 7,
        maximum: 2,
    };
    is(rt, "second message", set.key.message, message);
    let between = is_between(&set.key, b"\x0A\xD0\xE8\x32\x9B\xFD\x06", None);
    holds(rt, "second key", between);
    is(
        rt,
        "second times",
        (set.moment, set.opening),
        (800_000_001, 9),
    );
    if let [own, after] = set.places.as_slice() {
        let so = has_wide(own, &[0x4F60, 0xD83D]) && after.is_none();
        holds(rt, "second places", so);
    } else {
        holds(rt, "second count", false);
    }
}

/// The keys, the oldest first.
fn keys_are_so(rt: &impl Abort, state: &State) {
    if let [one, other] = state.keys.as_slice() {
        let stamp = [0x99, 0x30, 0x92, 0x51, 0x61, 0x95, 0x80];
        is(rt, "single", other.key.message, Message::Single { stamp });
        is(
            rt,
            "moments",
            (one.moment, other.moment),
            (799_999_999, 800_000_001),
        );
        let origin = b"\x04\x91\x01\x10";
        let recipient = b"\x0B\x91\x72\x38\x88\x09\x00\xF1";
        holds(
            rt,
            "single key",
            is_between(&other.key, origin, Some(recipient)),
        );
    } else {
        holds(rt, "keys", false);
    }
}

#[test]
fn a_state_is_read_as_it_was_made(rt: HostRuntime) -> Result<(), Fail> {
    let state = read(rt.alloc(), SEED, LIMITS, SAMPLE).map_err(|_| "not read")?;
    is(&rt, "limits", state.limits, LIMITS);
    is(&rt, "taken and next", (state.taken, state.next), (12, 10));
    if let [first, second] = state.sets.as_slice() {
        first_is_so(&rt, first);
        second_is_so(&rt, second);
    } else {
        holds(&rt, "sets", false);
    }
    keys_are_so(&rt, &state);
    Ok(())
}

#[test]
fn a_state_may_hold_nothing(rt: HostRuntime) -> Result<(), Fail> {
    let limits = Limits {
        sets: 2,
        keys: 2,
        age_of_sets: 0,
        age_of_keys: None,
        passes_singles: false,
    };
    let state = read(rt.alloc(), SEED, limits, EMPTY).map_err(|_| "not read")?;
    is(&rt, "empty", (state.sets.len(), state.keys.len()), (0, 0));
    is(&rt, "numbers", (state.taken, state.next), (0, 0));
    Ok(())
}
