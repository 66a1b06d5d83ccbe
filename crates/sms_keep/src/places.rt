//! Where the entries of a state stand among its octets.

ghost use Rattle.std.specs.Prelude.{◌≡◌, ℕ, ◌+◌, ◌<◌, ◌≤◌, ◌^◌, Some, length, take};
ghost use Rattle.std.specs.List.{flat_map};
ghost use Rattle.sms_saved.specs.Value.{view, view_place, view_places, view_set, view_sets, view_units};
ghost use Rattle.sms_saved.specs.Spelling.{address, front, key, message, optional, place, remembered, set, spelling};
ghost use Rattle.sms_keep.specs.Restored.{place_of_key, place_of_set};

use sms_saved::{AddressOctets, Key, Limits, Message, OpenSet, Remembered, State, Units};

/// How many octets an address takes.
fn address_len(octets: &AddressOctets) -> usize
    ensures value { result ≡ length (address octets.now) }
    ensures few { result ≤ 13 }
{
    1 + octets.as_slice().len()
}

/// How many a recipient takes, or that there is none.
fn recipient_len(recipient: &Option<AddressOctets>) -> usize
    ensures value { result ≡ length (optional address recipient.now) }
    ensures few { result ≤ 14 }
{
    match recipient {
        None => 1,
        Some(octets) => 1 + address_len(octets),
    }
}

/// How many the place of a message takes.
#[tactic(auto, unfolding(sms_saved::specs::Spelling::two))]
fn message_len(own: Message) -> usize
    ensures value { result ≡ length (message own) }
    ensures few { result ≤ 8 }
{
    match own {
        Message::Single { .. } => 8,
        Message::Segmented { .. } => 4,
    }
}

/// How many a key takes.
#[tactic(auto, unfolding(sms_saved::specs::Spelling::key))]
fn key_len(own: &Key) -> usize
    ensures value { result ≡ length (key own.now) }
    ensures few { result ≤ 35 }
{
    address_len(&own.origin) + recipient_len(&own.recipient) + message_len(own.message)
}

/// How many the units of a piece that has come take.
fn units_len(own: &Units) -> usize
    requires { length (place (Some (view_units own.now))) < 2 ^ 64 }
    ensures { result ≡ length (place (Some (view_units own.now))) }
{
    match own {
        Units::Gsm(septets) => 9 + septets.len(),
        Units::Ucs2(units) => 9 + 2 * units.len(),
    }
}

/// How many the units of a place take.
fn place_len(own: &Option<Units>) -> usize
    requires { length (place (view_place own.now)) < 2 ^ 64 }
    ensures { result ≡ length (place (view_place own.now)) }
{
    match own {
        None => 1,
        Some(units) => units_len(units),
    }
}

/// How many those of these places take, and so many more.
fn places_len(places: &[Option<Units>], more: usize) -> usize
    requires { more + length (flat_map place (view_places places.now)) < 2 ^ 64 }
    ensures { result ≡ more + length (flat_map place (view_places places.now)) }
{
    let mut total = more;
    for own in places {
        total += place_len(own);
    }
    total
}

/// How many a set takes.
fn set_len(own: &OpenSet) -> usize
    requires { length (set (view_set own.now)) < 2 ^ 64 }
    ensures { result ≡ length (set (view_set own.now)) }
{
    places_len(&own.places, key_len(&own.key) + 16)
}

/// How many these sets take, and so many more.
fn sets_len(sets: &[OpenSet], more: usize) -> usize
    requires { more + length (flat_map set (view_sets sets.now)) < 2 ^ 64 }
    ensures { result ≡ more + length (flat_map set (view_sets sets.now)) }
{
    let mut total = more;
    for own in sets {
        total += set_len(own);
    }
    total
}

/// How many these remembered keys take, and so many more.
fn keys_len(keys: &[Remembered], more: usize) -> usize
    requires { more + length (flat_map remembered keys.now) < 2 ^ 64 }
    ensures { result ≡ more + length (flat_map remembered keys.now) }
{
    let mut total = more;
    for own in keys {
        total += key_len(&own.key) + 8;
    }
    total
}

/// How many stand before the number of sets.
fn front_len(limits: Limits) -> usize
    ensures few { result ≤ 59 }
    ensures value { (taken next : ℕ) → result ≡ length (front limits taken next) }
{
    match limits.age_of_keys {
        None => 51,
        Some(_) => 59,
    }
}

/// The first octet of the set before which so many stand.
pub(crate) fn place_of_set(state: &State, before: usize) -> usize
    requires inside { before ≤ length (view state.now).sets }
    requires few { length (spelling (view state.now)) < 2 ^ 64 }
    ensures { result ≡ place_of_set (view state.now) (take before (view state.now).sets) }
{
    let sets = state.sets.as_slice();
    sets_len(&sets[..before], front_len(state.limits) + 8)
}

/// The first octet of the remembered key before which so many stand.
pub(crate) fn place_of_key(state: &State, before: usize) -> usize
    requires inside { before ≤ length (view state.now).keys }
    requires few { length (spelling (view state.now)) < 2 ^ 64 }
    ensures { result ≡ place_of_key (view state.now) (take before (view state.now).keys) }
{
    let keys = state.keys.as_slice();
    let start = sets_len(&state.sets, front_len(state.limits) + 8) + 8;
    keys_len(&keys[..before], start)
}
