//! Open sets, put back as they were saved.

ghost use Rattle.std.specs.Prelude.{◌≡◌, ◌<◌, ◌≤◌, [], false, length, map, option_map, IfOk, IfSome, MatchBool};
ghost use Rattle.std.specs.List.{AllByRecursion};
ghost use Rattle.sms_join.specs.declared.key.Key.{Key as TheKey};
ghost use Rattle.sms_join.specs.OpenSets.{has_set};
ghost use Rattle.sms_saved.specs.Fits.{AreApart, SetFits, UnitsFit, set_keys};
ghost use Rattle.sms_saved.specs.Value.{view_place, view_places, view_set, view_sets, view_units};
ghost use Rattle.sms_keep.specs.Saved.{saved_key, saved_units};
ghost use Rattle.sms_keep.specs.Inside.SetsBack.{ArePut, IsHindered, IsPut, OneIsHindered};

use crate::keys::key_from;
use sms_join::{Gateway, Ucs2Units, Units};
use sms_saved::{OpenSet, Units as SavedUnits};
use sms_tpdu::Septets;
use std::alloc::{AllocError, Global};

/// The units of a piece. They are moved, not copied.
fn units_from(units: SavedUnits) -> Units
    requires { UnitsFit (view_units units) }
    ensures { saved_units result ≡ view_units units }
{
    match units {
        SavedUnits::Gsm(septets) => Units::Gsm(Septets::new(septets)),
        SavedUnits::Ucs2(units) => Units::Ucs2(Ucs2Units::new(units)),
    }
}

/// The units of a place, if they have come.
fn place_from(place: Option<SavedUnits>) -> Option<Units>
    requires { IfSome (view_place place) UnitsFit }
    ensures { option_map saved_units result ≡ view_place place }
{
    match place {
        None => None,
        Some(units) => Some(units_from(units)),
    }
}

/// The places of a set.
fn places_from(
    alloc: Global,
    places: Vec<Option<SavedUnits>>,
) -> Result<Vec<Option<Units>>, AllocError>
    requires { AllByRecursion (λ p. IfSome p UnitsFit) (view_places places.items) }
    ensures { IfOk result (λ back. map (option_map saved_units) back.items
        ≡ view_places places.items) }
{
    let mut back = Vec::with_capacity(alloc, places.len())?;
    for place in places {
        back.push(place_from(place))?;
    }
    Ok(back)
}

/// Puts a set back, where its key is one that a joiner can hold and is not remembered: whether it
/// was put.
fn put_set_back(alloc: Global, gateway: &mut Gateway, own: OpenSet) -> Result<bool, AllocError>
    requires fits { SetFits (view_set own) }
    requires few { length gateway.old.told < gateway.old.limits.open_max }
    requires closed { (k : TheKey) → saved_key k ≡ own.key → has_set gateway.old.told k ≡ false }
    ensures { IfOk result (λ is_put. MatchBool is_put
        (IsPut gateway.old gateway.new (view_set own)) (IsHindered gateway.old own.key)) }
{
    let Some(key) = key_from(alloc, &own.key)? else {
        return Ok(false);
    };
    if gateway.remembers(&key) {
        return Ok(false);
    }
    let moment = own.moment;
    let back = places_from(alloc, own.places)?;
    gateway.put_back(key, moment, back)?;
    Ok(true)
}

/// Puts sets back, into a joiner that has none, up to the first whose key is none that a joiner can
/// hold, or is remembered: whether all were put.
pub(crate) fn put_sets_back(
    alloc: Global,
    gateway: &mut Gateway,
    sets: Vec<OpenSet>,
) -> Result<bool, AllocError>
    requires none { (gateway.old.told ≡ []) × (gateway.old.holds.kept ≡ []) }
    requires fits { AllByRecursion SetFits (view_sets sets.items) }
    requires few { length sets.items ≤ gateway.old.limits.open_max }
    requires apart { AreApart [] (set_keys (view_sets sets.items)) }
    ensures { IfOk result (λ are_put. MatchBool are_put
        (ArePut gateway.old gateway.new (view_sets sets.items))
        (OneIsHindered gateway.old (view_sets sets.items))) }
{
    for own in sets {
        if !put_set_back(alloc, gateway, own)? {
            return Ok(false);
        }
    }
    Ok(true)
}
