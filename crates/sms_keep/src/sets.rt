//! Open sets as they are saved.

ghost use Rattle.std.specs.Prelude.{◌≡◌, ◌<◌, ◌++◌, ◌^◌, true, length, option_copied, option_map, map, IfSome, OnOk};
ghost use Rattle.std.specs.List.{AllByRecursion, flat_map};
ghost use Rattle.sms_join.specs.Key.{maximum_of};
ghost use Rattle.sms_saved.specs.Fits.{UnitsFit};
ghost use Rattle.sms_saved.specs.Spelling.{place, set};
ghost use Rattle.sms_saved.specs.Views.{seen_place, seen_units};
ghost use Rattle.sms_keep.specs.Saved.{saved_units, places_from, saved_set};
ghost use Rattle.sms_keep.specs.Inside.Saving.{SetIsSound};

use crate::keys::key_of;
use sms_join::{OpenSet, ToldSets, Units};
use sms_saved::{UnitsView, Writer};
use std::alloc::AllocError;

/// 16-bit units, lent.
fn wide_view(units: &[u16]) -> UnitsView<'_>
    ensures value { seen_units result ≡ record { is_wide = true; numbers = units.now } }
    ensures few { length units.now < 2 ^ 64 }
    ensures each { AllByRecursion (λ n. n < 2 ^ 16) units.now }
{
    UnitsView::Ucs2(units)
}

/// The units of a piece, or none, lent.
fn view_of(units: Option<&Units>) -> Option<UnitsView<'_>>
    ensures value { seen_place result ≡ option_map saved_units (option_copied units.entry) }
    ensures fits { IfSome (option_map saved_units (option_copied units.entry)) UnitsFit }
{
    match units {
        None => None,
        Some(Units::Gsm(septets)) => Some(UnitsView::Gsm(septets.as_slice())),
        Some(Units::Ucs2(units)) => Some(wide_view(units.as_slice())),
    }
}

/// The places of a set.
fn put_places(writer: &mut Writer, own: &OpenSet<'_>) -> Result<(), AllocError>
    ensures value { OnOk result (writer.new
        ≡ writer.old ++ flat_map place (places_from 1 (maximum_of own.now.key) own.now)) }
    ensures fit { OnOk result (AllByRecursion (λ p. IfSome p UnitsFit)
        (places_from 1 (maximum_of own.now.key) own.now)) }
{
    for before in 0..own.maximum() {
        writer.put_place(view_of(own.units(before + 1)))?;
    }
    Ok(())
}

/// A set.
fn put_set(room: &mut Vec<u8>, writer: &mut Writer, own: &OpenSet<'_>) -> Result<(), AllocError>
    ensures value { OnOk result (writer.new ≡ writer.old ++ set (saved_set own.now)) }
    ensures sound { OnOk result (SetIsSound own.now) }
{
    let key = key_of(room, own.key())?;
    writer.begin_set(&key, own.moment(), own.turn())?;
    put_places(writer, own)
}

/// The sets.
pub(crate) fn put_sets(
    room: &mut Vec<u8>,
    writer: &mut Writer,
    sets: ToldSets<'_>,
) -> Result<(), AllocError>
    ensures value { OnOk result (writer.new
        ≡ writer.old ++ flat_map set (map saved_set sets.entry)) }
    ensures sound { OnOk result (AllByRecursion SetIsSound sets.entry) }
{
    for own in sets {
        put_set(room, writer, &own)?;
    }
    Ok(())
}
