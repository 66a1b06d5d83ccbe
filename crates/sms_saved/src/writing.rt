//! A state as octets.

ghost use Rattle.std.specs.Prelude.{◌≡◌, ◌++◌, OnOk, IfOk};
ghost use Rattle.std.specs.List.{flat_map};
ghost use Rattle.sms_saved.specs.Value.{view_places, view_set, view_sets, view};
ghost use Rattle.sms_saved.specs.Spelling.{place, set, remembered, counted, body, spelling};
ghost use Rattle.sms_saved.specs.Fits.{StateFits};

use crate::state::{OpenSet, Remembered, State, Units};
use crate::views::place_view;
use crate::writer::Writer;
use std::alloc::{AllocError, Global};

/// The places of a set.
fn put_places(writer: &mut Writer, places: &[Option<Units>]) -> Result<(), AllocError>
    ensures { OnOk result (writer.new ≡ writer.old ++ flat_map place (view_places places.now)) }
{
    for units in places {
        writer.put_place(place_view(units))?;
    }
    Ok(())
}

/// An open set.
fn put_set(writer: &mut Writer, own: &OpenSet) -> Result<(), AllocError>
    ensures { OnOk result (writer.new ≡ writer.old ++ set (view_set own.now)) }
{
    writer.begin_set(&own.key, own.moment, own.opening)?;
    put_places(writer, &own.places)
}

/// The open sets.
fn put_sets(writer: &mut Writer, sets: &[OpenSet]) -> Result<(), AllocError>
    ensures { OnOk result (writer.new ≡ writer.old ++ flat_map set (view_sets sets.now)) }
{
    for own in sets {
        put_set(writer, own)?;
    }
    Ok(())
}

/// A remembered key.
fn put_remembered(writer: &mut Writer, own: &Remembered) -> Result<(), AllocError>
    ensures { OnOk result (writer.new ≡ writer.old ++ remembered own.now) }
{
    writer.put_key(&own.key, own.moment)
}

/// The remembered keys.
fn put_keys(writer: &mut Writer, keys: &[Remembered]) -> Result<(), AllocError>
    ensures { OnOk result (writer.new
        ≡ writer.old ++ counted remembered keys.now) }
{
    writer.begin_keys(keys.len())?;
    for own in keys {
        put_remembered(writer, own)?;
    }
    Ok(())
}

/// The one spelling of the state.
#[tactic(auto, unfolding(crate::specs::Spelling::body))]
pub fn write(alloc: Global, state: &State) -> Result<Vec<u8>, AllocError>
    requires { StateFits (view state.now) }
    ensures { IfOk result (λ v. v.items ≡ spelling (view state.now)) }
{
    let sets = state.sets.as_slice();
    let mut writer = Writer::begin(alloc, state.limits, state.taken, state.next, sets.len())?;
    put_sets(&mut writer, sets)?;
    put_keys(&mut writer, &state.keys)?;
    writer.end()
}
