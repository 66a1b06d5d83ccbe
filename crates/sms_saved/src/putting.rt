//! Fields as octets.

ghost use Rattle.std.specs.Prelude.{◌≡◌, ◌+◌, ◌≤◌, ◌++◌, length, take, OnOk};
ghost use Rattle.sms_saved.specs.Spelling.{octet, two, eight, string, counted, optional, flag, limits, address, message, form_of, key, place, numbers};
ghost use Rattle.sms_saved.specs.Views.{seen_place};

use crate::address::AddressOctets;
use crate::state::{Key, Limits, Message, Width};
use crate::views::UnitsView;
use std::alloc::AllocError;

/// The most octets of a key and a moment.
const KEY_MAX: usize = 43;

/// A number in eight octets.
#[tactic(auto, unfolding(crate::specs::Spelling::eight))]
pub(crate) fn put_u64(out: &mut Vec<u8>, number: u64) -> Result<(), AllocError>
    ensures { OnOk result (out.new.items ≡ out.old.items ++ eight number) }
{
    out.extend_from_slice(&number.to_be_bytes())?;
    Ok(())
}

/// A number in two octets.
#[tactic(auto, unfolding(crate::specs::Spelling::two))]
fn put_u16(out: &mut Vec<u8>, number: u16) -> Result<(), AllocError>
    ensures { OnOk result (out.new.items ≡ out.old.items ++ two number) }
{
    out.extend_from_slice(&number.to_be_bytes())?;
    Ok(())
}

/// An age, or none.
fn put_age(out: &mut Vec<u8>, age: Option<u64>) -> Result<(), AllocError>
    ensures { OnOk result (out.new.items ≡ out.old.items ++ optional eight age) }
{
    match age {
        None => out.push(0)?,
        Some(age) => {
            out.push(1)?;
            put_u64(out, age)?;
        }
    }
    Ok(())
}

/// Yes or no.
fn put_flag(out: &mut Vec<u8>, is_so: bool) -> Result<(), AllocError>
    ensures { OnOk result (out.new.items ≡ out.old.items ++ flag is_so) }
{
    out.push(if is_so { 1 } else { 0 })?;
    Ok(())
}

/// The limits.
pub(crate) fn put_limits(out: &mut Vec<u8>, own: Limits) -> Result<(), AllocError>
    ensures { OnOk result (out.new.items ≡ out.old.items ++ limits own) }
{
    put_u64(out, own.sets)?;
    put_u64(out, own.keys)?;
    put_u64(out, own.age_of_sets)?;
    put_age(out, own.age_of_keys)?;
    put_flag(out, own.passes_singles)?;
    Ok(())
}

/// Octets in a room behind those that are done, and how many are done then. All of them are
/// copied, since a copy of a known size takes the fewest steps: what comes next lies over those
/// that do not count.
#[inline(always)]
fn put_behind<const N: usize>(room: &mut [u8], done: usize, octets: &[u8; N], count: usize) -> usize
    requires room { done + N ≤ length room.old }
    requires few { count ≤ N }
    ensures done { result ≡ done + count }
    ensures put { take result room.new ≡ take done room.old ++ take count octets.now }
    ensures size { length room.new ≡ length room.old }
{
    room[done..done + N].copy_from_slice(octets);
    done + count
}

/// An address.
#[inline(always)]
fn put_address(room: &mut [u8], done: usize, own: &AddressOctets) -> usize
    requires { done + 13 ≤ length room.old }
    ensures few { result ≤ done + 13 }
    ensures put { take result room.new ≡ take done room.old ++ address own.now }
    ensures size { length room.new ≡ length room.old }
{
    let count = 1 + own.as_slice().len();
    put_behind(room, done, &own.spelled(), count)
}

/// A recipient, or none.
#[inline(always)]
fn put_recipient(room: &mut [u8], done: usize, own: &Option<AddressOctets>) -> usize
    requires { done + 14 ≤ length room.old }
    ensures few { result ≤ done + 14 }
    ensures put { take result room.new ≡ take done room.old ++ optional address own.now }
    ensures size { length room.new ≡ length room.old }
{
    match own {
        None => put_behind(room, done, &[0], 1),
        Some(octets) => {
            let told = put_behind(room, done, &[1], 1);
            put_address(room, told, octets)
        }
    }
}

/// The octet that says the form of a key in segments.
fn form_of(width: Width) -> u8
    ensures { result ≡ form_of width }
{
    match width {
        Width::Eight => 1,
        Width::Sixteen => 2,
    }
}

/// Which message it is.
#[inline(always)]
#[tactic(auto, unfolding(crate::specs::Spelling::two))]
fn put_message(room: &mut [u8], done: usize, own: Message) -> usize
    requires { done + 8 ≤ length room.old }
    ensures few { result ≤ done + 8 }
    ensures put { take result room.new ≡ take done room.old ++ message own }
    ensures size { length room.new ≡ length room.old }
{
    match own {
        Message::Single { stamp } => {
            let mut octets = [0; 8];
            octets[1..].copy_from_slice(&stamp);
            put_behind(room, done, &octets, 8)
        }
        Message::Segmented {
            width,
            reference,
            maximum,
        } => {
            let [high, low] = reference.to_be_bytes();
            put_behind(room, done, &[form_of(width), high, low, maximum], 4)
        }
    }
}

/// A key and a moment, at the front of a room. How many octets they are.
#[inline(always)]
#[tactic(auto, unfolding(crate::specs::Spelling::key, crate::specs::Spelling::eight))]
fn spell_key(room: &mut [u8], own: &Key, moment: u64) -> usize
    requires { KEY_MAX ≤ length room.old }
    ensures few { result ≤ KEY_MAX }
    ensures spelled { take result room.new ≡ key own.now ++ eight moment }
    ensures size { length room.new ≡ length room.old }
{
    let origin = put_address(room, 0, &own.origin);
    let recipient = put_recipient(room, origin, &own.recipient);
    let message = put_message(room, recipient, own.message);
    put_behind(room, message, &moment.to_be_bytes(), 8)
}

/// A key and a moment. What a short key leaves of the room is taken back, and is needed anyway: at
/// least the 32 octets of the checksum follow.
#[inline(always)]
pub(crate) fn put_key(out: &mut Vec<u8>, own: &Key, moment: u64) -> Result<(), AllocError>
    ensures { OnOk result (out.new.items ≡ out.old.items ++ (key own.now ++ eight moment)) }
{
    let start = out.len();
    out.extend_from_slice(&[0; KEY_MAX])?;
    let count = spell_key(&mut out[start..], own, moment);
    out.truncate(start + count);
    Ok(())
}

/// 16-bit units.
fn put_wide(out: &mut Vec<u8>, units: &[u16]) -> Result<(), AllocError>
    ensures { OnOk result (out.new.items ≡ out.old.items ++ counted two units.now) }
{
    put_u64(out, units.len() as u64)?;
    for unit in units {
        put_u16(out, *unit)?;
    }
    Ok(())
}

/// Septets.
fn put_septets(out: &mut Vec<u8>, septets: &[u8]) -> Result<(), AllocError>
    ensures { OnOk result (out.new.items ≡ out.old.items ++ string eight septets.now) }
{
    put_u64(out, septets.len() as u64)?;
    out.extend_from_slice(septets)?;
    Ok(())
}

/// The units of a piece, or none.
pub(crate) fn put_units(out: &mut Vec<u8>, units: Option<UnitsView<'_>>) -> Result<(), AllocError>
    ensures { OnOk result (out.new.items ≡ out.old.items ++ place (seen_place units.entry)) }
{
    match units {
        None => out.push(0)?,
        Some(UnitsView::Gsm(septets)) => {
            out.push(1)?;
            put_septets(out, septets)?;
        }
        Some(UnitsView::Ucs2(units)) => {
            out.push(2)?;
            put_wide(out, units)?;
        }
    }
    Ok(())
}
