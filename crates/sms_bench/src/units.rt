//! SMS-DELIVERs that are read as values, and seen where they lie, by the calls of the library.

ghost use Rattle.std.specs.Prelude.{◌≡◌, ◌+◌, ◌*◌, ◌/◌, ◌%◌};

use crate::answers::Answers;
use crate::chance::Chance;
use crate::counts::add_one;
use crate::date::date_of;
use crate::digest::Digest;
use crate::pool::{Units, pool_of};
use anyhow::Result;
use hex::decode;
use sms_field::{Address, Stamp, Symbols, alphabet_of};
use sms_tpdu::{Deliver, DeliverView, Unit, UserData};
use std::alloc::Global;

/// Adds the octets of a text's units.
fn add_units(alloc: Global, text: &Units, units: &mut Vec<Vec<u8>>) -> Result<()> {
    for line in &text.lines {
        units.push(decode(alloc, line.as_bytes())?)?;
    }
    Ok(())
}

/// The octets of the units of so many texts.
pub fn units_of(alloc: Global, chance: &mut Chance, count: usize) -> Result<Vec<Vec<u8>>> {
    let mut units = Vec::new(alloc);
    for text in &pool_of(alloc, chance, count)? {
        add_units(alloc, text, &mut units)?;
    }
    Ok(units)
}

/// An octet of two digits, of which the lower half has the first.
fn swapped(number: u64) -> u8
    ensures { result ≡ number % 10 * 16 + number / 10 % 10 }
{
    (number % 10 * 16 + number / 10 % 10) as u8
}

/// Puts the last seven digits of an origin, after which half an octet is none.
fn put_origin(unit: &mut [u8], number: u64) {
    if let Some(own) = unit.get_mut(5..9) {
        if let [first, second, third, last] = own {
            *first = swapped(number / 100_000);
            *second = swapped(number / 1_000);
            *third = swapped(number / 10);
            *last = 0xF0 + (number % 10) as u8;
        }
    }
}

/// Puts the stamp of so many seconds.
fn put_stamp(unit: &mut [u8], seconds: u64) {
    let date = date_of(seconds);
    let own = unit.get_mut(11..17).into_iter().flatten();
    for (octet, number) in own.zip(date) {
        *octet = swapped(number);
    }
}

/// Puts the reference of a segment.
fn put_reference(unit: &mut [u8], number: u64) {
    if let Some(own) = unit.get_mut(22) {
        *own = (number % 256) as u8;
    }
}

/// Puts what the unit of a number has as its own: its origin, its stamp, and its reference where it
/// is a segment.
fn put_own(unit: &mut [u8], number: u64) {
    put_origin(unit, number);
    put_stamp(unit, number.wrapping_mul(61));
    if let [64..=127, ..] = unit {
        put_reference(unit, number);
    }
}

/// What of a unit is told beside its origin, header and text.
struct Told {
    flags: [bool; 4],
    pid: u8,
    dcs: u8,
    stamp: Stamp,
    /// How many octets it takes.
    used: usize,
}

/// Takes an origin.
fn take_origin(origin: &Address, digest: &mut Digest) {
    digest.take(&[origin.type_of_number, origin.plan]);
    match &origin.symbols {
        Symbols::Digits(digits) => digest.take(digits.as_slice()),
        Symbols::Name(_) => digest.take(b"-"),
    }
}

/// Takes what is told of a unit.
fn take_told(told: Told, digest: &mut Digest) {
    let Told {
        flags,
        pid,
        dcs,
        stamp,
        used,
    } = told;
    let [more, looped, report, reply] = flags;
    let [year, month, day, hour, minute, second, quarters] = stamp.octets();
    let flags = [more, looped, report, reply].map(u8::from);
    let [more, looped, report, reply] = flags;
    digest.take_number(u64::from_le_bytes([more, looped, report, reply, pid, dcs, year, month]));
    digest.take_number(u64::from_le_bytes([day, hour, minute, second, quarters, 0, 0, 0]));
    digest.take_number(used as u64);
}

/// Takes a header and a text, or that there is none.
fn take_user(header: Option<&[u8]>, text: Option<&str>, digest: &mut Digest) {
    digest.take(header.unwrap_or(b"-"));
    match text {
        Some(text) => digest.take(text.as_bytes()),
        None => digest.take(b"-"),
    }
}

/// Reads a unit as a value, and takes all that it has.
fn read(alloc: Global, octets: &[u8], digest: &mut Digest) -> Result<()> {
    let (deliver, used) = Deliver::read(alloc, octets)?;
    let Deliver {
        more,
        looped,
        report,
        reply,
        origin,
        pid,
        dcs,
        stamp,
        user,
    } = deliver;
    take_origin(&origin, digest);
    take_told(
        Told {
            flags: [more, looped, report, reply],
            pid,
            dcs,
            stamp,
            used,
        },
        digest,
    );
    let UserData { header, body } = user;
    let text = body.into_text(alloc, alphabet_of(dcs))?;
    match &header {
        Some(header) => take_user(Some(header.as_slice()), text.as_deref(), digest),
        None => take_user(None, text.as_deref(), digest),
    }
    Ok(())
}

/// Sees a unit where it lies, and takes all that it has.
fn see(alloc: Global, octets: &[u8], digest: &mut Digest) -> Result<()> {
    let (deliver, used) = DeliverView::read(octets)?;
    let origin = deliver.origin.to_value(alloc)?;
    take_origin(&origin, digest);
    take_told(
        Told {
            flags: [deliver.more, deliver.looped, deliver.report, deliver.reply],
            pid: deliver.pid,
            dcs: deliver.dcs,
            stamp: deliver.stamp,
            used,
        },
        digest,
    );
    let text = deliver.text(alloc)?;
    match deliver.user.header() {
        Some(header) => take_user(Some(header.as_slice()), text.as_deref(), digest),
        None => take_user(None, text.as_deref(), digest),
    }
    Ok(())
}

/// Takes so many units, each with an origin, a stamp and a reference of its own: one is seen where
/// it lies, the next is read as a value.
pub fn take_units(
    alloc: Global,
    units: &mut Vec<Vec<u8>>,
    count: u64,
    answers: &mut Answers,
) -> Result<()> {
    let mut place = 0;
    for number in 0..count {
        if place >= units.len() {
            place = 0;
        }
        if let Some(unit) = units.as_mut_slice().get_mut(place) {
            put_own(unit, number);
            take_unit(alloc, unit, number % 2 == 0, answers)?;
        }
        place = place.saturating_add(1);
    }
    Ok(())
}

/// Takes a unit in one of both ways.
fn take_unit(alloc: Global, octets: &[u8], is_seen: bool, answers: &mut Answers) -> Result<()> {
    if is_seen {
        add_one(&mut answers.counts.seen);
        see(alloc, octets, &mut answers.digest)
    } else {
        add_one(&mut answers.counts.read);
        read(alloc, octets, &mut answers.digest)
    }
}
