//! States that are written.

use crate::found::holds;
use crate::rows::SAMPLE;
use crate::seen::{LIMITS, SEED};
use sms_saved::{
    AddressOctets, Key, Message, UnitsView, Width, Writer, read, read_again, write, written_again,
};
use std::alloc::Global;
use std::test::Fail;

/// Whom the first set is from.
const PHONE: &[u8] = b"\x0B\x91\x72\x38\x88\x09\x00\xF1";

/// For whom it is.
const SHORT: &[u8] = b"\x04\x91\x01\x10";

/// Whom the second set is from.
const NAME: &[u8] = b"\x0A\xD0\xE8\x32\x9B\xFD\x06";

/// Which message the first set is of.
const FIRST: Message = Message::Segmented {
    width: Width::Sixteen,
    reference: 515,
    maximum: 3,
};

/// Which message the second set is of.
const SECOND: Message = Message::Segmented {
    width: Width::Eight,
    reference: 7,
    maximum: 2,
};

/// A message in one piece.
const SINGLE: Message = Message::Single {
    stamp: [0x99, 0x30, 0x92, 0x51, 0x61, 0x95, 0x80],
};

/// A key from whom and for whom.
fn key_of(origin: &[u8], recipient: &[u8], message: Message) -> Option<Key> {
    let key = Key {
        origin: AddressOctets::new(origin)?,
        recipient: Some(AddressOctets::new(recipient)?),
        message,
    };
    Some(key)
}

/// A key from whom, for no recipient that is told.
fn key_from(origin: &[u8], message: Message) -> Option<Key> {
    let key = Key {
        origin: AddressOctets::new(origin)?,
        recipient: None,
        message,
    };
    Some(key)
}

/// Puts the first set, with the second of its three pieces.
fn put_first(writer: &mut Writer) -> Option<()> {
    let key = key_of(PHONE, SHORT, FIRST)?;
    writer.begin_set(&key, 800_000_000, 4).ok()?;
    writer.put_place(None).ok()?;
    let septets = UnitsView::Gsm(&[104, 105, 27, 101]);
    writer.put_place(Some(septets)).ok()?;
    writer.put_place(None).ok()
}

/// Puts the second set, with the first of its two pieces.
fn put_second(writer: &mut Writer) -> Option<()> {
    let key = key_from(NAME, SECOND)?;
    writer.begin_set(&key, 800_000_001, 9).ok()?;
    let units = UnitsView::Ucs2(&[0x4F60, 0xD83D]);
    writer.put_place(Some(units)).ok()?;
    writer.put_place(None).ok()
}

/// Puts the remembered keys.
fn put_keys(writer: &mut Writer) -> Option<()> {
    let one = key_from(PHONE, FIRST)?;
    let other = key_of(SHORT, PHONE, SINGLE)?;
    writer.begin_keys(2).ok()?;
    writer.put_key(&one, 799_999_999).ok()?;
    writer.put_key(&other, 800_000_001).ok()
}

/// The state that was made, written part by part, unless memory runs out.
pub fn sample_written(alloc: Global) -> Option<Vec<u8>> {
    let mut writer = Writer::begin(alloc, LIMITS, 12, 10, 2).ok()?;
    put_first(&mut writer)?;
    put_second(&mut writer)?;
    put_keys(&mut writer)?;
    writer.end().ok()
}

#[test]
fn a_state_is_written_part_by_part(rt: HostRuntime) -> Result<(), Fail> {
    let octets = sample_written(rt.alloc()).ok_or("not written")?;
    holds(&rt, "octets", octets.as_slice() == SAMPLE);
    Ok(())
}

#[test]
fn a_state_is_written_as_it_was_read(rt: HostRuntime) -> Result<(), Fail> {
    let alloc = rt.alloc();
    let state = read(alloc, SEED, LIMITS, SAMPLE).map_err(|_| "not read")?;
    let octets = write(alloc, &state)?;
    holds(&rt, "octets", octets.as_slice() == SAMPLE);
    let again = read_again(alloc, SEED, &state)?;
    holds(&rt, "again", again.next == 10);
    let octets = written_again(alloc, SEED, LIMITS, SAMPLE).map_err(|_| "not written")?;
    holds(&rt, "written", octets.as_slice() == SAMPLE);
    Ok(())
}

#[test]
fn addresses_have_few_octets(rt: HostRuntime) {
    holds(&rt, "12", AddressOctets::new(&[0; 12]).is_some());
    holds(&rt, "13", AddressOctets::new(&[0; 13]).is_none());
}
