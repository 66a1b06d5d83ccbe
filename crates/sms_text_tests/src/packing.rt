//! Septets packed into octets, and unpacked from them.

mod rows;

ghost use Rattle.std.specs.Prelude.{◌<◌};
ghost use Rattle.sms_text.specs.Bits.{AreSeptets};

use crate::found::{is, is_below, septets_of};
use rows::{
    PACKED, PACKED_AFTER_1, PACKED_AFTER_2, PACKED_AFTER_3, PACKED_AFTER_4, PACKED_AFTER_5,
    PACKED_AFTER_6, Packed,
};
use sms_text::{pack, pack_into, text_of_packed, unpack};
use std::alloc::Global;
use std::process::Abort;
use std::test::Fail;

/// The fill bits of a row, fewer than seven.
fn fill_of(rt: &impl Abort, row: &Packed) -> u8
    ensures { result < 7 }
{
    is_below(rt, row.text, row.fill, 7);
    row.fill
}

/// The septets are packed so.
fn packs(rt: &impl Abort, alloc: Global, row: &Packed, septets: &[u8]) -> Result<(), Fail>
    requires { AreSeptets septets.now }
{
    let packed = pack(alloc, septets, fill_of(rt, row))?;
    is(rt, (row.fill, row.text), packed.as_slice(), row.plain);
    Ok(())
}

/// The septets are packed so after other octets.
fn packs_after(rt: &impl Abort, alloc: Global, row: &Packed, septets: &[u8]) -> Result<(), Fail>
    requires { AreSeptets septets.now }
{
    let mut longer = Vec::from_slice(alloc, row.plain)?;
    pack_into(&mut longer, septets, fill_of(rt, row))?;
    is(
        rt,
        (row.fill, row.text),
        longer.get(row.plain.len()..),
        Some(row.plain),
    );
    Ok(())
}

/// What is unpacked from octets is this.
fn unpacks(
    rt: &impl Abort,
    alloc: Global,
    row: &Packed,
    octets: &[u8],
    count: usize,
    wanted: Option<&[u8]>,
) -> Result<(), Fail> {
    let again = unpack(alloc, octets, fill_of(rt, row), count)?;
    is(rt, (row.fill, row.text), again.as_deref(), wanted);
    Ok(())
}

/// The text comes back from octets whose other bits are set.
fn text_comes_back(rt: &impl Abort, alloc: Global, row: &Packed, count: usize) -> Result<(), Fail> {
    let text = text_of_packed(alloc, row.set, fill_of(rt, row), count)?;
    is(rt, (row.fill, row.text), text.as_deref(), Some(row.text));
    Ok(())
}

/// The septets come back from octets whose other bits are set, and not from fewer.
fn come_back(rt: &impl Abort, alloc: Global, row: &Packed, septets: &[u8]) -> Result<(), Fail> {
    unpacks(rt, alloc, row, row.set, septets.len(), Some(septets))?;
    text_comes_back(rt, alloc, row, septets.len())?;
    match row.set {
        [fewer @ .., _] => unpacks(rt, alloc, row, fewer, septets.len(), None),
        [] => Ok(()),
    }
}

/// The septets of the text are packed so, and come back.
fn is_packed(rt: &impl Abort, alloc: Global, row: &Packed) -> Result<(), Fail> {
    let septets = septets_of(alloc, row.text)?;
    packs(rt, alloc, row, &septets)?;
    packs_after(rt, alloc, row, &septets)?;
    come_back(rt, alloc, row, &septets)
}

/// The texts of the rows are packed so, and come back.
fn are_packed(rt: &impl Abort, alloc: Global, rows: &[Packed]) -> Result<(), Fail> {
    for row in rows {
        is_packed(rt, alloc, row)?;
    }
    Ok(())
}

#[test]
fn packs_whole_septets(rt: HostRuntime) -> Result<(), Fail> {
    are_packed(&rt, rt.alloc(), PACKED.as_slice())
}

#[test]
fn packs_after_1_fill_bit(rt: HostRuntime) -> Result<(), Fail> {
    are_packed(&rt, rt.alloc(), PACKED_AFTER_1.as_slice())
}

#[test]
fn packs_after_2_fill_bits(rt: HostRuntime) -> Result<(), Fail> {
    are_packed(&rt, rt.alloc(), PACKED_AFTER_2.as_slice())
}

#[test]
fn packs_after_3_fill_bits(rt: HostRuntime) -> Result<(), Fail> {
    are_packed(&rt, rt.alloc(), PACKED_AFTER_3.as_slice())
}

#[test]
fn packs_after_4_fill_bits(rt: HostRuntime) -> Result<(), Fail> {
    are_packed(&rt, rt.alloc(), PACKED_AFTER_4.as_slice())
}

#[test]
fn packs_after_5_fill_bits(rt: HostRuntime) -> Result<(), Fail> {
    are_packed(&rt, rt.alloc(), PACKED_AFTER_5.as_slice())
}

#[test]
fn packs_after_6_fill_bits(rt: HostRuntime) -> Result<(), Fail> {
    are_packed(&rt, rt.alloc(), PACKED_AFTER_6.as_slice())
}

#[test]
fn packs_hello(rt: HostRuntime) -> Result<(), Fail> {
    let hello = septets_of(rt.alloc(), "hello")?;
    let packed = pack(rt.alloc(), &hello, 0)?;
    is(
        &rt,
        "hello",
        packed.as_slice(),
        &[0xE8, 0x32, 0x9B, 0xFD, 0x06],
    );
    Ok(())
}
