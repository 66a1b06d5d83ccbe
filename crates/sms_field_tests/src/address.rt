//! Addresses that are read, written, and told in texts.

mod rows;

use crate::found::is;
use rows::{BAD, FOUND, Found, NAMED, Named, REFUSED, SPELLED, Spelled, WRITTEN};
use sms_field::{
    Address, AddressFault, AddressView, DigitsView, FieldFault, NameView, Refusal, Symbols,
    SymbolsView, TextFault,
};
use std::alloc::Global;
use std::process::Abort;
use std::test::Fail;

/// The digits of an address without a name.
fn digits_of(address: &Address) -> Option<&[u8]> {
    match &address.symbols {
        Symbols::Digits(digits) => Some(digits.as_slice()),
        Symbols::Name(_) => None,
    }
}

/// An address is what its row says.
fn is_found(rt: &impl Abort, row: &Found, address: &Address) {
    is(rt, row.octets, address.type_of_number, row.type_of_number);
    is(rt, row.octets, address.plan, row.plan);
    is(rt, row.octets, digits_of(address), Some(row.digits));
}

/// The octets of a row are not refused.
fn is_no_refusal(rt: &impl Abort, octets: &[u8], refusal: Refusal<FieldFault>) {
    assert!(rt; false, "{octets:?}: {refusal:?}");
}

/// The octets of a row are read as it says.
fn reads(rt: &impl Abort, alloc: Global, row: &Found) {
    match Address::read(alloc, row.octets) {
        Ok((address, used)) => {
            is_found(rt, row, &address);
            is(rt, row.octets, used, row.used);
        }
        Err(refusal) => is_no_refusal(rt, row.octets, refusal),
    }
}

/// Whether octets are refused at this place for this reason.
fn is_no_address(alloc: Global, octets: &[u8], place: usize, why: FieldFault) -> bool {
    match Address::read(alloc, octets) {
        Ok(_) => false,
        Err(refusal) => refusal == Refusal::At { place, why },
    }
}

#[test]
fn addresses_read(rt: HostRuntime) {
    for row in FOUND.as_slice() {
        reads(&rt, rt.alloc(), row);
    }
}

#[test]
fn addresses_refused(rt: HostRuntime) {
    for row in REFUSED.as_slice() {
        let refused = is_no_address(rt.alloc(), row.octets, row.place, row.why);
        is(&rt, row.octets, refused, true);
    }
}

/// The octets of an address are written so.
fn writes(
    rt: &impl Abort,
    alloc: Global,
    octets: &[u8],
    address: &Address,
    want: &[u8],
) -> Result<(), Fail> {
    let mut out = Vec::new(alloc);
    address.write_to(&mut out)?;
    is(rt, octets, out.as_slice(), want);
    Ok(())
}

/// The octets are read, and written so.
fn is_written(rt: &impl Abort, alloc: Global, octets: &[u8], want: &[u8]) -> Result<(), Fail> {
    let (address, _) = Address::read(alloc, octets)?;
    writes(rt, alloc, octets, &address, want)
}

#[test]
fn addresses_written(rt: HostRuntime) -> Result<(), Fail> {
    for row in WRITTEN.as_slice() {
        is_written(&rt, rt.alloc(), row.octets, row.want)?;
    }
    Ok(())
}

/// The address has these octets.
fn has_octets(
    rt: &impl Abort,
    alloc: Global,
    address: &Address,
    row: &Spelled,
) -> Result<(), Fail> {
    let written = address.write(alloc)?;
    is(rt, row.text, written.as_slice(), row.octets);
    Ok(())
}

/// The address has this text.
fn has_text(
    rt: &impl Abort,
    alloc: Global,
    address: &Address,
    octets: &[u8],
    text: &str,
) -> Result<(), Fail> {
    let again = address.to_text(alloc)?;
    is(rt, octets, again.as_str(), text);
    Ok(())
}

/// A text is the address of its octets, and is its text again.
fn spells(rt: &impl Abort, alloc: Global, row: &Spelled) -> Result<(), Fail> {
    let address = Address::from_text(alloc, row.text)?;
    has_octets(rt, alloc, &address, row)?;
    has_text(rt, alloc, &address, row.octets, row.text)
}

/// Whether a text is refused for this reason.
fn is_refused(alloc: Global, text: &str, fault: AddressFault) -> bool {
    match Address::from_text(alloc, text) {
        Ok(_) => false,
        Err(why) => why == TextFault::Address(fault),
    }
}

#[test]
fn addresses_from_texts(rt: HostRuntime) -> Result<(), Fail> {
    for row in SPELLED.as_slice() {
        spells(&rt, rt.alloc(), row)?;
    }
    Ok(())
}

#[test]
fn texts_without_addresses(rt: HostRuntime) {
    for row in BAD.as_slice() {
        let refused = is_refused(rt.alloc(), row.text, row.fault);
        is(&rt, row.text, refused, true);
    }
}

/// The copy of an address is the address.
fn is_copied(rt: &impl Abort, alloc: Global, text: &str, address: &Address) -> Result<(), Fail> {
    let copy = address.copy(alloc)?;
    is(rt, text, copy == *address, true);
    Ok(())
}

/// All octets of a row are read as its name.
fn is_named(rt: &impl Abort, alloc: Global, row: &Named) -> Result<(), Fail> {
    let (address, used) = Address::read(alloc, row.octets)?;
    is(rt, row.octets, used, row.octets.len());
    has_text(rt, alloc, &address, row.octets, row.text)?;
    is_copied(rt, alloc, row.text, &address)
}

#[test]
fn names_read(rt: HostRuntime) -> Result<(), Fail> {
    for row in NAMED.as_slice() {
        is_named(&rt, rt.alloc(), row)?;
    }
    Ok(())
}

/// Digits that lie in octets are 1 to 5.
fn are_five(rt: &impl Abort, digits: &DigitsView) {
    is(rt, "count", digits.count(), 5);
    is(rt, "first", digits.digit(0), Some(1));
    is(rt, "last", digits.digit(4), Some(5));
    is(rt, "none", digits.digit(5), None);
}

/// A name that lies in octets is `hi`.
fn is_hi(rt: &impl Abort, name: &NameView) {
    is(rt, "count", name.count(), 2);
    is(rt, "last", name.septet(1), Some(b'i'));
    is(rt, "none", name.septet(2), None);
    is(rt, "packed", name.packed(), [0xE8, 0x34].as_slice());
}

/// What stands in an address that lies in octets is these digits, or this name.
fn are_seen(rt: &impl Abort, symbols: SymbolsView, named: bool) {
    match symbols {
        SymbolsView::Digits(digits) => {
            is(rt, "digits", named, false);
            are_five(rt, &digits);
        }
        SymbolsView::Name(name) => {
            is(rt, "name", named, true);
            is_hi(rt, &name);
        }
    }
}

#[test]
fn addresses_where_they_lie(rt: HostRuntime) -> Result<(), Fail> {
    let digits: [u8; 6] = [0x05, 0x91, 0x21, 0x43, 0xF5, 0x00];
    let (address, _) = AddressView::read(&digits)?;
    are_seen(&rt, address.symbols(), false);
    is(&rt, "octets", AddressView::length_in(&digits), 5);
    let name: [u8; 5] = [0x04, 0xD0, 0xE8, 0x34, 0x00];
    let (address, _) = AddressView::read(&name)?;
    are_seen(&rt, address.symbols(), true);
    is(&rt, "octets", AddressView::length_in(&name), 4);
    Ok(())
}
