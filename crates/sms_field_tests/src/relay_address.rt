//! Addresses of the relay layer that are read, written, and told in texts.

mod rows;

use crate::found::is;
use rows::{BAD, REFUSED, SPELLED, Spelled};
use sms_field::{AddressFault, FieldFault, Refusal, RpAddress, RpAddressView, TextFault};
use std::alloc::Global;
use std::process::Abort;
use std::test::Fail;

/// The address has these octets.
fn has_octets(
    rt: &impl Abort,
    alloc: Global,
    address: &RpAddress,
    row: &Spelled,
) -> Result<(), Fail> {
    let written = address.write(alloc)?;
    is(rt, row.text, written.as_slice(), row.octets);
    Ok(())
}

/// The address has this text.
fn has_text(
    rt: &impl Abort,
    alloc: Global,
    address: &RpAddress,
    octets: &[u8],
    text: &str,
) -> Result<(), Fail> {
    let again = address.to_text(alloc)?;
    is(rt, octets, again.as_str(), text);
    Ok(())
}

/// Whether two addresses are one.
fn are_one(found: Option<&RpAddress>, address: &RpAddress) -> bool {
    match found {
        Some(found) => found == address,
        None => false,
    }
}

/// The octets of a row are read as this address.
fn is_read(rt: &impl Abort, alloc: Global, address: &RpAddress, row: &Spelled) -> Result<(), Fail> {
    let (read, used) = RpAddress::read(alloc, row.octets)?;
    is(rt, row.octets, used, row.octets.len());
    is(rt, row.text, are_one(read.as_ref(), address), true);
    Ok(())
}

/// A text is the address of its octets, and is its text again, and they are read as it.
fn spells(rt: &impl Abort, alloc: Global, row: &Spelled) -> Result<(), Fail> {
    let address = RpAddress::from_text(alloc, row.text)?;
    has_octets(rt, alloc, &address, row)?;
    has_text(rt, alloc, &address, row.octets, row.text)?;
    is_read(rt, alloc, &address, row)
}

/// Whether a text is refused for this reason.
fn is_refused(alloc: Global, text: &str, fault: AddressFault) -> bool {
    match RpAddress::from_text(alloc, text) {
        Ok(_) => false,
        Err(why) => why == TextFault::Address(fault),
    }
}

#[test]
fn relay_addresses_from_texts(rt: HostRuntime) -> Result<(), Fail> {
    for row in SPELLED.as_slice() {
        spells(&rt, rt.alloc(), row)?;
    }
    Ok(())
}

#[test]
fn texts_without_relay_addresses(rt: HostRuntime) {
    for row in BAD.as_slice() {
        let refused = is_refused(rt.alloc(), row.text, row.fault);
        is(&rt, row.text, refused, true);
    }
}

/// Whether octets are refused at this place for this reason.
fn is_no_address(alloc: Global, octets: &[u8], place: usize, why: FieldFault) -> bool {
    match RpAddress::read(alloc, octets) {
        Ok(_) => false,
        Err(refusal) => refusal == Refusal::At { place, why },
    }
}

#[test]
fn relay_addresses_refused(rt: HostRuntime) {
    for row in REFUSED.as_slice() {
        let refused = is_no_address(rt.alloc(), row.octets, row.place, row.why);
        is(&rt, row.octets, refused, true);
    }
}

/// How many octets are used where none is an address.
fn used_by_none(alloc: Global, octets: &[u8]) -> Option<usize> {
    match RpAddress::read(alloc, octets) {
        Ok((None, used)) => Some(used),
        _ => None,
    }
}

/// A length of 0 is no address.
#[test]
fn no_relay_address_read(rt: HostRuntime) {
    is(&rt, "none", used_by_none(rt.alloc(), b"\x00\xFF"), Some(1));
}

const NAMED: &[u8] = b"\x03\x50\x21\xF3";

/// The address that octets have, all of them.
fn address_of(rt: &impl Abort, alloc: Global, octets: &[u8]) -> Result<RpAddress, Fail> {
    let (address, used) = RpAddress::read(alloc, octets)?;
    is(rt, octets, used, octets.len());
    match address {
        Some(address) => Ok(address),
        None => Err("an address".into()),
    }
}

/// An address has digits whatever its type, also that of names.
#[test]
fn relay_addresses_read(rt: HostRuntime) -> Result<(), Fail> {
    let address = address_of(&rt, rt.alloc(), NAMED)?;
    is(&rt, NAMED, address.type_of_number, 5);
    let copy = address.copy(rt.alloc())?;
    has_text(&rt, rt.alloc(), &copy, NAMED, "123")
}

/// A relay address that lies in octets has the digits 1 to 3.
fn are_three(rt: &impl Abort, address: Option<RpAddressView>) {
    match address {
        Some(address) => {
            is(rt, "count", address.digits().count(), 3);
            is(rt, "last", address.digits().digit(2), Some(3));
        }
        None => is(rt, "address", false, true),
    }
}

#[test]
fn a_relay_address_where_it_lies(rt: HostRuntime) -> Result<(), Fail> {
    let octets: [u8; 5] = [0x03, 0x91, 0x21, 0xF3, 0x00];
    let (address, _) = RpAddressView::read(&octets)?;
    are_three(&rt, address);
    is(&rt, "octets", RpAddressView::length_in(&octets), 4);
    Ok(())
}
