//! Addresses, as they are told.

ghost use Rattle.std.specs.Prelude.{◌≡◌};
ghost use Rattle.sms_page.specs.Page.{Puts};
ghost use Rattle.sms_page.specs.Object.{Writes};
ghost use Rattle.sms_told.specs.Parties.{octets_in, party_octets, party_line, party_object};

use crate::address_text::AddressText;
use sms_field::Address;
use sms_page::{Object, Page, put_line};
use std::marker::Model;

/// An address with its text, lent. Contracts see the address.
#[derive(Drop)]
pub(crate) struct Party<'a> {
    address: &'a Address,
    text: &'a AddressText,
}

impl<'a> Model for Party<'a> {
    ghost use Rattle.std.specs.Prelude.{◌≡◌};
    ghost use Rattle.sms_field.specs.Address.Value.{AddressValue};
    ghost use Rattle.sms_told.specs.Parties.{octets_in, party_octets};

    ghost Value = { AddressValue };

    ghost view = { λ p. p.address.now };

    ghost invariant = { λ p. octets_in p.text.now ≡ party_octets p.address.now };
}

impl<'a> Party<'a> {
    /// An address with its text.
    pub(crate) fn new(address: &'a Address, text: &'a AddressText) -> Party<'a>
        requires { octets_in text.now ≡ party_octets address.now }
        ensures { result ≡ address.now }
    {
        Party { address, text }
    }
}

/// Adds an address to a line.
pub(crate) fn put_party(page: &mut Page, party: &Party<'_>)
    ensures { Puts page.old page.new (party_line party.now) }
{
    put_line(page, party.text.as_bytes());
}

/// Adds an address to JSON: its text, its type of number and its plan.
pub(crate) fn put_party_object(object: &mut Object, party: &Party<'_>)
    ensures { Writes object.old object.new (party_object party.now) }
{
    let address = party.address;
    object.open();
    object.text_named("text", party.text.as_str());
    object.number_named("type", u64::from(address.type_of_number));
    object.number_named("plan", u64::from(address.plan));
    object.close();
}
