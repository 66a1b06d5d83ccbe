//! Parties and service centres, as they are printed.

ghost use Rattle.std.specs.Prelude.{◌≡◌};

use sms_answer::{Line, Members, Printed};
use sms_field::{Address, AddressView, RpAddressView};
use sms_told::AddressText;
use std::alloc::Global;

/// The text of an address; in JSON also what kind of number it is.
#[derive(Clone, Copy)]
pub struct Party<'a> {
    text: &'a str,
    numbering: Numbering,
}

impl<'a> Party<'a> {
    pub fn new(text: &'a str, numbering: Numbering) -> Party<'a> {
        Party { text, numbering }
    }
}

impl Printed for Party<'_> {
    fn plain(&self, line: &mut Line) {
        line.put_escaped(self.text);
    }

    fn json(&self, members: &mut Members) {
        members.open();
        members.text_named("text", self.text);
        members.number_named("type", u64::from(self.numbering.type_of_number));
        members.number_named("plan", u64::from(self.numbering.plan));
        members.close();
    }
}

/// Adds an address to JSON: its text, and what kind of number it is. Where there is no memory for
/// its text, nothing more is written.
pub fn put_address(alloc: Global, members: &mut Members, address: &Address)
    ensures { members.new ≡ members.old }
{
    match AddressText::of(alloc, address) {
        Ok(text) => Party::new(text.as_str(), Numbering::of(address)).json(members),
        Err(_) => members.cut(),
    }
}

/// No address: `none`, and null in JSON.
#[derive(Clone, Copy)]
pub struct Nobody;

impl Printed for Nobody {
    fn plain(&self, line: &mut Line) {
        line.put_few(b"none");
    }

    fn json(&self, members: &mut Members) {
        members.nothing();
    }
}

/// What kind of number an address holds: its type and its plan.
#[derive(Clone, Copy)]
pub struct Numbering {
    type_of_number: u8,
    plan: u8,
}

impl Numbering {
    pub fn of(address: &Address) -> Numbering {
        Numbering {
            type_of_number: address.type_of_number,
            plan: address.plan,
        }
    }

    pub fn seen(address: &AddressView<'_>) -> Numbering {
        Numbering {
            type_of_number: address.type_of_number(),
            plan: address.plan(),
        }
    }

    pub fn of_centre(address: &RpAddressView<'_>) -> Numbering {
        Numbering {
            type_of_number: address.type_of_number(),
            plan: address.plan(),
        }
    }
}

impl Printed for Numbering {
    fn plain(&self, line: &mut Line) {
        line.put_decimal(u64::from(self.type_of_number));
        line.put_one(b' ');
        line.put_decimal(u64::from(self.plan));
    }

    fn json(&self, members: &mut Members) {
        members.open();
        members.number_named("type", u64::from(self.type_of_number));
        members.number_named("plan", u64::from(self.plan));
        members.close();
    }
}
