//! Addresses of the transfer layer, seen in a unit's octets (3GPP TS 23.040, 9.1.2.5).

ghost use Rattle.std.specs.Prelude.{◌≡◌, ◌≤◌, ◌==◌, ◌+◌, ◌/◌, length, IsOk, IfOk, IfErr};
ghost use Rattle.sms_field.specs.Address.Value.{AreSymbolsOf, HasSpelling};
ghost use Rattle.sms_field.specs.Address.{symbols_of, address};
ghost use Rattle.sms_field.specs.Inside.AddressSeen.{digits_in, symbols_seen};
ghost use Rattle.sms_field.specs.Reading.Answer.{Sees, SeesAs};
ghost use Rattle.sms_field.specs.Reading.{Reads};
ghost use Rattle.sms_field.specs.Reading.WholeAnswer.{IsFaultOf, SeesExactly};
ghost use Rattle.sms_field.specs.Reading.Lies.{TakesOctets};
ghost use Rattle.sms_field.specs.Address.Seen.{seen_symbols};
ghost use Rattle.sms_field.specs.declared.fault.FieldFault.TheVariants.{Short};
ghost use Rattle.sms_field.specs.Address.DigitOctets.{digits};

use crate::address::{ALPHANUMERIC, Address};
use crate::cursor::Cursor;
use crate::digits::{DIGITS_MAX, both_digits_of, low_digit_of};
use crate::fault::{AddressFault, FieldFault};
use crate::refusal::Fault;
use crate::symbols_view::{DigitsView, NameView, SymbolsView};
use std::alloc::{AllocError, Global};
use std::marker::Model;

/// An address that lies in the octets of a unit. Contracts see it as the address.
#[derive(Drop)]
pub struct AddressView<'a> {
    type_of_number: u8,
    plan: u8,
    /// The semi-octets that the symbols take, at most `DIGITS_MAX`.
    count: u8,
    octets: &'a [u8],
}

impl<'a> Model for AddressView<'a> {
    ghost use Rattle.sms_field.specs.Address.Value.{AddressValue};
    ghost use Rattle.sms_field.specs.Inside.AddressSeen.{address_in, IsAddressIn};

    ghost Value = { AddressValue };

    ghost view = { λ a. address_in a.type_of_number a.plan a.count a.octets.now };

    ghost invariant = { λ a. IsAddressIn a.type_of_number a.plan a.count a.octets.now };
}

/// The octets of digits, as many as are counted.
#[inline(always)]
fn digits_seen_at<'a>(input: &mut Cursor<'a>, count: u8) -> Result<&'a [u8], Fault<FieldFault>>
    ensures read { SeesAs (λ octets. digits_in count octets.now)
        (digits count) input.old result input.new }
    ensures whole { IfOk result (λ octets. length octets.now ≡ (count + 1) / 2) }
{
    let octets = input.rest();
    for _ in 0..count / 2 {
        input.take_octet_by(both_digits_of)?;
    }
    if count % 2 == 1 {
        input.take_octet_by(low_digit_of)?;
    }
    Ok(&octets[..count.div_ceil(2) as usize])
}

/// The octets of semi-octets, as many as are counted: of a name or of digits.
#[inline(always)]
#[tactic(auto, unfolding(crate::specs::Address::symbols_by, crate::specs::Address::NameOctets::name))]
fn symbols_seen_at<'a>(
    input: &mut Cursor<'a>,
    type_of_number: u8,
    count: u8,
) -> Result<&'a [u8], Fault<FieldFault>>
    requires { count ≤ DIGITS_MAX }
    ensures read { SeesAs (λ octets. symbols_seen type_of_number count octets.now)
        (symbols_of type_of_number count) input.old result input.new }
    ensures whole { IfOk result (λ octets. length octets.now ≡ (count + 1) / 2) }
    ensures fits { IfOk result (λ octets.
        AreSymbolsOf type_of_number (symbols_seen type_of_number count octets.now)) }
{
    if type_of_number == ALPHANUMERIC {
        let octets = input.take_octets(count.div_ceil(2) as usize)?;
        Ok(octets)
    } else {
        let octets = digits_seen_at(input, count)?;
        Ok(octets)
    }
}

impl<'a> AddressView<'a> {
    /// Sees an address at the front of the octets, and says how many it takes.
    pub fn read(input: &'a [u8]) -> Result<(AddressView<'a>, usize), Fault<FieldFault>>
        ensures found { IfOk result (λ x. Reads address x.0 input.now x.1) }
        ensures refused { IfErr result (IsFaultOf address Short input.now) }
        ensures exact { SeesExactly (λ view. view) address input.now result }
    {
        let mut cursor = Cursor::new(input);
        let address = AddressView::read_at(&mut cursor)?;
        Ok((address, cursor.place()))
    }

    /// How many octets the address at the front of these takes, with its length octet, of which it
    /// is 2 and one for each two semi-octets. Not looked at is whether it can be read.
    pub fn length_in(input: &[u8]) -> usize
        ensures { TakesOctets address input.now result }
    {
        match input {
            [count, ..] => 2 + usize::from(count.div_ceil(2)),
            [] => 0,
        }
    }

    /// Sees an address at a cursor.
    #[inline(always)]
    #[tactic(auto, unfolding(crate::specs::Address::address))]
    pub fn read_at(input: &mut Cursor<'a>) -> Result<AddressView<'a>, Fault<FieldFault>>
        ensures read { Sees address input.old result input.new }
        ensures fits { IfOk result HasSpelling }
    {
        let count = input.take_octet_up_to(
            DIGITS_MAX as u8,
            FieldFault::Address(AddressFault::AddressTooLong),
        )?;
        let address_type = input.take_octet()?;
        let type_of_number = address_type / 16 % 8;
        let octets = symbols_seen_at(input, type_of_number, count)?;
        Ok(AddressView {
            type_of_number,
            plan: address_type % 16,
            count,
            octets,
        })
    }

    /// Type-of-number: 0 to 7; 1 is international, 5 alphanumeric.
    pub fn type_of_number(&self) -> u8
        ensures { result ≡ self.now.kind }
    {
        self.type_of_number
    }

    /// Numbering-plan-identification: 0 to 15; 1 is that of telephones.
    pub fn plan(&self) -> u8
        ensures { result ≡ self.now.plan }
    {
        self.plan
    }

    /// Address-Value, where it lies: digits, or a name where the type of number is 5.
    pub fn symbols(&self) -> SymbolsView<'a>
        ensures { seen_symbols result ≡ self.now.symbols }
    {
        if self.type_of_number == ALPHANUMERIC {
            SymbolsView::Name(NameView::new(4 * self.count / 7, self.octets))
        } else {
            SymbolsView::Digits(DigitsView::new(self.count, self.octets))
        }
    }

    /// The address itself. It takes no memory.
    pub fn to_value(&self, _alloc: Global) -> Result<Address, AllocError>
        ensures value { IfOk result (λ address. address ≡ self.now) }
        ensures succeeds { IsOk result }
    {
        Ok(Address {
            type_of_number: self.type_of_number,
            plan: self.plan,
            symbols: self.symbols().to_value(),
        })
    }
}
