//! Addresses of the relay layer, seen in a message's octets (3GPP TS 24.011, 8.2.5.1 and 8.2.5.2).

ghost use Rattle.std.specs.Prelude.{◌≡◌, ◌≤◌, ◌*◌, ◌/◌, ◌%◌, length, MatchResult, IsOk, IfOk, IfErr, None};
ghost use Rattle.sms_field.specs.Field.{octet_by};
ghost use Rattle.sms_field.specs.Reading.Answer.{Sees, SeesAs};
ghost use Rattle.sms_field.specs.Reading.{Reads};
ghost use Rattle.sms_field.specs.Reading.WholeAnswer.{IsFaultOf, SeesExactly};
ghost use Rattle.sms_field.specs.Reading.Lies.{TakesOctets};
ghost use Rattle.sms_field.specs.RelayAddress.{last_digits, relay_digits, relay_address};
ghost use Rattle.sms_field.specs.Address.DigitValues.{AreDigits};
ghost use Rattle.sms_field.specs.Inside.RelayAddressSeen.{last_digits_in, relay_count, relay_digits_in, relay_address_in};
ghost use Rattle.sms_field.specs.declared.fault.FieldFault.TheVariants.{Short};

use crate::cursor::Cursor;
use crate::digits::{DIGITS_MAX, both_digits_of};
use crate::fault::{AddressFault, FieldFault};
use crate::refusal::Fault;
use crate::relay_address::RpAddress;
use crate::symbols_view::DigitsView;
use std::alloc::{AllocError, Global};
use std::marker::Model;

/// The greatest Length of an address of the relay layer: as many octets follow it at most (3GPP TS
/// 24.011, 8.2.5.1 and 8.2.5.2).
pub const RP_LENGTH_MAX: u8 = 11;

/// An address of the relay layer that lies in the octets of a message. Contracts see it as the
/// address.
#[derive(Drop)]
pub struct RpAddressView<'a> {
    type_of_number: u8,
    plan: u8,
    /// The digits, at most `DIGITS_MAX`.
    count: u8,
    octets: &'a [u8],
}

impl<'a> Model for RpAddressView<'a> {
    ghost use Rattle.sms_field.specs.RelayAddress.Value.{RelayAddressValue};
    ghost use Rattle.sms_field.specs.Inside.RelayAddressSeen.{relay_address_in, IsRelayAddressIn};

    ghost Value = { RelayAddressValue };

    ghost view = { λ a. relay_address_in a.type_of_number a.plan a.count a.octets.now };

    ghost invariant = { λ a. IsRelayAddressIn a.type_of_number a.plan a.count a.octets.now };
}

/// The octet, where it can be the last one of digits.
fn last_octet(octet: u8) -> Result<u8, FieldFault>
    ensures { MatchResult result (λ last. last_digits octet ≡ Ok (last_digits_in last))
        (λ why. last_digits octet ≡ Err why) }
{
    if octet % 16 < 15 {
        Ok(octet)
    } else {
        Err(FieldFault::Address(AddressFault::BadDigit))
    }
}

/// The last octet of the digits.
fn last_octet_at(input: &mut Cursor) -> Result<u8, Fault<FieldFault>>
    ensures { SeesAs last_digits_in (octet_by Short last_digits) input.old result input.new }
{
    input.take_octet_by(last_octet)
}

/// The octets of digits, as many as are counted.
fn relay_digits_seen_at<'a>(
    input: &mut Cursor<'a>,
    count: u8,
) -> Result<&'a [u8], Fault<FieldFault>>
    ensures read { SeesAs (λ octets. relay_digits_in octets.now)
        (relay_digits count) input.old result input.new }
    ensures whole { IfOk result (λ octets. length octets.now ≡ count) }
{
    let octets = input.rest();
    for _ in 0..count.saturating_sub(1) {
        input.take_octet_by(both_digits_of)?;
    }
    if count > 0 {
        last_octet_at(input)?;
    }
    Ok(&octets[..count as usize])
}

/// How many digits are in octets.
fn digit_count(octets: &[u8]) -> u8
    requires { 2 * length octets.now ≤ DIGITS_MAX }
    ensures { result ≡ relay_count octets.now }
{
    let most = 2 * octets.len() as u8;
    if !octets.is_empty() && octets[octets.len() - 1] / 16 == 15 {
        most - 1
    } else {
        most
    }
}

/// The address of a type octet and of digits.
fn address_seen<'a>(address_type: u8, octets: &'a [u8]) -> RpAddressView<'a>
    requires few { 2 * length octets.now ≤ DIGITS_MAX }
    requires digits { AreDigits (relay_digits_in octets.now) }
    ensures { result ≡ relay_address_in (address_type / 16 % 8) (address_type % 16)
        (relay_count octets.now) octets.now }
{
    RpAddressView {
        type_of_number: address_type / 16 % 8,
        plan: address_type % 16,
        count: digit_count(octets),
        octets,
    }
}

impl<'a> RpAddressView<'a> {
    /// Sees an address, or none where the length octet is 0, at the front of the octets, and says
    /// how many octets it takes.
    pub fn read(input: &'a [u8]) -> Result<(Option<RpAddressView<'a>>, usize), Fault<FieldFault>>
        ensures found { IfOk result (λ x. Reads relay_address x.0 input.now x.1) }
        ensures refused { IfErr result (IsFaultOf relay_address Short input.now) }
        ensures exact { SeesExactly (λ view. view) relay_address input.now result }
    {
        let mut cursor = Cursor::new(input);
        let address = RpAddressView::read_at(&mut cursor)?;
        Ok((address, cursor.place()))
    }

    /// How many octets the address, or none, at the front of these takes: its length octet and as
    /// many as that says. Not looked at is whether it can be read.
    pub fn length_in(input: &[u8]) -> usize
        ensures { TakesOctets relay_address input.now result }
    {
        match input {
            [count, ..] => 1 + usize::from(*count),
            [] => 0,
        }
    }

    /// Sees an address, or none, at a cursor.
    #[tactic(auto, unfolding(crate::specs::RelayAddress::relay_address, crate::specs::RelayAddress::relay_part))]
    pub fn read_at(input: &mut Cursor<'a>) -> Result<Option<RpAddressView<'a>>, Fault<FieldFault>>
        ensures { Sees relay_address input.old result input.new }
    {
        let count = input.take_octet_up_to(
            RP_LENGTH_MAX,
            FieldFault::Address(AddressFault::AddressTooLong),
        )?;
        if count == 0 {
            return Ok(None);
        }
        let address_type = input.take_octet()?;
        let octets = relay_digits_seen_at(input, count - 1)?;
        Ok(Some(address_seen(address_type, octets)))
    }

    /// Type of number: 0 to 7; 1 is international.
    pub fn type_of_number(&self) -> u8
        ensures { result ≡ self.now.kind }
    {
        self.type_of_number
    }

    /// Numbering plan identification: 0 to 15; 1 is that of telephones.
    pub fn plan(&self) -> u8
        ensures { result ≡ self.now.plan }
    {
        self.plan
    }

    /// Number digits, where they lie.
    pub fn digits(&self) -> DigitsView<'a>
        ensures { result ≡ self.now.digits }
    {
        DigitsView::new(self.count, self.octets)
    }

    /// The address itself. It takes no memory.
    pub fn to_value(&self, _alloc: Global) -> Result<RpAddress, AllocError>
        ensures value { IfOk result (λ address. address ≡ self.now) }
        ensures succeeds { IsOk result }
    {
        Ok(RpAddress {
            type_of_number: self.type_of_number,
            plan: self.plan,
            digits: self.digits().to_value(),
        })
    }

    /// The address itself, where there is one.
    pub fn some_to_value(
        alloc: Global,
        view: &Option<RpAddressView<'_>>,
    ) -> Result<Option<RpAddress>, AllocError>
        ensures value { IfOk result (λ address. address ≡ view.now) }
        ensures succeeds { IsOk result }
    {
        match view {
            Some(view) => Ok(Some(view.to_value(alloc)?)),
            None => Ok(None),
        }
    }
}
