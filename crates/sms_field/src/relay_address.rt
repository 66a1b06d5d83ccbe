//! Addresses of the relay layer (3GPP TS 24.011, 8.2.5.1 and 8.2.5.2).

ghost use Rattle.std.specs.Prelude.{◌≡◌, ◌≢◌, ◌<◌, ◌++◌, Err, IsOk, IfOk, IfErr, OnOk, OnErr};
ghost use Rattle.std.specs.Str.{chars};
ghost use Rattle.std.specs.String.{string_bytes};
ghost use Rattle.sms_field.specs.Field.{IsLawful, IsSelfContained};
ghost use Rattle.sms_field.specs.RelayAddress.Value.{HasOptionalSpelling};
ghost use Rattle.sms_field.specs.RelayAddress.{relay_address, relay_address_octets, optional_address_octets};
ghost use Rattle.sms_field.specs.Address.DigitText.{digits_of_text};
ghost use Rattle.sms_field.specs.Address.Text.{few_digits};
ghost use Rattle.sms_field.specs.RelayAddress.Text.{relay_address_text, relay_telephone_of, relay_address_of_text};
ghost use Rattle.sms_field.specs.Reading.Written.{AreAtMost, AreOctetsOf, AreReadBack};
ghost use Rattle.sms_field.specs.declared.fault.FieldFault.TheVariants.{Short};
ghost use Rattle.sms_field.specs.Address.Faults.{Gives};
ghost use Rattle.sms_field.specs.Reading.{Reads, IsRefused};
ghost use Rattle.sms_field.specs.Reading.WholeAnswer.{ReadsExactly};
ghost use Rattle.std.specs.Prelude.{nat_eq, ◌&&◌};
ghost use Rattle.std.specs.Cmp.Lexicographic.{pointwise};
ghost use Rattle.std.specs.Cmp.Rules.{comparing, hashing};
ghost use Rattle.std.specs.Hash as fed;
ghost use Rattle.std.proofs.Common.{rules};
ghost use Rattle.sms_field.specs.Reading.Answer.{Takes};

use crate::address::ADDRESS_MAX;
use crate::address_text::{digits_of_telephone, international, text_of_telephone};
use crate::cursor::Cursor;
use crate::digits::{Digits, put_telephone};
use crate::fault::{FieldFault, TextFault};
use crate::refusal::Refusal;
use crate::relay_address_view::RpAddressView;
use std::alloc::{AllocError, Global};
use std::hash::{Hash, Hasher};
use std::marker::Model;

/// An address of the relay layer: up to 20 digits, whatever the type of number is.
#[derive(Debug, Drop)]
pub struct RpAddress {
    /// Type of number: 0 to 7; 1 is international.
    pub type_of_number: u8,
    /// Numbering plan identification: 0 to 15; 1 is that of telephones.
    pub plan: u8,
    /// Number digits.
    pub digits: Digits,
}

impl Model for RpAddress {
    ghost use Rattle.sms_field.specs.RelayAddress.Value.{RelayAddressValue, HasRelaySpelling};

    ghost Value = { RelayAddressValue };

    ghost view = { λ a. record { kind = a.type_of_number; plan = a.plan; digits = a.digits } };

    ghost inverse = { λ v. record { type_of_number = v.kind; plan = v.plan; digits = v.digits } };

    ghost invariant = { λ a. HasRelaySpelling (record {
      kind = a.type_of_number;
      plan = a.plan;
      digits = a.digits;
    }) };
}

impl PartialEq for RpAddress {
    ghost eq = { λ a b.
        nat_eq a.kind b.kind && (nat_eq a.plan b.plan && pointwise nat_eq a.digits b.digits) };

    ghost laws = { Prim.search (comparing, rules) };

    fn eq(&self, other: &RpAddress) -> bool {
        self.type_of_number == other.type_of_number
            && self.plan == other.plan
            && self.digits == other.digits
    }
}

impl Eq for RpAddress {
    ghost laws = { Prim.search (comparing, rules) };
}

impl Hash for RpAddress {
    ghost hash_input = { λ a. fed.u8 a.kind ++ (fed.u8 a.plan ++ fed.slice fed.u8 a.digits) };

    ghost respects_eq = { Prim.search (hashing, rules) };

    fn hash<H: Hasher>(&self, state: &mut H) {
        self.type_of_number.hash(state);
        self.plan.hash(state);
        self.digits.hash(state);
    }
}

/// A telephone number, of the digits of a text.
fn telephone(alloc: Global, type_of_number: u8, text: &str) -> Result<RpAddress, TextFault>
    requires { type_of_number < 2 }
    ensures gives { Gives result
        (relay_telephone_of type_of_number (few_digits (digits_of_text (chars text.now)))) }
    ensures memory { result ≢ Err TextFault.Memory }
{
    let digits = digits_of_telephone(alloc, text)?;
    Ok(RpAddress {
        type_of_number,
        plan: 1,
        digits,
    })
}

/// Does nothing: its contract says that a relay address, or none, is a lawful field that does not
/// look at what follows it, and that it is written in at most 12 octets, which are read back.
#[tactic(auto, using(crate::proofs::AddressRules::relay_address_rules))]
pub fn relay_address_laws()
    ensures self_contained { IsSelfContained relay_address }
    ensures few { AreAtMost ADDRESS_MAX HasOptionalSpelling optional_address_octets }
    ensures octets { AreOctetsOf HasOptionalSpelling optional_address_octets }
    ensures lawful { IsLawful Short relay_address }
    ensures read_back { AreReadBack relay_address HasOptionalSpelling optional_address_octets }
{}

impl RpAddress {
    /// The telephone number that a text says, in plan 1: `+` and digits are of type 1, digits alone
    /// of type 0. Digits are `0` to `9`, `*`, `#`, `a`, `b` and `c`. A bad digit is found before
    /// too many. It takes no memory.
    pub fn from_text(alloc: Global, text: &str) -> Result<RpAddress, TextFault>
        ensures gives { Gives result (relay_address_of_text (chars text.now)) }
        ensures memory { result ≢ Err TextFault.Memory }
    {
        match international(text) {
            Some(digits) => telephone(alloc, 1, digits),
            None => telephone(alloc, 0, text),
        }
    }

    /// The text of the address: its digits, after a `+` where the type of number is 1.
    #[tactic(auto, unfolding(crate::specs::RelayAddress::Text::relay_address_text))]
    pub fn to_text(&self, alloc: Global) -> Result<String, AllocError>
        ensures { IfOk result (λ text. chars (string_bytes text) ≡ relay_address_text self.now) }
    {
        text_of_telephone(alloc, self.type_of_number, &self.digits)
    }

    /// The same address. It takes no memory.
    pub fn copy(&self, _alloc: Global) -> Result<RpAddress, AllocError>
        ensures copy { IfOk result (λ copy. copy ≡ self.now) }
        ensures succeeds { IsOk result }
    {
        Ok(RpAddress {
            type_of_number: self.type_of_number,
            plan: self.plan,
            digits: self.digits.copy(),
        })
    }

    /// The octets of the address: how many octets follow, the type octet with bit 7 set, and the
    /// digits.
    pub fn write(&self, alloc: Global) -> Result<Vec<u8>, AllocError>
        ensures { IfOk result (λ octets. octets.items ≡ relay_address_octets self.now) }
    {
        let mut octets = Vec::with_capacity(alloc, ADDRESS_MAX)?;
        self.write_to(&mut octets)?;
        Ok(octets)
    }

    /// Adds the octets of the address; none where memory runs out.
    #[tactic(auto, unfolding(crate::specs::RelayAddress::relay_address_octets))]
    pub fn write_to(&self, out: &mut Vec<u8>) -> Result<(), AllocError>
        ensures ok { OnOk result
            (out.new.items ≡ out.old.items ++ relay_address_octets self.now) }
        ensures err { OnErr result (out.new.items ≡ out.old.items) }
    {
        let digits = self.digits.as_slice();
        let length = (digits.len() as u8).div_ceil(2) + 1;
        let kind = 128 + 16 * self.type_of_number + self.plan;
        put_telephone(out, length, kind, digits)
    }

    /// Reads an address, or none where the length octet is 0, at the front of the octets, and says
    /// how many octets it takes. It takes no memory.
    pub fn read(
        alloc: Global,
        input: &[u8],
    ) -> Result<(Option<RpAddress>, usize), Refusal<FieldFault>>
        ensures found { IfOk result (λ x. Reads relay_address x.0 input.now x.1) }
        ensures refused { IfErr result (IsRefused relay_address Short input.now) }
        ensures exact { ReadsExactly relay_address input.now result }
        ensures memory { result ≢ Err Refusal.Memory }
    {
        let (view, used) = RpAddressView::read(input)?;
        Ok((RpAddressView::some_to_value(alloc, &view)?, used))
    }

    /// Reads an address, or none, at a cursor.
    pub fn read_at(
        alloc: Global,
        input: &mut Cursor,
    ) -> Result<Option<RpAddress>, Refusal<FieldFault>>
        ensures { Takes relay_address input.old result input.new }
    {
        let view = RpAddressView::read_at(input)?;
        Ok(RpAddressView::some_to_value(alloc, &view)?)
    }
}
