//! Addresses of the transfer layer (3GPP TS 23.040, 9.1.2.5).

ghost use Rattle.std.specs.Prelude.{◌≡◌, ◌≢◌, ◌++◌, Err, IsOk, IfOk, IfErr, OnOk, OnErr};
ghost use Rattle.sms_field.specs.Field.{IsLawful, IsSelfContained};
ghost use Rattle.sms_field.specs.Address.Value.{HasSpelling};
ghost use Rattle.sms_field.specs.Address.{address, address_octets};
ghost use Rattle.sms_field.specs.Reading.Written.{AreAtMost, AreOctetsOf, AreReadBack};
ghost use Rattle.sms_field.specs.declared.fault.FieldFault.TheVariants.{Short};
ghost use Rattle.sms_field.specs.Reading.{Reads, IsRefused};
ghost use Rattle.sms_field.specs.Reading.Answer.{Takes};
ghost use Rattle.sms_field.specs.Reading.WholeAnswer.{ReadsExactly};
ghost use Rattle.sms_field.specs.Address.Same.{same_address};

use crate::address_view::AddressView;
use crate::cursor::Cursor;
use crate::digits::put_telephone;
use crate::fault::FieldFault;
use crate::name::put_name;
use crate::refusal::Refusal;
use crate::symbols::Symbols;
use std::alloc::{AllocError, Global};
use std::marker::Model;

/// An address with up to 20 digits, or with a name where the type of number is 5.
#[derive(Debug, PartialEq, Eq, Hash, Drop)]
pub struct Address {
    /// Type-of-number: 0 to 7; 1 is international, 5 alphanumeric.
    pub type_of_number: u8,
    /// Numbering-plan-identification: 0 to 15; 1 is that of telephones.
    pub plan: u8,
    /// Address-Value: digits, or a name.
    pub symbols: Symbols,
}

impl Model for Address {
    ghost use Rattle.sms_field.specs.Address.Value.{AddressValue, HasSpelling};

    ghost Value = { AddressValue };

    ghost view = { λ a. record { kind = a.type_of_number; plan = a.plan; symbols = a.symbols } };

    ghost inverse = { λ v. record { type_of_number = v.kind; plan = v.plan; symbols = v.symbols } };

    ghost invariant = { λ a. HasSpelling (record {
      kind = a.type_of_number;
      plan = a.plan;
      symbols = a.symbols;
    }) };
}

/// The most octets of an address, with its length octet (3GPP TS 23.040, 9.1.2.5; 3GPP TS 24.011,
/// 8.2.5.1 and 8.2.5.2).
pub const ADDRESS_MAX: usize = 12;

/// The type of number of names.
pub(crate) const ALPHANUMERIC: u8 = 5;

/// Does nothing: its contract says that an address is a lawful field that does not look at what
/// follows it, and that it is written in at most 12 octets, which are read back.
#[tactic(auto, using(crate::proofs::AddressRules::address_rules))]
pub fn address_laws()
    ensures self_contained { IsSelfContained address }
    ensures few { AreAtMost ADDRESS_MAX HasSpelling address_octets }
    ensures octets { AreOctetsOf HasSpelling address_octets }
    ensures lawful { IsLawful Short address }
    ensures read_back { AreReadBack address HasSpelling address_octets }
{}

impl Address {
    /// The same address. It takes no memory.
    pub fn copy(&self, _alloc: Global) -> Result<Address, AllocError>
        ensures copy { IfOk result (λ copy. copy ≡ self.now) }
        ensures succeeds { IsOk result }
    {
        Ok(Address {
            type_of_number: self.type_of_number,
            plan: self.plan,
            symbols: self.symbols.copy(),
        })
    }

    /// Whether two addresses are the same: of one type of number and numbering plan, and with the
    /// same digits or name.
    #[tactic(auto, unfolding(crate::specs::Address::Same::same_address))]
    pub fn is_same(&self, other: &Address) -> bool
        ensures { result ≡ same_address self.now other.now }
    {
        self == other
    }

    /// The octets of the address: how many semi-octets there are, the type octet with bit 7 set,
    /// and the symbols.
    pub fn write(&self, alloc: Global) -> Result<Vec<u8>, AllocError>
        ensures { IfOk result (λ octets. octets.items ≡ address_octets self.now) }
    {
        let mut octets = Vec::with_capacity(alloc, ADDRESS_MAX)?;
        self.write_to(&mut octets)?;
        Ok(octets)
    }

    /// Adds the octets of the address; none where memory runs out.
    #[tactic(auto, unfolding(crate::specs::Address::address_octets))]
    pub fn write_to(&self, out: &mut Vec<u8>) -> Result<(), AllocError>
        ensures ok { OnOk result (out.new.items ≡ out.old.items ++ address_octets self.now) }
        ensures err { OnErr result (out.new.items ≡ out.old.items) }
    {
        let length = self.symbols.length();
        let kind = 128 + 16 * self.type_of_number + self.plan;
        match &self.symbols {
            Symbols::Digits(digits) => put_telephone(out, length, kind, digits.as_slice()),
            Symbols::Name(name) => put_name(out, length, kind, name),
        }
    }

    /// Reads an address at the front of the octets, and says how many it takes. It takes no memory.
    pub fn read(alloc: Global, input: &[u8]) -> Result<(Address, usize), Refusal<FieldFault>>
        ensures found { IfOk result (λ x. Reads address x.0 input.now x.1) }
        ensures refused { IfErr result (IsRefused address Short input.now) }
        ensures exact { ReadsExactly address input.now result }
        ensures memory { result ≢ Err Refusal.Memory }
    {
        let (view, used) = AddressView::read(input)?;
        Ok((view.to_value(alloc)?, used))
    }

    /// Reads an address at a cursor.
    pub fn read_at(alloc: Global, input: &mut Cursor) -> Result<Address, Refusal<FieldFault>>
        ensures { Takes address input.old result input.new }
    {
        let view = AddressView::read_at(input)?;
        Ok(view.to_value(alloc)?)
    }
}
