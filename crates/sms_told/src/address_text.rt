//! The texts of addresses.

ghost use Rattle.std.specs.Prelude.{◌≡◌, ◌≢◌, ℕ, List, IfOk, OnErr};
ghost use Rattle.std.specs.Str.{chars};
ghost use Rattle.std.specs.String.{string_bytes};
ghost use Rattle.sms_text.specs.TextOfSeptets.{text_of_septets};
ghost use Rattle.sms_field.specs.declared.symbols.Symbols.TheVariants.{Digits};
ghost use Rattle.sms_told.specs.Parties.{octets_in, party_octets};

use crate::telephone::Telephone;
use sms_field::{Address, AddressView, NameView, Symbols, SymbolsView};
use sms_text::{text_of_gsm, text_of_packed};
use std::alloc::{AllocError, Global};

/// The text of an address. A telephone number takes no memory.
#[derive(Drop)]
pub enum AddressText {
    /// Digits, after a `+` where they are international.
    Telephone(Telephone),
    /// A name.
    Name(String),
}

/// The text of a name that lies in octets.
fn name_seen(alloc: Global, name: &NameView<'_>) -> Result<String, AllocError>
    ensures { IfOk result (λ text. chars (string_bytes text) ≡ text_of_septets name.now) }
{
    let count = usize::from(name.count());
    match text_of_packed(alloc, name.packed(), 0, count)? {
        Some(text) => Ok(text),
        None => unreachable!(),
    }
}

impl AddressText {
    /// That of an address: its name, or its digits, after a `+` where the type of number is 1.
    pub fn of(alloc: Global, address: &Address) -> Result<AddressText, AllocError>
        ensures text { IfOk result (λ text. octets_in text ≡ party_octets address.now) }
        ensures memory { OnErr result ((digits : List ℕ) → address.now.symbols ≢ Digits digits) }
    {
        match &address.symbols {
            Symbols::Digits(digits) => Ok(AddressText::Telephone(Telephone::of(
                address.type_of_number,
                digits.as_slice(),
            ))),
            Symbols::Name(name) => Ok(AddressText::Name(text_of_gsm(alloc, name.as_slice())?)),
        }
    }

    /// That of an address that lies in octets.
    pub fn seen(alloc: Global, address: &AddressView<'_>) -> Result<AddressText, AllocError>
        ensures text { IfOk result (λ text. octets_in text ≡ party_octets address.now) }
        ensures memory { OnErr result ((digits : List ℕ) → address.now.symbols ≢ Digits digits) }
    {
        match address.symbols() {
            SymbolsView::Digits(digits) => {
                let telephone = Telephone::seen(address.type_of_number(), &digits);
                Ok(AddressText::Telephone(telephone))
            }
            SymbolsView::Name(name) => Ok(AddressText::Name(name_seen(alloc, &name)?)),
        }
    }

    /// The octets of the text.
    pub fn as_bytes(&self) -> &[u8]
        ensures { result.now ≡ octets_in self.now }
    {
        match self {
            AddressText::Telephone(telephone) => telephone.as_bytes(),
            AddressText::Name(text) => text.as_bytes(),
        }
    }

    /// The text.
    pub fn as_str(&self) -> &str
        ensures { result.now ≡ octets_in self.now }
    {
        match self {
            AddressText::Telephone(telephone) => telephone.as_str(),
            AddressText::Name(text) => text.as_str(),
        }
    }
}
