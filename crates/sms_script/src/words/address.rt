//! Addresses in a script.

ghost use Rattle.std.specs.Prelude.{◌≡◌};
ghost use Rattle.std.specs.Str.{chars};
ghost use Rattle.sms_field.specs.Address.Text.{IsNoNumber};
ghost use Rattle.sms_script.specs.Reasons.{Gives};
ghost use Rattle.sms_script.specs.Words.Addresses.{address, can_be_phone};

use crate::fault::{MeaningFault, ScriptFault};
use sms_field::{Address, Symbols, TextFault};
use std::alloc::Global;

/// The address of which a word is the text. Memory runs out for a name alone.
pub fn address_of(alloc: Global, word: &str) -> Result<Address, MeaningFault>
    ensures { Gives (λ _. IsNoNumber (chars word.now)) (λ a. a) result (address word.now) }
{
    match Address::from_text(alloc, word) {
        Ok(address) => Ok(address),
        Err(TextFault::Memory) => Err(MeaningFault::Memory),
        Err(TextFault::Address(_)) => Err(MeaningFault::Script(ScriptFault::BadAddress)),
    }
}

/// Whether an address may be that of a phone: of type 0 or 1, and with a digit.
pub fn can_be_phone(address: &Address) -> bool
    ensures { result ≡ can_be_phone address.now }
{
    match &address.symbols {
        Symbols::Digits(digits) => address.type_of_number < 2 && !digits.as_slice().is_empty(),
        Symbols::Name(_) => false,
    }
}
