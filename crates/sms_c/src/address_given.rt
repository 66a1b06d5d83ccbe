//! The address that a text of C says.

ghost use Rattle.std.specs.Prelude.{◌≡◌, Ok, IfErr, MatchResult};
ghost use Rattle.std.specs.Str.{chars};
ghost use Rattle.sms_field.specs.Address.Text.{address_of_text};
ghost use Rattle.sms_c.specs.AddressGiven as given;
ghost use Rattle.sms_c.specs.AddressGiven.{address_or};
ghost use Rattle.sms_c.specs.Answered.{Fails};
ghost use Rattle.sms_c.specs.Status.{IsNotRoom};

use crate::status::Failure;
use crate::telephone::telephone_given;
use sms_field::{Address, TextFault};
use std::alloc::Global;

/// The address that a text says.
fn address_said(alloc: Global, text: &str) -> Result<Address, Failure>
    ensures said { MatchResult result
        (λ address. address_or (address_of_text (chars text.now)) ≡ Ok address)
        (λ why. Fails (address_or (address_of_text (chars text.now))) why) }
    ensures room { IfErr result IsNotRoom }
{
    match Address::from_text(alloc, text) {
        Ok(address) => Ok(address),
        Err(TextFault::Memory) => Err(Failure::Memory),
        Err(TextFault::Address(_)) => Err(Failure::BadAddress),
    }
}

/// The address that a text in UTF-8 says, be it a number or a name.
fn any_address_given(alloc: Global, text: &[u8]) -> Result<Address, Failure>
    ensures given { MatchResult result (λ address. given.address_given text.now ≡ Ok address)
        (λ why. Fails (given.address_given text.now) why) }
    ensures room { IfErr result IsNotRoom }
{
    match str::from_utf8(text) {
        Ok(text) => address_said(alloc, text),
        Err(_) => Err(Failure::NotUtf8),
    }
}

/// The address that a text in UTF-8 says.
pub fn address_given(alloc: Global, text: &[u8]) -> Result<Address, Failure>
    ensures given { MatchResult result (λ address. given.address_given text.now ≡ Ok address)
        (λ why. Fails (given.address_given text.now) why) }
    ensures room { IfErr result IsNotRoom }
{
    match telephone_given(text) {
        Some(address) => Ok(address),
        None => any_address_given(alloc, text),
    }
}
