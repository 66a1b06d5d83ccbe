//! The text of an address.

ghost use Rattle.std.specs.Prelude.{◌≡◌, ◌≢◌, ◌<◌, ℕ, List, ◌∷◌, ◌++◌, Err, IfOk, MatchOption, None};
ghost use Rattle.std.specs.Str.{chars};
ghost use Rattle.std.specs.String.{string_bytes};
ghost use Rattle.sms_text.specs.SeptetsOfText.{septets_of_text};
ghost use Rattle.sms_field.specs.Address.DigitText.{digits_of_text, text_of_digits};
ghost use Rattle.sms_field.specs.Address.Text.{plus, prefix, address_text, few_digits, telephone as telephone_with, telephone_of, name_of, without_plus, address_of_text, IsNoNumber};
ghost use Rattle.sms_field.specs.Address.Faults.{Gives};

use crate::address::{ALPHANUMERIC, Address};
use crate::digits::{Digits, digits_of, push_digits};
use crate::fault::{AddressFault, TextFault};
use crate::name::{NAME_MAX, Name};
use crate::symbols::Symbols;
use sms_text::{gsm_of, text_of_gsm};
use std::alloc::{AllocError, Global};

/// What stands after a `+` at the front of a text.
pub fn international(text: &str) -> Option<&str>
    ensures { MatchOption result ((rest : List ℕ) → chars text.now ≢ plus ∷ rest)
        (λ rest. chars text.now ≡ plus ∷ chars rest.now) }
{
    text.strip_prefix('+')
}

/// The digits of a text, up to 20. They take no memory.
pub fn digits_of_telephone(_alloc: Global, text: &str) -> Result<Digits, TextFault>
    ensures gives { Gives result (few_digits (digits_of_text (chars text.now))) }
    ensures memory { result ≢ Err TextFault.Memory }
{
    match digits_of(text) {
        Ok(digits) => Ok(digits),
        Err(why) => Err(TextFault::Address(why)),
    }
}

/// The text of digits, after a `+` where the type of number is 1.
pub fn text_of_telephone(
    alloc: Global,
    type_of_number: u8,
    digits: &Digits,
) -> Result<String, AllocError>
    ensures { IfOk result (λ text.
        chars (string_bytes text) ≡ prefix type_of_number ++ text_of_digits digits.now) }
{
    let digits = digits.as_slice();
    let mut text = String::with_capacity(alloc, digits.len() + 1)?;
    if type_of_number == 1 {
        text.push('+')?;
    }
    push_digits(&mut text, digits)?;
    Ok(text)
}

/// A telephone number.
fn telephone(type_of_number: u8, digits: Digits) -> Address
    requires { type_of_number < 2 }
    ensures { result ≡ telephone_with type_of_number digits }
{
    Address {
        type_of_number,
        plan: 1,
        symbols: Symbols::Digits(digits),
    }
}

/// An international telephone number, of the digits of a text.
fn international_telephone(alloc: Global, text: &str) -> Result<Address, TextFault>
    ensures gives { Gives result (telephone_of 1 (few_digits (digits_of_text (chars text.now)))) }
    ensures memory { result ≢ Err TextFault.Memory }
{
    let digits = digits_of_telephone(alloc, text)?;
    Ok(telephone(1, digits))
}

/// A name.
fn name(alloc: Global, text: &str) -> Result<Address, TextFault>
    ensures { Gives result (name_of (septets_of_text (chars text.now))) }
{
    let Some(septets) = gsm_of(alloc, text)? else {
        return Err(TextFault::Address(AddressFault::BadDigit));
    };
    if septets.len() > NAME_MAX {
        return Err(TextFault::Address(AddressFault::AddressTooLong));
    }
    Ok(Address {
        type_of_number: ALPHANUMERIC,
        plan: 0,
        symbols: Symbols::Name(Name::new(septets.as_slice())),
    })
}

/// A telephone number of unknown type, or a name where the text has another character than digits.
fn telephone_or_name(alloc: Global, text: &str) -> Result<Address, TextFault>
    ensures gives { Gives result (without_plus (chars text.now)) }
    ensures memory { result ≡ Err TextFault.Memory → digits_of_text (chars text.now) ≡ None }
{
    match digits_of_telephone(alloc, text) {
        Ok(digits) => Ok(telephone(0, digits)),
        Err(TextFault::Address(AddressFault::BadDigit)) => name(alloc, text),
        Err(why) => Err(why),
    }
}

impl Address {
    /// The address that a text says: `+` and digits are a telephone number of type 1, digits alone
    /// one of type 0, both in plan 1; another text that does not begin with `+` is a name, of type
    /// 5 in plan 0. Digits are `0` to `9`, `*`, `#`, `a`, `b` and `c`. A bad character is found
    /// before too many. A name alone takes memory.
    pub fn from_text(alloc: Global, text: &str) -> Result<Address, TextFault>
        ensures gives { Gives result (address_of_text (chars text.now)) }
        ensures memory { result ≡ Err TextFault.Memory → IsNoNumber (chars text.now) }
    {
        match international(text) {
            Some(digits) => international_telephone(alloc, digits),
            None => telephone_or_name(alloc, text),
        }
    }

    /// The text of the address: its name, or its digits, after a `+` where the type of number is 1.
    #[tactic(auto, unfolding(crate::specs::Address::Text::address_text))]
    pub fn to_text(&self, alloc: Global) -> Result<String, AllocError>
        ensures { IfOk result (λ text. chars (string_bytes text) ≡ address_text self.now) }
    {
        match &self.symbols {
            Symbols::Digits(digits) => text_of_telephone(alloc, self.type_of_number, digits),
            Symbols::Name(name) => text_of_gsm(alloc, name.as_slice()),
        }
    }
}
