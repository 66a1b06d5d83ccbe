//! What stands in an address: digits or a name.

ghost use Rattle.std.specs.Prelude.{◌≡◌, IsOk, IfOk};
ghost use Rattle.sms_field.specs.Address.{symbols_length};

use crate::digits::Digits;
use crate::name::Name;

/// The digits of an address, or the name where its type of number is 5, alphanumeric.
#[derive(Debug, PartialEq, Eq, Hash, Drop)]
pub enum Symbols {
    Digits(Digits),
    Name(Name),
}

impl Symbols {
    /// How many semi-octets the symbols take.
    pub(crate) fn length(&self) -> u8
        ensures { result ≡ symbols_length self.now }
    {
        match self {
            Symbols::Digits(digits) => digits.as_slice().len() as u8,
            Symbols::Name(name) => (7 * name.as_slice().len() as u8).div_ceil(4),
        }
    }

    /// The same symbols.
    pub fn copy(&self) -> Symbols
        ensures { result ≡ self.now }
    {
        match self {
            Symbols::Digits(digits) => Symbols::Digits(digits.copy()),
            Symbols::Name(name) => Symbols::Name(name.copy()),
        }
    }
}
