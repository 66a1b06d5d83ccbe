//! Telephone numbers in room of their own.

ghost use Rattle.std.specs.Prelude.{◌≡◌, ◌<◌, ◌≤◌, [], ◌∷◌, ◌++◌, length};
ghost use Rattle.std.specs.Str.{IsAscii};
ghost use Rattle.sms_field.specs.Address.DigitValues.{AreDigits};
ghost use Rattle.sms_field.specs.Address.DigitText.{character_of_digit, text_of_digits};
ghost use Rattle.sms_field.specs.Address.Text.{prefix};

use sms_field::{DIGITS_MAX, DigitsView};
use std::marker::Model;

/// The most characters of a telephone number: a `+` and its digits.
const CHARACTERS_MAX: usize = 1 + DIGITS_MAX;

/// The characters of the digits 0 to 14.
const CHARACTERS: &[u8; 15] = b"0123456789*#abc";

/// The characters of a telephone number, all of them in ASCII. It takes no memory. Contracts see
/// them as their list.
#[derive(Drop)]
pub struct Telephone {
    characters: [u8; CHARACTERS_MAX],
    count: usize,
}

impl Model for Telephone {
    ghost use Rattle.std.specs.Prelude.{ℕ, ◌≤◌, List, length, take};
    ghost use Rattle.std.specs.Str.{IsAscii};

    ghost Value = { List ℕ };

    ghost view = { λ t. take t.count t.characters };

    ghost invariant = { λ t. (t.count ≤ length t.characters)
        × IsAscii (take t.count t.characters) };
}

/// The character of a digit, 0 to 14.
#[inline(always)]
#[tactic(auto, unfolding(sms_field::specs::Address::DigitText::character_of_digit))]
fn character_of(digit: u8) -> u8
    requires { digit < 15 }
    ensures character { result ≡ character_of_digit digit }
    ensures ascii { result < 128 }
{
    CHARACTERS[usize::from(digit)]
}

impl Telephone {
    /// No characters.
    #[inline(always)]
    fn new() -> Telephone
        ensures { result ≡ [] }
    {
        Telephone {
            characters: [0; CHARACTERS_MAX],
            count: 0,
        }
    }

    /// Adds a character.
    #[inline(always)]
    fn push(&mut self, character: u8)
        requires few { length self.old ≤ DIGITS_MAX }
        requires ascii { character < 128 }
        ensures { self.new ≡ self.old ++ character ∷ [] }
    {
        self.characters[self.count] = character;
        self.count += 1;
    }

    /// What stands before the digits: a `+` where the type of number is 1.
    #[inline(always)]
    fn begun(type_of_number: u8) -> Telephone
        ensures { result ≡ prefix type_of_number }
    {
        let mut telephone = Telephone::new();
        if type_of_number == 1 {
            telephone.push(b'+');
        }
        telephone
    }

    /// Digits after a `+` where the type of number is 1.
    pub fn of(type_of_number: u8, digits: &[u8]) -> Telephone
        requires { AreDigits digits.now }
        ensures text { result ≡ prefix type_of_number ++ text_of_digits digits.now }
        ensures ascii { IsAscii result }
    {
        let mut telephone = Telephone::begun(type_of_number);
        let mut at = 0;
        while at < digits.len() {
            telephone.push(character_of(digits[at]));
            at += 1;
        }
        telephone
    }

    /// The same of digits that lie in octets.
    pub fn seen(type_of_number: u8, digits: &DigitsView<'_>) -> Telephone
        ensures text { result ≡ prefix type_of_number ++ text_of_digits digits.now }
        ensures ascii { IsAscii result }
    {
        let mut telephone = Telephone::begun(type_of_number);
        let count = digits.count();
        let mut at = 0;
        while at < count {
            let Some(digit) = digits.digit(at) else {
                unreachable!();
            };
            telephone.push(character_of(digit));
            at += 1;
        }
        telephone
    }

    /// The characters.
    pub fn as_bytes(&self) -> &[u8]
        ensures characters { result.now ≡ self.now }
        ensures ascii { IsAscii result.now }
    {
        &self.characters[..self.count]
    }

    /// The characters as a text.
    pub fn as_str(&self) -> &str
        ensures { result.now ≡ self.now }
    {
        match str::from_utf8(self.as_bytes()) {
            Ok(text) => text,
            Err(_) => unreachable!(),
        }
    }
}
