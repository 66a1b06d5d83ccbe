//! The digits of an address: in octets, two an octet, and in texts.

ghost use Rattle.std.specs.Prelude.{◌≡◌, ℕ, ◌+◌, ◌*◌, ◌/◌, ◌<◌, ◌≤◌, List, ◌∷◌, ◌++◌, length, take, Some, None, IfOk, IfSome, IsSome, MatchOption, OnOk, OnErr, All, vec_len, vec_capacity, position, ◌==◌};
ghost use Rattle.std.specs.List.{AllByRecursion};
ghost use Rattle.std.specs.Str.{chars, IsAscii};
ghost use Rattle.std.specs.String.{string_bytes};
ghost use Rattle.sms_field.specs.Address.DigitValues.{AreDigits};
ghost use Rattle.sms_field.specs.Address.Padded.{padded};
ghost use Rattle.sms_field.specs.Address.DigitText.{IsPlain, digit_characters, digit_of_character, character_of_digit, digits_of_text, text_of_digits};
ghost use Rattle.sms_field.specs.Address.Text.{few_digits};
ghost use Rattle.sms_field.specs.Address.DigitOctets.{low_digit, both_digits, digit_octets};
ghost use Rattle.std.specs.Prelude.{nat_eq};
ghost use Rattle.std.specs.Cmp.Lexicographic.{pointwise};
ghost use Rattle.std.specs.Cmp.Rules.{comparing, hashing};
ghost use Rattle.std.specs.Hash as fed;
ghost use Rattle.std.proofs.Common.{rules};

use crate::fault::{AddressFault, FieldFault};
use arrayvec::ArrayVec;
use std::alloc::{AllocError, Global};
use std::fmt::{self, Debug, Formatter};
use std::hash::{Hash, Hasher};
use std::marker::Model;

/// The most digits of an address (3GPP TS 23.040, 9.1.2.5).
pub const DIGITS_MAX: usize = 20;

/// Up to 20 digits, each 0 to 14. They lie in the value itself, in 21 octets: addresses are parts
/// of keys, which are kept by the thousand.
#[derive(Drop)]
pub struct Digits {
    /// They lie at the front. Behind them is 0.
    values: [u8; DIGITS_MAX],
    /// How many of them there are.
    count: u8,
}

impl Model for Digits {
    ghost use Rattle.std.specs.Prelude.{◌≡◌, ◌≤◌, ℕ, List, take};

    ghost Value = { List ℕ };

    ghost use Rattle.sms_field.specs.Address.DigitValues.{AreDigits};
    ghost use Rattle.sms_field.specs.Address.Padded.{padded};

    ghost view = { λ d. take d.count d.values };

    ghost invariant = { λ d. (d.count ≤ 20) × AreDigits (take d.count d.values)
        × (d.values ≡ padded 20 (take d.count d.values)) };
}

impl Debug for Digits {
    fn fmt<W: fmt::Write>(&self, f: &mut Formatter<W>) -> fmt::Result {
        f.debug_struct("Digits")
            .field("values", &self.as_slice())
            .finish()
    }
}

impl PartialEq for Digits {
    ghost eq = { λ a b. pointwise nat_eq a b };

    ghost laws = { Prim.search (comparing, rules) };

    fn eq(&self, other: &Digits) -> bool {
        self.count == other.count && self.values == other.values
    }
}

impl Eq for Digits {
    ghost laws = { Prim.search (comparing, rules) };
}

impl Hash for Digits {
    ghost hash_input = { λ a. fed.slice fed.u8 a };

    ghost respects_eq = { Prim.search (hashing, rules) };

    fn hash<H: Hasher>(&self, state: &mut H) {
        self.as_slice().hash(state);
    }
}

impl Digits {
    /// These digits.
    pub fn new(values: &[u8]) -> Digits
        requires { AreDigits values.now }
        ensures { result ≡ values.now }
    {
        let mut room = [0; DIGITS_MAX];
        room[..values.len()].copy_from_slice(values);
        Digits {
            values: room,
            count: values.len() as u8,
        }
    }

    /// The digits at the front of this room, as many as are counted. Behind them it holds 0.
    #[inline(always)]
    pub fn in_room(values: [u8; DIGITS_MAX], count: u8) -> Digits
        requires few { count ≤ 20 }
        requires digits { AreDigits (take count values) }
        requires rest { values ≡ padded 20 (take count values) }
        ensures { result ≡ take count values }
    {
        Digits { values, count }
    }

    /// The digits that lie in this room.
    pub(crate) fn of(values: ArrayVec<u8, DIGITS_MAX>) -> Digits
        requires { AreDigits values.items }
        ensures { result ≡ values.items }
    {
        Digits::new(values.as_slice())
    }

    /// The digits, each 0 to 14.
    pub fn as_slice(&self) -> &[u8]
        ensures value { result.now ≡ self.now }
        ensures few { length result.now ≤ DIGITS_MAX }
        ensures each { All (λ digit. digit < 15) result.now }
    {
        &self.values[..usize::from(self.count)]
    }

    /// The room that the digits lie in: they are at its front, and behind them it holds 0.
    #[inline(always)]
    pub fn as_room(&self) -> &[u8; DIGITS_MAX]
        ensures value { result.now ≡ padded 20 self.now }
        ensures few { length self.now ≤ DIGITS_MAX }
    {
        &self.values
    }

    /// The same digits.
    pub fn copy(&self) -> Digits
        ensures { result ≡ self.now }
    {
        Digits {
            values: self.values,
            count: self.count,
        }
    }
}

/// The digit in the low half of an octet.
pub fn low_digit_of(octet: u8) -> Result<u8, FieldFault>
    ensures { result ≡ low_digit octet }
{
    let low = octet % 16;
    if low < 15 {
        Ok(low)
    } else {
        Err(FieldFault::Address(AddressFault::BadDigit))
    }
}

/// The digits in both halves of an octet, the low half first.
pub fn both_digits_of(octet: u8) -> Result<(u8, u8), FieldFault>
    ensures { result ≡ both_digits octet }
{
    let (low, high) = (octet % 16, octet / 16);
    if low < 15 && high < 15 {
        Ok((low, high))
    } else {
        Err(FieldFault::Address(AddressFault::BadDigit))
    }
}

/// Writes digits, two an octet, where there is room for them.
fn put_digits(out: &mut Vec<u8>, digits: &[u8])
    requires digits { All (λ digit. digit < 15) digits.now }
    requires room { vec_len out.old + (length digits.now + 1) / 2 ≤ vec_capacity out.old }
    ensures { out.new.items ≡ out.old.items ++ digit_octets digits.now }
{
    let mut rest = digits;
    while let [low, high, others @ ..] = rest {
        out.push_reserved(16 * *high + *low);
        rest = others;
    }
    if rest.len() == 1 {
        out.push_reserved(240 + rest[0]);
    }
}

/// Adds two octets, and digits, two an octet.
pub fn put_telephone(
    out: &mut Vec<u8>,
    first: u8,
    second: u8,
    digits: &[u8],
) -> Result<(), AllocError>
    requires { All (λ digit. digit < 15) digits.now }
    ensures ok { OnOk result (out.new.items ≡ out.old.items ++
        first ∷ second ∷ digit_octets digits.now) }
    ensures err { OnErr result (out.new.items ≡ out.old.items) }
{
    out.reserve(2 + digits.len().div_ceil(2))?;
    out.push_reserved(first);
    out.push_reserved(second);
    put_digits(out, digits);
    Ok(())
}

/// The characters of the digits 0 to 14.
const CHARACTERS: [char; 15] = [
    '0', '1', '2', '3', '4', '5', '6', '7', '8', '9', '*', '#', 'a', 'b', 'c',
];

/// Where a character stands among those of the digits.
fn place_of(c: char) -> Option<usize>
    ensures place { result ≡ position (λ known. known == c) digit_characters }
    ensures bound { IfSome result (λ place. place < 15) }
{
    CHARACTERS.iter().position(|known| *known == c)
}

/// The digit that a character stands for.
#[tactic(auto, unfolding(crate::specs::Address::DigitText::digit_of_character))]
fn digit_of(c: char) -> Option<u8>
    ensures { result ≡ digit_of_character c }
{
    // most are of these, which stand in order
    if let '0'..='9' = c {
        return Some((c as u32 - 48) as u8);
    }
    let place = place_of(c)?;
    Some(place as u8)
}

/// The character of a digit.
#[tactic(auto, unfolding(crate::specs::Address::DigitText::character_of_digit))]
fn character_of(digit: u8) -> char
    requires { digit < 15 }
    ensures { result ≡ character_of_digit digit }
{
    CHARACTERS[digit as usize]
}

/// The digit that an octet is the character of, where it is `0` to `9`.
#[inline(always)]
#[tactic(auto, unfolding(crate::specs::Address::DigitText::digit_of_character))]
fn plain_digit(octet: u8) -> Option<u8>
    ensures is { IfSome result (λ digit. digit_of_character octet ≡ Some digit) }
    ensures bound { IfSome result (λ digit. digit < 15) }
    ensures only { IsPlain octet → IsSome result }
{
    if octet < 48 || octet > 57 {
        return None;
    }
    Some(octet - 48)
}

/// The digits of up to 20 octets, where each is the character `0` to `9`; none of others. It takes
/// no memory.
#[inline(always)]
pub fn plain_digits(octets: &[u8]) -> Option<Digits>
    ensures digits { IfSome result (λ digits. digits_of_text octets.now ≡ Some digits) }
    ensures few { IfSome result (λ digits. length digits ≤ DIGITS_MAX) }
    ensures are { IfSome result (λ digits. AreDigits digits) }
    ensures ascii { IfSome result (λ digits. IsAscii octets.now) }
    ensures only { length octets.now ≤ DIGITS_MAX → All IsPlain octets.now → IsSome result }
{
    if octets.len() > DIGITS_MAX {
        return None;
    }
    let mut values = [0; DIGITS_MAX];
    for place in 0..octets.len() {
        values[place] = plain_digit(octets[place])?;
    }
    Some(Digits::in_room(values, octets.len() as u8))
}

/// The digits of a text, up to 20, one character after the other.
fn each_digit_of(text: &str) -> Result<Digits, AddressFault>
    ensures { result ≡ few_digits (digits_of_text (chars text.now)) }
{
    let mut digits: ArrayVec<u8, DIGITS_MAX> = ArrayVec::new();
    let mut is_long = false;
    for c in text.chars() {
        let Some(digit) = digit_of(c) else {
            return Err(AddressFault::BadDigit);
        };
        is_long |= digits.try_push(digit).is_err();
    }
    if is_long {
        return Err(AddressFault::AddressTooLong);
    }
    Ok(Digits::of(digits))
}

/// The digits of a text, up to 20. A character that is no digit is found before too many. It takes
/// no memory. Of most texts each octet is a digit.
pub fn digits_of(text: &str) -> Result<Digits, AddressFault>
    ensures { result ≡ few_digits (digits_of_text (chars text.now)) }
{
    match plain_digits(text.as_bytes()) {
        Some(digits) => Ok(digits),
        None => each_digit_of(text),
    }
}

/// Adds the characters of digits to a text.
pub fn push_digits(text: &mut String, digits: &[u8]) -> Result<(), AllocError>
    requires { All (λ digit. digit < 15) digits.now }
    ensures { OnOk result (chars (string_bytes text.new) ≡
        chars (string_bytes text.old) ++ text_of_digits digits.now) }
{
    for digit in digits {
        text.push(character_of(*digit))?;
    }
    Ok(())
}
