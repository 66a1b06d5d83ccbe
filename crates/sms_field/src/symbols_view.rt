//! What stands in an address, where it lies: digits or a name.

ghost use Rattle.std.specs.Prelude.{◌≡◌, ◌+◌, ◌*◌, ◌/◌, ◌<◌, ◌≤◌, length, slice_index, IfSome, MatchOption};
ghost use Rattle.sms_text.specs.Bits.{unpacked};
ghost use Rattle.sms_field.specs.Address.DigitValues.{AreDigits};
ghost use Rattle.sms_field.specs.Inside.AddressSeen.{digits_in};
ghost use Rattle.sms_field.specs.Address.Seen.{seen_symbols};

use crate::digits::{DIGITS_MAX, Digits};
use crate::name::{NAME_MAX, Name};
use crate::symbols::Symbols;
use arrayvec::ArrayVec;
use sms_text::septet_at;
use std::marker::Model;

/// Digits that lie in octets, two an octet, the first in the low half. Contracts see them as the
/// list of the digits.
#[derive(Drop)]
pub struct DigitsView<'a> {
    /// At most `DIGITS_MAX`.
    count: u8,
    octets: &'a [u8],
}

impl<'a> Model for DigitsView<'a> {
    ghost use Rattle.std.specs.Prelude.{ℕ, List};
    ghost use Rattle.sms_field.specs.Inside.AddressSeen.{digits_in, AreDigitsIn};

    ghost Value = { List ℕ };

    ghost view = { λ d. digits_in d.count d.octets.now };

    ghost invariant = { λ d. AreDigitsIn d.count d.octets.now };
}

impl<'a> DigitsView<'a> {
    /// The digits in these octets, as many as are counted.
    pub(crate) fn new(count: u8, octets: &'a [u8]) -> DigitsView<'a>
        requires whole { length octets.now ≡ (count + 1) / 2 }
        requires digits { AreDigits (digits_in count octets.now) }
        ensures { result ≡ digits_in count octets.now }
    {
        DigitsView { count, octets }
    }

    /// The digits themselves.
    pub fn to_value(&self) -> Digits
        ensures { result ≡ self.now }
    {
        let mut values = [0; DIGITS_MAX];
        for place in 0..self.octets.len() {
            let octet = self.octets[place];
            values[2 * place] = octet % 16;
            values[2 * place + 1] = octet / 16;
        }
        // the half of an octet that is left over is no digit
        if self.count % 2 == 1 {
            values[usize::from(self.count)] = 0;
        }
        Digits::in_room(values, self.count)
    }

    /// How many digits there are.
    pub fn count(&self) -> u8
        ensures is { result ≡ length self.now }
        ensures few { result ≤ DIGITS_MAX }
    {
        self.count
    }

    /// The digit of an index, 0 to 14, or `None` from the count on.
    pub fn digit(&self, index: u8) -> Option<u8>
        ensures value { MatchOption result (length self.now ≤ index)
            (λ digit. (index < length self.now) × (digit ≡ slice_index self.now index)) }
        ensures few { IfSome result (λ digit. digit < 15) }
    {
        if index >= self.count {
            return None;
        }
        let octet = self.octets[usize::from(index / 2)];
        if index % 2 == 0 {
            Some(octet % 16)
        } else {
            Some(octet / 16)
        }
    }
}

/// The septets of a name that lie packed in octets, from the lowest bit on. Contracts see them as
/// the list of the septets.
#[derive(Drop)]
pub struct NameView<'a> {
    /// At most `NAME_MAX`.
    count: u8,
    octets: &'a [u8],
}

impl<'a> Model for NameView<'a> {
    ghost use Rattle.std.specs.Prelude.{ℕ, List};
    ghost use Rattle.sms_text.specs.Bits.{unpacked};
    ghost use Rattle.sms_field.specs.Inside.AddressSeen.{IsNameIn};

    ghost Value = { List ℕ };

    ghost view = { λ n. unpacked 0 n.count n.octets.now };

    ghost invariant = { λ n. IsNameIn n.count n.octets.now };
}

impl<'a> NameView<'a> {
    /// The septets in these octets, as many as are counted.
    pub(crate) fn new(count: u8, octets: &'a [u8]) -> NameView<'a>
        requires few { count ≤ NAME_MAX }
        requires enough { 7 * count ≤ 8 * length octets.now }
        ensures { result ≡ unpacked 0 count octets.now }
    {
        NameView { count, octets }
    }

    /// The name itself.
    pub fn to_value(&self) -> Name
        ensures { result ≡ self.now }
    {
        let mut septets: ArrayVec<u8, NAME_MAX> = ArrayVec::new();
        for place in 0..self.count {
            match septet_at(self.octets, 0, place) {
                Some(septet) => septets.push(septet),
                None => unreachable!(),
            }
        }
        Name::of(septets)
    }

    /// How many septets there are.
    pub fn count(&self) -> u8
        ensures is { result ≡ length self.now }
        ensures few { result ≤ NAME_MAX }
    {
        self.count
    }

    /// The septet of an index, below 128, or `None` from the count on.
    pub fn septet(&self, index: u8) -> Option<u8>
        ensures { MatchOption result (length self.now ≤ index)
            (λ septet. (index < length self.now) × (septet ≡ slice_index self.now index)) }
    {
        if index >= self.count {
            return None;
        }
        septet_at(self.octets, 0, index)
    }

    /// The octets in which the septets lie packed (3GPP TS 23.038, 6.1.2.1). Further bits are no
    /// part of the name.
    pub fn packed(&self) -> &'a [u8]
        ensures enough { 7 * length self.now ≤ 8 * length result.now }
        ensures are { unpacked 0 (length self.now) result.now ≡ self.now }
    {
        self.octets
    }
}

/// The digits of an address, or the name where its type of number is 5, alphanumeric, where they
/// lie.
#[derive(Drop)]
pub enum SymbolsView<'a> {
    Digits(DigitsView<'a>),
    Name(NameView<'a>),
}

impl<'a> SymbolsView<'a> {
    /// The digits or the name themselves.
    pub fn to_value(&self) -> Symbols
        ensures { result ≡ seen_symbols self.now }
    {
        match self {
            SymbolsView::Digits(digits) => Symbols::Digits(digits.to_value()),
            SymbolsView::Name(name) => Symbols::Name(name.to_value()),
        }
    }
}
