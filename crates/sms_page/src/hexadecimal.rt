//! Octets in hexadecimal digits, a block at a time by vectors.

ghost use Rattle.std.specs.Prelude.{[], ◌∷◌, ◌≡◌, ◌+◌, ◌*◌, ◌/◌, ◌<◌, ◌≤◌, ◌↔◌, length, map, slice_index, drop, take, unwrap_or, true, IsTrue};
ghost use Rattle.std.specs.Bool.{OnTrue};
ghost use Rattle.std.specs.List.{list_all};
ghost use Rattle.std.specs.Simd.Lanes.{Each1, chunk};
ghost use Rattle.hex.specs.Hex.{encode_upper, upper_digits, hex_digit_value, is_hex_digit};
ghost use Rattle.sms_page.specs.Inside.Place.{IsPut};
ghost use Rattle.sms_page.specs.Hexadecimal.{Reads, is_blank, number_of, octets_of};
ghost use Rattle.sms_page.specs.Inside.Pairs.{HaveOctets, octets_of_pairs};

use std::simd::prelude::*;

/// How many octets a block has.
const BLOCK: usize = 16;

/// How many digits a block has.
const DIGITS: usize = 32;

/// The upper case digits of numbers below 16.
#[inline(always)]
fn digits_of(numbers: u8x16) -> u8x16
    requires { Each1 (λ n. n < 16) numbers }
    ensures { result ≡ map (λ n. slice_index upper_digits n) numbers }
{
    let is_letter = numbers.simd_gt(u8x16::splat(9));
    numbers + is_letter.select(u8x16::splat(b'A' - 10), u8x16::splat(b'0'))
}

/// Puts the digits of the block of octets at a place.
#[inline(always)]
fn put_block(digits: &mut [u8], octets: &[u8], at: usize)
    requires within { at + BLOCK ≤ length octets.now }
    requires room { length digits.old ≡ 2 * length octets.now }
    ensures { IsPut digits.old digits.new (2 * at) (encode_upper (chunk at BLOCK octets.now)) }
{
    let block = u8x16::from_slice(&octets[at..]);
    let high = digits_of(block >> u8x16::splat(4));
    let low = digits_of(block & u8x16::splat(15));
    let (front, back) = high.interleave(low);
    front.copy_to_slice(&mut digits[2 * at..]);
    back.copy_to_slice(&mut digits[2 * at + BLOCK..]);
}

/// The numbers that digits of either case are, and whether all are digits.
#[inline(always)]
fn numbers_of(digits: u8x32) -> (u8x32, bool)
    ensures all { IsTrue result.1 ↔ (list_all is_hex_digit digits ≡ true) }
    ensures numbers { OnTrue result.1 (result.0 ≡ map number_of digits) }
{
    let decimal = digits - u8x32::splat(b'0');
    let letter = (digits | u8x32::splat(0x20)) - u8x32::splat(b'a');
    let is_decimal = decimal.simd_lt(u8x32::splat(10));
    let is_letter = letter.simd_lt(u8x32::splat(6));
    let numbers = is_decimal.select(decimal, letter + u8x32::splat(10));
    (numbers, (is_decimal | is_letter).all())
}

/// Puts the octets of the block of digits whose octets stand at a place, and says whether all are
/// digits.
#[inline(always)]
fn put_numbers(octets: &mut [u8], digits: &[u8], at: usize) -> bool
    requires within { at + BLOCK ≤ length octets.old }
    requires room { length digits.now ≡ 2 * length octets.old }
    ensures all { IsTrue result
        ↔ (list_all is_hex_digit (chunk (2 * at) DIGITS digits.now) ≡ true) }
    ensures put { OnTrue result (IsPut octets.old octets.new at
        (octets_of_pairs (chunk (2 * at) DIGITS digits.now))) }
{
    let (numbers, are_digits) = numbers_of(u8x32::from_slice(&digits[2 * at..]));
    let high = numbers.swizzle([0, 2, 4, 6, 8, 10, 12, 14, 16, 18, 20, 22, 24, 26, 28, 30]);
    let low = numbers.swizzle([1, 3, 5, 7, 9, 11, 13, 15, 17, 19, 21, 23, 25, 27, 29, 31]);
    let whole = (high << u8x16::splat(4)) | low;
    whole.copy_to_slice(&mut octets[at..]);
    are_digits
}

/// The two digits of an octet.
#[inline(always)]
pub fn two_digits(octet: u8) -> [u8; 2]
    ensures { result ≡ encode_upper (octet ∷ []) }
{
    let digits = b"0123456789ABCDEF";
    [
        digits[usize::from(octet / 16)],
        digits[usize::from(octet % 16)],
    ]
}

/// Puts the digits of octets, one octet after another.
fn put_each(digits: &mut [u8], octets: &[u8])
    requires { length digits.old ≡ 2 * length octets.now }
    ensures { digits.new ≡ encode_upper octets.now }
{
    for (at, octet) in octets.iter().enumerate() {
        let [high, low] = two_digits(*octet);
        digits[2 * at] = high;
        digits[2 * at + 1] = low;
    }
}

/// Puts the digits of octets a block at a time. The last block may lie over the one before, so that
/// none is left over.
fn put_blocks(digits: &mut [u8], octets: &[u8])
    requires long { BLOCK ≤ length octets.now }
    requires room { length digits.old ≡ 2 * length octets.now }
    ensures { digits.new ≡ encode_upper octets.now }
{
    let mut at = 0;
    while octets.len() - at > BLOCK {
        put_block(digits, octets, at);
        at += BLOCK;
    }
    put_block(digits, octets, octets.len() - BLOCK);
}

/// Puts the upper case digits of octets, of which there are twice as many.
pub fn put_digits(digits: &mut [u8], octets: &[u8])
    requires { length digits.old ≡ 2 * length octets.now }
    ensures { digits.new ≡ encode_upper octets.now }
{
    if octets.len() < BLOCK {
        put_each(digits, octets);
    } else {
        put_blocks(digits, octets);
    }
}

/// Puts the octets of digits a block at a time, and says whether all are digits. The last block may
/// lie over the one before, so that none is left over.
fn put_whole_blocks(octets: &mut [u8], digits: &[u8]) -> bool
    requires long { BLOCK ≤ length octets.old }
    requires room { length digits.now ≡ 2 * length octets.old }
    ensures { OnTrue result (HaveOctets digits.now octets.new) }
{
    let mut at = 0;
    while octets.len() - at > BLOCK {
        if !put_numbers(octets, digits, at) {
            return false;
        }
        at += BLOCK;
    }
    put_numbers(octets, digits, octets.len() - BLOCK)
}

/// What an octet is that is no hexadecimal digit.
const NO: u8 = 255;

/// The number that each octet is as a hexadecimal digit of either case.
static NUMBERS: [u8; 256] = [
    NO, NO, NO, NO, NO, NO, NO, NO, NO, NO, NO, NO, NO, NO, NO, NO, NO, NO, NO, NO, NO, NO, NO, NO,
    NO, NO, NO, NO, NO, NO, NO, NO, NO, NO, NO, NO, NO, NO, NO, NO, NO, NO, NO, NO, NO, NO, NO, NO,
    0, 1, 2, 3, 4, 5, 6, 7, 8, 9, NO, NO, NO, NO, NO, NO, NO, 10, 11, 12, 13, 14, 15, NO, NO, NO,
    NO, NO, NO, NO, NO, NO, NO, NO, NO, NO, NO, NO, NO, NO, NO, NO, NO, NO, NO, NO, NO, NO, NO, 10,
    11, 12, 13, 14, 15, NO, NO, NO, NO, NO, NO, NO, NO, NO, NO, NO, NO, NO, NO, NO, NO, NO, NO, NO,
    NO, NO, NO, NO, NO, NO, NO, NO, NO, NO, NO, NO, NO, NO, NO, NO, NO, NO, NO, NO, NO, NO, NO, NO,
    NO, NO, NO, NO, NO, NO, NO, NO, NO, NO, NO, NO, NO, NO, NO, NO, NO, NO, NO, NO, NO, NO, NO, NO,
    NO, NO, NO, NO, NO, NO, NO, NO, NO, NO, NO, NO, NO, NO, NO, NO, NO, NO, NO, NO, NO, NO, NO, NO,
    NO, NO, NO, NO, NO, NO, NO, NO, NO, NO, NO, NO, NO, NO, NO, NO, NO, NO, NO, NO, NO, NO, NO, NO,
    NO, NO, NO, NO, NO, NO, NO, NO, NO, NO, NO, NO, NO, NO, NO, NO, NO, NO, NO, NO, NO, NO, NO, NO,
    NO, NO, NO, NO, NO, NO, NO, NO, NO, NO, NO, NO, NO, NO,
];

/// The number that an octet is as a hexadecimal digit of either case.
fn number_of(octet: u8) -> u8
    ensures { result ≡ unwrap_or (hex_digit_value octet) NO }
{
    NUMBERS[octet as usize]
}

/// Whether an octet is a blank.
fn is_blank(octet: u8) -> bool
    ensures { result ≡ is_blank octet }
{
    octet == b' ' || octet == b'\t'
}

/// Puts the octets of digits in pairs, and says whether all are digits.
fn put_pairs(octets: &mut [u8], digits: &[u8]) -> bool
    requires { length digits.now ≡ 2 * length octets.old }
    ensures { OnTrue result (HaveOctets digits.now octets.new) }
{
    let mut seen = 0;
    for at in 0..octets.len() {
        let high = number_of(digits[2 * at]);
        let low = number_of(digits[2 * at + 1]);
        seen |= high | low;
        octets[at] = (high << 4) | low;
    }
    seen != NO
}

/// Puts the octets of digits of which there are twice as many, and says whether all are digits.
fn put_all(octets: &mut [u8], digits: &[u8]) -> bool
    requires { length digits.now ≡ 2 * length octets.old }
    ensures { OnTrue result (HaveOctets digits.now octets.new) }
{
    if octets.len() < BLOCK {
        put_pairs(octets, digits)
    } else {
        put_whole_blocks(octets, digits)
    }
}

/// Puts the octets of digits one by one, which blanks may part where they are allowed, and says how
/// many there are, or the place of the first that is wrong.
fn put_one_by_one(octets: &mut [u8], digits: &[u8], has_blanks: bool) -> Result<usize, usize>
    requires { length digits.now / 2 ≡ length octets.old }
    ensures { Reads (octets_of has_blanks digits.now) result octets.new }
{
    let mut count = 0;
    let mut high = NO;
    for (place, digit) in digits.iter().enumerate() {
        let number = number_of(*digit);
        if number == NO {
            if high != NO || !has_blanks || !is_blank(*digit) {
                return Err(place);
            }
        } else if high == NO {
            high = number;
        } else {
            octets[count] = (high << 4) | number;
            count += 1;
            high = NO;
        }
    }
    if high != NO {
        return Err(digits.len());
    }
    Ok(count)
}

/// Puts the octets of digits, and says how many there are, or the place of the first octet that is
/// wrong. Blanks may stand between octets where they are allowed.
pub fn put_octets(octets: &mut [u8], digits: &[u8], has_blanks: bool) -> Result<usize, usize>
    requires { length octets.old ≡ length digits.now / 2 }
    ensures { Reads (octets_of has_blanks digits.now) result octets.new }
{
    if digits.len() % 2 == 0 && put_all(octets, digits) {
        return Ok(octets.len());
    }
    put_one_by_one(octets, digits, has_blanks)
}
