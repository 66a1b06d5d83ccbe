//! Telephone numbers of each length, beside their characters put one by one.

use crate::found::holds;
use sms_trial::{Made, answer_to, fed_with, says};
use std::alloc::Global;
use std::process::Abort;
use std::test::Fail;

/// The characters of the digits 0 to 14.
static CHARACTERS: [char; 15] = [
    '0', '1', '2', '3', '4', '5', '6', '7', '8', '9', '*', '#', 'a', 'b', 'c',
];

/// A type of number in plan 1: its octet, and what stands before the digits.
struct Kind {
    octet: &'static str,
    before: &'static str,
}

/// Types of number with a `+` and without.
static KINDS: [Kind; 3] = [
    Kind {
        octet: "81",
        before: "",
    },
    Kind {
        octet: "91",
        before: "+",
    },
    Kind {
        octet: "A1",
        before: "",
    },
];

/// What stands behind the address in an SMS-DELIVER with the text A.
const BEHIND: &str = "0000993092516195800141";

/// The upper case hexadecimal digit of a number below 16.
fn digit_of(number: u8) -> u8 {
    b"0123456789ABCDEF"[usize::from(number % 16)]
}

/// As many digits.
fn made_digits(alloc: Global, count: usize, made: &mut Made) -> Result<Vec<u8>, Fail> {
    let mut digits = Vec::new(alloc);
    for _ in 0..count {
        digits.push(u8::try_from(made.below(15)).unwrap_or(0))?;
    }
    Ok(digits)
}

/// The text of digits, one after another.
fn telephone_of(alloc: Global, before: &str, digits: &[u8]) -> Result<String, Fail> {
    let mut text = String::new(alloc);
    text.push_str(before)?;
    for digit in digits {
        if let Some(character) = CHARACTERS.get(usize::from(*digit)) {
            text.push(*character)?;
        }
    }
    Ok(text)
}

/// The unit from an address of these digits.
fn unit_of(alloc: Global, kind: &str, digits: &[u8]) -> Result<String, Fail> {
    let mut unit = Vec::new(alloc);
    let count = u8::try_from(digits.len()).unwrap_or(0);
    unit.extend_from_slice(&[b'0', b'4', digit_of(count / 16), digit_of(count % 16)])?;
    unit.extend_from_slice(kind.as_bytes())?;
    for pair in digits.chunks(2) {
        let low = pair.first().copied().unwrap_or(15);
        let high = pair.get(1).copied().unwrap_or(15);
        unit.extend_from_slice(&[digit_of(high), digit_of(low)])?;
    }
    unit.extend_from_slice(BEHIND.as_bytes())?;
    Ok(String::from_utf8(unit)?)
}

/// Whether the unit is shown from this telephone number, and joined.
fn is_told(alloc: Global, unit: &str, telephone: &str) -> Result<bool, Fail> {
    let (_, shown) = answer_to(alloc, &["sms", "show", "deliver", unit])?;
    let (_, object) = answer_to(alloc, &["sms", "show", "deliver", "--json", unit])?;
    let (_, joined) = fed_with(alloc, &["sms", "join"], unit)?;
    let line = format!(in alloc; "\nfrom: {telephone}\n")?;
    let member = ["\"from\":{\"text\":\"", telephone, "\",\"type\":"].concat(alloc)?;
    let end = format!(in alloc; " {telephone} A\n")?;
    Ok(says(&shown, &line) && says(&object, &member) && joined.ends_with(end.as_str()))
}

/// A number of so many digits, which are made, is told.
fn number_is_told(
    rt: &impl Abort,
    alloc: Global,
    kind: &Kind,
    count: usize,
    made: &mut Made,
) -> Result<(), Fail> {
    let digits = made_digits(alloc, count, made)?;
    let unit = unit_of(alloc, kind.octet, &digits)?;
    let telephone = telephone_of(alloc, kind.before, &digits)?;
    let is_so = is_told(alloc, &unit, &telephone)?;
    holds(rt, &(kind.octet, telephone.as_str()), is_so);
    Ok(())
}

/// Numbers of so many digits are told.
fn numbers_are_told(
    rt: &impl Abort,
    alloc: Global,
    count: usize,
    made: &mut Made,
) -> Result<(), Fail> {
    for kind in &KINDS {
        number_is_told(rt, alloc, kind, count, made)?;
    }
    Ok(())
}

#[test]
fn tells_numbers_of_each_length(rt: HostRuntime) -> Result<(), Fail> {
    let mut made = Made::new(3);
    for count in 0..=20 {
        numbers_are_told(&rt, rt.alloc(), count, &mut made)?;
    }
    Ok(())
}
