//! Texts of words, in each alphabet and of each length.

use crate::chance::Chance;
use std::alloc::{AllocError, Global};

/// Words with letters that are the same in ASCII.
pub static PLAIN: [&str; 12] = [
    "your", "code", "is", "meet", "me", "at", "the", "station", "tomorrow", "delivery", "of",
    "order",
];

/// Words with other letters of the default alphabet, and of its extension table.
static MIXED: [&str; 12] = [
    "für", "Straße", "mañana", "20€", "[1]", "à", "demain", "{ok}", "Øst", "Ω", "~5", "Ämne",
];

/// Words beyond the default alphabet.
static WIDE: [&str; 12] = [
    "Завтра",
    "в",
    "семь",
    "у",
    "станции",
    "код",
    "заказ",
    "明日",
    "駅で",
    "😀",
    "👍",
    "не",
];

/// The words of an alphabet.
fn words_of(alphabet: usize) -> &'static [&'static str; 12] {
    match alphabet {
        0 => &PLAIN,
        1 => &MIXED,
        _ => &WIDE,
    }
}

/// A text of words of an alphabet, with a number in front, that ends after so many octets.
fn text_of(
    alloc: Global,
    chance: &mut Chance,
    alphabet: usize,
    length: usize,
) -> Result<String, AllocError> {
    let words = words_of(alphabet);
    let mut text = String::new(alloc);
    for _ in 0..length {
        text.push_str(words[chance.below(1_000) % 12])?;
        if text.len() >= length {
            break;
        }
        text.push(' ')?;
    }
    Ok(text)
}

/// The alphabet of a text: of ten texts six are plain, two mixed, two wide.
fn alphabet_of(chance: &mut Chance) -> usize {
    match chance.below(10) {
        0..=5 => 0,
        6 | 7 => 1,
        _ => 2,
    }
}

/// A text that mostly fits one unit: short, or full.
pub fn short_text(alloc: Global, chance: &mut Chance) -> Result<String, AllocError> {
    let alphabet = alphabet_of(chance);
    let length = match chance.below(2) {
        0 => 5 + chance.below(50),
        _ => 100 + chance.below(30),
    };
    text_of(alloc, chance, alphabet, length)
}

/// A text that wants some units.
pub fn long_text(alloc: Global, chance: &mut Chance) -> Result<String, AllocError> {
    let alphabet = alphabet_of(chance);
    let length = 180 + chance.below(400);
    text_of(alloc, chance, alphabet, length)
}

/// A text of some thousand letters.
pub fn very_long_text(alloc: Global, chance: &mut Chance) -> Result<String, AllocError> {
    text_of(alloc, chance, 0, 4_000)
}
