//! Texts with letters that are written as escapes: in JSON, in a line, or in the default alphabet;
//! and with pictures, each of them a pair in UCS-2 or some. Half of them come from names.

use crate::chance::Chance;
use crate::pool::{NUMBER, Units, marked_units};
use crate::texts::PLAIN;
use anyhow::Result;
use std::alloc::{AllocError, Global};

/// Words of the default alphabet with what JSON, or a line, writes as an escape.
static QUOTED: [&str; 12] = [
    "\"yes\"", "\"", "5\"", "\\", "C:\\sms", "\"a\\b\"", "end.\n", "\n\n", "one\ntwo", "\r\n",
    "\u{c}", "don't",
];

/// Words with characters of the extension table.
static EXTENDED: [&str; 12] = [
    "€", "20€", "{ok}", "[1]", "~5", "^_^", "a|b", "{", "}", "[x]", "€€", "{[~]}",
];

/// Words with pairs of UCS-2.
static PICTURED: [&str; 12] = [
    "😀",
    "👍",
    "🎉",
    "🚕",
    "👍🏽",
    "👨‍👩‍👧",
    "🇸🇪",
    "❤️",
    "🙏",
    "😂",
    "1️⃣",
    "🔥",
];

/// Words with control characters beyond the default alphabet.
static CONTROLLED: [&str; 12] = [
    "\t",
    "a\tb",
    "\u{1}",
    "\u{2}",
    "\u{7}",
    "\u{8}",
    "\u{b}",
    "\u{1b}[0m",
    "\u{1f}",
    "\u{7f}",
    "\u{85}",
    "\u{2028}",
];

/// Names of at most eleven septets, without a blank.
static NAMES: [&str; 8] = [
    "Bank", "O'Neil", "\"Q\"", "a\\b", "[Shop]", "Straße", "20€", "{x}",
];

/// The words of a kind.
fn words_of(kind: usize) -> &'static [&'static str; 12] {
    match kind {
        0 => &QUOTED,
        1 => &EXTENDED,
        2 => &PICTURED,
        _ => &CONTROLLED,
    }
}

/// A text of which one word in so many is of a kind, that ends after so many octets.
fn text_of(
    alloc: Global,
    chance: &mut Chance,
    kind: usize,
    share: usize,
    length: usize,
) -> Result<String, AllocError> {
    let own = words_of(kind);
    let mut text = String::new(alloc);
    for _ in 0..length {
        let words = if chance.once_in(share) { own } else { &PLAIN };
        text.push_str(words[chance.below(1_000) % 12])?;
        if text.len() >= length {
            break;
        }
        text.push(' ')?;
    }
    Ok(text)
}

/// One word in how many is of the kind of a text.
fn share_of(chance: &mut Chance) -> usize {
    match chance.below(3) {
        0 => 1,
        1 => 4,
        _ => 24,
    }
}

/// How many octets a text has at least: of four texts one wants some units, the others mostly fit
/// one.
fn length_of(chance: &mut Chance) -> usize {
    match chance.below(4) {
        0 => 180 + chance.below(400),
        1 => 5 + chance.below(50),
        _ => 60 + chance.below(70),
    }
}

/// Some text.
fn some_text(alloc: Global, chance: &mut Chance) -> Result<String, AllocError> {
    let kind = chance.below(4);
    let share = share_of(chance);
    let length = length_of(chance);
    text_of(alloc, chance, kind, share, length)
}

/// A name, or a number.
fn some_origin(chance: &mut Chance) -> &'static str {
    if chance.once_in(2) {
        return NAMES[chance.below(1_000) % 8];
    }
    NUMBER
}

/// The units of some text from a name or a number.
fn some_units(alloc: Global, chance: &mut Chance) -> Result<Units> {
    let text = some_text(alloc, chance)?;
    let origin = some_origin(chance);
    marked_units(alloc, origin, text.as_str())
}

/// The units of so many texts.
pub fn letters_of(alloc: Global, chance: &mut Chance, count: usize) -> Result<Vec<Units>> {
    let mut pool = Vec::new(alloc);
    for _ in 0..count {
        pool.push(some_units(alloc, chance)?)?;
    }
    Ok(pool)
}
