//! Octets in a script.

ghost use Rattle.std.specs.Prelude.{◌≡◌, IsOk, is_ok};
ghost use Rattle.std.specs.List.{list_all};
ghost use Rattle.hex.specs.Hex.{decode_of, is_hex_digit};
ghost use Rattle.sms_script.specs.Reasons.{Gives};
ghost use Rattle.sms_script.specs.Words.Hexadecimal.{hexadecimal};

use crate::fault::{MeaningFault, ScriptFault};
use hex::FromHexError;
use sms_field::Octets;
use std::alloc::Global;

/// Whether an octet is a hexadecimal digit.
fn is_digit(octet: u8) -> bool
    ensures { result ≡ is_hex_digit octet }
{
    octet.is_ascii_hexdigit()
}

/// Whether a word has hexadecimal digits alone.
fn has_digits(word: &[u8]) -> bool
    ensures { result ≡ list_all is_hex_digit word.now }
{
    word.iter().all(|octet| is_digit(*octet))
}

/// Whether a word has two hexadecimal digits for each octet.
fn is_hexadecimal(word: &str) -> bool
    ensures { result ≡ is_ok (decode_of word.now) }
{
    let word = word.as_bytes();
    word.len() % 2 == 0 && has_digits(word)
}

/// The octets that a word writes in hexadecimal, none as `-` or the empty word. Memory runs out for
/// octets alone, and for no other word.
pub fn octets_of(alloc: Global, word: &str) -> Result<Octets, MeaningFault>
    ensures { Gives IsOk (λ o. o) result (hexadecimal word.now) }
{
    if word == "-" {
        return Ok(Octets::new(Vec::new(alloc)));
    }
    match hex::decode(alloc, word) {
        Ok(octets) => Ok(Octets::new(octets)),
        Err(FromHexError::OutOfMemory) if is_hexadecimal(word) => Err(MeaningFault::Memory),
        Err(_) => Err(MeaningFault::Script(ScriptFault::BadHex)),
    }
}
