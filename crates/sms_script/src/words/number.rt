//! Numbers of 1 to 10 decimal digits.

ghost use Rattle.sms_script.specs.Reasons.{Says};
ghost use Rattle.sms_script.specs.Words.Numbers.{number, in_range};
ghost use Rattle.std.specs.Prelude.{◌≡◌};

use crate::fault::ScriptFault;

/// The number of a word, where it is from `low` to `high`.
fn number_of(low: u64, high: u64, word: &[u8]) -> Option<u64>
    ensures { result ≡ number low high word.now }
{
    if word.is_empty() || word.len() > 10 {
        return None;
    }
    let mut value = 0u64;
    for digit in word {
        if !digit.is_ascii_digit() {
            return None;
        }
        value = 10 * value + (*digit - b'0') as u64;
    }
    if low <= value && value <= high {
        Some(value)
    } else {
        None
    }
}

/// The number that a word is, where it is from `low` to `high`.
pub fn number_in(low: u64, high: u64, word: &str) -> Result<u64, ScriptFault>
    ensures { Says (λ n. n) result (in_range low high word.now) }
{
    number_of(low, high, word.as_bytes()).ok_or(ScriptFault::BadNumber)
}
