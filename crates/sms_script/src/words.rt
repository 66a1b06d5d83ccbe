//! The words of a line.

mod address;
mod name;
mod number;
mod octets;

ghost use Rattle.std.specs.Prelude.{◌≡◌, ◌∷◌, [], MatchOption};
ghost use Rattle.sms_script.specs.Reasons.{Says};
ghost use Rattle.sms_script.specs.Words.{left, text_of_words, no_word, one_word, two_words, two_words_and_text};

use crate::fault::ScriptFault;
pub use address::{address_of, can_be_phone};
pub use name::is_name;
pub use number::number_in;
pub use octets::octets_of;

/// The next word of what is left of a line, and what is left after it: nothing, where the line has
/// ended.
pub fn next_word<'a>(line: Option<&'a str>) -> Option<(&'a str, Option<&'a str>)>
    ensures { let all = left line.entry in
        MatchOption result (all ≡ []) (λ x. all ≡ x.0.now ∷ left x.1) }
{
    let line = line?;
    match line.split_once(' ') {
        Some((word, rest)) => Some((word, Some(rest))),
        None => Some((line, None)),
    }
}

/// The text that is left: empty, where the line has ended.
fn text_left<'a>(line: Option<&'a str>) -> &'a str
    ensures { result.now ≡ text_of_words (left line.entry) }
{
    match line {
        Some(text) => text,
        None => "",
    }
}

/// Nothing, where no word is left.
pub fn no_word(line: Option<&str>) -> Result<(), ScriptFault>
    ensures { Says (λ x. x) result (no_word (left line.entry)) }
{
    match next_word(line) {
        None => Ok(()),
        Some(_) => Err(ScriptFault::BadWords),
    }
}

/// The word, where one is left.
pub fn one_word<'a>(line: Option<&'a str>) -> Result<&'a str, ScriptFault>
    ensures { Says (λ w. w.now) result (one_word (left line.entry)) }
{
    let Some((word, rest)) = next_word(line) else {
        return Err(ScriptFault::BadWords);
    };
    no_word(rest)?;
    Ok(word)
}

/// The words, where two are left.
pub fn two_words<'a>(line: Option<&'a str>) -> Result<(&'a str, &'a str), ScriptFault>
    ensures { Says (λ w. (w.0.now, w.1.now)) result (two_words (left line.entry)) }
{
    let Some((word, rest)) = next_word(line) else {
        return Err(ScriptFault::BadWords);
    };
    let next = one_word(rest)?;
    Ok((word, next))
}

/// Two words and the text after them, where two words are left.
pub fn two_words_and_text<'a>(
    line: Option<&'a str>,
) -> Result<(&'a str, &'a str, &'a str), ScriptFault>
    ensures { let all = left line.entry in
        Says (λ w. (w.0.now, w.1.now, w.2.now)) result (two_words_and_text all) }
{
    let Some((word, rest)) = next_word(line) else {
        return Err(ScriptFault::BadWords);
    };
    match next_word(rest) {
        Some((next, rest)) => Ok((word, next, text_left(rest))),
        None => Err(ScriptFault::BadWords),
    }
}
