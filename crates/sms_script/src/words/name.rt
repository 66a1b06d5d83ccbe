//! Names of phones.

ghost use Rattle.std.specs.Prelude.{◌≡◌, ◌||◌};
ghost use Rattle.std.specs.List.{list_all};
ghost use Rattle.sms_script.specs.Words.Numbers.{is_digit};
ghost use Rattle.sms_script.specs.Words.Names.{is_name, is_letter, begins_with_letter};

/// The greatest length of a name.
const NAME_LIMIT: usize = 16;

/// Whether a word begins with a lower case letter.
#[tactic(auto, using(crate::proofs::NameLemmas::first_letter))]
fn begins_with_letter(word: &[u8]) -> bool
    ensures { result ≡ begins_with_letter word.now }
{
    match word.first() {
        Some(first) => first.is_ascii_lowercase(),
        None => false,
    }
}

/// Whether a word has lower case letters and digits alone.
fn has_letters_and_digits(word: &[u8]) -> bool
    ensures { result ≡ list_all (λ c. is_letter c || is_digit c) word.now }
{
    word.iter()
        .all(|c| c.is_ascii_lowercase() || c.is_ascii_digit())
}

/// Whether a word may be the name of a phone: 1 to 16 lower case letters and digits, a letter
/// first, and not `centre`.
pub fn is_name(word: &str) -> bool
    ensures { result ≡ is_name word.now }
{
    let word = word.as_bytes();
    word.len() <= NAME_LIMIT
        && begins_with_letter(word)
        && has_letters_and_digits(word)
        && word != b"centre".as_slice()
}
