//! Texts in one line.

ghost use Rattle.std.specs.Prelude.{◌≡◌, ◌≤◌, ◌↔◌, [], ◌∷◌, ◌++◌, IsTrue, OnOk, true, length, take};
ghost use Rattle.sms_script.specs.Transcript.Escapes.{escape, escape_as, escaped};

use std::alloc::AllocError;

/// How a character of a text stands in one line.
#[derive(Clone, Copy, Debug, PartialEq, Eq)]
pub enum Escape {
    /// As it is.
    Plain,
    /// As a backslash and this letter.
    Letter(u8),
    /// As a backslash, `x`, and its code in two hexadecimal digits.
    Digits,
}

impl Escape {
    /// How an octet of a text in UTF-8 stands in one line: what would break the line is escaped.
    /// An octet of a character of several octets stands as it is.
    pub fn of(octet: u8) -> Escape
        ensures { escape_as octet result ≡ escape octet }
    {
        match octet {
            b'\\' => Escape::Letter(b'\\'),
            b'\n' => Escape::Letter(b'n'),
            b'\r' => Escape::Letter(b'r'),
            12 => Escape::Letter(b'f'),
            0..=31 | 127 => Escape::Digits,
            _ => Escape::Plain,
        }
    }

    /// Whether an octet of a text in UTF-8 stands in one line as it is. It is told without a
    /// branch.
    pub fn is_plain(octet: u8) -> bool
        ensures { IsTrue result ↔ (escape octet ≡ octet ∷ []) }
    {
        (octet >= b' ') & (octet != b'\\') & (octet != 127)
    }
}

/// Adds an octet of a text, escaped where it would break the line.
fn push_octet(out: &mut Vec<u8>, octet: u8) -> Result<(), AllocError>
    ensures { OnOk result (out.new.items ≡ out.old.items ++ escape octet) }
{
    match Escape::of(octet) {
        Escape::Plain => out.push(octet)?,
        Escape::Letter(letter) => out.extend_from_slice(&[b'\\', letter])?,
        Escape::Digits => {
            let digits = b"0123456789abcdef";
            let high = digits[octet as usize / 16];
            let low = digits[octet as usize % 16];
            out.extend_from_slice(&[b'\\', b'x', high, low])?;
        }
    }
    Ok(())
}

/// Whether octets of a text stand in one line as they are.
fn are_plain(octets: &[u8]) -> bool
    ensures { result ≡ true → escaped octets.now ≡ octets.now }
{
    let mut all = true;
    for octet in octets {
        all &= Escape::is_plain(*octet);
    }
    all
}

/// Adds a text octet by octet, escaped so that it stays in one line.
fn push_each(out: &mut Vec<u8>, text: &[u8]) -> Result<(), AllocError>
    ensures { OnOk result (out.new.items ≡ out.old.items ++ escaped text.now) }
{
    for octet in text {
        push_octet(out, *octet)?;
    }
    Ok(())
}

/// How many octets of a text, up to the first that is escaped, stand in one line as they are.
fn plain_front(text: &[u8]) -> usize
    ensures bound { result ≤ length text.now }
    ensures plain { escaped (take result text.now) ≡ take result text.now }
{
    for place in 0..text.len() {
        if !Escape::is_plain(text[place]) {
            return place;
        }
    }
    text.len()
}

/// A text of at least so many octets is first looked at as a whole, many octets at once.
const MANY: usize = 32;

/// Adds a text, escaped so that it stays in one line. Most texts stand in it as they are; of the
/// others what stands before the first escape is added at once.
pub fn push_escaped(out: &mut Vec<u8>, text: &[u8]) -> Result<(), AllocError>
    ensures { OnOk result (out.new.items ≡ out.old.items ++ escaped text.now) }
{
    if text.len() >= MANY && are_plain(text) {
        return out.extend_from_slice(text);
    }
    let count = plain_front(text);
    out.extend_from_slice(&text[..count])?;
    push_each(out, &text[count..])?;
    Ok(())
}
