//! Septets of texts, and texts of septets.

ghost use Rattle.sms_text.specs.Bits.{AreSeptets};

use crate::found::{is, is_below, septets_of};
use sms_text::{gsm_of, septets_in, text_from_gsm, text_of_gsm};
use std::alloc::Global;
use std::process::Abort;
use std::test::Fail;

/// The characters of the main table in the order of their codes, with U+001B in the place of the
/// escape.
const CHARACTERS: &str =
    "@£$¥èéùìòÇ\nØø\rÅåΔ_ΦΓΛΩΠΨΣΘΞ\u{1b}ÆæßÉ !\"#¤%&'()*+,-./0123456789:;<=>?¡ABCDEFGHIJKLMNOPQRSTUVWXYZÄÖÑÜ§¿abcdefghijklmnopqrstuvwxyzäöñüà";

/// The code after the escape of an entry of the extension table, and its character.
#[derive(Clone, Copy)]
struct Extended {
    code: u8,
    letter: &'static str,
}

/// The extension table.
const EXTENDED: [Extended; 10] = [
    Extended {
        code: 0x0A,
        letter: "\u{c}",
    },
    Extended {
        code: 0x14,
        letter: "^",
    },
    Extended {
        code: 0x28,
        letter: "{",
    },
    Extended {
        code: 0x29,
        letter: "}",
    },
    Extended {
        code: 0x2F,
        letter: "\\",
    },
    Extended {
        code: 0x3C,
        letter: "[",
    },
    Extended {
        code: 0x3D,
        letter: "~",
    },
    Extended {
        code: 0x3E,
        letter: "]",
    },
    Extended {
        code: 0x40,
        letter: "|",
    },
    Extended {
        code: 0x65,
        letter: "€",
    },
];

/// The septets stand for the text, lent and given away.
fn reads(rt: &impl Abort, alloc: Global, septets: &[u8], text: &str) -> Result<(), Fail>
    requires { AreSeptets septets.now }
{
    let read = text_of_gsm(alloc, septets)?;
    is(rt, septets, read.as_str(), text);
    let made = text_from_gsm(alloc, Vec::from_slice(alloc, septets)?)?;
    is(rt, septets, made.as_str(), text);
    Ok(())
}

/// The text has these septets.
fn writes(rt: &impl Abort, alloc: Global, text: &str, septets: &[u8]) -> Result<(), Fail> {
    let written = septets_of(alloc, text)?;
    is(rt, text, written.as_slice(), septets);
    Ok(())
}

/// The text has no septets.
fn refuses(rt: &impl Abort, alloc: Global, row: &str, text: &str) -> Result<(), Fail> {
    let written = gsm_of(alloc, text)?;
    is(rt, row, written.is_none(), true);
    Ok(())
}

/// The text has these septets, and they stand for it.
fn has(rt: &impl Abort, alloc: Global, text: &str, septets: &[u8]) -> Result<(), Fail>
    requires { AreSeptets septets.now }
{
    writes(rt, alloc, text, septets)?;
    reads(rt, alloc, septets, text)
}

/// The letter has this code in the main table, but that the escape is no letter.
fn has_code(rt: &impl Abort, alloc: Global, letter: &str, code: u8) -> Result<(), Fail> {
    is_below(rt, letter, code, 128);
    if code == 27 {
        refuses(rt, alloc, "27", letter)
    } else {
        has(rt, alloc, letter, &[code])
    }
}

/// The character has this code in the main table, but that the escape is no character.
fn is_coded(rt: &impl Abort, alloc: Global, c: char, code: u8) -> Result<(), Fail> {
    let mut letter = String::new(alloc);
    letter.push(c)?;
    has_code(rt, alloc, &letter, code)
}

/// An entry of the extension table.
fn is_extended(rt: &impl Abort, alloc: Global, row: Extended) -> Result<(), Fail> {
    is_below(rt, row.letter, row.code, 128);
    has(rt, alloc, row.letter, &[27, row.code])
}

#[test]
fn main_table(rt: HostRuntime) -> Result<(), Fail> {
    for (code, c) in (0..128u8).zip(CHARACTERS.chars()) {
        is_coded(&rt, rt.alloc(), c, code)?;
    }
    Ok(())
}

#[test]
fn extension_table(rt: HostRuntime) -> Result<(), Fail> {
    for row in EXTENDED {
        is_extended(&rt, rt.alloc(), row)?;
    }
    Ok(())
}

#[test]
fn escapes(rt: HostRuntime) -> Result<(), Fail> {
    let alloc = rt.alloc();
    reads(&rt, alloc, &[27, 27], " ")?;
    reads(&rt, alloc, &[65, 27], "A ")?;
    reads(&rt, alloc, &[27, 65], "A")?;
    reads(&rt, alloc, &[27, 27, 20], " Λ")?;
    reads(&rt, alloc, &[27, 27, 27, 20], " ^")?;
    refuses(&rt, alloc, "hellы", "hellы")
}

/// More letters than a block has, with and without one that is not its own code.
#[test]
fn long_texts(rt: HostRuntime) -> Result<(), Fail> {
    let alloc = rt.alloc();
    reads(
        &rt,
        alloc,
        b"Pack my box with five dozen jugs",
        "Pack my box with five dozen jugs",
    )?;
    reads(
        &rt,
        alloc,
        b"Pack my box with \x02 five dozen jugs",
        "Pack my box with $ five dozen jugs",
    )?;
    is(
        &rt,
        "in ASCII",
        septets_in("Pack my box"),
        Some(b"Pack my box".as_slice()),
    );
    is(&rt, "a currency", septets_in("$5"), None);
    Ok(())
}
