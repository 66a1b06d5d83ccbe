//! Texts in units of 16 bits, and their octets.

use crate::found::is;
use sms_text::{octets_of_units, text_of_ucs2, text_of_ucs2_octets, ucs2_of, units_of_octets};
use std::alloc::Global;
use std::process::Abort;
use std::test::Fail;

/// Two units of which one is half a pair, and their text.
#[derive(Clone, Copy)]
struct Half {
    units: [u16; 2],
    text: &'static str,
}

const HALVES: [Half; 4] = [
    Half {
        units: [0xD83D, 0x41],
        text: "\u{fffd}A",
    },
    Half {
        units: [0x41, 0xD83D],
        text: "A\u{fffd}",
    },
    Half {
        units: [0xDE00, 0x41],
        text: "\u{fffd}A",
    },
    Half {
        units: [0xDE00, 0xD83D],
        text: "\u{fffd}\u{fffd}",
    },
];

/// Three octets, the unit of the first two, and its text.
#[derive(Clone, Copy)]
struct Odd {
    octets: [u8; 3],
    unit: u16,
    text: &'static str,
}

const ODD: [Odd; 2] = [
    Odd {
        octets: [0x00, 0x41, 0x04],
        unit: 0x41,
        text: "A",
    },
    Odd {
        octets: [0x04, 0x16, 0xFF],
        unit: 0x416,
        text: "Ж",
    },
];

/// The text has these units.
fn writes(rt: &impl Abort, alloc: Global, text: &str, units: &[u16]) -> Result<(), Fail> {
    let written = ucs2_of(alloc, text)?;
    is(rt, text, written.as_slice(), units);
    Ok(())
}

/// The units stand for the text.
fn reads(rt: &impl Abort, alloc: Global, units: &[u16], text: &str) -> Result<(), Fail> {
    let read = text_of_ucs2(alloc, units)?;
    is(rt, units, read.as_str(), text);
    Ok(())
}

/// The units are spelled in these octets.
fn puts(
    rt: &impl Abort,
    alloc: Global,
    text: &str,
    units: &[u16],
    octets: &[u8],
) -> Result<(), Fail> {
    let put = octets_of_units(alloc, units)?;
    is(rt, text, put.as_slice(), octets);
    Ok(())
}

/// The octets stand for the text.
fn reads_octets(rt: &impl Abort, alloc: Global, octets: &[u8], text: &str) -> Result<(), Fail> {
    let read = text_of_ucs2_octets(alloc, octets)?;
    is(rt, octets, read.as_str(), text);
    Ok(())
}

/// The octets spell these units.
fn takes(rt: &impl Abort, alloc: Global, octets: &[u8], units: &[u16]) -> Result<(), Fail> {
    let taken = units_of_octets(alloc, octets)?;
    is(rt, octets, taken.as_slice(), units);
    Ok(())
}

/// The text has these units, and they these octets; and back.
fn spells(
    rt: &impl Abort,
    alloc: Global,
    text: &str,
    units: &[u16],
    octets: &[u8],
) -> Result<(), Fail> {
    writes(rt, alloc, text, units)?;
    puts(rt, alloc, text, units, octets)?;
    takes(rt, alloc, octets, units)?;
    reads_octets(rt, alloc, octets, text)?;
    reads(rt, alloc, units, text)
}

/// A text, its units, and their octets.
struct Ucs2 {
    text: &'static str,
    units: &'static [u16],
    octets: &'static [u8],
}

static UCS2: [Ucs2; 4] = [
    Ucs2 {
        text: "",
        units: &[],
        octets: &[],
    },
    Ucs2 {
        text: "AЖ",
        units: &[0x41, 0x416],
        octets: &[0x00, 0x41, 0x04, 0x16],
    },
    Ucs2 {
        text: "é€",
        units: &[0xE9, 0x20AC],
        octets: &[0x00, 0xE9, 0x20, 0xAC],
    },
    Ucs2 {
        text: "😀",
        units: &[0xD83D, 0xDE00],
        octets: &[0xD8, 0x3D, 0xDE, 0x00],
    },
];

/// Texts with characters above U+FFFF, each of two units.
static PAIRED: [Ucs2; 8] = [
    Ucs2 {
        text: "𐐷A",
        units: &[0xD801, 0xDC37, 0x41],
        octets: &[0xD8, 0x01, 0xDC, 0x37, 0x00, 0x41],
    },
    Ucs2 {
        text: "A𐐷Ж",
        units: &[0x41, 0xD801, 0xDC37, 0x416],
        octets: &[0x00, 0x41, 0xD8, 0x01, 0xDC, 0x37, 0x04, 0x16],
    },
    Ucs2 {
        text: "AЖ𐐷",
        units: &[0x41, 0x416, 0xD801, 0xDC37],
        octets: &[0x00, 0x41, 0x04, 0x16, 0xD8, 0x01, 0xDC, 0x37],
    },
    Ucs2 {
        text: "𐐷𤭢",
        units: &[0xD801, 0xDC37, 0xD852, 0xDF62],
        octets: &[0xD8, 0x01, 0xDC, 0x37, 0xD8, 0x52, 0xDF, 0x62],
    },
    Ucs2 {
        text: "\u{10000}\u{10ffff}",
        units: &[0xD800, 0xDC00, 0xDBFF, 0xDFFF],
        octets: &[0xD8, 0x00, 0xDC, 0x00, 0xDB, 0xFF, 0xDF, 0xFF],
    },
    Ucs2 {
        text: "Привет, 😀",
        units: &[
            0x41F, 0x440, 0x438, 0x432, 0x435, 0x442, 0x2C, 0x20, 0xD83D, 0xDE00,
        ],
        octets: &[
            0x04, 0x1F, 0x04, 0x40, 0x04, 0x38, 0x04, 0x32, 0x04, 0x35, 0x04, 0x42, 0x00, 0x2C,
            0x00, 0x20, 0xD8, 0x3D, 0xDE, 0x00,
        ],
    },
    Ucs2 {
        text: "€€€😀Ж",
        units: &[0x20AC, 0x20AC, 0x20AC, 0xD83D, 0xDE00, 0x416],
        octets: &[
            0x20, 0xAC, 0x20, 0xAC, 0x20, 0xAC, 0xD8, 0x3D, 0xDE, 0x00, 0x04, 0x16,
        ],
    },
    Ucs2 {
        text: "Приве😀т😀",
        units: &[
            0x41F, 0x440, 0x438, 0x432, 0x435, 0xD83D, 0xDE00, 0x442, 0xD83D, 0xDE00,
        ],
        octets: &[
            0x04, 0x1F, 0x04, 0x40, 0x04, 0x38, 0x04, 0x32, 0x04, 0x35, 0xD8, 0x3D, 0xDE, 0x00,
            0x04, 0x42, 0xD8, 0x3D, 0xDE, 0x00,
        ],
    },
];

/// Octets, and the text that is read from them.
struct Lossy {
    octets: &'static [u8],
    text: &'static str,
}

/// A half without the other, or an odd last octet, beside what can be read.
static LOSSY: [Lossy; 9] = [
    Lossy {
        octets: &[0x00, 0x41, 0xD8, 0x01],
        text: "A\u{fffd}",
    },
    Lossy {
        octets: &[0xD8, 0x01, 0x00, 0x41],
        text: "\u{fffd}A",
    },
    Lossy {
        octets: &[0x00, 0x41, 0xDC, 0x37, 0x04, 0x16],
        text: "A\u{fffd}Ж",
    },
    Lossy {
        octets: &[0xDC, 0x37, 0xD8, 0x01],
        text: "\u{fffd}\u{fffd}",
    },
    Lossy {
        octets: &[0xD8, 0x01, 0xD8, 0x01, 0xDC, 0x37],
        text: "\u{fffd}𐐷",
    },
    Lossy {
        octets: &[0xD8, 0x01, 0xDC, 0x37, 0xD8, 0x01],
        text: "𐐷\u{fffd}",
    },
    Lossy {
        octets: &[0xD8, 0x01, 0xDC, 0x37, 0xDC, 0x37],
        text: "𐐷\u{fffd}",
    },
    Lossy {
        octets: &[0xD8, 0x01, 0xDC],
        text: "\u{fffd}",
    },
    Lossy {
        octets: &[0xD8, 0x01, 0xDC, 0x37, 0xD8],
        text: "𐐷",
    },
];

#[test]
fn ucs2_texts(rt: HostRuntime) -> Result<(), Fail> {
    for row in UCS2.as_slice() {
        spells(&rt, rt.alloc(), row.text, row.units, row.octets)?;
    }
    Ok(())
}

#[test]
fn pairs(rt: HostRuntime) -> Result<(), Fail> {
    for row in PAIRED.as_slice() {
        spells(&rt, rt.alloc(), row.text, row.units, row.octets)?;
    }
    Ok(())
}

#[test]
fn halves_in_octets(rt: HostRuntime) -> Result<(), Fail> {
    for row in LOSSY.as_slice() {
        reads_octets(&rt, rt.alloc(), row.octets, row.text)?;
    }
    Ok(())
}

#[test]
fn halves(rt: HostRuntime) -> Result<(), Fail> {
    for Half { units, text } in HALVES {
        reads(&rt, rt.alloc(), &units, text)?;
    }
    Ok(())
}

#[test]
fn odd_octets(rt: HostRuntime) -> Result<(), Fail> {
    for Odd { octets, unit, text } in ODD {
        takes(&rt, rt.alloc(), &octets, &[unit])?;
        reads_octets(&rt, rt.alloc(), &octets, text)?;
    }
    Ok(())
}
