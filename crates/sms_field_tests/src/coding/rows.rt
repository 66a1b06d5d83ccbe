//! Rows of the tests of coding schemes.

use sms_field::Alphabet;

/// The coding schemes from a first to a last one, and the alphabet that they name.
#[derive(Clone, Copy)]
pub struct Schemes {
    pub first: u8,
    pub last: u8,
    pub alphabet: Alphabet,
}

/// All coding schemes.
pub static ROWS: [Schemes; 22] = [
    Schemes {
        first: 0x00,
        last: 0x03,
        alphabet: Alphabet::Gsm7,
    },
    Schemes {
        first: 0x04,
        last: 0x07,
        alphabet: Alphabet::EightBit,
    },
    Schemes {
        first: 0x08,
        last: 0x0B,
        alphabet: Alphabet::Ucs2,
    },
    Schemes {
        first: 0x0C,
        last: 0x13,
        alphabet: Alphabet::Gsm7,
    },
    Schemes {
        first: 0x14,
        last: 0x17,
        alphabet: Alphabet::EightBit,
    },
    Schemes {
        first: 0x18,
        last: 0x1B,
        alphabet: Alphabet::Ucs2,
    },
    Schemes {
        first: 0x1C,
        last: 0x1F,
        alphabet: Alphabet::Gsm7,
    },
    Schemes {
        first: 0x20,
        last: 0x3F,
        alphabet: Alphabet::Compressed,
    },
    Schemes {
        first: 0x40,
        last: 0x43,
        alphabet: Alphabet::Gsm7,
    },
    Schemes {
        first: 0x44,
        last: 0x47,
        alphabet: Alphabet::EightBit,
    },
    Schemes {
        first: 0x48,
        last: 0x4B,
        alphabet: Alphabet::Ucs2,
    },
    Schemes {
        first: 0x4C,
        last: 0x53,
        alphabet: Alphabet::Gsm7,
    },
    Schemes {
        first: 0x54,
        last: 0x57,
        alphabet: Alphabet::EightBit,
    },
    Schemes {
        first: 0x58,
        last: 0x5B,
        alphabet: Alphabet::Ucs2,
    },
    Schemes {
        first: 0x5C,
        last: 0x5F,
        alphabet: Alphabet::Gsm7,
    },
    Schemes {
        first: 0x60,
        last: 0x7F,
        alphabet: Alphabet::Compressed,
    },
    Schemes {
        first: 0x80,
        last: 0xDF,
        alphabet: Alphabet::Gsm7,
    },
    Schemes {
        first: 0xE0,
        last: 0xEF,
        alphabet: Alphabet::Ucs2,
    },
    Schemes {
        first: 0xF0,
        last: 0xF3,
        alphabet: Alphabet::Gsm7,
    },
    Schemes {
        first: 0xF4,
        last: 0xF7,
        alphabet: Alphabet::EightBit,
    },
    Schemes {
        first: 0xF8,
        last: 0xFB,
        alphabet: Alphabet::Gsm7,
    },
    Schemes {
        first: 0xFC,
        last: 0xFF,
        alphabet: Alphabet::EightBit,
    },
];
