//! Rows of the tests of `split`: texts, and the lines of their segments. Between bars stand parts,
//! and after an asterisk how many times a part stands.

/// A text, and the lines of its segments.
pub struct Split {
    pub text: &'static str,
    pub lines: &'static str,
}

/// A reference, a text, and the lines of its segments.
pub struct Referenced {
    pub reference: &'static str,
    pub text: &'static str,
    pub lines: &'static str,
}

/// A character, how many of them have 255 segments, and what the last segment begins with.
pub struct Greatest {
    pub character: &'static str,
    pub count: usize,
    pub last: &'static str,
}

/// Texts of the 7-bit alphabet in one piece, and the answer.
pub static IN_ONE_PIECE: [Split; 6] = [
    Split {
        text: "",
        lines: "1/1 gsm 0 -\n",
    },
    Split {
        text: "a",
        lines: "1/1 gsm 1 61\n",
    },
    Split {
        text: "\n\\",
        lines: "1/1 gsm 3 8ACD0B\n",
    },
    Split {
        text: "-5",
        lines: "1/1 gsm 2 AD1A\n",
    },
    Split {
        text: "a*160",
        lines: "1/1 gsm 160 |E170381C0E87C3*20|\n",
    },
    Split {
        text: "€*80",
        lines: "1/1 gsm 160 |9BF2A6BC296FCA*20|\n",
    },
];

/// Texts of the 7-bit alphabet in several pieces, and the answer.
pub static IN_PIECES: [Split; 4] = [
    Split {
        text: "a*161",
        lines: "1/2 gsm 160 050003000201C2|E170381C0E87C3*19|\n2/2 gsm 15 050003000202C2E170381C0E8701\n",
    },
    Split {
        text: "a*307",
        lines: "1/3 gsm 160 050003000301C2|E170381C0E87C3*19|\n2/3 gsm 160 050003000302C2|E170381C0E87C3*19|\n3/3 gsm 8 050003000303C2\n",
    },
    Split {
        text: "a*152|€|a*10",
        lines: "1/2 gsm 159 050003000201C2|E170381C0E87C3*18|E170381C0E8701\n2/2 gsm 19 05000300020236E570381C0E87C3E17018\n",
    },
    Split {
        text: "a*152|€|a*149|€|a*5",
        lines: "1/3 gsm 159 050003000301C2|E170381C0E87C3*18|E170381C0E8701\n2/3 gsm 160 05000300030236E5|70381C0E87C3E1*18|70381C0E6FCA\n3/3 gsm 12 050003000303C2E170380C\n",
    },
];

/// Texts in UCS-2 in one piece, and the answer.
pub static WIDE_IN_ONE_PIECE: [Split; 2] = [
    Split {
        text: "\u{1b}",
        lines: "1/1 ucs2 2 001B\n",
    },
    Split {
        text: "ж*70",
        lines: "1/1 ucs2 140 |0436*70|\n",
    },
];

/// Texts in UCS-2 in several pieces, and the answer.
pub static WIDE_IN_PIECES: [Split; 3] = [
    Split {
        text: "ж*71",
        lines: "1/2 ucs2 140 050003000201|0436*67|\n2/2 ucs2 14 050003000202|0436*4|\n",
    },
    Split {
        text: "ж*135",
        lines: "1/3 ucs2 140 050003000301|0436*67|\n2/3 ucs2 140 050003000302|0436*67|\n3/3 ucs2 8 0500030003030436\n",
    },
    Split {
        text: "ж*66|😀|ж*3",
        lines: "1/2 ucs2 138 050003000201|0436*66|\n2/2 ucs2 16 050003000202D83DDE00|0436*3|\n",
    },
];

/// References, texts, and the answer.
pub static REFERENCES: [Referenced; 3] = [
    Referenced {
        reference: "255",
        text: "a*161",
        lines: "1/2 gsm 160 050003FF0201C2|E170381C0E87C3*19|\n2/2 gsm 15 050003FF0202C2E170381C0E8701\n",
    },
    Referenced {
        reference: "128",
        text: "ж*71",
        lines: "1/2 ucs2 140 050003800201|0436*67|\n2/2 ucs2 14 050003800202|0436*4|\n",
    },
    Referenced {
        reference: "255",
        text: "a*160",
        lines: "1/1 gsm 160 |E170381C0E87C3*20|\n",
    },
];

/// The longest texts of one character.
pub static TOO_MANY: [Greatest; 2] = [
    Greatest {
        character: "a",
        count: 39015,
        last: "\n255/255 gsm 160 05000300FFFFC",
    },
    Greatest {
        character: "ж",
        count: 17085,
        last: "\n255/255 ucs2 140 05000300FFFF",
    },
];
