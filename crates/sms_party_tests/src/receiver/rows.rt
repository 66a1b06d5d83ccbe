//! Packets that come to a phone, and what it answers.

use sms_message::{Dropped, Outcome};

/// A packet that comes at a moment, the answer, the packets that are put out, and the texts of the
/// store after it.
pub struct Row {
    pub name: &'static str,
    pub now: u64,
    pub octets: &'static [u8],
    pub answer: Result<Outcome, Dropped>,
    pub packets: &'static [&'static [u8]],
    pub store: &'static [&'static str],
}

/// What is no delivery, or holds no text.
pub static REFUSALS: [Row; 17] = [
    Row {
        name: "8-bit data",
        now: 0,
        octets: b"\x09\x01\x18\x01\x00\x03\x91\x01\x00\x00\x10\x04\x04\x91\x01\x10\x00\x04\x00\x10\x10\x00\x00\x00\x00\x01\x41",
        answer: Ok(Outcome::Refused {
            cause: 111,
            failure: Some(0x90),
        }),
        packets: &[
            b"\x89\x04",
            b"\x89\x01\x09\x04\x00\x01\x6F\x41\x03\x00\x90\x00",
        ],
        store: &[],
    },
    Row {
        name: "a compressed text",
        now: 0,
        octets: b"\x09\x01\x18\x01\x00\x03\x91\x01\x00\x00\x10\x04\x04\x91\x01\x10\x00\x20\x00\x10\x10\x00\x00\x00\x00\x01\x41",
        answer: Ok(Outcome::Refused {
            cause: 111,
            failure: Some(0x90),
        }),
        packets: &[
            b"\x89\x04",
            b"\x89\x01\x09\x04\x00\x01\x6F\x41\x03\x00\x90\x00",
        ],
        store: &[],
    },
    Row {
        name: "another type of unit",
        now: 0,
        octets: b"\x09\x01\x09\x01\x00\x03\x91\x01\x00\x00\x01\x01",
        answer: Ok(Outcome::Refused {
            cause: 111,
            failure: Some(0xB0),
        }),
        packets: &[
            b"\x89\x04",
            b"\x89\x01\x09\x04\x00\x01\x6F\x41\x03\x00\xB0\x00",
        ],
        store: &[],
    },
    Row {
        name: "a unit cut short",
        now: 0,
        octets: b"\x09\x01\x09\x01\x00\x03\x91\x01\x00\x00\x01\x04",
        answer: Ok(Outcome::Refused {
            cause: 111,
            failure: Some(0xFF),
        }),
        packets: &[
            b"\x89\x04",
            b"\x89\x01\x09\x04\x00\x01\x6F\x41\x03\x00\xFF\x00",
        ],
        store: &[],
    },
    Row {
        name: "an unknown type of RP message",
        now: 0,
        octets: b"\x09\x01\x02\x06\x05",
        answer: Ok(Outcome::Refused {
            cause: 97,
            failure: None,
        }),
        packets: &[b"\x89\x04", b"\x89\x01\x04\x04\x05\x01\x61"],
        store: &[],
    },
    Row {
        name: "an RP-DATA cut short",
        now: 0,
        octets: b"\x09\x01\x03\x01\x05\x01",
        answer: Ok(Outcome::Refused {
            cause: 96,
            failure: None,
        }),
        packets: &[b"\x89\x04", b"\x89\x01\x04\x04\x05\x01\x60"],
        store: &[],
    },
    Row {
        name: "a CP-DATA of no octets",
        now: 0,
        octets: b"\x09\x01\x00",
        answer: Err(Dropped::Unmatched),
        packets: &[],
        store: &[],
    },
    Row {
        name: "a CP-DATA of one octet",
        now: 0,
        octets: b"\x09\x01\x01\x06",
        answer: Err(Dropped::Unmatched),
        packets: &[],
        store: &[],
    },
    Row {
        name: "an unknown type in a transaction of the phone",
        now: 0,
        octets: b"\x89\x01\x02\x06\x05",
        answer: Err(Dropped::Unmatched),
        packets: &[],
        store: &[],
    },
    Row {
        name: "a delivery in a transaction of the phone",
        now: 0,
        octets: b"\x89\x01\x19\x01\x00\x03\x91\x01\x00\x00\x11\x04\x04\x91\x01\x10\x00\x00\x00\x10\x10\x00\x00\x00\x00\x02\xE8\x34",
        answer: Err(Dropped::Unmatched),
        packets: &[],
        store: &[],
    },
    Row {
        name: "an RP-DATA from a phone",
        now: 0,
        octets: b"\x09\x01\x13\x00\x00\x00\x03\x91\x01\x00\x0B\x01\x00\x04\x91\x01\x20\x00\x00\x02\xE8\x34",
        answer: Err(Dropped::Unmatched),
        packets: &[],
        store: &[],
    },
    Row {
        name: "an RP-ACK in a transaction of the centre",
        now: 0,
        octets: b"\x09\x01\x02\x03\x00",
        answer: Err(Dropped::Unmatched),
        packets: &[],
        store: &[],
    },
    Row {
        name: "an RP-ACK from a phone",
        now: 0,
        octets: b"\x89\x01\x02\x02\x00",
        answer: Err(Dropped::Unmatched),
        packets: &[],
        store: &[],
    },
    Row {
        name: "a CP-ACK",
        now: 0,
        octets: b"\x89\x04",
        answer: Ok(Outcome::Noted),
        packets: &[],
        store: &[],
    },
    Row {
        name: "a CP-ERROR",
        now: 0,
        octets: b"\x09\x10\x05",
        answer: Ok(Outcome::Noted),
        packets: &[],
        store: &[],
    },
    Row {
        name: "a packet cut short",
        now: 0,
        octets: b"\x09\x01\x19\x01\x00\x03\x91\x01\x00\x00\x11\x04\x04\x91\x01\x10\x00\x00\x00\x10",
        answer: Err(Dropped::NotCp),
        packets: &[],
        store: &[],
    },
    Row {
        name: "octets of another protocol",
        now: 0,
        octets: b"\xFF",
        answer: Err(Dropped::NotCp),
        packets: &[],
        store: &[],
    },
];

/// A text is stored once, and texts are never compared.
pub static TEXTS: [Row; 5] = [
    Row {
        name: "a text",
        now: 0,
        octets: b"\x09\x01\x19\x01\x00\x03\x91\x01\x00\x00\x11\x04\x04\x91\x01\x10\x00\x00\x00\x10\x10\x00\x00\x00\x00\x02\xE8\x34",
        answer: Ok(Outcome::Finished),
        packets: &[b"\x89\x04", b"\x89\x01\x06\x02\x00\x41\x02\x00\x00"],
        store: &["hi"],
    },
    Row {
        name: "the same delivery",
        now: 0,
        octets: b"\x09\x01\x19\x01\x00\x03\x91\x01\x00\x00\x11\x04\x04\x91\x01\x10\x00\x00\x00\x10\x10\x00\x00\x00\x00\x02\xE8\x34",
        answer: Ok(Outcome::Repeat),
        packets: &[b"\x89\x04", b"\x89\x01\x06\x02\x00\x41\x02\x00\x00"],
        store: &["hi"],
    },
    Row {
        name: "the same text with another stamp",
        now: 0,
        octets: b"\x19\x01\x19\x01\x01\x03\x91\x01\x00\x00\x11\x04\x04\x91\x01\x10\x00\x00\x00\x10\x10\x00\x00\x10\x00\x02\xE8\x34",
        answer: Ok(Outcome::Finished),
        packets: &[b"\x99\x04", b"\x99\x01\x06\x02\x01\x41\x02\x00\x00"],
        store: &["hi", "hi"],
    },
    Row {
        name: "from another phone with the first stamp",
        now: 0,
        octets: b"\x29\x01\x19\x01\x02\x03\x91\x01\x00\x00\x11\x04\x04\x91\x01\x30\x00\x00\x00\x10\x10\x00\x00\x00\x00\x02\xE8\x34",
        answer: Ok(Outcome::Finished),
        packets: &[b"\xA9\x04", b"\xA9\x01\x06\x02\x02\x41\x02\x00\x00"],
        store: &["hi", "hi", "hi"],
    },
    Row {
        name: "an empty text",
        now: 0,
        octets: b"\x39\x01\x17\x01\x03\x03\x91\x01\x00\x00\x0F\x04\x04\x91\x01\x10\x00\x00\x00\x10\x10\x00\x00\x20\x00\x00",
        answer: Ok(Outcome::Finished),
        packets: &[b"\xB9\x04", b"\xB9\x01\x06\x02\x03\x41\x02\x00\x00"],
        store: &["hi", "hi", "hi", ""],
    },
];

/// A phone with room for one text, one open set and one key.
pub static FULL: [Row; 9] = [
    Row {
        name: "the second of two",
        now: 0,
        octets: b"\x09\x01\x1E\x01\x00\x03\x91\x01\x00\x00\x16\x44\x04\x91\x01\x10\x00\x00\x00\x10\x10\x00\x00\x00\x00\x08\x05\x00\x03\x00\x02\x02\xC2",
        answer: Ok(Outcome::Kept),
        packets: &[b"\x89\x04", b"\x89\x01\x06\x02\x00\x41\x02\x00\x00"],
        store: &[],
    },
    Row {
        name: "it comes again",
        now: 0,
        octets: b"\x09\x01\x1E\x01\x00\x03\x91\x01\x00\x00\x16\x44\x04\x91\x01\x10\x00\x00\x00\x10\x10\x00\x00\x00\x00\x08\x05\x00\x03\x00\x02\x02\xC2",
        answer: Ok(Outcome::Repeat),
        packets: &[b"\x89\x04", b"\x89\x01\x06\x02\x00\x41\x02\x00\x00"],
        store: &[],
    },
    Row {
        name: "a second set",
        now: 0,
        octets: b"\x09\x01\x1E\x01\x00\x03\x91\x01\x00\x00\x16\x44\x04\x91\x01\x10\x00\x00\x00\x10\x10\x00\x00\x00\x00\x08\x05\x00\x03\x01\x02\x01\xC2",
        answer: Ok(Outcome::Refused {
            cause: 22,
            failure: Some(0xD3),
        }),
        packets: &[
            b"\x89\x04",
            b"\x89\x01\x09\x04\x00\x01\x16\x41\x03\x00\xD3\x00",
        ],
        store: &[],
    },
    Row {
        name: "the first of two",
        now: 0,
        octets: b"\x09\x01\x1E\x01\x00\x03\x91\x01\x00\x00\x16\x44\x04\x91\x01\x10\x00\x00\x00\x10\x10\x00\x00\x00\x00\x08\x05\x00\x03\x00\x02\x01\xC4",
        answer: Ok(Outcome::Finished),
        packets: &[b"\x89\x04", b"\x89\x01\x06\x02\x00\x41\x02\x00\x00"],
        store: &["ba"],
    },
    Row {
        name: "a finished piece comes again",
        now: 0,
        octets: b"\x09\x01\x1E\x01\x00\x03\x91\x01\x00\x00\x16\x44\x04\x91\x01\x10\x00\x00\x00\x10\x10\x00\x00\x00\x00\x08\x05\x00\x03\x00\x02\x02\xC2",
        answer: Ok(Outcome::Repeat),
        packets: &[b"\x89\x04", b"\x89\x01\x06\x02\x00\x41\x02\x00\x00"],
        store: &["ba"],
    },
    Row {
        name: "the second set now",
        now: 0,
        octets: b"\x09\x01\x1E\x01\x00\x03\x91\x01\x00\x00\x16\x44\x04\x91\x01\x10\x00\x00\x00\x10\x10\x00\x00\x00\x00\x08\x05\x00\x03\x01\x02\x01\xC2",
        answer: Ok(Outcome::Kept),
        packets: &[b"\x89\x04", b"\x89\x01\x06\x02\x00\x41\x02\x00\x00"],
        store: &["ba"],
    },
    Row {
        name: "the store is full",
        now: 0,
        octets: b"\x09\x01\x1E\x01\x00\x03\x91\x01\x00\x00\x16\x44\x04\x91\x01\x10\x00\x00\x00\x10\x10\x00\x00\x00\x00\x08\x05\x00\x03\x01\x02\x02\xC2",
        answer: Ok(Outcome::Refused {
            cause: 22,
            failure: Some(0xD3),
        }),
        packets: &[
            b"\x89\x04",
            b"\x89\x01\x09\x04\x00\x01\x16\x41\x03\x00\xD3\x00",
        ],
        store: &["ba"],
    },
    Row {
        name: "a repeat all the same",
        now: 0,
        octets: b"\x09\x01\x1E\x01\x00\x03\x91\x01\x00\x00\x16\x44\x04\x91\x01\x10\x00\x00\x00\x10\x10\x00\x00\x00\x00\x08\x05\x00\x03\x01\x02\x01\xC2",
        answer: Ok(Outcome::Repeat),
        packets: &[b"\x89\x04", b"\x89\x01\x06\x02\x00\x41\x02\x00\x00"],
        store: &["ba"],
    },
    Row {
        name: "and so a text in one piece",
        now: 0,
        octets: b"\x09\x01\x19\x01\x00\x03\x91\x01\x00\x00\x11\x04\x04\x91\x01\x10\x00\x00\x00\x10\x10\x00\x00\x00\x00\x02\xE8\x34",
        answer: Ok(Outcome::Refused {
            cause: 22,
            failure: Some(0xD3),
        }),
        packets: &[
            b"\x89\x04",
            b"\x89\x01\x09\x04\x00\x01\x16\x41\x03\x00\xD3\x00",
        ],
        store: &["ba"],
    },
];

/// References of both widths, and a set of both alphabets.
pub static WIDTHS: [Row; 7] = [
    Row {
        name: "reference 7 of eight bits",
        now: 0,
        octets: b"\x09\x01\x1E\x01\x00\x03\x91\x01\x00\x00\x16\x44\x04\x91\x01\x10\x00\x00\x00\x10\x10\x00\x00\x00\x00\x08\x05\x00\x03\x07\x02\x01\xC2",
        answer: Ok(Outcome::Kept),
        packets: &[b"\x89\x04", b"\x89\x01\x06\x02\x00\x41\x02\x00\x00"],
        store: &[],
    },
    Row {
        name: "reference 7 of sixteen bits",
        now: 0,
        octets: b"\x09\x01\x1F\x01\x00\x03\x91\x01\x00\x00\x17\x44\x04\x91\x01\x10\x00\x00\x00\x10\x10\x00\x00\x00\x00\x09\x06\x08\x04\x00\x07\x02\x01\x61",
        answer: Ok(Outcome::Kept),
        packets: &[b"\x89\x04", b"\x89\x01\x06\x02\x00\x41\x02\x00\x00"],
        store: &[],
    },
    Row {
        name: "reference 263",
        now: 0,
        octets: b"\x09\x01\x1F\x01\x00\x03\x91\x01\x00\x00\x17\x44\x04\x91\x01\x10\x00\x00\x00\x10\x10\x00\x00\x00\x00\x09\x06\x08\x04\x01\x07\x02\x02\x61",
        answer: Ok(Outcome::Kept),
        packets: &[b"\x89\x04", b"\x89\x01\x06\x02\x00\x41\x02\x00\x00"],
        store: &[],
    },
    Row {
        name: "the other piece of the second",
        now: 0,
        octets: b"\x09\x01\x1F\x01\x00\x03\x91\x01\x00\x00\x17\x44\x04\x91\x01\x10\x00\x00\x00\x10\x10\x00\x00\x00\x00\x09\x06\x08\x04\x00\x07\x02\x02\x62",
        answer: Ok(Outcome::Finished),
        packets: &[b"\x89\x04", b"\x89\x01\x06\x02\x00\x41\x02\x00\x00"],
        store: &["ab"],
    },
    Row {
        name: "the other piece of the first, in UCS-2",
        now: 0,
        octets: b"\x09\x01\x1F\x01\x00\x03\x91\x01\x00\x00\x17\x44\x04\x91\x01\x10\x00\x08\x00\x10\x10\x00\x00\x00\x00\x08\x05\x00\x03\x07\x02\x02\x04\x36",
        answer: Ok(Outcome::Finished),
        packets: &[b"\x89\x04", b"\x89\x01\x06\x02\x00\x41\x02\x00\x00"],
        store: &["ab", "aж"],
    },
    Row {
        name: "the other piece of the third",
        now: 0,
        octets: b"\x09\x01\x1F\x01\x00\x03\x91\x01\x00\x00\x17\x44\x04\x91\x01\x10\x00\x00\x00\x10\x10\x00\x00\x00\x00\x09\x06\x08\x04\x01\x07\x02\x01\x63",
        answer: Ok(Outcome::Finished),
        packets: &[b"\x89\x04", b"\x89\x01\x06\x02\x00\x41\x02\x00\x00"],
        store: &["ab", "aж", "ca"],
    },
    Row {
        name: "a sequence above its maximum",
        now: 0,
        octets: b"\x09\x01\x1F\x01\x00\x03\x91\x01\x00\x00\x17\x44\x04\x91\x01\x10\x00\x00\x00\x10\x10\x00\x00\x00\x00\x09\x05\x00\x03\x0A\x02\x03\xD0\x69",
        answer: Ok(Outcome::Finished),
        packets: &[b"\x89\x04", b"\x89\x01\x06\x02\x00\x41\x02\x00\x00"],
        store: &["ab", "aж", "ca", "hi"],
    },
];

/// A store of one text.
pub static FULL_STORE: [Row; 4] = [
    Row {
        name: "one",
        now: 0,
        octets: b"\x09\x01\x1A\x01\x00\x03\x91\x01\x00\x00\x12\x04\x04\x91\x01\x10\x00\x00\x00\x10\x10\x00\x00\x00\x00\x03\x6F\x77\x19",
        answer: Ok(Outcome::Finished),
        packets: &[b"\x89\x04", b"\x89\x01\x06\x02\x00\x41\x02\x00\x00"],
        store: &["one"],
    },
    Row {
        name: "two",
        now: 0,
        octets: b"\x19\x01\x1A\x01\x01\x03\x91\x01\x00\x00\x12\x04\x04\x91\x01\x10\x00\x00\x00\x10\x10\x00\x00\x10\x00\x03\xF4\xFB\x1B",
        answer: Ok(Outcome::Refused {
            cause: 22,
            failure: Some(0xD3),
        }),
        packets: &[
            b"\x99\x04",
            b"\x99\x01\x09\x04\x01\x01\x16\x41\x03\x00\xD3\x00",
        ],
        store: &["one"],
    },
    Row {
        name: "two again",
        now: 0,
        octets: b"\x29\x01\x1A\x01\x02\x03\x91\x01\x00\x00\x12\x04\x04\x91\x01\x10\x00\x00\x00\x10\x10\x00\x00\x10\x00\x03\xF4\xFB\x1B",
        answer: Ok(Outcome::Refused {
            cause: 22,
            failure: Some(0xD3),
        }),
        packets: &[
            b"\xA9\x04",
            b"\xA9\x01\x09\x04\x02\x01\x16\x41\x03\x00\xD3\x00",
        ],
        store: &["one"],
    },
    Row {
        name: "one again",
        now: 0,
        octets: b"\x09\x01\x1A\x01\x00\x03\x91\x01\x00\x00\x12\x04\x04\x91\x01\x10\x00\x00\x00\x10\x10\x00\x00\x00\x00\x03\x6F\x77\x19",
        answer: Ok(Outcome::Repeat),
        packets: &[b"\x89\x04", b"\x89\x01\x06\x02\x00\x41\x02\x00\x00"],
        store: &["one"],
    },
];

/// Sets go when they have been open for 604,800 seconds.
pub static AGES: [Row; 8] = [
    Row {
        name: "a set is opened",
        now: 0,
        octets: b"\x09\x01\x1E\x01\x00\x03\x91\x01\x00\x00\x16\x44\x04\x91\x01\x10\x00\x00\x00\x10\x10\x00\x00\x00\x00\x08\x05\x00\x03\x00\x02\x01\xC2",
        answer: Ok(Outcome::Kept),
        packets: &[b"\x89\x04", b"\x89\x01\x06\x02\x00\x41\x02\x00\x00"],
        store: &[],
    },
    Row {
        name: "a second before its age",
        now: 604_799,
        octets: b"\x09\x01\x1E\x01\x00\x03\x91\x01\x00\x00\x16\x44\x04\x91\x01\x10\x00\x00\x00\x10\x10\x00\x00\x00\x00\x08\x05\x00\x03\x00\x02\x01\xC2",
        answer: Ok(Outcome::Repeat),
        packets: &[b"\x89\x04", b"\x89\x01\x06\x02\x00\x41\x02\x00\x00"],
        store: &[],
    },
    Row {
        name: "it is gone, and opened anew",
        now: 604_800,
        octets: b"\x09\x01\x1E\x01\x00\x03\x91\x01\x00\x00\x16\x44\x04\x91\x01\x10\x00\x00\x00\x10\x10\x00\x00\x00\x00\x08\x05\x00\x03\x00\x02\x02\xC2",
        answer: Ok(Outcome::Kept),
        packets: &[b"\x89\x04", b"\x89\x01\x06\x02\x00\x41\x02\x00\x00"],
        store: &[],
    },
    Row {
        name: "it is whole",
        now: 604_800,
        octets: b"\x09\x01\x1E\x01\x00\x03\x91\x01\x00\x00\x16\x44\x04\x91\x01\x10\x00\x00\x00\x10\x10\x00\x00\x00\x00\x08\x05\x00\x03\x00\x02\x01\xC2",
        answer: Ok(Outcome::Finished),
        packets: &[b"\x89\x04", b"\x89\x01\x06\x02\x00\x41\x02\x00\x00"],
        store: &["aa"],
    },
    Row {
        name: "a finished key does not age",
        now: 1_300_000,
        octets: b"\x09\x01\x1E\x01\x00\x03\x91\x01\x00\x00\x16\x44\x04\x91\x01\x10\x00\x00\x00\x10\x10\x00\x00\x00\x00\x08\x05\x00\x03\x00\x02\x02\xC2",
        answer: Ok(Outcome::Repeat),
        packets: &[b"\x89\x04", b"\x89\x01\x06\x02\x00\x41\x02\x00\x00"],
        store: &["aa"],
    },
    Row {
        name: "another set",
        now: 1_300_000,
        octets: b"\x09\x01\x1E\x01\x00\x03\x91\x01\x00\x00\x16\x44\x04\x91\x01\x10\x00\x00\x00\x10\x10\x00\x00\x00\x00\x08\x05\x00\x03\x01\x02\x01\xC2",
        answer: Ok(Outcome::Kept),
        packets: &[b"\x89\x04", b"\x89\x01\x06\x02\x00\x41\x02\x00\x00"],
        store: &["aa"],
    },
    Row {
        name: "no other one beside it",
        now: 1_904_799,
        octets: b"\x09\x01\x1E\x01\x00\x03\x91\x01\x00\x00\x16\x44\x04\x91\x01\x10\x00\x00\x00\x10\x10\x00\x00\x00\x00\x08\x05\x00\x03\x02\x02\x01\xC2",
        answer: Ok(Outcome::Refused {
            cause: 22,
            failure: Some(0xD3),
        }),
        packets: &[
            b"\x89\x04",
            b"\x89\x01\x09\x04\x00\x01\x16\x41\x03\x00\xD3\x00",
        ],
        store: &["aa"],
    },
    Row {
        name: "another one after it",
        now: 1_904_800,
        octets: b"\x09\x01\x1E\x01\x00\x03\x91\x01\x00\x00\x16\x44\x04\x91\x01\x10\x00\x00\x00\x10\x10\x00\x00\x00\x00\x08\x05\x00\x03\x02\x02\x01\xC2",
        answer: Ok(Outcome::Kept),
        packets: &[b"\x89\x04", b"\x89\x01\x06\x02\x00\x41\x02\x00\x00"],
        store: &["aa"],
    },
];
