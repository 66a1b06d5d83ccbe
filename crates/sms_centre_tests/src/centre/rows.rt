//! Calls of a centre with the phones +1001, +1002 and +1003, and what it answers.

use sms_message::{Dropped, Outcome};

/// A call.
pub enum Call {
    Receive { phone: usize, octets: &'static [u8] },
    Push { phone: usize },
    Advance,
}

/// A call at a moment, its answer, and the packets that it puts out.
pub struct Row {
    pub name: &'static str,
    pub now: u64,
    pub call: Call,
    pub answer: Result<Outcome, Dropped>,
    pub packets: &'static [&'static [u8]],
}

/// A submission of `hi` from the first phone to the second.
const FIRST: &[u8] =
    b"\x09\x01\x13\x00\x00\x00\x03\x91\x01\x00\x0B\x01\x00\x04\x91\x01\x20\x00\x00\x02\xE8\x34";

/// What is no submission, or cannot be accepted.
pub static REFUSALS: [Row; 18] = [
    Row {
        name: "enhanced validity",
        now: 0,
        call: Call::Receive {
            phone: 0,
            octets: b"\x09\x01\x1A\x00\x00\x00\x03\x91\x01\x00\x12\x09\x00\x04\x91\x01\x20\x00\x00\x00\x00\x00\x00\x00\x00\x00\x02\xE8\x34",
        },
        answer: Ok(Outcome::Refused {
            cause: 21,
            failure: Some(0xC6),
        }),
        packets: &[
            b"\x89\x04",
            b"\x89\x01\x10\x05\x00\x01\x15\x41\x0A\x01\xC6\x00\x00\x10\x10\x00\x00\x00\x00",
        ],
    },
    Row {
        name: "a validity that ends now",
        now: 0,
        call: Call::Receive {
            phone: 0,
            octets: b"\x09\x01\x1A\x00\x00\x00\x03\x91\x01\x00\x12\x19\x00\x04\x91\x01\x20\x00\x00\x00\x10\x10\x00\x00\x00\x00\x02\xE8\x34",
        },
        answer: Ok(Outcome::Refused {
            cause: 21,
            failure: Some(0xC7),
        }),
        packets: &[
            b"\x89\x04",
            b"\x89\x01\x10\x05\x00\x01\x15\x41\x0A\x01\xC7\x00\x00\x10\x10\x00\x00\x00\x00",
        ],
    },
    Row {
        name: "a validity without a moment",
        now: 0,
        call: Call::Receive {
            phone: 0,
            octets: b"\x09\x01\x1A\x00\x00\x00\x03\x91\x01\x00\x12\x19\x00\x04\x91\x01\x20\x00\x00\x00\x00\x00\x00\x00\x00\x00\x02\xE8\x34",
        },
        answer: Ok(Outcome::Refused {
            cause: 21,
            failure: Some(0xC7),
        }),
        packets: &[
            b"\x89\x04",
            b"\x89\x01\x10\x05\x00\x01\x15\x41\x0A\x01\xC7\x00\x00\x10\x10\x00\x00\x00\x00",
        ],
    },
    Row {
        name: "another type of unit",
        now: 0,
        call: Call::Receive {
            phone: 0,
            octets: b"\x09\x01\x09\x00\x00\x00\x03\x91\x01\x00\x01\x02",
        },
        answer: Ok(Outcome::Refused {
            cause: 21,
            failure: Some(0xB0),
        }),
        packets: &[
            b"\x89\x04",
            b"\x89\x01\x10\x05\x00\x01\x15\x41\x0A\x01\xB0\x00\x00\x10\x10\x00\x00\x00\x00",
        ],
    },
    Row {
        name: "a unit cut short",
        now: 0,
        call: Call::Receive {
            phone: 0,
            octets: b"\x09\x01\x09\x00\x00\x00\x03\x91\x01\x00\x01\x01",
        },
        answer: Ok(Outcome::Refused {
            cause: 21,
            failure: Some(0xFF),
        }),
        packets: &[
            b"\x89\x04",
            b"\x89\x01\x10\x05\x00\x01\x15\x41\x0A\x01\xFF\x00\x00\x10\x10\x00\x00\x00\x00",
        ],
    },
    Row {
        name: "an unknown type of RP message",
        now: 0,
        call: Call::Receive {
            phone: 0,
            octets: b"\x09\x01\x02\x06\x05",
        },
        answer: Ok(Outcome::Refused {
            cause: 97,
            failure: None,
        }),
        packets: &[b"\x89\x04", b"\x89\x01\x04\x05\x05\x01\x61"],
    },
    Row {
        name: "an RP-DATA cut short",
        now: 0,
        call: Call::Receive {
            phone: 0,
            octets: b"\x09\x01\x03\x00\x05\x01",
        },
        answer: Ok(Outcome::Refused {
            cause: 96,
            failure: None,
        }),
        packets: &[b"\x89\x04", b"\x89\x01\x04\x05\x05\x01\x60"],
    },
    Row {
        name: "an unknown recipient",
        now: 0,
        call: Call::Receive {
            phone: 0,
            octets: b"\x09\x01\x13\x00\x00\x00\x03\x91\x01\x00\x0B\x01\x00\x04\x91\x01\x90\x00\x00\x02\xE8\x34",
        },
        answer: Ok(Outcome::Refused {
            cause: 1,
            failure: Some(0xC3),
        }),
        packets: &[
            b"\x89\x04",
            b"\x89\x01\x10\x05\x00\x01\x01\x41\x0A\x01\xC3\x00\x00\x10\x10\x00\x00\x00\x00",
        ],
    },
    Row {
        name: "a CP-DATA of no octets",
        now: 0,
        call: Call::Receive {
            phone: 0,
            octets: b"\x09\x01\x00",
        },
        answer: Err(Dropped::Unmatched),
        packets: &[],
    },
    Row {
        name: "a CP-DATA of one octet",
        now: 0,
        call: Call::Receive {
            phone: 0,
            octets: b"\x09\x01\x01\x00",
        },
        answer: Err(Dropped::Unmatched),
        packets: &[],
    },
    Row {
        name: "one octet of an unknown type",
        now: 0,
        call: Call::Receive {
            phone: 0,
            octets: b"\x09\x01\x01\x06",
        },
        answer: Err(Dropped::Unmatched),
        packets: &[],
    },
    Row {
        name: "an unknown type in a transaction of the centre",
        now: 0,
        call: Call::Receive {
            phone: 0,
            octets: b"\x89\x01\x02\x06\x05",
        },
        answer: Err(Dropped::Unmatched),
        packets: &[],
    },
    Row {
        name: "an RP-DATA to a phone",
        now: 0,
        call: Call::Receive {
            phone: 0,
            octets: b"\x09\x01\x19\x01\x00\x03\x91\x01\x00\x00\x11\x04\x04\x91\x01\x10\x00\x00\x00\x10\x10\x00\x00\x00\x00\x02\xE8\x34",
        },
        answer: Err(Dropped::Unmatched),
        packets: &[],
    },
    Row {
        name: "an RP-ACK in a transaction of the phone",
        now: 0,
        call: Call::Receive {
            phone: 0,
            octets: b"\x09\x01\x02\x02\x00",
        },
        answer: Err(Dropped::Unmatched),
        packets: &[],
    },
    Row {
        name: "a CP-ACK",
        now: 0,
        call: Call::Receive {
            phone: 0,
            octets: b"\x09\x04",
        },
        answer: Ok(Outcome::Noted),
        packets: &[],
    },
    Row {
        name: "a CP-ERROR of the other side",
        now: 0,
        call: Call::Receive {
            phone: 0,
            octets: b"\xE9\x10\x05",
        },
        answer: Ok(Outcome::Noted),
        packets: &[],
    },
    Row {
        name: "a packet cut short",
        now: 0,
        call: Call::Receive {
            phone: 0,
            octets: b"\x09\x01\x13\x00\x00\x00\x03\x91\x01\x00\x0B\x01\x00\x04\x91\x01\x20\x00\x00\x02",
        },
        answer: Err(Dropped::NotCp),
        packets: &[],
    },
    Row {
        name: "the reserved transaction value",
        now: 0,
        call: Call::Receive {
            phone: 0,
            octets: b"\x79\x01\x04",
        },
        answer: Err(Dropped::NotCp),
        packets: &[],
    },
];

/// One stamp is given to each message of a recipient, one second after the last one.
pub static STAMPS: [Row; 4] = [
    Row {
        name: "the first time",
        now: 0,
        call: Call::Receive {
            phone: 0,
            octets: FIRST,
        },
        answer: Ok(Outcome::Held),
        packets: &[
            b"\x89\x04",
            b"\x89\x01\x0D\x03\x00\x41\x09\x01\x00\x00\x10\x10\x00\x00\x00\x00",
        ],
    },
    Row {
        name: "the same octets in the same second",
        now: 0,
        call: Call::Receive {
            phone: 0,
            octets: FIRST,
        },
        answer: Ok(Outcome::Held),
        packets: &[
            b"\x89\x04",
            b"\x89\x01\x0D\x03\x00\x41\x09\x01\x00\x00\x10\x10\x00\x00\x10\x00",
        ],
    },
    Row {
        name: "the last second",
        now: 3_155_759_999,
        call: Call::Receive {
            phone: 0,
            octets: FIRST,
        },
        answer: Ok(Outcome::Held),
        packets: &[
            b"\x89\x04",
            b"\x89\x01\x0D\x03\x00\x41\x09\x01\x00\x99\x21\x13\x32\x95\x95\x00",
        ],
    },
    Row {
        name: "no second is left",
        now: 3_155_759_999,
        call: Call::Receive {
            phone: 0,
            octets: b"\x19\x01\x13\x00\x01\x00\x03\x91\x01\x00\x0B\x01\x01\x04\x91\x01\x20\x00\x00\x02\xE8\x34",
        },
        answer: Ok(Outcome::Refused {
            cause: 38,
            failure: Some(0xC2),
        }),
        packets: &[
            b"\x99\x04",
            b"\x99\x01\x10\x05\x01\x01\x26\x41\x0A\x01\xC2\x00\x99\x21\x13\x32\x95\x95\x00",
        ],
    },
];

/// A message is delivered, and held on.
pub static DELIVERED: [Row; 6] = [
    Row {
        name: "a submission",
        now: 0,
        call: Call::Receive {
            phone: 0,
            octets: FIRST,
        },
        answer: Ok(Outcome::Held),
        packets: &[
            b"\x89\x04",
            b"\x89\x01\x0D\x03\x00\x41\x09\x01\x00\x00\x10\x10\x00\x00\x00\x00",
        ],
    },
    Row {
        name: "a push",
        now: 0,
        call: Call::Push { phone: 1 },
        answer: Ok(Outcome::Pushed),
        packets: &[
            b"\x09\x01\x19\x01\x00\x03\x91\x01\x00\x00\x11\x04\x04\x91\x01\x10\x00\x00\x00\x10\x10\x00\x00\x00\x00\x02\xE8\x34",
        ],
    },
    Row {
        name: "its acknowledgement",
        now: 0,
        call: Call::Receive {
            phone: 1,
            octets: b"\x89\x01\x06\x02\x00\x41\x02\x00\x00",
        },
        answer: Ok(Outcome::Delivered),
        packets: &[b"\x09\x04"],
    },
    Row {
        name: "the acknowledgement again",
        now: 0,
        call: Call::Receive {
            phone: 1,
            octets: b"\x89\x01\x06\x02\x00\x41\x02\x00\x00",
        },
        answer: Err(Dropped::Unmatched),
        packets: &[],
    },
    Row {
        name: "a push after it",
        now: 0,
        call: Call::Push { phone: 1 },
        answer: Ok(Outcome::NothingWaits),
        packets: &[],
    },
    Row {
        name: "a repeat after it",
        now: 0,
        call: Call::Receive {
            phone: 0,
            octets: b"\x19\x01\x13\x00\x01\x00\x03\x91\x01\x00\x0B\x05\x00\x04\x91\x01\x20\x00\x00\x02\xE8\x34",
        },
        answer: Ok(Outcome::Refused {
            cause: 21,
            failure: Some(0xC5),
        }),
        packets: &[
            b"\x99\x04",
            b"\x99\x01\x10\x05\x01\x01\x15\x41\x0A\x01\xC5\x00\x00\x10\x10\x00\x00\x00\x00",
        ],
    },
];

/// Messages are pushed in turn, and only the latest push can be answered.
pub static TURNS: [Row; 15] = [
    Row {
        name: "the first",
        now: 0,
        call: Call::Receive {
            phone: 0,
            octets: b"\x09\x01\x13\x00\x00\x00\x03\x91\x01\x00\x0B\x01\x00\x04\x91\x01\x20\x00\x00\x02\xE8\x34",
        },
        answer: Ok(Outcome::Held),
        packets: &[
            b"\x89\x04",
            b"\x89\x01\x0D\x03\x00\x41\x09\x01\x00\x00\x10\x10\x00\x00\x00\x00",
        ],
    },
    Row {
        name: "the second",
        now: 0,
        call: Call::Receive {
            phone: 0,
            octets: b"\x19\x01\x13\x00\x01\x00\x03\x91\x01\x00\x0B\x01\x01\x04\x91\x01\x20\x00\x00\x02\xE8\x34",
        },
        answer: Ok(Outcome::Held),
        packets: &[
            b"\x99\x04",
            b"\x99\x01\x0D\x03\x01\x41\x09\x01\x00\x00\x10\x10\x00\x00\x10\x00",
        ],
    },
    Row {
        name: "the first is pushed",
        now: 0,
        call: Call::Push { phone: 1 },
        answer: Ok(Outcome::Pushed),
        packets: &[
            b"\x09\x01\x19\x01\x00\x03\x91\x01\x00\x00\x11\x00\x04\x91\x01\x10\x00\x00\x00\x10\x10\x00\x00\x00\x00\x02\xE8\x34",
        ],
    },
    Row {
        name: "the second is pushed",
        now: 0,
        call: Call::Push { phone: 1 },
        answer: Ok(Outcome::Pushed),
        packets: &[
            b"\x19\x01\x19\x01\x01\x03\x91\x01\x00\x00\x11\x00\x04\x91\x01\x10\x00\x00\x00\x10\x10\x00\x00\x10\x00\x02\xE8\x34",
        ],
    },
    Row {
        name: "an answer to the first push",
        now: 0,
        call: Call::Receive {
            phone: 1,
            octets: b"\x89\x01\x06\x02\x00\x41\x02\x00\x00",
        },
        answer: Err(Dropped::Unmatched),
        packets: &[],
    },
    Row {
        name: "its value with the other reference",
        now: 0,
        call: Call::Receive {
            phone: 1,
            octets: b"\x89\x01\x06\x02\x01\x41\x02\x00\x00",
        },
        answer: Err(Dropped::Unmatched),
        packets: &[],
    },
    Row {
        name: "its reference with the other value",
        now: 0,
        call: Call::Receive {
            phone: 1,
            octets: b"\x99\x01\x06\x02\x00\x41\x02\x00\x00",
        },
        answer: Err(Dropped::Unmatched),
        packets: &[],
    },
    Row {
        name: "the answer of another phone",
        now: 0,
        call: Call::Receive {
            phone: 2,
            octets: b"\x99\x01\x06\x02\x01\x41\x02\x00\x00",
        },
        answer: Err(Dropped::Unmatched),
        packets: &[],
    },
    Row {
        name: "no room for the second",
        now: 0,
        call: Call::Receive {
            phone: 1,
            octets: b"\x99\x01\x09\x04\x01\x01\x16\x41\x03\x00\xD3\x00",
        },
        answer: Ok(Outcome::Returned),
        packets: &[b"\x19\x04"],
    },
    Row {
        name: "the answer again",
        now: 0,
        call: Call::Receive {
            phone: 1,
            octets: b"\x99\x01\x09\x04\x01\x01\x16\x41\x03\x00\xD3\x00",
        },
        answer: Err(Dropped::Unmatched),
        packets: &[],
    },
    Row {
        name: "the first again",
        now: 0,
        call: Call::Push { phone: 1 },
        answer: Ok(Outcome::Pushed),
        packets: &[
            b"\x29\x01\x19\x01\x02\x03\x91\x01\x00\x00\x11\x00\x04\x91\x01\x10\x00\x00\x00\x10\x10\x00\x00\x00\x00\x02\xE8\x34",
        ],
    },
    Row {
        name: "it is refused for good",
        now: 0,
        call: Call::Receive {
            phone: 1,
            octets: b"\xA9\x01\x04\x04\x02\x01\x6F",
        },
        answer: Ok(Outcome::Abandoned),
        packets: &[b"\x29\x04"],
    },
    Row {
        name: "the second alone",
        now: 0,
        call: Call::Push { phone: 1 },
        answer: Ok(Outcome::Pushed),
        packets: &[
            b"\x39\x01\x19\x01\x03\x03\x91\x01\x00\x00\x11\x04\x04\x91\x01\x10\x00\x00\x00\x10\x10\x00\x00\x10\x00\x02\xE8\x34",
        ],
    },
    Row {
        name: "its acknowledgement without a report",
        now: 0,
        call: Call::Receive {
            phone: 1,
            octets: b"\xB9\x01\x02\x02\x03",
        },
        answer: Ok(Outcome::Delivered),
        packets: &[b"\x39\x04"],
    },
    Row {
        name: "neither waits",
        now: 0,
        call: Call::Push { phone: 1 },
        answer: Ok(Outcome::NothingWaits),
        packets: &[],
    },
];

/// Duplicates are known by phone, message reference and recipient, and rejected where that is asked
/// for.
pub static DUPLICATES: [Row; 7] = [
    Row {
        name: "nothing is held",
        now: 0,
        call: Call::Receive {
            phone: 0,
            octets: b"\x09\x01\x13\x00\x00\x00\x03\x91\x01\x00\x0B\x05\x00\x04\x91\x01\x20\x00\x00\x02\xE8\x34",
        },
        answer: Ok(Outcome::Held),
        packets: &[
            b"\x89\x04",
            b"\x89\x01\x0D\x03\x00\x41\x09\x01\x00\x00\x10\x10\x00\x00\x00\x00",
        ],
    },
    Row {
        name: "the same is",
        now: 0,
        call: Call::Receive {
            phone: 0,
            octets: b"\x19\x01\x13\x00\x01\x00\x03\x91\x01\x00\x0B\x05\x00\x04\x91\x01\x20\x00\x00\x02\xE8\x34",
        },
        answer: Ok(Outcome::Refused {
            cause: 21,
            failure: Some(0xC5),
        }),
        packets: &[
            b"\x99\x04",
            b"\x99\x01\x10\x05\x01\x01\x15\x41\x0A\x01\xC5\x00\x00\x10\x10\x00\x00\x00\x00",
        ],
    },
    Row {
        name: "without TP-RD",
        now: 0,
        call: Call::Receive {
            phone: 0,
            octets: b"\x29\x01\x13\x00\x02\x00\x03\x91\x01\x00\x0B\x01\x00\x04\x91\x01\x20\x00\x00\x02\xE8\x34",
        },
        answer: Ok(Outcome::Held),
        packets: &[
            b"\xA9\x04",
            b"\xA9\x01\x0D\x03\x02\x41\x09\x01\x00\x00\x10\x10\x00\x00\x10\x00",
        ],
    },
    Row {
        name: "of another reference",
        now: 0,
        call: Call::Receive {
            phone: 0,
            octets: b"\x39\x01\x13\x00\x03\x00\x03\x91\x01\x00\x0B\x05\x01\x04\x91\x01\x20\x00\x00\x02\xE8\x34",
        },
        answer: Ok(Outcome::Held),
        packets: &[
            b"\xB9\x04",
            b"\xB9\x01\x0D\x03\x03\x41\x09\x01\x00\x00\x10\x10\x00\x00\x20\x00",
        ],
    },
    Row {
        name: "to another recipient",
        now: 0,
        call: Call::Receive {
            phone: 0,
            octets: b"\x49\x01\x13\x00\x04\x00\x03\x91\x01\x00\x0B\x05\x00\x04\x91\x01\x30\x00\x00\x02\xE8\x34",
        },
        answer: Ok(Outcome::Held),
        packets: &[
            b"\xC9\x04",
            b"\xC9\x01\x0D\x03\x04\x41\x09\x01\x00\x00\x10\x10\x00\x00\x00\x00",
        ],
    },
    Row {
        name: "from another phone",
        now: 0,
        call: Call::Receive {
            phone: 2,
            octets: b"\x09\x01\x13\x00\x00\x00\x03\x91\x01\x00\x0B\x05\x00\x04\x91\x01\x20\x00\x00\x02\xE8\x34",
        },
        answer: Ok(Outcome::Held),
        packets: &[
            b"\x89\x04",
            b"\x89\x01\x0D\x03\x00\x41\x09\x01\x00\x00\x10\x10\x00\x00\x30\x00",
        ],
    },
    Row {
        name: "after its end",
        now: 172_800,
        call: Call::Receive {
            phone: 0,
            octets: b"\x59\x01\x13\x00\x05\x00\x03\x91\x01\x00\x0B\x05\x00\x04\x91\x01\x20\x00\x00\x02\xE8\x34",
        },
        answer: Ok(Outcome::Held),
        packets: &[
            b"\xD9\x04",
            b"\xD9\x01\x0D\x03\x05\x41\x09\x01\x00\x00\x10\x30\x00\x00\x00\x00",
        ],
    },
];

/// A key that was accepted twice is held to the later end.
pub static TWO_ENDS: [Row; 4] = [
    Row {
        name: "five minutes",
        now: 0,
        call: Call::Receive {
            phone: 0,
            octets: b"\x09\x01\x14\x00\x00\x00\x03\x91\x01\x00\x0C\x11\x00\x04\x91\x01\x20\x00\x00\x00\x02\xE8\x34",
        },
        answer: Ok(Outcome::Held),
        packets: &[
            b"\x89\x04",
            b"\x89\x01\x0D\x03\x00\x41\x09\x01\x00\x00\x10\x10\x00\x00\x00\x00",
        ],
    },
    Row {
        name: "ten minutes",
        now: 0,
        call: Call::Receive {
            phone: 0,
            octets: b"\x19\x01\x14\x00\x01\x00\x03\x91\x01\x00\x0C\x11\x00\x04\x91\x01\x20\x00\x00\x01\x02\xE8\x34",
        },
        answer: Ok(Outcome::Held),
        packets: &[
            b"\x99\x04",
            b"\x99\x01\x0D\x03\x01\x41\x09\x01\x00\x00\x10\x10\x00\x00\x10\x00",
        ],
    },
    Row {
        name: "held by the second",
        now: 599,
        call: Call::Receive {
            phone: 0,
            octets: b"\x29\x01\x14\x00\x02\x00\x03\x91\x01\x00\x0C\x15\x00\x04\x91\x01\x20\x00\x00\x00\x02\xE8\x34",
        },
        answer: Ok(Outcome::Refused {
            cause: 21,
            failure: Some(0xC5),
        }),
        packets: &[
            b"\xA9\x04",
            b"\xA9\x01\x10\x05\x02\x01\x15\x41\x0A\x01\xC5\x00\x00\x10\x10\x00\x90\x95\x00",
        ],
    },
    Row {
        name: "held no more",
        now: 600,
        call: Call::Receive {
            phone: 0,
            octets: b"\x39\x01\x14\x00\x03\x00\x03\x91\x01\x00\x0C\x15\x00\x04\x91\x01\x20\x00\x00\x00\x02\xE8\x34",
        },
        answer: Ok(Outcome::Held),
        packets: &[
            b"\xB9\x04",
            b"\xB9\x01\x0D\x03\x03\x41\x09\x01\x00\x00\x10\x10\x00\x01\x00\x00",
        ],
    },
];

/// Full: a table of one message.
pub static FULL: [Row; 5] = [
    Row {
        name: "the first message",
        now: 0,
        call: Call::Receive {
            phone: 0,
            octets: FIRST,
        },
        answer: Ok(Outcome::Held),
        packets: &[
            b"\x89\x04",
            b"\x89\x01\x0D\x03\x00\x41\x09\x01\x00\x00\x10\x10\x00\x00\x00\x00",
        ],
    },
    Row {
        name: "the table is full",
        now: 0,
        call: Call::Receive {
            phone: 2,
            octets: b"\x09\x01\x13\x00\x00\x00\x03\x91\x01\x00\x0B\x01\x00\x04\x91\x01\x10\x00\x00\x02\xE8\x34",
        },
        answer: Ok(Outcome::Refused {
            cause: 42,
            failure: Some(0xC0),
        }),
        packets: &[
            b"\x89\x04",
            b"\x89\x01\x10\x05\x00\x01\x2A\x41\x0A\x01\xC0\x00\x00\x10\x10\x00\x00\x00\x00",
        ],
    },
    Row {
        name: "the clock moves",
        now: 172_800,
        call: Call::Advance,
        answer: Ok(Outcome::Ticked),
        packets: &[],
    },
    Row {
        name: "the message has ended",
        now: 172_800,
        call: Call::Push { phone: 1 },
        answer: Ok(Outcome::NothingWaits),
        packets: &[],
    },
    Row {
        name: "there is room",
        now: 172_800,
        call: Call::Receive {
            phone: 2,
            octets: b"\x19\x01\x13\x00\x01\x00\x03\x91\x01\x00\x0B\x01\x01\x04\x91\x01\x10\x00\x00\x02\xE8\x34",
        },
        answer: Ok(Outcome::Held),
        packets: &[
            b"\x99\x04",
            b"\x99\x01\x0D\x03\x01\x41\x09\x01\x00\x00\x10\x30\x00\x00\x00\x00",
        ],
    },
];

/// A message that has ended is gone, and so is the answer to its push.
pub static ENDED: [Row; 4] = [
    Row {
        name: "five minutes",
        now: 0,
        call: Call::Receive {
            phone: 0,
            octets: b"\x09\x01\x14\x00\x00\x00\x03\x91\x01\x00\x0C\x11\x00\x04\x91\x01\x20\x00\x00\x00\x02\xE8\x34",
        },
        answer: Ok(Outcome::Held),
        packets: &[
            b"\x89\x04",
            b"\x89\x01\x0D\x03\x00\x41\x09\x01\x00\x00\x10\x10\x00\x00\x00\x00",
        ],
    },
    Row {
        name: "a push",
        now: 0,
        call: Call::Push { phone: 1 },
        answer: Ok(Outcome::Pushed),
        packets: &[
            b"\x09\x01\x19\x01\x00\x03\x91\x01\x00\x00\x11\x04\x04\x91\x01\x10\x00\x00\x00\x10\x10\x00\x00\x00\x00\x02\xE8\x34",
        ],
    },
    Row {
        name: "an answer after the end",
        now: 300,
        call: Call::Receive {
            phone: 1,
            octets: b"\x89\x01\x06\x02\x00\x41\x02\x00\x00",
        },
        answer: Err(Dropped::Unmatched),
        packets: &[],
    },
    Row {
        name: "a push after the end",
        now: 300,
        call: Call::Push { phone: 1 },
        answer: Ok(Outcome::NothingWaits),
        packets: &[],
    },
];

/// Messages are accepted between a push and its answer.
pub static BETWEEN: [Row; 13] = [
    Row {
        name: "the first is accepted",
        now: 0,
        call: Call::Receive {
            phone: 0,
            octets: b"\x09\x01\x13\x00\x00\x00\x03\x91\x01\x00\x0B\x01\x00\x04\x91\x01\x20\x00\x00\x02\xE8\x34",
        },
        answer: Ok(Outcome::Held),
        packets: &[
            b"\x89\x04",
            b"\x89\x01\x0D\x03\x00\x41\x09\x01\x00\x00\x10\x10\x00\x00\x00\x00",
        ],
    },
    Row {
        name: "it is pushed",
        now: 0,
        call: Call::Push { phone: 1 },
        answer: Ok(Outcome::Pushed),
        packets: &[
            b"\x09\x01\x19\x01\x00\x03\x91\x01\x00\x00\x11\x04\x04\x91\x01\x10\x00\x00\x00\x10\x10\x00\x00\x00\x00\x02\xE8\x34",
        ],
    },
    Row {
        name: "the second is accepted before the answer",
        now: 0,
        call: Call::Receive {
            phone: 0,
            octets: b"\x19\x01\x13\x00\x01\x00\x03\x91\x01\x00\x0B\x01\x01\x04\x91\x01\x20\x00\x00\x02\xE8\x34",
        },
        answer: Ok(Outcome::Held),
        packets: &[
            b"\x99\x04",
            b"\x99\x01\x0D\x03\x01\x41\x09\x01\x00\x00\x10\x10\x00\x00\x10\x00",
        ],
    },
    Row {
        name: "the first is refused for good",
        now: 0,
        call: Call::Receive {
            phone: 1,
            octets: b"\x89\x01\x04\x04\x00\x01\x6F",
        },
        answer: Ok(Outcome::Abandoned),
        packets: &[b"\x09\x04"],
    },
    Row {
        name: "the second is pushed, alone",
        now: 0,
        call: Call::Push { phone: 1 },
        answer: Ok(Outcome::Pushed),
        packets: &[
            b"\x19\x01\x19\x01\x01\x03\x91\x01\x00\x00\x11\x04\x04\x91\x01\x10\x00\x00\x00\x10\x10\x00\x00\x10\x00\x02\xE8\x34",
        ],
    },
    Row {
        name: "the third is accepted before the answer",
        now: 0,
        call: Call::Receive {
            phone: 0,
            octets: b"\x29\x01\x13\x00\x02\x00\x03\x91\x01\x00\x0B\x01\x02\x04\x91\x01\x20\x00\x00\x02\xE8\x34",
        },
        answer: Ok(Outcome::Held),
        packets: &[
            b"\xA9\x04",
            b"\xA9\x01\x0D\x03\x02\x41\x09\x01\x00\x00\x10\x10\x00\x00\x20\x00",
        ],
    },
    Row {
        name: "no room for the second",
        now: 0,
        call: Call::Receive {
            phone: 1,
            octets: b"\x99\x01\x09\x04\x01\x01\x16\x41\x03\x00\xD3\x00",
        },
        answer: Ok(Outcome::Returned),
        packets: &[b"\x19\x04"],
    },
    Row {
        name: "the second before the third",
        now: 0,
        call: Call::Push { phone: 1 },
        answer: Ok(Outcome::Pushed),
        packets: &[
            b"\x29\x01\x19\x01\x02\x03\x91\x01\x00\x00\x11\x00\x04\x91\x01\x10\x00\x00\x00\x10\x10\x00\x00\x10\x00\x02\xE8\x34",
        ],
    },
    Row {
        name: "the third",
        now: 0,
        call: Call::Push { phone: 1 },
        answer: Ok(Outcome::Pushed),
        packets: &[
            b"\x39\x01\x19\x01\x03\x03\x91\x01\x00\x00\x11\x00\x04\x91\x01\x10\x00\x00\x00\x10\x10\x00\x00\x20\x00\x02\xE8\x34",
        ],
    },
    Row {
        name: "the third is acknowledged",
        now: 0,
        call: Call::Receive {
            phone: 1,
            octets: b"\xB9\x01\x02\x02\x03",
        },
        answer: Ok(Outcome::Delivered),
        packets: &[b"\x39\x04"],
    },
    Row {
        name: "the second alone",
        now: 0,
        call: Call::Push { phone: 1 },
        answer: Ok(Outcome::Pushed),
        packets: &[
            b"\x49\x01\x19\x01\x04\x03\x91\x01\x00\x00\x11\x04\x04\x91\x01\x10\x00\x00\x00\x10\x10\x00\x00\x10\x00\x02\xE8\x34",
        ],
    },
    Row {
        name: "the second is acknowledged",
        now: 0,
        call: Call::Receive {
            phone: 1,
            octets: b"\xC9\x01\x02\x02\x04",
        },
        answer: Ok(Outcome::Delivered),
        packets: &[b"\x49\x04"],
    },
    Row {
        name: "none waits",
        now: 0,
        call: Call::Push { phone: 1 },
        answer: Ok(Outcome::NothingWaits),
        packets: &[],
    },
];

/// The message of the latest push has ended, and the clock is put back: its answer takes out no
/// other one.
pub static GONE: [Row; 11] = [
    Row {
        name: "one for two days",
        now: 0,
        call: Call::Receive {
            phone: 0,
            octets: b"\x09\x01\x13\x00\x00\x00\x03\x91\x01\x00\x0B\x01\x00\x04\x91\x01\x20\x00\x00\x02\xE8\x34",
        },
        answer: Ok(Outcome::Held),
        packets: &[
            b"\x89\x04",
            b"\x89\x01\x0D\x03\x00\x41\x09\x01\x00\x00\x10\x10\x00\x00\x00\x00",
        ],
    },
    Row {
        name: "one for five minutes",
        now: 0,
        call: Call::Receive {
            phone: 0,
            octets: b"\x19\x01\x14\x00\x01\x00\x03\x91\x01\x00\x0C\x11\x01\x04\x91\x01\x20\x00\x00\x00\x02\xE8\x34",
        },
        answer: Ok(Outcome::Held),
        packets: &[
            b"\x99\x04",
            b"\x99\x01\x0D\x03\x01\x41\x09\x01\x00\x00\x10\x10\x00\x00\x10\x00",
        ],
    },
    Row {
        name: "a push of the first",
        now: 0,
        call: Call::Push { phone: 1 },
        answer: Ok(Outcome::Pushed),
        packets: &[
            b"\x09\x01\x19\x01\x00\x03\x91\x01\x00\x00\x11\x00\x04\x91\x01\x10\x00\x00\x00\x10\x10\x00\x00\x00\x00\x02\xE8\x34",
        ],
    },
    Row {
        name: "a push of the one that ends",
        now: 0,
        call: Call::Push { phone: 1 },
        answer: Ok(Outcome::Pushed),
        packets: &[
            b"\x19\x01\x19\x01\x01\x03\x91\x01\x00\x00\x11\x00\x04\x91\x01\x10\x00\x00\x00\x10\x10\x00\x00\x10\x00\x02\xE8\x34",
        ],
    },
    Row {
        name: "a third before the answer",
        now: 0,
        call: Call::Receive {
            phone: 0,
            octets: b"\x29\x01\x13\x00\x02\x00\x03\x91\x01\x00\x0B\x01\x02\x04\x91\x01\x20\x00\x00\x02\xE8\x34",
        },
        answer: Ok(Outcome::Held),
        packets: &[
            b"\xA9\x04",
            b"\xA9\x01\x0D\x03\x02\x41\x09\x01\x00\x00\x10\x10\x00\x00\x20\x00",
        ],
    },
    Row {
        name: "five minutes are over",
        now: 300,
        call: Call::Advance,
        answer: Ok(Outcome::Ticked),
        packets: &[],
    },
    Row {
        name: "an answer of the second before",
        now: 299,
        call: Call::Receive {
            phone: 1,
            octets: b"\x99\x01\x02\x02\x01",
        },
        answer: Ok(Outcome::Delivered),
        packets: &[b"\x19\x04"],
    },
    Row {
        name: "the first still waits",
        now: 300,
        call: Call::Push { phone: 1 },
        answer: Ok(Outcome::Pushed),
        packets: &[
            b"\x29\x01\x19\x01\x02\x03\x91\x01\x00\x00\x11\x00\x04\x91\x01\x10\x00\x00\x00\x10\x10\x00\x00\x00\x00\x02\xE8\x34",
        ],
    },
    Row {
        name: "and so does the third",
        now: 300,
        call: Call::Push { phone: 1 },
        answer: Ok(Outcome::Pushed),
        packets: &[
            b"\x39\x01\x19\x01\x03\x03\x91\x01\x00\x00\x11\x00\x04\x91\x01\x10\x00\x00\x00\x10\x10\x00\x00\x20\x00\x02\xE8\x34",
        ],
    },
    Row {
        name: "the third is taken out alone",
        now: 300,
        call: Call::Receive {
            phone: 1,
            octets: b"\xB9\x01\x02\x02\x03",
        },
        answer: Ok(Outcome::Delivered),
        packets: &[b"\x39\x04"],
    },
    Row {
        name: "the first is left",
        now: 300,
        call: Call::Push { phone: 1 },
        answer: Ok(Outcome::Pushed),
        packets: &[
            b"\x49\x01\x19\x01\x04\x03\x91\x01\x00\x00\x11\x04\x04\x91\x01\x10\x00\x00\x00\x10\x10\x00\x00\x00\x00\x02\xE8\x34",
        ],
    },
];
