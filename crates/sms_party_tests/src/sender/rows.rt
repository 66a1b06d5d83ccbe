//! Calls of a sender, and what it answers.

use sms_message::{Dropped, Outcome};

/// A call of a sender.
pub enum Call {
    Type { text: &'static str },
    Receive { octets: &'static [u8] },
    Timeout,
}

/// A call, its answer, and the packets that it puts out.
pub struct Row {
    pub name: &'static str,
    pub call: Call,
    pub answer: Result<Outcome, Dropped>,
    pub packets: &'static [&'static [u8]],
}

/// The submission of `hi` to +1002: as it is put out first, and where duplicates are to be rejected
/// from the first.
const FIRST: &[u8] =
    b"\x09\x01\x13\x00\x00\x00\x03\x91\x01\x00\x0B\x01\x00\x04\x91\x01\x20\x00\x00\x02\xE8\x34";

const REJECTING: &[u8] =
    b"\x09\x01\x13\x00\x00\x00\x03\x91\x01\x00\x0B\x05\x00\x04\x91\x01\x20\x00\x00\x02\xE8\x34";

/// A text that is not answered.
pub static UNANSWERED: [Row; 7] = [
    Row {
        name: "typed",
        call: Call::Type { text: "hi" },
        answer: Ok(Outcome::Typed { text: 1 }),
        packets: &[FIRST],
    },
    Row {
        name: "repeated",
        call: Call::Timeout,
        answer: Ok(Outcome::Repeated { text: 1 }),
        packets: &[
            b"\x19\x01\x13\x00\x01\x00\x03\x91\x01\x00\x0B\x05\x00\x04\x91\x01\x20\x00\x00\x02\xE8\x34",
        ],
    },
    Row {
        name: "an answer to the latest but one",
        call: Call::Receive {
            octets: b"\x89\x01\x02\x03\x00",
        },
        answer: Err(Dropped::Unmatched),
        packets: &[],
    },
    Row {
        name: "repeated again",
        call: Call::Timeout,
        answer: Ok(Outcome::Repeated { text: 1 }),
        packets: &[
            b"\x29\x01\x13\x00\x02\x00\x03\x91\x01\x00\x0B\x05\x00\x04\x91\x01\x20\x00\x00\x02\xE8\x34",
        ],
    },
    Row {
        name: "repeated for the last time",
        call: Call::Timeout,
        answer: Ok(Outcome::Repeated { text: 1 }),
        packets: &[
            b"\x39\x01\x13\x00\x03\x00\x03\x91\x01\x00\x0B\x05\x00\x04\x91\x01\x20\x00\x00\x02\xE8\x34",
        ],
    },
    Row {
        name: "given up",
        call: Call::Timeout,
        answer: Ok(Outcome::GaveUp { text: 1 }),
        packets: &[],
    },
    Row {
        name: "nothing waits",
        call: Call::Timeout,
        answer: Ok(Outcome::Idle),
        packets: &[],
    },
];

/// Answers that are not those of the waiting segment, and then its own, twice.
pub static FORGED: [Row; 15] = [
    Row {
        name: "an answer where nothing was put out",
        call: Call::Receive {
            octets: b"\x89\x01\x02\x03\x00",
        },
        answer: Err(Dropped::Unmatched),
        packets: &[],
    },
    Row {
        name: "typed",
        call: Call::Type { text: "hi" },
        answer: Ok(Outcome::Typed { text: 1 }),
        packets: &[FIRST],
    },
    Row {
        name: "another transaction",
        call: Call::Receive {
            octets: b"\x99\x01\x02\x03\x00",
        },
        answer: Err(Dropped::Unmatched),
        packets: &[],
    },
    Row {
        name: "another reference",
        call: Call::Receive {
            octets: b"\x89\x01\x02\x03\x01",
        },
        answer: Err(Dropped::Unmatched),
        packets: &[],
    },
    Row {
        name: "from a phone",
        call: Call::Receive {
            octets: b"\x89\x01\x02\x02\x00",
        },
        answer: Err(Dropped::Unmatched),
        packets: &[],
    },
    Row {
        name: "in a transaction of the centre",
        call: Call::Receive {
            octets: b"\x09\x01\x02\x03\x00",
        },
        answer: Err(Dropped::Unmatched),
        packets: &[],
    },
    Row {
        name: "a transfer",
        call: Call::Receive {
            octets: b"\x89\x01\x08\x01\x00\x03\x91\x01\x00\x00\x00",
        },
        answer: Err(Dropped::Unmatched),
        packets: &[],
    },
    Row {
        name: "an unknown type",
        call: Call::Receive {
            octets: b"\x89\x01\x02\x06\x00",
        },
        answer: Err(Dropped::Unmatched),
        packets: &[],
    },
    Row {
        name: "unreadable",
        call: Call::Receive {
            octets: b"\x89\x01\x03\x05\x00\x01",
        },
        answer: Err(Dropped::Unmatched),
        packets: &[],
    },
    Row {
        name: "too short",
        call: Call::Receive {
            octets: b"\x89\x01\x01\x03",
        },
        answer: Err(Dropped::Unmatched),
        packets: &[],
    },
    Row {
        name: "no message of the connection",
        call: Call::Receive {
            octets: b"\x89\x01\x02\x03",
        },
        answer: Err(Dropped::NotCp),
        packets: &[],
    },
    Row {
        name: "an acknowledgement of the connection",
        call: Call::Receive {
            octets: b"\x89\x04",
        },
        answer: Ok(Outcome::Noted),
        packets: &[],
    },
    Row {
        name: "an error of the connection",
        call: Call::Receive {
            octets: b"\x09\x10\x51",
        },
        answer: Ok(Outcome::Noted),
        packets: &[],
    },
    Row {
        name: "its own",
        call: Call::Receive {
            octets: b"\x89\x01\x02\x03\x00",
        },
        answer: Ok(Outcome::Accepted { text: 1 }),
        packets: &[b"\x09\x04"],
    },
    Row {
        name: "its own once more",
        call: Call::Receive {
            octets: b"\x89\x01\x02\x03\x00",
        },
        answer: Err(Dropped::Unmatched),
        packets: &[],
    },
];

/// Refusals of texts that follow one another.
pub static REFUSED: [Row; 6] = [
    Row {
        name: "typed",
        call: Call::Type { text: "hi" },
        answer: Ok(Outcome::Typed { text: 1 }),
        packets: &[FIRST],
    },
    Row {
        name: "typed after it",
        call: Call::Type { text: "hi" },
        answer: Ok(Outcome::Typed { text: 2 }),
        packets: &[],
    },
    Row {
        name: "a duplicate was rejected",
        call: Call::Receive {
            octets: b"\x89\x01\x10\x05\x00\x01\x15\x41\x0A\x01\xC5\x00\x00\x10\x10\x00\x00\x00\x00",
        },
        answer: Ok(Outcome::Accepted { text: 1 }),
        packets: &[
            b"\x09\x04",
            b"\x19\x01\x13\x00\x01\x00\x03\x91\x01\x00\x0B\x01\x01\x04\x91\x01\x20\x00\x00\x02\xE8\x34",
        ],
    },
    Row {
        name: "refused",
        call: Call::Receive {
            octets: b"\x99\x01\x10\x05\x01\x01\x01\x41\x0A\x01\xC3\x00\x00\x10\x10\x00\x00\x00\x00",
        },
        answer: Ok(Outcome::Failed {
            text: 2,
            cause: 1,
            failure: Some(0xC3),
        }),
        packets: &[b"\x19\x04"],
    },
    Row {
        name: "typed once more",
        call: Call::Type { text: "hi" },
        answer: Ok(Outcome::Typed { text: 3 }),
        packets: &[
            b"\x29\x01\x13\x00\x02\x00\x03\x91\x01\x00\x0B\x01\x02\x04\x91\x01\x20\x00\x00\x02\xE8\x34",
        ],
    },
    Row {
        name: "refused without a report",
        call: Call::Receive {
            octets: b"\xA9\x01\x04\x05\x02\x01\x61",
        },
        answer: Ok(Outcome::Failed {
            text: 3,
            cause: 97,
            failure: None,
        }),
        packets: &[b"\x29\x04"],
    },
];

/// A text where duplicates are to be rejected from the first putting out on.
pub static EARLY: [Row; 2] = [
    Row {
        name: "typed",
        call: Call::Type { text: "hi" },
        answer: Ok(Outcome::Typed { text: 1 }),
        packets: &[REJECTING],
    },
    Row {
        name: "a duplicate was rejected",
        call: Call::Receive {
            octets: b"\x89\x01\x10\x05\x00\x01\x15\x41\x0A\x01\xC5\x00\x00\x10\x10\x00\x00\x00\x00",
        },
        answer: Ok(Outcome::Accepted { text: 1 }),
        packets: &[b"\x09\x04"],
    },
];

/// The packet with the first of two segments, up to its letters.
pub const FIRST_OF_TWO: &[u8] =
    b"\x09\x01\x9D\x00\x00\x00\x03\x91\x01\x00\x95\x41\x00\x04\x91\x01\x20\x00\x00\xA0\x06\x08\x04\x00\x00\x02\x01";

/// The answers to a text of two segments.
pub static SEGMENTS: [Row; 2] = [
    Row {
        name: "the first is accepted",
        call: Call::Receive {
            octets: b"\x89\x01\x02\x03\x00",
        },
        answer: Ok(Outcome::Segment {
            text: 1,
            segment: 1,
        }),
        packets: &[
            b"\x09\x04",
            b"\x19\x01\x20\x00\x01\x00\x03\x91\x01\x00\x18\x41\x01\x04\x91\x01\x20\x00\x00\x11\x06\x08\x04\x00\x00\x02\x02\xE1\x70\x38\x1C\x0E\x87\xC3\x61",
        ],
    },
    Row {
        name: "the second is accepted",
        call: Call::Receive {
            octets: b"\x99\x01\x02\x03\x01",
        },
        answer: Ok(Outcome::Accepted { text: 1 }),
        packets: &[b"\x19\x04"],
    },
];
