//! Rows of the tests: octets, and what they say.

use crate::shared::{
    ACK_FROM_OPENER, ACK_TO_OPENER, DELIVERY_OF_HI, EIGHT_BIT_DELIVERY, EIGHT_BIT_SUBMISSION,
    NOT_SMS, REFUSAL_OF_EIGHT_BIT, REFUSAL_OF_REPEAT, REFUSAL_OF_UNKNOWN, REPEATED_SUBMISSION,
    REPORT_OF_DELIVERY, REPORT_OF_SUBMISSION, SUBMISSION_OF_HI,
};
use sms_relay::RelayFault;

/// A packet.
pub struct Packet {
    pub octets: &'static [u8],
    /// The flag of its transaction.
    pub flag: bool,
    /// The value of its transaction.
    pub value: u8,
    /// What is found in it.
    pub says: &'static str,
    /// Where its user data begin.
    pub user: Option<usize>,
}

/// Octets that are refused.
pub struct Refused {
    pub octets: &'static [u8],
    pub place: usize,
    pub why: RelayFault,
}

/// An RP message with ignored bits or octets after it, and how it is written.
pub struct Again {
    pub octets: &'static [u8],
    pub written: &'static [u8],
}

/// A header that tells the place of a segment.
pub const HEADER: &[u8] = b"\x05\x00\x03\x0A\x02\x01";

/// A submission of `hi`.
pub const SUBMIT: &[u8] = b"\x01\x00\x04\x91\x01\x20\x00\x00\x02\xE8\x34";

/// A delivery of `hi`.
pub const DELIVER: &[u8] = b"\x04\x04\x91\x01\x10\x00\x00\x00\x10\x10\x00\x00\x00\x00\x02\xE8\x34";

/// A report of the first moment.
pub const SUBMIT_ACK: &[u8] = b"\x01\x00\x00\x10\x10\x00\x00\x00\x00";

/// A report of a duplicate.
pub const SUBMIT_ERROR: &[u8] = b"\x01\xC5\x00\x00\x10\x10\x00\x00\x00\x00";

/// A report without any part.
pub const DELIVER_ACK: &[u8] = b"\x00\x00";

/// A report of a coding scheme that is not supported.
pub const DELIVER_ERROR: &[u8] = b"\x00\x90\x00";

/// Packets between a phone and its service centre.
pub static PACKETS: [Packet; 19] = [
    Packet {
        octets: b"\x09\x01\x11\x00\x00\x00\x03\x91\x01\x00\x09\x01\x00\x04\x91\x01\x20\x00\x00\x00",
        flag: false,
        value: 0,
        says: "data FromPhone 0 +1000",
        user: Some(11),
    },
    Packet {
        octets: SUBMISSION_OF_HI,
        flag: false,
        value: 0,
        says: "data FromPhone 0 +1000",
        user: Some(11),
    },
    Packet {
        octets: ACK_TO_OPENER,
        flag: true,
        value: 0,
        says: "empty",
        user: None,
    },
    Packet {
        octets: REPORT_OF_SUBMISSION,
        flag: true,
        value: 0,
        says: "ack ToPhone 0",
        user: Some(7),
    },
    Packet {
        octets: DELIVERY_OF_HI,
        flag: false,
        value: 0,
        says: "data ToPhone 0 +1000",
        user: Some(11),
    },
    Packet {
        octets: REPORT_OF_DELIVERY,
        flag: true,
        value: 0,
        says: "ack FromPhone 0",
        user: Some(7),
    },
    Packet {
        octets: ACK_FROM_OPENER,
        flag: false,
        value: 0,
        says: "empty",
        user: None,
    },
    Packet {
        octets: REPEATED_SUBMISSION,
        flag: false,
        value: 1,
        says: "data FromPhone 1 +1000",
        user: Some(11),
    },
    Packet {
        octets: REFUSAL_OF_REPEAT,
        flag: true,
        value: 1,
        says: "error ToPhone 1 21 None",
        user: Some(9),
    },
    Packet {
        octets: REFUSAL_OF_UNKNOWN,
        flag: true,
        value: 0,
        says: "error ToPhone 0 1 None",
        user: Some(9),
    },
    Packet {
        octets: EIGHT_BIT_DELIVERY,
        flag: false,
        value: 0,
        says: "data ToPhone 0 +1000",
        user: Some(11),
    },
    Packet {
        octets: REFUSAL_OF_EIGHT_BIT,
        flag: true,
        value: 0,
        says: "error FromPhone 0 111 None",
        user: Some(9),
    },
    Packet {
        octets: EIGHT_BIT_SUBMISSION,
        flag: false,
        value: 0,
        says: "data FromPhone 0 +1000",
        user: Some(11),
    },
    Packet {
        octets: b"\xE9\x10\x61",
        flag: true,
        value: 6,
        says: "empty",
        user: None,
    },
    Packet {
        octets: b"\x89\x01\x04\x05\x05\x01\x60",
        flag: true,
        value: 0,
        says: "error ToPhone 5 96 None",
        user: None,
    },
    Packet {
        octets: b"\x09\x01\x02\x02\x05",
        flag: false,
        value: 0,
        says: "ack FromPhone 5",
        user: None,
    },
    Packet {
        octets: b"\x09\x01\x00",
        flag: false,
        value: 0,
        says: "Short at 0",
        user: None,
    },
    Packet {
        octets: b"\x09\x01\x01\x06",
        flag: false,
        value: 0,
        says: "UnknownType at 0",
        user: None,
    },
    Packet {
        octets: b"\x09\x01\x01\x00",
        flag: false,
        value: 0,
        says: "Short at 1",
        user: None,
    },
];

/// Octets that are no packet.
pub static NO_PACKETS: [Refused; 13] = [
    Refused {
        octets: b"",
        place: 0,
        why: RelayFault::Short,
    },
    Refused {
        octets: b"\x8A",
        place: 0,
        why: RelayFault::NotSms,
    },
    Refused {
        octets: NOT_SMS,
        place: 0,
        why: RelayFault::NotSms,
    },
    Refused {
        octets: b"\x7A",
        place: 0,
        why: RelayFault::NotSms,
    },
    Refused {
        octets: b"\x79",
        place: 0,
        why: RelayFault::BadTransaction,
    },
    Refused {
        octets: b"\xF9",
        place: 0,
        why: RelayFault::BadTransaction,
    },
    Refused {
        octets: b"\x09",
        place: 1,
        why: RelayFault::Short,
    },
    Refused {
        octets: b"\x09\x02",
        place: 1,
        why: RelayFault::UnknownType,
    },
    Refused {
        octets: b"\x09\x00",
        place: 1,
        why: RelayFault::UnknownType,
    },
    Refused {
        octets: b"\x09\x11",
        place: 1,
        why: RelayFault::UnknownType,
    },
    Refused {
        octets: b"\x09\x01",
        place: 2,
        why: RelayFault::Short,
    },
    Refused {
        octets: b"\x09\x01\x02\x00",
        place: 4,
        why: RelayFault::Short,
    },
    Refused {
        octets: b"\x09\x10",
        place: 2,
        why: RelayFault::Short,
    },
];

/// Octets that are no RP message.
pub static NO_RELAYS: [Refused; 20] = [
    Refused {
        octets: b"",
        place: 0,
        why: RelayFault::Short,
    },
    Refused {
        octets: b"\x06",
        place: 0,
        why: RelayFault::UnknownType,
    },
    Refused {
        octets: b"\x07",
        place: 0,
        why: RelayFault::UnknownType,
    },
    Refused {
        octets: b"\x00",
        place: 1,
        why: RelayFault::Short,
    },
    Refused {
        octets: b"\x00\x00\x01",
        place: 2,
        why: RelayFault::BadAddress,
    },
    Refused {
        octets: b"\x01\x00\x00\x01",
        place: 3,
        why: RelayFault::BadAddress,
    },
    Refused {
        octets: b"\x00\x00\x00\x0C",
        place: 3,
        why: RelayFault::BadAddress,
    },
    Refused {
        octets: b"\x01\x00\x0C",
        place: 2,
        why: RelayFault::BadAddress,
    },
    Refused {
        octets: b"\x01\x00\x02\x91\xFF",
        place: 4,
        why: RelayFault::BadAddress,
    },
    Refused {
        octets: b"\x00\x00\x00",
        place: 3,
        why: RelayFault::Short,
    },
    Refused {
        octets: b"\x00\x00\x00\x00",
        place: 4,
        why: RelayFault::Short,
    },
    Refused {
        octets: b"\x00\x00\x00\x00\xEA",
        place: 4,
        why: RelayFault::DataTooLong,
    },
    Refused {
        octets: b"\x04\x00\x03",
        place: 2,
        why: RelayFault::BadCause,
    },
    Refused {
        octets: b"\x04\x00\x00",
        place: 2,
        why: RelayFault::BadCause,
    },
    Refused {
        octets: b"\x04\x00\x01\x16\x41\xEA",
        place: 5,
        why: RelayFault::DataTooLong,
    },
    Refused {
        octets: b"\x04\x00",
        place: 2,
        why: RelayFault::Short,
    },
    Refused {
        octets: b"\x04\x00\x02\x16",
        place: 4,
        why: RelayFault::Short,
    },
    Refused {
        octets: b"\x03\x00\x41\xEA",
        place: 3,
        why: RelayFault::DataTooLong,
    },
    Refused {
        octets: b"\x03\x00\x41",
        place: 3,
        why: RelayFault::Short,
    },
    Refused {
        octets: b"\x03\x00\x41\x02\xFF",
        place: 5,
        why: RelayFault::Short,
    },
];

/// Messages that are written otherwise than they were read.
pub static AGAIN: [Again; 7] = [
    Again {
        octets: b"\xFB\x07\x00",
        written: b"\x03\x07",
    },
    Again {
        octets: b"\x05\x00\x01\x96",
        written: b"\x05\x00\x01\x16",
    },
    Again {
        octets: b"\x04\x01\x02\x96\x80\x41\x01\x07",
        written: b"\x04\x01\x02\x16\x80\x41\x01\x07",
    },
    Again {
        octets: b"\x05\x00\x01\x80\x40",
        written: b"\x05\x00\x01\x00",
    },
    Again {
        octets: b"\x00\x00\x00\x03\x11\x01\x00\x01\xAA",
        written: b"\x00\x00\x00\x03\x91\x01\x00\x01\xAA",
    },
    Again {
        octets: b"\x02\x00",
        written: b"\x02\x00",
    },
    Again {
        octets: b"\xF9\x02\x00\x00\x00",
        written: b"\x01\x02\x00\x00\x00",
    },
];
