//! Octets as they are sent.

use crate::shared::{
    ACK_FROM_OPENER, ACK_TO_OPENER, DELIVERY_OF_HI, EIGHT_BIT_DELIVERY, EIGHT_BIT_SUBMISSION,
    NOT_SMS, REFUSAL_OF_EIGHT_BIT, REFUSAL_OF_REPEAT, REFUSAL_OF_UNKNOWN, REPEATED_SUBMISSION,
    REPORT_OF_DELIVERY, REPORT_OF_SUBMISSION, SUBMISSION_OF_HI,
};

/// Octets, and where in them a packet, a message, a unit, a header or an address begins.
pub struct Sent {
    pub says: &'static str,
    pub octets: &'static [u8],
    pub starts: &'static [usize],
}

/// Units outside of a packet.
pub static UNITS: [Sent; 5] = [
    Sent {
        says: "a delivery of hellohello",
        octets: b"\x04\x0B\xC8\x72\x38\x88\x09\x00\xF1\x00\x00\x99\x30\x92\x51\x61\x95\x80\x0A\xE8\x32\x9B\xFD\x46\x97\xD9\xEC\x37",
        starts: &[0, 1],
    },
    Sent {
        says: "a delivery of hellohello after the address of its centre",
        octets: b"\x07\x91\x72\x83\x01\x00\x10\xF5\x04\x0B\xC8\x72\x38\x88\x09\x00\xF1\x00\x00\x99\x30\x92\x51\x61\x95\x80\x0A\xE8\x32\x9B\xFD\x46\x97\xD9\xEC\x37",
        starts: &[0],
    },
    Sent {
        says: "a submission of hellohello",
        octets: b"\x11\x00\x0B\x91\x64\x07\x28\x15\x53\xF8\x00\x00\xAA\x0A\xE8\x32\x9B\xFD\x46\x97\xD9\xEC\x37",
        starts: &[0, 2],
    },
    Sent {
        says: "a segment whose reference has sixteen bits",
        octets: b"\x44\x04\x91\x01\x10\x00\x00\x00\x10\x10\x00\x00\x00\x00\x0A\x06\x08\x04\x01\x02\x02\x01\xE8\x34",
        starts: &[0, 1, 15],
    },
    Sent {
        says: "a segment with two concatenation elements",
        octets: b"\x44\x04\x91\x01\x10\x00\x00\x00\x10\x10\x00\x00\x00\x00\x10\x0B\x00\x03\x0A\x02\x01\x08\x04\x01\x02\x02\x02\xA0\xD3",
        starts: &[0, 1, 15],
    },
];

/// Packets with a submission.
pub static SUBMISSIONS: [Sent; 3] = [
    Sent {
        says: "a submission of hi",
        octets: SUBMISSION_OF_HI,
        starts: &[0, 3, 6, 11, 13],
    },
    Sent {
        says: "a submission of hi that is repeated",
        octets: REPEATED_SUBMISSION,
        starts: &[0, 11],
    },
    Sent {
        says: "a submission of eight-bit text",
        octets: EIGHT_BIT_SUBMISSION,
        starts: &[0, 11],
    },
];

/// Packets with a delivery.
pub static DELIVERIES: [Sent; 2] = [
    Sent {
        says: "a delivery of hi",
        octets: DELIVERY_OF_HI,
        starts: &[0, 3, 5, 11, 12],
    },
    Sent {
        says: "a delivery of eight-bit text",
        octets: EIGHT_BIT_DELIVERY,
        starts: &[0, 11],
    },
];

/// Packets that answer.
pub static ANSWERS: [Sent; 8] = [
    Sent {
        says: "an acknowledgement of the connection",
        octets: ACK_TO_OPENER,
        starts: &[0],
    },
    Sent {
        says: "an acknowledgement to the other side",
        octets: ACK_FROM_OPENER,
        starts: &[0],
    },
    Sent {
        says: "the report of a submission",
        octets: REPORT_OF_SUBMISSION,
        starts: &[0, 3, 7],
    },
    Sent {
        says: "the report of a delivery",
        octets: REPORT_OF_DELIVERY,
        starts: &[0, 3, 7],
    },
    Sent {
        says: "the refusal of a repeat",
        octets: REFUSAL_OF_REPEAT,
        starts: &[0, 3, 9],
    },
    Sent {
        says: "the refusal of an unknown recipient",
        octets: REFUSAL_OF_UNKNOWN,
        starts: &[0, 3, 9],
    },
    Sent {
        says: "the refusal of eight-bit text",
        octets: REFUSAL_OF_EIGHT_BIT,
        starts: &[0, 3, 9],
    },
    Sent {
        says: "what is no packet",
        octets: NOT_SMS,
        starts: &[0],
    },
];
