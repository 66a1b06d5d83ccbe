//! Octets, and the message as which they are read.

/// Octets, what kind of message they are, the TI flag and value where there are such, and the
/// reference where it has one.
pub struct Read {
    pub says: &'static str,
    pub octets: &'static [u8],
    pub kind: &'static str,
    pub transaction: Option<(bool, u8)>,
    pub reference: Option<u8>,
}

pub static READ: [Read; 15] = [
    Read {
        says: "what is no CP message",
        octets: b"\xFF",
        kind: "not cp",
        transaction: None,
        reference: None,
    },
    Read {
        says: "a CP-ACK",
        octets: b"\x89\x04",
        kind: "note",
        transaction: Some((true, 0)),
        reference: None,
    },
    Read {
        says: "a CP-ERROR",
        octets: b"\x69\x10\x11",
        kind: "note",
        transaction: Some((false, 6)),
        reference: None,
    },
    Read {
        says: "a CP-DATA of one octet",
        octets: b"\x09\x01\x01\x00",
        kind: "tiny",
        transaction: Some((false, 0)),
        reference: None,
    },
    Read {
        says: "a submission",
        octets: b"\x09\x01\x13\x00\x00\x00\x03\x91\x01\x00\x0B\x01\x00\x04\x91\x01\x20\x00\x00\x02\xE8\x34",
        kind: "submit",
        transaction: Some((false, 0)),
        reference: Some(0),
    },
    Read {
        says: "a delivery",
        octets: b"\x09\x01\x19\x01\x00\x03\x91\x01\x00\x00\x11\x04\x04\x91\x01\x10\x00\x00\x00\x10\x10\x00\x00\x00\x00\x02\xE8\x34",
        kind: "deliver",
        transaction: Some((false, 0)),
        reference: Some(0),
    },
    Read {
        says: "another unit",
        octets: b"\x09\x01\x09\x00\x00\x00\x03\x91\x01\x00\x01\x02",
        kind: "other unit",
        transaction: Some((false, 0)),
        reference: Some(0),
    },
    Read {
        says: "a unit that is cut",
        octets: b"\x09\x01\x09\x00\x00\x00\x03\x91\x01\x00\x01\x01",
        kind: "bad unit",
        transaction: Some((false, 0)),
        reference: Some(0),
    },
    Read {
        says: "the report of a submission",
        octets: b"\x89\x01\x0D\x03\x00\x41\x09\x01\x00\x00\x10\x10\x00\x00\x00\x00",
        kind: "submit-ack",
        transaction: Some((true, 0)),
        reference: Some(0),
    },
    Read {
        says: "the report of a delivery",
        octets: b"\x89\x01\x06\x02\x00\x41\x02\x00\x00",
        kind: "deliver-ack",
        transaction: Some((true, 0)),
        reference: Some(0),
    },
    Read {
        says: "the refusal of a submission",
        octets: b"\x99\x01\x10\x05\x01\x01\x15\x41\x0A\x01\xC5\x00\x00\x10\x10\x00\x00\x00\x00",
        kind: "submit-error",
        transaction: Some((true, 1)),
        reference: Some(1),
    },
    Read {
        says: "the refusal of a delivery",
        octets: b"\x89\x01\x09\x04\x00\x01\x6F\x41\x03\x00\x90\x00",
        kind: "deliver-error",
        transaction: Some((true, 0)),
        reference: Some(0),
    },
    Read {
        says: "a refusal without a report",
        octets: b"\x89\x01\x04\x05\x05\x01\x61",
        kind: "no report",
        transaction: Some((true, 0)),
        reference: Some(5),
    },
    Read {
        says: "an RP message of an unknown type",
        octets: b"\x09\x01\x02\x06\x05",
        kind: "unknown type",
        transaction: Some((false, 0)),
        reference: Some(5),
    },
    Read {
        says: "an RP message with a bad address",
        octets: b"\x09\x01\x03\x00\x05\x01",
        kind: "unreadable",
        transaction: Some((false, 0)),
        reference: Some(5),
    },
];
