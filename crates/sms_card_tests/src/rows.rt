//! Records, made by hand from the tables of 3GPP TS 51.011, 10.5.3, TS 24.011 and TS 23.040.

use sms_card::{RecordFault, ReportState, Status};
use sms_field::AddressFault;
use sms_tpdu::UnitFault;

/// What a record has after its centre.
#[derive(Clone, Copy, Debug, PartialEq, Eq)]
pub enum Inside {
    Nothing,
    Deliver,
    StatusReport,
    Submit,
    Command,
}

/// A record without its padding.
pub struct Row {
    pub says: &'static str,
    pub octets: &'static [u8],
    pub status: Status,
    /// The centre's number.
    pub centre: Option<&'static str>,
    pub inside: Inside,
    /// Where the unit begins.
    pub unit: usize,
}

/// What a free record has.
const NOTHING: usize = 1;

/// Records without their padding.
pub static ROWS: [Row; 12] = [
    Row {
        says: "a delivery that was read",
        octets: b"\x01\x07\x91\x72\x83\x01\x00\x10\xF5\x04\x04\x91\x01\x10\x00\x00\x00\x10\x10\x00\x00\x00\x00\x02\xE8\x34",
        status: Status::Read,
        centre: Some("+27381000015"),
        inside: Inside::Deliver,
        unit: 9,
    },
    Row {
        says: "a delivery that is to be read, without a centre",
        octets: b"\x03\x00\x04\x04\x91\x01\x10\x00\x00\x00\x10\x10\x00\x00\x00\x00\x02\xE8\x34",
        status: Status::Unread,
        centre: None,
        inside: Inside::Deliver,
        unit: 2,
    },
    Row {
        says: "a delivery whose data end in FF",
        octets: b"\x03\x00\x04\x04\x91\x01\x10\x00\x04\x00\x10\x10\x00\x00\x00\x00\x02\x41\xFF",
        status: Status::Unread,
        centre: None,
        inside: Inside::Deliver,
        unit: 2,
    },
    Row {
        says: "a status report without parts",
        octets: b"\x01\x07\x91\x72\x83\x01\x00\x10\xF5\x06\x05\x04\x91\x01\x10\x00\x10\x10\x00\x00\x00\x00\x00\x10\x10\x00\x00\x00\x00\x00",
        status: Status::Read,
        centre: Some("+27381000015"),
        inside: Inside::StatusReport,
        unit: 9,
    },
    Row {
        says: "a status report with all parts",
        octets: b"\x03\x00\x06\x05\x04\x91\x01\x10\x00\x10\x10\x00\x00\x00\x00\x00\x10\x10\x00\x00\x00\x00\x00\x07\x00\x00\x02\xE8\x34",
        status: Status::Unread,
        centre: None,
        inside: Inside::StatusReport,
        unit: 2,
    },
    Row {
        says: "a submission to be sent",
        octets: b"\x07\x00\x01\x00\x04\x91\x01\x20\x00\x00\x02\xE8\x34",
        status: Status::ToBeSent,
        centre: None,
        inside: Inside::Submit,
        unit: 2,
    },
    Row {
        says: "a submission without a report",
        octets: b"\x05\x03\x91\x01\x00\x01\x00\x04\x91\x01\x20\x00\x00\x02\xE8\x34",
        status: Status::Sent(ReportState::NotAsked),
        centre: Some("+1000"),
        inside: Inside::Submit,
        unit: 5,
    },
    Row {
        says: "a submission whose report is awaited",
        octets: b"\x0D\x03\x91\x01\x00\x21\x00\x04\x91\x01\x20\x00\x00\x02\xE8\x34",
        status: Status::Sent(ReportState::Awaited),
        centre: Some("+1000"),
        inside: Inside::Submit,
        unit: 5,
    },
    Row {
        says: "a submission whose report came",
        octets: b"\x15\x03\x91\x01\x00\x21\x00\x04\x91\x01\x20\x00\x00\x02\xE8\x34",
        status: Status::Sent(ReportState::Received),
        centre: Some("+1000"),
        inside: Inside::Submit,
        unit: 5,
    },
    Row {
        says: "a submission whose report is stored",
        octets: b"\x1D\x03\x91\x01\x00\x21\x00\x04\x91\x01\x20\x00\x00\x02\xE8\x34",
        status: Status::Sent(ReportState::Stored),
        centre: Some("+1000"),
        inside: Inside::Submit,
        unit: 5,
    },
    Row {
        says: "a command that was sent",
        octets: b"\x05\x00\x02\x05\x00\x00\x07\x04\x91\x01\x20\x00",
        status: Status::Sent(ReportState::NotAsked),
        centre: None,
        inside: Inside::Command,
        unit: 2,
    },
    Row {
        says: "free space",
        octets: b"\x00",
        status: Status::Free,
        centre: None,
        inside: Inside::Nothing,
        unit: NOTHING,
    },
];

/// Octets that are no record.
pub struct Refused {
    pub octets: &'static [u8],
    pub place: usize,
    pub why: RecordFault,
}

/// Octets that are no record.
pub static REFUSED: [Refused; 14] = [
    Refused {
        octets: b"",
        place: 0,
        why: RecordFault::Short,
    },
    Refused {
        octets: b"\xFF",
        place: 0,
        why: RecordFault::BadStatus,
    },
    Refused {
        octets: b"\x09\x00",
        place: 0,
        why: RecordFault::BadStatus,
    },
    Refused {
        octets: b"\x0F\x00",
        place: 0,
        why: RecordFault::BadStatus,
    },
    Refused {
        octets: b"\x25\x00",
        place: 0,
        why: RecordFault::BadStatus,
    },
    Refused {
        octets: b"\x81\x00",
        place: 0,
        why: RecordFault::BadStatus,
    },
    Refused {
        octets: b"\x01\x0C\x91",
        place: 1,
        why: RecordFault::Centre(AddressFault::AddressTooLong),
    },
    Refused {
        octets: b"\x01\x02\x91\x1F\x04",
        place: 3,
        why: RecordFault::Centre(AddressFault::BadDigit),
    },
    Refused {
        octets: b"\x01\x00\x01\x00",
        place: 2,
        why: RecordFault::Unit(UnitFault::WrongType),
    },
    Refused {
        octets: b"\x07\x00\x04\x04",
        place: 2,
        why: RecordFault::Unit(UnitFault::WrongType),
    },
    Refused {
        octets: b"\x05\x00\x03\x04",
        place: 2,
        why: RecordFault::Unit(UnitFault::WrongType),
    },
    Refused {
        octets: b"\x03\x00\x04\x04\x91\x01\x10\x00\x00\x00\x10\x10\x00\x00\x00\x00\xA1",
        place: 16,
        why: RecordFault::Unit(UnitFault::DataTooLong),
    },
    Refused {
        octets: b"\x07\x00\x01\x00\x04\x91\x01\x20\x00\x00\x02\xE8\x34\xFF\xFF\x00\xFF",
        place: 15,
        why: RecordFault::NotPadding,
    },
    Refused {
        octets: b"\x03\x00\x06\x05\x04\x91\x01\x10\x00\x10\x10\x00\x00\x00\x00\x00\x10\x10\x00\x00\x00\x00\x00\xFF\x00",
        place: 24,
        why: RecordFault::NotPadding,
    },
];

/// Free space whose other bits and octets are anything.
pub static FREE: [&[u8]; 4] = [
    b"\x00\x01\x02\x03",
    b"\xFE",
    b"\x02\xFF\x00",
    b"\x06\x00\x04",
];
