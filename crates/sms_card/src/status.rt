//! The status of a record, its first octet.

ghost use Rattle.std.specs.Prelude.{◌≡◌};
ghost use Rattle.sms_card.specs.Status as formats;

use crate::fault::RecordFault;
use sms_field::has_bit;

/// What became of the status report on a message that was sent (TS 51.011, 10.5.3).
#[derive(Clone, Copy, Debug, PartialEq, Eq)]
pub enum ReportState {
    /// None was asked for.
    NotAsked,
    /// One was asked for and has not come yet.
    Awaited,
    /// One was asked for and came, and does not stand in EF-SMSR.
    Received,
    /// One was asked for and came, and stands in EF-SMSR.
    Stored,
}

/// How it stands with a record (TS 51.011, 10.5.3; TS 31.102, 4.2.25).
#[derive(Clone, Copy, Debug, PartialEq, Eq)]
pub enum Status {
    /// Free space.
    Free,
    /// A message that came from the network, and was read.
    Read,
    /// A message that came from the network, and is to be read.
    Unread,
    /// A message of the phone, to be sent.
    ToBeSent,
    /// A message of the phone, sent to the network.
    Sent(ReportState),
}

impl Status {
    /// What the first octet of a record says. One that is even is free space, whatever its other
    /// bits are.
    pub fn from_octet(octet: u8) -> Result<Status, RecordFault>
        ensures { result ≡ formats.status_of octet }
    {
        if !has_bit(octet, 0) {
            return Ok(Status::Free);
        }
        match octet {
            1 => Ok(Status::Read),
            3 => Ok(Status::Unread),
            7 => Ok(Status::ToBeSent),
            5 => Ok(Status::Sent(ReportState::NotAsked)),
            13 => Ok(Status::Sent(ReportState::Awaited)),
            21 => Ok(Status::Sent(ReportState::Received)),
            29 => Ok(Status::Sent(ReportState::Stored)),
            _ => Err(RecordFault::BadStatus),
        }
    }

    /// The first octet of a record of this status.
    pub fn to_octet(self) -> u8
        ensures { result ≡ formats.status_octet self }
    {
        match self {
            Status::Free => 0,
            Status::Read => 1,
            Status::Unread => 3,
            Status::ToBeSent => 7,
            Status::Sent(ReportState::NotAsked) => 5,
            Status::Sent(ReportState::Awaited) => 13,
            Status::Sent(ReportState::Received) => 21,
            Status::Sent(ReportState::Stored) => 29,
        }
    }
}
