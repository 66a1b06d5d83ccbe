//! What travels between a phone and the service centre, in one packet.

ghost use Rattle.std.specs.Prelude.{◌≡◌, ◌<◌};
ghost use Rattle.sms_message.specs.Message.{following, same_tag};

use sms_relay::Side;
use sms_tpdu::{Deliver, DeliverAck, DeliverError, Submit, SubmitAck, SubmitError};

/// The transfer unit of an RP-DATA: an SMS-SUBMIT from a phone, an SMS-DELIVER to a phone.
#[derive(Drop)]
pub enum TransferUnit {
    Submit(Submit),
    Deliver(Deliver),
    /// Its first octet is that of another type of unit.
    OtherUnit,
    /// It has another fault.
    BadUnit,
}

/// The report of an RP-ACK or RP-ERROR: an SMS-SUBMIT-REPORT to a phone, an SMS-DELIVER-REPORT from
/// a phone.
#[derive(Drop)]
pub enum Report {
    SubmitAck(SubmitAck),
    SubmitError(SubmitError),
    DeliverAck(DeliverAck),
    DeliverError(DeliverError),
}

/// The octets of a CP-DATA, two or more.
#[derive(Drop)]
pub enum Relay {
    /// RP-DATA.
    Transfer {
        side: Side,
        unit: TransferUnit,
    },
    /// RP-ACK, or RP-ERROR where there is a cause.
    Answer {
        side: Side,
        /// RP-Cause.
        cause: Option<u8>,
        /// None also where the user data hold no report of the kind.
        report: Option<Report>,
    },
    /// They are no RP message: the type is unknown.
    UnknownType,
    /// They are none for another fault.
    Unreadable,
}

/// A transaction value and an RP reference.
#[derive(Clone, Copy, Debug, PartialEq, Eq)]
pub struct Tag {
    /// The value of the transaction identifier, 0 to 6.
    pub value: u8,
    /// The RP-Message Reference.
    pub reference: u8,
}

impl Tag {
    /// The tag of the putting out after this one.
    pub fn following(self) -> Tag
        requires { self.value < 7 }
        ensures is { result ≡ following self }
        ensures value { result.value < 7 }
    {
        Tag {
            value: (self.value + 1) % 7,
            reference: self.reference.wrapping_add(1),
        }
    }

    /// Whether the two are the same.
    pub fn is_same(self, other: Tag) -> bool
        ensures { result ≡ same_tag self other }
    {
        self.value == other.value && self.reference == other.reference
    }
}

/// What travels in one packet. `flag` is the TI flag: 1 where the packet goes to the side that
/// opened the transaction; `value` is the TI value, 0 to 6 (3GPP TS 24.007, 11.2.3.1.3).
#[derive(Drop)]
pub enum Message {
    /// The octets are no CP message.
    NotCp,
    /// CP-ACK or CP-ERROR.
    Note { flag: bool, value: u8 },
    /// CP-DATA of fewer than two octets.
    Tiny { flag: bool, value: u8 },
    /// CP-DATA; the reference is the second of its octets.
    Data { flag: bool, tag: Tag, relay: Relay },
}
