//! What a unit is by its first octets.

use crate::asked::{Sender, UnitKind};

/// Whether the octet after the first of a report is a failure cause (TP-FCS), which stands only
/// under an error: those have bit 7, and a parameter indicator in its place has it only where it is
/// extended (3GPP TS 23.040, 9.2.3.22 and 9.2.3.27).
fn has_cause(octets: &[u8]) -> bool {
    match octets {
        [_, second, ..] => *second >= 0x80,
        _ => false,
    }
}

/// The kind of a unit that the centre sent, by its message type (TP-MTI; 3GPP TS 23.040, 9.2.3.1).
/// What is no kind is read as an SMS-DELIVER, which says where it is wrong.
fn kind_from_centre(octets: &[u8]) -> UnitKind {
    match octets.first().map(|first| *first % 4) {
        Some(1) if has_cause(octets) => UnitKind::SubmitError,
        Some(1) => UnitKind::SubmitAck,
        Some(2) => UnitKind::StatusReport,
        _ => UnitKind::Deliver,
    }
}

/// The kind of a unit that a phone sent, by its message type. What is no kind is read as an
/// SMS-SUBMIT, which says where it is wrong.
fn kind_from_phone(octets: &[u8]) -> UnitKind {
    match octets.first().map(|first| *first % 4) {
        Some(0) if has_cause(octets) => UnitKind::DeliverError,
        Some(0) => UnitKind::DeliverAck,
        Some(2) => UnitKind::Command,
        _ => UnitKind::Submit,
    }
}

/// The kind of a unit by its first octets. Unless it is told who sent it, the centre did.
pub fn kind_told(sender: Option<Sender>, octets: &[u8]) -> UnitKind {
    match sender {
        Some(Sender::Phone) => kind_from_phone(octets),
        Some(Sender::Centre) | None => kind_from_centre(octets),
    }
}
