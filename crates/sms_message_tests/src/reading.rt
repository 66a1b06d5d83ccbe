//! Octets that are read as a message.

mod rows;

use crate::found::holds;
use rows::{READ, Read};
use sms_message::{Dropped, Message, Relay, Report, TransferUnit, read_message};
use std::alloc::Global;
use std::test::Fail;

/// The kind of a transfer unit.
fn kind_of_unit(unit: &TransferUnit) -> &'static str {
    match unit {
        TransferUnit::Submit(_) => "submit",
        TransferUnit::Deliver(_) => "deliver",
        TransferUnit::OtherUnit => "other unit",
        TransferUnit::BadUnit => "bad unit",
    }
}

/// The kind of a report, where there is one.
fn kind_of_report(report: &Option<Report>) -> &'static str {
    match report {
        Some(Report::SubmitAck(_)) => "submit-ack",
        Some(Report::SubmitError(_)) => "submit-error",
        Some(Report::DeliverAck(_)) => "deliver-ack",
        Some(Report::DeliverError(_)) => "deliver-error",
        None => "no report",
    }
}

/// The kind of an RP message.
fn kind_of_relay(relay: &Relay) -> &'static str {
    match relay {
        Relay::Transfer { unit, .. } => kind_of_unit(unit),
        Relay::Answer { report, .. } => kind_of_report(report),
        Relay::UnknownType => "unknown type",
        Relay::Unreadable => "unreadable",
    }
}

/// The kind of a message.
fn kind_of(message: &Message) -> &'static str {
    match message {
        Message::NotCp => "not cp",
        Message::Note { .. } => "note",
        Message::Tiny { .. } => "tiny",
        Message::Data { relay, .. } => kind_of_relay(relay),
    }
}

/// The TI flag and value of a message.
fn transaction_of(message: &Message) -> Option<(bool, u8)> {
    match message {
        Message::NotCp => None,
        Message::Note { flag, value } => Some((*flag, *value)),
        Message::Tiny { flag, value } => Some((*flag, *value)),
        Message::Data { flag, tag, .. } => Some((*flag, tag.value)),
    }
}

/// The RP-Message Reference of a message.
fn reference_of(message: &Message) -> Option<u8> {
    match message {
        Message::Data { tag, .. } => Some(tag.reference),
        _ => None,
    }
}

/// Whether a message is what a row wants.
fn is_wanted(message: &Message, row: &Read) -> bool {
    kind_of(message) == row.kind
        && transaction_of(message) == row.transaction
        && reference_of(message) == row.reference
}

/// Whether the octets of a row are read as what it wants.
fn is_read(alloc: Global, row: &Read) -> Result<bool, Dropped> {
    let message = read_message(alloc, row.octets)?;
    let wanted = is_wanted(&message, row);
    drop(message);
    Ok(wanted)
}

#[test]
fn reads_messages(rt: HostRuntime) -> Result<(), Fail> {
    for row in READ.as_slice() {
        let read = is_read(rt.alloc(), row)?;
        holds(&rt, &row.says, read);
    }
    Ok(())
}
