//! The fields of a record of a card, one a line, and those of the unit inside.

ghost use Rattle.std.specs.Prelude.{◌≡◌, true};
ghost use Rattle.std.specs.List.{list_all};
ghost use Rattle.sms_page.specs.Plain.{is_plain};

use crate::fault::ShowFault;
use crate::status_reports::{put_command, put_status_report};
use crate::units::{put_centre, put_deliver, put_submit};
use sms_answer::{Layer, Lines};
use sms_card::{OriginatedView, ReceivedView, RecordView, ReportState, Status};
use sms_tpdu::DeliverView;
use std::alloc::Global;

/// How it stands with a record, in words.
fn status_words(status: Status) -> &'static str
    ensures { list_all (is_plain 34) result.now ≡ true }
{
    match status {
        Status::Free => "free",
        Status::Read => "read",
        Status::Unread => "unread",
        Status::ToBeSent => "to be sent",
        Status::Sent(ReportState::NotAsked) => "sent",
        Status::Sent(ReportState::Awaited) => "sent, report awaited",
        Status::Sent(ReportState::Received) => "sent, report received",
        Status::Sent(ReportState::Stored) => "sent, report stored",
    }
}

/// The lines of what came from the network.
fn put_received(alloc: Global, lines: &mut Lines, unit: &ReceivedView<'_>) -> Result<(), ShowFault>
    ensures { lines.new ≡ lines.old }
{
    match unit {
        ReceivedView::Deliver(deliver) => put_deliver(alloc, lines, deliver),
        ReceivedView::StatusReport(report) => put_status_report(alloc, lines, report),
    }
}

/// The lines of what the phone wrote.
fn put_originated(
    alloc: Global,
    lines: &mut Lines,
    unit: &OriginatedView<'_>,
) -> Result<(), ShowFault>
    ensures { lines.new ≡ lines.old }
{
    match unit {
        OriginatedView::Submit(submit) => put_submit(alloc, lines, submit),
        OriginatedView::Command(view) => put_command(alloc, lines, view),
    }
}

/// Writes the fields of a record, and those of its unit; of a free one its status alone.
pub fn show_record(alloc: Global, octets: &[u8], lines: &mut Lines) -> Result<(), ShowFault>
    ensures { lines.new ≡ lines.old }
{
    let record = RecordView::read(octets)?;
    lines.put_word("status", status_words(record.status()));
    match &record {
        RecordView::Free => Ok(()),
        RecordView::Received { centre, unit, .. } => {
            put_centre(lines, "centre", centre);
            lines.enter(Layer::Unit);
            put_received(alloc, lines, unit)
        }
        RecordView::Originated { centre, unit, .. } => {
            put_centre(lines, "centre", centre);
            lines.enter(Layer::Unit);
            put_originated(alloc, lines, unit)
        }
    }
}

/// The SMS-DELIVER that a record has, if it has one.
pub fn deliver_in<'a, 'b>(record: &'b RecordView<'a>) -> Option<&'b DeliverView<'a>> {
    match record {
        RecordView::Received {
            unit: ReceivedView::Deliver(deliver),
            ..
        } => Some(deliver),
        _ => None,
    }
}
