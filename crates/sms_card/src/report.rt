//! A status report in a record, where it lies.

ghost use Rattle.std.specs.Prelude.{IfOk};
ghost use Rattle.sms_field.specs.Field.{map_reason};
ghost use Rattle.sms_field.specs.Address.Value.{HasSpelling};
ghost use Rattle.sms_field.specs.Address.{address};
ghost use Rattle.sms_field.specs.Reading.Answer.{Sees};
ghost use Rattle.sms_tpdu.specs.Fault.{unit_fault};
ghost use Rattle.sms_tpdu.specs.Report.AnnouncedParts.{AreParts};
ghost use Rattle.sms_tpdu.specs.Report.Indicated.{indicated_parts};
ghost use Rattle.sms_card.specs.Fault.{record_fault};
ghost use Rattle.sms_card.specs.Report.{IsFront, report_front, report_end, stored_report};

use crate::fault::RecordFault;
use crate::padding::{PAD, padding_at};
use crate::parts::{PartsView, indicated_parts_at, no_parts};
use sms_field::{AddressView, Cursor, Fault, Stamp};
use sms_tpdu::{StatusReportFlags, StatusReportView, UnitFault};

/// What stands in every report, up to TP-ST.
#[derive(Drop)]
pub struct ReportFront<'a> {
    /// TP-MMS, TP-LP, TP-SRQ and TP-UDHI.
    pub flags: StatusReportFlags,
    /// TP-MR.
    pub reference: u8,
    /// TP-RA.
    pub recipient: AddressView<'a>,
    /// TP-SCTS.
    pub stamp: Stamp,
    /// TP-DT.
    pub discharged: Stamp,
    /// TP-ST.
    pub status: u8,
}

/// An address, refused for a unit's reasons.
fn address_at<'a>(input: &mut Cursor<'a>) -> Result<AddressView<'a>, Fault<UnitFault>>
    ensures read { Sees (map_reason unit_fault address) input.old result input.new }
    ensures fits { IfOk result HasSpelling }
{
    AddressView::read_at(input).map_err(Fault::map_reason)
}

/// A report up to TP-ST.
#[tactic(auto, unfolding(crate::specs::Report::report_front))]
fn front_at<'a>(input: &mut Cursor<'a>) -> Result<ReportFront<'a>, Fault<UnitFault>>
    ensures fits { IfOk result IsFront }
    ensures read { Sees report_front input.old result input.new }
{
    let flags = input.take_octet_by(StatusReportFlags::from_octet)?;
    let reference = input.take_octet()?;
    let recipient = address_at(input)?;
    let stamp = Stamp::read_at(input)?;
    let discharged = Stamp::read_at(input)?;
    let status = input.take_octet()?;
    Ok(ReportFront {
        flags,
        reference,
        recipient,
        stamp,
        discharged,
        status,
    })
}

/// A report up to TP-ST, refused for a record's reasons.
fn front_in_record_at<'a>(input: &mut Cursor<'a>) -> Result<ReportFront<'a>, Fault<RecordFault>>
    ensures fits { IfOk result IsFront }
    ensures read { Sees (map_reason record_fault report_front) input.old result input.new }
{
    front_at(input).map_err(Fault::map_reason)
}

/// The parts of a report, refused for a record's reasons.
fn parts_in_record_at<'a>(input: &mut Cursor<'a>) -> Result<PartsView<'a>, Fault<RecordFault>>
    ensures fit { IfOk result AreParts }
    ensures read { Sees (map_reason record_fault indicated_parts) input.old result input.new }
{
    indicated_parts_at(input).map_err(Fault::map_reason)
}

/// What follows TP-ST, to the end.
#[tactic(auto, unfolding(crate::specs::Report::end_of))]
fn end_at<'a>(input: &mut Cursor<'a>) -> Result<PartsView<'a>, Fault<RecordFault>>
    ensures fit { IfOk result AreParts }
    ensures read { Sees report_end input.old result input.new }
{
    match input.rest() {
        [] => Ok(no_parts()),
        [first, ..] if *first == PAD => {
            padding_at(input)?;
            Ok(no_parts())
        }
        _ => {
            let parts = parts_in_record_at(input)?;
            padding_at(input)?;
            Ok(parts)
        }
    }
}

/// A report, and FF to the end.
#[tactic(auto, unfolding(crate::specs::Report::stored_report))]
pub fn stored_report_at<'a>(
    input: &mut Cursor<'a>,
) -> Result<StatusReportView<'a>, Fault<RecordFault>>
    ensures { Sees stored_report input.old result input.new }
{
    let front = front_in_record_at(input)?;
    let parts = end_at(input)?;
    Ok(StatusReportView {
        more: front.flags.more,
        looped: front.flags.looped,
        qualifier: front.flags.qualifier,
        has_header: front.flags.header,
        reference: front.reference,
        recipient: front.recipient,
        stamp: front.stamp,
        discharged: front.discharged,
        status: front.status,
        pid: parts.pid,
        dcs: parts.dcs,
        user: parts.user,
    })
}
