//! SMS-STATUS-REPORT written.

ghost use Rattle.std.specs.Prelude.{◌≡◌, Ok, Err, IfOk, IfErr, IfSome, OnErr, MatchResult};
ghost use Rattle.sms_tpdu.specs.Report.AnnouncedParts.{IsReportData, report_alphabet};
ghost use Rattle.sms_c.specs.Answered.{Answers, AnswersSo, Fails, OfOctetsIn};
ghost use Rattle.sms_c.specs.HandedOut.{ArePut, LackRoom};
ghost use Rattle.sms_c.specs.ReportGiven as given;
ghost use Rattle.sms_c.specs.StatusReportWriting as writing;
ghost use Rattle.sms_c.specs.StatusReportWriting.{status_report_written};
ghost use Rattle.sms_c.specs.Status.{IsNotRoom};
ghost use Rattle.sms_c.specs.declared.status.Failure.TheVariants.{NoRoom};

use crate::address_given::address_given;
use crate::class::{SPARE, are_spare};
use crate::handed_out::hand_out;
use crate::report_given::{octet_given, user_given};
use crate::status::{Failure, status_of};
use crate::times::StampOctets;
use crate::writing::is_set;
use sms_field::Stamp;
use sms_tpdu::{ReportData, StatusReport, Unit};
use std::alloc::Global;

/// What a status report has besides a recipient and the octets of its data.
#[repr(C)]
#[derive(Clone, Copy)]
pub struct StatusReportFields {
    /// TP-SCTS.
    pub stamp: StampOctets,
    /// TP-DT.
    pub discharged: StampOctets,
    /// TP-MMS.
    pub more: u8,
    /// TP-LP.
    pub looped: u8,
    /// TP-SRQ.
    pub qualifier: u8,
    /// TP-MR.
    pub reference: u8,
    /// TP-ST.
    pub status: u8,
    pub has_pid: u8,
    /// TP-PID.
    pub pid: u8,
    pub has_dcs: u8,
    /// TP-DCS.
    pub dcs: u8,
    pub has_data: u8,
    /// TP-UDHI.
    pub has_header: u8,
    /// TP-UDL.
    pub length: u8,
    /// All 0.
    pub spare: [u8; SPARE],
}

/// The data of a status report.
fn user_of(
    alloc: Global,
    fields: StatusReportFields,
    octets: &[u8],
) -> Result<Option<ReportData>, Failure>
    ensures user { MatchResult result
        (λ user. writing.user_of_status_report fields octets.now ≡ Ok user)
        (λ why. Fails (writing.user_of_status_report fields octets.now) why) }
    ensures fits { IfOk result (λ user. IfSome user
        (IsReportData (report_alphabet (given.octet_given fields.has_dcs fields.dcs)))) }
    ensures room { IfErr result IsNotRoom }
{
    if !are_spare(&fields.spare) {
        return Err(Failure::OutOfRange);
    }
    user_given(
        alloc,
        is_set(fields.has_header),
        octet_given(fields.has_dcs, fields.dcs),
        is_set(fields.has_data),
        fields.length,
        octets,
    )
}

/// The octets of a status report.
fn written(
    alloc: Global,
    fields: StatusReportFields,
    recipient: &[u8],
    octets: &[u8],
) -> Result<Vec<u8>, Failure>
    ensures written { MatchResult result
        (λ unit. status_report_written fields recipient.now octets.now ≡ Ok unit.items)
        (λ why. Fails (status_report_written fields recipient.now octets.now) why) }
    ensures room { IfErr result IsNotRoom }
{
    let user = user_of(alloc, fields, octets)?;
    let recipient = address_given(alloc, recipient)?;
    let report = StatusReport {
        more: is_set(fields.more),
        looped: is_set(fields.looped),
        qualifier: is_set(fields.qualifier),
        has_header: is_set(fields.has_header),
        reference: fields.reference,
        recipient,
        stamp: Stamp::new(fields.stamp.octets),
        discharged: Stamp::new(fields.discharged.octets),
        status: fields.status,
        pid: octet_given(fields.has_pid, fields.pid),
        dcs: octet_given(fields.has_dcs, fields.dcs),
        user,
    };
    Ok(report.write(alloc)?)
}

/// Hands out a status report.
fn put_status_report(
    alloc: Global,
    fields: StatusReportFields,
    recipient: &[u8],
    octets: &[u8],
    out: &mut [u8],
    needed: &mut usize,
) -> Result<(), Failure>
    ensures put { IfOk result (λ _. OfOctetsIn
        (status_report_written fields recipient.now octets.now)
        (ArePut out.old out.new needed.new)) }
    ensures no_room { result ≡ Err NoRoom → OfOctetsIn
        (status_report_written fields recipient.now octets.now)
        (LackRoom out.old out.new needed.new) }
    ensures none { OnErr result (out.new ≡ out.old) }
    ensures needed { IfErr result (λ why. IsNotRoom why → needed.new ≡ needed.old) }
    ensures answer { AnswersSo (status_report_written fields recipient.now octets.now)
        result }
{
    let unit = written(alloc, fields, recipient, octets)?;
    hand_out(&unit, out, needed)
}

/// Writes an SMS-STATUS-REPORT.
#[unsafe(no_mangle)]
pub extern "C" fn sms_status_report_write(
    alloc: Global,
    fields: &StatusReportFields,
    recipient: &[u8],
    octets: &[u8],
    out: &mut [u8],
    needed: &mut usize,
) -> u32
    ensures put { result ≡ 0 → OfOctetsIn
        (status_report_written fields.now recipient.now octets.now)
        (ArePut out.old out.new needed.new) }
    ensures no_room { result ≡ 3 → OfOctetsIn
        (status_report_written fields.now recipient.now octets.now)
        (LackRoom out.old out.new needed.new) }
    ensures none { (result ≡ 0 → ⊥) → out.new ≡ out.old }
    ensures needed { (result ≡ 0 → ⊥) → (result ≡ 3 → ⊥) → needed.new ≡ 0 }
    ensures status { Answers (status_report_written fields.now recipient.now octets.now) result }
{
    *needed = 0;
    status_of(put_status_report(alloc, *fields, recipient, octets, out, needed))
}
