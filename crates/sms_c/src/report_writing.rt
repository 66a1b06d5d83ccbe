//! Reports written: SMS-DELIVER-REPORT and SMS-SUBMIT-REPORT, as a gateway answers with them.

ghost use Rattle.std.specs.Prelude.{◌≡◌, Ok, Err, IfOk, IfErr, IfSome, OnErr, MatchResult};
ghost use Rattle.sms_tpdu.specs.Report.AnnouncedParts.{IsReportData, report_alphabet};
ghost use Rattle.sms_c.specs.Answered.{Answers, AnswersSo, Fails, OfOctetsIn};
ghost use Rattle.sms_c.specs.HandedOut.{ArePut, LackRoom};
ghost use Rattle.sms_c.specs.ReportGiven as given;
ghost use Rattle.sms_c.specs.ReportWriting as writing;
ghost use Rattle.sms_c.specs.ReportWriting.{deliver_ack_written, deliver_error_written, submit_ack_written, submit_error_written};
ghost use Rattle.sms_c.specs.Status.{IsNotRoom};
ghost use Rattle.sms_c.specs.declared.status.Failure.TheVariants.{NoRoom};

use crate::class::{SPARE, are_spare};
use crate::handed_out::hand_out;
use crate::report_given::{octet_given, user_given};
use crate::status::{Failure, status_of};
use crate::times::StampOctets;
use crate::writing::is_set;
use sms_field::Stamp;
use sms_tpdu::{Report, ReportData, ReportPart, ReportStamp, Unit};
use std::alloc::Global;

/// What a report has besides the octets of its data.
#[repr(C)]
#[derive(Clone, Copy)]
pub struct ReportFields {
    /// TP-SCTS, of an SMS-SUBMIT-REPORT.
    pub stamp: StampOctets,
    /// TP-FCS, under an RP-ERROR.
    pub cause: u8,
    pub has_pid: u8,
    /// TP-PID.
    pub pid: u8,
    pub has_dcs: u8,
    /// TP-DCS.
    pub dcs: u8,
    pub has_data: u8,
    /// TP-UDHI.
    pub has_header: u8,
    /// TP-UDL.
    pub length: u8,
    /// All 0.
    pub spare: [u8; SPARE],
}

/// The data of a report.
fn user_of(
    alloc: Global,
    fields: &ReportFields,
    octets: &[u8],
) -> Result<Option<ReportData>, Failure>
    ensures user { MatchResult result
        (λ user. writing.user_of_report fields.now octets.now ≡ Ok user)
        (λ why. Fails (writing.user_of_report fields.now octets.now) why) }
    ensures fits { IfOk result (λ user. IfSome user
        (IsReportData (report_alphabet (given.octet_given fields.now.has_dcs fields.now.dcs)))) }
    ensures room { IfErr result IsNotRoom }
{
    if !are_spare(&fields.spare) {
        return Err(Failure::OutOfRange);
    }
    user_given(
        alloc,
        is_set(fields.has_header),
        octet_given(fields.has_dcs, fields.dcs),
        is_set(fields.has_data),
        fields.length,
        octets,
    )
}

/// The octets of a report with a failure cause or none, and with a stamp or none.
fn written<C: ReportPart, S: ReportStamp>(
    alloc: Global,
    fields: &ReportFields,
    cause: C,
    stamp: S,
    octets: &[u8],
) -> Result<Vec<u8>, Failure>
    requires cause { C.part.is cause }
    requires stamp { S.part.is stamp }
    ensures written { MatchResult result
        (λ unit. writing.report_written S.first C.part S.part fields.now cause stamp
        (writing.user_of_report fields.now octets.now) ≡ Ok unit.items)
        (λ why. Fails (writing.report_written S.first C.part S.part fields.now cause stamp
        (writing.user_of_report fields.now octets.now)) why) }
    ensures room { IfErr result IsNotRoom }
{
    let user = user_of(alloc, fields, octets)?;
    let report = Report {
        has_header: is_set(fields.has_header),
        cause,
        stamp,
        pid: octet_given(fields.has_pid, fields.pid),
        dcs: octet_given(fields.has_dcs, fields.dcs),
        user,
    };
    Ok(report.write(alloc)?)
}

/// Hands out a report.
fn put_report<C: ReportPart, S: ReportStamp>(
    alloc: Global,
    fields: &ReportFields,
    cause: C,
    stamp: S,
    octets: &[u8],
    out: &mut [u8],
    needed: &mut usize,
) -> Result<(), Failure>
    requires cause { C.part.is cause }
    requires stamp { S.part.is stamp }
    ensures put { IfOk result (λ _. OfOctetsIn (writing.report_written S.first C.part S.part
        fields.now cause stamp (writing.user_of_report fields.now octets.now))
        (ArePut out.old out.new needed.new)) }
    ensures no_room { result ≡ Err NoRoom → OfOctetsIn (writing.report_written S.first C.part
        S.part fields.now cause stamp (writing.user_of_report fields.now octets.now))
        (LackRoom out.old out.new needed.new) }
    ensures none { OnErr result (out.new ≡ out.old) }
    ensures needed { IfErr result (λ why. IsNotRoom why → needed.new ≡ needed.old) }
    ensures answer { AnswersSo (writing.report_written S.first C.part S.part fields.now cause
        stamp (writing.user_of_report fields.now octets.now)) result }
{
    let unit = written(alloc, fields, cause, stamp, octets)?;
    hand_out(&unit, out, needed)
}

/// Writes an SMS-DELIVER-REPORT for RP-ACK.
#[unsafe(no_mangle)]
pub extern "C" fn sms_deliver_ack_write(
    alloc: Global,
    fields: &ReportFields,
    octets: &[u8],
    out: &mut [u8],
    needed: &mut usize,
) -> u32
    ensures put { result ≡ 0 → OfOctetsIn (deliver_ack_written fields.now octets.now)
        (ArePut out.old out.new needed.new) }
    ensures no_room { result ≡ 3 → OfOctetsIn (deliver_ack_written fields.now octets.now)
        (LackRoom out.old out.new needed.new) }
    ensures none { (result ≡ 0 → ⊥) → out.new ≡ out.old }
    ensures needed { (result ≡ 0 → ⊥) → (result ≡ 3 → ⊥) → needed.new ≡ 0 }
    ensures status { Answers (deliver_ack_written fields.now octets.now) result }
{
    *needed = 0;
    status_of(put_report(alloc, fields, (), (), octets, out, needed))
}

/// Writes an SMS-DELIVER-REPORT for RP-ERROR.
#[unsafe(no_mangle)]
pub extern "C" fn sms_deliver_error_write(
    alloc: Global,
    fields: &ReportFields,
    octets: &[u8],
    out: &mut [u8],
    needed: &mut usize,
) -> u32
    ensures put { result ≡ 0 → OfOctetsIn (deliver_error_written fields.now octets.now)
        (ArePut out.old out.new needed.new) }
    ensures no_room { result ≡ 3 → OfOctetsIn (deliver_error_written fields.now octets.now)
        (LackRoom out.old out.new needed.new) }
    ensures none { (result ≡ 0 → ⊥) → out.new ≡ out.old }
    ensures needed { (result ≡ 0 → ⊥) → (result ≡ 3 → ⊥) → needed.new ≡ 0 }
    ensures status { Answers (deliver_error_written fields.now octets.now) result }
{
    *needed = 0;
    status_of(put_report(alloc, fields, fields.cause, (), octets, out, needed))
}

/// Writes an SMS-SUBMIT-REPORT for RP-ACK.
#[unsafe(no_mangle)]
pub extern "C" fn sms_submit_ack_write(
    alloc: Global,
    fields: &ReportFields,
    octets: &[u8],
    out: &mut [u8],
    needed: &mut usize,
) -> u32
    ensures put { result ≡ 0 → OfOctetsIn (submit_ack_written fields.now octets.now)
        (ArePut out.old out.new needed.new) }
    ensures no_room { result ≡ 3 → OfOctetsIn (submit_ack_written fields.now octets.now)
        (LackRoom out.old out.new needed.new) }
    ensures none { (result ≡ 0 → ⊥) → out.new ≡ out.old }
    ensures needed { (result ≡ 0 → ⊥) → (result ≡ 3 → ⊥) → needed.new ≡ 0 }
    ensures status { Answers (submit_ack_written fields.now octets.now) result }
{
    *needed = 0;
    let stamp = Stamp::new(fields.stamp.octets);
    status_of(put_report(alloc, fields, (), stamp, octets, out, needed))
}

/// Writes an SMS-SUBMIT-REPORT for RP-ERROR.
#[unsafe(no_mangle)]
pub extern "C" fn sms_submit_error_write(
    alloc: Global,
    fields: &ReportFields,
    octets: &[u8],
    out: &mut [u8],
    needed: &mut usize,
) -> u32
    ensures put { result ≡ 0 → OfOctetsIn (submit_error_written fields.now octets.now)
        (ArePut out.old out.new needed.new) }
    ensures no_room { result ≡ 3 → OfOctetsIn (submit_error_written fields.now octets.now)
        (LackRoom out.old out.new needed.new) }
    ensures none { (result ≡ 0 → ⊥) → out.new ≡ out.old }
    ensures needed { (result ≡ 0 → ⊥) → (result ≡ 3 → ⊥) → needed.new ≡ 0 }
    ensures status { Answers (submit_error_written fields.now octets.now) result }
{
    *needed = 0;
    let stamp = Stamp::new(fields.stamp.octets);
    status_of(put_report(alloc, fields, fields.cause, stamp, octets, out, needed))
}
