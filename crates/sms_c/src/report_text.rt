//! The text of the data of a report.

ghost use Rattle.std.specs.Prelude.{◌≡◌, Ok, Err, MatchResult, IfOk, IfErr, OnErr};
ghost use Rattle.std.specs.Str.{chars};
ghost use Rattle.std.specs.String.{string_bytes};
ghost use Rattle.sms_tpdu.specs.Report.AnnouncedParts.{IsReportData, report_alphabet};
ghost use Rattle.sms_c.specs.Answered.{Answers, AnswersSo, Fails, OfTextIn};
ghost use Rattle.sms_c.specs.HandedOut.{ArePut, LackRoom};
ghost use Rattle.sms_c.specs.ReportText as seen;
ghost use Rattle.sms_c.specs.ReportText.{data_text, data_of_report, data_of_status_report};
ghost use Rattle.sms_c.specs.Status.{IsNotRoom};
ghost use Rattle.sms_c.specs.declared.status.Failure.TheVariants.{NoRoom};

use crate::handed_out::hand_out;
use crate::lying::part_of;
use crate::parts::Span;
use crate::reading::report::ReportSeen;
use crate::reading::status_report::StatusReportSeen;
use crate::report_given::{REPORT_DATA_MAX, octet_given, octets_of_length};
use crate::status::{Failure, status_of};
use crate::writing::is_set;
use sms_tpdu::{DeliverAckView, ReportDataView};
use std::alloc::Global;

/// TP-UD of a report or of a status report, with what tells how it is read.
#[derive(Clone, Copy)]
pub struct DataSeen {
    pub octets: Span,
    /// TP-UDL.
    pub length: u8,
    /// TP-UDHI.
    pub has_header: u8,
    pub has_dcs: u8,
    /// TP-DCS.
    pub dcs: u8,
    pub is_there: u8,
}

impl DataSeen {
    /// The data of a report.
    fn of_report(report: &ReportSeen) -> DataSeen
        ensures { result ≡ data_of_report report.now }
    {
        DataSeen {
            octets: report.data,
            length: report.length,
            has_header: report.has_header,
            has_dcs: report.has_dcs,
            dcs: report.dcs,
            is_there: report.has_data,
        }
    }

    /// The data of a status report.
    fn of_status_report(report: &StatusReportSeen) -> DataSeen
        ensures { result ≡ data_of_status_report report.now }
    {
        DataSeen {
            octets: report.data,
            length: report.length,
            has_header: report.has_header,
            has_dcs: report.has_dcs,
            dcs: report.dcs,
            is_there: report.has_data,
        }
    }

    /// TP-DCS, where it is there.
    fn scheme(self) -> Option<u8>
        ensures { result ≡ seen.dcs_in self }
    {
        octet_given(self.has_dcs, self.dcs)
    }
}

/// Whether TP-UDL counts so many octets, and they are not too many.
fn are_counted(dcs: Option<u8>, count: u8, size: usize) -> bool
    ensures { result ≡ seen.are_counted dcs count size }
{
    size == octets_of_length(dcs, count) && size <= REPORT_DATA_MAX
}

/// The data, where they are there and lie in the octets.
fn data_in<'a>(octets: &'a [u8], told: DataSeen) -> Result<ReportDataView<'a>, Failure>
    ensures data { MatchResult result (λ user. seen.data_in octets.now told ≡ Ok user)
        (λ why. seen.data_in octets.now told ≡ Err why) }
    ensures fits { IfOk result (IsReportData (report_alphabet (seen.dcs_in told))) }
    ensures room { IfErr result IsNotRoom }
{
    if !is_set(told.is_there) {
        return Err(Failure::NotThere);
    }
    let Some(octets) = part_of(octets, told.octets) else {
        return Err(Failure::OutOfRange);
    };
    if !are_counted(told.scheme(), told.length, octets.len()) {
        return Err(Failure::OutOfRange);
    }
    Ok(ReportDataView {
        length: told.length,
        octets,
    })
}

/// The text of the data.
fn text_in(alloc: Global, octets: &[u8], told: DataSeen) -> Result<String, Failure>
    ensures text { MatchResult result
        (λ text. data_text octets.now told ≡ Ok (chars (string_bytes text)))
        (λ why. Fails (data_text octets.now told) why) }
    ensures room { IfErr result IsNotRoom }
{
    let user = data_in(octets, told)?;
    let report = DeliverAckView {
        has_header: is_set(told.has_header),
        cause: (),
        stamp: (),
        pid: None,
        dcs: told.scheme(),
        user: Some(user),
    };
    match report.text(alloc)? {
        Some(text) => Ok(text),
        None => Err(Failure::NotThere),
    }
}

/// Hands out the text of the data.
fn put_text(
    alloc: Global,
    octets: &[u8],
    told: DataSeen,
    out: &mut [u8],
    needed: &mut usize,
) -> Result<(), Failure>
    ensures put { IfOk result (λ _. OfTextIn (data_text octets.now told)
        (ArePut out.old out.new needed.new)) }
    ensures no_room { result ≡ Err NoRoom → OfTextIn (data_text octets.now told)
        (LackRoom out.old out.new needed.new) }
    ensures none { OnErr result (out.new ≡ out.old) }
    ensures needed { IfErr result (λ why. IsNotRoom why → needed.new ≡ needed.old) }
    ensures answer { AnswersSo (data_text octets.now told) result }
{
    let text = text_in(alloc, octets, told)?;
    hand_out(text.as_bytes(), out, needed)
}

/// The text of the data of a report that was seen in these octets.
#[unsafe(no_mangle)]
pub extern "C" fn sms_report_text(
    alloc: Global,
    octets: &[u8],
    report: &ReportSeen,
    out: &mut [u8],
    needed: &mut usize,
) -> u32
    ensures put { result ≡ 0 → OfTextIn (data_text octets.now (data_of_report report.now))
        (ArePut out.old out.new needed.new) }
    ensures no_room { result ≡ 3 → OfTextIn (data_text octets.now (data_of_report report.now))
        (LackRoom out.old out.new needed.new) }
    ensures none { (result ≡ 0 → ⊥) → out.new ≡ out.old }
    ensures needed { (result ≡ 0 → ⊥) → (result ≡ 3 → ⊥) → needed.new ≡ 0 }
    ensures status { Answers (data_text octets.now (data_of_report report.now)) result }
{
    *needed = 0;
    let told = DataSeen::of_report(report);
    status_of(put_text(alloc, octets, told, out, needed))
}

/// The text of the data of a status report that was seen in these octets.
#[unsafe(no_mangle)]
pub extern "C" fn sms_status_report_text(
    alloc: Global,
    octets: &[u8],
    report: &StatusReportSeen,
    out: &mut [u8],
    needed: &mut usize,
) -> u32
    ensures put { result ≡ 0
        → OfTextIn (data_text octets.now (data_of_status_report report.now))
        (ArePut out.old out.new needed.new) }
    ensures no_room { result ≡ 3
        → OfTextIn (data_text octets.now (data_of_status_report report.now))
        (LackRoom out.old out.new needed.new) }
    ensures none { (result ≡ 0 → ⊥) → out.new ≡ out.old }
    ensures needed { (result ≡ 0 → ⊥) → (result ≡ 3 → ⊥) → needed.new ≡ 0 }
    ensures status { Answers (data_text octets.now (data_of_status_report report.now)) result }
{
    *needed = 0;
    let told = DataSeen::of_status_report(report);
    status_of(put_text(alloc, octets, told, out, needed))
}
