//! The data of a report and the parts that are not always there, where they lie.

ghost use Rattle.std.specs.Prelude.{◌≡◌, ◌≤◌, length, None, IfOk, IsOk, IfSome};
ghost use Rattle.sms_field.specs.Reading.Answer.{Sees};
ghost use Rattle.sms_tpdu.specs.UserData.Lengths as lengths;
ghost use Rattle.sms_tpdu.specs.Report.AnnouncedParts as formats;
ghost use Rattle.sms_field.specs.Field.Optional.{part_if};
ghost use Rattle.sms_tpdu.specs.Report.AnnouncedParts.{report_data, IsReportData, AreParts};

use crate::fault::UnitFault;
use crate::report::indicator::Indicator;
use crate::user_data::lengths::octets_of_length;
use sms_field::{Alphabet, Cursor, Fault, Octets, alphabet_of};
use std::alloc::{AllocError, Global};
use std::marker::Model;

/// The most octets of a report's data (3GPP TS 23.040, 9.2.2.1a and 9.2.2.2a).
pub const REPORT_DATA_MAX: usize = 159;

/// The data of a report: their length as the data coding scheme counts it, and their octets.
#[derive(Drop)]
pub struct ReportData {
    /// TP-UDL: septets under the 7-bit alphabet, else octets.
    pub length: u8,
    /// TP-UD: the octets as they came, at most 159.
    pub octets: Octets,
}

/// The data of a report, where they lie. Contracts see them as the data.
#[derive(Drop)]
pub struct ReportDataView<'a> {
    /// TP-UDL: septets under the 7-bit alphabet, else octets.
    pub length: u8,
    /// TP-UD: the octets as they came, at most 159.
    pub octets: &'a [u8],
}

impl<'a> Model for ReportDataView<'a> {
    ghost use Rattle.sms_tpdu.specs.declared.report.parts.ReportData.{ReportData};

    ghost Value = { ReportData };

    ghost view = { λ d. record { length = d.length; octets = d.octets.now } };
}

/// The parts that an indicator says are there. Contracts see them as the parts.
#[derive(Drop)]
pub struct PartsView<'a> {
    /// TP-PID: the protocol identifier.
    pub pid: Option<u8>,
    /// TP-DCS: the data coding scheme.
    pub dcs: Option<u8>,
    /// TP-UDL and TP-UD.
    pub user: Option<ReportDataView<'a>>,
}

impl<'a> Model for PartsView<'a> {
    ghost use Rattle.sms_tpdu.specs.Report.AnnouncedParts.{Parts};

    ghost Value = { Parts };

    ghost view = { λ p. record { pid = p.pid; dcs = p.dcs; user = p.user } };
}

/// The alphabet by which a report's data are counted.
pub fn report_alphabet(dcs: Option<u8>) -> Alphabet
    ensures { result ≡ formats.report_alphabet dcs }
{
    match dcs {
        Some(dcs) => alphabet_of(dcs),
        None => Alphabet::Gsm7,
    }
}

/// The length of a report's data, where they are not too long.
fn report_length(alphabet: Alphabet, count: u8) -> Result<u8, UnitFault>
    ensures few { IfOk result (λ count.
        lengths.octets_of_length alphabet count ≤ REPORT_DATA_MAX) }
    ensures is { result ≡ formats.report_length alphabet count }
{
    if octets_of_length(alphabet, count) > REPORT_DATA_MAX {
        return Err(UnitFault::DataTooLong);
    }
    Ok(count)
}

/// The data of a length and octets.
fn data_seen<'a>(alphabet: Alphabet, count: u8, octets: &'a [u8]) -> ReportDataView<'a>
    requires counted { length octets.now ≡ lengths.octets_of_length alphabet count }
    requires few { length octets.now ≤ REPORT_DATA_MAX }
    ensures is { result ≡ formats.data_in count octets.now }
    ensures fits { IsReportData alphabet result }
{
    ReportDataView {
        length: count,
        octets,
    }
}

/// The data of a report.
#[tactic(auto, unfolding(crate::specs::Report::AnnouncedParts::report_data))]
fn report_data_seen_at<'a>(
    input: &mut Cursor<'a>,
    alphabet: Alphabet,
) -> Result<ReportDataView<'a>, Fault<UnitFault>>
    ensures fits { IfOk result (IsReportData alphabet) }
    ensures read { Sees (report_data alphabet) input.old result input.new }
{
    let count = input.take_octet_by(|count| report_length(alphabet, count))?;
    let octets = input.take_octets(octets_of_length(alphabet, count))?;
    Ok(data_seen(alphabet, count, octets))
}

/// The data of a report, where they are there.
fn report_data_seen_if<'a>(
    input: &mut Cursor<'a>,
    there: bool,
    alphabet: Alphabet,
) -> Result<Option<ReportDataView<'a>>, Fault<UnitFault>>
    ensures fits { IfOk result (λ user. IfSome user (IsReportData alphabet)) }
    ensures read { Sees (part_if there (report_data alphabet)) input.old result input.new }
{
    if there {
        let user = report_data_seen_at(input, alphabet)?;
        Ok(Some(user))
    } else {
        Ok(None)
    }
}

impl<'a> PartsView<'a> {
    /// Sees the parts of a report that are there at a cursor.
    #[tactic(auto, unfolding(crate::specs::Report::AnnouncedParts::parts))]
    pub fn read_at(
        input: &mut Cursor<'a>,
        there: Indicator,
    ) -> Result<PartsView<'a>, Fault<UnitFault>>
        ensures fit { IfOk result AreParts }
        ensures read { Sees (formats.parts there) input.old result input.new }
    {
        let pid = input.take_octet_if(there.pid)?;
        let dcs = input.take_octet_if(there.dcs)?;
        let user = report_data_seen_if(input, there.user, report_alphabet(dcs))?;
        Ok(PartsView { pid, dcs, user })
    }
}

/// The data themselves, where they are there.
pub fn data_of(
    alloc: Global,
    view: &Option<ReportDataView<'_>>,
) -> Result<Option<ReportData>, AllocError>
    ensures same { IfOk result (λ user. user ≡ view.now) }
    ensures none { view.now ≡ None → IsOk result }
{
    match view {
        Some(user) => {
            let octets = Octets::from_slice(alloc, user.octets)?;
            Ok(Some(ReportData {
                length: user.length,
                octets,
            }))
        }
        None => Ok(None),
    }
}
