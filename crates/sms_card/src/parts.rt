//! The parts of a status report that its indicator says are there, where they lie.

ghost use Rattle.std.specs.Prelude.{◌≡◌, ◌≤◌, length, IfOk, IfSome};
ghost use Rattle.sms_field.specs.Bit.{bit};
ghost use Rattle.sms_field.specs.Field.Optional.{part_if};
ghost use Rattle.sms_field.specs.Reading.Answer.{Sees};
ghost use Rattle.sms_tpdu.specs.Report.AnnouncedParts as announced;
ghost use Rattle.sms_tpdu.specs.Report.AnnouncedParts.{report_data, IsReportData, AreParts};
ghost use Rattle.sms_tpdu.specs.Report.Indicated as formats;
ghost use Rattle.sms_tpdu.specs.Report.Indicated.{indicated_parts};
ghost use Rattle.sms_tpdu.specs.Report.ParameterIndicator.{further, indicated, indicator};
ghost use Rattle.sms_tpdu.specs.UserData.Lengths as lengths;
ghost use Rattle.sms_tpdu.specs.declared.fault.UnitFault.TheVariants.{Short};

use sms_field::{Alphabet, Cursor, Fault, alphabet_of, has_bit};
use sms_tpdu::{Indicator, ReportDataView, UnitFault};
use std::marker::Model;

/// The most octets of a report's data (3GPP TS 23.040, 9.2.2.1a and 9.2.2.2a).
const DATA_MAX: usize = 159;

/// The parts that an indicator says are there. Contracts see them as the parts.
#[derive(Drop)]
pub struct PartsView<'a> {
    /// TP-PID: the protocol identifier.
    pub pid: Option<u8>,
    /// TP-DCS: the data coding scheme.
    pub dcs: Option<u8>,
    /// TP-UDL and TP-UD.
    pub user: Option<ReportDataView<'a>>,
}

impl<'a> Model for PartsView<'a> {
    ghost use Rattle.sms_tpdu.specs.Report.AnnouncedParts.{Parts};

    ghost Value = { Parts };

    ghost view = { λ p. record { pid = p.pid; dcs = p.dcs; user = p.user } };
}

/// Skips the octets of an indicator that follow its first one.
fn skip_further(input: &mut Cursor, first: u8) -> Result<(), Fault<UnitFault>>
    ensures { Sees (further Short (bit 7 first)) input.old result input.new }
{
    let mut last = first;
    while has_bit(last, 7) {
        last = input.take_octet()?;
    }
    Ok(())
}

/// What the first octet of an indicator says.
fn indicator_of(octet: u8) -> Indicator
    ensures { result ≡ indicated octet }
{
    Indicator {
        pid: has_bit(octet, 0),
        dcs: has_bit(octet, 1),
        user: has_bit(octet, 2),
    }
}

/// An indicator, of as many octets as it has.
#[tactic(auto, unfolding(sms_tpdu::specs::Report::ParameterIndicator::indicator))]
fn indicator_at(input: &mut Cursor) -> Result<Indicator, Fault<UnitFault>>
    ensures { Sees indicator input.old result input.new }
{
    let first = input.take_octet()?;
    skip_further(input, first)?;
    Ok(indicator_of(first))
}

/// How many octets data of a length take.
fn octets_of_length(alphabet: Alphabet, count: u8) -> usize
    ensures { result ≡ lengths.octets_of_length alphabet count }
{
    match alphabet {
        Alphabet::Gsm7 => (7 * count as usize).div_ceil(8),
        _ => count as usize,
    }
}

/// The alphabet by which a report's data are counted.
fn report_alphabet(dcs: Option<u8>) -> Alphabet
    ensures { result ≡ announced.report_alphabet dcs }
{
    match dcs {
        Some(dcs) => alphabet_of(dcs),
        None => Alphabet::Gsm7,
    }
}

/// The length of a report's data, where they are not too long.
fn report_length(alphabet: Alphabet, count: u8) -> Result<u8, UnitFault>
    ensures few { IfOk result (λ count.
        lengths.octets_of_length alphabet count ≤ DATA_MAX) }
    ensures is { result ≡ announced.report_length alphabet count }
{
    if octets_of_length(alphabet, count) > DATA_MAX {
        return Err(UnitFault::DataTooLong);
    }
    Ok(count)
}

/// The data of a length and octets.
fn data_seen<'a>(alphabet: Alphabet, count: u8, octets: &'a [u8]) -> ReportDataView<'a>
    requires counted { length octets.now ≡ lengths.octets_of_length alphabet count }
    requires few { length octets.now ≤ DATA_MAX }
    ensures is { result ≡ announced.data_in count octets.now }
    ensures fits { IsReportData alphabet result }
{
    ReportDataView {
        length: count,
        octets,
    }
}

/// The data of a report.
#[tactic(auto, unfolding(sms_tpdu::specs::Report::AnnouncedParts::report_data))]
fn report_data_at<'a>(
    input: &mut Cursor<'a>,
    alphabet: Alphabet,
) -> Result<ReportDataView<'a>, Fault<UnitFault>>
    ensures fits { IfOk result (IsReportData alphabet) }
    ensures read { Sees (report_data alphabet) input.old result input.new }
{
    let count = input.take_octet_by(|count| report_length(alphabet, count))?;
    let octets = input.take_octets(octets_of_length(alphabet, count))?;
    Ok(data_seen(alphabet, count, octets))
}

/// The data of a report, where they are there.
fn report_data_if<'a>(
    input: &mut Cursor<'a>,
    there: bool,
    alphabet: Alphabet,
) -> Result<Option<ReportDataView<'a>>, Fault<UnitFault>>
    ensures fits { IfOk result (λ user. IfSome user (IsReportData alphabet)) }
    ensures read { Sees (part_if there (report_data alphabet)) input.old result input.new }
{
    if there {
        let user = report_data_at(input, alphabet)?;
        Ok(Some(user))
    } else {
        Ok(None)
    }
}

/// The parts of a report that are there.
#[tactic(auto, unfolding(sms_tpdu::specs::Report::AnnouncedParts::parts))]
fn parts_at<'a>(input: &mut Cursor<'a>, there: Indicator) -> Result<PartsView<'a>, Fault<UnitFault>>
    ensures fit { IfOk result AreParts }
    ensures read { Sees (announced.parts there) input.old result input.new }
{
    let pid = input.take_octet_if(there.pid)?;
    let dcs = input.take_octet_if(there.dcs)?;
    let user = report_data_if(input, there.user, report_alphabet(dcs))?;
    Ok(PartsView { pid, dcs, user })
}

/// An indicator, and the parts that it says are there.
#[tactic(auto, unfolding(sms_tpdu::specs::Report::Indicated::indicated_parts))]
pub fn indicated_parts_at<'a>(input: &mut Cursor<'a>) -> Result<PartsView<'a>, Fault<UnitFault>>
    ensures fit { IfOk result AreParts }
    ensures read { Sees indicated_parts input.old result input.new }
{
    let there = indicator_at(input)?;
    parts_at(input, there)
}

/// A report's parts where none is there.
pub fn no_parts<'a>() -> PartsView<'a>
    ensures { result ≡ formats.no_parts }
{
    PartsView {
        pid: None,
        dcs: None,
        user: None,
    }
}
