//! The parts of a report that C gives to be written.

ghost use Rattle.std.specs.Prelude.{◌≡◌, Ok, IfOk, IfSome, MatchResult, IfErr};
ghost use Rattle.sms_tpdu.specs.Report.AnnouncedParts.{IsReportData, report_alphabet};
ghost use Rattle.sms_tpdu.specs.UserData.Lengths as lengths;
ghost use Rattle.sms_c.specs.Answered.{Fails};
ghost use Rattle.sms_c.specs.ReportGiven as given;
ghost use Rattle.sms_c.specs.Status.{IsNotRoom};

use crate::status::Failure;
use crate::writing::is_set;
use sms_field::{Alphabet, alphabet_of};
use sms_tpdu::{Octets, ReportData};
use std::alloc::Global;

/// The most octets of the data of a report (3GPP TS 23.040, 9.2.2.1a and 9.2.2.2a).
pub const REPORT_DATA_MAX: usize = 159;

/// How many octets a TP-UDL counts; septets where there is no TP-DCS.
pub fn octets_of_length(dcs: Option<u8>, count: u8) -> usize
    ensures { result ≡ lengths.octets_of_length (report_alphabet dcs) count }
{
    let alphabet = match dcs {
        Some(dcs) => alphabet_of(dcs),
        None => Alphabet::Gsm7,
    };
    match alphabet {
        Alphabet::Gsm7 => (7 * usize::from(count) + 7) / 8,
        _ => usize::from(count),
    }
}

/// An octet, where it is said to be there.
pub fn octet_given(there: u8, octet: u8) -> Option<u8>
    ensures { result ≡ given.octet_given there octet }
{
    if is_set(there) { Some(octet) } else { None }
}

/// Whether a header lies in the data that it is announced for.
pub fn header_fits(headed: bool, octets: &[u8]) -> bool
    ensures { result ≡ given.header_fits headed octets.now }
{
    if !headed {
        return true;
    }
    match octets {
        [size, others @ ..] => usize::from(*size) <= others.len(),
        [] => false,
    }
}

/// Whether TP-UDL counts the octets, and an announced header lies in them.
fn fit_together(headed: bool, dcs: Option<u8>, count: u8, octets: &[u8]) -> bool
    ensures { result ≡ given.fit_together headed dcs count octets.now }
{
    octets.len() == octets_of_length(dcs, count) && header_fits(headed, octets)
}

/// The data of a report, if they are said to be there.
pub fn user_given(
    alloc: Global,
    headed: bool,
    dcs: Option<u8>,
    there: bool,
    count: u8,
    octets: &[u8],
) -> Result<Option<ReportData>, Failure>
    ensures given { MatchResult result
        (λ user. given.user_given headed dcs there count octets.now ≡ Ok user)
        (λ why. Fails (given.user_given headed dcs there count octets.now) why) }
    ensures fits { IfOk result (λ user. IfSome user (IsReportData (report_alphabet dcs))) }
    ensures room { IfErr result IsNotRoom }
{
    if octets.len() > REPORT_DATA_MAX {
        return Err(Failure::TooLong);
    }
    if there {
        if !fit_together(headed, dcs, count, octets) {
            return Err(Failure::OutOfRange);
        }
        let octets = Octets::from_slice(alloc, octets)?;
        return Ok(Some(ReportData {
            length: count,
            octets,
        }));
    }
    if headed || count != 0 || !octets.is_empty() {
        return Err(Failure::OutOfRange);
    }
    Ok(None)
}
