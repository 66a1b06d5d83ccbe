//! The text that the data of a report carry.

ghost use Rattle.std.specs.Prelude.{◌≡◌, ◌≤◌, length, IfSome, option_map};
ghost use Rattle.sms_tpdu.specs.Report.AnnouncedParts as formats;
ghost use Rattle.sms_tpdu.specs.Report.AnnouncedParts.{IsReportData};
ghost use Rattle.sms_tpdu.specs.Report.Text.{octets_of_header, body_after, text_of_data, text_of_report};
ghost use Rattle.sms_tpdu.specs.UserData.BodySeen.{seen_body};
ghost use Rattle.sms_tpdu.specs.UserData.Lengths as lengths;
ghost use Rattle.sms_tpdu.specs.UserData.Text.{AnswersText};

use crate::report::parts::{REPORT_DATA_MAX, ReportDataView, report_alphabet};
use crate::user_data::lengths::{fill_bits, length_of_header};
use crate::user_data::view::body::{BodyView, SeptetsView};
use sms_field::Alphabet;
use std::alloc::{AllocError, Global};

/// How many octets a header takes at the front of data, with its length octet; none where it does
/// not lie in them.
fn octets_of_header(octets: &[u8], has_header: bool) -> Option<usize>
    ensures { result ≡ octets_of_header has_header octets.now }
{
    if !has_header {
        return Some(0);
    }
    let [size, others @ ..] = octets else {
        return None;
    };
    let length = usize::from(*size);
    if length > others.len() {
        return None;
    }
    Some(length + 1)
}

/// What stands after so many octets of data, if their length has room for these.
fn body_after<'a>(
    alphabet: Alphabet,
    count: u8,
    octets: &'a [u8],
    taken: usize,
) -> Option<BodyView<'a>>
    requires counted { length octets.now ≡ lengths.octets_of_length alphabet count }
    requires lies { taken ≤ length octets.now }
    requires few { length octets.now ≤ REPORT_DATA_MAX }
    ensures { option_map seen_body result ≡ body_after alphabet count octets.now taken }
{
    let header = length_of_header(alphabet, taken);
    if header > usize::from(count) {
        return None;
    }
    let octets = &octets[taken..];
    Some(match alphabet {
        Alphabet::Gsm7 => BodyView::Septets(SeptetsView {
            octets,
            fill: fill_bits(taken),
            count: (usize::from(count) - header) as u8,
        }),
        _ => BodyView::Octets(octets),
    })
}

/// The text that data carry, which begin with a header or not.
fn text_of_data(
    alloc: Global,
    user: &ReportDataView,
    has_header: bool,
    dcs: Option<u8>,
) -> Result<Option<String>, AllocError>
    requires { IsReportData (formats.report_alphabet dcs) user.now }
    ensures { AnswersText (text_of_data has_header dcs user.now) result }
{
    let alphabet = report_alphabet(dcs);
    let Some(taken) = octets_of_header(user.octets, has_header) else {
        return Ok(None);
    };
    match body_after(alphabet, user.length, user.octets, taken) {
        Some(body) => body.text(alloc, alphabet),
        None => Ok(None),
    }
}

/// The text of the data that a report may have.
pub fn text_of_report(
    alloc: Global,
    user: &Option<ReportDataView>,
    has_header: bool,
    dcs: Option<u8>,
) -> Result<Option<String>, AllocError>
    requires { IfSome user.now (IsReportData (formats.report_alphabet dcs)) }
    ensures { AnswersText (text_of_report has_header dcs user.now) result }
{
    match user {
        Some(user) => text_of_data(alloc, user, has_header, dcs),
        None => Ok(None),
    }
}
