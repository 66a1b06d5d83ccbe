//! Where data lie that a unit carries as octets.

ghost use Rattle.std.specs.Prelude.{◌≡◌};
ghost use Rattle.sms_tpdu.specs.DataSpans.{data_before, data_before_if, header_before};

use crate::report::parts::ReportDataView;
use sms_field::Span;

/// Where TP-UD of a report lies, or TP-CD of a command, and the header at its front.
#[derive(Clone, Copy, Debug, PartialEq, Eq)]
pub struct DataSpans {
    /// TP-UD or TP-CD.
    pub octets: Span,
    /// TP-UDH without its length octet, where TP-UDHI says that there is one, and as many octets
    /// follow the length octet as it counts.
    pub header: Option<Span>,
}

/// Where the header of data lies that end before a place.
fn header_span(octets: &[u8], has_header: bool, end: usize) -> Option<Span>
    ensures { result ≡ header_before end has_header octets.now }
{
    let [size, others @ ..] = octets else {
        return None;
    };
    let length = usize::from(*size);
    if !has_header || length > others.len() {
        return None;
    }
    Some(Span {
        offset: end.saturating_sub(others.len()),
        length,
    })
}

/// Where data lie that end before a place.
pub fn data_spans(octets: &[u8], has_header: bool, end: usize) -> DataSpans
    ensures { result ≡ data_before end has_header octets.now }
{
    let length = octets.len();
    DataSpans {
        octets: Span {
            offset: end.saturating_sub(length),
            length,
        },
        header: header_span(octets, has_header, end),
    }
}

/// Where the data of a report lie, if it has any, that end before a place.
pub fn report_data_spans(
    user: &Option<ReportDataView>,
    has_header: bool,
    end: usize,
) -> Option<DataSpans>
    ensures { result ≡ data_before_if end has_header user.now }
{
    let user = user.as_ref()?;
    Some(data_spans(user.octets, has_header, end))
}
