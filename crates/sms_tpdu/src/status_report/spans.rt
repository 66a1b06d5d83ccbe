//! Where the parts of an SMS-STATUS-REPORT lie.

ghost use Rattle.sms_field.specs.Reading.{Reads};
ghost use Rattle.sms_tpdu.specs.StatusReport.{status_report};
ghost use Rattle.sms_tpdu.specs.StatusReport.Spans.{StatusReportLies};

use crate::address::address_after;
use crate::data_spans::{DataSpans, report_data_spans};
use crate::status_report::view::StatusReportView;
use sms_field::Span;

/// Where the parts of an SMS-STATUS-REPORT lie in the octets of which it was read.
#[derive(Clone, Copy, Debug, PartialEq, Eq)]
pub struct StatusReportSpans {
    /// TP-RA: the recipient of the message, with its length octet.
    pub recipient: Span,
    /// TP-UD, where it is there.
    pub user: Option<DataSpans>,
}

impl<'a> StatusReportView<'a> {
    /// Where the parts of a report lie in the octets at whose front it was read, `used` of them.
    pub fn spans(&self, octets: &[u8], used: usize) -> StatusReportSpans
        requires { Reads status_report self.now octets.now used }
        ensures { StatusReportLies self.now octets.now used result }
    {
        StatusReportSpans {
            recipient: address_after(octets, 2),
            user: report_data_spans(&self.user, self.has_header, used),
        }
    }
}
