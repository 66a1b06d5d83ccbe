//! Where the parts of an SMS-SUBMIT lie.

ghost use Rattle.sms_field.specs.Reading.{Reads};
ghost use Rattle.sms_tpdu.specs.Submit.{submit};
ghost use Rattle.sms_tpdu.specs.Submit.Spans.{SubmissionLies};

use crate::submit::view::SubmitView;
use crate::user_data::spans::UserSpans;
use sms_field::{AddressView, Span};

/// Where the parts of an SMS-SUBMIT lie in the octets of which it was read.
#[derive(Clone, Copy, Debug, PartialEq, Eq)]
pub struct SubmitSpans {
    /// TP-DA: the recipient, with its length octet.
    pub target: Span,
    /// TP-UD.
    pub user: UserSpans,
}

impl<'a> SubmitView<'a> {
    /// Where the parts of a submission lie in the octets at whose front it was read, `used` of
    /// them.
    pub fn spans(&self, octets: &[u8], used: usize) -> SubmitSpans
        requires { Reads submit self.now octets.now used }
        ensures { SubmissionLies self.now octets.now used result }
    {
        let (_, after) = octets.split_at(2);
        SubmitSpans {
            target: Span {
                offset: 2,
                length: AddressView::length_in(after),
            },
            user: self.user.spans(used),
        }
    }
}
