//! Where the parts of an SMS-DELIVER lie.

ghost use Rattle.sms_field.specs.Reading.{Reads};
ghost use Rattle.sms_tpdu.specs.Deliver.{deliver};
ghost use Rattle.sms_tpdu.specs.Deliver.Spans.{DeliveryLies};

use crate::deliver::view::DeliverView;
use crate::user_data::spans::UserSpans;
use sms_field::{AddressView, Span};

/// Where the parts of an SMS-DELIVER lie in the octets of which it was read.
#[derive(Clone, Copy, Debug, PartialEq, Eq)]
pub struct DeliverSpans {
    /// TP-OA: the sender, with its length octet.
    pub origin: Span,
    /// TP-UD.
    pub user: UserSpans,
}

impl<'a> DeliverView<'a> {
    /// Where the parts of a delivery lie in the octets at whose front it was read, `used` of them.
    pub fn spans(&self, octets: &[u8], used: usize) -> DeliverSpans
        requires { Reads deliver self.now octets.now used }
        ensures { DeliveryLies self.now octets.now used result }
    {
        let (_, after) = octets.split_at(1);
        DeliverSpans {
            origin: Span {
                offset: 1,
                length: AddressView::length_in(after),
            },
            user: self.user.spans(used),
        }
    }
}
