//! Where the parts of an SMS-COMMAND lie.

ghost use Rattle.sms_field.specs.Reading.{Reads};
ghost use Rattle.sms_tpdu.specs.Command.{command};
ghost use Rattle.sms_tpdu.specs.Command.Spans.{CommandLies};

use crate::address::address_after;
use crate::command::view::CommandView;
use crate::data_spans::{DataSpans, data_spans};
use sms_field::Span;

/// Where the parts of an SMS-COMMAND lie in the octets of which it was read.
#[derive(Clone, Copy, Debug, PartialEq, Eq)]
pub struct CommandSpans {
    /// TP-DA: the recipient of the message in question, with its length octet.
    pub target: Span,
    /// TP-CD.
    pub data: DataSpans,
}

impl<'a> CommandView<'a> {
    /// Where the parts of a command lie in the octets at whose front it was read, `used` of them.
    pub fn spans(&self, octets: &[u8], used: usize) -> CommandSpans
        requires { Reads command self.now octets.now used }
        ensures { CommandLies self.now octets.now used result }
    {
        CommandSpans {
            target: address_after(octets, 5),
            data: data_spans(self.octets.as_slice(), self.has_header, used),
        }
    }
}
