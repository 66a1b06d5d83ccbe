//! The first octet of a status report: its type, and flags.

ghost use Rattle.std.specs.Prelude.{◌≡◌};
ghost use Rattle.sms_tpdu.specs.StatusReport.Flags.{status_report_flags, status_report_octet};

use crate::fault::UnitFault;
use sms_field::{bit_weight, has_bit};

/// The flags in the first octet of a status report (TS 23.040, 9.2.2.3).
#[derive(Clone, Copy)]
pub struct StatusReportFlags {
    /// TP-MMS, which is 0 where more messages wait in the service centre.
    pub more: bool,
    /// TP-LP: the report was forwarded before, or was made because of another message.
    pub looped: bool,
    /// TP-SRQ: the report is the result of an SMS-COMMAND, and not of an SMS-SUBMIT.
    pub qualifier: bool,
    /// TP-UDHI: the user data begin with a header.
    pub header: bool,
}

impl StatusReportFlags {
    /// What the first octet of a status report says.
    pub fn from_octet(octet: u8) -> Result<StatusReportFlags, UnitFault>
        ensures { result ≡ status_report_flags octet }
    {
        if has_bit(octet, 0) || !has_bit(octet, 1) {
            return Err(UnitFault::WrongType);
        }
        Ok(StatusReportFlags {
            more: !has_bit(octet, 2),
            looped: has_bit(octet, 3),
            qualifier: has_bit(octet, 5),
            header: has_bit(octet, 6),
        })
    }

    /// The first octet of a status report with these flags.
    pub fn to_octet(self) -> u8
        ensures { result ≡ status_report_octet self }
    {
        bit_weight(1, true)
            + bit_weight(2, !self.more)
            + bit_weight(3, self.looped)
            + bit_weight(5, self.qualifier)
            + bit_weight(6, self.header)
    }
}
