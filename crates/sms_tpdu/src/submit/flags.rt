//! The first octet of a submission: its type, and flags.

ghost use Rattle.std.specs.Prelude.{◌≡◌};
ghost use Rattle.sms_tpdu.specs.Submit.Flags.{submit_flags, submit_octet};

use crate::fault::UnitFault;
use crate::submit::validity::ValidityFormat;
use sms_field::{bit_weight, has_bit};

/// The flags in the first octet of a submission (TS 23.040, 9.2.2.2).
#[derive(Clone, Copy)]
pub struct SubmitFlags {
    /// TP-RD: a repeat is to be rejected.
    pub reject: bool,
    /// TP-VPF: how the validity period is given.
    pub format: ValidityFormat,
    /// TP-SRR: a status report is wanted.
    pub report: bool,
    /// TP-UDHI: the user data begin with a header.
    pub header: bool,
    /// TP-RP: a reply goes by the same service centre.
    pub reply: bool,
}

impl SubmitFlags {
    /// What the first octet of a submission says.
    pub fn from_octet(octet: u8) -> Result<SubmitFlags, UnitFault>
        ensures { result ≡ submit_flags octet }
    {
        if has_bit(octet, 1) || !has_bit(octet, 0) {
            return Err(UnitFault::WrongType);
        }
        Ok(SubmitFlags {
            reject: has_bit(octet, 2),
            format: ValidityFormat::from_bits(has_bit(octet, 4), has_bit(octet, 3)),
            report: has_bit(octet, 5),
            header: has_bit(octet, 6),
            reply: has_bit(octet, 7),
        })
    }

    /// The first octet of a submission with these flags.
    pub fn to_octet(self) -> u8
        ensures { result ≡ submit_octet self }
    {
        let (high, low) = self.format.to_bits();
        bit_weight(0, true)
            + bit_weight(2, self.reject)
            + bit_weight(3, low)
            + bit_weight(4, high)
            + bit_weight(5, self.report)
            + bit_weight(6, self.header)
            + bit_weight(7, self.reply)
    }
}
