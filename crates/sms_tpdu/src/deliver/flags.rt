//! The first octet of a delivery: its type, and flags.

ghost use Rattle.std.specs.Prelude.{◌≡◌};
ghost use Rattle.sms_tpdu.specs.Deliver.Flags.{deliver_flags, deliver_octet};

use crate::fault::UnitFault;
use sms_field::{bit_weight, has_bit};

/// The flags in the first octet of a delivery (TS 23.040, 9.2.2.1).
#[derive(Clone, Copy)]
pub struct DeliverFlags {
    /// TP-MMS, which is 0 where more messages wait in the service centre.
    pub more: bool,
    /// TP-LP: the message was forwarded before, or was made because of another one.
    pub looped: bool,
    /// TP-SRI: a status report will go to the sender.
    pub report: bool,
    /// TP-UDHI: the user data begin with a header.
    pub header: bool,
    /// TP-RP: a reply goes by the same service centre.
    pub reply: bool,
}

impl DeliverFlags {
    /// What the first octet of a delivery says.
    pub fn from_octet(octet: u8) -> Result<DeliverFlags, UnitFault>
        ensures { result ≡ deliver_flags octet }
    {
        if has_bit(octet, 0) || has_bit(octet, 1) {
            return Err(UnitFault::WrongType);
        }
        Ok(DeliverFlags {
            more: !has_bit(octet, 2),
            looped: has_bit(octet, 3),
            report: has_bit(octet, 5),
            header: has_bit(octet, 6),
            reply: has_bit(octet, 7),
        })
    }

    /// The first octet of a delivery with these flags.
    pub fn to_octet(self) -> u8
        ensures { result ≡ deliver_octet self }
    {
        bit_weight(2, !self.more)
            + bit_weight(3, self.looped)
            + bit_weight(5, self.report)
            + bit_weight(6, self.header)
            + bit_weight(7, self.reply)
    }
}
