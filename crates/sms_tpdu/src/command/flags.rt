//! The first octet of a command: its type, and flags.

ghost use Rattle.std.specs.Prelude.{◌≡◌};
ghost use Rattle.sms_tpdu.specs.Command.Flags.{command_flags, command_octet};

use crate::fault::UnitFault;
use sms_field::{bit_weight, has_bit};

/// The flags in the first octet of a command (TS 23.040, 9.2.2.4).
#[derive(Clone, Copy)]
pub struct CommandFlags {
    /// TP-SRR: a status report is wanted.
    pub report: bool,
    /// TP-UDHI: the command data begin with a header.
    pub header: bool,
}

impl CommandFlags {
    /// What the first octet of a command says.
    pub fn from_octet(octet: u8) -> Result<CommandFlags, UnitFault>
        ensures { result ≡ command_flags octet }
    {
        if has_bit(octet, 0) || !has_bit(octet, 1) {
            return Err(UnitFault::WrongType);
        }
        Ok(CommandFlags {
            report: has_bit(octet, 5),
            header: has_bit(octet, 6),
        })
    }

    /// The first octet of a command with these flags.
    pub fn to_octet(self) -> u8
        ensures { result ≡ command_octet self }
    {
        bit_weight(1, true) + bit_weight(5, self.report) + bit_weight(6, self.header)
    }
}
