//! The kinds of CP messages.

ghost use Rattle.std.specs.Prelude.{◌≡◌};
ghost use Rattle.sms_relay.specs.Cp.Kind as kinds;

use crate::fault::RelayFault;

/// The kind of a CP message (3GPP TS 24.011, 8.1.3).
#[derive(Clone, Copy)]
pub enum CpKind {
    /// CP-DATA.
    Data,
    /// CP-ACK.
    Ack,
    /// CP-ERROR.
    Error,
}

impl CpKind {
    /// The kind that the second octet of a CP message names.
    pub fn from_octet(octet: u8) -> Result<CpKind, RelayFault>
        ensures { result ≡ kinds.cp_kind octet }
    {
        match octet {
            0x01 => Ok(CpKind::Data),
            0x04 => Ok(CpKind::Ack),
            0x10 => Ok(CpKind::Error),
            _ => Err(RelayFault::UnknownType),
        }
    }

    /// The second octet of a CP message of this kind.
    pub fn to_octet(self) -> u8
        ensures { result ≡ kinds.kind_octet self }
    {
        match self {
            CpKind::Data => 0x01,
            CpKind::Ack => 0x04,
            CpKind::Error => 0x10,
        }
    }
}
