//! The kinds of RP messages.

ghost use Rattle.std.specs.Prelude.{◌≡◌};
ghost use Rattle.sms_relay.specs.Rp.Kind as kinds;

use crate::fault::RelayFault;
use crate::side::Side;
use sms_field::has_bit;

/// The kind of an RP message.
#[derive(Clone, Copy)]
pub enum RpKind {
    /// RP-DATA.
    Data,
    /// RP-ACK.
    Ack,
    /// RP-ERROR.
    Error,
}

/// The type of an RP message, RP-MTI (3GPP TS 24.011, 8.2.2).
#[derive(Clone, Copy)]
pub struct RpType {
    /// Which message it is: bits 2 and 1 of RP-MTI.
    pub kind: RpKind,
    /// The direction: bit 0 of RP-MTI.
    pub side: Side,
}

impl RpType {
    /// The type that the first octet of an RP message names.
    pub fn from_octet(octet: u8) -> Result<RpType, RelayFault>
        ensures { result ≡ kinds.rp_type octet }
    {
        let side = match has_bit(octet, 0) {
            false => Side::FromPhone,
            true => Side::ToPhone,
        };
        let kind = match (has_bit(octet, 2), has_bit(octet, 1)) {
            (false, false) => RpKind::Data,
            (false, true) => RpKind::Ack,
            (true, false) => RpKind::Error,
            (true, true) => return Err(RelayFault::UnknownType),
        };
        Ok(RpType { kind, side })
    }

    /// The first octet of an RP message of this type.
    pub fn to_octet(self) -> u8
        ensures { result ≡ kinds.type_octet self }
    {
        let kind = match self.kind {
            RpKind::Data => 0,
            RpKind::Ack => 2,
            RpKind::Error => 4,
        };
        let side = match self.side {
            Side::FromPhone => 0,
            Side::ToPhone => 1,
        };
        kind + side
    }
}
