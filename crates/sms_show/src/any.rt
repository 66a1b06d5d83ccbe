//! Messages of the relay beside those of the profile.

ghost use Rattle.std.specs.Prelude.{◌≡◌};

use crate::asked::UnitKind;
use crate::fault::ShowFault;
use sms_answer::{Lines, Octet};
use sms_relay::{RelayFault, Side};

/// The kind of a unit by the direction of its message and its message type (TP-MTI; 3GPP TS 23.040,
/// 9.2.3.1). Whether a report is of an acknowledgement or an error only the message tells.
pub fn kind_carried(side: Side, unit: &[u8], implied: UnitKind) -> UnitKind {
    match (side, unit.first().map(|first| *first % 4)) {
        (Side::ToPhone, Some(0)) => UnitKind::Deliver,
        (Side::ToPhone, Some(2)) => UnitKind::StatusReport,
        (Side::FromPhone, Some(1)) => UnitKind::Submit,
        (Side::FromPhone, Some(2)) => UnitKind::Command,
        _ => implied,
    }
}

/// RP-MTI of an RP-SMMA (3GPP TS 24.011, 8.2.2), whose other bits are spare.
const MEMORY_AVAILABLE: u8 = 6;

/// Whether octets begin as an RP-SMMA.
pub fn is_memory_available(octets: &[u8]) -> bool {
    octets.first().map(|first| *first % 8) == Some(MEMORY_AVAILABLE)
}

/// Writes the fields of an RP-SMMA: a phone has room for messages again (3GPP TS 24.011, 7.3.2).
pub fn show_memory_available(octets: &[u8], lines: &mut Lines) -> Result<(), ShowFault>
    ensures { lines.new ≡ lines.old }
{
    let [_, reference, rest @ ..] = octets else {
        return Err(ShowFault::Message(sms_field::Fault {
            place: octets.len(),
            why: RelayFault::Short,
        }));
    };
    lines.put_word("rp", "memory available from phone");
    lines.put("reference", Octet(*reference));
    lines.put_rest(rest.len());
    Ok(())
}
