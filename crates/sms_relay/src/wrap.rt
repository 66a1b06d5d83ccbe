//! Writing a packet: a unit in an RP message, and that in a CP message.

ghost use Rattle.std.specs.Prelude.{◌≡◌, ◌<◌, ◌↔◌, ℕ, List, length, Option, Some, Err, IfOk, IsSomeAnd, option_copied};
ghost use Rattle.std.specs.Option.{ForSome};
ghost use Rattle.sms_relay.specs.Carried.{acknowledgement, transfer, answer, Carries, SpellsOptional};
ghost use Rattle.sms_relay.specs.declared.fault.WrapFault.TheVariants.{DataTooLong};

use crate::cp_kind::CpKind;
use crate::fault::WrapFault;
use crate::packet::{
    PACKET_MAX, answer_begun, emptied, room_for, transfer_begun, with_octets, with_some_octets,
    with_some_unit, with_unit,
};
use crate::side::Side;
use crate::transaction::Transaction;
use crate::user::USER_DATA_MAX;
use sms_field::RpAddress;
use sms_tpdu::Unit;
use std::alloc::{AllocError, Global};

/// The octets of a CP-ACK.
///
/// The flag and the value are those of the transaction identifier (3GPP TS 24.011, 8.1.2). The flag
/// is false from the side that opened the transaction, and true from the other; the value is 0 to
/// 6.
pub fn wrap_acknowledgement(alloc: Global, flag: bool, value: u8) -> Result<Vec<u8>, AllocError>
    requires { value < 7 }
    ensures { IfOk result (λ packet. Carries flag value acknowledgement packet.items) }
{
    wrap_acknowledgement_in(Vec::new(alloc), flag, value)
}

/// The octets of a CP-ACK, as `wrap_acknowledgement` has them, written in the room of a list:
/// whatever stood in it is gone.
pub fn wrap_acknowledgement_in(room: Vec<u8>, flag: bool, value: u8) -> Result<Vec<u8>, AllocError>
    requires { value < 7 }
    ensures { IfOk result (λ packet. Carries flag value acknowledgement packet.items) }
{
    let transaction = Transaction { flag, value };
    let octets = [transaction.to_octet(), CpKind::Ack.to_octet()];
    let mut packet = emptied(room, octets.len())?;
    packet.extend_from_slice(&octets)?;
    Ok(packet)
}

/// The octets of a CP-DATA around an RP-DATA around a unit.
///
/// The flag and the value are those of the transaction identifier (3GPP TS 24.011, 8.1.2). The flag
/// is false from the side that opened the transaction, and true from the other; the value is 0 to
/// 6.
///
/// `DataTooLong` comes only where the unit has more than 233 octets.
pub fn wrap_transfer<U: Unit>(
    alloc: Global,
    flag: bool,
    value: u8,
    side: Side,
    reference: u8,
    address: Option<&RpAddress>,
    unit: &U,
) -> Result<Vec<u8>, WrapFault>
    requires { value < 7 }
    ensures carried { IfOk result (λ packet. (octets : List ℕ) × U.spells unit.now octets ×
        Carries flag value (transfer side reference (option_copied address.entry) octets)
        packet.items) }
    ensures too_long { result ≡ Err DataTooLong →
        (octets : List ℕ) × U.spells unit.now octets × (USER_DATA_MAX < length octets) }
{
    wrap_transfer_in(Vec::new(alloc), flag, value, side, reference, address, unit)
}

/// The octets of a CP-DATA around an RP-DATA around a unit, as `wrap_transfer` has them, written in
/// the room of a list: whatever stood in it is gone. The unit is written straight into the packet.
///
/// `DataTooLong` comes only where the unit has more than 233 octets.
pub fn wrap_transfer_in<U: Unit>(
    room: Vec<u8>,
    flag: bool,
    value: u8,
    side: Side,
    reference: u8,
    address: Option<&RpAddress>,
    unit: &U,
) -> Result<Vec<u8>, WrapFault>
    requires { value < 7 }
    ensures carried { IfOk result (λ packet. (octets : List ℕ) × U.spells unit.now octets ×
        Carries flag value (transfer side reference (option_copied address.entry) octets)
        packet.items) }
    ensures too_long { result ≡ Err DataTooLong →
        (octets : List ℕ) × U.spells unit.now octets × (USER_DATA_MAX < length octets) }
{
    let packet = emptied(room, PACKET_MAX)?;
    let packet = transfer_begun(packet, flag, value, side, reference, address)?;
    with_unit(packet, unit)
}

/// The octets of a CP-DATA around an RP-DATA around these octets, which are not looked at.
///
/// The flag and the value are those of the transaction identifier (3GPP TS 24.011, 8.1.2). The flag
/// is false from the side that opened the transaction, and true from the other; the value is 0 to
/// 6.
///
/// `DataTooLong` comes exactly where there are more than 233 octets.
pub fn wrap_written_transfer(
    alloc: Global,
    flag: bool,
    value: u8,
    side: Side,
    reference: u8,
    address: Option<&RpAddress>,
    octets: Vec<u8>,
) -> Result<Vec<u8>, WrapFault>
    requires { value < 7 }
    ensures carried { IfOk result (λ packet.
        Carries flag value (transfer side reference (option_copied address.entry) octets.items)
        packet.items) }
    ensures too_long { (result ≡ Err DataTooLong) ↔ (USER_DATA_MAX < length octets.items) }
{
    wrap_written_in(
        Vec::new(alloc),
        flag,
        value,
        side,
        reference,
        address,
        &octets,
    )
}

/// The octets of a CP-DATA around an RP-DATA around these octets, which are not looked at.
///
/// The flag and the value are those of the transaction identifier (3GPP TS 24.011, 8.1.2). The flag
/// is false from the side that opened the transaction, and true from the other; the value is 0 to
/// 6.
///
/// `DataTooLong` comes exactly where there are more than 233 octets.
pub fn wrap_transfer_octets(
    alloc: Global,
    flag: bool,
    value: u8,
    side: Side,
    reference: u8,
    address: Option<&RpAddress>,
    octets: &[u8],
) -> Result<Vec<u8>, WrapFault>
    requires { value < 7 }
    ensures carried { IfOk result (λ packet.
        Carries flag value (transfer side reference (option_copied address.entry) octets.now)
        packet.items) }
    ensures too_long { (result ≡ Err DataTooLong) ↔ (USER_DATA_MAX < length octets.now) }
{
    wrap_written_in(
        Vec::new(alloc),
        flag,
        value,
        side,
        reference,
        address,
        octets,
    )
}

/// The octets of a CP-DATA around an RP-DATA around these octets, as `wrap_transfer_octets` has
/// them, written in the room of a list: whatever stood in it is gone.
///
/// `DataTooLong` comes exactly where there are more than 233 octets.
pub fn wrap_written_in(
    room: Vec<u8>,
    flag: bool,
    value: u8,
    side: Side,
    reference: u8,
    address: Option<&RpAddress>,
    octets: &[u8],
) -> Result<Vec<u8>, WrapFault>
    requires { value < 7 }
    ensures carried { IfOk result (λ packet.
        Carries flag value (transfer side reference (option_copied address.entry) octets.now)
        packet.items) }
    ensures too_long { (result ≡ Err DataTooLong) ↔ (USER_DATA_MAX < length octets.now) }
{
    let packet = emptied(room, room_for(Some(octets))?)?;
    let packet = transfer_begun(packet, flag, value, side, reference, address)?;
    Ok(with_octets(packet, octets)?)
}

/// The octets of a CP-DATA around the answer to a transfer, and a unit if it has one: an RP-ACK, or
/// an RP-ERROR with a cause of 0 to 127.
///
/// The flag and the value are those of the transaction identifier (3GPP TS 24.011, 8.1.2). The flag
/// is false from the side that opened the transaction, and true from the other; the value is 0 to
/// 6.
///
/// `DataTooLong` comes only where the unit has more than 233 octets.
pub fn wrap_answer<U: Unit>(
    alloc: Global,
    flag: bool,
    value: u8,
    side: Side,
    reference: u8,
    cause: Option<u8>,
    unit: Option<&U>,
) -> Result<Vec<u8>, WrapFault>
    requires value { value < 7 }
    requires cause { ForSome cause (λ c. c < 128) }
    ensures carried { IfOk result (λ packet. (octets : Option (List ℕ)) ×
        SpellsOptional U.spells (option_copied unit.entry) octets ×
        Carries flag value (answer side reference cause octets) packet.items) }
    ensures too_long { result ≡ Err DataTooLong → (octets : List ℕ) ×
        SpellsOptional U.spells (option_copied unit.entry) (Some octets)
        × (USER_DATA_MAX < length octets) }
{
    wrap_answer_in(Vec::new(alloc), flag, value, side, reference, cause, unit)
}

/// The octets of a CP-DATA around the answer to a transfer, and a unit if it has one, as
/// `wrap_answer` has them, written in the room of a list: whatever stood in it is gone. The unit is
/// written straight into the packet.
///
/// `DataTooLong` comes only where the unit has more than 233 octets.
pub fn wrap_answer_in<U: Unit>(
    room: Vec<u8>,
    flag: bool,
    value: u8,
    side: Side,
    reference: u8,
    cause: Option<u8>,
    unit: Option<&U>,
) -> Result<Vec<u8>, WrapFault>
    requires value { value < 7 }
    requires cause { ForSome cause (λ c. c < 128) }
    ensures carried { IfOk result (λ packet. (octets : Option (List ℕ)) ×
        SpellsOptional U.spells (option_copied unit.entry) octets ×
        Carries flag value (answer side reference cause octets) packet.items) }
    ensures too_long { result ≡ Err DataTooLong → (octets : List ℕ) ×
        SpellsOptional U.spells (option_copied unit.entry) (Some octets)
        × (USER_DATA_MAX < length octets) }
{
    let packet = emptied(room, PACKET_MAX)?;
    let packet = answer_begun(packet, flag, value, side, reference, cause)?;
    with_some_unit(packet, unit)
}

/// The octets of a CP-DATA around the answer to a transfer, and these octets if there are any,
/// which are not looked at: an RP-ACK, or an RP-ERROR with a cause of 0 to 127.
///
/// The flag and the value are those of the transaction identifier (3GPP TS 24.011, 8.1.2). The flag
/// is false from the side that opened the transaction, and true from the other; the value is 0 to
/// 6.
///
/// `DataTooLong` comes exactly where there are more than 233 octets.
pub fn wrap_answer_octets(
    alloc: Global,
    flag: bool,
    value: u8,
    side: Side,
    reference: u8,
    cause: Option<u8>,
    octets: Option<&[u8]>,
) -> Result<Vec<u8>, WrapFault>
    requires value { value < 7 }
    requires cause { ForSome cause (λ c. c < 128) }
    ensures carried { IfOk result (λ packet.
        Carries flag value (answer side reference cause (option_copied octets.entry))
        packet.items) }
    ensures too_long { (result ≡ Err DataTooLong)
        ↔ IsSomeAnd (option_copied octets.entry) (λ o. USER_DATA_MAX < length o) }
{
    let packet = Vec::with_capacity(alloc, room_for(octets)?)?;
    let packet = answer_begun(packet, flag, value, side, reference, cause)?;
    Ok(with_some_octets(packet, octets)?)
}
