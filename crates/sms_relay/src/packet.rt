//! A packet that is written in the room of a list: its octets one after another, and then the
//! lengths in their places.

ghost use Rattle.std.specs.Prelude.{◌≡◌, ◌<◌, ◌≤◌, ◌↔◌, ◌-◌, ◌+◌, ◌++◌, ◌∷◌, ℕ, List, [], length, slice_set, Option, Some, None, Err, IfOk, OnOk, IsSomeAnd, option_copied};
ghost use Rattle.std.specs.Option.{ForSome};
ghost use Rattle.sms_field.specs.RelayAddress.Value.{HasOptionalSpelling};
ghost use Rattle.sms_field.specs.RelayAddress.{optional_address_octets};
ghost use Rattle.sms_relay.specs.Carried.{SpellsOptional};
ghost use Rattle.sms_relay.specs.Inside.Opened.{opened, closed_octets, transfer_front, answer_front};
ghost use Rattle.sms_relay.specs.Rp.Kind.{type_octet};
ghost use Rattle.sms_relay.specs.Rp.UserData.{IsUserData, IsOptionalUserData, user_data_tag, user_octets, optional_user_octets};
ghost use Rattle.sms_relay.specs.Rp.{rp_data_octets};
ghost use Rattle.sms_relay.specs.declared.fault.WrapFault.TheVariants.{DataTooLong};

use crate::address::put_some_address;
use crate::cause::put_cause;
use crate::cp::CP_USER_DATA_MAX;
use crate::cp_kind::CpKind;
use crate::fault::WrapFault;
use crate::rp_kind::{RpKind, RpType};
use crate::side::Side;
use crate::transaction::Transaction;
use crate::user::{USER_DATA_MAX, USER_DATA_TAG, put_octets};
use sms_field::RpAddress;
use sms_tpdu::Unit;
use std::alloc::AllocError;

/// The octets of a CP-DATA before the RP message in it.
const CP_FRONT: usize = 3;

/// The most octets before user data, with their length.
pub const FRONT_MAX: usize = 19;

/// The most octets of an answer before the length of its user data.
const ANSWER_MAX: usize = 8;

/// The most octets of a packet.
pub const PACKET_MAX: usize = FRONT_MAX + USER_DATA_MAX as usize;

/// A list with room for so many octets: whatever stood in it is gone.
pub fn emptied(room: Vec<u8>, count: usize) -> Result<Vec<u8>, AllocError>
    ensures { IfOk result (λ packet. packet.items ≡ []) }
{
    let mut packet = room;
    packet.clear();
    packet.reserve(count)?;
    Ok(packet)
}

/// The first octets of a CP-DATA, with a place for its length, and of the RP message in it.
fn begun(
    room: Vec<u8>,
    flag: bool,
    value: u8,
    named: RpType,
    reference: u8,
) -> Result<Vec<u8>, AllocError>
    requires empty { room.items ≡ [] }
    requires value { value < 7 }
    ensures { IfOk result (λ packet.
        packet.items ≡ opened flag value (type_octet named ∷ reference ∷ [])) }
{
    let transaction = Transaction { flag, value };
    let mut packet = room;
    packet.extend_from_slice(&[
        transaction.to_octet(),
        CpKind::Data.to_octet(),
        0,
        named.to_octet(),
        reference,
    ])?;
    Ok(packet)
}

/// Adds the two addresses of an RP-DATA, of which the side has one or none.
fn put_addresses(
    out: &mut Vec<u8>,
    side: Side,
    address: Option<&RpAddress>,
) -> Result<(), AllocError>
    ensures { OnOk result (HasOptionalSpelling (option_copied address.entry)
        × (out.new.items ≡ out.old.items
        ++ rp_data_octets side (optional_address_octets (option_copied address.entry)) [])) }
{
    match side {
        Side::FromPhone => {
            out.push(0)?;
            put_some_address(out, address)?;
        }
        Side::ToPhone => {
            put_some_address(out, address)?;
            out.push(0)?;
        }
    }
    Ok(())
}

/// A packet with an RP-DATA up to its user data.
pub fn transfer_begun(
    room: Vec<u8>,
    flag: bool,
    value: u8,
    side: Side,
    reference: u8,
    address: Option<&RpAddress>,
) -> Result<Vec<u8>, AllocError>
    requires empty { room.items ≡ [] }
    requires value { value < 7 }
    ensures fits { IfOk result (λ _. HasOptionalSpelling (option_copied address.entry)) }
    ensures begun { IfOk result (λ packet.
        packet.items ≡ opened flag value
        (transfer_front side reference (option_copied address.entry))) }
    ensures place { IfOk result (λ packet. CP_FRONT ≤ length packet.items) }
    ensures few { IfOk result (λ packet. length packet.items < FRONT_MAX) }
{
    let named = RpType {
        kind: RpKind::Data,
        side,
    };
    let mut packet = begun(room, flag, value, named, reference)?;
    put_addresses(&mut packet, side, address)?;
    Ok(packet)
}

/// A packet with an RP-ACK up to its user data, or with a cause an RP-ERROR.
pub fn answer_begun(
    room: Vec<u8>,
    flag: bool,
    value: u8,
    side: Side,
    reference: u8,
    cause: Option<u8>,
) -> Result<Vec<u8>, AllocError>
    requires empty { room.items ≡ [] }
    requires value { value < 7 }
    ensures begun { IfOk result (λ packet.
        packet.items ≡ opened flag value (answer_front side reference cause)) }
    ensures place { IfOk result (λ packet. CP_FRONT ≤ length packet.items) }
    ensures few { IfOk result (λ packet. length packet.items < ANSWER_MAX) }
{
    let kind = match cause {
        Some(_) => RpKind::Error,
        None => RpKind::Ack,
    };
    let mut packet = begun(room, flag, value, RpType { kind, side }, reference)?;
    if let Some(cause) = cause {
        put_cause(&mut packet, cause, None)?;
    }
    Ok(packet)
}

/// Puts the length of user data into its place, behind which they stand, if they are not too many.
fn close_user(out: &mut Vec<u8>, place: usize) -> Result<(), WrapFault>
    requires { place < length out.old.items }
    ensures closed { OnOk result ((length out.old.items - (place + 1) ≤ USER_DATA_MAX)
        × (out.new.items ≡ slice_set out.old.items place (length out.old.items - (place + 1)))) }
    ensures too_long { result ≡ Err DataTooLong
        → USER_DATA_MAX < length out.old.items - (place + 1) }
{
    let count = out.len() - (place + 1);
    if usize::from(USER_DATA_MAX) < count {
        return Err(WrapFault::DataTooLong);
    }
    out[place] = count as u8;
    Ok(())
}

/// Adds a place for a length, and the octets of a unit.
fn put_behind_place<U: Unit>(out: &mut Vec<u8>, unit: &U) -> Result<(), AllocError>
    ensures { OnOk result ((octets : List ℕ) × U.spells unit.now octets
        × (out.new.items ≡ out.old.items ++ 0 ∷ octets)) }
{
    out.push(0)?;
    unit.write_to(out)
}

/// Adds a unit as user data, written straight behind their length, if it is not too long.
fn put_unit<U: Unit>(out: &mut Vec<u8>, unit: &U) -> Result<(), WrapFault>
    ensures added { OnOk result ((octets : List ℕ) × U.spells unit.now octets
        × IsUserData octets × (out.new.items ≡ out.old.items ++ user_octets octets)) }
    ensures too_long { result ≡ Err DataTooLong →
        (octets : List ℕ) × U.spells unit.now octets × (USER_DATA_MAX < length octets) }
{
    let place = out.len();
    put_behind_place(out, unit)?;
    close_user(out, place)
}

/// The packet with the length of what the connection carries in its place.
pub fn closed(packet: Vec<u8>) -> Vec<u8>
    requires place { CP_FRONT ≤ length packet.items }
    requires few { length packet.items ≤ CP_FRONT + CP_USER_DATA_MAX }
    ensures { result.items ≡ closed_octets packet.items }
{
    let mut packet = packet;
    packet[2] = (packet.len() - CP_FRONT) as u8;
    packet
}

/// The packet with a unit as user data.
pub fn with_unit<U: Unit>(packet: Vec<u8>, unit: &U) -> Result<Vec<u8>, WrapFault>
    requires place { CP_FRONT ≤ length packet.items }
    requires front { length packet.items < FRONT_MAX }
    ensures added { IfOk result (λ whole. (octets : List ℕ) × U.spells unit.now octets
        × IsUserData octets × (whole.items ≡ closed_octets (packet.items ++ user_octets octets))) }
    ensures too_long { result ≡ Err DataTooLong →
        (octets : List ℕ) × U.spells unit.now octets × (USER_DATA_MAX < length octets) }
{
    let mut packet = packet;
    put_unit(&mut packet, unit)?;
    Ok(closed(packet))
}

/// The packet with these octets as user data.
pub fn with_octets(packet: Vec<u8>, octets: &[u8]) -> Result<Vec<u8>, AllocError>
    requires place { CP_FRONT ≤ length packet.items }
    requires front { length packet.items < FRONT_MAX }
    requires few { length octets.now ≤ USER_DATA_MAX }
    ensures octets { IfOk result (λ _. IsUserData octets.now) }
    ensures added { IfOk result (λ whole.
        whole.items ≡ closed_octets (packet.items ++ user_octets octets.now)) }
{
    let mut packet = packet;
    put_octets(&mut packet, octets)?;
    Ok(closed(packet))
}

/// The packet with the tag of user data.
fn tagged(packet: Vec<u8>) -> Result<Vec<u8>, AllocError>
    ensures { IfOk result (λ whole. whole.items ≡ packet.items ++ user_data_tag ∷ []) }
{
    let mut packet = packet;
    packet.push(USER_DATA_TAG)?;
    Ok(packet)
}

/// The packet with a unit as user data behind their tag, where there is one.
pub fn with_some_unit<U: Unit>(packet: Vec<u8>, unit: Option<&U>) -> Result<Vec<u8>, WrapFault>
    requires place { CP_FRONT ≤ length packet.items }
    requires front { length packet.items < ANSWER_MAX }
    ensures added { IfOk result (λ whole. (octets : Option (List ℕ))
        × SpellsOptional U.spells (option_copied unit.entry) octets × IsOptionalUserData octets
        × (whole.items ≡ closed_octets (packet.items ++ optional_user_octets octets))) }
    ensures too_long { result ≡ Err DataTooLong → (octets : List ℕ) ×
        SpellsOptional U.spells (option_copied unit.entry) (Some octets)
        × (USER_DATA_MAX < length octets) }
{
    match unit {
        Some(unit) => with_unit(tagged(packet)?, unit),
        None => Ok(closed(packet)),
    }
}

/// The packet with these octets as user data behind their tag, where there are any.
pub fn with_some_octets(packet: Vec<u8>, octets: Option<&[u8]>) -> Result<Vec<u8>, AllocError>
    requires place { CP_FRONT ≤ length packet.items }
    requires front { length packet.items < ANSWER_MAX }
    requires few { ForSome (option_copied octets) (λ o. length o ≤ USER_DATA_MAX) }
    ensures octets { IfOk result (λ _. IsOptionalUserData (option_copied octets.entry)) }
    ensures added { IfOk result (λ whole. whole.items
        ≡ closed_octets (packet.items ++ optional_user_octets (option_copied octets.entry))) }
{
    match octets {
        Some(octets) => with_octets(tagged(packet)?, octets),
        None => Ok(closed(packet)),
    }
}

/// Room for a packet with these octets as user data, if they are not too many.
pub fn room_for(octets: Option<&[u8]>) -> Result<usize, WrapFault>
    ensures fits { IfOk result (λ _.
        ForSome (option_copied octets.entry) (λ o. length o ≤ USER_DATA_MAX)) }
    ensures too_long { (result ≡ Err DataTooLong)
        ↔ IsSomeAnd (option_copied octets.entry) (λ o. USER_DATA_MAX < length o) }
{
    let length = match octets {
        Some(octets) => octets.len(),
        None => 0,
    };
    if usize::from(USER_DATA_MAX) < length {
        return Err(WrapFault::DataTooLong);
    }
    Ok(FRONT_MAX + length)
}
