//! Packets that are written in the room of a list, in which other octets stood.

use crate::found::is;
use crate::shared::{ACK_TO_OPENER, DELIVERY_OF_HI, REPORT_OF_DELIVERY};
use sms_field::RpAddress;
use sms_relay::{Side, wrap_acknowledgement_in, wrap_answer_in, wrap_transfer_in, wrap_written_in};
use sms_tpdu::{Deliver, DeliverAck, Unit};
use std::alloc::{AllocError, Global};
use std::test::Fail;

/// Where the unit begins in the packet of the delivery.
const UNIT: usize = 11;

/// A room in which three octets stood.
fn room(alloc: Global) -> Result<Vec<u8>, AllocError> {
    Vec::from_slice(alloc, &[1, 2, 3])
}

/// Whether an acknowledgement is written in a room.
fn is_acknowledged(alloc: Global) -> Result<bool, AllocError> {
    let packet = wrap_acknowledgement_in(room(alloc)?, true, 0)?;
    Ok(packet.as_slice() == ACK_TO_OPENER)
}

/// Whether the delivery is written in a room, from the centre +1000.
fn is_delivered(alloc: Global) -> Result<bool, AllocError> {
    let centre = RpAddress::from_text(alloc, "+1000").map_err(|_| AllocError)?;
    let (unit, _) = Deliver::read(alloc, &DELIVERY_OF_HI[UNIT..]).map_err(|_| AllocError)?;
    let room = room(alloc)?;
    let packet = wrap_transfer_in(room, false, 0, Side::ToPhone, 0, Some(&centre), &unit).map_err(
        |_| AllocError,
    )?;
    Ok(packet.as_slice() == DELIVERY_OF_HI)
}

/// Whether the octets of the delivery are written in a room.
fn is_wrapped(alloc: Global) -> Result<bool, AllocError> {
    let centre = RpAddress::from_text(alloc, "+1000").map_err(|_| AllocError)?;
    let unit = &DELIVERY_OF_HI[UNIT..];
    let room = room(alloc)?;
    let packet = wrap_written_in(room, false, 0, Side::ToPhone, 0, Some(&centre), unit).map_err(
        |_| AllocError,
    )?;
    Ok(packet.as_slice() == DELIVERY_OF_HI)
}

/// Whether the report of the delivery is written in a room.
fn is_reported(alloc: Global) -> Result<bool, AllocError> {
    let (unit, _) = DeliverAck::read(alloc, &[0, 0]).map_err(|_| AllocError)?;
    let room = room(alloc)?;
    let packet = wrap_answer_in(room, true, 0, Side::FromPhone, 0, None, Some(&unit)).map_err(
        |_| AllocError,
    )?;
    Ok(packet.as_slice() == REPORT_OF_DELIVERY)
}

/// Whether each packet is written in a room.
fn are_written(alloc: Global) -> Result<bool, AllocError> {
    Ok(is_acknowledged(alloc)? && is_delivered(alloc)? && is_wrapped(alloc)? && is_reported(alloc)?)
}

#[test]
fn writes_in_a_room(rt: HostRuntime) -> Result<(), Fail> {
    is(&rt, "room", are_written(rt.alloc())?, true);
    Ok(())
}

/// One growth is refused, whichever it is (docs/CONTRIBUTING.md says how): the packets are then
/// written as where none was refused.
#[test]
fn writes_in_a_room_after_a_refused_growth(rt: HostRuntime) -> Result<(), Fail> {
    let written = match are_written(rt.alloc()) {
        Ok(written) => written,
        Err(_) => are_written(rt.alloc())?,
    };
    is(&rt, "room", written, true);
    Ok(())
}
