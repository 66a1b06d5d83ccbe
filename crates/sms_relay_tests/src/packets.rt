//! Packets whose octets are known from the standard's tables.

mod rows;

ghost use Rattle.std.specs.Prelude.{◌<◌};
ghost use Rattle.std.specs.Option.{ForSome};

use crate::found::is;
use crate::shared::{DELIVERY_OF_HI, REPORT_OF_DELIVERY};
use crate::written::is_written;
use rows::{
    AGAIN, Again, DELIVER, DELIVER_ACK, DELIVER_ERROR, HEADER, NO_PACKETS, NO_RELAYS, PACKETS,
    Packet, SUBMIT, SUBMIT_ACK, SUBMIT_ERROR,
};
use sms_field::{Refusal, RpAddress};
use sms_relay::{
    CpBody, CpMessage, Inner, RelayFault, RpBody, RpMessage, Side, WrapFault, unwrap,
    wrap_acknowledgement, wrap_answer, wrap_answer_octets, wrap_transfer, wrap_transfer_octets,
};
use sms_tpdu::{Deliver, DeliverAck, DeliverError, Header, Submit, SubmitAck, SubmitError, Unit};
use std::alloc::{AllocError, Global};
use std::process::Abort;
use std::test::Fail;

/// What is said of the address of a transfer, or of there being none.
fn said_of_centre(alloc: Global, address: Option<&RpAddress>) -> Result<String, AllocError> {
    match address {
        Some(address) => address.to_text(alloc),
        None => String::from_str(alloc, "none"),
    }
}

/// What is said of a transfer.
fn said_of_transfer(
    alloc: Global,
    message: &RpMessage,
    address: Option<&RpAddress>,
) -> Result<String, AllocError> {
    let (side, reference) = (message.side, message.reference);
    let address = said_of_centre(alloc, address)?;
    format!(in alloc; "data {side:?} {reference} {address}")
}

/// What is said of an acknowledgement.
fn said_of_ack(alloc: Global, message: &RpMessage) -> Result<String, AllocError> {
    let (side, reference) = (message.side, message.reference);
    format!(in alloc; "ack {side:?} {reference}")
}

/// What is said of an error.
fn said_of_fail(
    alloc: Global,
    message: &RpMessage,
    cause: u8,
    diagnostic: Option<u8>,
) -> Result<String, AllocError> {
    let (side, reference) = (message.side, message.reference);
    format!(in alloc; "error {side:?} {reference} {cause} {diagnostic:?}")
}

/// What an RP message says beside its user data.
fn said_of_relay(alloc: Global, message: &RpMessage) -> Result<String, AllocError> {
    match &message.body {
        RpBody::Transfer { address, .. } => said_of_transfer(alloc, message, address.as_ref()),
        RpBody::Ack { .. } => said_of_ack(alloc, message),
        RpBody::Fail {
            cause,
            diagnostic,
            ..
        } => said_of_fail(alloc, message, *cause, *diagnostic),
    }
}

/// What is said of octets that are no RP message.
fn said_of_bad(alloc: Global, place: usize, why: RelayFault) -> Result<String, AllocError> {
    format!(in alloc; "{why:?} at {place}")
}

/// What is found in a CP message, beside user data.
fn said_inside(alloc: Global, inner: &Inner) -> Result<String, AllocError> {
    match inner {
        Inner::Empty => String::from_str(alloc, "empty"),
        Inner::Relay(message) => said_of_relay(alloc, message),
        Inner::Bad { place, why } => said_of_bad(alloc, *place, *why),
    }
}

/// Whether this is said of what is found in a CP message.
fn is_said(alloc: Global, inner: &Inner, says: &str) -> Result<bool, AllocError> {
    let said = said_inside(alloc, inner)?;
    Ok(said.as_str() == says)
}

/// The user data of an RP message.
fn user_data(message: &RpMessage) -> Option<&[u8]> {
    match &message.body {
        RpBody::Transfer { user, .. } => Some(user.as_slice()),
        RpBody::Ack { user: Some(user) } => Some(user.as_slice()),
        RpBody::Fail {
            user: Some(user),
            ..
        } => Some(user.as_slice()),
        _ => None,
    }
}

/// The user data of a packet.
fn user_of(row: &Packet) -> Option<&'static [u8]> {
    match row.user {
        Some(place) => row.octets.get(place..),
        None => None,
    }
}

/// Whether the octets of a CP-DATA are written as they were read, and end with the user data that
/// begin at a place.
fn is_kept(
    alloc: Global,
    row: &Packet,
    message: &CpMessage,
    relay: &RpMessage,
) -> Result<bool, AllocError> {
    match &message.body {
        CpBody::Transfer(octets) => Ok(
            is_written(alloc, relay, octets.as_slice())? && user_data(relay) == user_of(row),
        ),
        _ => Ok(false),
    }
}

/// Whether what is found in a packet is kept as it was read.
fn is_kept_inside(
    alloc: Global,
    row: &Packet,
    message: &CpMessage,
    inner: &Inner,
) -> Result<bool, AllocError> {
    match inner {
        Inner::Relay(relay) => is_kept(alloc, row, message, relay),
        _ => Ok(true),
    }
}

/// Whether a message is what its row tells, and is written as it was read.
fn is_told(
    alloc: Global,
    row: &Packet,
    message: &CpMessage,
    inner: &Inner,
) -> Result<bool, AllocError> {
    Ok(
        is_kept_inside(alloc, row, message, inner)?
            && is_said(alloc, inner, row.says)?
            && is_written(alloc, message, row.octets)?
            && (message.flag, message.value) == (row.flag, row.value),
    )
}

/// Whether a packet says what its row tells, and is written as it was read.
fn is_read(alloc: Global, row: &Packet) -> Result<bool, Fail> {
    let (message, inner) = unwrap(alloc, row.octets)?;
    let told = is_told(alloc, row, &message, &inner);
    drop(message);
    drop(inner);
    Ok(told?)
}

#[test]
fn reads_and_writes_packets(rt: HostRuntime) -> Result<(), Fail> {
    for row in PACKETS.as_slice() {
        is(&rt, row.octets, is_read(rt.alloc(), row)?, true);
    }
    Ok(())
}

/// An acknowledgement of the connection is written so.
fn acknowledges(
    rt: &impl Abort,
    alloc: Global,
    flag: bool,
    value: u8,
    wanted: &[u8],
) -> Result<(), Fail>
    requires { value < 7 }
{
    let packet = wrap_acknowledgement(alloc, flag, value)?;
    is(rt, (flag, value), packet.as_slice(), wanted);
    Ok(())
}

#[test]
fn writes_acknowledgements(rt: HostRuntime) -> Result<(), Fail> {
    acknowledges(&rt, rt.alloc(), false, 0, &[0x09, 0x04])?;
    acknowledges(&rt, rt.alloc(), true, 6, &[0xE9, 0x04])
}

/// Where and why octets are refused.
fn fault_of<T: Drop, S: Drop>(
    read: Result<(T, S), Refusal<RelayFault>>,
) -> Option<(usize, RelayFault)> {
    match read {
        Err(Refusal::At { place, why }) => Some((place, why)),
        _ => None,
    }
}

#[test]
fn refuses_what_is_no_packet(rt: HostRuntime) {
    for row in NO_PACKETS.as_slice() {
        let fault = fault_of(unwrap(rt.alloc(), row.octets));
        is(&rt, row.octets, fault, Some((row.place, row.why)));
    }
}

#[test]
fn refuses_what_is_no_relay(rt: HostRuntime) {
    for row in NO_RELAYS.as_slice() {
        let fault = fault_of(RpMessage::read(rt.alloc(), row.octets));
        is(&rt, row.octets, fault, Some((row.place, row.why)));
    }
}

/// How many octets are read as a unit, and whether it is written in others.
fn used_and_written<U: Unit>(
    alloc: Global,
    octets: &[u8],
    written: &[u8],
) -> Result<(usize, bool), Fail> {
    match U::read(alloc, octets) {
        Ok((unit, used)) => Ok((used, is_written(alloc, &unit, written)?)),
        Err(_) => Err("a unit".into()),
    }
}

/// The message of a row is written as it tells.
fn is_again(rt: &impl Abort, alloc: Global, row: &Again) -> Result<(), Fail> {
    let found = used_and_written::<RpMessage>(alloc, row.octets, row.written)?;
    is(rt, row.octets, found, (row.written.len(), true));
    Ok(())
}

#[test]
fn writes_ignored_bits_anew(rt: HostRuntime) -> Result<(), Fail> {
    for row in AGAIN.as_slice() {
        is_again(&rt, rt.alloc(), row)?;
    }
    Ok(())
}

/// Whether these user data are found in a CP message.
fn has_user(inner: &Inner, user: &[u8]) -> bool {
    match inner {
        Inner::Relay(message) => user_data(message) == Some(user),
        _ => false,
    }
}

/// Whether this is said of what is found in a CP message, which has these user data.
fn is_held(alloc: Global, inner: &Inner, said: &str, user: &[u8]) -> Result<bool, AllocError> {
    Ok(is_said(alloc, inner, said)? && has_user(inner, user))
}

/// Whether a packet says this, and holds these user data.
fn holds(alloc: Global, packet: &[u8], said: &str, user: &[u8]) -> Result<bool, Fail> {
    let (message, inner) = unwrap(alloc, packet)?;
    let held = is_held(alloc, &inner, said, user);
    drop(message);
    drop(inner);
    Ok(held?)
}

/// A transfer that a unit is put into, and what is said of it.
struct Transfer {
    flag: bool,
    value: u8,
    side: Side,
    reference: u8,
    centre: Option<&'static str>,
    says: &'static str,
}

static TRANSFERS: [Transfer; 2] = [
    Transfer {
        flag: false,
        value: 6,
        side: Side::FromPhone,
        reference: 255,
        centre: Some("+1000"),
        says: "data FromPhone 255 +1000",
    },
    Transfer {
        flag: true,
        value: 0,
        side: Side::ToPhone,
        reference: 0,
        centre: None,
        says: "data ToPhone 0 none",
    },
];

/// An answer that a unit is put into, and what is said of it.
struct Answer {
    side: Side,
    reference: u8,
    cause: Option<u8>,
    says: &'static str,
}

static ANSWERS: [Answer; 2] = [
    Answer {
        side: Side::ToPhone,
        reference: 7,
        cause: None,
        says: "ack ToPhone 7",
    },
    Answer {
        side: Side::FromPhone,
        reference: 8,
        cause: Some(127),
        says: "error FromPhone 8 127 None",
    },
];

/// The address of the centre of a row.
fn centre_of(alloc: Global, row: &Transfer) -> Result<Option<RpAddress>, Fail> {
    match row.centre {
        Some(text) => Ok(Some(RpAddress::from_text(alloc, text)?)),
        None => Ok(None),
    }
}

/// The value of the transaction of a row.
fn value_of(rt: &impl Abort, row: &Transfer) -> u8
    ensures { result < 7 }
{
    let value = row.value;
    assert!(rt; value < 7, "{}", row.says);
    value
}

/// The packet of a transfer.
fn transferred<U: Unit>(
    rt: &impl Abort,
    alloc: Global,
    row: &Transfer,
    unit: &U,
) -> Result<Vec<u8>, Fail> {
    let centre = centre_of(alloc, row)?;
    let packet = wrap_transfer(
        alloc,
        row.flag,
        value_of(rt, row),
        row.side,
        row.reference,
        centre.as_ref(),
        unit,
    )?;
    Ok(packet)
}

/// The cause of an answer.
fn cause_of(rt: &impl Abort, row: &Answer) -> Option<u8>
    ensures { ForSome result (λ cause. cause < 128) }
{
    let cause = row.cause?;
    assert!(rt; cause < 128, "{}", row.says);
    Some(cause)
}

/// The packet of an answer.
fn answered<U: Unit>(
    rt: &impl Abort,
    alloc: Global,
    row: &Answer,
    unit: &U,
) -> Result<Vec<u8>, Fail> {
    let packet = wrap_answer(
        alloc,
        true,
        3,
        row.side,
        row.reference,
        cause_of(rt, row),
        Some(unit),
    )?;
    Ok(packet)
}

/// The unit that is read from octets.
fn unit_of<U: Unit>(alloc: Global, octets: &[u8]) -> Result<U, Fail> {
    match U::read(alloc, octets) {
        Ok((unit, _)) => Ok(unit),
        Err(_) => Err("a unit".into()),
    }
}

/// Whether a unit comes back out of a transfer.
fn is_transferred<U: Unit>(
    rt: &impl Abort,
    alloc: Global,
    row: &Transfer,
    unit: &U,
    octets: &[u8],
) -> Result<bool, Fail> {
    let packet = transferred(rt, alloc, row, unit)?;
    holds(alloc, &packet, row.says, octets)
}

/// Whether a unit comes back out of an answer.
fn is_answered<U: Unit>(
    rt: &impl Abort,
    alloc: Global,
    row: &Answer,
    unit: &U,
    octets: &[u8],
) -> Result<bool, Fail> {
    let packet = answered(rt, alloc, row, unit)?;
    holds(alloc, &packet, row.says, octets)
}

/// A unit comes back out of each transfer.
fn is_back_of_transfers<U: Unit>(
    rt: &impl Abort,
    alloc: Global,
    name: &str,
    unit: &U,
    octets: &[u8],
) -> Result<(), Fail> {
    for row in TRANSFERS.as_slice() {
        let told = is_transferred(rt, alloc, row, unit, octets)?;
        is(rt, (name, row.says), told, true);
    }
    Ok(())
}

/// A unit comes back out of each answer.
fn is_back_of_answers<U: Unit>(
    rt: &impl Abort,
    alloc: Global,
    name: &str,
    unit: &U,
    octets: &[u8],
) -> Result<(), Fail> {
    for row in ANSWERS.as_slice() {
        let told = is_answered(rt, alloc, row, unit, octets)?;
        is(rt, (name, row.says), told, true);
    }
    Ok(())
}

/// The unit that is read from octets comes back out of each transfer and each answer.
fn is_back<U: Unit>(rt: &impl Abort, alloc: Global, name: &str, octets: &[u8]) -> Result<(), Fail> {
    let unit = unit_of::<U>(alloc, octets)?;
    is_back_of_transfers(rt, alloc, name, &unit, octets)?;
    is_back_of_answers(rt, alloc, name, &unit, octets)
}

#[test]
fn units_come_back(rt: HostRuntime) -> Result<(), Fail> {
    let alloc = rt.alloc();
    is_back::<Header>(&rt, alloc, "header", HEADER)?;
    is_back::<Submit>(&rt, alloc, "submit", SUBMIT)?;
    is_back::<Deliver>(&rt, alloc, "deliver", DELIVER)?;
    is_back::<SubmitAck>(&rt, alloc, "submit-ack", SUBMIT_ACK)?;
    is_back::<SubmitError>(&rt, alloc, "submit-error", SUBMIT_ERROR)?;
    is_back::<DeliverAck>(&rt, alloc, "deliver-ack", DELIVER_ACK)?;
    is_back::<DeliverError>(&rt, alloc, "deliver-error", DELIVER_ERROR)
}

#[test]
fn wraps_an_error_without_a_unit(rt: HostRuntime) -> Result<(), Fail> {
    let refused = wrap_answer::<Header>(rt.alloc(), true, 0, Side::ToPhone, 5, Some(96), None)?;
    let wanted: &[u8] = b"\x89\x01\x04\x05\x05\x01\x60";
    is(&rt, "error", refused.as_slice(), wanted);
    Ok(())
}

#[test]
fn wraps_an_acknowledgement_without_a_unit(rt: HostRuntime) -> Result<(), Fail> {
    let taken = wrap_answer::<Header>(rt.alloc(), false, 6, Side::FromPhone, 255, None, None)?;
    let wanted: &[u8] = b"\x69\x01\x02\x02\xFF";
    is(&rt, "ack", taken.as_slice(), wanted);
    Ok(())
}

/// A CP message with as many octets of user data as asked for, and three octets before them.
fn long(alloc: Global, count: u8) -> Result<Vec<u8>, AllocError> {
    let mut octets = Vec::from_slice(alloc, &[0x09, 0x01, count])?;
    octets.extend_from_slice(&[7; 255][..usize::from(count)])?;
    Ok(octets)
}

/// A CP message, in a transfer.
fn wrapped(alloc: Global, octets: &[u8]) -> Result<Result<Vec<u8>, WrapFault>, Fail> {
    let unit = unit_of::<CpMessage>(alloc, octets)?;
    Ok(wrap_transfer(alloc, false, 0, Side::FromPhone, 0, None, &unit))
}

/// Whether a CP message of these octets comes back out of a transfer.
fn is_wrapped(alloc: Global, octets: &[u8]) -> Result<bool, Fail> {
    let packet = wrapped(alloc, octets)??;
    holds(alloc, &packet, "data FromPhone 0 none", octets)
}

#[test]
fn wraps_233_octets(rt: HostRuntime) -> Result<(), Fail> {
    let octets = long(rt.alloc(), 230)?;
    is(&rt, octets.len(), is_wrapped(rt.alloc(), &octets)?, true);
    Ok(())
}

#[test]
fn refuses_to_wrap_234_octets(rt: HostRuntime) -> Result<(), Fail> {
    let octets = long(rt.alloc(), 231)?;
    let refused = wrapped(rt.alloc(), &octets)?.err();
    is(&rt, octets.len(), refused, Some(WrapFault::DataTooLong));
    Ok(())
}

/// An answer with a unit of these octets, which are those of a CP message.
fn answered_with(alloc: Global, octets: &[u8]) -> Result<Result<Vec<u8>, WrapFault>, Fail> {
    let unit = unit_of::<CpMessage>(alloc, octets)?;
    Ok(wrap_answer(alloc, true, 0, Side::ToPhone, 0, None, Some(&unit)))
}

#[test]
fn refuses_to_answer_with_234_octets(rt: HostRuntime) -> Result<(), Fail> {
    let octets = long(rt.alloc(), 231)?;
    let refused = answered_with(rt.alloc(), &octets)?.err();
    is(&rt, octets.len(), refused, Some(WrapFault::DataTooLong));
    Ok(())
}

/// The packet of a delivery from the centre +1000.
fn delivered(alloc: Global, octets: &[u8]) -> Result<Vec<u8>, Fail> {
    let centre = RpAddress::from_text(alloc, "+1000")?;
    let packet = wrap_transfer_octets(alloc, false, 0, Side::ToPhone, 0, Some(&centre), octets)?;
    Ok(packet)
}

#[test]
fn octets_in_packets(rt: HostRuntime) -> Result<(), Fail> {
    let packet = delivered(rt.alloc(), &DELIVERY_OF_HI[11..])?;
    is(&rt, "transfer", packet.as_slice(), DELIVERY_OF_HI);
    let report = Some([0, 0].as_slice());
    let packet = wrap_answer_octets(rt.alloc(), true, 0, Side::FromPhone, 0, None, report)?;
    is(&rt, "answer", packet.as_slice(), REPORT_OF_DELIVERY);
    Ok(())
}

#[test]
fn too_many_octets_for_a_packet(rt: HostRuntime) {
    let unit = [0; 234];
    let long = wrap_answer_octets(rt.alloc(), true, 0, Side::FromPhone, 0, None, Some(&unit));
    is(
        &rt,
        "too long",
        long.err() == Some(WrapFault::DataTooLong),
        true,
    );
}
