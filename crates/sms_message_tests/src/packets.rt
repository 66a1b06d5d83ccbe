//! Packets that every party puts out.

ghost use Rattle.std.specs.Prelude.{◌<◌};

use crate::found::holds;
use sms_message::packets::{
    acknowledgement, address_of_centre, alone, answered, both, no_packets, relay_refusal, wrapped,
};
use sms_message::{Dropped, Outcome, Step, Tag};
use sms_relay::{Side, WrapFault};
use std::alloc::{AllocError, Global};
use std::test::Fail;

/// An RP-ACK from a phone, in a CP-DATA.
static ANSWER: &[u8] = b"\x89\x01\x02\x02\x00";

/// A CP-ACK of the transaction that is opened first.
static NOTE: &[u8] = b"\x89\x04";

/// Whether packets are these two.
fn are_both(packets: &[Vec<u8>], first: &[u8], second: &[u8]) -> bool {
    match packets {
        [one, other] => one.as_slice() == first && other.as_slice() == second,
        _ => false,
    }
}

/// Whether a party did this, and put out a CP-ACK and this packet.
fn is_answer(step: &Step, outcome: Outcome, packet: &[u8]) -> bool {
    step.outcome == outcome && are_both(&step.packets, NOTE, packet)
}

/// Whether the CP-ACK of a transaction is these octets.
fn is_note(alloc: Global, flag: bool, value: u8, octets: &[u8]) -> Result<bool, Dropped>
    requires { value < 7 }
{
    let note = acknowledgement(alloc, flag, value)?;
    Ok(note.as_slice() == octets)
}

#[test]
fn acknowledges(rt: HostRuntime) -> Result<(), Fail> {
    let to_opener = is_note(rt.alloc(), true, 0, NOTE)?;
    holds(&rt, &"to the side that opened", to_opener);
    let from_opener = is_note(rt.alloc(), false, 6, b"\x69\x04".as_slice())?;
    holds(&rt, &"from the side that opened", from_opener);
    Ok(())
}

/// Whether the address of the centre says this.
fn is_centre(alloc: Global, text: &str) -> Result<bool, AllocError> {
    let said = address_of_centre().to_text(alloc)?;
    Ok(said.as_str() == text)
}

#[test]
fn addresses_the_centre(rt: HostRuntime) -> Result<(), Fail> {
    let said = is_centre(rt.alloc(), "+1000")?;
    holds(&rt, &"+1000", said);
    Ok(())
}

/// The packet of an answer.
fn answer(alloc: Global) -> Result<Vec<u8>, AllocError> {
    ANSWER.to_vec(alloc)
}

/// Whether a packet that was wrapped is handed on.
fn is_handed_on(alloc: Global) -> Result<bool, Fail> {
    let packet = wrapped(Ok(answer(alloc)?))?;
    Ok(packet.as_slice() == ANSWER)
}

#[test]
fn hands_on_what_was_wrapped(rt: HostRuntime) -> Result<(), Fail> {
    let handed_on = is_handed_on(rt.alloc())?;
    holds(&rt, &"a packet", handed_on);
    let refused = wrapped(Err(WrapFault::Memory)).err();
    holds(&rt, &"no memory", refused == Some(Dropped::Memory));
    Ok(())
}

/// Whether a packet stands alone.
fn is_alone(alloc: Global) -> Result<bool, AllocError> {
    let packets = alone(alloc, answer(alloc)?);
    Ok(packets.len() == 1 && packets[0].as_slice() == ANSWER)
}

#[test]
fn puts_out_a_packet_alone(rt: HostRuntime) -> Result<(), Fail> {
    let stands = is_alone(rt.alloc())?;
    holds(&rt, &"a packet", stands);
    Ok(())
}

/// Whether two packets stand in their order.
fn are_in_order(alloc: Global) -> Result<bool, AllocError> {
    let packets = both(alloc, NOTE.to_vec(alloc)?, answer(alloc)?);
    Ok(are_both(&packets, NOTE, ANSWER))
}

#[test]
fn puts_out_two_packets(rt: HostRuntime) -> Result<(), Fail> {
    let stand = are_in_order(rt.alloc())?;
    holds(&rt, &"two packets", stand);
    let none = no_packets(rt.alloc());
    holds(&rt, &"no packets", none.is_empty());
    Ok(())
}

/// Whether an answer is put out after a CP-ACK.
fn is_answered(alloc: Global, tag: Tag) -> Result<bool, Fail>
    requires { tag.value < 7 }
{
    let step = answered(alloc, Outcome::Kept, tag, answer(alloc)?)?;
    Ok(is_answer(&step, Outcome::Kept, ANSWER))
}

#[test]
fn acknowledges_before_it_answers(rt: HostRuntime) -> Result<(), Fail> {
    let tag = Tag {
        value: 0,
        reference: 0,
    };
    let told = is_answered(rt.alloc(), tag)?;
    holds(&rt, &tag, told);
    Ok(())
}

/// Whether a refusal without user data is these octets, after a CP-ACK.
fn is_refusal(alloc: Global, side: Side, cause: u8, octets: &[u8]) -> Result<bool, Dropped>
    requires { cause < 128 }
{
    let tag = Tag {
        value: 0,
        reference: 5,
    };
    let step = relay_refusal(alloc, side, tag, cause)?;
    let outcome = Outcome::Refused {
        cause,
        failure: None,
    };
    Ok(is_answer(&step, outcome, octets))
}

#[test]
fn refuses_without_a_report(rt: HostRuntime) -> Result<(), Fail> {
    let to_phone = b"\x89\x01\x04\x05\x05\x01\x61".as_slice();
    let told = is_refusal(rt.alloc(), Side::ToPhone, 97, to_phone)?;
    holds(&rt, &to_phone, told);
    let from_phone = b"\x89\x01\x04\x04\x05\x01\x60".as_slice();
    let told = is_refusal(rt.alloc(), Side::FromPhone, 96, from_phone)?;
    holds(&rt, &from_phone, told);
    Ok(())
}
