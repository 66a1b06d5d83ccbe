//! Packets in the room of lists that are spare.

use crate::found::holds;
use sms_message::packets::{acknowledgement_in, answered_in, relay_refusal_in};
use sms_message::{Dropped, Outcome, Spare, Step, Tag};
use sms_relay::Side;
use std::alloc::{AllocError, Global};
use std::test::Fail;

/// The tag of the transaction that is opened first, and a reference.
const TAG: Tag = Tag {
    value: 0,
    reference: 5,
};

/// Octets that stand in a list before its room is used again.
static OCTETS: &[u8] = b"\x01\x02\x03\x04\x05\x06\x07\x08";

/// A CP-ACK of the transaction that is opened first.
static NOTE: &[u8] = b"\x89\x04";

/// An RP-ERROR to a phone without user data, in a CP-DATA.
static REFUSAL: &[u8] = b"\x89\x01\x04\x05\x05\x01\x61";

/// Lists with octets, whose room is used again.
fn used(alloc: Global) -> Result<Spare, AllocError> {
    let mut spare = Spare::new(alloc);
    spare.give(OCTETS.to_vec(alloc)?);
    spare.give(OCTETS.to_vec(alloc)?);
    Ok(spare)
}

/// Whether packets are these two.
fn are_both(packets: &[Vec<u8>], first: &[u8], second: &[u8]) -> bool {
    match packets {
        [one, other] => one.as_slice() == first && other.as_slice() == second,
        _ => false,
    }
}

/// Whether a call has put out a CP-ACK and this packet.
fn is_answer(told: &Result<Step, Dropped>, packet: &[u8]) -> bool {
    match told {
        Ok(step) => are_both(&step.packets, NOTE, packet),
        Err(_) => false,
    }
}

/// Hands the lists of a step to be used again.
fn give_back(spare: &mut Spare, told: Result<Step, Dropped>) {
    if let Ok(step) = told {
        let mut packets = step.packets;
        if let Some(list) = packets.pop() {
            spare.give(list);
        }
        if let Some(list) = packets.pop() {
            spare.give(list);
        }
    }
}

/// Whether a list that is lent has no octets, and as often as it is asked for.
fn is_empty_room(spare: &mut Spare) -> bool {
    let first = spare.room();
    let second = spare.room();
    let third = spare.room();
    first.is_empty() && second.is_empty() && third.is_empty()
}

#[test]
fn lends_lists_without_octets(rt: HostRuntime) -> Result<(), Fail> {
    let mut spare = used(rt.alloc())?;
    let is_empty = is_empty_room(&mut spare);
    holds(&rt, &"lists", is_empty);
    Ok(())
}

/// A CP-ACK, once more where it wants memory.
fn note_at_last(spare: &mut Spare) -> Result<Vec<u8>, Dropped> {
    match acknowledgement_in(spare, true, TAG.value) {
        Ok(note) => Ok(note),
        Err(_) => acknowledgement_in(spare, true, TAG.value),
    }
}

/// Whether a CP-ACK is put out; its list is used again.
fn is_noted(spare: &mut Spare) -> bool {
    match note_at_last(spare) {
        Ok(note) => {
            let is_note = note.as_slice() == NOTE;
            spare.give(note);
            is_note
        }
        Err(_) => false,
    }
}

#[test]
fn acknowledges_in_room_after_a_refused_growth(rt: HostRuntime) -> Result<(), Fail> {
    let mut spare = Spare::new(rt.alloc());
    holds(&rt, &"in new room", is_noted(&mut spare));
    holds(&rt, &"in the same", is_noted(&mut spare));
    Ok(())
}

/// An answer in a packet, once more where it wants memory.
fn answer_at_last(alloc: Global, spare: &mut Spare) -> Result<Step, Dropped> {
    let first = REFUSAL.to_vec(alloc)?;
    match answered_in(spare, Outcome::Kept, TAG, first) {
        Ok(step) => Ok(step),
        Err(_) => {
            let second = REFUSAL.to_vec(alloc)?;
            answered_in(spare, Outcome::Kept, TAG, second)
        }
    }
}

/// Whether an answer is put out after a CP-ACK; the lists are used again.
fn is_answered(alloc: Global, spare: &mut Spare) -> bool {
    let told = answer_at_last(alloc, spare);
    let is_so = is_answer(&told, REFUSAL);
    give_back(spare, told);
    is_so
}

#[test]
fn answers_in_room_after_a_refused_growth(rt: HostRuntime) -> Result<(), Fail> {
    let mut spare = Spare::new(rt.alloc());
    let is_so = is_answered(rt.alloc(), &mut spare) || is_answered(rt.alloc(), &mut spare);
    holds(&rt, &"an answer", is_so);
    Ok(())
}

/// A refusal without user data, once more where it wants memory.
fn refusal_at_last(spare: &mut Spare) -> Result<Step, Dropped> {
    match relay_refusal_in(spare, Side::ToPhone, TAG, 97) {
        Ok(step) => Ok(step),
        Err(_) => relay_refusal_in(spare, Side::ToPhone, TAG, 97),
    }
}

/// Whether a refusal is put out after a CP-ACK; the lists are used again.
fn is_refused(spare: &mut Spare) -> bool {
    let told = refusal_at_last(spare);
    let is_so = is_answer(&told, REFUSAL);
    give_back(spare, told);
    is_so
}

#[test]
fn refuses_in_room_after_a_refused_growth(rt: HostRuntime) -> Result<(), Fail> {
    let mut spare = Spare::new(rt.alloc());
    holds(&rt, &"in new room", is_refused(&mut spare));
    holds(&rt, &"in the same", is_refused(&mut spare));
    Ok(())
}
