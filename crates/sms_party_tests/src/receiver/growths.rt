//! Packets that come to a phone whose lists are used again.

use crate::answer::{is_answer, none_differs};
use crate::lent::give_back;
use crate::receiver::rows::{FULL, REFUSALS, Row, TEXTS};
use crate::receiver::{Limits, MANY, ONE, has_texts};
use sms_message::{Dropped, Spare, Step};
use sms_party::Receiver;
use std::alloc::{AllocError, Global};
use std::process::Abort;
use std::test::Fail;

/// What a phone answers to the packet of a row, at last: once more where it wants memory.
fn told_at_last(spare: &mut Spare, phone: &mut Receiver, row: &Row) -> Result<Step, Dropped> {
    match phone.receive_with(spare, row.now, row.octets) {
        Ok(step) => Ok(step),
        Err(Dropped::Memory) => phone.receive_with(spare, row.now, row.octets),
        Err(why) => Err(why),
    }
}

/// Whether a row is answered as it says, by a phone that ages before it.
fn is_answered(spare: &mut Spare, phone: &mut Receiver, row: &Row) -> bool {
    phone.age(row.now);
    let told = told_at_last(spare, phone, row);
    let is_so = is_answer(&told, row.answer, row.packets) && has_texts(phone.store(), row.store);
    give_back(spare, told);
    is_so
}

/// Plays the rows, and says which one is answered otherwise, if any is.
fn differs(spare: &mut Spare, phone: &mut Receiver, rows: &[Row]) -> Option<&'static str> {
    for row in rows {
        if !is_answered(spare, phone, row) {
            return Some(row.name);
        }
    }
    None
}

/// A phone with so much room, made once more where that wants memory.
fn phone_at_last(alloc: Global, limits: &Limits) -> Result<Receiver, AllocError> {
    match Receiver::new(alloc, limits.open_max, limits.remembered, limits.store) {
        Ok(phone) => Ok(phone),
        Err(_) => Receiver::new(alloc, limits.open_max, limits.remembered, limits.store),
    }
}

/// The rows are answered as they say, by a new phone with the lists of earlier packets.
fn plays(rt: &impl Abort, alloc: Global, limits: &Limits, rows: &[Row]) -> Result<(), Fail> {
    let mut phone = phone_at_last(alloc, limits)?;
    let mut spare = Spare::new(alloc);
    none_differs(rt, differs(&mut spare, &mut phone, rows));
    Ok(())
}

#[test]
fn refuses_in_room_after_a_refused_growth(rt: HostRuntime) -> Result<(), Fail> {
    plays(&rt, rt.alloc(), &MANY, REFUSALS.as_slice())
}

#[test]
fn stores_in_room_after_a_refused_growth(rt: HostRuntime) -> Result<(), Fail> {
    plays(&rt, rt.alloc(), &MANY, TEXTS.as_slice())
}

#[test]
fn has_no_room_after_a_refused_growth(rt: HostRuntime) -> Result<(), Fail> {
    plays(&rt, rt.alloc(), &ONE, FULL.as_slice())
}
