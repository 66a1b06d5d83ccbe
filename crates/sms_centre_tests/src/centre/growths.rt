//! Calls of the centre with lists whose room is used again.

use crate::answer::{is_answer, none_differs};
use crate::centre::rows::{BETWEEN, Call, DELIVERED, REFUSALS, Row, TURNS};
use crate::centre::{Fixture, new_fixture};
use sms_message::{Dropped, Spare, Step};
use std::alloc::{AllocError, Global};
use std::process::Abort;
use std::test::Fail;

/// A phone sends octets. Each row is of one of the three phones, and before the end of 2099.
fn received(
    spare: &mut Spare,
    fixture: &mut Fixture,
    now: u64,
    phone: usize,
    octets: &[u8],
) -> Result<Step, Dropped> {
    if phone < 3 && now < 3_155_760_000 {
        fixture.centre.receive_with(spare, now, phone, octets)
    } else {
        Err(Dropped::Busy)
    }
}

/// A message is pushed to a phone, which is one of the three.
fn pushed(
    spare: &mut Spare,
    fixture: &mut Fixture,
    now: u64,
    phone: usize,
) -> Result<Step, Dropped> {
    if phone < 3 {
        fixture.centre.push_with(spare, now, phone)
    } else {
        Err(Dropped::Busy)
    }
}

/// The call of a row, none of which lets the clock alone move on.
fn called(spare: &mut Spare, fixture: &mut Fixture, row: &Row) -> Result<Step, Dropped> {
    match row.call {
        Call::Receive { phone, octets } => received(spare, fixture, row.now, phone, octets),
        Call::Push { phone } => pushed(spare, fixture, row.now, phone),
        Call::Advance => Err(Dropped::Busy),
    }
}

/// The call of a row, once more where it wants memory.
fn called_at_last(spare: &mut Spare, fixture: &mut Fixture, row: &Row) -> Result<Step, Dropped> {
    match called(spare, fixture, row) {
        Ok(step) => Ok(step),
        Err(Dropped::Memory) => called(spare, fixture, row),
        Err(why) => Err(why),
    }
}

/// Hands the lists of a step to be used again.
fn give_back(spare: &mut Spare, told: Result<Step, Dropped>) {
    if let Ok(step) = told {
        let mut packets = step.packets;
        if let Some(list) = packets.pop() {
            spare.give(list);
        }
        if let Some(list) = packets.pop() {
            spare.give(list);
        }
    }
}

/// Whether a row is answered as it says, at last.
fn is_answered(spare: &mut Spare, fixture: &mut Fixture, row: &Row) -> bool {
    let told = called_at_last(spare, fixture, row);
    let is_so = is_answer(&told, row.answer, row.packets);
    give_back(spare, told);
    is_so
}

/// Plays the rows, and says which one is answered otherwise, if any is.
fn differs(spare: &mut Spare, fixture: &mut Fixture, rows: &[Row]) -> Option<&'static str> {
    for row in rows {
        if !is_answered(spare, fixture, row) {
            return Some(row.name);
        }
    }
    None
}

/// A centre that may hold a thousand messages, made once more where that wants memory.
fn fixture_at_last(alloc: Global) -> Result<Fixture, AllocError> {
    match new_fixture(alloc, 1000) {
        Ok(fixture) => Ok(fixture),
        Err(_) => new_fixture(alloc, 1000),
    }
}

/// The rows are answered as they say, on a new centre, with the lists of earlier packets.
fn plays(rt: &impl Abort, alloc: Global, rows: &[Row]) -> Result<(), Fail> {
    let mut fixture = fixture_at_last(alloc)?;
    let mut spare = Spare::new(alloc);
    none_differs(rt, differs(&mut spare, &mut fixture, rows));
    Ok(())
}

#[test]
fn refuses_in_room_after_a_refused_growth(rt: HostRuntime) -> Result<(), Fail> {
    plays(&rt, rt.alloc(), REFUSALS.as_slice())
}

#[test]
fn delivers_in_room_after_a_refused_growth(rt: HostRuntime) -> Result<(), Fail> {
    plays(&rt, rt.alloc(), DELIVERED.as_slice())
}

#[test]
fn pushes_in_room_after_a_refused_growth(rt: HostRuntime) -> Result<(), Fail> {
    plays(&rt, rt.alloc(), TURNS.as_slice())
}

#[test]
fn accepts_in_room_after_a_refused_growth(rt: HostRuntime) -> Result<(), Fail> {
    plays(&rt, rt.alloc(), BETWEEN.as_slice())
}
