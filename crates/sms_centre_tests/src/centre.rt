//! Calls of the centre.

ghost use Rattle.std.specs.Prelude.{◌≡◌, ◌<◌, ◌≤◌, [], ◌∷◌, length, IfOk};
ghost use Rattle.sms_field.specs.declared.symbols.Symbols.TheVariants as symbols;
ghost use Rattle.sms_centre.specs.Centre.Value.{phones_of};

mod growths;
mod rows;

use crate::answer::{is_answer, none_differs};
use crate::centre::rows::{
    BETWEEN, Call, DELIVERED, DUPLICATES, ENDED, FULL, GONE, REFUSALS, Row, STAMPS, TURNS, TWO_ENDS,
};
use sms_centre::{Centre, HELD_MAX};
use sms_field::{Address, Digits, Symbols};
use sms_message::packets::no_packets;
use sms_message::{Dropped, Outcome, Step};
use std::alloc::{AllocError, Global};
use std::process::Abort;
use std::test::Fail;

/// The address +100 and this digit.
fn phone(last: u8) -> Address
    requires { last < 10 }
    ensures { let number = symbols.Digits (1 ∷ 0 ∷ 0 ∷ last ∷ []) in
        result ≡ record { kind = 1; plan = 1; symbols = number } }
{
    Address {
        type_of_number: 1,
        plan: 1,
        symbols: Symbols::Digits(Digits::new(&[1, 0, 0, last])),
    }
}

/// A centre with three phones.
#[derive(Drop)]
struct Fixture {
    centre: Centre,
    ghost three: { length (phones_of centre) ≡ 3 },
}

/// A centre with the phones +1001, +1002 and +1003.
#[tactic(auto, unfolding(sms_field::specs::Address::Same::same_address))]
fn new_fixture(alloc: Global, held: usize) -> Result<Fixture, AllocError>
    requires some { 0 < held }
    requires most { held ≤ HELD_MAX }
{
    let phones = [phone(1), phone(2), phone(3)];
    let centre = Centre::new(alloc, held, &phones)?;
    Ok(Fixture { centre })
}

/// A phone sends octets. Each row is of one of the three phones, and before the end of 2099.
fn received(fixture: &mut Fixture, now: u64, phone: usize, octets: &[u8]) -> Result<Step, Dropped> {
    if phone < 3 && now < 3_155_760_000 {
        fixture.centre.receive(now, phone, octets)
    } else {
        Err(Dropped::Busy)
    }
}

/// A message is pushed to a phone, which is one of the three.
fn pushed(fixture: &mut Fixture, now: u64, phone: usize) -> Result<Step, Dropped> {
    if phone < 3 {
        fixture.centre.push(now, phone)
    } else {
        Err(Dropped::Busy)
    }
}

/// The clock moves on.
fn advanced(alloc: Global, fixture: &mut Fixture, now: u64) -> Step {
    fixture.centre.advance(now);
    Step {
        outcome: Outcome::Ticked,
        packets: no_packets(alloc),
    }
}

/// A call of a row.
fn called(alloc: Global, fixture: &mut Fixture, row: &Row) -> Result<Step, Dropped> {
    match row.call {
        Call::Receive { phone, octets } => received(fixture, row.now, phone, octets),
        Call::Push { phone } => pushed(fixture, row.now, phone),
        Call::Advance => Ok(advanced(alloc, fixture, row.now)),
    }
}

/// Whether a row is answered as it says.
fn is_answered(alloc: Global, fixture: &mut Fixture, row: &Row) -> bool {
    let told = called(alloc, fixture, row);
    is_answer(&told, row.answer, row.packets)
}

/// Plays the rows, and says which one is answered otherwise, if any is.
fn differs(alloc: Global, fixture: &mut Fixture, rows: &[Row]) -> Option<&'static str> {
    for row in rows {
        if !is_answered(alloc, fixture, row) {
            return Some(row.name);
        }
    }
    None
}

/// The rows are answered as they say, on a new centre.
fn plays(rt: &impl Abort, alloc: Global, held: usize, rows: &[Row]) -> Result<(), Fail>
    requires some { 0 < held }
    requires most { held ≤ HELD_MAX }
{
    let mut fixture = new_fixture(alloc, held)?;
    none_differs(rt, differs(alloc, &mut fixture, rows));
    Ok(())
}

#[test]
fn refuses_what_cannot_be_held(rt: HostRuntime) -> Result<(), Fail> {
    plays(&rt, rt.alloc(), 1000, REFUSALS.as_slice())
}

#[test]
fn refuses_what_has_no_room(rt: HostRuntime) -> Result<(), Fail> {
    plays(&rt, rt.alloc(), 1, FULL.as_slice())
}

#[test]
fn gives_a_stamp_to_each_message(rt: HostRuntime) -> Result<(), Fail> {
    plays(&rt, rt.alloc(), 1000, STAMPS.as_slice())
}

#[test]
fn knows_duplicates(rt: HostRuntime) -> Result<(), Fail> {
    plays(&rt, rt.alloc(), 1000, DUPLICATES.as_slice())
}

#[test]
fn knows_a_key_to_its_later_end(rt: HostRuntime) -> Result<(), Fail> {
    plays(&rt, rt.alloc(), 1000, TWO_ENDS.as_slice())
}

#[test]
fn holds_what_is_delivered(rt: HostRuntime) -> Result<(), Fail> {
    plays(&rt, rt.alloc(), 1000, DELIVERED.as_slice())
}

#[test]
fn pushes_in_turn(rt: HostRuntime) -> Result<(), Fail> {
    plays(&rt, rt.alloc(), 1000, TURNS.as_slice())
}

#[test]
fn forgets_what_has_ended(rt: HostRuntime) -> Result<(), Fail> {
    plays(&rt, rt.alloc(), 1000, ENDED.as_slice())
}

/// Whether another number of messages is held than this.
fn counts_otherwise(fixture: &Fixture, count: usize) -> Option<&'static str> {
    (fixture.centre.held_count() != count).then_some("the count")
}

#[test]
fn counts_what_is_held(rt: HostRuntime) -> Result<(), Fail> {
    let mut fixture = new_fixture(rt.alloc(), 1000)?;
    none_differs(&rt, differs(rt.alloc(), &mut fixture, &ENDED[..2]));
    none_differs(&rt, counts_otherwise(&fixture, 1));
    none_differs(&rt, differs(rt.alloc(), &mut fixture, &ENDED[2..]));
    none_differs(&rt, counts_otherwise(&fixture, 0));
    Ok(())
}

#[test]
fn accepts_between_a_push_and_its_answer(rt: HostRuntime) -> Result<(), Fail> {
    plays(&rt, rt.alloc(), 1000, BETWEEN.as_slice())
}

#[test]
fn takes_out_only_what_was_pushed(rt: HostRuntime) -> Result<(), Fail> {
    plays(&rt, rt.alloc(), 1000, GONE.as_slice())
}
