//! What comes to a phone, to its sender or its receiver.

use crate::answer::{is_answer, is_so, none_differs};
use crate::lent::give_back;
use sms_field::Address;
use sms_message::{Dropped, Outcome, Spare, Step};
use sms_party::Phone;
use sms_tpdu::Width;
use std::alloc::{AllocError, Global};
use std::test::Fail;

/// A packet, and what is answered to it.
struct Row {
    name: &'static str,
    octets: &'static [u8],
    answer: Result<Outcome, Dropped>,
    packets: &'static [&'static [u8]],
}

/// An unknown type of RP message is refused in a transaction of the centre, and no answer in one of
/// the phone.
static FLAGS: [Row; 3] = [
    Row {
        name: "a packet cut short",
        octets: b"\x09\x01\x05\x00",
        answer: Err(Dropped::NotCp),
        packets: &[],
    },
    Row {
        name: "an unknown type in a transaction of the centre",
        octets: b"\x09\x01\x02\x06\x05",
        answer: Ok(Outcome::Refused {
            cause: 97,
            failure: None,
        }),
        packets: &[b"\x89\x04", b"\x89\x01\x04\x04\x05\x01\x61"],
    },
    Row {
        name: "an unknown type in a transaction of the phone",
        octets: b"\x89\x01\x02\x06\x05",
        answer: Err(Dropped::Unmatched),
        packets: &[],
    },
];

/// A phone that does not ask to reject duplicates from the first putting out on.
fn phone(alloc: Global) -> Result<Phone, AllocError> {
    Phone::new(alloc, 16, 32, 500, Width::Eight, false)
}

/// Says which row is answered otherwise, if any is.
fn differs(phone: &mut Phone, rows: &[Row]) -> Option<&'static str> {
    for row in rows {
        let told = phone.receive(0, row.octets);
        if !is_answer(&told, row.answer, row.packets) {
            return Some(row.name);
        }
    }
    None
}

#[test]
fn a_phone_tells_answers_by_their_flag(rt: HostRuntime) -> Result<(), Fail> {
    let mut phone = phone(rt.alloc())?;
    none_differs(&rt, differs(&mut phone, FLAGS.as_slice()));
    is_so(
        &rt,
        "nothing waits",
        &phone.timeout(),
        Ok(Outcome::Idle),
        &[],
    );
    Ok(())
}

/// What is answered to a packet, once more where it wants memory.
fn told_at_last(spare: &mut Spare, phone: &mut Phone, octets: &[u8]) -> Result<Step, Dropped> {
    match phone.receive_with(spare, 0, octets) {
        Ok(step) => Ok(step),
        Err(Dropped::Memory) => phone.receive_with(spare, 0, octets),
        Err(why) => Err(why),
    }
}

/// Whether a row is answered as it says, at last.
fn is_answered(spare: &mut Spare, phone: &mut Phone, row: &Row) -> bool {
    let told = told_at_last(spare, phone, row.octets);
    let is_so = is_answer(&told, row.answer, row.packets);
    give_back(spare, told);
    is_so
}

/// Says which row is answered otherwise, if any is, with the lists of earlier packets.
fn differs_at_last(spare: &mut Spare, phone: &mut Phone, rows: &[Row]) -> Option<&'static str> {
    for row in rows {
        if !is_answered(spare, phone, row) {
            return Some(row.name);
        }
    }
    None
}

/// A phone, made once more where that wants memory.
fn phone_at_last(alloc: Global) -> Result<Phone, AllocError> {
    match phone(alloc) {
        Ok(made) => Ok(made),
        Err(_) => phone(alloc),
    }
}

#[test]
fn tells_answers_in_room_after_a_refused_growth(rt: HostRuntime) -> Result<(), Fail> {
    let mut phone = phone_at_last(rt.alloc())?;
    let mut spare = Spare::new(rt.alloc());
    none_differs(
        &rt,
        differs_at_last(&mut spare, &mut phone, FLAGS.as_slice()),
    );
    none_differs(
        &rt,
        differs_at_last(&mut spare, &mut phone, FLAGS.as_slice()),
    );
    Ok(())
}

/// A text is typed, once more where that wants memory.
fn typed_at_last(spare: &mut Spare, phone: &mut Phone, target: &Address) -> Result<Step, Dropped> {
    match phone.type_text_with(spare, target, "hi") {
        Ok(step) => Ok(step),
        Err(_) => phone.type_text_with(spare, target, "hi"),
    }
}

/// The waiting segment is put out, once more where that wants memory.
fn repeated_at_last(spare: &mut Spare, phone: &mut Phone) -> Result<Step, Dropped> {
    match phone.timeout_with(spare) {
        Ok(step) => Ok(step),
        Err(_) => phone.timeout_with(spare),
    }
}

/// What a call did, whose lists are used again.
fn outcome_of(spare: &mut Spare, told: Result<Step, Dropped>) -> Option<Outcome> {
    let outcome = match &told {
        Ok(step) => Some(step.outcome),
        Err(_) => None,
    };
    give_back(spare, told);
    outcome
}

/// Whether a text is typed and put out again, with the list that it was put out in.
fn is_repeated(spare: &mut Spare, phone: &mut Phone, target: &Address) -> bool {
    let typed = typed_at_last(spare, phone, target);
    let typed = outcome_of(spare, typed);
    let repeated = repeated_at_last(spare, phone);
    let repeated = outcome_of(spare, repeated);
    typed == Some(Outcome::Typed { text: 1 }) && repeated == Some(Outcome::Repeated { text: 1 })
}

#[test]
fn puts_out_again_in_room_after_a_refused_growth(rt: HostRuntime) -> Result<(), Fail> {
    let target = Address::from_text(rt.alloc(), "+1002")?;
    let mut phone = phone_at_last(rt.alloc())?;
    let mut spare = Spare::new(rt.alloc());
    let other = (!is_repeated(&mut spare, &mut phone, &target)).then_some("hi");
    none_differs(&rt, other);
    Ok(())
}
