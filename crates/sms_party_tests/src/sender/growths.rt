//! Calls of a sending phone with lists whose room is used again.

use crate::answer::{is_answer, none_differs};
use crate::lent::give_back;
use crate::sender::rows::{Call, EARLY, REFUSED, Row, UNANSWERED};
use sms_field::Address;
use sms_message::{Dropped, Spare, Step};
use sms_party::Sender;
use sms_tpdu::Width;
use std::alloc::Global;
use std::process::Abort;
use std::test::Fail;

/// Makes the call of a row.
fn called(
    spare: &mut Spare,
    sender: &mut Sender,
    target: &Address,
    row: &Row,
) -> Result<Step, Dropped> {
    match row.call {
        Call::Type { text } => sender.type_text_with(spare, target, text),
        Call::Receive { octets } => sender.receive_with(spare, octets),
        Call::Timeout => sender.timeout_with(spare),
    }
}

/// Makes the call of a row, once more where it wants memory.
fn called_at_last(
    spare: &mut Spare,
    sender: &mut Sender,
    target: &Address,
    row: &Row,
) -> Result<Step, Dropped> {
    match called(spare, sender, target, row) {
        Ok(step) => Ok(step),
        Err(Dropped::Memory) => called(spare, sender, target, row),
        Err(why) => Err(why),
    }
}

/// Whether a row is answered as it says, at last.
fn is_answered(spare: &mut Spare, sender: &mut Sender, target: &Address, row: &Row) -> bool {
    let told = called_at_last(spare, sender, target, row);
    let is_so = is_answer(&told, row.answer, row.packets);
    give_back(spare, told);
    is_so
}

/// Makes the calls of the rows, and says which one is answered otherwise, if any is.
fn differs(
    spare: &mut Spare,
    sender: &mut Sender,
    target: &Address,
    rows: &[Row],
) -> Option<&'static str> {
    for row in rows {
        if !is_answered(spare, sender, target, row) {
            return Some(row.name);
        }
    }
    None
}

/// The rows are answered as they say, with the lists of earlier packets. Texts go to +1002.
fn plays(rt: &impl Abort, alloc: Global, reject: bool, rows: &[Row]) -> Result<(), Fail> {
    let target = Address::from_text(alloc, "+1002")?;
    let mut sender = Sender::new(alloc, Width::Eight, reject);
    let mut spare = Spare::new(alloc);
    none_differs(rt, differs(&mut spare, &mut sender, &target, rows));
    Ok(())
}

#[test]
fn gives_up_in_room_after_a_refused_growth(rt: HostRuntime) -> Result<(), Fail> {
    plays(&rt, rt.alloc(), false, UNANSWERED.as_slice())
}

#[test]
fn hears_in_room_after_a_refused_growth(rt: HostRuntime) -> Result<(), Fail> {
    plays(&rt, rt.alloc(), false, REFUSED.as_slice())
}

#[test]
fn rejects_early_in_room_after_a_refused_growth(rt: HostRuntime) -> Result<(), Fail> {
    plays(&rt, rt.alloc(), true, EARLY.as_slice())
}
