//! What a sending phone answers, and the packets that it puts out.

mod growths;
mod rows;

use crate::answer::{is_answer, is_so, none_differs};
use crate::sender::rows::{Call, EARLY, FIRST_OF_TWO, FORGED, REFUSED, Row, SEGMENTS, UNANSWERED};
use sms_field::Address;
use sms_message::{Dropped, Outcome, Step};
use sms_party::{Sender, Status};
use sms_tpdu::Width;
use std::alloc::{AllocError, Global};
use std::process::Abort;
use std::test::Fail;

/// Makes the call of a row.
fn called(sender: &mut Sender, target: &Address, row: &Row) -> Result<Step, Dropped> {
    match row.call {
        Call::Type { text } => sender.type_text(target, text),
        Call::Receive { octets } => sender.receive(octets),
        Call::Timeout => sender.timeout(),
    }
}

/// Makes the calls of the rows, and says which one is answered otherwise, if any is.
fn differs(sender: &mut Sender, target: &Address, rows: &[Row]) -> Option<&'static str> {
    for row in rows {
        let told = called(sender, target, row);
        if !is_answer(&told, row.answer, row.packets) {
            return Some(row.name);
        }
    }
    None
}

/// The rows are answered as they say. Texts go to +1002.
fn plays(rt: &impl Abort, alloc: Global, sender: &mut Sender, rows: &[Row]) -> Result<(), Fail> {
    let target = Address::from_text(alloc, "+1002")?;
    none_differs(rt, differs(sender, &target, rows));
    Ok(())
}

/// A text stands so, or was not typed.
fn stands(rt: &impl Abort, sender: &Sender, text: usize, wanted: Option<Status>) {
    assert_eq!(rt; sender.status(text), wanted);
}

/// As many texts were typed as wanted.
fn were_typed(rt: &impl Abort, sender: &Sender, wanted: usize) {
    assert_eq!(rt; sender.typed(), wanted);
}

#[test]
fn gives_up_after_three_repeats(rt: HostRuntime) -> Result<(), Fail> {
    let mut sender = Sender::new(rt.alloc(), Width::Eight, false);
    stands(&rt, &sender, 1, None);
    plays(&rt, rt.alloc(), &mut sender, &UNANSWERED[..3])?;
    stands(&rt, &sender, 1, Some(Status::Waiting));
    plays(&rt, rt.alloc(), &mut sender, &UNANSWERED[3..])?;
    stands(&rt, &sender, 0, None);
    stands(&rt, &sender, 1, Some(Status::Failed));
    stands(&rt, &sender, 2, None);
    Ok(())
}

#[test]
fn hears_its_own_answers_alone(rt: HostRuntime) -> Result<(), Fail> {
    let mut sender = Sender::new(rt.alloc(), Width::Eight, false);
    plays(&rt, rt.alloc(), &mut sender, FORGED.as_slice())?;
    stands(&rt, &sender, 1, Some(Status::Accepted));
    Ok(())
}

#[test]
fn hears_refusals(rt: HostRuntime) -> Result<(), Fail> {
    let mut sender = Sender::new(rt.alloc(), Width::Eight, false);
    plays(&rt, rt.alloc(), &mut sender, REFUSED.as_slice())?;
    stands(&rt, &sender, 1, Some(Status::Accepted));
    stands(&rt, &sender, 2, Some(Status::Failed));
    were_typed(&rt, &sender, 3);
    Ok(())
}

#[test]
fn hears_refusals_of_a_sender_that_rejects_early(rt: HostRuntime) -> Result<(), Fail> {
    let mut sender = Sender::new(rt.alloc(), Width::Eight, true);
    plays(&rt, rt.alloc(), &mut sender, EARLY.as_slice())?;
    stands(&rt, &sender, 1, Some(Status::Accepted));
    Ok(())
}

/// What is answered where as many letters `a` are typed to +1002.
fn typed(
    alloc: Global,
    sender: &mut Sender,
    letters: usize,
) -> Result<Result<Step, Dropped>, Fail> {
    let target = Address::from_text(alloc, "+1002")?;
    let text = "a".repeat(alloc, letters)?;
    Ok(sender.type_text(&target, text.as_str()))
}

/// The packet with the first of two segments: eight letters `a` are packed into seven octets.
fn first_segment(alloc: Global) -> Result<Vec<u8>, AllocError> {
    let mut packet = FIRST_OF_TWO.to_vec(alloc)?;
    for _ in 0..19u8 {
        packet.extend_from_slice(b"\xE1\x70\x38\x1C\x0E\x87\xC3")?;
    }
    Ok(packet)
}

/// A text of two segments is typed, and the first is put out.
fn types_two_segments(rt: &impl Abort, alloc: Global, sender: &mut Sender) -> Result<(), Fail> {
    let told = typed(alloc, sender, 161)?;
    let first = first_segment(alloc)?;
    let wanted = Ok(Outcome::Typed { text: 1 });
    is_so(rt, "two segments", &told, wanted, &[first.as_slice()]);
    Ok(())
}

#[test]
fn numbers_the_segments_of_a_text(rt: HostRuntime) -> Result<(), Fail> {
    let mut sender = Sender::new(rt.alloc(), Width::Sixteen, false);
    types_two_segments(&rt, rt.alloc(), &mut sender)?;
    plays(&rt, rt.alloc(), &mut sender, SEGMENTS.as_slice())?;
    stands(&rt, &sender, 1, Some(Status::Accepted));
    Ok(())
}

/// A text of as many letters is answered so, and nothing is put out.
fn is_answered(
    rt: &impl Abort,
    alloc: Global,
    sender: &mut Sender,
    letters: usize,
    wanted: Result<Outcome, Dropped>,
) -> Result<(), Fail> {
    let told = typed(alloc, sender, letters)?;
    is_so(rt, "a text that is not put out", &told, wanted, &[]);
    Ok(())
}

#[test]
fn refuses_too_many_segments(rt: HostRuntime) -> Result<(), Fail> {
    let mut sender = Sender::new(rt.alloc(), Width::Eight, false);
    let wanted = Err(Dropped::TooManySegments);
    is_answered(&rt, rt.alloc(), &mut sender, 39_016, wanted)?;
    stands(&rt, &sender, 1, None);
    Ok(())
}

/// A sender at which a thousand empty texts to +1002 wait.
fn full_sender(alloc: Global) -> Result<Sender, Fail> {
    let target = Address::from_text(alloc, "+1002")?;
    let mut sender = Sender::new(alloc, Width::Eight, false);
    for _ in 0..1000 {
        let _step = sender.type_text(&target, "")?;
    }
    Ok(sender)
}

/// The first text is accepted.
fn accepts_the_first(sender: &mut Sender) -> Result<(), Dropped> {
    let _step = sender.receive(b"\x89\x01\x02\x03\x00")?;
    Ok(())
}

#[test]
fn refuses_too_many_texts(rt: HostRuntime) -> Result<(), Fail> {
    let mut sender = full_sender(rt.alloc())?;
    is_answered(&rt, rt.alloc(), &mut sender, 0, Err(Dropped::Busy))?;
    stands(&rt, &sender, 1000, Some(Status::Waiting));
    stands(&rt, &sender, 1001, None);
    were_typed(&rt, &sender, 1000);
    accepts_the_first(&mut sender)?;
    let wanted = Ok(Outcome::Typed { text: 1001 });
    is_answered(&rt, rt.alloc(), &mut sender, 0, wanted)
}
