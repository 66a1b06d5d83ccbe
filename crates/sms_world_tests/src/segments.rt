//! Texts of three segments that come in any order, to a phone that has room or has none.

use crate::found::{holds, same};
use crate::two::{Two, are_stored, coming, happens, is_stored, new_two, two_with_room, typing};
use sms_message::Outcome;
use sms_world::Event;
use std::alloc::{AllocError, Global};
use std::process::Abort;
use std::test::Fail;

/// Carries these packets.
fn carry(two: &mut Two, numbers: &[u64]) {
    for number in numbers {
        let _ = happens(two, &Event::Carry(*number));
    }
}

/// Pushes three segments.
fn push_three(two: &mut Two) {
    for _ in 0..3u8 {
        let _ = happens(two, &Event::Push(1));
    }
}

/// Lets a text of three segments be accepted and pushed: its segments are packets 13 to 15.
fn push_text(alloc: Global, two: &mut Two, text: &str) -> Result<(), AllocError> {
    let typed = typing(alloc, text)?;
    let _ = happens(two, &typed);
    carry(two, &[1, 3, 5, 7, 9, 11]);
    push_three(two);
    Ok(())
}

/// Carries each of these packets twice, and says which one is no repeat the second time, if any is
/// not.
fn not_repeated(two: &mut Two, order: [u64; 3]) -> Option<u64> {
    for number in order {
        let _ = happens(two, &Event::Carry(number));
        let again = happens(two, &Event::Carry(number));
        if again != Ok(Outcome::Repeat) {
            return Some(number);
        }
    }
    None
}

/// Each packet is a repeat the second time, and the text is stored once.
fn is_stored_once(rt: &impl Abort, two: &mut Two, text: &str, order: [u64; 3]) {
    same(rt, &order, &not_repeated(two, order), &None);
    holds(rt, &order, is_stored(two.world.store(1), text));
}

/// Segments come in this order, each twice.
fn come(
    rt: &impl Abort,
    alloc: Global,
    two: &mut Two,
    text: &str,
    order: [u64; 3],
) -> Result<(), AllocError> {
    push_text(alloc, two, text)?;
    is_stored_once(rt, two, text, order);
    Ok(())
}

/// Segments come in this order, each twice, in a new world.
fn come_anew(rt: &impl Abort, alloc: Global, text: &str, order: [u64; 3]) -> Result<(), Fail> {
    let mut two = new_two(alloc)?;
    let told = come(rt, alloc, &mut two, text, order);
    drop(two);
    Ok(told?)
}

/// The orders in which three segments can come.
static ORDERS: [[u64; 3]; 6] = [
    [13, 14, 15],
    [13, 15, 14],
    [14, 13, 15],
    [14, 15, 13],
    [15, 13, 14],
    [15, 14, 13],
];

#[test]
fn segments_come_in_any_order_and_twice(rt: HostRuntime) -> Result<(), Fail> {
    let text = "a".repeat(rt.alloc(), 307)?;
    for order in ORDERS.as_slice() {
        come_anew(&rt, rt.alloc(), text.as_str(), *order)?;
    }
    Ok(())
}

/// The delivery of `one` to the second phone.
fn delivery_of_one(alloc: Global) -> Result<Event, AllocError> {
    coming(
        alloc,
        1,
        b"\x09\x01\x1A\x01\x00\x03\x91\x01\x00\x00\x12\x04\x04\x91\x01\x10\x00\x00\x00\x10\x10\x00\x00\x00\x00\x03\x6F\x77\x19",
    )
}

/// The same, and the second phone has stored `one` before the segments come.
fn push_after_one(alloc: Global, two: &mut Two, text: &str) -> Result<(), AllocError> {
    push_text(alloc, two, text)?;
    let one = delivery_of_one(alloc)?;
    let _ = happens(two, &one);
    Ok(())
}

/// Carries a packet twice, and says whether both times have this answer.
fn is_twice(two: &mut Two, number: u64, wanted: Outcome) -> bool {
    let first = happens(two, &Event::Carry(number));
    let second = happens(two, &Event::Carry(number));
    first == Ok(wanted) && second == Ok(wanted)
}

/// Carries a packet twice: the first time with this answer, then as a repeat.
fn is_taken(two: &mut Two, number: u64, wanted: Outcome) -> bool {
    let first = happens(two, &Event::Carry(number));
    let second = happens(two, &Event::Carry(number));
    first == Ok(wanted) && second == Ok(Outcome::Repeat)
}

/// Whether a store that is full refuses the last segment of a text, also at a later push, and
/// nothing changes: the later packets are those of before, 17 further on.
fn is_refused_when_full(two: &mut Two, [first, second, last]: [u64; 3]) -> bool {
    let refused = Outcome::Refused {
        cause: 22,
        failure: Some(0xD3),
    };
    let kept = is_taken(two, first, Outcome::Kept) && is_taken(two, second, Outcome::Kept);
    let full = is_twice(two, last, refused);
    push_three(two);
    let again = is_twice(two, last.saturating_add(17), refused)
        && is_twice(two, first.saturating_add(17), Outcome::Repeat);
    kept && full && again && is_stored(two.world.store(1), "one")
}

/// Whether a phone that has room takes the last segment of a text at a later push.
fn is_taken_with_room(two: &mut Two, text: &str, [first, second, last]: [u64; 3]) -> bool {
    let kept = is_taken(two, first, Outcome::Kept) && is_taken(two, second, Outcome::Kept);
    push_three(two);
    let taken = is_taken(two, last.saturating_add(13), Outcome::Finished);
    kept && taken && are_stored(two.world.store(1), "one", text)
}

/// Whether a phone with room for one text refuses the last segment.
fn is_refused(
    alloc: Global,
    two: &mut Two,
    text: &str,
    order: [u64; 3],
) -> Result<bool, AllocError> {
    push_after_one(alloc, two, text)?;
    Ok(is_refused_when_full(two, order))
}

/// Whether a phone with room for two texts takes the last segment.
fn is_taken_at_last(
    alloc: Global,
    two: &mut Two,
    text: &str,
    order: [u64; 3],
) -> Result<bool, AllocError> {
    push_after_one(alloc, two, text)?;
    Ok(is_taken_with_room(two, text, order))
}

/// A phone without room refuses the last segment.
fn refuses(rt: &impl Abort, alloc: Global, text: &str, order: [u64; 3]) -> Result<(), Fail> {
    let mut two = two_with_room(alloc, 1)?;
    let refused = is_refused(alloc, &mut two, text, order);
    drop(two);
    holds(rt, &(order, "no room"), refused?);
    Ok(())
}

/// A phone with room takes the last segment.
fn takes(rt: &impl Abort, alloc: Global, text: &str, order: [u64; 3]) -> Result<(), Fail> {
    let mut two = two_with_room(alloc, 2)?;
    let taken = is_taken_at_last(alloc, &mut two, text, order);
    drop(two);
    holds(rt, &(order, "room"), taken?);
    Ok(())
}

#[test]
fn a_last_segment_wants_room(rt: HostRuntime) -> Result<(), Fail> {
    let text = "a".repeat(rt.alloc(), 307)?;
    for order in ORDERS.as_slice() {
        refuses(&rt, rt.alloc(), text.as_str(), *order)?;
        takes(&rt, rt.alloc(), text.as_str(), *order)?;
    }
    Ok(())
}
