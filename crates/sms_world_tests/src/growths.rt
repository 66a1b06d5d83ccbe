//! One growth is refused, whichever it is (docs/CONTRIBUTING.md says how): an event that wants
//! memory has changed nothing, and the same event is then answered as where none was refused. `way`
//! has such a test too.

use crate::found::holds;
use crate::two::{
    Two, all_answer_at_last, answers_at_last, are_stored, coming, has_stored, new_two,
    three_with_one_open, typing, typing_at,
};
use sms_message::{Dropped, Outcome};
use sms_world::{Event, WorldFault};
use std::alloc::{AllocError, Global};
use std::process::Abort;
use std::test::Fail;

/// What happens after texts were typed: a packet comes to its destination, or the centre pushes to
/// the second phone.
#[derive(Clone, Copy)]
enum Then {
    Carry(u64),
    Push,
}

/// What happens, and its answer.
struct Told {
    then: Then,
    answer: Result<Outcome, WorldFault>,
}

/// A text of two segments comes late, twice and out of order.
static LOSSY: [Told; 15] = [
    Told {
        then: Then::Carry(1),
        answer: Ok(Outcome::Held),
    },
    Told {
        then: Then::Carry(3),
        answer: Ok(Outcome::Segment {
            text: 1,
            segment: 1,
        }),
    },
    Told {
        then: Then::Carry(5),
        answer: Ok(Outcome::Held),
    },
    Told {
        then: Then::Push,
        answer: Ok(Outcome::Pushed),
    },
    Told {
        then: Then::Push,
        answer: Ok(Outcome::Pushed),
    },
    Told {
        then: Then::Carry(9),
        answer: Ok(Outcome::Kept),
    },
    Told {
        then: Then::Carry(8),
        answer: Ok(Outcome::Finished),
    },
    Told {
        then: Then::Carry(8),
        answer: Ok(Outcome::Repeat),
    },
    Told {
        then: Then::Carry(9),
        answer: Ok(Outcome::Repeat),
    },
    Told {
        then: Then::Carry(11),
        answer: Ok(Outcome::Delivered),
    },
    Told {
        then: Then::Carry(13),
        answer: Err(WorldFault::Party(Dropped::Unmatched)),
    },
    Told {
        then: Then::Push,
        answer: Ok(Outcome::Pushed),
    },
    Told {
        then: Then::Carry(19),
        answer: Ok(Outcome::Repeat),
    },
    Told {
        then: Then::Carry(21),
        answer: Ok(Outcome::Delivered),
    },
    Told {
        then: Then::Carry(7),
        answer: Ok(Outcome::Accepted { text: 1 }),
    },
];

/// Two texts of two segments come where one set may be open.
static FULL: [Told; 20] = [
    Told {
        then: Then::Carry(1),
        answer: Ok(Outcome::Held),
    },
    Told {
        then: Then::Carry(2),
        answer: Ok(Outcome::Held),
    },
    Told {
        then: Then::Carry(4),
        answer: Ok(Outcome::Segment {
            text: 1,
            segment: 1,
        }),
    },
    Told {
        then: Then::Carry(6),
        answer: Ok(Outcome::Segment {
            text: 1,
            segment: 1,
        }),
    },
    Told {
        then: Then::Carry(8),
        answer: Ok(Outcome::Held),
    },
    Told {
        then: Then::Carry(10),
        answer: Ok(Outcome::Held),
    },
    Told {
        then: Then::Push,
        answer: Ok(Outcome::Pushed),
    },
    Told {
        then: Then::Carry(15),
        answer: Ok(Outcome::Kept),
    },
    Told {
        then: Then::Carry(17),
        answer: Ok(Outcome::Delivered),
    },
    Told {
        then: Then::Push,
        answer: Ok(Outcome::Pushed),
    },
    Told {
        then: Then::Carry(19),
        answer: Ok(Outcome::Refused {
            cause: 22,
            failure: Some(0xD3),
        }),
    },
    Told {
        then: Then::Carry(21),
        answer: Ok(Outcome::Returned),
    },
    Told {
        then: Then::Push,
        answer: Ok(Outcome::Pushed),
    },
    Told {
        then: Then::Carry(23),
        answer: Ok(Outcome::Finished),
    },
    Told {
        then: Then::Carry(25),
        answer: Ok(Outcome::Delivered),
    },
    Told {
        then: Then::Push,
        answer: Ok(Outcome::Pushed),
    },
    Told {
        then: Then::Carry(27),
        answer: Ok(Outcome::Kept),
    },
    Told {
        then: Then::Carry(29),
        answer: Ok(Outcome::Delivered),
    },
    Told {
        then: Then::Push,
        answer: Ok(Outcome::Pushed),
    },
    Told {
        then: Then::Carry(31),
        answer: Ok(Outcome::Finished),
    },
];

/// What happens, as an event.
fn event_of(then: Then) -> Event {
    match then {
        Then::Carry(number) => Event::Carry(number),
        Then::Push => Event::Push(1),
    }
}

/// All of this happens, and is answered so.
fn all_happen(rt: &impl Abort, two: &mut Two, rows: &[Told]) {
    for row in rows {
        let event = event_of(row.then);
        answers_at_last(rt, two, &event, row.answer);
        drop(event);
    }
}

/// A text of two segments is typed at a phone.
fn is_typed(
    rt: &impl Abort,
    alloc: Global,
    two: &mut Two,
    phone: usize,
    text: &str,
) -> Result<(), AllocError> {
    let typed = typing_at(alloc, phone, text)?;
    answers_at_last(rt, two, &typed, Ok(Outcome::Typed { text: 1 }));
    drop(typed);
    Ok(())
}

/// A text goes over a network that loses, repeats and reorders, and is stored once.
fn lossy_way_is_gone(
    rt: &impl Abort,
    alloc: Global,
    two: &mut Two,
    text: &str,
) -> Result<(), AllocError> {
    is_typed(rt, alloc, two, 0, text)?;
    all_happen(rt, two, LOSSY.as_slice());
    has_stored(rt, two, text);
    Ok(())
}

#[test]
fn two_parts_come_after_a_refused_growth(rt: HostRuntime) -> Result<(), Fail> {
    let text = "a".repeat(rt.alloc(), 161)?;
    let mut two = new_two(rt.alloc())?;
    let come = lossy_way_is_gone(&rt, rt.alloc(), &mut two, text.as_str());
    drop(two);
    Ok(come?)
}

/// Two texts come where one set may be open: the segment that was turned away is taken later.
fn both_come(
    rt: &impl Abort,
    alloc: Global,
    two: &mut Two,
    first: &str,
    second: &str,
) -> Result<(), AllocError> {
    is_typed(rt, alloc, two, 0, first)?;
    is_typed(rt, alloc, two, 2, second)?;
    all_happen(rt, two, FULL.as_slice());
    holds(rt, &"both", are_stored(two.world.store(1), first, second));
    Ok(())
}

#[test]
fn both_texts_come_after_a_refused_growth(rt: HostRuntime) -> Result<(), Fail> {
    let first = "a".repeat(rt.alloc(), 161)?;
    let second = "x".repeat(rt.alloc(), 161)?;
    let mut three = three_with_one_open(rt.alloc())?;
    let come = both_come(&rt, rt.alloc(), &mut three, first.as_str(), second.as_str());
    drop(three);
    Ok(come?)
}

/// A delivery of 8-bit text.
const EIGHT_BIT: &[u8] =
    b"\x09\x01\x18\x01\x00\x03\x91\x01\x00\x00\x10\x04\x04\x91\x01\x10\x00\x04\x00\x10\x10\x00\x00\x00\x00\x01\x41";

/// A repeat that is rejected, a delivery that comes twice, and one of 8-bit text.
fn repeats(alloc: Global) -> Result<[Event; 9], AllocError> {
    let eight_bit = coming(alloc, 1, EIGHT_BIT)?;
    let typed = typing(alloc, "hi")?;
    Ok([
        typed,
        Event::Timeout(0),
        Event::Carry(1),
        Event::Carry(2),
        Event::Carry(6),
        Event::Push(1),
        Event::Carry(8),
        Event::Carry(8),
        eight_bit,
    ])
}

/// What these events answer.
const REJECTIONS: [Outcome; 9] = [
    Outcome::Typed { text: 1 },
    Outcome::Repeated { text: 1 },
    Outcome::Held,
    Outcome::Refused {
        cause: 21,
        failure: Some(0xC5),
    },
    Outcome::Accepted { text: 1 },
    Outcome::Pushed,
    Outcome::Finished,
    Outcome::Repeat,
    Outcome::Refused {
        cause: 111,
        failure: Some(0x90),
    },
];

/// The refusals come, and `hi` is stored.
fn refusals_come(rt: &impl Abort, alloc: Global, two: &mut Two) -> Result<(), AllocError> {
    let events = repeats(alloc)?;
    all_answer_at_last(rt, two, &events, &REJECTIONS);
    drop(events);
    has_stored(rt, two, "hi");
    Ok(())
}

#[test]
fn refusals_come_after_a_refused_growth(rt: HostRuntime) -> Result<(), Fail> {
    let mut two = new_two(rt.alloc())?;
    let come = refusals_come(&rt, rt.alloc(), &mut two);
    drop(two);
    Ok(come?)
}
