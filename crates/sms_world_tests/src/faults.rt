//! Events that come to nothing, and what is told of them.

use crate::found::same;
use crate::two::{Two, address, answers, coming, new_two, new_world, typing};
use sms_message::{Dropped, Outcome};
use sms_script::Network;
use sms_world::{Event, Octets, Text, World, WorldFault};
use std::alloc::{AllocError, Global};
use std::process::Abort;
use std::test::Fail;

/// Octets come from a phone, or to it.
fn two_octets(alloc: Global, up: bool, phone: usize) -> Result<Event, AllocError> {
    Ok(Event::Inject {
        up,
        phone,
        octets: Octets::new([9, 4].to_vec(alloc)?),
    })
}

/// The third phone types a text.
fn third_types(alloc: Global) -> Result<Event, AllocError> {
    Ok(Event::Compose {
        phone: 2,
        target: address(1),
        text: Text::copy(alloc, "hi")?,
    })
}

/// An event is for no phone.
fn is_for_no_phone(rt: &impl Abort, two: &mut Two, event: &Event) {
    answers(rt, two, event, Err(WorldFault::NoSuchPhone));
}

/// Nothing is typed at the third phone, and nothing comes from it or to it.
fn third_is_not_there(rt: &impl Abort, alloc: Global, two: &mut Two) -> Result<(), AllocError> {
    is_for_no_phone(rt, two, &third_types(alloc)?);
    is_for_no_phone(rt, two, &two_octets(alloc, true, 2)?);
    is_for_no_phone(rt, two, &two_octets(alloc, false, 2)?);
    is_for_no_phone(rt, two, &Event::Timeout(2));
    is_for_no_phone(rt, two, &Event::Push(2));
    Ok(())
}

/// The clock stops a second before the end of 2099.
fn clock_ends(rt: &impl Abort, two: &mut Two) {
    let (late, last) = (Event::Tick(3_155_760_000), Event::Tick(3_155_759_999));
    answers(rt, two, &late, Err(WorldFault::ClockEnd));
    answers(rt, two, &last, Ok(Outcome::Ticked));
}

/// Nothing was put out.
fn nothing_was_put_out(rt: &impl Abort, two: &mut Two) {
    answers(rt, two, &Event::Carry(1), Err(WorldFault::NoSuchPacket));
    same(rt, &"packets", &two.world.packet_count(), &0);
}

/// Nothing comes of events for the third phone, and the world goes on.
fn nothing_changes(rt: &impl Abort, alloc: Global, two: &mut Two) -> Result<(), AllocError> {
    third_is_not_there(rt, alloc, two)?;
    clock_ends(rt, two);
    nothing_was_put_out(rt, two);
    Ok(())
}

/// An event for the third of two phones changes nothing; the world goes on.
#[test]
fn there_is_no_third_phone(rt: HostRuntime) -> Result<(), Fail> {
    let mut two = new_two(rt.alloc())?;
    let told = nothing_changes(&rt, rt.alloc(), &mut two);
    drop(two);
    Ok(told?)
}

/// A fault and its words.
#[derive(Debug)]
struct Row {
    fault: WorldFault,
    words: &'static str,
}

static ROWS: [Row; 8] = [
    Row {
        fault: WorldFault::NoSuchPacket,
        words: "fault no such packet",
    },
    Row {
        fault: WorldFault::NoSuchPhone,
        words: "fault no such phone",
    },
    Row {
        fault: WorldFault::ClockEnd,
        words: "fault clock end",
    },
    Row {
        fault: WorldFault::Party(Dropped::NotCp),
        words: "drop not cp",
    },
    Row {
        fault: WorldFault::Party(Dropped::Unmatched),
        words: "drop unmatched",
    },
    Row {
        fault: WorldFault::Party(Dropped::Busy),
        words: "drop busy",
    },
    Row {
        fault: WorldFault::Party(Dropped::Memory),
        words: "drop memory",
    },
    Row {
        fault: WorldFault::Party(Dropped::TooManySegments),
        words: "drop too many segments",
    },
];

/// What a fault says by itself.
fn says(rt: &impl Abort, alloc: Global, row: &Row) -> Result<(), AllocError> {
    let said = format!(in alloc; "{}", row.fault)?;
    same(rt, &row.fault, &said.as_str(), &row.words);
    Ok(())
}

#[test]
fn a_fault_says_what_it_is(rt: HostRuntime) -> Result<(), Fail> {
    for row in ROWS.as_slice() {
        says(&rt, rt.alloc(), row)?;
    }
    Ok(())
}

/// What the transcript tells of an event.
fn tells(
    rt: &impl Abort,
    alloc: Global,
    world: &mut World,
    event: &Event,
    words: &str,
) -> Result<(), AllocError> {
    let mut told = Vec::new(alloc);
    Network::step(world, event, &mut told)?;
    same(rt, event, &told.as_slice(), &words.as_bytes());
    Ok(())
}

/// A text of 256 segments is typed.
fn long_text(alloc: Global) -> Result<Event, AllocError> {
    let text = "a".repeat(alloc, 39_016)?;
    typing(alloc, text.as_str())
}

/// An event, and what the transcript tells of it.
#[derive(Drop)]
struct Told {
    event: Event,
    words: &'static str,
}

/// An event for each fault that one event can bring about.
fn told_events(alloc: Global) -> Result<[Told; 6], AllocError> {
    let strange = coming(alloc, 1, b"\xFF")?;
    let unmatched = coming(alloc, 0, b"\x89\x01\x02\x03\x00")?;
    let long = long_text(alloc)?;
    Ok([
        Told {
            event: Event::Carry(1),
            words: "fault no such packet",
        },
        Told {
            event: Event::Push(2),
            words: "fault no such phone",
        },
        Told {
            event: Event::Tick(3_155_760_000),
            words: "fault clock end",
        },
        Told {
            event: strange,
            words: "drop not cp",
        },
        Told {
            event: unmatched,
            words: "drop unmatched",
        },
        Told {
            event: long,
            words: "drop too many segments",
        },
    ])
}

/// The transcript tells of each event what its row says.
fn all_tell(
    rt: &impl Abort,
    alloc: Global,
    world: &mut World,
    rows: &[Told],
) -> Result<(), AllocError> {
    for row in rows {
        tells(rt, alloc, world, &row.event, row.words)?;
    }
    Ok(())
}

/// The transcript tells of each fault what it says by itself.
fn all_are_told(rt: &impl Abort, alloc: Global, world: &mut World) -> Result<(), AllocError> {
    let rows = told_events(alloc)?;
    let told = all_tell(rt, alloc, world, &rows);
    drop(rows);
    told
}

/// That what a fault says by itself is what the transcript tells of it.
#[test]
fn a_fault_says_what_the_transcript_tells(rt: HostRuntime) -> Result<(), Fail> {
    let mut world = new_world(rt.alloc())?;
    let told = all_are_told(&rt, rt.alloc(), &mut world);
    drop(world);
    Ok(told?)
}

/// The first phone types as many texts as may wait.
fn types_a_thousand(world: &mut World, event: &Event) -> Result<(), WorldFault> {
    for _ in 0..1000u16 {
        let _ = world.step(event)?;
    }
    Ok(())
}

/// As many texts as may wait are typed, and the transcript tells of one more that they wait.
fn texts_wait(
    rt: &impl Abort,
    alloc: Global,
    world: &mut World,
    event: &Event,
) -> Result<(), Fail> {
    types_a_thousand(world, event)?;
    tells(rt, alloc, world, event, "drop busy")?;
    Ok(())
}

#[test]
fn the_transcript_tells_that_texts_wait(rt: HostRuntime) -> Result<(), Fail> {
    let event = typing(rt.alloc(), "")?;
    let mut world = new_world(rt.alloc())?;
    let told = texts_wait(&rt, rt.alloc(), &mut world, &event);
    drop(world);
    told
}
