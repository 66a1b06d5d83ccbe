//! A text of one segment on its way.

use crate::found::{holds, same};
use crate::two::{Two, address, all_answer_at_last, has_stored, new_two, typing};
use sms_message::Outcome;
use sms_party::Status;
use sms_world::{Event, Limits, World, WorldFault, run};
use std::alloc::{AllocError, Global};
use std::process::Abort;
use std::test::Fail;

/// The events by which a text of one segment goes its way.
pub fn whole_way(alloc: Global) -> Result<[Event; 6], AllocError> {
    let typed = typing(alloc, "hi")?;
    Ok([
        typed,
        Event::Carry(1),
        Event::Push(1),
        Event::Carry(4),
        Event::Carry(6),
        Event::Carry(3),
    ])
}

/// What these events answer.
pub const ANSWERS: [Outcome; 6] = [
    Outcome::Typed { text: 1 },
    Outcome::Held,
    Outcome::Pushed,
    Outcome::Finished,
    Outcome::Delivered,
    Outcome::Accepted { text: 1 },
];

/// A packet of that way.
#[derive(Clone, Copy)]
pub struct Sent {
    pub number: u64,
    pub octets: &'static [u8],
}

pub static SENT: [Sent; 8] = [
    Sent {
        number: 1,
        octets: b"\x09\x01\x13\x00\x00\x00\x03\x91\x01\x00\x0B\x01\x00\x04\x91\x01\x20\x00\x00\x02\xE8\x34",
    },
    Sent {
        number: 2,
        octets: b"\x89\x04",
    },
    Sent {
        number: 3,
        octets: b"\x89\x01\x0D\x03\x00\x41\x09\x01\x00\x00\x10\x10\x00\x00\x00\x00",
    },
    Sent {
        number: 4,
        octets: b"\x09\x01\x19\x01\x00\x03\x91\x01\x00\x00\x11\x04\x04\x91\x01\x10\x00\x00\x00\x10\x10\x00\x00\x00\x00\x02\xE8\x34",
    },
    Sent {
        number: 5,
        octets: b"\x89\x04",
    },
    Sent {
        number: 6,
        octets: b"\x89\x01\x06\x02\x00\x41\x02\x00\x00",
    },
    Sent {
        number: 7,
        octets: b"\x09\x04",
    },
    Sent {
        number: 8,
        octets: b"\x09\x04",
    },
];

/// Whether these packets were put out.
pub fn are_put_out(world: &World, packets: &[Sent]) -> bool {
    for sent in packets {
        if world.packet(sent.number) != Some(sent.octets) {
            return false;
        }
    }
    true
}

/// These packets were put out.
pub fn were_put_out(rt: &impl Abort, world: &World, packets: &[Sent]) {
    for sent in packets {
        let put_out = world.packet(sent.number) == Some(sent.octets);
        holds(rt, &sent.number, put_out);
    }
}

/// No packets have these numbers.
fn were_not_put_out(rt: &impl Abort, world: &World, numbers: &[u64]) {
    for number in numbers {
        holds(rt, number, world.packet(*number).is_none());
    }
}

/// These are the answers.
fn are_answers(rt: &impl Abort, answers: &[Result<Outcome, WorldFault>], wanted: &[Outcome]) {
    same(rt, &"answers", &answers.len(), &wanted.len());
    for (answer, outcome) in answers.iter().zip(wanted) {
        holds(rt, &(answer, outcome), *answer == Ok(*outcome));
    }
}

/// The first phone has typed a text that was accepted, and has stored none.
pub fn first_phone_stands(rt: &impl Abort, two: &Two) {
    let status = two.world.status(0, 1);
    same(rt, &"the text", &status, &Some(Status::Accepted));
    same(rt, &"the store", &two.world.store(0).len(), &0);
}

/// A world after a run, and what each event has answered.
#[derive(Drop)]
struct Ran {
    two: Two,
    answers: Vec<Result<Outcome, WorldFault>>,
}

/// A run of these events.
#[tactic(auto, unfolding(sms_field::specs::Address::Same::same_address))]
fn run_of(alloc: Global, events: &[Event]) -> Result<Ran, Fail> {
    let phones = [address(1), address(2)];
    let (world, answers) = run(alloc, Limits::new(), &phones, events)?;
    Ok(Ran {
        two: Two { world },
        answers,
    })
}

/// A run of the whole way.
fn ran_whole_way(alloc: Global) -> Result<Ran, Fail> {
    let events = whole_way(alloc)?;
    run_of(alloc, &events)
}

/// What stands after the whole way.
fn way_was_gone(rt: &impl Abort, ran: &Ran) {
    are_answers(rt, &ran.answers, &ANSWERS);
    were_put_out(rt, &ran.two.world, &SENT);
    were_not_put_out(rt, &ran.two.world, &[0, 9]);
    first_phone_stands(rt, &ran.two);
    has_stored(rt, &ran.two, "hi");
}

#[test]
fn a_text_goes_its_way(rt: HostRuntime) -> Result<(), Fail> {
    let ran = ran_whole_way(rt.alloc())?;
    way_was_gone(&rt, &ran);
    drop(ran);
    Ok(())
}

/// The text goes its whole way.
fn goes(rt: &impl Abort, alloc: Global, two: &mut Two) -> Result<(), AllocError> {
    let events = whole_way(alloc)?;
    all_answer_at_last(rt, two, &events, &ANSWERS);
    drop(events);
    were_put_out(rt, &two.world, &SENT);
    has_stored(rt, two, "hi");
    Ok(())
}

/// One growth is refused, whichever it is (docs/CONTRIBUTING.md says how): an event that wants
/// memory has changed nothing, and the same event is then answered as where none was refused.
#[test]
fn happens_after_a_refused_growth(rt: HostRuntime) -> Result<(), Fail> {
    let mut two = new_two(rt.alloc())?;
    let gone = goes(&rt, rt.alloc(), &mut two);
    drop(two);
    Ok(gone?)
}
