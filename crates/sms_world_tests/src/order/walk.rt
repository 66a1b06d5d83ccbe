//! Random scripts: what is told of their order is what a plain walk over all that was carried says.

use crate::brought::{Brought, Typed, brought_at, is_of_segment, is_of_text, segment_brought};
use crate::found::holds;
use crate::order::{new_watched, typing};
use crate::random::Random;
use crate::two::coming;
use sms_message::Outcome;
use sms_world::{Breach, Disorder, Event, WatchedWorld, WorldFault};
use std::alloc::{AllocError, Global};
use std::process::Abort;
use std::test::Fail;

/// A packet was carried.
#[derive(Clone, Copy, Debug)]
struct Carried {
    brought: Brought,
    moment: u64,
    told: Result<Outcome, WorldFault>,
}

/// How many of the texts that finished are remembered.
const REMEMBERED: usize = 2;

/// How long an accepted submission is valid: two days.
const VALIDITY: u64 = 172_800;

/// What is wrong with a submission that comes now: whether one of its segment was held before, and
/// how long ago.
fn wrong_submission(past: &[Carried], now: u64, comes: Brought) -> Option<Disorder> {
    let Brought::Submission {
        letter,
        segment,
        reject,
    } = comes
    else {
        return None;
    };
    let held = past.iter().find(|c| {
        c.told == Ok(Outcome::Held) && is_of_segment(c.brought, letter, segment)
    })?;
    if now >= held.moment.saturating_add(VALIDITY) {
        return Some(Disorder::RepeatAfterTheEnd);
    }
    if reject {
        None
    } else {
        Some(Disorder::RepeatWithoutRejection)
    }
}

/// What is wrong with a delivery of this text that comes now: how many texts have finished after
/// it.
fn wrong_delivery(past: &[Carried], text: u8) -> Option<Disorder> {
    let mut later = 0usize;
    for c in past.iter().rev() {
        if c.told == Ok(Outcome::Finished) {
            later = later.saturating_add(1);
            if is_of_text(c.brought, text) && later > REMEMBERED {
                return Some(Disorder::LateSegmentForgotten);
            }
            if is_of_text(c.brought, text) {
                return None;
            }
        }
    }
    None
}

/// What is wrong with a packet that comes now. No key is used twice in so short a script.
fn wrong(past: &[Carried], now: u64, comes: Brought) -> Option<Disorder> {
    match comes {
        Brought::Submission { .. } => wrong_submission(past, now, comes),
        Brought::Delivery { letter, .. } => wrong_delivery(past, letter),
        Brought::Other => None,
    }
}

/// A script that is played: what was typed and carried, and what was found wrong first.
#[derive(Drop)]
struct Played {
    world: WatchedWorld,
    past: Vec<Carried>,
    typed: Vec<Typed>,
    now: u64,
    wrong: Option<Breach>,
}

/// 161 times a letter, or twice.
fn letters(alloc: Global, letter: u8, long: bool) -> Result<String, AllocError> {
    let count = if long { 161usize } else { 2usize };
    let mut text = String::new(alloc);
    for _ in 0..count {
        text.push(char::from(letter))?;
    }
    Ok(text)
}

/// A text of the next letter is typed.
fn next_text(alloc: Global, played: &mut Played, random: &mut Random) -> Result<Event, AllocError> {
    let count = played.typed.len();
    if count >= 26 {
        return Ok(Event::Tick(1));
    }
    let letter = b'A' + count as u8;
    let phone = random.below(2) as usize;
    let earlier = played.typed.iter().filter(|t| t.phone == phone).count();
    played.typed.push(Typed {
        phone,
        number: earlier.saturating_add(1),
    })?;
    let text = letters(alloc, letter, random.below(2) == 0)?;
    let event = typing(alloc, phone, text.as_str());
    drop(text);
    event
}

/// A packet that was put out, mostly one of the last, is carried.
fn next_packet(played: &Played, random: &mut Random) -> Event {
    let count = played.world.world().packet_count() as u64;
    let back = if random.below(4) == 0 {
        random.below(count)
    } else {
        random.below(count.min(6))
    };
    Event::Carry(count.saturating_sub(back))
}

/// Time passes: a second, a day, or two.
fn next_tick(random: &mut Random) -> Event {
    match random.below(12) {
        0 => Event::Tick(VALIDITY),
        1 => Event::Tick(86_400),
        _ => Event::Tick(1),
    }
}

/// What happens next.
fn next_event(
    alloc: Global,
    played: &mut Played,
    random: &mut Random,
) -> Result<Event, AllocError> {
    match random.below(40) {
        0..5 => next_text(alloc, played, random),
        5..12 => Ok(Event::Push(random.below(2) as usize)),
        12..14 => Ok(Event::Timeout(random.below(2) as usize)),
        14..16 => Ok(next_tick(random)),
        16 => {
            if random.below(20) == 0 {
                coming(alloc, 1, &[0])
            } else {
                Ok(Event::Tick(1))
            }
        }
        _ => Ok(next_packet(played, random)),
    }
}

/// What is wrong with an event, if it comes now.
fn wrong_at(played: &Played, event: &Event, comes: Brought) -> Option<Disorder> {
    match event {
        Event::Inject { .. } => Some(Disorder::Injected),
        _ => wrong(&played.past, played.now, comes),
    }
}

/// An event happens.
fn one_happens(alloc: Global, played: &mut Played, number: u64, event: &Event) -> Result<(), Fail> {
    let comes = brought_at(alloc, played.world.world(), event)?;
    if played.wrong.is_none() {
        if let Some(disorder) = wrong_at(played, event, comes) {
            played.wrong = Some(Breach {
                event: number,
                disorder,
                segment: segment_brought(&played.typed, comes),
            });
        }
    }
    let told = played.world.step(event);
    played.past.push(Carried {
        brought: comes,
        moment: played.now,
        told,
    })?;
    if let (Event::Tick(seconds), Ok(_)) = (event, told) {
        played.now = played.now.saturating_add(*seconds);
    }
    Ok(())
}

/// Eighty random events happen.
fn all_happen(alloc: Global, played: &mut Played, random: &mut Random) -> Result<(), Fail> {
    for number in 1..=80u64 {
        let event = next_event(alloc, played, random)?;
        let happened = one_happens(alloc, played, number, &event);
        drop(event);
        happened?;
    }
    Ok(())
}

/// Whether a random script is told as the walk finds it.
fn is_told(alloc: Global, seed: u64) -> Result<bool, Fail> {
    let mut random = Random { state: seed };
    let mut played = Played {
        world: new_watched(alloc, 2, seed % 2 == 0)?,
        past: Vec::new(alloc),
        typed: Vec::new(alloc),
        now: 0,
        wrong: None,
    };
    let happened = all_happen(alloc, &mut played, &mut random);
    let agree = played.world.order() == played.wrong;
    drop(played);
    happened?;
    Ok(agree)
}

#[test]
fn tells_of_a_hundred_random_scripts_what_a_walk_finds(rt: HostRuntime) -> Result<(), Fail> {
    for seed in 1..=100u64 {
        let told = is_told(rt.alloc(), seed)?;
        holds(&rt, &seed, told);
    }
    Ok(())
}
