//! Random scripts of many repeats: whether `accepted` means accepted in them is told as a plain
//! walk over all packets finds it.

ghost use Rattle.std.specs.Prelude.{◌<◌};

use crate::accepted::new_trusted;
use crate::accepted::walk::{Played, TEXTS, VALIDITY, happens, last_of};
use crate::found::same;
use crate::random::Random;
use crate::two::{address, coming};
use sms_world::{Doubt, Event, Ground, Text};
use std::alloc::{AllocError, Global};
use std::test::Fail;

/// One of 26 letters.
fn letter(number: usize) -> char {
    char::from(b'A' + (number % 26) as u8)
}

/// The three letters of a text, once or 54 times.
fn letters(alloc: Global, number: usize, long: bool) -> Result<String, AllocError> {
    let times = if long { 54usize } else { 1usize };
    let mut text = String::new(alloc);
    for _ in 0..times {
        text.push(letter(number / 676))?;
        text.push(letter(number / 26))?;
        text.push(letter(number))?;
    }
    Ok(text)
}

/// The text of this number is typed, at the first phone or the second, to one of the two.
fn typing(alloc: Global, number: usize, random: &mut Random) -> Result<Event, AllocError> {
    let long = random.below(5) == 0;
    let target = if random.below(4) == 0 {
        address(1)
    } else {
        address(2)
    };
    let text = letters(alloc, number, long)?;
    let copy = Text::copy(alloc, text.as_str());
    drop(text);
    Ok(Event::Compose {
        phone: if number < TEXTS { 0 } else { 1 },
        target,
        text: copy?,
    })
}

/// All texts are typed.
fn all_typed(alloc: Global, played: &mut Played, random: &mut Random) -> Result<(), Fail> {
    for number in 0..TEXTS + 4 {
        let event = typing(alloc, number, random)?;
        happens(alloc, played, event)?;
    }
    Ok(())
}

/// One of the last packets is carried.
fn carry_late(played: &Played, random: &mut Random) -> Event {
    let count = played.sent.len() as u64;
    Event::Carry(count.saturating_sub(random.below(6)))
}

/// Time passes: a second, or two days.
fn tick(random: &mut Random) -> Event {
    if random.below(6) == 0 {
        Event::Tick(VALIDITY)
    } else {
        Event::Tick(1)
    }
}

/// What happens at first: packets come, or are put out once more.
fn early_event(played: &Played, random: &mut Random) -> Event {
    match random.below(8) {
        0 => Event::Timeout(0),
        1 => Event::Timeout(1),
        2 => Event::Tick(1),
        3..6 => Event::Carry(random.below(6).saturating_add(1)),
        _ => carry_late(played, random),
    }
}

/// What happens in the end: early packets come, and late ones.
fn late_event(alloc: Global, played: &Played, random: &mut Random) -> Result<Event, AllocError> {
    match random.below(16) {
        0..6 => Ok(Event::Carry(random.below(24).saturating_add(1))),
        6..11 => Ok(carry_late(played, random)),
        11 => Ok(Event::Timeout(0)),
        12 => Ok(Event::Push(1)),
        13 => Ok(tick(random)),
        14 => {
            if random.below(10) == 0 {
                coming(alloc, 1, &[0])
            } else {
                Ok(Event::Tick(1))
            }
        }
        _ => Ok(Event::Carry(random.below(played.sent.len() as u64))),
    }
}

/// Until when the first phone waits.
#[derive(Clone, Copy, Debug)]
enum Until {
    /// It has put out so often.
    Outs(u64),
    /// It has put out another text with this message reference.
    Reference(u8),
}

/// Until when the first phone waits: until transaction value and RP reference come again, or the
/// reference of a submission that was accepted.
fn end_wanted(played: &Played, random: &mut Random) -> Until {
    if random.below(2) == 0 {
        return Until::Outs(random.below(6).saturating_add(1791));
    }
    match played.held.iter().find(|h| h.submission.phone == 0) {
        Some(held) => Until::Reference(held.submission.reference),
        None => Until::Outs(900),
    }
}

/// Whether the first phone has waited so long.
fn has_come(played: &Played, until: Until) -> bool {
    match until {
        Until::Outs(outs) => played.outs >= outs,
        Until::Reference(reference) => match last_of(&played.sent, 0) {
            Some(last) => played.outs >= 200 && last.reference == reference,
            None => false,
        },
    }
}

/// The first phone waits, as often as it can.
fn wait_until(alloc: Global, played: &mut Played, until: Until) -> Result<(), Fail> {
    for _ in 0..1840u16 {
        if !has_come(played, until) {
            happens(alloc, played, Event::Timeout(0))?;
        }
    }
    Ok(())
}

/// A random script happens.
fn all_happens(alloc: Global, played: &mut Played, random: &mut Random) -> Result<(), Fail> {
    all_typed(alloc, played, random)?;
    for _ in 0..14u8 {
        let event = early_event(played, random);
        happens(alloc, played, event)?;
    }
    let until = end_wanted(played, random);
    wait_until(alloc, played, until)?;
    for _ in 0..60u8 {
        let event = late_event(alloc, played, random)?;
        happens(alloc, played, event)?;
    }
    Ok(())
}

/// What is told of a random script, and what the walk finds.
fn told_and_found(alloc: Global, seed: u64) -> Result<(Option<Doubt>, Option<Doubt>), Fail> {
    let mut random = Random { state: seed };
    let mut played = Played {
        world: new_trusted(alloc, seed % 2 == 0)?,
        sent: Vec::new(alloc),
        held: Vec::new(alloc),
        outs: 0,
        events: 0,
        now: 0,
        found: None,
    };
    let happened = all_happens(alloc, &mut played, &mut random);
    let both = (played.world.accepted(), played.found);
    drop(played);
    happened?;
    Ok(both)
}

/// Which of four verdicts it is.
fn kind(doubt: Option<Doubt>) -> usize
    ensures { result < 4 }
{
    match doubt {
        None => 0,
        Some(doubt) => match doubt.why {
            Ground::Injected => 1,
            Ground::AnswerToAnother { .. } => 2,
            Ground::ReferenceUsedAgain { .. } => 3,
        },
    }
}

#[test]
fn tells_of_twenty_random_scripts_what_a_walk_finds(rt: HostRuntime) -> Result<(), Fail> {
    let mut seen = [false; 4];
    for seed in 1..=20u64 {
        let (told, found) = told_and_found(rt.alloc(), seed)?;
        same(&rt, &seed, &told, &found);
        seen[kind(found)] = true;
    }
    same(&rt, &"each verdict comes", &seen, &[true; 4]);
    Ok(())
}
