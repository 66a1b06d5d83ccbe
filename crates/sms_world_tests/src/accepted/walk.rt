//! A plain walk over all packets, which finds after which event `accepted` need not mean accepted.

use crate::accepted::sent::{Sent, Submission, sent_of};
use sms_message::Outcome;
use sms_world::{Doubt, Event, Ground, TextSegment, TrustedWorld};
use std::alloc::{AllocError, Global};
use std::test::Fail;

/// How long an accepted submission is valid: two days.
pub const VALIDITY: u64 = 172_800;

/// How many texts are typed at the first phone.
pub const TEXTS: usize = 460;

/// A submission was accepted.
#[derive(Clone, Copy, Debug)]
pub struct Held {
    pub submission: Submission,
    pub moment: u64,
}

/// A script that is played: what was put out, accepted, and found first.
#[derive(Drop)]
pub struct Played {
    pub world: TrustedWorld,
    /// Of each packet.
    pub sent: Vec<Sent>,
    pub held: Vec<Held>,
    /// How often the first phone has put out a submission.
    pub outs: u64,
    pub events: u64,
    pub now: u64,
    pub found: Option<Doubt>,
}

/// What the packet of this number is.
fn packet(sent: &[Sent], number: u64) -> Option<Sent> {
    if number == 0 {
        return None;
    }
    sent.get(number as usize - 1).copied()
}

/// The last submission of a phone.
pub fn last_of(sent: &[Sent], phone: usize) -> Option<Submission> {
    for packet in sent.iter().rev() {
        if let Sent::Submission(submission) = packet {
            if submission.phone == phone {
                return Some(*submission);
            }
        }
    }
    None
}

/// The segment, by where its text was typed: the first texts at the first phone, the others at the
/// second.
fn segment_in(submission: Submission) -> TextSegment {
    let (phone, text) = if submission.text < TEXTS {
        (0usize, submission.text)
    } else {
        (1usize, submission.text - TEXTS)
    };
    TextSegment {
        phone,
        text: text.saturating_add(1),
        segment: submission.segment,
    }
}

/// Whether an accepted submission has not ended that has the reference of this one, and is of
/// another segment.
fn is_other_held(held: &Held, comes: Submission, now: u64) -> bool {
    let earlier = held.submission;
    now < held.moment.saturating_add(VALIDITY)
        && earlier.phone == comes.phone
        && earlier.reference == comes.reference
        && earlier.target == comes.target
        && (earlier.text != comes.text || earlier.segment != comes.segment)
}

/// Which condition a submission breaks that comes now.
fn submission_ground(held: &[Held], comes: Submission, now: u64) -> Option<Ground> {
    if !comes.reject {
        return None;
    }
    for earlier in held {
        if is_other_held(earlier, comes, now) {
            return Some(Ground::ReferenceUsedAgain {
                segment: segment_in(comes),
            });
        }
    }
    None
}

/// Which condition a packet breaks that comes now.
fn packet_ground(played: &Played, comes: Sent) -> Option<Ground> {
    match comes {
        Sent::Submission(submission) => submission_ground(&played.held, submission, played.now),
        Sent::Answer { phone, tag, to } => {
            let last = last_of(&played.sent, phone)?;
            if last.tag.is_same(tag) && last.packet != to {
                Some(Ground::AnswerToAnother { phone })
            } else {
                None
            }
        }
        Sent::Other => None,
    }
}

/// Which condition an event breaks that comes now.
fn ground(played: &Played, event: &Event) -> Option<Ground> {
    match event {
        Event::Inject { .. } => Some(Ground::Injected),
        Event::Carry(number) => packet_ground(played, packet(&played.sent, *number)?),
        _ => None,
    }
}

/// What was put out for an event is noted.
fn note_sent(alloc: Global, played: &mut Played, carried: u64) -> Result<(), Fail> {
    for place in played.sent.len()..played.world.world().packet_count() {
        let number = place.saturating_add(1);
        let Some(packet) = played.world.world().packet_on_way(number) else {
            return Ok(());
        };
        let sent = sent_of(alloc, packet, number as u64, carried)?;
        if let Sent::Submission(submission) = sent {
            if submission.phone == 0 {
                played.outs = played.outs.saturating_add(1);
            }
        }
        played.sent.push(sent)?;
    }
    Ok(())
}

/// A packet was accepted, if it was one with a submission.
fn note_held(played: &mut Played, number: u64) -> Result<(), AllocError> {
    if let Some(Sent::Submission(submission)) = packet(&played.sent, number) {
        played.held.push(Held {
            submission,
            moment: played.now,
        })?;
    }
    Ok(())
}

/// An event happens.
fn one_happens(alloc: Global, played: &mut Played, event: &Event) -> Result<(), Fail> {
    played.events = played.events.saturating_add(1);
    if played.found.is_none() {
        if let Some(why) = ground(played, event) {
            played.found = Some(Doubt {
                event: played.events,
                why,
            });
        }
    }
    let told = played.world.step(event);
    match (event, told) {
        (Event::Carry(number), Ok(Outcome::Held)) => note_held(played, *number)?,
        (Event::Tick(seconds), Ok(_)) => played.now = played.now.saturating_add(*seconds),
        _ => {}
    }
    let carried = if let Event::Carry(number) = event {
        *number
    } else {
        0
    };
    note_sent(alloc, played, carried)
}

/// An event happens, and is let go.
pub fn happens(alloc: Global, played: &mut Played, event: Event) -> Result<(), Fail> {
    let happened = one_happens(alloc, played, &event);
    drop(event);
    happened
}
