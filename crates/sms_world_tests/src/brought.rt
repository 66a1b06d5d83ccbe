//! What packets bring, by their octets alone.

use sms_message::{Dropped, Message, Relay, TransferUnit, read_message};
use sms_tpdu::{Body, UserData};
use sms_world::{Event, TextSegment, World};
use std::alloc::Global;

/// What a packet brings, by its octets. The texts of a script are each of a letter of their own.
#[derive(Clone, Copy, Debug, PartialEq, Eq)]
pub enum Brought {
    Submission {
        letter: u8,
        segment: u8,
        reject: bool,
    },
    Delivery {
        letter: u8,
        segment: u8,
    },
    Other,
}

/// Where a text was typed.
#[derive(Clone, Copy, Debug)]
pub struct Typed {
    pub phone: usize,
    /// As which of the texts of this phone, counted from 1.
    pub number: usize,
}

/// The first letter.
pub fn letter_of(user: &UserData) -> u8 {
    let values = match &user.body {
        Body::Septets(septets) => septets.as_slice(),
        Body::Octets(octets) => octets.as_slice(),
    };
    values.first().copied().unwrap_or(0)
}

/// Which segment it is.
pub fn segment_of(user: &UserData) -> u8 {
    let Some(header) = &user.header else {
        return 1;
    };
    match header.concat() {
        Some(place) => place.sequence,
        None => 1,
    }
}

/// What a transfer unit brings.
fn brought_by_unit(unit: &TransferUnit) -> Brought {
    match unit {
        TransferUnit::Submit(submit) => Brought::Submission {
            letter: letter_of(&submit.user),
            segment: segment_of(&submit.user),
            reject: submit.reject,
        },
        TransferUnit::Deliver(deliver) => Brought::Delivery {
            letter: letter_of(&deliver.user),
            segment: segment_of(&deliver.user),
        },
        _ => Brought::Other,
    }
}

/// What a message brings.
fn brought_by(message: &Message) -> Brought {
    match message {
        Message::Data {
            relay: Relay::Transfer { unit, .. },
            ..
        } => brought_by_unit(unit),
        _ => Brought::Other,
    }
}

/// What octets bring.
fn packet_brings(alloc: Global, octets: &[u8]) -> Result<Brought, Dropped> {
    let message = read_message(alloc, octets)?;
    let brought = brought_by(&message);
    drop(message);
    Ok(brought)
}

/// Whether it is a submission of this segment.
pub fn is_of_segment(brought: Brought, text: u8, number: u8) -> bool {
    match brought {
        Brought::Submission {
            letter,
            segment,
            ..
        } => letter == text && segment == number,
        _ => false,
    }
}

/// Whether it is a delivery of a segment of this text.
pub fn is_of_text(brought: Brought, text: u8) -> bool {
    match brought {
        Brought::Delivery { letter, .. } => letter == text,
        _ => false,
    }
}

/// What an event brings.
pub fn brought_at(alloc: Global, world: &World, event: &Event) -> Result<Brought, Dropped> {
    let Event::Carry(number) = event else {
        return Ok(Brought::Other);
    };
    match world.packet(*number) {
        None => Ok(Brought::Other),
        Some(octets) => packet_brings(alloc, octets),
    }
}

/// The segment of the text that is brought, by where the texts were typed.
pub fn segment_brought(typed: &[Typed], comes: Brought) -> Option<TextSegment> {
    let (letter, segment) = match comes {
        Brought::Submission {
            letter,
            segment,
            ..
        } => (letter, segment),
        Brought::Delivery { letter, segment } => (letter, segment),
        Brought::Other => return None,
    };
    let text = typed.get(usize::from(letter.saturating_sub(b'A')))?;
    Some(TextSegment {
        phone: text.phone,
        text: text.number,
        segment: usize::from(segment),
    })
}
