//! What packets are that a submission or its answer travels in, by their octets alone.

ghost use Rattle.std.specs.Prelude.{◌<◌};

use sms_field::{Address, Symbols};
use sms_message::{Dropped, Message, Relay, Tag, TransferUnit, read_message};
use sms_script::Packet;
use sms_tpdu::{Body, Submit, UserData};
use std::alloc::Global;

/// An SMS-SUBMIT that a phone has put out.
#[derive(Clone, Copy, Debug)]
pub struct Submission {
    pub phone: usize,
    /// The number of its packet.
    pub packet: u64,
    pub tag: Tag,
    /// TP-RD.
    pub reject: bool,
    /// TP-MR.
    pub reference: u8,
    /// The last digit of TP-DA.
    pub target: u8,
    /// Which of the texts of a script it is of.
    pub text: usize,
    /// Which segment of it, counted from 1.
    pub segment: usize,
}

/// What a packet is.
#[derive(Clone, Copy, Debug)]
pub enum Sent {
    Submission(Submission),
    /// An RP-ACK or RP-ERROR to a phone.
    Answer {
        phone: usize,
        tag: Tag,
        /// The number of the packet that it was put out for.
        to: u64,
    },
    Other,
}

/// Of a letter, which one it is.
fn letter(values: &[u8], place: usize) -> usize
    ensures { result < 256 }
{
    let value = values.get(place).copied().unwrap_or(b'A');
    usize::from(value.saturating_sub(b'A'))
}

/// Which text it is: its first three letters say so, and those of each segment.
fn text_of(user: &UserData) -> usize {
    let values = match &user.body {
        Body::Septets(septets) => septets.as_slice(),
        Body::Octets(octets) => octets.as_slice(),
    };
    let (high, middle, low) = (letter(values, 0), letter(values, 1), letter(values, 2));
    high * 676 + middle * 26 + low
}

/// Which segment it is.
fn segment_of(user: &UserData) -> usize {
    let Some(header) = &user.header else {
        return 1;
    };
    match header.concat() {
        Some(place) => usize::from(place.sequence),
        None => 1,
    }
}

/// The last digit of an address.
fn last_digit(address: &Address) -> u8 {
    match &address.symbols {
        Symbols::Digits(digits) => digits.as_slice().last().copied().unwrap_or(0),
        Symbols::Name(_) => 0,
    }
}

/// A submission that was put out in this packet of a phone.
fn submission_in(submit: &Submit, tag: Tag, phone: usize, packet: u64) -> Submission {
    Submission {
        phone,
        packet,
        tag,
        reject: submit.reject,
        reference: submit.reference,
        target: last_digit(&submit.target),
        text: text_of(&submit.user),
        segment: segment_of(&submit.user),
    }
}

/// What a message is that a phone has put out.
fn sent_up(message: &Message, phone: usize, number: u64) -> Sent {
    match message {
        Message::Data {
            flag: false,
            tag,
            relay: Relay::Transfer {
                unit: TransferUnit::Submit(submit),
                ..
            },
        } => Sent::Submission(submission_in(submit, *tag, phone, number)),
        _ => Sent::Other,
    }
}

/// What a message is that was put out to a phone, where this packet was carried.
fn sent_down(message: &Message, phone: usize, to: u64) -> Sent {
    match message {
        Message::Data {
            flag: true,
            tag,
            relay: Relay::Answer { .. },
        } => Sent::Answer {
            phone,
            tag: *tag,
            to,
        },
        _ => Sent::Other,
    }
}

/// What the packet of this number is, which was put out where another was carried.
pub fn sent_of(
    alloc: Global,
    packet: Packet<'_>,
    number: u64,
    carried: u64,
) -> Result<Sent, Dropped> {
    let message = read_message(alloc, packet.octets)?;
    let sent = if packet.up {
        sent_up(&message, packet.phone, number)
    } else {
        sent_down(&message, packet.phone, carried)
    };
    drop(message);
    Ok(sent)
}
