//! What the centre answers to a call, beside what a row wants.

use sms_message::{Dropped, Outcome, Step};
use std::process::Abort;

/// Whether these packets are put out.
fn are_packets(packets: &[Vec<u8>], wanted: &[&[u8]]) -> bool {
    for (packet, octets) in packets.iter().zip(wanted) {
        if packet.as_slice() != *octets {
            return false;
        }
    }
    packets.len() == wanted.len()
}

/// Whether a call has this answer, and puts out these packets.
pub fn is_answer(
    told: &Result<Step, Dropped>,
    wanted: Result<Outcome, Dropped>,
    packets: &[&[u8]],
) -> bool {
    match told {
        Ok(step) => wanted == Ok(step.outcome) && are_packets(&step.packets, packets),
        Err(why) => wanted == Err(*why) && packets.is_empty(),
    }
}

/// No row is answered otherwise.
pub fn none_differs(rt: &impl Abort, other: Option<&'static str>) {
    assert_eq!(rt; other, None);
}
