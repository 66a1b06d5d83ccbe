//! Lists of packets whose room is used again.

use sms_message::{Dropped, Spare, Step};

/// Hands the lists of a step to be used again.
pub fn give_back(spare: &mut Spare, told: Result<Step, Dropped>) {
    if let Ok(step) = told {
        let mut packets = step.packets;
        if let Some(list) = packets.pop() {
            spare.give(list);
        }
        if let Some(list) = packets.pop() {
            spare.give(list);
        }
    }
}
